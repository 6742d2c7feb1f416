//! Commands, items, sizes and replicas, written short.

use crate::expectations::{Row, expect_equal};
use rh_core::{Config, Heap};
use rh_layout::{Command, Item, Operand, Refusal, Reply, RootId, Value};
use rh_partial::{PartialReplica, Piece};
use std::alloc::Allocator;
use std::process::Abort;

/// The sizes of a heap with two owners and two slots each.
pub const SIZES: Config = Config {
    words: 64,
    ratio: 8,
    owners: 2,
    slots: 2,
    log_limit: 8,
    last_number: 100,
    last_epoch: 9,
};

/// The root of an owner's slot.
pub fn root(owner: u32, slot: u32) -> RootId {
    RootId { owner, slot }
}

pub fn alloc(dst: RootId, fields: u32) -> Command {
    Command::Alloc { dst, fields }
}

pub fn load(dst: RootId, src: RootId, field: u32) -> Command {
    Command::Load { dst, src, field }
}

pub fn store(obj: RootId, field: u32, operand: Operand) -> Command {
    Command::Store {
        obj,
        field,
        operand,
    }
}

pub fn drop_root(root: RootId) -> Command {
    Command::Drop { root }
}

/// A command of owner 1, and its answer.
pub type Asked = (Command, Result<Reply, Refusal>);

/// Checks the answers to commands of owner 1 in turn.
pub fn expect_answers<A: Allocator + Copy>(rt: &impl Abort, heap: &mut Heap<A>, asked: &[Asked]) {
    for (row, &(command, answer)) in asked.iter().enumerate() {
        let rt = &Row { rt, row };
        expect_equal(rt, heap.command(1, &command), answer);
    }
}

/// Checks that commands of owner 1 are accepted in turn.
pub fn expect_accepted<A: Allocator + Copy>(
    rt: &impl Abort,
    heap: &mut Heap<A>,
    commands: &[Command],
) {
    for (row, command) in commands.iter().enumerate() {
        let rt = &Row { rt, row };
        assert!(rt; heap.command(1, command).is_ok());
    }
}

/// The item of a store.
pub fn item(object: u32, field: u32, number: u64, value: Value) -> Item {
    Item {
        object,
        field,
        number,
        value,
    }
}

/// A piece of these items, at most 64.
pub fn piece(rt: &impl Abort, epoch: u64, items: &[Item]) -> Piece {
    let mut piece = Piece::new(epoch);
    for item in items {
        piece.push(*item).expect(rt, "there is room");
    }
    piece
}

/// The replica that took the piece.
pub fn replica_of<A: Allocator + Copy>(
    rt: &impl Abort,
    memory: A,
    piece: &Piece,
) -> PartialReplica<A> {
    let empty = PartialReplica::empty(memory, piece.epoch());
    empty.take(piece).ok().expect(rt, "memory is ample")
}
