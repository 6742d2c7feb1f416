//! Calls of a paced heap, and what each increment did.

use crate::commands::{drop_root, root, store};
use crate::expectations::{Row, expect_equal};
use rh_core::{Config, Flipped};
use rh_layout::{Command, Operand, Refusal, Reply, RootId, Value};
use rh_pace::{Did, Pace, PacedHeap, Seen};
use std::alloc::Allocator;
use std::process::Abort;

/// A cycle begins where fewer than 20 of 32 words are free.
pub const PACE: Pace = Pace {
    mark: 20,
    store_units: 8,
    log_limit: 4,
};

/// A heap of two owners with two slots each.
pub const SIZES: Config = Config {
    words: 32,
    ratio: 8,
    owners: 2,
    slots: 2,
    log_limit: 4,
    last_number: 100,
    last_epoch: 100,
};

const A: RootId = RootId { owner: 1, slot: 0 };

const B: RootId = RootId { owner: 1, slot: 1 };

const C: RootId = RootId { owner: 0, slot: 0 };

const D: RootId = RootId { owner: 0, slot: 1 };

/// A command of owner 1, its answer, and what its increment did, field by field: nothing new where
/// none followed. The last field is how many objects a flip kept.
type Step = (
    Command,
    Result<Reply, Refusal>,
    Option<(bool, u64, u32, Option<Flipped>, u32)>,
);

/// Two objects of 2 and 6 fields leave 20 words free, and no cycle begins; the third one begins it,
/// and grants nothing yet. The fourth grants 16 units: three objects are placed, of which the third
/// has no field, and one field is held. A store pays 8, which holds the entry, passes over its copy
/// and holds another field. The last object grants 24: five fields, its place, and its field, so
/// the cycle ends.
pub const STEPS: &[Step] = &[
    (
        Command::Alloc { dst: A, fields: 2 },
        Ok(Reply::Object(2)),
        Some((false, 0, 0, None, 0)),
    ),
    (
        Command::Alloc { dst: B, fields: 6 },
        Ok(Reply::Object(6)),
        Some((false, 0, 0, None, 0)),
    ),
    (
        Command::Alloc { dst: C, fields: 0 },
        Ok(Reply::Object(0)),
        Some((true, 0, 0, None, 0)),
    ),
    (Command::Drop { root: C }, Ok(Reply::Done), None),
    (
        Command::Alloc { dst: D, fields: 0 },
        Ok(Reply::Object(0)),
        Some((false, 1, 3, None, 0)),
    ),
    (
        Command::Load {
            dst: C,
            src: A,
            field: 0,
        },
        Ok(Reply::Nil),
        None,
    ),
    (Command::Same { a: A, b: B }, Ok(Reply::Same(false)), None),
    (
        Command::Store {
            obj: A,
            field: 1,
            operand: Operand::Root(B),
        },
        Ok(Reply::Done),
        Some((false, 3, 0, None, 0)),
    ),
    (
        Command::Store {
            obj: C,
            field: 0,
            operand: Operand::Nil,
        },
        Err(Refusal::NotObject),
        None,
    ),
    (
        Command::Alloc { dst: C, fields: 1 },
        Ok(Reply::Object(1)),
        Some((
            false,
            6,
            1,
            Some(Flipped {
                roots: 4,
                live_words: 17,
            }),
            4,
        )),
    ),
    (
        Command::Store {
            obj: A,
            field: 0,
            operand: Operand::Int(7),
        },
        Ok(Reply::Done),
        None,
    ),
    (
        Command::Alloc { dst: C, fields: 11 },
        Ok(Reply::Object(11)),
        Some((true, 0, 0, None, 0)),
    ),
    (
        Command::Alloc { dst: D, fields: 4 },
        Err(Refusal::SpaceFull { need: 6, free: 2 }),
        None,
    ),
];

/// A paced heap of 32 words.
pub fn small_heap<M: Allocator + Copy>(rt: &impl Abort, memory: M, sizes: Config) -> PacedHeap<M> {
    PacedHeap::new(memory, sizes, PACE)
        .ok()
        .expect(rt, "a heap")
}

/// Plays steps, and checks each answer and what was done.
pub fn play<M: Allocator + Copy>(rt: &impl Abort, heap: &mut PacedHeap<M>, steps: &[Step]) {
    for (row, (command, answer, done)) in steps.iter().enumerate() {
        let rt = &Row { rt, row };
        let before = heap.last_did();
        expect_equal(rt, heap.command(1, command), *answer);
        let told = match *done {
            Some((began, held, shaded, flipped, objects)) => Did {
                began,
                held,
                shaded,
                flipped,
                objects,
            },
            None => before,
        };
        expect_equal(rt, heap.last_did(), told);
    }
}

/// What a heap has and has seen once those steps were played.
fn expect_played<M: Allocator + Copy>(rt: &impl Abort, heap: &PacedHeap<M>) {
    let stat = heap.stat();
    expect_equal(rt, (stat.used, stat.free, stat.flips), (30, 2, 1));
    expect_equal(rt, heap.heap().epoch(), 2);
    let seen = Seen {
        biggest: 13,
        reached: 17,
    };
    expect_equal(rt, heap.seen(), seen);
}

#[test]
fn each_call_and_what_it_did(rt: HostRuntime) {
    let mut heap = small_heap(&rt, rt.alloc(), SIZES);
    expect_equal(&rt, (heap.last_did(), heap.pace()), (Did::NOTHING, PACE));
    play(&rt, &mut heap, STEPS);
    expect_equal(&rt, heap.increment(), Did::NOTHING);
    expect_played(&rt, &heap);
}

/// The words of the object that the root names, by each reader.
fn expect_object<M: Allocator + Copy>(
    rt: &impl Abort,
    heap: &PacedHeap<M>,
    name: RootId,
    fields: u32,
    last: Value,
) {
    let Some(Value::Ref(address)) = heap.root(name) else {
        assert!(rt; false, "no object");
        return;
    };
    expect_equal(rt, heap.fields(address), Some(fields));
    expect_equal(rt, heap.raw(address), Some(false));
    let value = heap
        .field(address, fields.saturating_sub(1))
        .map(|pair| pair.1);
    expect_equal(rt, value, Some(last));
    expect_equal(rt, heap.field(address, fields), None);
}

/// An object is made, stored to and read, and a second root names it.
fn make_and_share<M: Allocator + Copy>(rt: &impl Abort, heap: &mut PacedHeap<M>) {
    expect_equal(rt, heap.alloc(1, A, 2), Ok(Reply::Object(2)));
    expect_equal(rt, heap.store(1, A, 1, Operand::Int(-3)), Ok(Reply::Done));
    expect_equal(rt, heap.load(1, B, A, 1), Ok(Reply::Int(-3)));
    expect_equal(rt, heap.copy(1, C, A), Ok(Reply::Object(2)));
    expect_equal(rt, heap.same(1, A, C), Ok(Reply::Same(true)));
}

/// Drops the first root, and insists on a store to the object.
fn drop_and_store<M: Allocator + Copy>(rt: &impl Abort, heap: &mut PacedHeap<M>) {
    expect_equal(rt, heap.drop(1, A), Ok(Reply::Done));
    let nil = store(C, 0, Operand::Nil);
    expect_equal(rt, heap.insist(1, &nil), Ok(Reply::Done));
}

/// What is read of roots and addresses where no object is.
fn expect_nothing<M: Allocator + Copy>(rt: &impl Abort, heap: &PacedHeap<M>) {
    expect_equal(rt, heap.root(A), Some(Value::Nil));
    expect_equal(rt, heap.root(root(2, 0)), None);
    expect_equal(rt, heap.fields(1), None);
    expect_equal(rt, heap.raw(1), None);
}

#[test]
fn calls_one_by_one(rt: HostRuntime) {
    let mut heap = small_heap(&rt, rt.alloc(), SIZES);
    make_and_share(&rt, &mut heap);
    drop_and_store(&rt, &mut heap);
    expect_object(&rt, &heap, C, 2, Value::Int(-3));
    expect_nothing(&rt, &heap);
    refuse_and_make_raw(&rt, &mut heap);
}

/// A root of an owner that isn't there is refused, and a raw object is made.
fn refuse_and_make_raw<M: Allocator + Copy>(rt: &impl Abort, heap: &mut PacedHeap<M>) {
    expect_equal(rt, heap.command(2, &drop_root(C)), Err(Refusal::NoRoot));
    expect_equal(rt, heap.alloc_raw(1, B, 1), Ok(Reply::Raw(1)));
}
