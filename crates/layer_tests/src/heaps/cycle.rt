//! Collection cycles, where no trace reaches.

ghost use Rattle.std.specs.Prelude.{◌≡◌, true, Err};
ghost use Rattle.rh_core.specs.declared.errors.BeginError.TheVariants.{CycleOn};

use crate::commands::{SIZES, alloc, expect_accepted, item, replica_of, store};
use crate::expectations::{Row, expect_equal};
use rh_core::laws::a_command_leaves_the_cycle;
use rh_core::laws::cycles::a_cycle_begins_with_nothing_placed;
use rh_core::{BeginError, Config, FlipError, Heap, IdleError, Kind, NoCycle, RecallError, Shaded};
use rh_layout::{Command, Item, Operand, RootId, Value};
use rh_partial::Piece;
use std::alloc::Allocator;
use std::process::Abort;

/// Where the first epoch is the last one no cycle begins, and after it where the second one is.
#[test]
fn the_last_epoch(rt: HostRuntime) {
    for (row, &last_epoch) in [1, 2].iter().enumerate() {
        let rt = Row { rt: &rt, row };
        let sizes = Config {
            last_epoch,
            ..SIZES
        };
        let mut heap = Heap::new(rt.alloc(), sizes).expect(&rt, "a heap");
        for epoch in 1..last_epoch {
            expect_equal(&rt, heap.begin(), Ok(epoch));
            expect_equal(&rt, (heap.epoch(), heap.is_in_cycle()), (epoch, true));
            assert!(rt; heap.flip().is_ok());
        }
        expect_equal(&rt, heap.config(), sizes);
        expect_equal(&rt, heap.begin(), Err(BeginError::EpochsSpent));
    }
}

/// In the last epoch, 2, neither a flip nor a recall is accepted, and the cycle is abandoned.
fn expect_last_epoch(rt: &impl Abort, heap: &mut Heap) {
    expect_equal(rt, heap.flip().err(), Some(FlipError::EpochsSpent));
    expect_equal(rt, heap.recall(), Err(RecallError::EpochsSpent));
    expect_equal(rt, heap.abandon(), Ok(0));
    expect_equal(rt, (heap.epoch(), heap.is_in_cycle()), (2, false));
}

/// A recall may reach the last epoch: then neither a flip nor another recall is accepted, and an
/// abandoned cycle leaves the epoch.
#[test]
fn the_last_epoch_by_a_recall(rt: HostRuntime) {
    let sizes = Config {
        last_epoch: 2,
        ..SIZES
    };
    let mut heap = Heap::new(rt.alloc(), sizes).expect(&rt, "a heap");
    expect_equal(&rt, heap.recall(), Err(RecallError::NoCycle));
    expect_equal(&rt, heap.abandon(), Err(NoCycle));
    expect_equal(&rt, heap.begin(), Ok(1));
    expect_equal(&rt, heap.recall(), Ok(2));
    expect_last_epoch(&rt, &mut heap);
}

/// Adds as many idle words to a cycle as there may be. More are refused.
fn spend_idle(rt: &impl Abort, heap: &mut Heap) {
    let most = 2_305_843_009_213_693_952;
    expect_equal(rt, heap.idle(most), Ok(most));
    for (row, &words) in [1, u64::MAX].iter().enumerate() {
        let rt = Row { rt, row };
        expect_equal(&rt, heap.idle(words), Err(IdleError::IdleSpent));
    }
    expect_equal(rt, (heap.stat().idle, heap.stat().granted), (most, 0));
}

/// A cycle has at most 2^61 idle words, and a new one none.
#[test]
fn idle_words(rt: HostRuntime) {
    let mut heap = Heap::new(rt.alloc(), SIZES).expect(&rt, "a heap");
    expect_equal(&rt, heap.idle(0), Err(IdleError::NoCycle));
    expect_equal(&rt, heap.begin(), Ok(1));
    spend_idle(&rt, &mut heap);
    assert!(rt; heap.flip().is_ok());
    expect_equal(&rt, heap.begin(), Ok(2));
    expect_equal(&rt, heap.stat().idle, 0);
}

/// In a cycle a second one begins at no time, whatever command comes before.
fn begins_after<A: Allocator + Copy>(
    heap: &mut Heap<A>,
    owner: u32,
    command: &Command,
) -> Result<u64, BeginError>
    ensures { heap.old.mutators.cycle ≡ true → result ≡ Err CycleOn }
{
    a_command_leaves_the_cycle();
    a_cycle_begins_with_nothing_placed();
    let _ = heap.command(owner, command);
    heap.begin()
}

const FIRST: RootId = RootId { owner: 1, slot: 0 };

const SECOND: RootId = RootId { owner: 1, slot: 1 };

/// A cycle in which a second object of one field is made, and the first one, of so many fields, is
/// placed after these stores.
fn place_first(rt: &impl Abort, heap: &mut Heap, fields: u32, stores: &[Command]) {
    assert!(rt; heap.command(1, &alloc(FIRST, fields)).is_ok());
    expect_equal(rt, heap.begin(), Ok(1));
    let answer = begins_after(heap, 1, &alloc(SECOND, 1));
    expect_equal(rt, answer, Err(BeginError::CycleOn));
    expect_accepted(rt, heap, stores);
    expect_equal(rt, heap.shade(FIRST), Ok(Shaded::Placed));
}

/// Deals of a kind, and checks how many entries are passed over, and the items.
fn deals(rt: &impl Abort, heap: &mut Heap, kind: Kind, passed: u32, items: &[Item]) -> Piece {
    let dealt = heap.deal(kind, 9).ok().expect(rt, "a piece");
    expect_equal(rt, (dealt.passed, dealt.piece.epoch()), (passed, 1));
    expect_equal(rt, dealt.piece.items(), items);
    dealt.piece
}

/// Of the entries only those of placed objects are dealt.
#[test]
fn entries_of_deals(rt: HostRuntime) {
    let stores = [
        store(FIRST, 0, Operand::Int(5)),
        store(SECOND, 0, Operand::Int(6)),
    ];
    let mut heap = Heap::new(rt.alloc(), SIZES).expect(&rt, "a heap");
    place_first(&rt, &mut heap, 1, &stores);
    let items = [item(0, 0, 1, Value::Int(5))];
    deals(&rt, &mut heap, Kind::Entries, 1, &items);
    expect_equal(&rt, (heap.stat().spent, heap.stat().granted), (5, 24));
}

/// The pair that stands in a field of to-space that has to be there.
fn replica_pair(rt: &impl Abort, heap: &Heap, a: u32, f: u32) -> (u64, Value) {
    let replica = heap.replica();
    assert!(rt; replica.is_object(a));
    assert!(rt; f < replica.fields(a));
    replica.field(a, f)
}

/// Checks that the pairs of these items stand in to-space before a flip and in from-space after it.
fn expect_kept_by_flip(rt: &impl Abort, heap: &mut Heap, items: &[Item]) {
    for (row, item) in items.iter().enumerate() {
        let rt = Row { rt, row };
        let pair = replica_pair(&rt, heap, item.object, item.field);
        expect_equal(&rt, pair, (item.number, item.value));
    }
    assert!(rt; heap.flip().is_ok());
    for (row, item) in items.iter().enumerate() {
        let rt = Row { rt, row };
        let pair = heap.field(item.object, item.field);
        expect_equal(&rt, pair, Some((item.number, item.value)));
    }
}

/// Copies come in order of placing, then of field. Once they are given, their pairs stand in
/// to-space before the flip and in from-space after it.
#[test]
fn copies_of_deals(rt: HostRuntime) {
    let sizes = Config {
        words: 16,
        log_limit: 4,
        ..SIZES
    };
    let mut heap = Heap::new(rt.alloc(), sizes).expect(&rt, "a heap");
    let stores = [store(FIRST, 0, Operand::Root(SECOND))];
    place_first(&rt, &mut heap, 2, &stores);
    expect_equal(&rt, heap.shade(SECOND), Ok(Shaded::Placed));
    let items = [
        item(0, 0, 1, Value::Ref(4)),
        item(0, 1, 0, Value::Nil),
        item(4, 0, 0, Value::Nil),
    ];
    let copies = deals(&rt, &mut heap, Kind::Copies, 0, &items);
    assert!(rt; heap.give(&replica_of(&rt, rt.alloc(), &copies)).is_ok());
    expect_kept_by_flip(&rt, &mut heap, &items);
}
