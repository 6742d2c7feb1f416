//! The calls of the headline, as they are meant.

use crate::commands::{SIZES, item, piece};
use crate::expectations::expect_equal;
use rh_core::laws::headline::{Replicas, headline};
use rh_core::{Answer, Event, Heap};
use rh_layout::{Item, Value};
use rh_partial::{PartialReplica, Piece, Reason};
use std::alloc::Global;
use std::process::Abort;

/// Two stores of one field, the older one first.
fn old() -> Item {
    item(3, 0, 1, Value::Nil)
}

fn new() -> Item {
    item(3, 0, 2, Value::Int(5))
}

/// A store of another field.
fn other() -> Item {
    item(3, 1, 4, Value::Ref(9))
}

/// A replica of epoch 1 that took the old store.
fn with_old<R: AllocGlobal + Abort>(rt: &R) -> PartialReplica {
    let made = PartialReplica::empty(rt.alloc(), 1).take(&piece(rt, 1, &[old()]));
    made.ok().expect(rt, "memory is ample")
}

/// The call of the headline on a heap, in which a cycle begins.
fn called<R: AllocGlobal + Abort>(
    rt: &R,
    heap: &mut Heap,
    (first, second): (&PartialReplica, &PartialReplica),
    pieces: &[Piece],
    others: &[Piece],
) -> Result<Replicas<Global>, Reason> {
    let mut answers = Vec::new(rt.alloc());
    let events: [Event<Global>; 1] = [Event::Begin];
    let returned = headline(first, second, pieces, others, heap, &events, &mut answers);
    let has_begun = matches!(answers.as_slice(), [Answer::Begin(Ok(1))]);
    assert!(rt; returned.run.is_ok() && has_begun);
    returned.replicas
}

/// Checks that the other replica has the items of this one.
fn expect_same<R: AllocGlobal + Abort>(rt: &R, one: &PartialReplica, other: &PartialReplica) {
    expect_equal(rt, other.len(), one.len());
    for i in 0..one.len() {
        if i < other.len() {
            expect_equal(rt, other.entry(i), one.entry(i));
        }
    }
}

/// The call on a new heap.
fn called_on_new_heap<R: AllocGlobal + Abort>(
    rt: &R,
    replicas: (&PartialReplica, &PartialReplica),
    pieces: &[Piece],
    others: &[Piece],
) -> Result<Replicas<Global>, Reason> {
    let mut heap = Heap::new(rt.alloc(), SIZES).expect(rt, "a heap");
    called(rt, &mut heap, replicas, pieces, others)
}

/// What two replicas are that took some pieces, the second the others. The first had taken the old
/// store.
fn hold<R: AllocGlobal + Abort>(
    rt: &R,
    pieces: &[Piece],
    others: &[Piece],
) -> Result<Replicas<Global>, Reason> {
    let first = with_old(rt);
    let second = PartialReplica::empty(rt.alloc(), 1);
    called_on_new_heap(rt, (&first, &second), pieces, others)
}

/// Checks that both replicas hold the newest of the items, and that their joins have as many.
fn expect_held<R: AllocGlobal + Abort>(rt: &R, made: &Replicas<Global>) {
    let first = &made.first;
    expect_equal(rt, first.len(), 2);
    if first.len() == 2 {
        expect_equal(rt, (first.entry(0), first.entry(1)), (new(), other()));
    }
    expect_same(rt, first, &made.second);
    expect_equal(rt, made.joined.len(), made.turned.len());
}

/// Replicas that took the same items in another order, with a repeat, hold the newest of them.
#[test]
fn the_same_items_make_the_same_replica(rt: HostRuntime) {
    let pieces = [piece(&rt, 1, &[new()]), piece(&rt, 1, &[other()])];
    let others = [
        piece(&rt, 1, &[other(), new()]),
        piece(&rt, 1, &[old(), new()]),
    ];
    let made = hold(&rt, &pieces, &others).ok();
    expect_held(&rt, &made.expect(&rt, "memory is ample"));
}

/// A piece of another epoch makes no replica.
#[test]
fn a_piece_of_another_epoch_is_told(rt: HostRuntime) {
    let pieces = [piece(&rt, 1, &[new()])];
    let others = [piece(&rt, 2, &[new()])];
    expect_equal(
        &rt,
        hold(&rt, &pieces, &others).err(),
        Some(Reason::OtherEpoch),
    );
}
