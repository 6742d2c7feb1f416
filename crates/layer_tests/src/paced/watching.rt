//! Objects that are watched in a heap that collects by itself.

use crate::commands::{drop_root, store};
use crate::expectations::{Row, expect_equal};
use crate::paced::calls::{SIZES, small_heap};
use rh_core::{RoomError, WatchError};
use rh_layout::{Command, Operand, RootId};
use rh_pace::PacedHeap;
use std::alloc::Allocator;
use std::process::Abort;

const A: RootId = RootId { owner: 1, slot: 0 };

const B: RootId = RootId { owner: 1, slot: 1 };

/// What is told in turn.
fn expect_told<M: Allocator + Copy>(rt: &impl Abort, heap: &mut PacedHeap<M>, told: &[u32]) {
    for (row, &ticket) in told.iter().enumerate() {
        let rt = &Row { rt, row };
        expect_equal(rt, heap.next_gone(), Some(ticket));
    }
    expect_equal(rt, heap.next_gone(), None);
}

/// Rooms for tickets that are asked for in turn, and what is answered.
const ROOMS: &[(u32, Result<(), RoomError>)] = &[
    (65_537, Err(RoomError::TooMany)),
    (2, Ok(())),
    (1, Err(RoomError::Fewer { now: 2 })),
];

/// What an owner asks to watch, and what is answered.
type Watched = (u32, RootId, Result<u32, WatchError>);

/// Before there is an object.
const WATCHED_NOTHING: &[Watched] = &[
    (1, RootId { owner: 2, slot: 0 }, Err(WatchError::NoRoot)),
    (0, A, Err(WatchError::NotYours)),
    (1, A, Err(WatchError::NotObject)),
];

/// With room for two tickets.
const WATCHED_TWICE: &[Watched] = &[(1, A, Ok(0)), (1, A, Ok(1)), (1, A, Err(WatchError::Full))];

/// Watches in turn.
fn watch_each<M: Allocator + Copy>(rt: &impl Abort, heap: &mut PacedHeap<M>, rows: &[Watched]) {
    for (row, &(owner, root, answer)) in rows.iter().enumerate() {
        let rt = &Row { rt, row };
        expect_equal(rt, heap.watch(owner, root), answer);
    }
}

/// Makes an object of one field.
fn make_object<M: Allocator + Copy>(rt: &impl Abort, heap: &mut PacedHeap<M>, dst: RootId) {
    let made = heap.command(1, &Command::Alloc { dst, fields: 1 });
    assert!(rt; made.is_ok());
}

/// Room for tickets, and each refusal of a watch.
#[test]
fn each_watch_is_answered(rt: HostRuntime) {
    let mut heap = small_heap(&rt, rt.alloc(), SIZES);
    for (row, &(tickets, answer)) in ROOMS.iter().enumerate() {
        let rt = Row { rt: &rt, row };
        expect_equal(&rt, heap.watch_room(tickets), answer);
    }
    watch_each(&rt, &mut heap, WATCHED_NOTHING);
    make_object(&rt, &mut heap, A);
    watch_each(&rt, &mut heap, WATCHED_TWICE);
    expect_equal(&rt, heap.unwatch(0), true);
    expect_equal(&rt, heap.unwatch(0), false);
    expect_equal(&rt, heap.watch(1, A), Ok(0));
}

/// Makes two objects and watches both. The first refers to the second, whose root is dropped.
fn watch_both<M: Allocator + Copy>(rt: &impl Abort, heap: &mut PacedHeap<M>) {
    expect_equal(rt, heap.watch_room(3), Ok(()));
    for (ticket, dst) in [(0, A), (1, B)] {
        make_object(rt, heap, dst);
        expect_equal(rt, heap.watch(1, dst), Ok(ticket));
    }
    let stored = heap.command(1, &store(A, 0, Operand::Root(B)));
    assert!(rt; stored.is_ok());
    assert!(rt; heap.command(1, &drop_root(B)).is_ok());
}

/// Makes raw objects, which ends cycles as it goes.
fn make_raw_objects<M: Allocator + Copy>(rt: &impl Abort, heap: &mut PacedHeap<M>) {
    for _ in 0..64 {
        assert!(rt; heap.insist(1, &Command::Raw { dst: B, fields: 4 }).is_ok());
    }
}

/// Collects twice.
fn collect_twice<M: Allocator + Copy>(rt: &impl Abort, heap: &mut PacedHeap<M>) {
    for _ in 0..2 {
        assert!(rt; heap.collect().is_ok());
    }
}

/// Calls of which each may end a cycle lead to what is told, in their order. What the roots reach
/// isn't told.
#[test]
fn what_is_gone_is_told(rt: HostRuntime) {
    let mut heap = small_heap(&rt, rt.alloc(), SIZES);
    watch_both(&rt, &mut heap);
    assert!(rt; heap.collect().is_ok());
    expect_told(&rt, &mut heap, &[]);
    assert!(rt; heap.command(1, &store(A, 0, Operand::Nil)).is_ok());
    make_raw_objects(&rt, &mut heap);
    expect_told(&rt, &mut heap, &[1]);
    assert!(rt; heap.command(1, &drop_root(A)).is_ok());
    collect_twice(&rt, &mut heap);
    expect_told(&rt, &mut heap, &[0]);
}
