//! Objects that are watched, and told once they are gone.

use crate::commands::{SIZES, alloc, drop_root, expect_accepted, store};
use crate::expectations::{Row, expect_equal, expect_refusals, expect_texts};
use refusing::refused_in_turn;
use rh_core::{Config, Heap, RoomError, WatchError};
use rh_layout::{Command, Operand, RootId};
use std::alloc::Allocator;
use std::process::Abort;

/// The sizes of a heap whose owners have three slots each.
const THREE_SLOTS: Config = Config { slots: 3, ..SIZES };

/// The object, in a root and later only in that, and the root of another that it refers to.
const OBJECT: RootId = RootId { owner: 1, slot: 0 };

const OTHER: RootId = RootId { owner: 1, slot: 1 };

/// Rooms for tickets that are asked for in turn, and what is answered.
const ROOMS: &[(u32, Result<(), RoomError>)] = &[
    (0, Ok(())),
    (65_537, Err(RoomError::TooMany)),
    (2, Ok(())),
    (1, Err(RoomError::Fewer { now: 2 })),
    (2, Ok(())),
];

/// What owners ask to watch in turn, and what is answered, in a heap with two objects and room for
/// two tickets.
const WATCHED: &[((u32, RootId), Result<u32, WatchError>)] = &[
    ((2, OBJECT), Err(WatchError::NoRoot)),
    ((0, RootId { owner: 2, slot: 0 }), Err(WatchError::NoRoot)),
    ((0, RootId { owner: 1, slot: 3 }), Err(WatchError::NoRoot)),
    ((0, RootId { owner: 1, slot: 2 }), Err(WatchError::NotYours)),
    (
        (1, RootId { owner: 1, slot: 2 }),
        Err(WatchError::NotObject),
    ),
    ((1, OTHER), Ok(0)),
    ((1, OBJECT), Ok(1)),
    (
        (1, RootId { owner: 0, slot: 0 }),
        Err(WatchError::NotObject),
    ),
    ((1, OBJECT), Err(WatchError::Full)),
];

/// A whole cycle, with ample idle work.
fn collect<A: Allocator + Copy>(rt: &impl Abort, heap: &mut Heap<A>) {
    assert!(rt; heap.begin().is_ok());
    assert!(rt; heap.idle(64).is_ok());
    assert!(rt; heap.shade(OBJECT).is_ok());
    for _ in 0..8 {
        let _ = heap.hold_next();
    }
    assert!(rt; heap.flip().is_ok());
}

/// What is told in turn.
fn expect_told<A: Allocator + Copy>(rt: &impl Abort, heap: &mut Heap<A>, told: &[u32]) {
    for (row, ticket) in told.iter().enumerate() {
        let rt = Row { rt, row };
        expect_equal(&rt, heap.next_gone(), Some(*ticket));
    }
    expect_equal(rt, heap.next_gone(), None);
}

/// A heap with the two objects.
fn with_objects<A: Allocator + Copy>(rt: &impl Abort, heap: &mut Heap<A>) {
    let stored = store(OBJECT, 0, Operand::Root(OTHER));
    expect_accepted(rt, heap, &[alloc(OBJECT, 1), alloc(OTHER, 0), stored]);
}

/// Nothing is watched before there is room. Then rooms and watches are asked for in turn.
fn watch_each<A: Allocator + Copy>(rt: &impl Abort, heap: &mut Heap<A>) {
    expect_equal(rt, heap.watch(1, OBJECT), Err(WatchError::Full));
    for (row, &(tickets, answer)) in ROOMS.iter().enumerate() {
        let rt = Row { rt, row };
        expect_equal(&rt, heap.watch_room(tickets), answer);
    }
    for (row, &((owner, root), answer)) in WATCHED.iter().enumerate() {
        let rt = Row { rt, row };
        expect_equal(&rt, heap.watch(owner, root), answer);
    }
}

/// A command, and a whole cycle that tells this.
fn collect_after<A: Allocator + Copy>(
    rt: &impl Abort,
    heap: &mut Heap<A>,
    command: Command,
    told: &[u32],
) {
    expect_accepted(rt, heap, &[command]);
    collect(rt, heap);
    expect_told(rt, heap, told);
}

/// A cycle that is abandoned tells nothing.
fn begin_and_abandon<A: Allocator + Copy>(rt: &impl Abort, heap: &mut Heap<A>) {
    assert!(rt; heap.begin().is_ok());
    assert!(rt; heap.abandon().is_ok());
    expect_told(rt, heap, &[]);
}

/// An object that a field still refers to isn't told. It is once that is nil. An abandoned cycle
/// tells nothing, and a flip tells in the order of tickets.
#[test]
fn a_ticket_is_told_once_its_object_is_gone(rt: HostRuntime) {
    let mut heap = Heap::new(rt.alloc(), THREE_SLOTS).expect(&rt, "a heap");
    with_objects(&rt, &mut heap);
    watch_each(&rt, &mut heap);
    collect_after(&rt, &mut heap, drop_root(OTHER), &[]);
    collect_after(&rt, &mut heap, store(OBJECT, 0, Operand::Nil), &[0]);
    expect_both_told(&rt, &mut heap);
}

/// A ticket that was told is the first to watch again. An abandoned cycle tells neither ticket, and a
/// whole one both.
fn expect_both_told<A: Allocator + Copy>(rt: &impl Abort, heap: &mut Heap<A>) {
    expect_equal(rt, heap.watch(1, OBJECT), Ok(0));
    expect_accepted(rt, heap, &[drop_root(OBJECT)]);
    begin_and_abandon(rt, heap);
    collect(rt, heap);
    expect_told(rt, heap, &[0, 1]);
}

/// Makes room for three tickets, watches the second object twice and the first once, and frees the
/// first ticket. It isn't freed twice, nor is one that isn't there.
fn watch_and_free<A: Allocator + Copy>(rt: &impl Abort, heap: &mut Heap<A>) {
    expect_equal(rt, heap.watch_room(3), Ok(()));
    for (row, &(root, ticket)) in [(OTHER, 0), (OTHER, 1), (OBJECT, 2)].iter().enumerate() {
        let rt = Row { rt, row };
        expect_equal(&rt, heap.watch(1, root), Ok(ticket));
    }
    for (row, &(ticket, freed)) in [(0, true), (0, false), (3, false)].iter().enumerate() {
        let rt = Row { rt, row };
        expect_equal(&rt, heap.unwatch(ticket), freed);
    }
}

/// A ticket that is freed isn't told. One that is to be told isn't freed.
#[test]
fn a_freed_ticket_is_not_told(rt: HostRuntime) {
    let mut heap = Heap::new(rt.alloc(), THREE_SLOTS).expect(&rt, "a heap");
    with_objects(&rt, &mut heap);
    watch_and_free(&rt, &mut heap);
    expect_the_others_told(&rt, &mut heap);
}

/// The other two tickets are told once both objects are gone.
fn expect_the_others_told<A: Allocator + Copy>(rt: &impl Abort, heap: &mut Heap<A>) {
    expect_accepted(rt, heap, &[drop_root(OTHER), drop_root(OBJECT)]);
    collect(rt, heap);
    expect_equal(rt, heap.unwatch(1), false);
    expect_equal(rt, heap.watches().room(), 3);
    expect_told(rt, heap, &[1, 2]);
}

/// Makes a heap and room for tickets. Answers whether memory was refused.
fn is_refused_room<A: Allocator + Copy>(rt: &impl Abort, memory: A) -> bool {
    let mut made = Heap::new(memory, THREE_SLOTS);
    match &mut made {
        Ok(heap) => is_refused_room_in(rt, heap),
        Err(_) => true,
    }
}

/// Makes room for tickets, and checks that room that is refused changes nothing. Answers whether
/// memory was refused.
fn is_refused_room_in<A: Allocator + Copy>(rt: &impl Abort, heap: &mut Heap<A>) -> bool {
    with_objects(rt, heap);
    for tickets in [1, 64] {
        let room = heap.watches().room();
        if let Err(why) = heap.watch_room(tickets) {
            expect_equal(rt, why, RoomError::OutOfMemory);
            expect_equal(rt, heap.watches().room(), room);
            expect_equal(rt, heap.watch(1, OBJECT).is_ok(), room == 1);
            return true;
        }
    }
    false
}

/// Of a heap that is made and gets room for tickets each allocation is refused once.
#[test]
fn each_room_is_refused_in_turn(rt: HostRuntime) {
    let refused = refused_in_turn(rt.alloc(), |memory| is_refused_room(&rt, memory));
    expect_refusals(&rt, refused, 8);
}

/// Why there is no room for tickets.
const ROOM_TEXTS: &[(RoomError, &str)] = &[
    (RoomError::Fewer { now: 2 }, "Fewer 2"),
    (RoomError::TooMany, "TooMany"),
    (RoomError::OutOfMemory, "out of memory"),
];

/// Why an object isn't watched.
const WATCH_TEXTS: &[(WatchError, &str)] = &[
    (WatchError::NoRoot, "NoRoot"),
    (WatchError::NotYours, "NotYours"),
    (WatchError::NotObject, "NotObject"),
    (WatchError::Full, "Full"),
];

#[test]
fn texts_of_refused_watches(rt: HostRuntime) {
    expect_texts(&rt, ROOM_TEXTS);
    expect_texts(&rt, WATCH_TEXTS);
}
