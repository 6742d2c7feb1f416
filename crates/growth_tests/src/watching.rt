//! Tickets of a heap that grows, and shrinks again.

use crate::expectations::expect_equal;
use rh_core::WatchError;
use rh_growing::{GrowingHeap, Growth};
use rh_layout::{Command, Operand, RootId};
use std::alloc::Allocator;
use std::process::Abort;
use std::rt::HostRuntime;

/// From 60 words on, for objects of 4 words.
const GROWTH: Growth = Growth {
    at_least: 60,
    at_most: 4_000,
    factor: 200,
    biggest: 4,
    ratio: 32,
    owners: 2,
    slots: 4,
};

/// The head of a list.
const HEAD: RootId = RootId { owner: 1, slot: 0 };

const NEW: RootId = RootId { owner: 1, slot: 1 };

const NEW_CELL: Command = Command::Alloc {
    dst: NEW,
    fields: 2,
};

/// What puts the new cell before the list.
const PUT: &[Command] = &[
    Command::Store {
        obj: NEW,
        field: 0,
        operand: Operand::Root(HEAD),
    },
    Command::Copy {
        dst: HEAD,
        src: NEW,
    },
];

const DROPS: &[Command] = &[Command::Drop { root: HEAD }, Command::Drop { root: NEW }];

/// Plays commands, none of which is refused.
fn play<A: Allocator + Copy>(rt: &impl Abort, heap: &mut GrowingHeap<A>, commands: &[Command]) {
    for command in commands {
        assert!(rt; heap.command(1, command).is_ok());
    }
}

/// The words of the space.
fn words<A: Allocator + Copy>(heap: &GrowingHeap<A>) -> u32 {
    heap.paced().heap().config().words
}

/// Watches the new cell, with more room where no ticket is free. Of each ticket `kept` says whether
/// its cell is in the list.
fn watch<A: Allocator + Copy>(
    rt: &impl Abort,
    heap: &mut GrowingHeap<A>,
    kept: &mut Vec<bool>,
    keeps: bool,
) {
    let mut answer = heap.watch(1, NEW);
    if answer == Err(WatchError::Full) {
        for _ in 0..7u32 {
            assert!(rt; kept.push(false).is_ok());
        }
        let room = u32::try_from(kept.len()).unwrap_or(u32::MAX);
        assert!(rt; heap.watch_room(room).is_ok());
        answer = heap.watch(1, NEW);
    }
    let ticket = answer.ok().expect(rt, "there is room");
    let place = kept.get_mut(ticket as usize);
    *place.expect(rt, "a ticket") = keeps;
}

/// Asks which tickets are to be told. Each is of a cell that isn't in the list. Answers how many.
fn tell<A: Allocator + Copy>(rt: &impl Abort, heap: &mut GrowingHeap<A>, kept: &[bool]) -> u32 {
    for told in 0..1_000u32 {
        let Some(ticket) = heap.next_gone() else {
            return told;
        };
        expect_equal(rt, kept.get(ticket as usize), Some(&false));
    }
    1_000
}

/// Collects twice, and asks which tickets are to be told.
fn tell_all<A: Allocator + Copy>(rt: &impl Abort, heap: &mut GrowingHeap<A>, kept: &[bool]) -> u32 {
    assert!(rt; heap.collect().is_ok());
    assert!(rt; heap.collect().is_ok());
    tell(rt, heap, kept)
}

/// Makes a list, between whose cells others are left out. All are watched. Answers how many tickets
/// were told.
fn make_list(rt: &impl Abort, heap: &mut GrowingHeap, kept: &mut Vec<bool>) -> u32 {
    let mut told: u32 = 0;
    for _ in 0..300u32 {
        for keeps in [false, true] {
            play(rt, heap, &[NEW_CELL]);
            watch(rt, heap, kept, keeps);
        }
        play(rt, heap, PUT);
        told = told.saturating_add(tell(rt, heap, kept));
    }
    told
}

/// The space grows and shrinks: each cell that was left out is told once, and a cell of the list
/// isn't while it is there.
fn grow_and_shrink(rt: &impl Abort, heap: &mut GrowingHeap, kept: &mut Vec<bool>) {
    let told = make_list(rt, heap, kept);
    assert!(rt; told > 100, "{told}");
    expect_equal(rt, told.saturating_add(tell_all(rt, heap, kept)), 300);
    assert!(rt; words(heap) > 20 * GROWTH.at_least);
    play(rt, heap, DROPS);
    for keeps in kept.iter_mut() {
        *keeps = false;
    }
    expect_equal(rt, tell_all(rt, heap, kept), 300);
    assert!(rt; words(heap) < 200);
}

#[test]
fn tickets_live_over_resizes(rt: HostRuntime) {
    let mut heap = GrowingHeap::of(rt.alloc(), GROWTH).expect(&rt, "memory is ample");
    let mut kept = Vec::new(rt.alloc());
    grow_and_shrink(&rt, &mut heap, &mut kept);
}
