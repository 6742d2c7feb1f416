//! Tickets of a heap beside its collector, and of one under a lock.

use crate::calls::{A, ALLOC_NONE, ALLOC_ONE, B, DROP};
use crate::closing::shared_of;
use crate::expectations::{Row, expect_equal};
use crate::starts::{EAGER, SMALL};
use rh_collector::Collector;
use rh_core::{Config, Heap, RoomError, WatchError};
use rh_layout::{Command, RootId};
use rh_partial::PartialReplica;
use rh_shared::{Kept, Mutator, SharedConfig, SharedHeap, Start};
use std::process::Abort;
use std::sync::Wait;

/// 64 units of credit for each word that is allocated in a cycle, so that the allocation that
/// follows the one by which the cycle begins ends it.
const AMPLE: Config = Config { ratio: 64, ..SMALL };

/// A cycle begins where fewer than 58 of the 64 words are free.
const LATE: SharedConfig = SharedConfig {
    mark: 58,
    history: 16,
    ..EAGER
};

const SHARED: RootId = RootId { owner: 0, slot: 0 };

/// Two words, in slots of owner 1 and in one that all owners see.
const ALLOC_AGAIN: Command = Command::Alloc { dst: A, fields: 0 };

const ALLOC_SHARED: Command = Command::Alloc {
    dst: SHARED,
    fields: 0,
};

const DROP_B: Command = Command::Drop { root: B };

/// What a heap is asked, in turn with what it answers.
#[derive(Clone, Copy)]
enum Ask {
    /// A command of owner 1, which is accepted, and the increment that follows it.
    Call(Command),
    /// Room for so many tickets in all.
    Room(u32, Result<(), RoomError>),
    /// A ticket that watches the object in an owner's root.
    Watch(u32, RootId, Result<u32, WatchError>),
    /// Whether a ticket is freed.
    Unwatch(u32, bool),
    /// The ticket that is told.
    Gone(Option<u32>),
}

/// Rooms and watches, and their refusals, in order. Then the first object is dropped, and told by
/// the flip that leaves it behind, neither before its cycle nor in it. Its number is free then, and
/// watches again. The second flip tells both tickets of one object, in the order of their numbers.
const ASKED: &[Ask] = &[
    Ask::Room(0, Ok(())),
    Ask::Room(65_537, Err(RoomError::TooMany)),
    Ask::Call(ALLOC_ONE),
    Ask::Watch(1, A, Err(WatchError::Full)),
    Ask::Room(2, Ok(())),
    Ask::Room(1, Err(RoomError::Fewer { now: 2 })),
    Ask::Room(2, Ok(())),
    Ask::Watch(2, A, Err(WatchError::NoRoot)),
    Ask::Watch(0, B, Err(WatchError::NotYours)),
    Ask::Watch(1, B, Err(WatchError::NotObject)),
    Ask::Watch(1, A, Ok(0)),
    Ask::Watch(1, A, Ok(1)),
    Ask::Watch(1, B, Err(WatchError::NotObject)),
    Ask::Watch(1, A, Err(WatchError::Full)),
    Ask::Unwatch(1, true),
    Ask::Unwatch(1, false),
    Ask::Unwatch(2, false),
    Ask::Call(ALLOC_NONE),
    Ask::Watch(1, B, Ok(1)),
    Ask::Call(DROP),
    Ask::Gone(None),
    Ask::Call(ALLOC_AGAIN),
    Ask::Gone(None),
    Ask::Call(ALLOC_SHARED),
    Ask::Unwatch(0, false),
    Ask::Watch(1, B, Err(WatchError::Full)),
    Ask::Gone(Some(0)),
    Ask::Gone(None),
    Ask::Watch(1, B, Ok(0)),
    Ask::Call(DROP_B),
    Ask::Gone(None),
    Ask::Call(ALLOC_AGAIN),
    Ask::Gone(None),
    Ask::Call(ALLOC_SHARED),
    Ask::Gone(Some(0)),
    Ask::Gone(Some(1)),
    Ask::Gone(None),
    Ask::Room(65_536, Ok(())),
    Ask::Watch(1, A, Ok(0)),
];

/// Asks a collector, whose calls are followed by increments here.
fn ask_collector(rt: &impl Abort, collector: &mut Collector, ask: Ask) {
    match ask {
        Ask::Call(command) => {
            assert!(rt; collector.command(1, &command).is_ok());
            let _ = collector.increment();
        }
        Ask::Room(tickets, answer) => expect_equal(rt, collector.watch_room(tickets), answer),
        Ask::Watch(owner, root, answer) => {
            expect_equal(rt, collector.watch(owner, root), answer);
        }
        Ask::Unwatch(ticket, answer) => expect_equal(rt, collector.unwatch(ticket), answer),
        Ask::Gone(answer) => expect_equal(rt, collector.next_gone(), answer),
    }
}

/// Asks what lies under a lock otherwise.
fn ask_kept(rt: &impl Abort, kept: &mut Kept, ask: Ask) {
    match ask {
        Ask::Call(command) => assert!(rt; kept.call(1, &command).is_ok()),
        Ask::Room(tickets, answer) => expect_equal(rt, kept.watch_room(tickets), answer),
        Ask::Watch(owner, root, answer) => expect_equal(rt, kept.watch(owner, root), answer),
        Ask::Unwatch(ticket, answer) => expect_equal(rt, kept.unwatch(ticket), answer),
        Ask::Gone(answer) => expect_equal(rt, kept.next_gone(), answer),
    }
}

/// Asks a heap under its lock, by the mutator of owner 1 where it is a call.
fn ask_shared<R: Abort + Wait>(rt: &R, shared: &SharedHeap, one: &mut Mutator, ask: Ask) {
    match ask {
        Ask::Call(command) => assert!(rt; one.call(rt, shared, command).is_ok()),
        Ask::Room(tickets, answer) => expect_equal(rt, shared.watch_room(rt, tickets), answer),
        Ask::Watch(owner, root, answer) => {
            expect_equal(rt, shared.watch(rt, owner, root), answer);
        }
        Ask::Unwatch(ticket, answer) => expect_equal(rt, shared.unwatch(rt, ticket), answer),
        Ask::Gone(answer) => expect_equal(rt, shared.next_gone(rt), answer),
    }
}

#[test]
fn a_collector_tells_a_ticket_once(rt: HostRuntime) {
    let heap = Heap::new(rt.alloc(), AMPLE).expect(&rt, "a heap");
    let folded = PartialReplica::reserved(rt.alloc(), 0)
        .ok()
        .expect(&rt, "memory is ample");
    let mut collector = Collector::new(heap, folded, Vec::new(rt.alloc()), LATE);
    for (row, &ask) in ASKED.iter().enumerate() {
        ask_collector(&Row { rt: &rt, row }, &mut collector, ask);
    }
}

#[test]
fn what_lies_under_a_lock_tells_a_ticket_once(rt: HostRuntime) {
    let start = Start::new(rt.alloc(), AMPLE, LATE)
        .ok()
        .expect(&rt, "it starts");
    let Ok((mut kept, _ends)) = Kept::new(rt.alloc(), start) else {
        panic!(rt; "memory is ample")
    };
    for (row, &ask) in ASKED.iter().enumerate() {
        ask_kept(&Row { rt: &rt, row }, &mut kept, ask);
    }
}

#[test]
fn a_shared_heap_tells_a_ticket_once(rt: HostRuntime) {
    let (shared, mut mutators) = shared_of(&rt, AMPLE, LATE);
    let mut one = mutators.pop().expect(&rt, "owner 1");
    for (row, &ask) in ASKED.iter().enumerate() {
        ask_shared(&Row { rt: &rt, row }, &shared, &mut one, ask);
    }
}
