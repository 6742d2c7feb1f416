//! Each call of a heap that grows, as it is meant, and the texts of its faults.

use crate::expectations::expect_equal;
use rh_core::HeapError;
use rh_growing::{GrowingError, GrowingHeap, Growth};
use rh_layout::{Command, Operand, Reply, RootId};
use rh_mutator::ConfigFault;
use rh_pace::PaceError;
use std::alloc::Allocator;
use std::process::Abort;
use std::rt::HostRuntime;

const A: RootId = RootId { owner: 1, slot: 0 };

const B: RootId = RootId { owner: 1, slot: 1 };

/// Commands of owner 1, and what is answered to each.
const ROWS: &[(Command, Reply)] = &[
    (Command::Alloc { dst: A, fields: 3 }, Reply::Object(3)),
    (Command::Raw { dst: B, fields: 2 }, Reply::Raw(2)),
    (
        Command::Store {
            obj: A,
            field: 0,
            operand: Operand::Root(B),
        },
        Reply::Done,
    ),
    (Command::Same { a: A, b: B }, Reply::Same(false)),
    (Command::Drop { root: B }, Reply::Done),
    (
        Command::Load {
            dst: B,
            src: A,
            field: 0,
        },
        Reply::Raw(2),
    ),
    (Command::Copy { dst: B, src: A }, Reply::Object(3)),
];

/// Faults and their texts.
const FAULTS: &[(GrowingError, &str)] = &[
    (GrowingError::BadFactor, "BadFactor"),
    (GrowingError::BadLimits, "BadLimits"),
    (
        GrowingError::Pace(PaceError::RatioTooLow),
        "no pace: RatioTooLow",
    ),
    (
        GrowingError::Heap(HeapError::Config(ConfigFault::BadRoots)),
        "no heap: BadRoots",
    ),
];

/// Ends the test unless the heap makes the answers of the rows.
fn expect_rows<R: Abort, A: Allocator + Copy>(rt: &R, heap: &mut GrowingHeap<A>) {
    for (command, reply) in ROWS {
        expect_equal(rt, heap.command(1, command), Ok(*reply));
    }
}

/// The least that a heap for objects of any size may have.
#[test]
fn a_heap_of_the_least_words(rt: HostRuntime) {
    let refused = GrowingHeap::new(rt.alloc(), 8_617).err();
    let need = PaceError::TooSmall { need: 8_618 };
    expect_equal(&rt, refused, Some(GrowingError::Pace(need)));
    let heap = GrowingHeap::new(rt.alloc(), 8_618).expect(&rt, "memory is ample");
    expect_equal(&rt, heap.growth(), Growth::up_to(8_618));
    expect_equal(&rt, heap.paced().heap().config().words, 8_618);
}

/// Stores, and reads what was stored.
fn expect_stores(rt: &impl Abort, heap: &mut GrowingHeap) {
    let raw = Command::Raw { dst: B, fields: 2 };
    expect_equal(rt, heap.insist(1, &raw), Ok(Reply::Raw(2)));
    expect_equal(rt, heap.put_text(1, B, 0, b"seven and"), Ok(()));
    expect_equal(rt, heap.store_all(1, A, 1, &[7, 8]), Ok(()));
    expect_equal(rt, heap.peek(1, A, 2), Ok(Reply::Int(8)));
}

/// Makes objects with their values, insisted on too. A value may be what the root held.
fn expect_makes(rt: &impl Abort, heap: &mut GrowingHeap) {
    let pair = [Operand::Int(7), Operand::Root(A)];
    expect_equal(rt, heap.make(1, A, 2, &pair), Ok(Reply::Object(2)));
    let made = heap.insist_make(1, A, 2, &pair);
    expect_equal(rt, made, Ok(Reply::Object(2)));
    let made = heap.insist_make_raw(1, B, 1, &[Operand::Int(5)]);
    expect_equal(rt, made, Ok(Reply::Raw(1)));
    expect_equal(rt, heap.peek(1, A, 1), Ok(Reply::Object(2)));
}

#[test]
fn objects_are_made_with_their_values(rt: HostRuntime) {
    let mut heap = GrowingHeap::new(rt.alloc(), 8_618).expect(&rt, "memory is ample");
    expect_makes(&rt, &mut heap);
}

/// Watches two objects, and one of them no more.
fn expect_watches(rt: &impl Abort, heap: &mut GrowingHeap) {
    expect_equal(rt, heap.watch_room(2), Ok(()));
    expect_equal(rt, heap.watch(1, A), Ok(0));
    expect_equal(rt, heap.watch(1, B), Ok(1));
    assert!(rt; heap.unwatch(1));
}

/// Collects, and gives memory back.
fn expect_collected(rt: &impl Abort, heap: &mut GrowingHeap) {
    assert!(rt; !heap.increment().began);
    expect_equal(rt, heap.collect().map(|f| f.live_words), Ok(13));
    expect_equal(rt, heap.next_gone(), None);
    expect_equal(rt, heap.release(), Ok(()));
    expect_equal(rt, heap.peek(1, A, 1), Ok(Reply::Int(7)));
}

/// Each call is made once.
#[test]
fn each_call_is_answered(rt: HostRuntime) {
    let mut heap = GrowingHeap::new(rt.alloc(), 100_000).expect(&rt, "memory is ample");
    expect_equal(&rt, heap.paced().heap().config().words, 40_000);
    expect_rows(&rt, &mut heap);
    expect_stores(&rt, &mut heap);
    expect_watches(&rt, &mut heap);
    expect_collected(&rt, &mut heap);
}

/// Each fault has its text.
#[test]
fn faults_have_their_texts(rt: HostRuntime) {
    for &(fault, text) in FAULTS {
        let shown = format!(in rt.alloc(); "{fault}").expect(&rt, "memory is ample");
        expect_equal(&rt, shown.as_str(), text);
    }
}
