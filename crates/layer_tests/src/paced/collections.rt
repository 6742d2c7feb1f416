//! Collections on demand, and memory that is given back.

use crate::commands::{alloc, load, store};
use crate::expectations::{Row, expect_equal};
use crate::paced::calls::{PACE, SIZES, STEPS, play, small_heap};
use refusing::refused_in_turn;
use rh_core::{Config, Flipped, ReleaseError};
use rh_layout::{Operand, Refusal, Reply, RootId};
use rh_pace::{Did, EpochsSpent, PacedHeap};
use std::alloc::Allocator;
use std::process::Abort;

const A: RootId = RootId { owner: 1, slot: 0 };

const D: RootId = RootId { owner: 0, slot: 1 };

/// How many steps come before, how many roots hold references, and the words of what is kept.
const STAGES: &[(usize, u32, u32)] = &[
    (0, 0, 0),
    (1, 1, 4),
    (2, 2, 12),
    // A cycle began.
    (3, 3, 14),
    (4, 2, 12),
    // Objects are placed, and a field is held.
    (5, 3, 14),
    // An entry was looked at.
    (8, 3, 14),
    // A cycle ended, and one began with most of the space in use.
    (10, 4, 17),
    (12, 4, 27),
];

/// Gives a heap so many of the steps' commands.
fn command_each<M: Allocator + Copy>(heap: &mut PacedHeap<M>, steps: usize) {
    for step in STEPS.iter().take(steps) {
        let _ = heap.command(1, &step.0);
    }
}

/// Collects twice, each time with this flip. The second collection begins a cycle.
fn expect_two_collections<M: Allocator + Copy>(
    rt: &impl Abort,
    heap: &mut PacedHeap<M>,
    flipped: Flipped,
) {
    let flips = heap.stat().flips;
    expect_equal(rt, heap.collect(), Ok(flipped));
    expect_equal(rt, heap.last_did().flipped, Some(flipped));
    expect_equal(rt, heap.collect(), Ok(flipped));
    expect_equal(rt, heap.last_did().began, true);
    let stat = heap.stat();
    let used = u64::from(flipped.live_words);
    expect_equal(rt, (stat.cycle, stat.used), (false, used));
    expect_equal(rt, stat.flips, flips.saturating_add(2));
}

/// Whatever the stage of a cycle, a collection ends it, and keeps what the roots reach and what was
/// placed. A second one begins anew.
#[test]
fn from_each_stage(rt: HostRuntime) {
    for (row, &(steps, roots, live_words)) in STAGES.iter().enumerate() {
        let rt = Row { rt: &rt, row };
        let mut heap = small_heap(&rt, rt.alloc(), SIZES);
        command_each(&mut heap, steps);
        expect_two_collections(&rt, &mut heap, Flipped { roots, live_words });
    }
}

/// An object that doesn't fit isn't made, though the heap was collected twice. Another refusal is
/// told at once.
fn insist_in_vain<M: Allocator + Copy>(rt: &impl Abort, heap: &mut PacedHeap<M>) {
    let full = Err(Refusal::SpaceFull { need: 6, free: 5 });
    expect_equal(rt, heap.insist(1, &alloc(D, 4)), full);
    expect_equal(rt, heap.stat().flips, 3);
    let answer = heap.insist(1, &load(D, D, 0));
    expect_equal(rt, answer, Err(Refusal::NoField));
}

/// An object that fits once the heap was collected is made; one that doesn't isn't.
#[test]
fn insisting_where_the_heap_is_full(rt: HostRuntime) {
    let mut heap = small_heap(&rt, rt.alloc(), SIZES);
    play(&rt, &mut heap, STEPS);
    insist_in_vain(&rt, &mut heap);
    insist_on_what_fits(&rt, &mut heap);
}

/// An object that fits is made at once, and another one once the heap was collected.
fn insist_on_what_fits<M: Allocator + Copy>(rt: &impl Abort, heap: &mut PacedHeap<M>) {
    expect_equal(rt, heap.insist(1, &alloc(D, 3)), Ok(Reply::Object(3)));
    expect_equal(rt, (heap.stat().flips, heap.stat().free), (3, 0));
    // What D named before isn't reached: the first collection makes room.
    expect_equal(rt, heap.insist(1, &alloc(D, 0)), Ok(Reply::Object(0)));
}

/// A store that finds the log full is made once the heap was collected, which empties the log.
#[test]
fn insisting_where_the_log_is_full(rt: HostRuntime) {
    let mut heap = small_heap(&rt, rt.alloc(), SIZES);
    command_each(&mut heap, 3);
    let store = store(A, 0, Operand::Int(5));
    for _ in 0..SIZES.log_limit {
        expect_equal(&rt, heap.command(1, &store), Ok(Reply::Done));
    }
    expect_equal(&rt, heap.command(1, &store), Err(Refusal::LogFull));
    expect_equal(&rt, heap.insist(1, &store), Ok(Reply::Done));
    let stat = heap.stat();
    expect_equal(&rt, (stat.cycle, stat.flips, stat.number), (false, 1, 5));
}

/// Where the epoch is the last one nothing is collected.
#[test]
fn the_last_epoch(rt: HostRuntime) {
    let sizes = Config {
        last_epoch: 2,
        ..SIZES
    };
    let mut heap = small_heap(&rt, rt.alloc(), sizes);
    expect_equal(&rt, heap.collect().is_ok(), true);
    let did = heap.last_did();
    expect_equal(&rt, heap.collect(), Err(EpochsSpent));
    expect_equal(&rt, heap.last_did(), did);
    let full = Err(Refusal::SpaceFull { need: 33, free: 32 });
    expect_equal(&rt, heap.insist(1, &alloc(D, 31)), full);
    expect_equal(&rt, heap.increment(), Did::NOTHING);
}

/// Collects, and gives memory back, which changes nothing that is read.
fn collect_and_release<M: Allocator + Copy>(rt: &impl Abort, heap: &mut PacedHeap<M>) {
    assert!(rt; heap.collect().is_ok());
    let before = (heap.stat(), heap.root(A));
    expect_equal(rt, heap.release(), Ok(()));
    expect_equal(rt, (heap.stat(), heap.root(A)), before);
}

/// Memory is given back outside a cycle, of one space and then of the other. What can be read stays.
#[test]
fn memory_that_is_given_back(rt: HostRuntime) {
    let mut heap = small_heap(&rt, rt.alloc(), SIZES);
    command_each(&mut heap, 3);
    expect_equal(&rt, heap.release(), Err(ReleaseError::CycleOn));
    for row in 0..2 {
        collect_and_release(&Row { rt: &rt, row }, &mut heap);
    }
}

/// Gives memory back, and plays the steps. Answers whether memory was refused.
fn is_release_refused<M: Allocator + Copy>(rt: &impl Abort, heap: &mut PacedHeap<M>) -> bool {
    let answer = heap.release();
    play(rt, heap, STEPS);
    answer == Err(ReleaseError::OutOfMemory)
}

/// Makes a heap, gives memory back and plays the steps. Answers whether memory was refused.
fn is_heap_or_release_refused<M: Allocator + Copy>(rt: &impl Abort, memory: M) -> bool {
    let mut made = PacedHeap::new(memory, SIZES, PACE);
    match &mut made {
        Ok(heap) => is_release_refused(rt, heap),
        Err(_) => true,
    }
}

/// Where the new block is refused the heap goes on with the old one.
#[test]
fn memory_that_is_kept(rt: HostRuntime) {
    let refused = refused_in_turn(rt.alloc(), |memory| is_heap_or_release_refused(&rt, memory));
    // The roots, two spaces and the log, and the new block.
    expect_equal(&rt, refused, Ok(5));
}
