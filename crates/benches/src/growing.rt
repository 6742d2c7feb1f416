//! Fills a heap that grows with a queue, lets cells join and leave, and tells how long calls took,
//! those that gave the space other words apart: what `bench/growth` times.

use crate::latency::{Latency, now};
use crate::mutators::{CELL_WORDS, OWNER, begin_queue, join, leave};
use rh_growing::GrowingHeap;
use rh_layout::Command;
use std::alloc::Global;
use std::rt::Clock;

/// The words that a space has at most.
const AT_MOST: u32 = 16_777_216;

/// How long calls took, by whether the space has other words since.
#[derive(Drop)]
struct Calls {
    resized: Latency,
    others: Latency,
}

impl Calls {
    /// No call; nothing where memory was refused.
    fn new(alloc: Global) -> Option<Calls> {
        let (resized, others) = (Latency::new(alloc)?, Latency::new(alloc)?);
        Some(Calls { resized, others })
    }
}

/// The words of the space.
fn words_of(heap: &GrowingHeap) -> u32 {
    heap.paced().heap().config().words
}

/// Gives commands, and notes how long each took; nothing where one was refused or the clock failed.
fn give(
    rt: &impl Clock,
    heap: &mut GrowingHeap,
    commands: &[Command],
    calls: &mut Calls,
) -> Option<()> {
    for command in commands {
        let words = words_of(heap);
        let began = now(rt)?;
        heap.command(OWNER, command).ok()?;
        let took = now(rt)?.saturating_sub(began);
        if words_of(heap) == words {
            calls.others.note(took);
        } else {
            calls.resized.note(took);
        }
    }
    Some(())
}

/// Fills the heap with a queue of so many cells, and lets so many more join and leave; nothing where
/// a call was refused or the clock failed.
fn play(
    rt: &impl Clock,
    heap: &mut GrowingHeap,
    cells: u32,
    more: u32,
    calls: &mut Calls,
) -> Option<()> {
    let (join, leave) = (join(), leave());
    give(rt, heap, &begin_queue(), calls)?;
    for _ in 1..cells {
        give(rt, heap, &join, calls)?;
    }
    for _ in 0..more {
        give(rt, heap, &join, calls)?;
        give(rt, heap, &leave, calls)?;
    }
    Some(())
}

/// Prints how many calls there were, and their nanoseconds where that is asked; nothing where that
/// failed.
fn tell(rt: &impl Print, name: &str, latency: &Latency, is_timed: bool) -> Option<()> {
    let calls = latency.batches();
    if !is_timed {
        return println!(rt; "{name} {calls}").ok();
    }
    let (longest, most) = (latency.longest(), latency.within(999_900));
    println!(rt; "{name} {calls} longest {longest} p9999 {most}").ok()
}

/// Plays on a heap that grows, until so many words live and then with so many cells more, and prints
/// how often it was resized, and how long calls took where that is asked; nothing where a call was
/// refused or the clock failed.
pub fn run(
    rt: &(impl Print + Clock + AllocGlobal),
    live: u32,
    more: u32,
    is_timed: bool,
) -> Option<()> {
    let mut heap = GrowingHeap::new(rt.alloc(), AT_MOST).ok()?;
    let mut calls = Calls::new(rt.alloc())?;
    play(rt, &mut heap, live / CELL_WORDS, more, &mut calls)?;
    let (words, cycles) = (words_of(&heap), heap.paced().stat().flips);
    println!(rt; "live {live} words {words} cycles {cycles}").ok()?;
    tell(rt, "resized", &calls.resized, is_timed)?;
    tell(rt, "others", &calls.others, is_timed)
}
