//! Collects a heap of so many live words, to which 4,096 roots refer and which so many tickets
//! watch, and moves the roots and the tickets: what `bench/flip` times.

use crate::chain::{closed, filled, watch};
use rh_core::{Flipped, Heap};
use std::time::{CpuClock, Duration};

/// How many cycles are played, of whose flips the shortest counts.
const CYCLES: u32 = 9;

/// Ends a cycle. Answers what the flip did, and the processor time that it took; nothing where it
/// was refused or the clock failed.
fn timed_flip(rt: &impl CpuClock, heap: &mut Heap) -> Option<(Flipped, Duration)> {
    let before = rt.process_cpu_time().ok()?;
    let flipped = heap.flip().ok()?;
    let after = rt.process_cpu_time().ok()?;
    Some((flipped, after.checked_sub(before)?))
}

/// Plays the cycles. Answers what the flips did, each of them the same, and the shortest one's
/// processor time; nothing where a call was refused or the clock failed.
fn shortest_of(rt: &(impl CpuClock + AllocGlobal), heap: &mut Heap) -> Option<(Flipped, Duration)> {
    closed(rt.alloc(), heap)?;
    let mut shortest = timed_flip(rt, heap)?;
    for _ in 1..CYCLES {
        closed(rt.alloc(), heap)?;
        let flip = timed_flip(rt, heap)?;
        if flip.1 < shortest.1 {
            shortest = flip;
        }
    }
    Some(shortest)
}

/// What the flips of a heap of so many words and tickets did, and the shortest one's processor
/// time.
fn shortest_flip(
    rt: &(impl CpuClock + AllocGlobal),
    words: u32,
    tickets: u32,
) -> Option<(Flipped, Duration)> {
    let mut heap = filled(rt.alloc(), words)?;
    watch(&mut heap, tickets)?;
    shortest_of(rt, &mut heap)
}

/// Runs the bench on a heap of which so many words live, rounded down to whole objects, which so
/// many tickets watch. Tells the time of the shortest flip where that is asked. Nothing where it
/// failed.
pub fn run(
    rt: &(impl Print + CpuClock + AllocGlobal),
    words: u32,
    tickets: u32,
    is_timed: bool,
) -> Option<()> {
    let (flipped, time) = shortest_flip(rt, words, tickets)?;
    let (roots, words) = (flipped.roots, flipped.live_words);
    if is_timed {
        let nanoseconds = time.as_nanos();
        println!(rt;
            "roots {roots} live words {words} tickets {tickets} nanoseconds {nanoseconds}"
        ).ok()
    } else {
        println!(rt; "roots {roots} live words {words} tickets {tickets}").ok()
    }
}
