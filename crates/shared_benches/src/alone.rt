//! Commands on a heap of one thread's own, without a lock: what `bench/calls` times beside calls on
//! a heap that threads share.

use crate::commands::passing;
use crate::figures::CallFigures;
use crate::setup::{WORDS, config_of, without_replicators};
use refusing::RefusingAllocator;
use rh_pace::{Pace, PacedHeap};
use rh_shared::{Kept, Start};
use std::alloc::Global;
use std::rt::Clock;
use std::time::Instant;

/// The words of the biggest object: its fields, its header and its forward word.
const BIGGEST: u32 = 4;

/// Gives so many commands to the heap, and tells what they took; nothing where the clock failed.
fn time_commands<'m, R: Clock>(
    rt: &R,
    memory: &'m RefusingAllocator<Global>,
    heap: &mut PacedHeap<&'m RefusingAllocator<Global>>,
    calls: u32,
) -> Option<CallFigures> {
    let asked = memory.asked();
    let began = Instant::now(rt).ok()?;
    for others in 0..calls {
        let _ = heap.command(1, &passing(1, others));
    }
    let took = began.elapsed(rt).ok()?;
    Some(CallFigures {
        calls: calls as usize,
        nanoseconds: took.as_nanos(),
        allocations: memory.asked().wrapping_sub(asked),
        cycles: heap.stat().flips,
    })
}

/// Gives so many commands to a heap that collects by itself; nothing where it failed.
pub fn run_paced<R: Clock + AllocGlobal>(rt: &R, calls: u32) -> Option<CallFigures> {
    let counted = RefusingAllocator::new(rt.alloc(), 0);
    let mut pace = Pace::filling(WORDS, BIGGEST, 16).ok()?;
    pace.mark = WORDS / 2;
    let mut heap = PacedHeap::new(&counted, config_of(2), pace).ok()?;
    time_commands(rt, &counted, &mut heap, calls)
}

/// Makes so many calls on what lies under a lock, and tells what they took; nothing where the clock
/// failed.
fn time_calls<'m, R: Clock>(
    rt: &R,
    memory: &'m RefusingAllocator<Global>,
    kept: &mut Kept<&'m RefusingAllocator<Global>>,
    calls: u32,
) -> Option<CallFigures> {
    let asked = memory.asked();
    let began = Instant::now(rt).ok()?;
    for others in 0..calls {
        let _ = kept.call(1, &passing(1, others));
    }
    let took = began.elapsed(rt).ok()?;
    Some(CallFigures {
        calls: kept.history().calls().len(),
        nanoseconds: took.as_nanos(),
        allocations: memory.asked().wrapping_sub(asked),
        cycles: kept.heap().stat().flips,
    })
}

/// Makes so many calls on what lies under the lock of a shared heap; nothing where it failed.
pub fn run_kept<R: Clock + AllocGlobal>(rt: &R, calls: u32) -> Option<CallFigures> {
    let counted = RefusingAllocator::new(rt.alloc(), 0);
    let start = Start::new(&counted, config_of(2), without_replicators(calls)).ok()?;
    let (mut kept, _ends) = Kept::new(&counted, start).ok()?;
    time_calls(rt, &counted, &mut kept, calls)
}
