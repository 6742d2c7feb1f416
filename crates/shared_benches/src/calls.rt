//! Calls on a heap that threads share: what `bench/calls` times.

use crate::commands::passing;
use crate::figures::CallFigures;
use crate::setup::{config_of, without_replicators};
use refusing::RefusingAllocator;
use rh_shared::{Mutator, SharedHeap, Start, close};
use std::alloc::{Allocator, Global};
use std::rt::Clock;
use std::sync::Wait;
use std::thread;
use std::thread::Threads;
use std::time::Instant;

/// What calls cost.
#[derive(Clone, Copy)]
struct Cost {
    /// The nanoseconds by the clock on the wall.
    nanoseconds: u128,
    /// The allocations that were asked for meanwhile.
    allocations: u64,
}

/// Makes the calls of the mutator's owner. Gives the mutator back.
fn play<R, A>(rt: &R, shared: &SharedHeap<A>, mut mutator: Mutator<A>, calls: u32) -> Mutator<A>
where
    A: Allocator + Copy,
    R: Wait,
{
    let owner = mutator.owner();
    for others in 0..calls {
        let _ = mutator.call(rt, shared, passing(owner, others));
    }
    mutator
}

/// Makes the calls of two mutators in a thread each. Gives the mutators back.
fn play_two<R, A>(
    rt: &R,
    shared: &SharedHeap<A>,
    two: (Mutator<A>, Mutator<A>),
    calls: u32,
) -> (Mutator<A>, Mutator<A>)
where
    A: Allocator + Copy + Send,
    R: Threads + Wait + Sync,
{
    let (first, last) = two;
    thread::join(
        rt,
        || play(rt, shared, first, calls),
        || play(rt, shared, last, calls),
    )
}

/// Takes the last two mutators; nothing where there are too few.
fn take_two<A>(mutators: &mut Vec<Mutator<A>, A>) -> Option<(Mutator<A>, Mutator<A>)>
where
    A: Allocator + Copy,
{
    let last = mutators.pop()?;
    let first = mutators.pop()?;
    Some((first, last))
}

/// Puts two mutators back; nothing where memory was refused.
fn put_two<A>(mutators: &mut Vec<Mutator<A>, A>, two: (Mutator<A>, Mutator<A>)) -> Option<()>
where
    A: Allocator + Copy,
{
    let (first, last) = two;
    mutators.push(first).ok()?;
    mutators.push(last).ok()
}

/// Makes the calls of the last mutator; nothing where there is none, or memory was refused.
fn play_last<R, A>(
    rt: &R,
    shared: &SharedHeap<A>,
    mutators: &mut Vec<Mutator<A>, A>,
    calls: u32,
) -> Option<()>
where
    A: Allocator + Copy,
    R: Wait,
{
    let last = mutators.pop()?;
    mutators.push(play(rt, shared, last, calls)).ok()
}

/// Makes the calls of the last two mutators; nothing where there are too few, or memory was
/// refused.
fn play_last_two<R, A>(
    rt: &R,
    shared: &SharedHeap<A>,
    mutators: &mut Vec<Mutator<A>, A>,
    calls: u32,
) -> Option<()>
where
    A: Allocator + Copy + Send,
    R: Threads + Wait + Sync,
{
    let two = take_two(mutators)?;
    put_two(mutators, play_two(rt, shared, two, calls))
}

/// Makes the calls of the last four mutators; nothing where there are too few, or memory was
/// refused.
fn play_last_four<R, A>(
    rt: &R,
    shared: &SharedHeap<A>,
    mutators: &mut Vec<Mutator<A>, A>,
    calls: u32,
) -> Option<()>
where
    A: Allocator + Copy + Send,
    R: Threads + Wait + Sync,
{
    let last = take_two(mutators)?;
    let first = take_two(mutators)?;
    let (first, last) = thread::join(
        rt,
        || play_two(rt, shared, first, calls),
        || play_two(rt, shared, last, calls),
    );
    put_two(mutators, first)?;
    put_two(mutators, last)
}

/// Makes the calls of one, two or four mutators, in a thread each; nothing where another number is
/// asked for, there are too few, or memory was refused.
fn play_beside<R, A>(
    rt: &R,
    shared: &SharedHeap<A>,
    mutators: &mut Vec<Mutator<A>, A>,
    threads: u32,
    calls: u32,
) -> Option<()>
where
    A: Allocator + Copy + Send,
    R: Threads + Wait + Sync,
{
    match threads {
        1 => play_last(rt, shared, mutators, calls),
        2 => play_last_two(rt, shared, mutators, calls),
        4 => play_last_four(rt, shared, mutators, calls),
        _ => None,
    }
}

/// Makes the calls, and tells what they cost; nothing where they aren't made, or the clock failed.
fn play_timed<'m, R>(
    rt: &R,
    memory: &'m RefusingAllocator<Global>,
    shared: &SharedHeap<&'m RefusingAllocator<Global>>,
    mutators: &mut Vec<Mutator<&'m RefusingAllocator<Global>>, &'m RefusingAllocator<Global>>,
    threads: u32,
    calls: u32,
) -> Option<Cost>
where
    R: Clock + Threads + Wait + Sync,
{
    let asked = memory.asked();
    let began = Instant::now(rt).ok()?;
    play_beside(rt, shared, mutators, threads, calls)?;
    let took = began.elapsed(rt).ok()?;
    Some(Cost {
        nanoseconds: took.as_nanos(),
        allocations: memory.asked().wrapping_sub(asked),
    })
}

/// Closes the heap, and tells what it counted beside the cost; nothing where it isn't closed.
fn close_counted<A: Allocator + Copy>(
    shared: SharedHeap<A>,
    mutators: Vec<Mutator<A>, A>,
    cost: Cost,
) -> Option<CallFigures> {
    let kept = close(shared, mutators).ok()?;
    Some(CallFigures {
        calls: kept.history().calls().len(),
        nanoseconds: cost.nanoseconds,
        allocations: cost.allocations,
        cycles: kept.heap().stat().flips,
    })
}

/// What a heap of so many threads and so many calls in each starts with; nothing where these are
/// too many, or memory was refused.
fn start_of<A: Allocator + Copy>(memory: A, threads: u32, calls: u32) -> Option<Start<A>> {
    let config = config_of(threads.checked_add(1)?);
    let shared = without_replicators(threads.checked_mul(calls)?);
    Start::new(memory, config, shared).ok()
}

/// Makes so many calls in each of one, two or four threads, and closes the heap; nothing where
/// another number of threads is asked for, or it failed.
pub fn run<R>(rt: &R, threads: u32, calls: u32) -> Option<CallFigures>
where
    R: Clock + AllocGlobal + Threads + Wait + Sync,
{
    let counted = RefusingAllocator::new(rt.alloc(), 0);
    let memory = &counted;
    let start = start_of(memory, threads, calls)?;
    let (shared, mut mutators, _ends) = SharedHeap::new(memory, start).ok()?;
    let cost = play_timed(rt, memory, &shared, &mut mutators, threads, calls)?;
    close_counted(shared, mutators, cost)
}
