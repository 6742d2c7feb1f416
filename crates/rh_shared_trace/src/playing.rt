//! Threads are started for a trace: its mutators, and the replicators beside them.

ghost use Rattle.std.specs.List.{AllByRecursion};
ghost use Rattle.rh_shared.specs.Start.{IsFresh};

use crate::threads::play_all;
use rh_layout::OutOfMemory;
use rh_replicator::{Replicator, YieldingGate, crew};
use rh_shared::{Kept, ReplicatorEnds, SharedHeap, Start, close};
use rh_syntax::Request;
use std::alloc::Allocator;
use std::sync::Wait;
use std::sync::atomic::AtomicBool;
use std::thread::Threads;

/// Why a trace wasn't played to its end.
#[derive(Clone, Copy, Debug, PartialEq, Eq)]
pub enum Unplayed {
    /// Memory or a thread was refused.
    OutOfMemory,
    /// The history isn't that of the mutators' calls.
    HistoryDiffers,
}

/// Plays each owner's lines by its mutator, and the replicators beside them, in a thread each; then
/// closes the shared heap, and gives what its lock held. It waits for the threads.
pub fn play<A, R>(
    rt: &R,
    alloc: A,
    start: Start<A>,
    requests: &[Request],
) -> Result<Kept<A>, Unplayed>
where
    A: Allocator + Copy + Send,
    R: Threads + Wait + Sync,
{
    let Ok((shared, mutators, ends)) = SharedHeap::new(alloc, start) else {
        return Err(Unplayed::OutOfMemory);
    };
    let Ok(replicators) = replicators_of(alloc, ends) else {
        return Err(Unplayed::OutOfMemory);
    };
    let stop = AtomicBool::new(false);
    let mut played = None;
    let heap = &shared;
    let ended = crew(rt, alloc, replicators, &stop, u32::MAX, || {
        played = play_all(rt, alloc, heap, requests, mutators);
    })
    .ok();
    if ended.is_none() {
        return Err(Unplayed::OutOfMemory);
    }
    let Some(mutators) = played else {
        return Err(Unplayed::OutOfMemory);
    };
    match close(shared, mutators) {
        Ok(kept) => Ok(kept),
        Err(_left) => Err(Unplayed::HistoryDiffers),
    }
}

/// A replicator for each pair of ends, in order, each behind a gate that lets other threads run.
fn replicators_of<A: Allocator + Copy>(
    alloc: A,
    ends: Vec<ReplicatorEnds<A>, A>,
) -> Result<Vec<(Replicator<A>, YieldingGate), A>, OutOfMemory>
    requires { AllByRecursion IsFresh ends.items }
{
    let mut replicators = Vec::with_capacity(alloc, ends.len())?;
    for own in ends {
        replicators.push((Replicator::new(alloc, own), YieldingGate))?;
    }
    Ok(replicators)
}
