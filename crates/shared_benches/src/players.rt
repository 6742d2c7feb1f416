//! Replicators for the ends of a shared heap.

ghost use Rattle.std.specs.List.{AllByRecursion};
ghost use Rattle.rh_shared.specs.Start.{IsFresh};

use rh_layout::OutOfMemory;
use rh_replicator::{Replicator, ReplicatorEnds, YieldingGate};
use std::alloc::Allocator;

/// A replicator for each pair of ends, in order, each behind a gate that lets other threads run.
pub fn players_of<A: Allocator + Copy>(
    alloc: A,
    ends: Vec<ReplicatorEnds<A>, A>,
) -> Result<Vec<(Replicator<A>, YieldingGate), A>, OutOfMemory>
    requires { AllByRecursion IsFresh ends.items }
{
    let mut players = Vec::with_capacity(alloc, ends.len())?;
    for own in ends {
        players.push((Replicator::new(alloc, own), YieldingGate))?;
    }
    Ok(players)
}
