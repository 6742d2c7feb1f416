//! A heap without a lock, and its replicators beside it.

ghost use Rattle.std.specs.Prelude.{◌≡◌};
ghost use Rattle.std.specs.List.{AllByRecursion};
ghost use Rattle.rh_collector.specs.Settling.{IsNewHere};
ghost use Rattle.shared_tests.specs.Beside.{IsHere};

use crate::starts::SMALL;
use rh_layout::{Command, Reply};
use rh_replicator::{Replicator, ReplicatorEnds, Settled, Stepped};
use rh_shared::{CallError, Did, Kept, SharedConfig, Start};
use std::alloc::{Allocator, Global};
use std::marker::Model;
use std::process::Abort;

/// A heap without a lock, and its first two replicators, as far as it has them. Their ends are of
/// its rings.
#[derive(Drop)]
pub struct Beside<A: Allocator + Copy = Global> {
    kept: Kept<A>,
    first: Option<Replicator<A>>,
    second: Option<Replicator<A>>,
}

impl<A: Allocator + Copy> Model for Beside<A> {
    ghost use Rattle.rh_shared.specs.Kept.{KeptState};
    ghost use Rattle.shared_tests.specs.Beside.{IsHere};

    ghost Value = { KeptState A };

    ghost view = { λ b. b.kept };

    ghost invariant = { λ b. IsHere b.kept.collector.rings b.first
        × IsHere b.kept.collector.rings b.second };
}

/// A heap and its replicators, of this configuration.
pub fn beside_of<R: AllocGlobal + Abort>(rt: &R, shared: SharedConfig) -> Beside {
    let start = Start::new(rt.alloc(), SMALL, shared)
        .ok()
        .expect(rt, "it starts");
    let Ok((kept, ends)) = Kept::new(rt.alloc(), start) else {
        panic!(rt; "memory is ample")
    };
    Beside::new(rt.alloc(), kept, ends)
}

/// A replicator with the last of the ends, which are of the heap's rings.
fn replicator_of<A: Allocator + Copy>(
    alloc: A,
    _kept: &Kept<A>,
    ends: &mut Vec<ReplicatorEnds<A>, A>,
) -> Option<Replicator<A>>
    requires { AllByRecursion (IsNewHere _kept.now.collector.rings) ends.old.items }
    ensures others { AllByRecursion (IsNewHere _kept.now.collector.rings) ends.new.items }
    ensures here { IsHere _kept.now.collector.rings result }
{
    match ends.pop() {
        Some(last) => Some(Replicator::new(alloc, last)),
        None => None,
    }
}

/// Ends the replicator, which has ends of the heap's rings, if it is there, and settles what went
/// through them.
fn settled_by<A: Allocator + Copy>(
    kept: &mut Kept<A>,
    replicator: Option<Replicator<A>>,
) -> Option<Settled>
    requires { IsHere kept.old.collector.rings replicator }
    ensures { kept.new ≡ kept.old }
{
    let done = replicator?.finish()?;
    Some(kept.settle(done))
}

impl<A: Allocator + Copy> Beside<A> {
    /// The heap, and as many of its replicators as it has, two at most.
    fn new(alloc: A, kept: Kept<A>, mut ends: Vec<ReplicatorEnds<A>, A>) -> Beside<A>
        requires { AllByRecursion (IsNewHere kept.collector.rings) ends.items }
    {
        let last = replicator_of(alloc, &kept, &mut ends);
        let before = replicator_of(alloc, &kept, &mut ends);
        if before.is_some() {
            Beside {
                kept,
                first: before,
                second: last,
            }
        } else {
            Beside {
                kept,
                first: last,
                second: None,
            }
        }
    }

    /// What lies under a lock otherwise.
    pub fn kept(&self) -> &Kept<A> {
        &self.kept
    }

    /// One command of owner 1.
    pub fn call(&mut self, command: Command) -> Result<Reply, CallError> {
        self.kept.call(1, &command)
    }

    /// One increment.
    pub fn increment(&mut self) -> Did {
        self.kept.increment()
    }

    /// Loses both replicators.
    pub fn lose(&mut self) {
        self.first = None;
        self.second = None;
    }

    /// A step of the first replicator.
    pub fn step_first(&mut self) -> Stepped {
        match &mut self.first {
            Some(replicator) => replicator.step(),
            None => Stepped::Idle,
        }
    }

    /// A step of the second replicator.
    pub fn step_second(&mut self) -> Stepped {
        match &mut self.second {
            Some(replicator) => replicator.step(),
            None => Stepped::Idle,
        }
    }

    /// Ends both replicators, and settles what went through their rings.
    pub fn settle(self) -> Option<(Settled, Settled)> {
        let Beside {
            mut kept,
            first,
            second,
        } = self;
        let one = settled_by(&mut kept, first);
        let two = settled_by(&mut kept, second);
        one.zip(two)
    }
}
