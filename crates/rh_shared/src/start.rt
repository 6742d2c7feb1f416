//! What a shared heap starts with.

ghost use Rattle.std.specs.Prelude.{◌≡◌, ◌↔◌, ◌≤◌, IfOk, Some, None, Err, length, map};
ghost use Rattle.rh_mutator.specs.Config.{fault_of};
ghost use Rattle.rh_replay.specs.History.{empty_history};
ghost use Rattle.rh_shared.specs.Kept.{IsStart};
ghost use Rattle.rh_shared.specs.Shares.{new_mutators};
ghost use Rattle.rh_collector.specs.SharedConfig.{shared_fault_of};
ghost use Rattle.rh_shared.specs.Start.{AreNewLinks, HasRoots, IsNewStart};

use crate::mutator::{Mutator, mutators_of};
use rh_collector::{MAX_REPLICATORS, SharedConfig, SharedFault};
use rh_core::{Config, ConfigFault, Heap, HeapError};
use rh_layout::OutOfMemory;
use rh_layout::limits::MAX_HISTORY_CALLS;
use rh_replay::{Recorder, RecorderError};
use rh_replicator::{Link, ReplicatorEnds, new_link};
use std::alloc::{Allocator, Global};
use std::marker::Model;
use thiserror::Error;

/// Why a shared heap doesn't start.
#[derive(Clone, Copy, Debug, PartialEq, Eq, Error)]
pub enum StartError {
    /// The `Config` has a fault.
    #[error("{0}")]
    Config(ConfigFault),
    /// The `Config` has none, and the `SharedConfig` has one.
    #[error("{0}")]
    Shared(SharedFault),
    /// Memory was refused.
    #[error("out of memory")]
    OutOfMemory,
}

/// A new heap, room for its history, rings to each replicator and back, and what increments of
/// collector work go by.
#[derive(Drop)]
pub struct Start<A: Allocator + Copy = Global> {
    heap: Heap<A>,
    recorder: Recorder<A>,
    links: Vec<Link<A>, A>,
    ends: Vec<ReplicatorEnds<A>, A>,
    config: SharedConfig,
}

impl<A: Allocator + Copy> Model for Start<A> {
    ghost use Rattle.std.specs.Prelude.{map};
    ghost use Rattle.rh_shared.specs.Start.{StartState};
    ghost use Rattle.rh_shared.specs.Kept.{IsStart};

    ghost Value = { StartState A };

    ghost view = { λ s. record {
      heap = s.heap;
      recorder = s.recorder;
      rings = map (λ l. l.ring) s.links.items;
      ends = s.ends.items;
      config = s.config;
    } };

    ghost invariant = { λ s. IsStart (record {
      heap = s.heap;
      recorder = s.recorder;
      rings = map (λ l. l.ring) s.links.items;
      ends = s.ends.items;
      config = s.config;
    }) };
}

impl<A: Allocator + Copy> Start<A> {
    /// A heap without objects, a history without a call, with room for as many as it may have, and
    /// new rings to each replicator and back.
    ///
    /// # Errors
    ///
    /// `StartError::Config` exactly where the `Config` has a fault, with the first one in the order
    /// of `ConfigFault`. Else `StartError::Shared` exactly where the `SharedConfig` has one, with
    /// the first one in the order of `SharedFault`. Else `StartError::OutOfMemory` where room for
    /// the heap, for the history or for the rings was refused.
    pub fn new(alloc: A, config: Config, shared: SharedConfig) -> Result<Start<A>, StartError>
        ensures config { (f : ConfigFault)
            → (result ≡ Err (StartError.Config f)) ↔ (fault_of config ≡ Some f) }
        ensures shared { (f : SharedFault) → (result ≡ Err (StartError.Shared f))
            ↔ ((fault_of config ≡ None) × (shared_fault_of shared ≡ Some f)) }
        ensures made { IfOk result (λ start. IsNewStart config shared start) }
    {
        if let Some(fault) = config.fault() {
            return Err(StartError::Config(fault));
        }
        if let Some(fault) = shared.fault() {
            return Err(StartError::Shared(fault));
        }
        let heap = match Heap::new(alloc, config) {
            Ok(heap) => heap,
            Err(HeapError::OutOfMemory) => return Err(StartError::OutOfMemory),
            Err(HeapError::Config(_)) => unreachable!(),
        };
        let recorder = match recorder_for(alloc, config.owners, config.slots, shared.history) {
            Ok(recorder) => recorder,
            Err(OutOfMemory) => return Err(StartError::OutOfMemory),
        };
        match links_of(alloc, shared.replicators) {
            Ok((links, ends)) => Ok(Start {
                heap,
                recorder,
                links,
                ends,
                config: shared,
            }),
            Err(OutOfMemory) => Err(StartError::OutOfMemory),
        }
    }

    /// A mutator for each owner of the heap, in order, with room for as many calls as the history
    /// may have.
    pub(crate) fn mutators(&self, alloc: A) -> Result<Vec<Mutator<A>, A>, OutOfMemory>
        ensures { IfOk result (λ mutators. mutators.items ≡ new_mutators self.now) }
    {
        let config = self.heap.config();
        mutators_of(alloc, config.owners, config.slots, self.config.history)
    }

    /// The heap, the recorder, the links to the replicators, the replicators' ends and the
    /// configuration.
    pub(crate) fn into_parts(
        self,
    ) -> (
        Heap<A>,
        Recorder<A>,
        Vec<Link<A>, A>,
        Vec<ReplicatorEnds<A>, A>,
        SharedConfig,
    )
        ensures parts { self ≡ record {
          heap = result.0;
          recorder = result.1;
          rings = map (λ l. l.ring) result.2.items;
          ends = result.3.items;
          config = result.4;
        } }
        ensures start { IsStart self }
    {
        (self.heap, self.recorder, self.links, self.ends, self.config)
    }
}

/// The links to so many replicators, in order, with the replicators' ends.
fn links_of<A: Allocator + Copy>(
    alloc: A,
    replicators: u32,
) -> Result<(Vec<Link<A>, A>, Vec<ReplicatorEnds<A>, A>), OutOfMemory>
    requires { replicators ≤ MAX_REPLICATORS }
    ensures count { IfOk result (λ made. length made.0.items ≡ replicators) }
    ensures links { IfOk result (λ made.
        AreNewLinks 0 (map (λ l. l.ring) made.0.items) made.1.items) }
{
    let mut links = Vec::with_capacity(alloc, replicators as usize)?;
    let mut ends = Vec::with_capacity(alloc, replicators as usize)?;
    for replicator in 0..replicators {
        let (link, end) = new_link(alloc, replicator)?;
        links.push(link)?;
        ends.push(end)?;
    }
    Ok((links, ends))
}

/// A recorder without a call, of sizes that it takes.
pub(crate) fn recorder_for<A: Allocator + Copy>(
    alloc: A,
    owners: u32,
    slots: u32,
    limit: u32,
) -> Result<Recorder<A>, OutOfMemory>
    requires roots { HasRoots owners slots }
    requires some_call { 1 ≤ limit }
    requires few_calls { limit ≤ MAX_HISTORY_CALLS }
    ensures { IfOk result (λ recorder.
        recorder ≡ record { history = empty_history owners slots; limit = limit }) }
{
    match Recorder::new(alloc, owners, slots, limit) {
        Ok(recorder) => Ok(recorder),
        Err(RecorderError::OutOfMemory) => Err(OutOfMemory),
        Err(RecorderError::BadRoots) => unreachable!(),
        Err(RecorderError::BadHistory) => unreachable!(),
    }
}
