//! The paced and the growing way: a trace of commands on a heap that collects, or grows, by itself.

ghost use Rattle.std.specs.Prelude.{◌≡◌, None, IfErr, IfOk};
ghost use Rattle.rh_mutator.specs.Config.{fault_of};
ghost use Rattle.rh_syntax.specs.Spelling.{IsScript};
ghost use Rattle.rh_growing.specs.Growth.{IsGrowth, config_at};
ghost use Rattle.rh_growing.specs.Growing.{growing_heap};
ghost use Rattle.rh_trace.specs.Run.{config_of};
ghost use Rattle.rh_paced_trace.specs.Ways.{HasSizes, IsGrowingStart, IsGrowthFault, IsPacedStart, LacksGrowth, LacksPace, LacksSizes};

use crate::commanded::Commanded;
use crate::fault::Unpaced;
use crate::lines::other_fault;
use crate::pacing::{growth_of, pace_of};
use rh_core::laws::heaps_answer_as_plain_heaps;
use rh_core::laws::holds::what_collectors_do_adds_up;
use rh_core::laws::runs::{
    a_new_heap_is_well_formed, an_event_answers_as_the_plain_heap,
    every_event_keeps_a_heap_well_formed,
};
use rh_core::{Config, HeapError};
use rh_growing::{DEFAULT_FACTOR, GrowingError, GrowingHeap, Growth};
use rh_pace::PacedHeap;
use rh_pace::laws::calls::increments_and_collections_are_collector_work;
use rh_syntax::Trace;
use rh_trace::{Unprepared, Way, config_of};
use std::alloc::Allocator;

/// The sizes of the heap of a trace of commands alone.
///
/// # Errors
///
/// `Trace` where a line is no command, else `New` where the sizes have a fault.
fn sizes_of<A: Allocator + Copy>(trace: &Trace<A>) -> Result<Config, Unprepared<Unpaced>>
    requires { IsScript trace.now }
    ensures sizes { IfOk result (λ config. config ≡ config_of trace.now.header) }
    ensures has { IfOk result (λ config. HasSizes trace.now) }
    ensures lacks { IfErr result (λ why. LacksSizes trace.now why) }
{
    if let Some(fault) = other_fault(trace.requests()) {
        return Err(Unprepared::Trace(fault));
    }
    let config = config_of(trace.header());
    match config.fault() {
        Some(fault) => Err(Unprepared::New(fault)),
        None => Ok(config),
    }
}

/// A trace of commands runs on a heap of the sizes of its first line, which collects by itself.
///
/// A cycle begins where fewer words are free than the mark. Without one the pace is
/// `Pace::filling` for the biggest object that the trace asks for, so that the cycles end before
/// the space is full, where enough of it isn't reachable.
#[derive(Clone, Copy, Debug, PartialEq, Eq)]
pub struct Paced {
    /// A cycle begins where fewer words are free, if this is given.
    pub mark: Option<u32>,
}

impl<A: Allocator + Copy> Way<A, Commanded<PacedHeap<A>>, Unpaced> for Paced {
    ghost fits = { λ way script s. IsPacedStart way.mark script s };

    ghost refuses = { λ way script why. LacksPace way.mark script why };

    fn prepare(
        &self,
        alloc: A,
        trace: &Trace<A>,
    ) -> Result<Commanded<PacedHeap<A>>, Unprepared<Unpaced>> {
        let config = match sizes_of(trace) {
            Ok(config) => config,
            Err(why) => return Err(why),
        };
        let pace = match pace_of(trace.header(), trace.requests(), self.mark) {
            Ok(pace) => pace,
            Err(why) => return Err(Unprepared::Way(Unpaced::Pace(why))),
        };
        match PacedHeap::new(alloc, config, pace) {
            Ok(heap) => Ok(Commanded::new(alloc, heap)),
            Err(HeapError::Config(fault)) => Err(Unprepared::New(fault)),
            Err(HeapError::OutOfMemory) => Err(Unprepared::OutOfMemory),
        }
    }

    fn answers_as_the_plain_heap() {
        heaps_answer_as_plain_heaps();
        a_new_heap_is_well_formed();
        an_event_answers_as_the_plain_heap::<A>();
        every_event_keeps_a_heap_well_formed::<A>();
        what_collectors_do_adds_up::<A>();
    }
}

/// A trace of commands runs on a heap that collects and grows by itself.
///
/// The heap begins with the words of the first line. After each flip it gets twice the words that
/// the flip left, and at most `at_most`; more where fewer wouldn't be in time. Its pace is the
/// lowest that is in time at the present words, whatever lives, for the biggest object that the
/// trace asks for. Its log is as long as that pace asks for: that of the first line isn't used.
/// Memory for more words is asked for after a flip. Where it is refused, the run goes on with fewer
/// words.
///
/// So a line is refused for room in the space only where the space has `at_most` words, or memory
/// was refused (`laws::growing`).
#[derive(Clone, Copy, Debug, PartialEq, Eq)]
pub struct Growing {
    /// The most words of the heap.
    pub at_most: u32,
}

impl<A: Allocator + Copy> Way<A, Commanded<GrowingHeap<A>>, Unpaced> for Growing {
    ghost fits = { λ way script s. IsGrowingStart way.at_most script s };

    ghost refuses = { λ way script why. LacksGrowth way.at_most script why };

    fn prepare(
        &self,
        alloc: A,
        trace: &Trace<A>,
    ) -> Result<Commanded<GrowingHeap<A>>, Unprepared<Unpaced>> {
        match sizes_of(trace) {
            Ok(_) => {}
            Err(why) => return Err(why),
        }
        let growth = growth_of(trace.header(), trace.requests(), self.at_most);
        match grown_heap(alloc, growth) {
            Ok(heap) => Ok(Commanded::new(alloc, heap)),
            Err(why) => Err(why),
        }
    }

    fn answers_as_the_plain_heap() {
        an_event_answers_as_the_plain_heap::<A>();
        every_event_keeps_a_heap_well_formed::<A>();
        what_collectors_do_adds_up::<A>();
        increments_and_collections_are_collector_work::<A>();
        a_new_heap_is_well_formed();
        heaps_answer_as_plain_heaps();
    }
}

/// A new heap that grows so, by the usual factor and from sizes that have no fault. Of such a growth
/// there is no other fault than those of its limits and of its pace.
fn grown_heap<A: Allocator + Copy>(
    alloc: A,
    growth: Growth,
) -> Result<GrowingHeap<A>, Unprepared<Unpaced>>
    requires factor { growth.factor ≡ DEFAULT_FACTOR }
    requires sizes { fault_of (config_at growth growth.at_least) ≡ None }
    ensures made { IfOk result (λ heap. heap ≡ growing_heap growth) }
    ensures grows { IfOk result (λ heap. IsGrowth growth) }
    ensures fault { IfErr result (λ why. IsGrowthFault growth why) }
{
    match GrowingHeap::of(alloc, growth) {
        Ok(heap) => Ok(heap),
        Err(GrowingError::BadFactor) => Err(Unprepared::Way(Unpaced::Limits)),
        Err(GrowingError::BadLimits) => Err(Unprepared::Way(Unpaced::Limits)),
        Err(GrowingError::Pace(why)) => Err(Unprepared::Way(Unpaced::Pace(why))),
        Err(GrowingError::Heap(HeapError::Config(fault))) => Err(Unprepared::New(fault)),
        Err(GrowingError::Heap(HeapError::OutOfMemory)) => Err(Unprepared::OutOfMemory),
    }
}
