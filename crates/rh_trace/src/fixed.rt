//! The fixed way: a heap of the sizes in the first line, collected by the trace's own lines.

ghost use Rattle.std.specs.Prelude.{◌≡◌};
ghost use Rattle.rh_trace.specs.Fixed.{IsFixedRefusal, IsFixedRun};
ghost use Rattle.rh_trace.specs.Ways.{of_run_fault};

use crate::laws::dumps::a_heap_has_the_dump_of_its_plain_heap;
use crate::run_fault::RunFault;
use crate::running::config_of;
use crate::way::Way;
use crate::way_fault::{NoFault, Unprepared, WayFault};
use rh_core::laws::heaps_answer_as_plain_heaps;
use rh_core::laws::runs::{
    an_event_answers_as_the_plain_heap, every_event_keeps_a_heap_well_formed,
};
use rh_core::{Heap, HeapError};
use rh_engine::Engine;
use rh_syntax::Trace;
use std::alloc::Allocator;

/// A heap of the first line's sizes, collected by the trace's own lines.
#[derive(Drop)]
pub struct Fixed;

impl<A: Allocator + Copy, F> Way<A, Engine<A>, F> for Fixed {
    ghost fits = { λ way. IsFixedRun };

    ghost refuses = { λ way. IsFixedRefusal };

    fn prepare(&self, alloc: A, trace: &Trace<A>) -> Result<Engine<A>, Unprepared<F>> {
        match Heap::new(alloc, config_of(trace.header())) {
            Ok(heap) => Ok(Engine::new(alloc, heap)),
            Err(HeapError::Config(fault)) => Err(Unprepared::New(fault)),
            Err(HeapError::OutOfMemory) => Err(Unprepared::OutOfMemory),
        }
    }

    fn answers_as_the_plain_heap() {
        heaps_answer_as_plain_heaps();
        an_event_answers_as_the_plain_heap::<A>();
        every_event_keeps_a_heap_well_formed::<A>();
        a_heap_has_the_dump_of_its_plain_heap();
    }
}

/// A fault of a run on a heap of the first line's sizes, as a fault of `run_trace`, where the way's
/// own faults are none.
pub fn fixed_fault(fault: WayFault<NoFault>) -> RunFault
    ensures { fault ≡ of_run_fault result }
{
    match fault {
        WayFault::Read => RunFault::Read,
        WayFault::Long => RunFault::Long,
        WayFault::Trace(fault) => RunFault::Trace(fault),
        WayFault::New(fault) => RunFault::New(fault),
        WayFault::Way(none) => match none {},
        WayFault::Write => RunFault::Write,
        WayFault::OutOfMemory => RunFault::OutOfMemory,
    }
}
