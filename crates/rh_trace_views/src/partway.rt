//! A trace is run up to one of its lines, for a picture of the heap there.

ghost use Rattle.std.specs.Prelude.{◌≡◌, ◌<◌, length, Some, Err, IfOk, IsErrOf, take};
ghost use Rattle.rh_mutator.specs.declared.config.ConfigFault.{ConfigFault};
ghost use Rattle.rh_core.specs.Config.{fault_of};
ghost use Rattle.rh_trace.specs.declared.run_fault.RunFault.TheVariants as faults;
ghost use Rattle.rh_trace.specs.Run.{config_of};
ghost use Rattle.rh_trace_views.specs.Partway.{engine_at as engine_of};

use rh_core::{Heap, HeapError};
use rh_layout::limits::MAX_LINES;
use rh_text::IoLog;
use rh_trace::{Engine, Quiet, Request, RunFault, Trace, config_of, run_lines};
use std::alloc::Allocator;

/// The first requests of a trace, so many of them or all.
fn first_of<A: Allocator + Copy>(trace: &Trace<A>, most: usize) -> &[Request]
    ensures value { result.now ≡ take most trace.now.requests }
    ensures few { length result.now < MAX_LINES }
{
    let requests = trace.requests();
    if most < trace.len() {
        &requests[..most]
    } else {
        requests
    }
}

/// The engine of a trace once so many of its lines were played, of which the first is the heap's:
/// all of them, where it has no more. What is answered to them isn't kept.
///
/// # Errors
///
/// `New` where the numbers of the first line make no heap, with the first fault of these.
/// `OutOfMemory` where the allocator refused memory.
pub fn engine_at<A: Allocator + Copy>(
    alloc: A,
    trace: &Trace<A>,
    lines: u32,
) -> Result<Engine<A>, RunFault>
    ensures engine { IfOk result (λ engine. engine ≡ engine_of trace.now lines) }
    ensures fault { (f : ConfigFault) → result ≡ Err (faults.New f)
        → fault_of (config_of trace.now.header) ≡ Some f }
    ensures never_read { ¬ IsErrOf result RunFault.Read }
    ensures never_write { ¬ IsErrOf result RunFault.Write }
{
    let heap = match Heap::new(alloc, config_of(trace.header())) {
        Ok(heap) => heap,
        Err(HeapError::Config(fault)) => return Err(RunFault::New(fault)),
        Err(HeapError::OutOfMemory) => return Err(RunFault::OutOfMemory),
    };
    let mut engine = Engine::new(alloc, heap);
    let requests = first_of(trace, lines.saturating_sub(1) as usize);
    let quiet = &mut Quiet;
    match run_lines(
        alloc,
        &mut engine,
        trace.header(),
        requests,
        quiet,
        &mut (),
        &mut IoLog::new(),
    ) {
        Ok(_) => Ok(engine),
        // Nothing is written, so that no write fails.
        Err(_) => Err(RunFault::OutOfMemory),
    }
}
