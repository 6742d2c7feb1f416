//! Traces that drive their cycles themselves.

ghost use Rattle.std.specs.Prelude.{◌≡◌, ◌≢◌, ℕ, List, Some, Result, [], IsErrOf};
ghost use Rattle.rh_syntax.specs.Spelling.{Script};
ghost use Rattle.rh_trace.specs.Answers.{Answered};
ghost use Rattle.rh_trace.specs.Fixed.{by_way};
ghost use Rattle.rh_trace.specs.Run.{run_of, output_of, Ends, IsPlainRun};
ghost use Rattle.rh_trace.specs.Ways.{of_run_fault};
ghost use Rattle.rh_trace.specs.declared.summary.Summary.{Summary as SummaryOf};
ghost use Rattle.rh_trace.specs.declared.run_fault.RunFault.{RunFault as RunFaultOf};
ghost use Rattle.rheap_c_traces.specs.Told.{Delivers, TellsRun, run_status};

use crate::delivering::deliver;
use crate::status::{FAULT, NO_MEMORY};
use rh_core::laws::heaps_answer_as_plain_heaps;
use rh_core::laws::runs::{
    an_event_answers_as_the_plain_heap, every_event_keeps_a_heap_well_formed,
};
use rh_text::IoLog;
use rh_trace::laws::dumps::a_heap_has_the_dump_of_its_plain_heap;
use rh_trace::laws::ways::a_fixed_run_ends_as_its_trace;
use rh_trace::{Answers, Fixed, NoFault, RunFault, Summary, fixed_fault, run_bytes};
use std::alloc::Global;

/// Runs a trace on a new heap and on trays, as `run_bytes` does by the way `Fixed`, and puts the text
/// that it writes, a line for each answer and the total line, at the front of `answers`; `length` is
/// how many bytes the text has. The status is 0 then. Otherwise `answers` is as before: with 5 it is
/// too small, and `length` says how many bytes are due; with 1 the trace has a fault and with 3
/// memory was refused, and `length` is 0.
#[unsafe(no_mangle)]
pub extern "C" fn rheap_run(
    alloc: Global,
    trace: &[u8],
    answers: &mut [u8],
    length: &mut usize,
) -> u8
    // A run of the trace ended so with this text written, and this is what is told of it. No read
    // failed, so 3 says that memory was refused, or that the write to the vector failed, which no
    // contract excludes.
    ensures told { (outcome : Result SummaryOf RunFaultOf) × (text : List ℕ)
        × Ends (run_of trace.now) outcome (Some []) (Some text)
        × ¬ IsErrOf outcome RunFaultOf.Read
        × TellsRun (by_way outcome) text result answers.old answers.new length.new }
    // Said of the plain heap alone, where the status is 0: the bytes are a trace, and what is
    // delivered are the answers to it, to commands and dumps those of a heap that never moves its
    // objects, but for limits, and their sums.
    ensures plain { result ≡ 0 → (script : Script) × (given : List Answered)
        × IsPlainRun script given (Some trace.now) (Some [])
        × Delivers (output_of given) answers.old answers.new length.new }
{
    // The laws from which the clause on the plain heap follows.
    heaps_answer_as_plain_heaps();
    an_event_answers_as_the_plain_heap::<Global>();
    every_event_keeps_a_heap_well_formed::<Global>();
    a_heap_has_the_dump_of_its_plain_heap();
    let mut text = Vec::new(alloc);
    match run_text(alloc, trace, &mut text) {
        Ok(_) => deliver(&text, answers, length),
        Err(fault) => {
            *length = 0;
            status_of(fault)
        }
    }
}

/// Runs a trace, and appends what it writes to a text.
fn run_text(alloc: Global, trace: &[u8], text: &mut Vec<u8>) -> Result<Summary, RunFault>
    ensures told { Ends (run_of trace.now) result (Some text.old.items) (Some text.new.items) }
    ensures never_read { ¬ IsErrOf result RunFault.Read }
{
    // The law from which `told` follows.
    a_fixed_run_ends_as_its_trace::<NoFault>();
    let mut answers = Answers::new(alloc);
    match run_bytes(alloc, trace, &Fixed, &mut answers, text, &mut IoLog::new()) {
        Ok(summary) => Ok(summary),
        Err(fault) => Err(fixed_fault(fault)),
    }
}

/// The status after a fault. A trace that stands in bytes has no read that fails, and writing a
/// vector fails where memory is refused.
fn status_of(fault: RunFault) -> u8
    ensures status { result ≡ run_status (of_run_fault fault) }
    ensures not_done { result ≢ 0 }
{
    match fault {
        RunFault::Long | RunFault::Trace(_) | RunFault::New(_) => FAULT,
        RunFault::Read | RunFault::Write | RunFault::OutOfMemory => NO_MEMORY,
    }
}
