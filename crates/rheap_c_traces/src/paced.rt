//! Traces of commands alone, on a heap that collects by itself.

ghost use Rattle.std.specs.Prelude.{◌≡◌, ◌≢◌, ℕ, List, Some, Result, [], IsErrOf};
ghost use Rattle.rh_core.specs.runs.Programs.{CommandAnswers};
ghost use Rattle.rh_syntax.specs.Spelling.{Script};
ghost use Rattle.rh_trace.specs.declared.summary.Summary.{Summary as SummaryOf};
ghost use Rattle.rh_trace.specs.declared.way_fault.WayFault.{WayFault as WayFaultOf};
ghost use Rattle.rh_paced_trace.specs.Run.{Ends, IsPlainRun, AreSumsOf, output_of};
ghost use Rattle.rh_paced_trace.specs.declared.fault.Unpaced.{Unpaced as UnpacedOf};
ghost use Rattle.rheap_c_traces.specs.Told.{Delivers, TellsRun, mark_of, run_status};

use crate::delivering::deliver;
use crate::status::{FAULT, NO_MEMORY};
use rh_core::laws::heaps_answer_as_plain_heaps;
use rh_core::laws::holds::what_collectors_do_adds_up;
use rh_core::laws::runs::{
    a_new_heap_is_well_formed, an_event_answers_as_the_plain_heap,
    every_event_keeps_a_heap_well_formed,
};
use rh_paced_trace::laws::ways::a_paced_run_ends_as_its_input_says;
use rh_paced_trace::{Paced, Unpaced};
use rh_text::IoLog;
use rh_trace::{Answers, Summary, WayFault, run_bytes};
use std::alloc::Global;

/// Runs a trace of commands alone on a new heap that collects by itself, as `run_bytes` does by the
/// way `Paced`, and puts the text that it writes, a line for each answer and the total line, at the
/// front of `answers`; `length` is how many bytes the text has. The status is 0 then. Otherwise
/// `answers` is as before: with 5 it is too small, and `length` says how many bytes are due; with 1
/// the trace has a fault, or no pace keeps up with it, and with 3 memory was refused, and `length`
/// is 0. A cycle begins where fewer words are free than `mark`; where that is 0, as `Pace::filling`
/// says.
#[unsafe(no_mangle)]
pub extern "C" fn rheap_run_paced(
    alloc: Global,
    trace: &[u8],
    mark: u32,
    answers: &mut [u8],
    length: &mut usize,
) -> u8
    // A run of the trace ended so with this text written, and this is what is told of it. No read
    // failed, so 3 says that memory was refused, or that the write to the vector failed, which no
    // contract excludes.
    ensures told { (outcome : Result SummaryOf (WayFaultOf UnpacedOf)) × (text : List ℕ)
        × Ends (mark_of mark) trace.now outcome (Some []) (Some text)
        × ¬ IsErrOf outcome WayFaultOf.Read
        × TellsRun outcome text result answers.old answers.new length.new }
    // Said of the plain heap alone, where the status is 0: the bytes are a trace of commands, and
    // what is delivered are the answers to it of a heap that never moves its objects, but for
    // limits, and their sums.
    ensures plain { result ≡ 0 → (script : Script) × (given : CommandAnswers)
        × (summary : SummaryOf) × IsPlainRun script given (Some trace.now) (Some [])
        × AreSumsOf given summary
        × Delivers (output_of given summary) answers.old answers.new length.new }
{
    // The laws from which the clause on the plain heap follows.
    heaps_answer_as_plain_heaps();
    a_new_heap_is_well_formed();
    an_event_answers_as_the_plain_heap::<Global>();
    every_event_keeps_a_heap_well_formed::<Global>();
    what_collectors_do_adds_up::<Global>();
    let mut text = Vec::new(alloc);
    match run_text(alloc, trace, asked_mark(mark), &mut text) {
        Ok(_) => deliver(&text, answers, length),
        Err(fault) => {
            *length = 0;
            status_of(fault)
        }
    }
}

/// Runs a trace of commands, and appends what it writes to a text.
fn run_text(
    alloc: Global,
    trace: &[u8],
    mark: Option<u32>,
    text: &mut Vec<u8>,
) -> Result<Summary, WayFault<Unpaced>>
    ensures told { Ends mark trace.now result (Some text.old.items) (Some text.new.items) }
    ensures never_read { ¬ IsErrOf result WayFault.Read }
{
    // The law from which `told` follows.
    a_paced_run_ends_as_its_input_says();
    let way = Paced { mark };
    let mut answers = Answers::new(alloc);
    run_bytes(alloc, trace, &way, &mut answers, text, &mut IoLog::new())
}

/// The mark that a run is asked for, if any.
fn asked_mark(mark: u32) -> Option<u32>
    ensures { result ≡ mark_of mark }
{
    if mark == 0 { None } else { Some(mark) }
}

/// The status after a fault. A trace that stands in bytes has no read that fails, and writing a
/// vector fails where memory is refused.
fn status_of(fault: WayFault<Unpaced>) -> u8
    ensures status { result ≡ run_status fault }
    ensures not_done { result ≢ 0 }
{
    match fault {
        WayFault::Long | WayFault::Trace(_) | WayFault::New(_) | WayFault::Way(_) => FAULT,
        WayFault::Read | WayFault::Write | WayFault::OutOfMemory => NO_MEMORY,
    }
}
