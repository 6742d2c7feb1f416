//! `run_trace`: a trace is read, run on a new heap, and its answers are written.

ghost use Rattle.std.specs.Prelude.{◌≡◌, ◌≤◌, ◌⊎◌, List, ℕ, length, IfOk, IsErrOf, IfSome};
ghost use Rattle.std.specs.List.{flat_map};
ghost use Rattle.std.specs.Io.KnownBytes.{Appends, Consumes, Keeps};
ghost use Rattle.rh_text.specs.Output.{AppendsPrefix, AppendsLess};
ghost use Rattle.rh_trace.specs.Answers.{Answered, answered_text};
ghost use Rattle.rh_syntax.specs.Spelling.{Script};
ghost use Rattle.rh_trace.specs.Run.{config_of, summary_of, output_of, run_of, Ends, IsPlainRun};

use crate::answers::Answers;
use crate::by_way::run;
use crate::fixed::{Fixed, fixed_fault};
use crate::laws::dumps::a_heap_has_the_dump_of_its_plain_heap;
use crate::run_fault::RunFault;
use crate::summary::Summary;
use rh_core::Config;
use rh_core::laws::heaps_answer_as_plain_heaps;
use rh_core::laws::runs::{
    an_event_answers_as_the_plain_heap, every_event_keeps_a_heap_well_formed,
};
use rh_layout::limits::{MAX_INPUT_BYTES, MAX_NUMBER};
use rh_syntax::Header;
use rh_text::IoLog;
use std::alloc::Allocator;
use std::io;

/// The heap that a trace's first line asks for; its store numbers and epochs go up to 2^62.
pub fn config_of(header: Header) -> Config
    ensures { result ≡ config_of header }
{
    Config {
        words: header.words,
        ratio: header.ratio,
        owners: header.owners,
        slots: header.slots,
        log_limit: header.log,
        last_number: MAX_NUMBER,
        last_epoch: MAX_NUMBER,
    }
}

/// Reads a trace whole, runs its lines in order on a new heap and on trays, and writes a line for
/// each answer, a line for each tray that is listed, the text of each dump and the total line: one
/// line, or a part of a line of a dump, in each write that the writer takes whole. Nothing is
/// written before the whole trace was read and its heap made. The answers to commands and the dumps
/// are those of a heap that never moves its objects, but for refusals by a limit. A trace has at
/// most 16,777,216 bytes, and must end within 33,554,432 reads.
///
/// # Errors
///
/// Of the faults of an input the first is answered: `Long`, then `Trace`, then `New`. `Read` comes
/// where, before more than 16,777,216 bytes came, a read failed or was one too many, `Write` where
/// a write failed or 33,554,432 writes of one line, or of a part of a dump's, didn't come to its
/// end, `OutOfMemory` where the allocator refused memory, also at a deal, a join, a resize, room for
/// tickets, a `gone` or a dump; what may be written then, `RunFault` says. `run` says of Read and
/// Write that they come nowhere else.
pub fn run_trace<A: Allocator + Copy, R: io::Read, W: io::Write>(
    alloc: A,
    reader: &mut R,
    writer: &mut W,
) -> Result<Summary, RunFault>
    // For a reader that tells its bytes: how a run of the bytes that it had ends.
    ensures told { IfSome (R.remaining reader.old) (λ input. Ends (run_of input) result
        (W.contents writer.old) (W.contents writer.new)) }
    // How a run of the bytes that were taken ends; which these are is known of a reader that tells
    // its bytes.
    ensures read { (input : List ℕ)
        × Consumes (R.remaining reader.old) (R.remaining reader.new) input
        × Ends (run_of input) result (W.contents writer.old) (W.contents writer.new) }
    // Read is answered only before too many bytes were taken: else it is Long.
    ensures few_read { IsErrOf result RunFault.Read → (input : List ℕ)
        × Consumes (R.remaining reader.old) (R.remaining reader.new) input
        × (length input ≤ MAX_INPUT_BYTES) }
    // Said of the plain heap alone, where the run succeeded: which trace was read, and which
    // answers were written.
    ensures plain { IfOk result (λ summary. (script : Script)
        × (answers : List Answered)
        × IsPlainRun script answers (R.remaining reader.old) (R.remaining reader.new)
        × (summary ≡ summary_of answers)
        × Appends (W.contents writer.old) (W.contents writer.new) (output_of answers)) }
    // The same where a write failed: a prefix of the text of such answers was written.
    ensures plain_prefix { IsErrOf result RunFault.Write → (script : Script)
        × (answers : List Answered)
        × IsPlainRun script answers (R.remaining reader.old) (R.remaining reader.new)
        × AppendsLess (W.contents writer.old) (W.contents writer.new) (output_of answers) }
    // The same where memory was refused, unless nothing was written: then nothing is said of the
    // trace, which may not have been read.
    ensures plain_memory { IsErrOf result RunFault.OutOfMemory
        → Keeps (W.contents writer.old) (W.contents writer.new)
        ⊎ ((script : Script)
        × (answers : List Answered)
        × IsPlainRun script answers (R.remaining reader.old) (R.remaining reader.new)
        × AppendsPrefix (W.contents writer.old) (W.contents writer.new)
        (flat_map answered_text answers)) }
{
    // The laws from which the clauses on the plain heap follow.
    heaps_answer_as_plain_heaps();
    an_event_answers_as_the_plain_heap::<A>();
    every_event_keeps_a_heap_well_formed::<A>();
    a_heap_has_the_dump_of_its_plain_heap();
    let mut answers = Answers::new(alloc);
    let (mut reads, mut writes) = (IoLog::new(), IoLog::new());
    match run(
        alloc,
        reader,
        &mut reads,
        &Fixed,
        &mut answers,
        writer,
        &mut writes,
    ) {
        Ok(summary) => Ok(summary),
        Err(fault) => Err(fixed_fault(fault)),
    }
}
