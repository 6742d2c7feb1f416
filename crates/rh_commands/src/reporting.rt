//! `replay` and `dump` with `--echo` or `--json`.

ghost use Rattle.std.specs.Prelude.{◌≡◌, ◌≤◌, List, ℕ, Ok, false, length, IfOk, IfSome, IfErr, IsErrOf, IsOk};
ghost use Rattle.std.specs.Io.KnownBytes.{Consumes};
ghost use Rattle.rh_text.specs.IoLog.{AreSpent, CountsDown};
ghost use Rattle.rh_dump.specs.texts.Reading.{graph_of_text};
ghost use Rattle.rh_commands.specs.Fault.{status_after, IsUsualFault};
ghost use Rattle.rh_commands.specs.ViewLog.{FlushedSince};
ghost use Rattle.rh_commands.specs.Views.{told_counts, told_report, ConcludesCounts, ConcludesReport, ReportEnds};

use crate::counting::{conclude as conclude_count, put_counts};
use crate::ending::Ending;
use crate::fault::LineFault;
use crate::replaying::conclude;
use crate::view_log::ViewLog;
use rh_dump::{DumpReadError, Graph, read_dump_logged};
use rh_layout::OutOfMemory;
use rh_layout::limits::MAX_INPUT_BYTES;
use rh_replay::{History, HistoryError, Verdict, check, read_history, report};
use rh_text::{InputFault, IoLog, LineText, read_all, send};
use rh_trace_views::{Telling, put_json_dump, report_echo, report_json};
use std::alloc::Allocator;
use std::io::{Read, Write};

/// Checks the history that the reader gives, and writes the report on it as it is to be told. A
/// failed flush is a failed write.
pub fn view_report<A: Allocator + Copy, R: Read, O: Write>(
    alloc: A,
    reader: &mut R,
    log: &mut ViewLog,
    telling: Telling,
    out: &mut O,
) -> Result<Ending, LineFault>
    requires no_read_failed { log.old.reads.failed ≡ false }
    requires no_write_failed { log.old.writes.failed ≡ false }
    ensures told { IfSome (R.remaining reader.old) (λ input. ConcludesReport telling input
        (status_after result) log.new (O.contents out.old) (O.contents out.new)) }
    ensures read { (input : List ℕ)
        × Consumes (R.remaining reader.old) (R.remaining reader.new) input
        × ConcludesReport telling input (status_after result) log.new (O.contents out.old)
        (O.contents out.new) }
    ensures late { IfErr result (λ fault. IsUsualFault fault) }
    ensures reads_counted { CountsDown log.old.reads.left log.old.reads log.new.reads }
    ensures flushed { IsOk result → FlushedSince 1 log.old log.new }
{
    match read_all(alloc, reader, &mut log.reads) {
        Ok(input) => view_report_of(alloc, &input, telling, out, log),
        Err(InputFault::Read) => Err(LineFault::Read),
        Err(InputFault::Long) => Err(LineFault::TooLong),
        Err(InputFault::OutOfMemory) => Err(LineFault::OutOfMemory),
    }
}

/// Checks the history that these bytes spell, writes the report on it, and flushes it.
fn view_report_of<A: Allocator + Copy, O: Write>(
    alloc: A,
    input: &[u8],
    telling: Telling,
    out: &mut O,
    log: &mut ViewLog,
) -> Result<Ending, LineFault>
    requires few { length input.now ≤ MAX_INPUT_BYTES }
    requires no_read_failed { log.old.reads.failed ≡ false }
    requires no_write_failed { log.old.writes.failed ≡ false }
    ensures concluded { ConcludesReport telling input.now (status_after result) log.new
        (O.contents out.old) (O.contents out.new) }
    ensures late { IfErr result (λ fault. IsUsualFault fault) }
    ensures reads { log.new.reads ≡ log.old.reads }
    ensures flushed { FlushedSince 1 log.old log.new }
{
    let reported = report_on(alloc, input, telling, out, &mut log.writes);
    let _ = log.flush(out);
    conclude(reported, !log.has_flush_failed())
}

/// The report on a history that has this verdict.
fn report_text<A: Allocator + Copy, B: Allocator>(
    alloc: A,
    telling: Telling,
    history: &History<B>,
    verdict: &Verdict,
) -> Result<Vec<u8, A>, OutOfMemory>
    ensures { IfOk result (λ text. text.items
        ≡ told_report telling history.now.contents verdict.now) }
{
    match telling {
        Telling::Echo => report_echo(alloc, history, verdict),
        Telling::Json => report_json(alloc, history, verdict),
        Telling::Answers => {
            let mut text = Vec::new(alloc);
            match report(history, verdict, &mut text) {
                Ok(()) => Ok(text),
                // A write to memory fails where memory is refused.
                Err(_) => Err(OutOfMemory),
            }
        }
    }
}

/// Checks the history that these bytes spell, and writes the report on it. Gives the verdict.
#[tactic(auto, using(crate::proofs::Inputs::keeps_itself))]
fn report_on<A: Allocator + Copy, O: Write>(
    alloc: A,
    input: &[u8],
    telling: Telling,
    out: &mut O,
    writes: &mut IoLog,
) -> Result<Verdict, LineFault>
    requires few { length input.now ≤ MAX_INPUT_BYTES }
    requires none_failed { writes.old.failed ≡ false }
    ensures ends { ReportEnds telling input.now result (O.contents out.old)
        (O.contents out.new) }
    ensures late { IfErr result (λ fault. IsUsualFault fault) }
    ensures never_read { ¬ IsErrOf result LineFault.Read }
    ensures failed { IsErrOf result LineFault.Write → AreSpent writes.new }
    ensures none_failed { ¬ IsErrOf result LineFault.Write → writes.new.failed ≡ false }
{
    let history = match read_history(alloc, input) {
        Ok(history) => history,
        Err(HistoryError::Fault(fault)) => return Err(LineFault::History(fault)),
        Err(HistoryError::OutOfMemory) => return Err(LineFault::OutOfMemory),
    };
    let Ok(verdict) = check(alloc, &history) else {
        return Err(LineFault::OutOfMemory);
    };
    let Ok(text) = report_text(alloc, telling, &history, &verdict) else {
        return Err(LineFault::OutOfMemory);
    };
    match send(out, writes, text.as_slice()) {
        Ok(()) => Ok(verdict),
        Err(_) => Err(LineFault::Write),
    }
}

/// Reads the dump that the reader gives, and writes how many roots and objects it has, as it is to
/// be told: as a line, or as an object of JSON. A failed flush is a failed write.
pub fn view_count<A: Allocator + Copy, R: Read, O: Write>(
    alloc: A,
    reader: &mut R,
    log: &mut ViewLog,
    telling: Telling,
    out: &mut O,
) -> Result<Ending, LineFault>
    requires no_read_failed { log.old.reads.failed ≡ false }
    requires no_write_failed { log.old.writes.failed ≡ false }
    ensures told { IfSome (R.remaining reader.old) (λ input. ConcludesCounts telling input
        (status_after result) log.new (O.contents out.old) (O.contents out.new)) }
    ensures read { (input : List ℕ)
        × Consumes (R.remaining reader.old) (R.remaining reader.new) input
        × ConcludesCounts telling input (status_after result) log.new (O.contents out.old)
        (O.contents out.new) }
    ensures late { IfErr result (λ fault. IsUsualFault fault) }
    ensures reads_counted { CountsDown log.old.reads.left log.old.reads log.new.reads }
    ensures flushed { IsOk result → FlushedSince 1 log.old log.new }
{
    match read_dump_logged(alloc, reader, &mut log.reads) {
        Ok(graph) => write_count(&graph, telling, out, log),
        Err(DumpReadError::Fault(fault)) => Err(LineFault::Dump(fault)),
        Err(DumpReadError::Read) => Err(LineFault::Read),
        Err(DumpReadError::OutOfMemory) => Err(LineFault::OutOfMemory),
    }
}

/// The text becomes the counts of a graph, as they are to be told.
fn put_told_counts<A: Allocator>(text: &mut LineText, graph: &Graph<A>, telling: Telling)
    ensures { text.new ≡ told_counts telling graph.now }
{
    match telling {
        Telling::Answers => put_counts(text, graph),
        Telling::Echo => put_counts(text, graph),
        Telling::Json => {
            put_json_dump(text, graph.roots() as usize, graph.objects() as usize);
        }
    }
}

/// Writes the counts of a graph, and flushes them.
fn write_count<A: Allocator, O: Write>(
    graph: &Graph<A>,
    telling: Telling,
    out: &mut O,
    log: &mut ViewLog,
) -> Result<Ending, LineFault>
    requires no_read_failed { log.old.reads.failed ≡ false }
    requires no_write_failed { log.old.writes.failed ≡ false }
    ensures concluded { (input : List ℕ) → graph_of_text input ≡ Ok graph.now
        → ConcludesCounts telling input (status_after result) log.new (O.contents out.old)
        (O.contents out.new) }
    ensures late { IfErr result (λ fault. IsUsualFault fault) }
    ensures reads { log.new.reads ≡ log.old.reads }
    ensures flushed { FlushedSince 1 log.old log.new }
{
    let mut text = LineText::new();
    put_told_counts(&mut text, graph, telling);
    let sent = send(out, &mut log.writes, text.as_bytes());
    let _ = log.flush(out);
    conclude_count(sent, !log.has_flush_failed())
}
