//! `rheap draw`: runs a trace up to a line, and has the heap there drawn.

ghost use Rattle.std.specs.Prelude.{◌≡◌, ℕ, List, false, OnOk, IfErr, IsErrOf};
ghost use Rattle.std.specs.Io.KnownBytes.{Appends, Keeps};
ghost use Rattle.rh_text.specs.IoLog.{AreSpent};
ghost use Rattle.rh_text.specs.Output.{AppendsLess};
ghost use Rattle.rh_draw.specs.Picture.{IsWhole};
ghost use Rattle.rh_trace_views.specs.Drawing.{DrawsTrace};

use crate::partway::engine_at;
use rh_core::Heap;
use rh_draw::{DrawError, draw_logged};
use rh_text::{InputFault, IoLog, read_all};
use rh_trace::{ParseError, RunFault, Trace, parse};
use std::alloc::Allocator;
use std::io;

/// Writes the picture of a heap, once so many lines were played.
fn draw_heap<A: Allocator + Copy, W: io::Write>(
    alloc: A,
    heap: &Heap<A>,
    played: u32,
    writer: &mut W,
    writes: &mut IoLog,
) -> Result<(), RunFault>
    requires { writes.old.failed ≡ false }
    ensures drawn { DrawsTrace result (W.contents writer.old) (W.contents writer.new) }
    ensures never_read { ¬ IsErrOf result RunFault.Read }
    ensures failed { IsErrOf result RunFault.Write → AreSpent writes.new }
    ensures none_failed { ¬ IsErrOf result RunFault.Write → writes.new.failed ≡ false }
{
    let Ok(title) = format!(in alloc; "The heap after line {played}") else {
        return Err(RunFault::OutOfMemory);
    };
    match draw_logged(alloc, heap, title.as_str(), writer, writes) {
        Ok(()) => Ok(()),
        Err(DrawError::Write) => Err(RunFault::Write),
        Err(DrawError::OutOfMemory) => Err(RunFault::OutOfMemory),
    }
}

/// Writes the picture of the heap of a trace, once so many lines were played.
fn draw_read<A: Allocator + Copy, W: io::Write>(
    alloc: A,
    trace: &Trace<A>,
    lines: u32,
    writer: &mut W,
    writes: &mut IoLog,
) -> Result<(), RunFault>
    requires { writes.old.failed ≡ false }
    ensures drawn { DrawsTrace result (W.contents writer.old) (W.contents writer.new) }
    ensures never_read { ¬ IsErrOf result RunFault.Read }
    ensures failed { IsErrOf result RunFault.Write → AreSpent writes.new }
    ensures none_failed { ¬ IsErrOf result RunFault.Write → writes.new.failed ≡ false }
{
    match engine_at(alloc, trace, lines) {
        Ok(engine) => {
            let played = (trace.len() as u32 + 1).min(lines.max(1));
            draw_heap(alloc, engine.heap(), played, writer, writes)
        }
        Err(fault) => Err(fault),
    }
}

/// Writes the picture of the heap of the trace that the input spells, once so many lines were played.
fn draw_input<A: Allocator + Copy, W: io::Write>(
    alloc: A,
    input: &[u8],
    lines: u32,
    writer: &mut W,
    writes: &mut IoLog,
) -> Result<(), RunFault>
    requires { writes.old.failed ≡ false }
    ensures drawn { DrawsTrace result (W.contents writer.old) (W.contents writer.new) }
    ensures never_read { ¬ IsErrOf result RunFault.Read }
    ensures failed { IsErrOf result RunFault.Write → AreSpent writes.new }
    ensures none_failed { ¬ IsErrOf result RunFault.Write → writes.new.failed ≡ false }
{
    match parse(alloc, input) {
        Ok(trace) => draw_read(alloc, &trace, lines, writer, writes),
        Err(ParseError::Fault(fault)) => Err(RunFault::Trace(fault)),
        Err(ParseError::OutOfMemory) => Err(RunFault::OutOfMemory),
    }
}

/// Reads a trace whole, plays so many of its lines, and writes a picture of the heap as it stands
/// then. The first line, which is the heap's, is counted; where the trace has no more lines all are
/// played. Answers aren't written. Nothing is written before all this is done. `reads` and `writes`
/// tell whether a read and whether a write failed, and how many were made.
///
/// # Errors
///
/// Those of `rh_trace::run_trace`, in the same order. After any but `Write` nothing was written, and
/// after that a prefix of the picture.
pub fn draw_trace<A: Allocator + Copy, R: io::Read, W: io::Write>(
    alloc: A,
    reader: &mut R,
    reads: &mut IoLog,
    lines: u32,
    writer: &mut W,
    writes: &mut IoLog,
) -> Result<(), RunFault>
    requires no_read_failed { reads.old.failed ≡ false }
    requires no_write_failed { writes.old.failed ≡ false }
    ensures appended { OnOk result ((text : List ℕ) × IsWhole text
        × Appends (W.contents writer.old) (W.contents writer.new) text) }
    ensures prefix { IsErrOf result RunFault.Write → (text : List ℕ)
        × IsWhole text × AppendsLess (W.contents writer.old) (W.contents writer.new) text }
    ensures nothing { IfErr result (λ e. ¬ (e ≡ RunFault.Write)
        → Keeps (W.contents writer.old) (W.contents writer.new)) }
    // Read is answered only where a read failed or none was left, and no read failed where it
    // isn't.
    ensures read_failed { IsErrOf result RunFault.Read → AreSpent reads.new }
    ensures no_read_failed { ¬ IsErrOf result RunFault.Read → reads.new.failed ≡ false }
    // The same of writes.
    ensures write_failed { IsErrOf result RunFault.Write → AreSpent writes.new }
    ensures no_write_failed { ¬ IsErrOf result RunFault.Write → writes.new.failed ≡ false }
{
    match read_all(alloc, reader, reads) {
        Ok(input) => draw_input(alloc, &input, lines, writer, writes),
        Err(InputFault::Read) => Err(RunFault::Read),
        Err(InputFault::Long) => Err(RunFault::Long),
        Err(InputFault::OutOfMemory) => Err(RunFault::OutOfMemory),
    }
}
