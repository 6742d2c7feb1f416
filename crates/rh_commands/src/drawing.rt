//! `draw`: the heap of a trace is drawn.

ghost use Rattle.std.specs.Prelude.{◌≡◌, ◌↔◌, List, ℕ, Option, Err, IfSome, IfErr, IsOk, IsTrue};
ghost use Rattle.std.specs.Io.KnownBytes.{Consumes};
ghost use Rattle.rh_commands.specs.Count.{IsCountStatus};
ghost use Rattle.rh_commands.specs.Draw.{ConcludesDraw, DrawEnds};
ghost use Rattle.rh_commands.specs.Fault.{status_after, IsUsualFault};

use crate::ending::Ending;
use crate::fault::LineFault;
use crate::running::fault_of_run;
use rh_layout::limits::MAX_LINES;
use rh_text::{InputFault, IoLog, read_all};
use rh_trace::{ParseError, parse};
use rh_trace_views::draw_trace;
use std::alloc::Allocator;
use std::io::{Read, Write};

/// Plays the trace that the reader gives up to a line, and writes a picture of the heap as it stands
/// then; without a line it plays the whole trace. A failed flush is a failed write.
pub fn draw<A: Allocator + Copy, R: Read, O: Write>(
    alloc: A,
    reader: &mut R,
    out: &mut O,
    line: Option<u32>,
) -> Result<Ending, LineFault>
    ensures told { IfSome (R.remaining reader.old) (λ input. ConcludesDraw (status_after result)
        (O.contents out.old) (O.contents out.new)) }
    ensures read { (input : List ℕ)
        × Consumes (R.remaining reader.old) (R.remaining reader.new) input
        × ConcludesDraw (status_after result) (O.contents out.old) (O.contents out.new) }
    ensures late { IfErr result (λ fault. IsUsualFault fault) }
{
    match read_all(alloc, reader, &mut IoLog::new()) {
        Ok(input) => draw_input(alloc, &input, out, line),
        Err(InputFault::Read) => Err(LineFault::Read),
        Err(InputFault::Long) => Err(LineFault::TooLong),
        Err(InputFault::OutOfMemory) => Err(LineFault::OutOfMemory),
    }
}

/// Draws the heap of the trace that these bytes spell, and flushes the picture.
fn draw_input<A: Allocator + Copy, O: Write>(
    alloc: A,
    input: &[u8],
    out: &mut O,
    line: Option<u32>,
) -> Result<Ending, LineFault>
    ensures concluded { ConcludesDraw (status_after result) (O.contents out.old)
        (O.contents out.new) }
    ensures late { IfErr result (λ fault. IsUsualFault fault) }
{
    let drawn = picture(alloc, input, out, line);
    let flushed = out.flush();
    conclude(drawn, flushed.is_ok())
}

/// Draws the heap of the trace that these bytes spell.
fn picture<A: Allocator + Copy, O: Write>(
    alloc: A,
    input: &[u8],
    out: &mut O,
    line: Option<u32>,
) -> Result<(), LineFault>
    ensures ends { DrawEnds result (O.contents out.old) (O.contents out.new) }
    ensures late { IfErr result (λ fault. IsUsualFault fault) }
{
    let until = match line {
        Some(number) => number,
        None => MAX_LINES,
    };
    if line.is_some() && has_fewer_lines(input, until) {
        return Err(fault_beyond(alloc, input));
    }
    let mut reader = input;
    let (mut reads, mut writes) = (IoLog::new(), IoLog::new());
    match draw_trace(alloc, &mut reader, &mut reads, until, out, &mut writes) {
        Ok(()) => Ok(()),
        Err(fault) => Err(fault_of_run(fault)),
    }
}

/// Whether a text has fewer line ends.
fn has_fewer_lines(input: &[u8], lines: u32) -> bool {
    let mut left = lines;
    for byte in input {
        if *byte == b'\n' {
            left = left.saturating_sub(1);
        }
    }
    left > 0
}

/// The fault of a text that hasn't the line that is asked for: its own, where it has one.
fn fault_beyond<A: Allocator + Copy>(alloc: A, input: &[u8]) -> LineFault
    ensures late { IsUsualFault result }
    ensures keeps { (any : Option (List ℕ)) → DrawEnds (Err result) any any }
{
    match parse(alloc, input) {
        Ok(_) => LineFault::NoLine,
        Err(ParseError::Fault(fault)) => LineFault::Trace(fault),
        Err(ParseError::OutOfMemory) => LineFault::OutOfMemory,
    }
}

/// What a picture and the flush after it come to.
fn conclude(drawn: Result<(), LineFault>, flushed: bool) -> Result<Ending, LineFault>
    requires { IfErr drawn (λ fault. IsUsualFault fault) }
    ensures status { IsCountStatus drawn (status_after result) }
    // The status is 0 exactly where the picture was written and flushed.
    ensures done { (status_after result ≡ 0) ↔ (IsOk drawn × IsTrue flushed) }
    ensures late { IfErr result (λ fault. IsUsualFault fault) }
{
    match drawn {
        Ok(()) if flushed => Ok(Ending::Done),
        Ok(()) => Err(LineFault::Write),
        Err(fault) => Err(fault),
    }
}
