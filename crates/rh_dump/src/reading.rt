//! A dump read from a reader.

ghost use Rattle.std.specs.Prelude.{◌≡◌, [], false, IfSome, IsErrOf};
ghost use Rattle.rh_text.specs.IoLog.{AreSpent, CountsDown};
ghost use Rattle.rh_text.specs.RawLine.{lines_of};
ghost use Rattle.rh_dump.specs.texts.Putting.{put_lines, error_in, Gives, Reads, ReadsDump};
ghost use Rattle.rh_dump.specs.texts.Reading.{end_or_fault, lines_from, graph_of_text};
ghost use Rattle.rh_dump.specs.declared.reading.due.Due.TheVariants as dues;

mod due;
pub mod fault;
mod line_parts;
mod line_reading;
mod parts;
pub mod read_error;

use crate::dump_graph::Graph;
use crate::graph_builder::GraphBuilder;
use crate::limits::{MAX_DUMP_BYTES, MAX_DUMP_READS};
use crate::reading::due::Due;
use crate::reading::fault::{DumpFault, DumpKind};
use crate::reading::line_reading::read_raw_line;
use crate::reading::read_error::{DumpReadError, LineError};
use rh_text::{InputFault, IoLog, first_line, read_past};
use std::alloc::Allocator;
use std::io;

/// Why the line of this number isn't read.
fn error_in(line: u32, error: LineError) -> DumpReadError
    ensures { result ≡ error_in line error }
{
    match error {
        LineError::Kind(kind) => DumpReadError::Fault(DumpFault { line, kind }),
        LineError::OutOfMemory => DumpReadError::OutOfMemory,
    }
}

/// No line is left: nothing is due.
fn end_of(number: u32, due: Due) -> Result<(), DumpReadError>
    ensures { Gives (λ _. []) result (end_or_fault number due) }
{
    match due {
        Due::Nothing => Ok(()),
        _ => Err(DumpReadError::Fault(DumpFault {
            line: number,
            kind: DumpKind::End,
        })),
    }
}

/// Puts the lines of a text into a graph that is empty.
fn read_lines<A: Allocator + Copy>(
    builder: &mut GraphBuilder<A>,
    bytes: &[u8],
) -> Result<(), DumpReadError>
    ensures { Gives (λ _. builder.new) result (put_lines builder.old
        (lines_from MAX_DUMP_BYTES dues.Header 1 0 (lines_of bytes.now))) }
{
    let mut due = Due::Header;
    let mut number = 1u32;
    let mut rest = bytes;
    while !rest.is_empty() {
        let (line, ended, after) = first_line(rest);
        let end = bytes.len() - after.len();
        due = match read_raw_line(builder, due, end, line, ended) {
            Ok(next) => next,
            Err(error) => return Err(error_in(number, error)),
        };
        number += 1;
        rest = after;
    }
    end_of(number, due)
}

/// The graph whose dump a text is, or its first fault.
fn graph_in_text<A: Allocator + Copy>(alloc: A, text: &[u8]) -> Result<Graph<A>, DumpReadError>
    ensures { Gives (λ g. g) result (graph_of_text text.now) }
{
    let mut builder = GraphBuilder::new(alloc);
    match read_lines(&mut builder, text) {
        Ok(()) => Ok(builder.finish()),
        Err(error) => Err(error),
    }
}

/// Reads a dump of version 1 or 2 whole and gives its graph. It takes at most twice the text beside
/// what the graph keeps.
///
/// # Errors
///
/// `Fault` where the text is no dump, or has more than 268,435,456 bytes: it names the first faulty
/// line and what is wrong with it. `Read` where, before more bytes came, a read failed, or
/// 536,870,912 reads, those that were interrupted among them, didn't come to the end; `OutOfMemory`
/// where the allocator refused memory. `read_dump_logged` says of `Read` that it comes nowhere
/// else.
pub fn read_dump<A: Allocator + Copy, R: io::Read>(
    alloc: A,
    reader: &mut R,
) -> Result<Graph<A>, DumpReadError>
    // For a reader that tells its bytes: how reading the bytes that it had ends.
    ensures told { IfSome (R.remaining reader.old) (λ input. Reads (λ g. g) result input) }
    // How reading the bytes that were taken ends; which these are is known of a reader that tells
    // its bytes.
    ensures bytes { ReadsDump (R.remaining reader.old) (R.remaining reader.new) (λ g. g) result }
{
    read_dump_logged(alloc, reader, &mut IoLog::limited(MAX_DUMP_READS))
}

/// Reads a dump as `read_dump` does, by as many reads as are left, and tells in `reads` whether a
/// read failed, and how many were made.
///
/// # Errors
///
/// As `read_dump`.
pub fn read_dump_logged<A: Allocator + Copy, R: io::Read>(
    alloc: A,
    reader: &mut R,
    reads: &mut IoLog,
) -> Result<Graph<A>, DumpReadError>
    requires { reads.old.failed ≡ false }
    // As of `read_dump`.
    ensures told { IfSome (R.remaining reader.old) (λ input. Reads (λ g. g) result input) }
    ensures bytes { ReadsDump (R.remaining reader.old) (R.remaining reader.new) (λ g. g) result }
    // Read is answered only where a read failed or none was left, and no read failed where it
    // isn't.
    ensures failed { IsErrOf result DumpReadError.Read → AreSpent reads.new }
    ensures none_failed { ¬ IsErrOf result DumpReadError.Read → reads.new.failed ≡ false }
    // No read came to the end where Read is answered.
    ensures not_ended { IsErrOf result DumpReadError.Read → reads.new.ended ≡ reads.old.ended }
    // Each read that was made took one of those that were left.
    ensures counted { CountsDown reads.old.left reads.old reads.new }
{
    match read_past(alloc, reader, reads, MAX_DUMP_BYTES) {
        Ok(text) => graph_in_text(alloc, &text),
        Err(InputFault::Read) => Err(DumpReadError::Read),
        Err(InputFault::OutOfMemory) => Err(DumpReadError::OutOfMemory),
        // Reading past a limit never answers it.
        Err(InputFault::Long) => unreachable!(),
    }
}
