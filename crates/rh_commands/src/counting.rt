//! `dump`: the objects and words of a dump are counted.

ghost use Rattle.std.specs.Prelude.{◌≡◌, ◌↔◌, List, ℕ, Ok, IfSome, IfErr, IsOk, IsTrue};
ghost use Rattle.std.specs.Io.KnownBytes.{Consumes};
ghost use Rattle.rh_dump.specs.texts.Reading.{graph_of_text};
ghost use Rattle.rh_commands.specs.Count.{ConcludesCount, IsSentStatus, counts_line};
ghost use Rattle.rh_commands.specs.Fault.{status_after, IsUsualFault};

use crate::ending::Ending;
use crate::fault::LineFault;
use rh_dump::{DumpReadError, Graph, read_dump};
use rh_text::{IoLog, LineText, Write as Unsent, send};
use std::alloc::Allocator;
use std::io::{Read, Write};

/// Reads the dump that the reader gives, and writes how many roots and objects it has. A failed
/// flush is a failed write.
pub fn count<A: Allocator + Copy, R: Read, O: Write>(
    alloc: A,
    reader: &mut R,
    out: &mut O,
) -> Result<Ending, LineFault>
    ensures told { IfSome (R.remaining reader.old) (λ input. ConcludesCount input
        (status_after result) (O.contents out.old) (O.contents out.new)) }
    ensures read { (input : List ℕ)
        × Consumes (R.remaining reader.old) (R.remaining reader.new) input
        × ConcludesCount input (status_after result) (O.contents out.old) (O.contents out.new) }
    ensures late { IfErr result (λ fault. IsUsualFault fault) }
{
    match read_dump(alloc, reader) {
        Ok(graph) => write_counts(&graph, out),
        Err(DumpReadError::Fault(fault)) => Err(LineFault::Dump(fault)),
        Err(DumpReadError::Read) => Err(LineFault::Read),
        Err(DumpReadError::OutOfMemory) => Err(LineFault::OutOfMemory),
    }
}

/// The text becomes the line of a graph's counts.
pub(crate) fn put_counts<A: Allocator>(text: &mut LineText, graph: &Graph<A>)
    ensures { text.new ≡ counts_line graph.now }
{
    text.clear();
    text.put_part(b"roots ", graph.roots());
    text.put_part(b" objects ", graph.objects());
    text.put(b"\n");
}

/// Writes how many roots and objects a graph has, and flushes it.
fn write_counts<A: Allocator, O: Write>(graph: &Graph<A>, out: &mut O) -> Result<Ending, LineFault>
    ensures concluded { (input : List ℕ) → graph_of_text input ≡ Ok graph.now
        → ConcludesCount input (status_after result) (O.contents out.old) (O.contents out.new) }
    ensures late { IfErr result (λ fault. IsUsualFault fault) }
{
    let mut text = LineText::new();
    put_counts(&mut text, graph);
    let sent = send(out, &mut IoLog::new(), text.as_bytes());
    let flushed = out.flush();
    conclude(sent, flushed.is_ok())
}

/// What a text that was sent and the flush after it come to.
pub(crate) fn conclude(sent: Result<(), Unsent>, flushed: bool) -> Result<Ending, LineFault>
    ensures status { IsSentStatus sent (status_after result) }
    // The status is 0 exactly where the text was written and flushed.
    ensures done { (status_after result ≡ 0) ↔ (IsOk sent × IsTrue flushed) }
    ensures late { IfErr result (λ fault. IsUsualFault fault) }
{
    match sent {
        Ok(()) if flushed => Ok(Ending::Done),
        _ => Err(LineFault::Write),
    }
}
