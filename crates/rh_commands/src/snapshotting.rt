//! `dump --heapsnapshot`: the graph of a dump is written as a heap snapshot.

ghost use Rattle.std.specs.Prelude.{◌≡◌, List, ℕ, Ok, IfSome, IfErr};
ghost use Rattle.std.specs.Io.KnownBytes.{Consumes};
ghost use Rattle.rh_dump.specs.texts.Reading.{graph_of_text};
ghost use Rattle.rh_commands.specs.Count.{ConcludesSnapshot};
ghost use Rattle.rh_commands.specs.Fault.{status_after, IsUsualFault};

use crate::counting::conclude;
use crate::ending::Ending;
use crate::fault::LineFault;
use rh_dump::{DumpReadError, Graph, read_dump};
use rh_snapshot::write_snapshot;
use rh_text::IoLog;
use std::alloc::Allocator;
use std::io::{Read, Write};

/// Reads the dump that the reader gives, and writes its graph as a heap snapshot. A failed flush
/// is a failed write.
pub fn print_snapshot<A: Allocator + Copy, R: Read, O: Write>(
    alloc: A,
    reader: &mut R,
    out: &mut O,
) -> Result<Ending, LineFault>
    ensures told { IfSome (R.remaining reader.old) (λ input. ConcludesSnapshot input
        (status_after result) (O.contents out.old) (O.contents out.new)) }
    ensures read { (input : List ℕ)
        × Consumes (R.remaining reader.old) (R.remaining reader.new) input
        × ConcludesSnapshot input (status_after result) (O.contents out.old) (O.contents out.new) }
    ensures late { IfErr result (λ fault. IsUsualFault fault) }
{
    match read_dump(alloc, reader) {
        Ok(graph) => write_and_flush(&graph, out),
        Err(DumpReadError::Fault(fault)) => Err(LineFault::Dump(fault)),
        Err(DumpReadError::Read) => Err(LineFault::Read),
        Err(DumpReadError::OutOfMemory) => Err(LineFault::OutOfMemory),
    }
}

/// Writes a graph as a heap snapshot, and flushes it.
fn write_and_flush<A: Allocator, O: Write>(
    graph: &Graph<A>,
    out: &mut O,
) -> Result<Ending, LineFault>
    ensures concluded { (input : List ℕ) → graph_of_text input ≡ Ok graph.now
        → ConcludesSnapshot input (status_after result) (O.contents out.old) (O.contents out.new) }
    ensures late { IfErr result (λ fault. IsUsualFault fault) }
{
    let sent = write_snapshot(graph, out, &mut IoLog::new());
    let flushed = out.flush();
    conclude(sent, flushed.is_ok())
}
