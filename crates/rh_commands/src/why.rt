//! `dump --why`: a shortest path from a root to an object of a dump is told.

ghost use Rattle.std.specs.Prelude.{◌≡◌, List, ℕ, Ok, IfSome, IfErr};
ghost use Rattle.std.specs.Io.KnownBytes.{Consumes};
ghost use Rattle.rh_dump.specs.texts.Reading.{graph_of_text};
ghost use Rattle.rh_commands.specs.Count.{ConcludesWhy};
ghost use Rattle.rh_commands.specs.Fault.{status_after, IsUsualFault};

use crate::counting::conclude;
use crate::ending::Ending;
use crate::fault::LineFault;
use rh_dump::{DumpReadError, Graph, read_dump};
use rh_text::IoLog;
use rh_why::{path_to, write_path};
use std::alloc::Allocator;
use std::io::{Read, Write};

/// Reads the dump that the reader gives, and tells a shortest path from a root to the object of this
/// number, or that it isn't reached. A failed flush is a failed write.
pub fn print_path<A: Allocator + Copy, R: Read, O: Write>(
    alloc: A,
    reader: &mut R,
    out: &mut O,
    object: u32,
) -> Result<Ending, LineFault>
    ensures told { IfSome (R.remaining reader.old) (λ input. ConcludesWhy object input
        (status_after result) (O.contents out.old) (O.contents out.new)) }
    ensures read { (input : List ℕ)
        × Consumes (R.remaining reader.old) (R.remaining reader.new) input
        × ConcludesWhy object input (status_after result) (O.contents out.old)
        (O.contents out.new) }
    ensures late { IfErr result (λ fault. IsUsualFault fault) }
{
    match read_dump(alloc, reader) {
        Ok(graph) => tell_path(alloc, &graph, out, object),
        Err(DumpReadError::Fault(fault)) => Err(LineFault::Dump(fault)),
        Err(DumpReadError::Read) => Err(LineFault::Read),
        Err(DumpReadError::OutOfMemory) => Err(LineFault::OutOfMemory),
    }
}

/// Tells a path in a graph, and flushes it.
fn tell_path<A: Allocator + Copy, O: Write>(
    alloc: A,
    graph: &Graph<A>,
    out: &mut O,
    object: u32,
) -> Result<Ending, LineFault>
    ensures concluded { (input : List ℕ) → graph_of_text input ≡ Ok graph.now
        → ConcludesWhy object input (status_after result) (O.contents out.old)
        (O.contents out.new) }
    ensures late { IfErr result (λ fault. IsUsualFault fault) }
{
    let Ok(path) = path_to(alloc, graph, object) else {
        return Err(LineFault::OutOfMemory);
    };
    let sent = write_path(object, &path, out, &mut IoLog::new());
    let flushed = out.flush();
    conclude(sent, flushed.is_ok())
}
