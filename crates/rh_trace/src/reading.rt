//! A trace is read whole from a reader.

ghost use Rattle.std.specs.Prelude.{◌≡◌, ◌≤◌, List, ℕ, length, false, IfOk, IsErrOf, IfSome};
ghost use Rattle.std.specs.Io.KnownBytes.{Consumes};
ghost use Rattle.rh_text.specs.IoLog.{AreSpent, CountsDown};
ghost use Rattle.rh_syntax.specs.Spelling.{IsScript};
ghost use Rattle.rh_trace.specs.Ways.{IsReadAs};

use crate::run_fault::RunFault;
use rh_layout::limits::MAX_INPUT_BYTES;
use rh_syntax::{ParseError, Trace, parse};
use rh_text::{InputFault, IoLog, read_all};
use std::alloc::Allocator;
use std::io;

/// The trace that these bytes spell.
///
/// # Errors
///
/// `Long` where there are more than 16,777,216 bytes, and else `Trace` where they spell none.
/// `OutOfMemory` where the allocator refused memory.
pub(crate) fn trace_of_bytes<A: Allocator + Copy>(
    alloc: A,
    input: &[u8],
) -> Result<Trace<A>, RunFault>
    ensures told { IsReadAs input.now result }
    ensures fits { IfOk result (λ trace. IsScript trace) }
    ensures never_read { ¬ IsErrOf result RunFault.Read }
{
    if input.len() > MAX_INPUT_BYTES {
        return Err(RunFault::Long);
    }
    match parse(alloc, input) {
        Ok(trace) => Ok(trace),
        Err(ParseError::Fault(fault)) => Err(RunFault::Trace(fault)),
        Err(ParseError::OutOfMemory) => Err(RunFault::OutOfMemory),
    }
}

/// Reads a trace whole, and tells in `reads` whether a read failed, and how many were made. A trace
/// has at most 16,777,216 bytes, and must end within 33,554,432 reads.
///
/// # Errors
///
/// Of the faults of an input the first is answered: `Long`, then `Trace`. `Read` comes where, before
/// more than 16,777,216 bytes came, a read failed or was one too many, `OutOfMemory` where the
/// allocator refused memory. `New` and `Write` never come.
pub fn read_trace<A: Allocator + Copy, R: io::Read>(
    alloc: A,
    reader: &mut R,
    reads: &mut IoLog,
) -> Result<Trace<A>, RunFault>
    requires no_read_failed { reads.old.failed ≡ false }
    // For a reader that tells its bytes: how reading the bytes that it had ends.
    ensures told { IfSome (R.remaining reader.old) (λ input. IsReadAs input result) }
    // How reading the bytes that were taken ends; which these are is known of a reader that tells
    // its bytes.
    ensures read { (input : List ℕ)
        × Consumes (R.remaining reader.old) (R.remaining reader.new) input
        × IsReadAs input result }
    ensures fits { IfOk result (λ trace. IsScript trace) }
    // Read is answered only before too many bytes were taken: else it is Long.
    ensures few_read { IsErrOf result RunFault.Read → (input : List ℕ)
        × Consumes (R.remaining reader.old) (R.remaining reader.new) input
        × (length input ≤ MAX_INPUT_BYTES) }
    // Read is answered only where a read failed or none was left, and no read failed where it
    // isn't.
    ensures read_failed { IsErrOf result RunFault.Read → AreSpent reads.new }
    ensures no_read_failed { ¬ IsErrOf result RunFault.Read → reads.new.failed ≡ false }
    // Each read that was made took one of those that were left.
    ensures reads_counted { CountsDown reads.old.left reads.old reads.new }
{
    match read_all(alloc, reader, reads) {
        Ok(input) => trace_of_bytes(alloc, &input),
        Err(InputFault::Read) => Err(RunFault::Read),
        Err(InputFault::Long) => Err(RunFault::Long),
        Err(InputFault::OutOfMemory) => Err(RunFault::OutOfMemory),
    }
}
