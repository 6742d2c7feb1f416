//! `run_shared`: a trace is read, played by threads, and its history is checked and written.

ghost use Rattle.std.specs.Prelude.{◌≡◌, ◌≤◌, List, ℕ, length, false, IsErrOf, IfSome};
ghost use Rattle.std.specs.Io.KnownBytes.{Consumes};
ghost use Rattle.rh_text.specs.IoLog.{AreSpent, AreSpentSince, CountsDown};
ghost use Rattle.rh_syntax.specs.Spelling.{IsScript};
ghost use Rattle.rh_trace.specs.Ways.{IsTrace};
ghost use Rattle.rh_shared_trace.specs.Run.{Ends, read_fault};

use crate::fault::SharedRunFault;
use crate::lines::line_fault;
use crate::options::{RunOptions, shared_config_of};
use crate::playing::{Unplayed, play};
use crate::writing::write_checked;
use rh_layout::limits::MAX_INPUT_BYTES;
use rh_shared::{Start, StartError};
use rh_syntax::Trace;
use rh_text::IoLog;
use rh_trace::{RunFault, config_of, read_trace};
use std::alloc::Allocator;
use std::io;
use std::sync::Wait;
use std::thread::Threads;

/// A fault of reading a trace, as one of a shared run.
fn fault_of_read(fault: RunFault) -> SharedRunFault
    ensures { result ≡ read_fault fault }
{
    match fault {
        RunFault::Read => SharedRunFault::Read,
        RunFault::Long => SharedRunFault::Long,
        RunFault::Trace(fault) => SharedRunFault::Trace(fault),
        RunFault::New(fault) => SharedRunFault::New(fault),
        RunFault::Write => SharedRunFault::Write,
        RunFault::OutOfMemory => SharedRunFault::OutOfMemory,
    }
}

/// Runs a trace that was read.
fn run_script<A, R, W>(
    rt: &R,
    alloc: A,
    trace: &Trace<A>,
    options: RunOptions,
    writer: &mut W,
    writes: &mut IoLog,
) -> Result<(), SharedRunFault>
where
    A: Allocator + Copy + Send,
    R: Threads + Wait + Sync,
    W: io::Write,
    requires fits { IsScript trace.now }
    requires none_failed { writes.old.failed ≡ false }
    ensures ends { (input : List ℕ) → IsTrace input trace.now → Ends options input result
        (W.contents writer.old) (W.contents writer.new) }
    ensures never_read { ¬ IsErrOf result SharedRunFault.Read }
    ensures failed { IsErrOf result SharedRunFault.Write → AreSpent writes.new }
    ensures none_failed { ¬ IsErrOf result SharedRunFault.Write → writes.new.failed ≡ false }
    ensures spent { IsErrOf result SharedRunFault.Write → AreSpentSince writes.old writes.new }
{
    let header = trace.header();
    if let Some(fault) = line_fault(header.owners, trace.requests()) {
        return Err(SharedRunFault::Trace(fault));
    }
    let start = match Start::new(alloc, config_of(header), shared_config_of(header, options)) {
        Ok(start) => start,
        Err(StartError::Config(fault)) => return Err(SharedRunFault::New(fault)),
        Err(StartError::Shared(fault)) => return Err(SharedRunFault::Shared(fault)),
        Err(StartError::OutOfMemory) => return Err(SharedRunFault::OutOfMemory),
    };
    match play(rt, alloc, start, trace.requests()) {
        Ok(kept) => write_checked(alloc, trace, kept.history(), writer, writes),
        Err(Unplayed::HistoryDiffers) => Err(SharedRunFault::HistoryDiffers),
        Err(Unplayed::OutOfMemory) => Err(SharedRunFault::OutOfMemory),
    }
}

/// Reads a trace of commands whole, plays its lines on a shared heap, and writes the history of the
/// calls. Each owner's lines are played in order by its mutator, in a thread of its own, with
/// replicators in threads of their own beside them; a call that is refused is passed over. A trace
/// has at most 16,777,216 bytes, and must end within 33,554,432 reads.
///
/// What is written is the text of a legal history of as many owners and slots as the trace says.
/// Each owner's lines stand in it in order, each once, with their answers; left out are only those
/// that a limit may have refused, which are allocations and stores, and, where the history has
/// 65,536 calls, any after an owner's last one. In which order the calls of two owners stand isn't
/// said, and two runs may differ in it. It waits for the threads.
///
/// # Errors
///
/// Of the faults of the input and of what was asked for the first is answered: `Long`, then
/// `Trace`, then `New`, then `Shared`. `Read` comes where, before more than 16,777,216 bytes came,
/// a read failed or was one too many, `OutOfMemory` where memory or a thread was refused,
/// `HistoryDiffers` where the history isn't as is said above. Nothing was written after any of
/// these. `Write` comes where a write failed or 33,554,432 writes of one line didn't come to its
/// end; then a prefix of such a text was written.
///
/// `reads` and `writes` tell whether a read and whether a write failed, and how many were made.
pub fn run_shared<A, R, I, W>(
    rt: &R,
    alloc: A,
    reader: &mut I,
    reads: &mut IoLog,
    writer: &mut W,
    writes: &mut IoLog,
    options: RunOptions,
) -> Result<(), SharedRunFault>
where
    A: Allocator + Copy + Send,
    R: Threads + Wait + Sync,
    I: io::Read,
    W: io::Write,
    requires no_read_failed { reads.old.failed ≡ false }
    requires no_write_failed { writes.old.failed ≡ false }
    // For a reader that tells its bytes: how a run of the bytes that it had ends.
    ensures told { IfSome (I.remaining reader.old) (λ input. Ends options input result
        (W.contents writer.old) (W.contents writer.new)) }
    // How a run of the bytes that were taken ends; which these are is known of a reader that tells
    // its bytes.
    ensures read { (input : List ℕ)
        × Consumes (I.remaining reader.old) (I.remaining reader.new) input
        × Ends options input result (W.contents writer.old) (W.contents writer.new) }
    // Read is answered only before too many bytes were taken: else it is Long.
    ensures few_read { IsErrOf result SharedRunFault.Read → (input : List ℕ)
        × Consumes (I.remaining reader.old) (I.remaining reader.new) input
        × (length input ≤ MAX_INPUT_BYTES) }
    // Read is answered only where a read failed or none was left, and no read failed where it
    // isn't.
    ensures read_failed { IsErrOf result SharedRunFault.Read → AreSpent reads.new }
    ensures no_read_failed { ¬ IsErrOf result SharedRunFault.Read → reads.new.failed ≡ false }
    // Each read that was made took one of those that were left.
    ensures reads_counted { CountsDown reads.old.left reads.old reads.new }
    // Write is answered only where a write failed or none was left, and no write failed where it
    // isn't.
    ensures write_failed { IsErrOf result SharedRunFault.Write → AreSpent writes.new }
    ensures no_write_failed { ¬ IsErrOf result SharedRunFault.Write
        → writes.new.failed ≡ false }
    // Where it is refused and no write failed, at least 33,554,432 were made in this call, unless
    // the count of calls is full. That each text has its own is `send`'s to say.
    ensures writes_spent { IsErrOf result SharedRunFault.Write
        → AreSpentSince writes.old writes.new }
{
    match read_trace(alloc, reader, reads) {
        Ok(trace) => run_script(rt, alloc, &trace, options, writer, writes),
        Err(fault) => Err(fault_of_read(fault)),
    }
}
