//! `threads`: a trace is played by threads on one shared heap.

ghost use Rattle.std.specs.Prelude.{◌≡◌, ◌↔◌, List, ℕ, IfSome, IfErr, IsOk, IsTrue};
ghost use Rattle.std.specs.Io.KnownBytes.{Consumes};
ghost use Rattle.rh_commands.specs.Shared.{ConcludesShared, IsSharedStatus, shared_status, shared_told_as};
ghost use Rattle.rh_commands.specs.Fault.{status_of, status_after, IsLateFault};

use crate::ending::Ending;
use crate::fault::LineFault;
use rh_shared_trace::{RunOptions, SharedRunFault, run_shared};
use rh_text::IoLog;
use std::alloc::Allocator;
use std::io::{Read, Write};
use std::sync::Wait;
use std::thread::Threads;

// As many replicators can be asked for as a shared heap may have.
const _: () = prove!(rh_command_line::MAX_REPLICATORS == rh_shared::MAX_REPLICATORS);

/// Plays the trace of commands that the reader gives on a shared heap, and writes the history of
/// the calls. A failed flush is a failed write. It waits for the threads.
pub fn play_shared<T, A, R, O>(
    rt: &T,
    alloc: A,
    reader: &mut R,
    out: &mut O,
    options: RunOptions,
) -> Result<Ending, LineFault>
where
    T: Threads + Wait + Sync,
    A: Allocator + Copy + Send,
    R: Read,
    O: Write,
    ensures told { IfSome (R.remaining reader.old) (λ input. ConcludesShared options input
        (status_after result) (O.contents out.old) (O.contents out.new)) }
    ensures read { (input : List ℕ)
        × Consumes (R.remaining reader.old) (R.remaining reader.new) input
        × ConcludesShared options input (status_after result) (O.contents out.old)
        (O.contents out.new) }
    ensures late { IfErr result (λ fault. IsLateFault fault) }
{
    let mut reads = IoLog::new();
    let mut writes = IoLog::new();
    let ran = run_shared(rt, alloc, reader, &mut reads, out, &mut writes, options);
    let flushed = out.flush();
    conclude(ran, flushed.is_ok())
}

/// What a shared run and the flush after it come to.
fn conclude(ran: Result<(), SharedRunFault>, flushed: bool) -> Result<Ending, LineFault>
    ensures status { IsSharedStatus ran (status_after result) }
    // The status is 0 exactly where the run succeeded and the flush did.
    ensures done { (status_after result ≡ 0) ↔ (IsOk ran × IsTrue flushed) }
    ensures late { IfErr result (λ fault. IsLateFault fault) }
{
    match ran {
        Ok(()) if flushed => Ok(Ending::Done),
        Ok(()) => Err(LineFault::Write),
        Err(fault) => Err(fault_of_shared(fault)),
    }
}

/// The fault that a shared run's is.
fn fault_of_shared(fault: SharedRunFault) -> LineFault
    ensures status { status_of result ≡ shared_status fault }
    ensures late { IsLateFault result }
    // It is told as what it is.
    ensures told { result ≡ shared_told_as fault }
{
    match fault {
        SharedRunFault::Read => LineFault::Read,
        SharedRunFault::Long => LineFault::TooLong,
        SharedRunFault::Trace(fault) => LineFault::Trace(fault),
        SharedRunFault::New(fault) => LineFault::Heap(fault),
        SharedRunFault::Shared(fault) => LineFault::Shared(fault),
        SharedRunFault::HistoryDiffers => LineFault::HistoryDiffers,
        SharedRunFault::Write => LineFault::Write,
        SharedRunFault::OutOfMemory => LineFault::OutOfMemory,
    }
}
