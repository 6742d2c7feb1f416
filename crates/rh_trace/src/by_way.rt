//! `run`: a trace is read, a way makes its heap, and a listener hears its lines.

ghost use Rattle.std.specs.Prelude.{◌≡◌, ◌≤◌, ◌⊎◌, List, ℕ, length, false, IfOk, IsErrOf, IfSome};
ghost use Rattle.std.specs.Io.KnownBytes.{Consumes};
ghost use Rattle.rh_text.specs.IoLog.{AreSpent, AreSpentSince, CountsDown, MadeSince};
ghost use Rattle.rh_syntax.specs.Spelling.{IsScript};
ghost use Rattle.rh_trace.specs.Ways.{Ends, IsPlainlyCut, IsPlainlyStopped, IsPlainlyTold, KeepsAll, TraceEnds, of_run_fault, of_unprepared};

use crate::lines::run_lines;
use crate::listener::Listener;
use crate::player::Player;
use crate::reading::{read_trace, trace_of_bytes};
use crate::run_fault::RunFault;
use crate::stop::Stop;
use crate::summary::Summary;
use crate::way::Way;
use crate::way_fault::{Unprepared, WayFault};
use rh_layout::limits::MAX_INPUT_BYTES;
use rh_syntax::Trace;
use rh_text::IoLog;
use std::alloc::Allocator;
use std::io;

/// A fault of reading, as one of a run by a way.
fn of_run_fault<F>(fault: RunFault) -> WayFault<F>
    ensures { result ≡ of_run_fault fault }
{
    match fault {
        RunFault::Read => WayFault::Read,
        RunFault::Long => WayFault::Long,
        RunFault::Trace(fault) => WayFault::Trace(fault),
        RunFault::New(fault) => WayFault::New(fault),
        RunFault::Write => WayFault::Write,
        RunFault::OutOfMemory => WayFault::OutOfMemory,
    }
}

/// Why nothing was made for a trace, as a fault of its run.
fn of_unprepared<F>(why: Unprepared<F>) -> WayFault<F>
    ensures { result ≡ of_unprepared why }
{
    match why {
        Unprepared::Trace(fault) => WayFault::Trace(fault),
        Unprepared::New(fault) => WayFault::New(fault),
        Unprepared::Way(fault) => WayFault::Way(fault),
        Unprepared::OutOfMemory => WayFault::OutOfMemory,
    }
}

/// Runs a trace that was read.
fn run_script<
    A: Allocator + Copy,
    P: Player<A> + Drop,
    F,
    Y: Way<A, P, F>,
    L: Listener<A, P, O>,
    O,
>(
    alloc: A,
    trace: &Trace<A>,
    way: &Y,
    listener: &mut L,
    out: &mut O,
    writes: &mut IoLog,
) -> Result<Summary, WayFault<F>>
    requires fits { IsScript trace.now }
    requires none_failed { writes.old.failed ≡ false }
    ensures ends { TraceEnds P.Steps P.total L.next L.show L.closing L.lead L.opening L.begun
        (Y.fits way.now) (Y.refuses way.now) L.NeedsMemory (L.state listener.old) trace.now result
        (L.contents out.old) (L.contents out.new) }
    ensures never_read { ¬ IsErrOf result WayFault.Read }
    ensures failed { IsErrOf result WayFault.Write → AreSpent writes.new }
    ensures none_failed { ¬ IsErrOf result WayFault.Write → writes.new.failed ≡ false }
    ensures spent { IsErrOf result WayFault.Write → AreSpentSince writes.old writes.new }
    ensures counted { MadeSince 0 writes.old writes.new }
{
    let mut player = match way.prepare(alloc, trace) {
        Ok(player) => player,
        Err(why) => return Err(of_unprepared(why)),
    };
    let header = trace.header();
    match run_lines(
        alloc,
        &mut player,
        header,
        trace.requests(),
        listener,
        out,
        writes,
    ) {
        Ok(summary) => Ok(summary),
        Err(Stop::Write) => Err(WayFault::Write),
        Err(Stop::OutOfMemory) => Err(WayFault::OutOfMemory),
    }
}

/// Runs the trace that these bytes spell, as `run` does of what it reads. Nothing is read, so it is
/// never answered that a read failed.
///
/// # Errors
///
/// As `run`, but `Read`.
pub fn run_bytes<
    A: Allocator + Copy,
    P: Player<A> + Drop,
    F,
    Y: Way<A, P, F>,
    L: Listener<A, P, O>,
    O,
>(
    alloc: A,
    input: &[u8],
    way: &Y,
    listener: &mut L,
    out: &mut O,
    writes: &mut IoLog,
) -> Result<Summary, WayFault<F>>
    requires no_write_failed { writes.old.failed ≡ false }
    ensures told { Ends P.Steps P.total L.next L.show L.closing L.lead L.opening L.begun
        (Y.fits way.now) (Y.refuses way.now) L.NeedsMemory (L.state listener.old) input.now result
        (L.contents out.old) (L.contents out.new) }
    ensures never_read { ¬ IsErrOf result WayFault.Read }
    // As of `run`.
    ensures write_failed { IsErrOf result WayFault.Write → AreSpent writes.new }
    ensures no_write_failed { ¬ IsErrOf result WayFault.Write → writes.new.failed ≡ false }
    ensures writes_spent { IsErrOf result WayFault.Write → AreSpentSince writes.old writes.new }
    // The count of writes goes on from where it was.
    ensures writes_counted { MadeSince 0 writes.old writes.new }
{
    match trace_of_bytes(alloc, input) {
        Ok(trace) => run_script(alloc, &trace, way, listener, out, writes),
        Err(fault) => Err(of_run_fault(fault)),
    }
}

/// Reads a trace whole, runs its lines in order on what the way makes for it, and hands each and its
/// answer to the listener, which writes of them. Nothing is written before the whole trace was read
/// and its heap made. The answers to commands and the dumps are those of a heap that never moves its
/// objects, but for refusals by a limit. A trace has at most 16,777,216 bytes, and must end within
/// 33,554,432 reads. `reads` and `writes` tell whether a read and whether a write failed, and how
/// many were made.
///
/// # Errors
///
/// Of the faults of an input the first is answered: `Long`, then `Trace`, and then those that the way
/// finds, in its order: its `refuses` says which.
/// `Read` comes where, before more than 16,777,216 bytes came, a read failed or was one too many,
/// `Write` where a write failed or 33,554,432 writes of one text didn't come to its end,
/// `OutOfMemory` where the allocator refused memory; what may be written then, `WayFault` says.
pub fn run<
    A: Allocator + Copy,
    R: io::Read,
    P: Player<A> + Drop,
    F,
    Y: Way<A, P, F>,
    L: Listener<A, P, O>,
    O,
>(
    alloc: A,
    reader: &mut R,
    reads: &mut IoLog,
    way: &Y,
    listener: &mut L,
    out: &mut O,
    writes: &mut IoLog,
) -> Result<Summary, WayFault<F>>
    requires no_read_failed { reads.old.failed ≡ false }
    requires no_write_failed { writes.old.failed ≡ false }
    // For a reader that tells its bytes: how a run of the bytes that it had ends.
    ensures told { IfSome (R.remaining reader.old) (λ input. Ends P.Steps P.total L.next L.show
        L.closing L.lead L.opening L.begun (Y.fits way.now) (Y.refuses way.now) L.NeedsMemory
        (L.state listener.old) input result (L.contents out.old) (L.contents out.new)) }
    // How a run of the bytes that were taken ends; which these are is known of a reader that tells
    // its bytes.
    ensures read { (input : List ℕ)
        × Consumes (R.remaining reader.old) (R.remaining reader.new) input
        × Ends P.Steps P.total L.next L.show L.closing L.lead L.opening L.begun (Y.fits way.now)
        (Y.refuses way.now) L.NeedsMemory (L.state listener.old) input result
        (L.contents out.old) (L.contents out.new) }
    // Read is answered only before too many bytes were taken: else it is Long.
    ensures few_read { IsErrOf result WayFault.Read → (input : List ℕ)
        × Consumes (R.remaining reader.old) (R.remaining reader.new) input
        × (length input ≤ MAX_INPUT_BYTES) }
    // Said of the plain heap alone, where the run succeeded: which trace was read, and which
    // answers the listener was handed.
    ensures plain { IfOk result (λ summary. IsPlainlyTold P.Steps P.total L.next L.show L.closing
        L.lead L.opening L.begun (Y.fits way.now) (L.state listener.old) summary
        (R.remaining reader.old) (R.remaining reader.new) (L.contents out.old)
        (L.contents out.new)) }
    // The same where a write failed: a prefix of the texts of such answers was written.
    ensures plain_prefix { IsErrOf result WayFault.Write → IsPlainlyCut P.Steps P.total L.next
        L.show L.closing L.lead L.opening L.begun (Y.fits way.now) (L.state listener.old)
        (R.remaining reader.old) (R.remaining reader.new) (L.contents out.old)
        (L.contents out.new) }
    // The same where memory was refused, unless nothing was written: then nothing is said of the
    // trace, which may not have been read.
    ensures plain_memory { IsErrOf result WayFault.OutOfMemory
        → KeepsAll (L.contents out.old) (L.contents out.new)
        ⊎ IsPlainlyStopped P.Steps P.total L.next L.show L.closing L.lead L.opening L.begun
        (Y.fits way.now) (L.state listener.old) (R.remaining reader.old) (R.remaining reader.new)
        (L.contents out.old) (L.contents out.new) }
    // Read is answered only where a read failed or none was left, and no read failed where it
    // isn't.
    ensures read_failed { IsErrOf result WayFault.Read → AreSpent reads.new }
    ensures no_read_failed { ¬ IsErrOf result WayFault.Read → reads.new.failed ≡ false }
    // Each read that was made took one of those that were left.
    ensures reads_counted { CountsDown reads.old.left reads.old reads.new }
    // Write is answered only where a write failed or none was left, and no write failed where it
    // isn't.
    ensures write_failed { IsErrOf result WayFault.Write → AreSpent writes.new }
    ensures no_write_failed { ¬ IsErrOf result WayFault.Write → writes.new.failed ≡ false }
    // Where it is refused and no write failed, at least 33,554,432 were made in this call, unless
    // the count of calls is full. That each text has its own is `send`'s to say.
    ensures writes_spent { IsErrOf result WayFault.Write → AreSpentSince writes.old writes.new }
    // The count of writes goes on from where it was.
    ensures writes_counted { MadeSince 0 writes.old writes.new }
{
    // The law from which the clauses on the plain heap follow.
    Y::answers_as_the_plain_heap();
    match read_trace(alloc, reader, reads) {
        Ok(trace) => run_script(alloc, &trace, way, listener, out, writes),
        Err(fault) => Err(of_run_fault(fault)),
    }
}
