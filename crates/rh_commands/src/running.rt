//! `run`: a trace is run in any way, with its answers printed.

ghost use Rattle.std.specs.Prelude.{◌≡◌, ◌↔◌, List, ℕ, IfSome, IfErr, IsOk, IsTrue};
ghost use Rattle.std.specs.Io.KnownBytes.{Consumes};
ghost use Rattle.rh_trace.specs.Ways.{of_run_fault};
ghost use Rattle.rh_commands.specs.Runs.{ConcludesWay, IsWayStatus, way_told_as};
ghost use Rattle.rh_commands.specs.Fault.{status_after, IsUsualFault};

use crate::ending::Ending;
use crate::fault::LineFault;
use rh_paced_trace::Unpaced;
use rh_text::IoLog;
use rh_trace::{Answers, Player, RunFault, Summary, Way, WayFault};
use std::alloc::Allocator;
use std::io::{Read, Write};

/// Runs the trace that the reader gives in this way, and writes its answers. A failed flush is a
/// failed write.
pub fn run<A, P, Y, R, O>(
    alloc: A,
    way: &Y,
    reader: &mut R,
    out: &mut O,
) -> Result<Ending, LineFault>
where
    A: Allocator + Copy,
    P: Player<A> + Drop,
    Y: Way<A, P, Unpaced>,
    R: Read,
    O: Write,
    ensures told { IfSome (R.remaining reader.old) (λ input. ConcludesWay P.Steps P.total
        (Y.fits way.now) (Y.refuses way.now) input (status_after result) (O.contents out.old)
        (O.contents out.new)) }
    ensures read { (input : List ℕ)
        × Consumes (R.remaining reader.old) (R.remaining reader.new) input
        × ConcludesWay P.Steps P.total (Y.fits way.now) (Y.refuses way.now) input
        (status_after result) (O.contents out.old) (O.contents out.new) }
    ensures late { IfErr result (λ fault. IsUsualFault fault) }
{
    let mut answers = Answers::new(alloc);
    let mut reads = IoLog::new();
    let mut writes = IoLog::new();
    let ran = rh_trace::run(
        alloc,
        reader,
        &mut reads,
        way,
        &mut answers,
        out,
        &mut writes,
    );
    let flushed = out.flush();
    conclude(ran, flushed.is_ok())
}

/// What a run and the flush after it come to.
pub(crate) fn conclude(
    ran: Result<Summary, WayFault<Unpaced>>,
    flushed: bool,
) -> Result<Ending, LineFault>
    ensures status { IsWayStatus ran (status_after result) }
    // The status is 0 exactly where the run succeeded and the flush did.
    ensures done { (status_after result ≡ 0) ↔ (IsOk ran × IsTrue flushed) }
    ensures late { IfErr result (λ fault. IsUsualFault fault) }
{
    match ran {
        Ok(_) if flushed => Ok(Ending::Done),
        Ok(_) => Err(LineFault::Write),
        Err(fault) => Err(fault_of_way(fault)),
    }
}

/// The fault that a run's is.
fn fault_of_way(fault: WayFault<Unpaced>) -> LineFault
    // It is told as what it is.
    ensures told { result ≡ way_told_as fault }
    ensures late { IsUsualFault result }
{
    match fault {
        WayFault::Read => LineFault::Read,
        WayFault::Long => LineFault::TooLong,
        WayFault::Trace(fault) => LineFault::Trace(fault),
        WayFault::New(fault) => LineFault::Heap(fault),
        WayFault::Way(Unpaced::Limits) => LineFault::Limits,
        WayFault::Way(Unpaced::Pace(why)) => LineFault::Pace(why),
        WayFault::Write => LineFault::Write,
        WayFault::OutOfMemory => LineFault::OutOfMemory,
    }
}

/// The fault that is told of a picture's run.
pub(crate) fn fault_of_run(fault: RunFault) -> LineFault
    // It is told as what it is.
    ensures told { result ≡ way_told_as (of_run_fault fault) }
    ensures late { IsUsualFault result }
{
    match fault {
        RunFault::Read => LineFault::Read,
        RunFault::Long => LineFault::TooLong,
        RunFault::Trace(fault) => LineFault::Trace(fault),
        RunFault::New(fault) => LineFault::Heap(fault),
        RunFault::Write => LineFault::Write,
        RunFault::OutOfMemory => LineFault::OutOfMemory,
    }
}
