//! `run` with `--echo`, `--json`, `--history` or `--cycles`, in any way.

ghost use Rattle.std.specs.Prelude.{◌≡◌, List, ℕ, false, IfSome, IfErr};
ghost use Rattle.std.specs.Io.KnownBytes.{Consumes};
ghost use Rattle.rh_text.specs.IoLog.{CountsDown};
ghost use Rattle.rh_trace_views.specs.Listening.{views_contents};
ghost use Rattle.rh_commands.specs.Fault.{status_after, IsUsualFault};
ghost use Rattle.rh_commands.specs.Runs.{ConcludesViewedWay};
ghost use Rattle.rh_commands.specs.ViewLog.{FlushedSince};

use crate::ending::Ending;
use crate::fault::LineFault;
use crate::running::conclude;
use crate::view_log::ViewLog;
use rh_paced_trace::Unpaced;
use rh_trace::{Player, Way};
use rh_trace_views::{CycleReading, Telling, Writers, views};
use std::alloc::Allocator;
use std::io::{Read, Write};

/// Runs the trace that the reader gives in this way, and writes what is told of its lines, the
/// history of its commands, and the lines of its cycles, which `Q` reads. A failed flush is a failed
/// write.
pub fn view_run<A, P, Q, Y, R, O, H, C>(
    alloc: A,
    way: &Y,
    reader: &mut R,
    log: &mut ViewLog,
    telling: Telling,
    out: &mut Writers<O, H, C>,
) -> Result<Ending, LineFault>
where
    A: Allocator + Copy,
    P: Player<A> + Drop,
    Q: CycleReading<P> + Drop,
    Y: Way<A, P, Unpaced>,
    R: Read,
    O: Write,
    H: Write,
    C: Write,
    requires no_read_failed { log.old.reads.failed ≡ false }
    requires no_write_failed { log.old.writes.failed ≡ false }
    ensures told { IfSome (R.remaining reader.old) (λ input. ConcludesViewedWay P.Steps P.total
        Q.first Q.read (Y.fits way.now) (Y.refuses way.now) telling input (status_after result)
        log.new (views_contents O.contents H.contents C.contents out.old)
        (views_contents O.contents H.contents C.contents out.new)) }
    ensures read { (input : List ℕ)
        × Consumes (R.remaining reader.old) (R.remaining reader.new) input
        × ConcludesViewedWay P.Steps P.total Q.first Q.read (Y.fits way.now) (Y.refuses way.now)
        telling input (status_after result) log.new
        (views_contents O.contents H.contents C.contents out.old)
        (views_contents O.contents H.contents C.contents out.new) }
    ensures late { IfErr result (λ fault. IsUsualFault fault) }
    ensures reads_counted { CountsDown log.old.reads.left log.old.reads log.new.reads }
    ensures flushed { FlushedSince 3 log.old log.new }
{
    let mut seen = views::<Q, A>(alloc, telling);
    let ran = rh_trace::run(
        alloc,
        reader,
        &mut log.reads,
        way,
        &mut seen,
        out,
        &mut log.writes,
    );
    log.flush_all(out);
    conclude(ran, !log.has_flush_failed())
}
