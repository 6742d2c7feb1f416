//! Does what was asked under `--echo`, `--json`, `--history` or `--cycles`: runs a trace, checks a
//! history or counts a dump.

ghost use Rattle.std.specs.Prelude.{◌≡◌, ◌≢◌, ◌⊎◌, List, ℕ, false, IfSome, IfErr, IsOk};
ghost use Rattle.std.specs.Io.KnownBytes.{Consumes, IsAtEnd, Keeps};
ghost use Rattle.rh_commands.specs.Fault.{status_of, status_after, IsLateFault, IsLateStatus};
ghost use Rattle.rh_text.specs.IoLog.{CountsDown};
ghost use Rattle.rh_commands.specs.ViewLog.{FlushedSince};
ghost use Rattle.rh_trace_views.specs.Listening.{views_contents, written_of};
ghost use Rattle.rh_cli.specs.Views.{ConcludesViewed, reads_given, viewed_texts};
ghost use Rattle.rh_command_line.specs.declared.ask.Subcommand.TheVariants.{LispSession, Replay};
ghost use Rattle.rh_choices.specs.declared.limits.Limits.{Limits as LimitsOf};

use crate::driving::act;
use crate::keeping::KeptReader;
use rh_choices::Telling;
use rh_command_line::{Ask, Subcommand};
use rh_commands::laws::runs::a_viewed_run_concludes_as_its_input_says;
use rh_commands::{
    Ending, LineFault, ViewLog, explain, tell_as, view_count, view_report, view_run,
};
use rh_cycles::{CycleReader, Cycles};
use rh_dump::limits::MAX_DUMP_READS;
use rh_paced_trace::{Growing, Paced};
use rh_text::IoLog;
use rh_trace::Fixed;
use rh_trace_views::Writers;
use std::alloc::Allocator;
use std::io::{Read, Write};
use std::sync::Wait;
use std::thread::Threads;

/// The log of reads for what is asked, of which none was made yet. A dump may take more of them than
/// a trace or a history.
pub fn reads_for(subcommand: Subcommand) -> IoLog
    ensures given { result ≡ reads_given subcommand }
    ensures none_failed { result.failed ≡ false }
{
    match subcommand {
        Subcommand::Dump => IoLog::limited(MAX_DUMP_READS),
        _ => IoLog::new(),
    }
}

/// Does what is asked as `drive` does, and views it: what is told goes to the first writer. Of a run
/// the history of its commands goes to the second, and a line for each cycle to the third; all three
/// are flushed at the end. The line of a fault is an object of JSON where that is asked. Where
/// `explains` is set the lines of `drive_explained` follow it.
///
/// The log tells whether a read, a write or a flush failed, and how many flushes were made. As many
/// reads are made at most as it has left; `reads_for` says how many what is asked may take. What has
/// no views leaves the log as it was.
pub fn drive_viewed<T, A, R, O, H, C, E>(
    rt: &T,
    alloc: A,
    ask: &Ask<'_>,
    reader: &mut KeptReader<R, A>,
    log: &mut ViewLog,
    out: &mut Writers<O, H, C>,
    err: &mut E,
    explains: bool,
) -> u8
where
    T: Threads + Wait + Sync,
    A: Allocator + Copy + Send,
    R: Read,
    O: Write,
    H: Write,
    C: Write,
    E: Write,
    requires no_read_failed { log.old.reads.failed ≡ false }
    requires no_write_failed { log.old.writes.failed ≡ false }
    // For a reader that tells its bytes: by what is due for the bytes that it had, and by the calls
    // of the log.
    ensures told { IfSome (R.remaining reader.old.reader) (λ input.
        ConcludesViewed ask.now.views.telling ask.now.subcommand input result log.new (written_of
        (views_contents O.contents H.contents C.contents out.old)
        (views_contents O.contents H.contents C.contents out.new))) }
    // Of the bytes that were taken.
    ensures read { (input : List ℕ)
        × Consumes (R.remaining reader.old.reader) (R.remaining reader.new.reader) input
        × ConcludesViewed ask.now.views.telling ask.now.subcommand input result log.new (written_of
        (views_contents O.contents H.contents C.contents out.old)
        (views_contents O.contents H.contents C.contents out.new)) }
    // Where it is done, and where a history that was read is wrong, nothing is told of a fault.
    ensures quiet { (result ≡ 0) ⊎ ((result ≡ 4) × (ask.now.subcommand ≡ Replay))
        → Keeps (E.contents err.old) (E.contents err.new) }
    // As of `drive`.
    ensures ended { (limits : LimitsOf) → ask.now.subcommand ≡ LispSession limits → result ≡ 0
        → IsAtEnd (R.remaining reader.new.reader) }
    ensures late { IsLateStatus result }
    // Each read that was made took one of those that were left.
    ensures reads_counted { CountsDown log.old.reads.left log.old.reads log.new.reads }
    // Where it is done, and where a history that was read is wrong, each text was flushed.
    ensures flushed { (result ≡ 0) ⊎ ((result ≡ 4) × (ask.now.subcommand ≡ Replay))
        → FlushedSince (viewed_texts ask.now.subcommand) log.old log.new }
{
    let telling = ask.views.telling;
    match act_viewed(rt, alloc, ask.subcommand, telling, reader, log, out) {
        Ok(ending) => ending.status(),
        Err(fault) => {
            let status = tell_as(alloc, telling, &fault, err);
            if explains {
                if let Some(text) = reader.kept() {
                    explain(ask.subcommand, &fault, text, err);
                }
            }
            status
        }
    }
}

/// Does what a subcommand asks, viewed. What has no views is done as it is without.
fn act_viewed<T, A, R, O, H, C>(
    rt: &T,
    alloc: A,
    subcommand: Subcommand,
    telling: Telling,
    reader: &mut R,
    log: &mut ViewLog,
    out: &mut Writers<O, H, C>,
) -> Result<Ending, LineFault>
where
    T: Threads + Wait + Sync,
    A: Allocator + Copy + Send,
    R: Read,
    O: Write,
    H: Write,
    C: Write,
    requires no_read_failed { log.old.reads.failed ≡ false }
    requires no_write_failed { log.old.writes.failed ≡ false }
    ensures told { IfSome (R.remaining reader.old) (λ input.
        ConcludesViewed telling subcommand input (status_after result) log.new (written_of
        (views_contents O.contents H.contents C.contents out.old)
        (views_contents O.contents H.contents C.contents out.new))) }
    ensures read { (input : List ℕ)
        × Consumes (R.remaining reader.old) (R.remaining reader.new) input
        × ConcludesViewed telling subcommand input (status_after result) log.new (written_of
        (views_contents O.contents H.contents C.contents out.old)
        (views_contents O.contents H.contents C.contents out.new)) }
    ensures ended { (limits : LimitsOf) → subcommand ≡ LispSession limits
        → status_after result ≡ 0 → IsAtEnd (R.remaining reader.new) }
    ensures late { IfErr result (λ fault. IsLateFault fault) }
    ensures reads_counted { CountsDown log.old.reads.left log.old.reads log.new.reads }
    ensures flushed { IsOk result → FlushedSince (viewed_texts subcommand) log.old log.new }
    ensures check { subcommand ≡ Replay → IfErr result (λ fault. status_of fault ≢ 4) }
{
    // The law from which the clauses on viewed runs follow.
    a_viewed_run_concludes_as_its_input_says();
    match subcommand {
        Subcommand::Run => view_run::<A, _, CycleReader, _, R, O, H, C>(
            alloc, &Fixed, reader, log, telling, out,
        ),
        Subcommand::RunPaced { mark } => {
            let way = Paced { mark };
            view_run::<A, _, Cycles, _, R, O, H, C>(alloc, &way, reader, log, telling, out)
        }
        Subcommand::RunGrowing { at_most } => {
            let way = Growing { at_most };
            view_run::<A, _, Cycles, _, R, O, H, C>(alloc, &way, reader, log, telling, out)
        }
        Subcommand::Replay => view_report(alloc, reader, log, telling, &mut out.first),
        Subcommand::Dump => view_count(alloc, reader, log, telling, &mut out.first),
        _ => act(rt, alloc, subcommand, reader, &mut out.first),
    }
}
