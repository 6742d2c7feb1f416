//! `replay`: a history is checked, and the report is printed.

ghost use Rattle.std.specs.Prelude.{◌≡◌, ◌≤◌, ◌↔◌, List, ℕ, length, IfSome, IfErr, IsTrue};
ghost use Rattle.std.specs.Io.KnownBytes.{Consumes};
ghost use Rattle.rh_commands.specs.Fault.{status_after, IsUsualFault};
ghost use Rattle.rh_commands.specs.Replay.{ConcludesReplay, IsReplayStatus, ReplayEnds, TellsLegal, TellsWrong};

use crate::ending::Ending;
use crate::fault::LineFault;
use rh_layout::limits::MAX_INPUT_BYTES;
use rh_replay::{HistoryError, Verdict, check, read_history, report};
use rh_text::{InputFault, IoLog, read_all};
use std::alloc::Allocator;
use std::io::{Read, Write};

/// Checks the history that the reader gives, and writes the report on it. A failed flush is a
/// failed write.
pub fn replay<A: Allocator + Copy, R: Read, O: Write>(
    alloc: A,
    reader: &mut R,
    out: &mut O,
) -> Result<Ending, LineFault>
    ensures told { IfSome (R.remaining reader.old) (λ input. ConcludesReplay input
        (status_after result) (O.contents out.old) (O.contents out.new)) }
    ensures read { (input : List ℕ)
        × Consumes (R.remaining reader.old) (R.remaining reader.new) input
        × ConcludesReplay input (status_after result) (O.contents out.old) (O.contents out.new) }
    ensures late { IfErr result (λ fault. IsUsualFault fault) }
{
    match read_all(alloc, reader, &mut IoLog::new()) {
        Ok(input) => replay_input(alloc, &input, out),
        Err(InputFault::Read) => Err(LineFault::Read),
        Err(InputFault::Long) => Err(LineFault::TooLong),
        Err(InputFault::OutOfMemory) => Err(LineFault::OutOfMemory),
    }
}

/// Checks the history that these bytes spell, writes the report on it, and flushes it.
fn replay_input<A: Allocator + Copy, O: Write>(
    alloc: A,
    input: &[u8],
    out: &mut O,
) -> Result<Ending, LineFault>
    requires { length input.now ≤ MAX_INPUT_BYTES }
    ensures concluded { ConcludesReplay input.now (status_after result) (O.contents out.old)
        (O.contents out.new) }
    ensures late { IfErr result (λ fault. IsUsualFault fault) }
{
    let reported = report_on(alloc, input, out);
    let flushed = out.flush();
    conclude(reported, flushed.is_ok())
}

/// Checks the history that these bytes spell, and writes the report on it. Gives the verdict.
#[tactic(auto, using(crate::proofs::Inputs::keeps_itself))]
fn report_on<A: Allocator + Copy, O: Write>(
    alloc: A,
    input: &[u8],
    out: &mut O,
) -> Result<Verdict, LineFault>
    requires { length input.now ≤ MAX_INPUT_BYTES }
    ensures ends { ReplayEnds input.now result (O.contents out.old) (O.contents out.new) }
    ensures late { IfErr result (λ fault. IsUsualFault fault) }
{
    let history = match read_history(alloc, input) {
        Ok(history) => history,
        Err(HistoryError::Fault(fault)) => return Err(LineFault::History(fault)),
        Err(HistoryError::OutOfMemory) => return Err(LineFault::OutOfMemory),
    };
    let Ok(verdict) = check(alloc, &history) else {
        return Err(LineFault::OutOfMemory);
    };
    match report(&history, &verdict, out) {
        Ok(()) => Ok(verdict),
        Err(_) => Err(LineFault::Write),
    }
}

/// What a report and the flush after it come to.
#[tactic(auto, using(crate::proofs::Statuses::failed_flush, crate::proofs::Statuses::late_is_not_0, crate::proofs::Statuses::late_is_not_4,))]
pub(crate) fn conclude(
    reported: Result<Verdict, LineFault>,
    flushed: bool,
) -> Result<Ending, LineFault>
    requires { IfErr reported (λ fault. IsUsualFault fault) }
    ensures status { IsReplayStatus reported (status_after result) }
    // The status is 0 exactly where the history is legal, and 4 exactly where it is wrong, with the
    // report written and flushed.
    ensures legal { (status_after result ≡ 0) ↔ (TellsLegal reported × IsTrue flushed) }
    ensures wrong { (status_after result ≡ 4) ↔ (TellsWrong reported × IsTrue flushed) }
    ensures late { IfErr result (λ fault. IsUsualFault fault) }
{
    match reported {
        Ok(_) if !flushed => Err(LineFault::Write),
        Ok(Verdict::Legal(_)) => Ok(Ending::Done),
        Ok(Verdict::Wrong { .. }) => Ok(Ending::WrongHistory),
        Err(fault) => Err(fault),
    }
}
