//! A history, written once it is found to be legal and of the trace.

ghost use Rattle.std.specs.Prelude.{◌≡◌, false, IsErrOf};
ghost use Rattle.rh_text.specs.IoLog.{AreSpent, AreSpentSince};
ghost use Rattle.rh_shared_trace.specs.Run.{EndsWriting};

use crate::fault::SharedRunFault;
use crate::matching::are_of_trace;
use crate::options::HISTORY;
use rh_replay::{History, Verdict, check, write_history_logged};
use rh_syntax::Trace;
use rh_text::{IoLog, Write};
use std::alloc::Allocator;
use std::io;

/// Writes the text of a history, where it is legal and of the trace, and else nothing. It answers
/// `HistoryDiffers` only where it isn't.
pub fn write_checked<A: Allocator + Copy, W: io::Write>(
    alloc: A,
    trace: &Trace<A>,
    history: &History<A>,
    writer: &mut W,
    writes: &mut IoLog,
) -> Result<(), SharedRunFault>
    requires { writes.old.failed ≡ false }
    ensures ends { EndsWriting trace.now history.now.contents result
        (W.contents writer.old) (W.contents writer.new) }
    ensures failed { IsErrOf result SharedRunFault.Write → AreSpent writes.new }
    ensures none_failed { ¬ IsErrOf result SharedRunFault.Write → writes.new.failed ≡ false }
    ensures spent { IsErrOf result SharedRunFault.Write → AreSpentSince writes.old writes.new }
{
    let header = trace.header();
    if history.owners() != header.owners || history.slots() != header.slots {
        return Err(SharedRunFault::HistoryDiffers);
    }
    let calls = history.calls();
    if calls.len() > HISTORY as usize {
        return Err(SharedRunFault::HistoryDiffers);
    }
    let is_full = calls.len() == HISTORY as usize;
    if !are_of_trace(is_full, trace, calls) {
        return Err(SharedRunFault::HistoryDiffers);
    }
    match check(alloc, history) {
        Ok(Verdict::Legal(_)) => {}
        Ok(Verdict::Wrong { .. }) => return Err(SharedRunFault::HistoryDiffers),
        Err(_out_of_memory) => return Err(SharedRunFault::OutOfMemory),
    }
    match write_history_logged(history, writer, writes) {
        Ok(()) => Ok(()),
        Err(Write) => Err(SharedRunFault::Write),
    }
}
