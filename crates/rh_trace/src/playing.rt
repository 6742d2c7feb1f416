//! One request of a trace, played on the engine of traces.

ghost use Rattle.std.specs.Prelude.{◌≡◌, ◌<◌, ◌≤◌, ◌+◌, ◌^◌, false, IsErrOf, OnOk};
ghost use Rattle.rh_text.specs.IoLog.{AreSpent, AreSpentSince, MadeSince};
ghost use Rattle.rh_trace.specs.Answers.{answered_text};
ghost use Rattle.rh_trace.specs.Run.{request_step, summary_with, Writes};

use crate::answer::answer_request;
use crate::answers::write_answered;
use crate::lines::count;
use crate::stop::Stop;
use crate::summary::Summary;
use rh_engine::Engine;
use rh_syntax::Request;
use rh_text::{IoLog, LineText};
use std::alloc::Allocator;
use std::io;

/// Runs a request, counts it where it is a command or a flip that was done, and writes what is
/// answered: one line in each write that the writer takes whole. The text is used for that line.
///
/// # Errors
///
/// `Write` where a write failed, or 33,554,432 writes of one line, or of a part of a dump's, didn't
/// come to its end: the request was done then. `OutOfMemory` where the allocator refused memory, at
/// a deal, a join, a resize, room for tickets, a `gone` or a dump. A prefix of the answer may be
/// written then, and not all.
pub fn play_request<A: Allocator + Copy, W: io::Write>(
    alloc: A,
    engine: &mut Engine<A>,
    request: &Request,
    text: &mut LineText,
    summary: &mut Summary,
    writer: &mut W,
    writes: &mut IoLog,
) -> Result<(), Stop>
    requires none_failed { writes.old.failed ≡ false }
    requires few_commands { summary.old.commands < 2 ^ 63 }
    requires few_refused { summary.old.refused < 2 ^ 63 }
    requires few_flips { summary.old.flips < 2 ^ 63 }
    requires few_root_words { summary.old.root_words < 2 ^ 127 }
    ensures state { OnOk result (engine.new ≡ (request_step engine.old request.now).0) }
    // Where a write failed the request was done.
    ensures stopped { IsErrOf result Stop.Write
        → engine.new ≡ (request_step engine.old request.now).0 }
    ensures summary { OnOk result (summary.new
        ≡ summary_with summary.old (request_step engine.old request.now).1) }
    ensures few_roots { summary.new.root_words ≤ summary.old.root_words + 2 ^ 32 }
    ensures written { Writes (answered_text (request_step engine.old request.now).1) result
        (W.contents writer.old) (W.contents writer.new) }
    ensures failed { IsErrOf result Stop.Write → AreSpent writes.new }
    ensures none_failed { ¬ IsErrOf result Stop.Write → writes.new.failed ≡ false }
    ensures spent { IsErrOf result Stop.Write → AreSpentSince writes.old writes.new }
    ensures counted { MadeSince 0 writes.old writes.new }
{
    let answer = answer_request(alloc, engine, request)?;
    count(summary, &answer);
    write_answered(
        alloc,
        engine.heap(),
        engine.trays(),
        &answer,
        text,
        writer,
        writes,
    )
}
