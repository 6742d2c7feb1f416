//! A history written as its text, and the report on it.

ghost use Rattle.std.specs.Prelude.{◌≡◌, false, OnOk, OnErr};
ghost use Rattle.std.specs.Io.KnownBytes.{Appends};
ghost use Rattle.rh_text.specs.IoLog.{AreSpent, AreSpentSince, MadeSince};
ghost use Rattle.rh_text.specs.Output.{AppendsLess};
ghost use Rattle.rh_replay.specs.Report.{count_of, owner_line, verdict_line, report_text};
ghost use Rattle.rh_replay.specs.Spelling.{header_line, call_line, end_line, spelling};

use crate::call::Call;
use crate::checking::Verdict;
use crate::history::History;
use rh_layout::{Refusal, Reply};
use rh_syntax::{put_answer_text, put_command_text};
use rh_text::{IoLog, LineText, Write, send};
use std::alloc::Allocator;
use std::io;

/// The text becomes the first line.
fn put_header(text: &mut LineText, owners: u32, slots: u32)
    ensures { text.new ≡ header_line owners slots }
{
    text.clear();
    text.put(b"history");
    text.put_next_number(owners);
    text.put_next_number(slots);
    text.put(b"\n");
}

/// The text becomes the line of a call.
fn put_call(text: &mut LineText, call: &Call)
    ensures { text.new ≡ call_line call.now }
{
    let mut answer = LineText::new();
    put_answer_text(&mut answer, call.answer);
    put_command_text(text, call.owner, &call.command);
    text.put(b" = ");
    text.put(answer.as_bytes());
    text.put(b"\n");
}

/// The text becomes the last line.
fn put_end(text: &mut LineText, count: u32)
    ensures { text.new ≡ end_line count }
{
    text.clear();
    text.put(b"end");
    text.put_next_number(count);
    text.put(b"\n");
}

/// Writes the text of a history, one line in each write that the writer takes whole. It takes no
/// memory.
///
/// # Errors
///
/// `Write` where a write failed, or 33,554,432 writes of one line didn't come to its end
/// (`write_history_logged` says that it comes nowhere else). A prefix of the text was written then.
pub fn write_history<A: Allocator, W: io::Write>(
    history: &History<A>,
    writer: &mut W,
) -> Result<(), Write>
    ensures ok { OnOk result (Appends (W.contents writer.old) (W.contents writer.new)
        (spelling history.now.contents)) }
    ensures err { OnErr result (AppendsLess (W.contents writer.old) (W.contents writer.new)
        (spelling history.now.contents)) }
{
    write_history_logged(history, writer, &mut IoLog::new())
}

/// Writes the text of a history as `write_history` does, and tells in `writes` whether a write
/// failed, and how many were made.
///
/// # Errors
///
/// As `write_history`.
pub fn write_history_logged<A: Allocator, W: io::Write>(
    history: &History<A>,
    writer: &mut W,
    writes: &mut IoLog,
) -> Result<(), Write>
    requires { writes.old.failed ≡ false }
    ensures ok { OnOk result (Appends (W.contents writer.old) (W.contents writer.new)
        (spelling history.now.contents)) }
    ensures err { OnErr result (AppendsLess (W.contents writer.old) (W.contents writer.new)
        (spelling history.now.contents)) }
    // It is refused only where a write failed or none was left, and no write failed where it isn't.
    ensures failed { OnErr result (AreSpent writes.new) }
    ensures none_failed { OnOk result (writes.new.failed ≡ false) }
    // Where it is refused and no write failed, at least 33,554,432 were made in this call, unless
    // the count of calls is full. That each text has its own is `send`'s to say.
    ensures spent { OnErr result (AreSpentSince writes.old writes.new) }
    // No call that was counted is forgotten.
    ensures counted { MadeSince 0 writes.old writes.new }
{
    let mut text = LineText::new();
    put_header(&mut text, history.owners(), history.slots());
    send(writer, writes, text.as_bytes())?;
    let calls = history.calls();
    for call in calls {
        put_call(&mut text, call);
        send(writer, writes, text.as_bytes())?;
    }
    put_end(&mut text, calls.len() as u32);
    send(writer, writes, text.as_bytes())?;
    Ok(())
}

/// How many of the calls are the owner's.
fn count_of(calls: &[Call], owner: u32) -> usize
    ensures { result ≡ count_of calls.now owner }
{
    calls.iter().filter(|call| call.owner == owner).count()
}

/// The text becomes the line of an owner with so many calls, and empty where there is none.
fn put_owner(text: &mut LineText, owner: u32, count: u64)
    ensures { text.new ≡ owner_line owner count }
{
    text.clear();
    if count != 0 {
        text.put_part(b"owner ", owner);
        text.put_part(b" calls ", count);
        text.put(b"\n");
    }
}

/// The text becomes the line of a first wrong call.
fn put_wrong(text: &mut LineText, at: u32, expected: Result<Reply, Refusal>)
    ensures { text.new ≡ verdict_line (Verdict.Wrong at expected) }
{
    let mut answer = LineText::new();
    put_answer_text(&mut answer, expected);
    text.clear();
    text.put_part(b"wrong ", at);
    text.put(b" expected ");
    text.put(answer.as_bytes());
    text.put(b"\n");
}

/// The text becomes the line of a verdict.
fn put_verdict(text: &mut LineText, verdict: &Verdict)
    ensures { text.new ≡ verdict_line verdict.now }
{
    match *verdict {
        Verdict::Legal(count) => {
            text.clear();
            text.put_part(b"legal ", count);
            text.put(b"\n");
        }
        Verdict::Wrong { at, expected } => put_wrong(text, at, expected),
    }
}

/// Writes the report on a history that has this verdict: a line for each owner that has calls, in
/// order, and the line of the verdict, one line in each write that the writer takes whole. Calls of
/// owners that the history hasn't got have no line. It takes no memory.
///
/// # Errors
///
/// `Write` where a write failed, or 33,554,432 writes of one line didn't come to its end
/// (`report_logged` says that it comes nowhere else). A prefix of the report was written then.
pub fn report<A: Allocator, W: io::Write>(
    history: &History<A>,
    verdict: &Verdict,
    writer: &mut W,
) -> Result<(), Write>
    ensures ok { OnOk result (Appends (W.contents writer.old) (W.contents writer.new)
        (report_text history.now.contents verdict.now)) }
    ensures err { OnErr result (AppendsLess (W.contents writer.old) (W.contents writer.new)
        (report_text history.now.contents verdict.now)) }
{
    report_logged(history, verdict, writer, &mut IoLog::new())
}

/// Writes the report as `report` does, and tells in `writes` whether a write failed, and how many
/// were made.
///
/// # Errors
///
/// As `report`.
pub fn report_logged<A: Allocator, W: io::Write>(
    history: &History<A>,
    verdict: &Verdict,
    writer: &mut W,
    writes: &mut IoLog,
) -> Result<(), Write>
    requires { writes.old.failed ≡ false }
    ensures ok { OnOk result (Appends (W.contents writer.old) (W.contents writer.new)
        (report_text history.now.contents verdict.now)) }
    ensures err { OnErr result (AppendsLess (W.contents writer.old) (W.contents writer.new)
        (report_text history.now.contents verdict.now)) }
    // It is refused only where a write failed or none was left, and no write failed where it isn't.
    ensures failed { OnErr result (AreSpent writes.new) }
    ensures none_failed { OnOk result (writes.new.failed ≡ false) }
    // Where it is refused and no write failed, at least 33,554,432 were made in this call, unless
    // the count of calls is full. That each text has its own is `send`'s to say.
    ensures spent { OnErr result (AreSpentSince writes.old writes.new) }
{
    let mut text = LineText::new();
    let owners = history.owners();
    let calls = history.calls();
    for owner in 0..owners {
        put_owner(&mut text, owner, count_of(calls, owner) as u64);
        send(writer, writes, text.as_bytes())?;
    }
    put_verdict(&mut text, verdict);
    send(writer, writes, text.as_bytes())?;
    Ok(())
}
