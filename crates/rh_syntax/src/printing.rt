//! A trace written as its text.

ghost use Rattle.std.specs.Prelude.{◌≡◌, ◌≤◌, [], ◌∷◌, ◌++◌, length, false, OnOk, OnErr};
ghost use Rattle.std.specs.Io.KnownBytes.{Appends};
ghost use Rattle.rh_text.specs.IoLog.{AreSpent, AreSpentSince};
ghost use Rattle.rh_text.specs.Output.{AppendsLess};
ghost use Rattle.rh_syntax.specs.Spelling.{request_text, spell_request, spelling};

use crate::lines::commands::put_command_text;
use crate::lines::header::put_header;
use crate::lines::keywords::{put_alone, put_deal, put_give, put_join, put_shade, put_with_number};
use crate::lines::watching::put_watch;
use crate::request::Request;
use crate::trace::Trace;
use rh_text::{IoLog, LineText, Write, send};
use std::alloc::Allocator;
use std::io;

/// The text becomes that of a request's line, without its line end.
pub fn put_request_text(text: &mut LineText, request: &Request)
    ensures value { text.new ≡ request_text request.now }
    ensures len { length text.new ≤ 100 }
    // The line is this text and its line end.
    ensures line { spell_request request.now ≡ text.new ++ 10 ∷ [] }
{
    match *request {
        Request::Command { owner, ref command } => put_command_text(text, owner, command),
        Request::Begin => put_alone(text, b"begin"),
        Request::Shade { root } => put_shade(text, root),
        Request::Deal { kind, most, tray } => put_deal(text, kind, most, tray),
        Request::Give { tray } => put_give(text, tray),
        Request::Join { into, other } => put_join(text, into, other),
        Request::Flip => put_alone(text, b"flip"),
        Request::Recall => put_alone(text, b"recall"),
        Request::Abandon => put_alone(text, b"abandon"),
        Request::Idle { words } => put_with_number(text, b"idle", words),
        Request::Resize { words } => put_with_number(text, b"resize", words),
        Request::Tickets { tickets } => put_with_number(text, b"tickets", tickets),
        Request::Watch { owner, root } => put_watch(text, owner, root),
        Request::Unwatch { ticket } => put_with_number(text, b"unwatch", ticket),
        Request::Gone => put_alone(text, b"gone"),
        Request::Trays => put_alone(text, b"trays"),
        Request::Stat => put_alone(text, b"stat"),
        Request::Dump => put_alone(text, b"dump"),
    }
}

/// The text becomes that of a request's line.
fn put_request(text: &mut LineText, request: &Request)
    ensures { text.new ≡ spell_request request.now }
{
    put_request_text(text, request);
    text.put(b"\n");
}

/// Writes the text of a trace, one line in each write that the writer takes whole. It takes no
/// memory.
///
/// # Errors
///
/// `Write` where a write failed, or 33,554,432 writes of one line didn't come to its end
/// (`print_logged` says that it comes nowhere else). A prefix of the text was written then.
pub fn print<A: Allocator, W: io::Write>(trace: &Trace<A>, writer: &mut W) -> Result<(), Write>
    ensures ok { OnOk result (Appends (W.contents writer.old) (W.contents writer.new)
        (spelling trace.now)) }
    ensures err { OnErr result (AppendsLess (W.contents writer.old) (W.contents writer.new)
        (spelling trace.now)) }
{
    print_logged(trace, writer, &mut IoLog::new())
}

/// Writes the text of a trace as `print` does, and tells in `writes` whether a write failed, and
/// how many were made.
///
/// # Errors
///
/// As `print`.
pub fn print_logged<A: Allocator, W: io::Write>(
    trace: &Trace<A>,
    writer: &mut W,
    writes: &mut IoLog,
) -> Result<(), Write>
    requires { writes.old.failed ≡ false }
    ensures ok { OnOk result (Appends (W.contents writer.old) (W.contents writer.new)
        (spelling trace.now)) }
    ensures err { OnErr result (AppendsLess (W.contents writer.old) (W.contents writer.new)
        (spelling trace.now)) }
    // It is refused only where a write failed or none was left, and no write failed where it isn't.
    ensures failed { OnErr result (AreSpent writes.new) }
    ensures none_failed { OnOk result (writes.new.failed ≡ false) }
    // Where it is refused and no write failed, at least 33,554,432 were made in this call, unless
    // the count of calls is full. That each text has its own is `send`'s to say.
    ensures spent { OnErr result (AreSpentSince writes.old writes.new) }
{
    let mut text = LineText::new();
    put_header(&mut text, trace.header());
    send(writer, writes, text.as_bytes())?;
    let requests = trace.requests();
    for request in requests {
        put_request(&mut text, request);
        send(writer, writes, text.as_bytes())?;
    }
    Ok(())
}
