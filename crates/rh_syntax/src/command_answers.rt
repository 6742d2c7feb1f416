//! The texts of the answers to commands.

ghost use Rattle.std.specs.Prelude.{◌≡◌, ◌≤◌, [], ◌∷◌, ◌++◌, length, false, OnErr, OnOk};
ghost use Rattle.std.specs.Io.KnownBytes.{Appends};
ghost use Rattle.rh_text.specs.IoLog.{AreSpent, CountsDown};
ghost use Rattle.rh_text.specs.Output.{AppendsLess};
ghost use Rattle.rh_syntax.specs.CommandAnswers.{reply_text, refusal_name, refused_text, answer_text};

use rh_layout::limits::MAX_CALLS;
use rh_layout::{Refusal, Reply};
use rh_text::{IoLog, LineText, Write, send};
use std::io;

/// The text becomes that of a reply.
#[inline(always)]
fn put_reply(text: &mut LineText, reply: Reply)
    ensures value { text.new ≡ reply_text reply }
    ensures len { length text.new ≤ 60 }
{
    text.clear();
    match reply {
        Reply::Done => text.put(b"done"),
        Reply::Nil => text.put(b"nil"),
        Reply::Int(n) => {
            text.put(b"int ");
            text.put_whole(n);
        }
        Reply::Object(fields) => {
            text.put(b"object ");
            text.put_number(fields.into());
        }
        Reply::Raw(fields) => {
            text.put(b"raw ");
            text.put_number(fields.into());
        }
        Reply::Same(true) => text.put(b"same yes"),
        Reply::Same(false) => text.put(b"same no"),
    }
}

/// The name of a refusal.
fn name_of(refusal: Refusal) -> &'static [u8]
    ensures name { result.now ≡ refusal_name refusal }
    ensures len { length result.now ≤ 12 }
{
    match refusal {
        Refusal::NoRoot => b"NoRoot",
        Refusal::NotYours => b"NotYours",
        Refusal::NotObject => b"NotObject",
        Refusal::NoField => b"NoField",
        Refusal::RawField => b"RawField",
        Refusal::IntRange => b"IntRange",
        Refusal::FieldsRange => b"FieldsRange",
        Refusal::SpaceFull { .. } => b"SpaceFull",
        Refusal::LogFull => b"LogFull",
        Refusal::NumbersSpent => b"NumbersSpent",
    }
}

/// The text becomes that of a refusal: its name, and what it tells.
fn put_refusal(text: &mut LineText, refusal: Refusal)
    ensures value { text.new ≡ refused_text refusal }
    ensures len { length text.new ≤ 100 }
{
    text.clear();
    text.put(b"refused ");
    text.put(name_of(refusal));
    if let Refusal::SpaceFull { need, free } = refusal {
        text.put_part(b" need ", need);
        text.put_part(b" free ", free);
    }
}

/// The text becomes that of an answer, without a line end.
#[inline(always)]
pub fn put_answer_text(text: &mut LineText, answer: Result<Reply, Refusal>)
    ensures value { text.new ≡ answer_text answer }
    ensures len { length text.new ≤ 100 }
{
    match answer {
        Ok(reply) => put_reply(text, reply),
        Err(refusal) => put_refusal(text, refusal),
    }
}

/// Sends the line of an answer: its text and a line end, in one write. The text that is lent may be
/// used for it.
///
/// # Errors
///
/// As `rh_text::send`.
#[inline(always)]
pub fn send_answer<W: io::Write>(
    answer: Result<Reply, Refusal>,
    text: &mut LineText,
    writer: &mut W,
    writes: &mut IoLog,
) -> Result<(), Write>
    requires { writes.old.failed ≡ false }
    ensures ok { OnOk result (Appends (W.contents writer.old) (W.contents writer.new)
        (answer_text answer ++ 10 ∷ [])) }
    ensures err { OnErr result (AppendsLess (W.contents writer.old) (W.contents writer.new)
        (answer_text answer ++ 10 ∷ [])) }
    ensures failed { OnErr result (AreSpent writes.new) }
    ensures none_failed { OnOk result (writes.new.failed ≡ false) }
    ensures counted { CountsDown MAX_CALLS writes.old writes.new }
{
    match answer {
        Ok(Reply::Done) => send(writer, writes, b"done\n"),
        Ok(Reply::Nil) => send(writer, writes, b"nil\n"),
        Ok(Reply::Same(true)) => send(writer, writes, b"same yes\n"),
        Ok(Reply::Same(false)) => send(writer, writes, b"same no\n"),
        _ => {
            put_answer_text(text, answer);
            text.put(b"\n");
            send(writer, writes, text.as_bytes())
        }
    }
}
