//! Sends a whole text to a writer.

ghost use Rattle.std.specs.Prelude.{◌≡◌, false, OnOk, OnErr};
ghost use Rattle.std.specs.Io.KnownBytes.{Appends};
ghost use Rattle.rh_text.specs.IoLog.{AreSpent, CountsDown};
ghost use Rattle.rh_text.specs.Output.{AppendsLess};

use crate::io_log::{IoLog, is_interrupted};
use rh_layout::limits::MAX_CALLS;
use std::io;
use thiserror::Error;

/// A write failed: the writer answered an error or took no byte, or 33,554,432 writes of one text,
/// those that were interrupted among them, didn't come to its end.
#[derive(Clone, Copy, Debug, PartialEq, Eq, Error)]
#[error("write failed")]
pub struct Write;

/// Writes all of a text, from where the write before stopped. A write that was interrupted is made
/// again.
///
/// # Errors
///
/// `Write` where a write failed, or 33,554,432 of them were made and some of the text is left. A
/// prefix of the text was written then.
#[inline(always)]
pub fn send<W: io::Write>(writer: &mut W, writes: &mut IoLog, text: &[u8]) -> Result<(), Write>
    requires { writes.old.failed ≡ false }
    ensures ok { OnOk result (Appends (W.contents writer.old) (W.contents writer.new) text.now) }
    ensures err { OnErr result
        (AppendsLess (W.contents writer.old) (W.contents writer.new) text.now) }
    // It is refused only where a write failed or none was left, and no write failed where it isn't.
    ensures failed { OnErr result (AreSpent writes.new) }
    ensures none_failed { OnOk result (writes.new.failed ≡ false) }
    // Each write that was made took one of the 33,554,432 of this text.
    ensures counted { CountsDown MAX_CALLS writes.old writes.new }
{
    writes.renew();
    if text.is_empty() {
        return Ok(());
    }
    match writes.write(writer, text) {
        Ok(n) if n == text.len() => Ok(()),
        Ok(0) => Err(Write),
        Ok(n) => send_rest(writer, writes, text.split_at(n).1),
        Err(error) => {
            if !is_interrupted(&error) {
                return Err(Write);
            }
            send_rest(writer, writes, text)
        }
    }
}

/// Writes all that is left of a text by the writes that are left. It stands apart, so that the one
/// write of most texts is inlined.
#[cold]
#[inline(never)]
fn send_rest<W: io::Write>(writer: &mut W, writes: &mut IoLog, text: &[u8]) -> Result<(), Write>
    requires { writes.old.failed ≡ false }
    ensures ok { OnOk result (Appends (W.contents writer.old) (W.contents writer.new) text.now) }
    ensures err { OnErr result
        (AppendsLess (W.contents writer.old) (W.contents writer.new) text.now) }
    ensures failed { OnErr result (AreSpent writes.new) }
    ensures none_failed { OnOk result (writes.new.failed ≡ false) }
    ensures counted { CountsDown writes.old.left writes.old writes.new }
{
    let mut rest = text;
    while !rest.is_empty() {
        if writes.left() == 0 {
            return Err(Write);
        }
        match writes.write(writer, rest) {
            Ok(0) => return Err(Write),
            Ok(n) => rest = rest.split_at(n).1,
            Err(error) => {
                if !is_interrupted(&error) {
                    return Err(Write);
                }
            }
        }
    }
    Ok(())
}
