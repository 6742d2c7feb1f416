//! A log of reads or writes, by which contracts say whether one failed or came to the end.

ghost use Rattle.std.specs.IoError.{error_kind};
ghost use Rattle.std.specs.Prelude.{◌≡◌, ◌↔◌, ◌+◌, ◌<◌, length, IsTrue, true, false, Ok};
ghost use Rattle.std.specs.Io.{ReadsAtMost, WritesAtMost};
ghost use Rattle.std.specs.Io.KnownBytes.{ReadConsumes, WriteAppends};
ghost use Rattle.rh_text.specs.IoLog.{IoLogState, no_calls, one_more, IsFailedRead, IsFailedWrite, ComesToEnd};

use rh_layout::limits::MAX_CALLS;
use std::io;
use std::io::ErrorKind;
use std::marker::Model;

/// The call was interrupted, and may be made again.
pub fn is_interrupted(error: &io::Error) -> bool
    ensures { IsTrue result ↔ (error_kind error.now ≡ ErrorKind.Interrupted) }
{
    error.kind() == ErrorKind::Interrupted
}

/// A log of the calls of one reader or of one writer: whether a call failed, whether a read came to
/// the end, how many were made, and how many may still be made. Only a call writes the first three,
/// and after a failed call none is made; a new text to be sent renews how many are left.
#[derive(Drop)]
pub struct IoLog {
    failed: bool,
    ended: bool,
    made: u64,
    left: u32,
}

impl Model for IoLog {
    ghost use Rattle.rh_text.specs.IoLog.{IoLogState};

    ghost Value = { IoLogState };

    ghost view = { λ c. record {
      failed = c.failed;
      ended = c.ended;
      made = c.made;
      left = c.left;
    } };
}

impl IoLog {
    /// The log of a reader or a writer before its first call: 33,554,432 calls may be made.
    pub fn new() -> IoLog
        ensures { result ≡ no_calls }
    {
        IoLog {
            failed: false,
            ended: false,
            made: 0,
            left: MAX_CALLS,
        }
    }

    /// The log of a reader before its first call: so many calls may be made.
    pub fn limited(limit: u32) -> IoLog
        ensures { result ≡ record no_calls { left = limit } }
    {
        IoLog {
            failed: false,
            ended: false,
            made: 0,
            left: limit,
        }
    }

    /// Whether a call failed.
    pub fn has_failed(&self) -> bool
        ensures { result ≡ self.now.failed }
    {
        self.failed
    }

    /// How many calls were made, counted up to 2^64 - 1.
    pub fn made(&self) -> u64
        ensures { result ≡ self.now.made }
    {
        self.made
    }

    /// How many calls may still be made.
    pub fn left(&self) -> u32
        ensures { result ≡ self.now.left }
    {
        self.left
    }

    /// As many calls may be made as before the first.
    pub(crate) fn renew(&mut self)
        ensures { self.new ≡ record self.old { left = MAX_CALLS } }
    {
        self.left = MAX_CALLS;
    }

    /// One read, whose answer it hands on. It fails where it answers an error and was not
    /// interrupted, and comes to the end where it gives no byte of some that were asked. A read
    /// that asks for none is not made: it answers that it gave none, and all stays as it was.
    pub fn read<R: io::Read>(&mut self, reader: &mut R, buf: &mut [u8]) -> io::Result<usize>
        requires none_failed { self.old.failed ≡ false }
        requires some_left { 0 < self.old.left }
        ensures bound { ReadsAtMost result buf.new }
        ensures bytes { ReadConsumes (R.remaining reader.old) (R.remaining reader.new) result
            buf.new }
        ensures not_made { length buf.old ≡ 0
            → (result ≡ Ok 0) × (self.new ≡ self.old) × (reader.new ≡ reader.old) }
        ensures failed { IsTrue self.new.failed ↔ IsFailedRead result }
        ensures ended { ComesToEnd result buf.new → self.new.ended ≡ true }
        ensures not_ended { ¬ ComesToEnd result buf.new → self.new.ended ≡ self.old.ended }
        ensures made { 0 < length buf.old → self.new.made ≡ one_more self.old.made }
        ensures left { 0 < length buf.old → self.new.left + 1 ≡ self.old.left }
    {
        if buf.is_empty() {
            return Ok(0);
        }
        let result = reader.read(buf);
        self.failed = is_failed_read(&result);
        self.ended = has_ended(self.ended, &result, buf);
        self.made = self.made.saturating_add(1);
        self.left -= 1;
        result
    }

    /// One write, whose answer it hands on. It fails where it answers an error and was not
    /// interrupted, or takes no byte of some. A write of none is not made: it answers that it took
    /// none, and all stays as it was.
    #[inline(always)]
    pub fn write<W: io::Write>(&mut self, writer: &mut W, buf: &[u8]) -> io::Result<usize>
        requires none_failed { self.old.failed ≡ false }
        requires some_left { 0 < self.old.left }
        ensures bound { WritesAtMost result buf.now }
        ensures bytes { WriteAppends (W.contents writer.old) (W.contents writer.new) result
            buf.now }
        ensures not_made { length buf.now ≡ 0
            → (result ≡ Ok 0) × (self.new ≡ self.old) × (writer.new ≡ writer.old) }
        ensures failed { IsTrue self.new.failed ↔ IsFailedWrite result buf.now }
        ensures ended { self.new.ended ≡ self.old.ended }
        ensures made { 0 < length buf.now → self.new.made ≡ one_more self.old.made }
        ensures left { 0 < length buf.now → self.new.left + 1 ≡ self.old.left }
    {
        if buf.is_empty() {
            return Ok(0);
        }
        let result = writer.write(buf);
        self.failed = is_failed_write(&result, buf);
        self.made = self.made.saturating_add(1);
        self.left -= 1;
        result
    }
}

/// Whether a read that answers so failed.
fn is_failed_read(answer: &io::Result<usize>) -> bool
    ensures { IsTrue result ↔ IsFailedRead answer.now }
{
    match answer {
        Ok(_) => false,
        Err(error) => !is_interrupted(error),
    }
}

/// Whether a read came to the end, before or with this answer of a read into this room.
fn has_ended(before: bool, answer: &io::Result<usize>, room: &[u8]) -> bool
    ensures met { ComesToEnd answer.now room.now → result ≡ true }
    ensures not_met { ¬ ComesToEnd answer.now room.now → result ≡ before }
{
    match answer {
        Ok(given) => before || (*given == 0 && !room.is_empty()),
        Err(_) => before,
    }
}

/// Whether a write of these bytes that answers so failed.
#[inline(always)]
fn is_failed_write(answer: &io::Result<usize>, bytes: &[u8]) -> bool
    ensures { IsTrue result ↔ IsFailedWrite answer.now bytes.now }
{
    match answer {
        Ok(taken) => *taken == 0 && !bytes.is_empty(),
        Err(error) => !is_interrupted(error),
    }
}
