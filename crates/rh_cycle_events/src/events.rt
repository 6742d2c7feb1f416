//! A writer that turns the lines of cycles into trace events as they come.

ghost use Rattle.std.specs.Prelude.{◌≡◌, ◌&&◌, ◌||◌, not, false, true, length, [], None, IfOk, OnOk, OnErr, if◌then◌else◌};
ghost use Rattle.std.specs.Io.{WritesAtMost};
ghost use Rattle.std.specs.Io.KnownBytes.{Appends, Keeps, WriteAppends};
ghost use Rattle.rh_text.specs.Output.{AppendsLess};
ghost use Rattle.either.specs.declared.Either.TheVariants as sides;
ghost use Rattle.either.specs.Either.{MatchEither};
ghost use Rattle.rh_cycle_events.specs.Events.{byte_events, byte_heard, events_in, events_of, heard_after, line_events, nothing_heard, told_by};
ghost use Rattle.rh_cycle_events.specs.Texts.{closing_text};

use crate::heard::Heard;
use crate::line::Column;
use crate::spelling::{
    CLOSING, OPENING, put_end, put_logged, put_outcome, put_slice, put_units, put_used,
};
use either::{Either, Left, Right};
use rh_text::{IoLog, LineText, send};
use std::io::{self, ErrorKind, Write};

/// The writer itself where no events are asked for, so that nothing stands between it and the lines
/// of cycles. Else a writer of events in place of the lines, which writes them to that.
pub fn lines_or_events<W>(out: W, are_events: bool) -> Either<W, CycleEvents<W>>
    ensures lines { are_events ≡ false → result ≡ sides.Left out }
    ensures events { are_events ≡ true → MatchEither result (λ _. false ≡ true)
        (λ events. (events.out ≡ out) × (events.heard ≡ nothing_heard)
        × (events.is_ended ≡ false)) }
{
    if are_events {
        return Right(CycleEvents::new(out));
    }
    Left(out)
}

/// A writer of the lines of cycles, which writes the events of the trace event format in their place:
/// a slice for each cycle, and counters of used words, the log and units. Time is counted in words
/// that were allocated, a word a microsecond. A flush ends the array of the events, once. What is
/// written after it stands behind that end, so flush after all lines.
#[derive(Drop)]
pub struct CycleEvents<W> {
    out: W,
    heard: Heard,
    /// Whether the array is ended.
    is_ended: bool,
}

impl<W> CycleEvents<W> {
    /// A writer of events to this one, which was given no line yet.
    fn new(out: W) -> CycleEvents<W>
        ensures out { result.out ≡ out }
        ensures heard { result.heard ≡ nothing_heard }
        ensures ended { result.is_ended ≡ false }
    {
        CycleEvents {
            out,
            heard: Heard::new(),
            is_ended: false,
        }
    }
}

impl<W: Write> CycleEvents<W> {
    /// Takes a byte of the lines.
    fn take(&mut self, byte: u8) -> io::Result<()>
        ensures events { OnOk result (Appends (W.contents self.old.out) (W.contents self.new.out)
            (byte_events self.old.heard byte)) }
        ensures heard { OnOk result (self.new.heard ≡ byte_heard self.old.heard byte) }
        ensures ended { self.new.is_ended ≡ self.old.is_ended }
    {
        if byte != b'\n' {
            self.heard.line.take(byte);
            return Ok(());
        }
        write_line(&mut self.out, &self.heard)?;
        self.heard.end_line();
        Ok(())
    }
}

/// Writes what is told of a line that came to its end: nothing but the begin of the array where it has
/// the names of the columns.
fn write_line<W: Write>(out: &mut W, heard: &Heard) -> io::Result<()>
    ensures { OnOk result (Appends (W.contents out.old) (W.contents out.new)
        (line_events heard.now)) }
{
    if !heard.begun {
        return put_all(out, OPENING);
    }
    write_events(out, heard)
}

/// Writes the events of a cycle whose line came.
fn write_events<W: Write>(out: &mut W, heard: &Heard) -> io::Result<()>
    ensures { OnOk result (Appends (W.contents out.old) (W.contents out.new)
        (events_of heard.now.freed (told_by heard.now.line))) }
{
    let line = &heard.line;
    let (begins, ends) = (heard.begins(), heard.ends());
    let mut text = LineText::new();
    put_slice(&mut text, line, begins, ends.saturating_sub(begins));
    put_all(out, text.as_bytes())?;
    put_end(&mut text, line);
    put_all(out, text.as_bytes())?;
    put_outcome(&mut text, line);
    put_all(out, text.as_bytes())?;
    put_used(&mut text, begins, line.number(Column::Used));
    put_all(out, text.as_bytes())?;
    put_used(&mut text, ends, line.number(Column::Live));
    put_all(out, text.as_bytes())?;
    put_logged(&mut text, line, ends);
    put_all(out, text.as_bytes())?;
    put_units(&mut text, line, ends);
    put_all(out, text.as_bytes())
}

/// Writes all of a text, or a prefix of it where a write fails.
fn put_all<W: Write>(out: &mut W, text: &[u8]) -> io::Result<()>
    ensures ok { OnOk result (Appends (W.contents out.old) (W.contents out.new) text.now) }
    ensures err { OnErr result
        (AppendsLess (W.contents out.old) (W.contents out.new) text.now) }
{
    match send(out, &mut IoLog::new(), text) {
        Ok(()) => Ok(()),
        Err(_) => Err(io::Error::from(ErrorKind::Other)),
    }
}

impl<W: Write> Write for CycleEvents<W> {
    fn write(&mut self, buf: &[u8]) -> io::Result<usize>
        ensures bound { WritesAtMost result buf.now }
        ensures bytes { WriteAppends None None result buf.now }
        // All bytes are taken, and the events of the lines that came to their end are written.
        ensures whole { IfOk result (λ n. n ≡ length buf.now) }
        ensures events { OnOk result (Appends (W.contents self.old.out) (W.contents self.new.out)
            (events_in self.old.heard buf.now)) }
        ensures heard { OnOk result (self.new.heard ≡ heard_after self.old.heard buf.now) }
        ensures ended { self.new.is_ended ≡ self.old.is_ended }
    {
        for byte in buf {
            self.take(*byte)?;
        }
        Ok(buf.len())
    }

    fn flush(&mut self) -> io::Result<()>
        ensures bytes { Keeps None None }
        // The array is ended once, if it was begun.
        ensures events { OnOk result (Appends (W.contents self.old.out) (W.contents self.new.out)
            (if self.old.heard.begun && not self.old.is_ended then closing_text else [])) }
        // It counts as ended where its end couldn't be written, too.
        ensures ended { self.new.is_ended ≡ (self.old.heard.begun || self.old.is_ended) }
        ensures heard { self.new.heard ≡ self.old.heard }
    {
        if self.heard.begun && !self.is_ended {
            self.is_ended = true;
            put_all(&mut self.out, CLOSING)?;
        }
        self.out.flush()
    }
}
