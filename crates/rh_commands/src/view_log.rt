//! The log of what is viewed: whether a read, a write or a flush failed, and how many were flushed.

ghost use Rattle.std.specs.Prelude.{◌≡◌, true, OnErr, OnOk};
ghost use Rattle.std.specs.Io.KnownBytes.{Keeps};
ghost use Rattle.rh_text.specs.IoLog.{one_more};
ghost use Rattle.rh_trace.specs.Ways.{KeepsAll};
ghost use Rattle.rh_trace_views.specs.Listening.{views_contents};
ghost use Rattle.rh_commands.specs.ViewLog.{new_log};

use rh_text::IoLog;
use rh_trace_views::Writers;
use std::io::{self, Write};
use std::marker::Model;

/// A log of the calls of what is viewed: of its reads, of its writes to all writers, whether a flush
/// failed, and how many were made.
#[derive(Drop)]
pub struct ViewLog {
    /// The log of the reads.
    pub(crate) reads: IoLog,
    /// The log of the writes.
    pub(crate) writes: IoLog,
    /// Whether a flush failed.
    flush_failed: bool,
    /// How many flushes were made, counted up to 2^64 - 1.
    flushes: u64,
}

impl Model for ViewLog {
    ghost use Rattle.rh_commands.specs.ViewLog.{ViewLogState};

    ghost Value = { ViewLogState };

    ghost view = { λ l. record {
      reads = l.reads;
      writes = l.writes;
      flush_failed = l.flush_failed;
      flushes = l.flushes;
    } };
}

impl ViewLog {
    /// The log of what reads by this one, before the first write and the first flush.
    pub fn new(reads: IoLog) -> ViewLog
        ensures { result ≡ new_log reads }
    {
        ViewLog {
            reads,
            writes: IoLog::new(),
            flush_failed: false,
            flushes: 0,
        }
    }

    /// Whether a flush failed.
    pub fn has_flush_failed(&self) -> bool
        ensures { result ≡ self.now.flush_failed }
    {
        self.flush_failed
    }

    /// How many flushes were made, counted up to 2^64 - 1.
    pub fn flushes(&self) -> u64
        ensures { result ≡ self.now.flushes }
    {
        self.flushes
    }

    /// One flush, whose answer it hands on. It fails where it answers an error, also where it was
    /// interrupted.
    pub(crate) fn flush<W: Write>(&mut self, writer: &mut W) -> io::Result<()>
        ensures kept { Keeps (W.contents writer.old) (W.contents writer.new) }
        ensures reads { self.new.reads ≡ self.old.reads }
        ensures writes { self.new.writes ≡ self.old.writes }
        ensures failed { OnErr result (self.new.flush_failed ≡ true) }
        ensures fine { OnOk result (self.new.flush_failed ≡ self.old.flush_failed) }
        ensures flushes { self.new.flushes ≡ one_more self.old.flushes }
    {
        self.flushes = self.flushes.saturating_add(1);
        let flushed = writer.flush();
        if flushed.is_err() {
            self.flush_failed = true;
        }
        flushed
    }

    /// Flushes the writers of views, each of them whether another fails or not.
    pub(crate) fn flush_all<O: Write, H: Write, C: Write>(&mut self, out: &mut Writers<O, H, C>)
        ensures kept { KeepsAll (views_contents O.contents H.contents C.contents out.old)
            (views_contents O.contents H.contents C.contents out.new) }
        ensures reads { self.new.reads ≡ self.old.reads }
        ensures writes { self.new.writes ≡ self.old.writes }
        // Once a flush failed, that stays known.
        ensures failed { self.old.flush_failed ≡ true → self.new.flush_failed ≡ true }
        ensures flushes { self.new.flushes ≡ one_more (one_more (one_more self.old.flushes)) }
    {
        let _ = self.flush(&mut out.first);
        let _ = self.flush(&mut out.second.first);
        let _ = self.flush(&mut out.second.second);
    }
}
