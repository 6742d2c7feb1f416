//! The calls of a writer that is flushed, and whether one failed.

ghost use Rattle.std.specs.Prelude.{◌≡◌, false, true, IsErrOf, OnErr};
ghost use Rattle.std.specs.Io.KnownBytes.{Keeps};
ghost use Rattle.rh_shell.specs.OutputLog.{no_output};

use rh_text::IoLog;
use rh_trace::Stop;
use std::io;
use std::marker::Model;

/// A log of the calls of a writer: of its writes, and whether its last flush failed.
#[derive(Drop)]
pub struct OutputLog {
    /// The log of the writes.
    pub(crate) writes: IoLog,
    /// Whether the last flush failed.
    flush_failed: bool,
}

impl Model for OutputLog {
    ghost use Rattle.rh_shell.specs.OutputLog.{OutputLogState};

    ghost Value = { OutputLogState };

    ghost view = { λ l. record { writes = l.writes; flush_failed = l.flush_failed } };
}

impl OutputLog {
    /// The log of a writer before its first call.
    pub fn new() -> OutputLog
        ensures { result ≡ no_output }
    {
        OutputLog {
            writes: IoLog::new(),
            flush_failed: false,
        }
    }

    /// Whether the last flush failed.
    pub fn has_flush_failed(&self) -> bool
        ensures { result ≡ self.now.flush_failed }
    {
        self.flush_failed
    }

    /// Hands on what was written, by one flush. A flush that was interrupted has failed, as any
    /// other that answers an error.
    pub(crate) fn flush<W: io::Write>(&mut self, writer: &mut W) -> Result<(), Stop>
        ensures kept { Keeps (W.contents writer.old) (W.contents writer.new) }
        ensures writes { self.new.writes ≡ self.old.writes }
        ensures failed { OnErr result (self.new.flush_failed ≡ true) }
        ensures fine { ¬ IsErrOf result Stop.Write → self.new.flush_failed ≡ false }
    {
        match writer.flush() {
            Ok(()) => {
                self.flush_failed = false;
                Ok(())
            }
            Err(_) => {
                self.flush_failed = true;
                Err(Stop::Write)
            }
        }
    }
}
