//! A writer of lines of cycles.

ghost use Rattle.std.specs.Prelude.{◌≡◌, ◌⊎◌, IfErr, OnErr, OnOk, false, is_some};
ghost use Rattle.std.specs.Io.KnownBytes.{Appends, Keeps};
ghost use Rattle.rh_text.specs.Output.{AppendsPrefix};
ghost use Rattle.rh_cycles.specs.Line.{cycle_line, cycles_header};
ghost use Rattle.rh_lisp_run.specs.Cycling.{Writing, ended_lines, written_by};

use crate::fault::LispFault;
use rh_cycles::{Cycle, HEADER, put_cycle};
use rh_text::{IoLog, send};
use std::alloc::Allocator;
use std::io;
use std::marker::Model;

/// Why a line isn't written.
#[derive(Clone, Copy)]
enum Loss {
    /// A write failed.
    Write,
    /// Memory was refused.
    OutOfMemory,
}

/// Writes the names of the columns, and a line for each cycle, until one isn't written. It is seen
/// as what its writer has, and whether a line is lost.
#[derive(Drop)]
pub(crate) struct CycleWriter<A: Allocator, W: io::Write> {
    writer: W,
    /// The line that is written last.
    line: Vec<u8, A>,
    /// Why a line isn't written.
    loss: Option<Loss>,
}

impl<A: Allocator, W: io::Write> Model for CycleWriter<A, W> {
    ghost use Rattle.std.specs.Prelude.{is_some};
    ghost use Rattle.rh_lisp_run.specs.Cycling.{LinesState};

    ghost Value = { LinesState };

    ghost view = { λ w. record { known = W.contents w.writer; lost = is_some w.loss } };
}

impl<A: Allocator + Copy, W: io::Write> CycleWriter<A, W> {
    /// One that has written the names of the columns, if that didn't fail.
    pub(crate) fn new(alloc: A, writer: W) -> CycleWriter<A, W>
        ensures { (writing : Writing) × (result ≡ written_by writing
            (record { known = W.contents writer; lost = false }) cycles_header) }
    {
        let mut writer = writer;
        let line = Vec::new(alloc);
        match write(HEADER, &mut writer) {
            Ok(()) => CycleWriter {
                writer,
                line,
                loss: None,
            },
            Err(loss) => CycleWriter {
                writer,
                line,
                loss: Some(loss),
            },
        }
    }

    /// Writes the line of the cycle that has ended, if one has.
    pub(crate) fn tell(&mut self, ended: Option<Cycle>)
        ensures { (writing : Writing)
            × (self.new ≡ written_by writing self.old (ended_lines ended)) }
    {
        if self.loss.is_some() {
            return;
        }
        let cycle = match ended {
            Some(cycle) => cycle,
            None => return,
        };
        self.line.clear();
        if put_cycle(&mut self.line, &cycle).is_err() {
            self.loss = Some(Loss::OutOfMemory);
            return;
        }
        match write(&self.line, &mut self.writer) {
            Ok(()) => {}
            Err(loss) => self.loss = Some(loss),
        }
    }

    /// The writer, once it is flushed.
    ///
    /// # Errors
    ///
    /// `Write` or `OutOfMemory` for the first line that isn't written, or else `Write` where the
    /// flush failed.
    pub(crate) fn end(self) -> (W, Result<(), LispFault>)
        ensures kept { Keeps self.known (W.contents result.0) }
        ensures whole { OnOk result.1 (self.lost ≡ false) }
        ensures fault { IfErr result.1 (λ fault.
            (fault ≡ LispFault.Write) ⊎ (fault ≡ LispFault.OutOfMemory)) }
    {
        let CycleWriter { writer, loss, .. } = self;
        let mut writer = writer;
        let is_flushed = writer.flush().is_ok();
        (writer, ended(loss, is_flushed))
    }
}

/// Whether all is written, or why it isn't.
fn ended(loss: Option<Loss>, is_flushed: bool) -> Result<(), LispFault>
    ensures whole { OnOk result (is_some loss ≡ false) }
    ensures fault { IfErr result (λ fault.
        (fault ≡ LispFault.Write) ⊎ (fault ≡ LispFault.OutOfMemory)) }
{
    match loss {
        Some(Loss::Write) => Err(LispFault::Write),
        Some(Loss::OutOfMemory) => Err(LispFault::OutOfMemory),
        None if is_flushed => Ok(()),
        None => Err(LispFault::Write),
    }
}

/// Writes a text.
fn write<W: io::Write>(text: &[u8], writer: &mut W) -> Result<(), Loss>
    ensures written { OnOk result (Appends (W.contents writer.old) (W.contents writer.new)
        text.now) }
    ensures less { OnErr result (AppendsPrefix (W.contents writer.old) (W.contents writer.new)
        text.now) }
{
    match send(writer, &mut IoLog::new(), text) {
        Ok(()) => Ok(()),
        Err(_) => Err(Loss::Write),
    }
}
