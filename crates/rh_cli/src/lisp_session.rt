//! `rheap lisp` with no file: a session of the small Scheme, entry by entry.

ghost use Rattle.std.specs.Prelude.{◌≡◌, List, ℕ, Ok, IfErr, IfOk, IfSome};
ghost use Rattle.std.specs.Io.KnownBytes.{Consumes, IsAtEnd};
ghost use Rattle.rh_commands.specs.Fault.{IsLateStatus, IsUsualFault, status_after};
ghost use Rattle.rh_cli.specs.Lisp.{ConcludesLispSession, IsLispSessionStatus};

use crate::lisp::fault_of_lisp;
use crate::lisp_explaining::show_stop;
use crate::program::gathering;
use crate::prompting::{Alone, Prompter};
use rh_choices::Limits;
use rh_commands::{Ending, LineFault, tell_ending};
use rh_lisp_run::{Console, Stop, run_session};
use std::alloc::Allocator;
use std::io::{self, Read, Write};
use std::rt::Files;

impl Console for Alone {
    fn prompt(&mut self) {}

    fn end(&mut self) {}

    fn tell(&mut self, _line: &[u8], _text: &[u8], _stop: Stop) {}
}

impl<R: Files, E: Write> Console for Prompter<'_, R, E> {
    fn prompt(&mut self) {
        self.show(b"> ");
    }

    fn end(&mut self) {
        self.show(b"\n");
    }

    fn tell(&mut self, line: &[u8], text: &[u8], stop: Stop) {
        // What can't be told is left out, as a fault's line is.
        let _ = self.err.write_all(line);
        if self.explains {
            show_stop(text, stop, self.err);
        }
        let _ = self.err.flush();
    }
}

/// Plays the entries that the reader gives, and writes what each prints.
pub(crate) fn play_entries<A: Allocator + Copy, R: Read, O: Write, C: Console>(
    alloc: A,
    reader: &mut R,
    out: &mut O,
    limits: Limits,
    console: &mut C,
) -> Result<Ending, LineFault>
    ensures told { IfSome (R.remaining reader.old) (λ input. ConcludesLispSession limits
        (status_after result) (O.contents out.old) (O.contents out.new)) }
    ensures read { (input : List ℕ)
        × Consumes (R.remaining reader.old) (R.remaining reader.new) input
        × ConcludesLispSession limits (status_after result) (O.contents out.old)
        (O.contents out.new) }
    // Where the session came to its end, all was read.
    ensures ended { status_after result ≡ 0 → IsAtEnd (R.remaining reader.new) }
    ensures late { IfErr result (λ fault. IsUsualFault fault) }
{
    match run_session(alloc, limits, reader, out, console) {
        Ok(begun) => ending_of(begun),
        Err(fault) => Err(fault_of_lisp(fault)),
    }
}

/// How the program ends after a session. That its language had no room was told.
fn ending_of(begun: bool) -> Result<Ending, LineFault>
    ensures status { IsLispSessionStatus (Ok begun) (status_after result) }
    ensures late { IfErr result (λ fault. IsUsualFault fault) }
{
    if begun {
        return Ok(Ending::Done);
    }
    Err(LineFault::Stopped)
}

/// Plays the entries that are typed. A prompt is shown, and where an entry stopped, if that is
/// asked.
pub(crate) fn hold_entries<R, E>(
    rt: &R,
    limits: Limits,
    err: &mut E,
    prompts: bool,
    explains: bool,
) -> Result<u8, LineFault>
where
    R: Files + Input + Print + AllocGlobal,
    E: Write,
    ensures late { IfOk result (λ status. IsLateStatus status) }
    ensures refused { IfErr result (λ fault. fault ≡ LineFault.OutOfMemory) }
{
    let mut out = gathering(rt.alloc(), io::writer(rt))?;
    let mut reader = rt.reader();
    let mut console = Prompter {
        rt,
        err,
        prompts,
        explains,
    };
    let played = play_entries(rt.alloc(), &mut reader, &mut out, limits, &mut console);
    Ok(tell_ending(played, console.err))
}
