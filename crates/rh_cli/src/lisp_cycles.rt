//! `rheap lisp --cycles`: a program of the small Scheme is run, and a line written for each cycle.

ghost use Rattle.std.specs.Prelude.{◌≡◌, ◌⊎◌, List, ℕ, IfErr, IfOk, IfSome, codes};
ghost use Rattle.std.specs.Io.KnownBytes.{Consumes, Keeps};
ghost use Rattle.rh_commands.specs.Fault.{IsLateStatus};
ghost use Rattle.rh_cli.specs.Lisp.{ConcludesLispCycles};

use crate::keeping::KeptReader;
use crate::lisp::tell_run;
use crate::outputs::outputs_of;
use crate::program::{gathering, is_standard_input, kept_if, opened};
use rh_choices::Limits;
use rh_command_line::Ask;
use rh_commands::{LineFault, tell};
use rh_cycle_events::lines_or_events;
use rh_lisp_run::run_lisp_with_cycles;
use std::alloc::Allocator;
use std::io::{Read, Write};
use std::rt::Files;

/// Runs the program that the reader gives as `drive_lisp` does, and writes a line for each cycle of
/// its heap to `cycles` as it ends (`run_lisp_with_cycles`). Where one isn't written, nothing that
/// the program printed is, and the status is 1, or 3 where memory was refused for it. Answers the
/// writer of cycles and the status.
pub fn drive_lisp_with_cycles<A, R, O, C, E>(
    alloc: A,
    file: &str,
    limits: Limits,
    reader: &mut KeptReader<R, A>,
    out: &mut O,
    cycles: C,
    err: &mut E,
) -> (C, u8)
where
    A: Allocator + Copy,
    R: Read,
    O: Write,
    C: Write + Drop,
    E: Write,
    // For a reader that tells its bytes: by what is due for the bytes that it had.
    ensures told { IfSome (R.remaining reader.old.reader) (λ input.
        ConcludesLispCycles limits input result.1 (O.contents out.old) (O.contents out.new)
        (C.contents cycles) (C.contents result.0)) }
    // Of the bytes that were taken.
    ensures read { (input : List ℕ)
        × Consumes (R.remaining reader.old.reader) (R.remaining reader.new.reader) input
        × ConcludesLispCycles limits input result.1 (O.contents out.old) (O.contents out.new)
        (C.contents cycles) (C.contents result.0) }
    // As of `drive_lisp`.
    ensures quiet { result.1 ≡ 0 → Keeps (E.contents err.old) (E.contents err.new) }
    ensures late { IsLateStatus result.1 }
{
    let (cycles, ran) = run_lisp_with_cycles(alloc, file.as_bytes(), limits, reader, out, cycles);
    (cycles, tell_run(file, ran, reader.kept(), err))
}

/// Runs the program of a file, and writes its cycles. It is shown where it stopped, if that is
/// asked.
pub(crate) fn play_lisp_with_cycles<R, E>(
    rt: &R,
    ask: &Ask<'_>,
    limits: Limits,
    err: &mut E,
    explains: bool,
) -> Result<u8, LineFault>
where
    R: Files + Input + Print + AllocGlobal,
    E: Write,
    ensures late { IfOk result (λ status. IsLateStatus status) }
    ensures refused { IfErr result (λ fault.
        (fault ≡ LineFault.Open) ⊎ (fault ≡ LineFault.OutOfMemory)) }
    ensures input { IfErr result (λ fault. ask.now.file.now ≡ codes "-"
        → fault ≡ LineFault.OutOfMemory) }
{
    if is_standard_input(ask.file) {
        return play_with_outputs(rt, ask, limits, rt.reader(), err, explains);
    }
    let file = opened(rt, ask.file)?;
    play_with_outputs(rt, ask, limits, file, err, explains)
}

/// Runs the program that the reader gives. Nothing is read where the file of its cycles can't be
/// made.
fn play_with_outputs<R, I, E>(
    rt: &R,
    ask: &Ask<'_>,
    limits: Limits,
    reader: I,
    err: &mut E,
    explains: bool,
) -> Result<u8, LineFault>
where
    R: Files + Print + AllocGlobal,
    I: Read + Drop,
    E: Write,
    ensures late { IfOk result (λ status. IsLateStatus status) }
    ensures refused { IfErr result (λ fault. fault ≡ LineFault.OutOfMemory) }
{
    let (out, _, cycles) = match outputs_of(rt, ask.file, &ask.views) {
        Ok(outputs) => outputs,
        Err(fault) => return Ok(tell(&fault, err)),
    };
    let mut reader = kept_if(rt.alloc(), reader, explains);
    let mut out = gathering(rt.alloc(), out)?;
    let (_, status) = drive_lisp_with_cycles(
        rt.alloc(),
        ask.file,
        limits,
        &mut reader,
        &mut out,
        lines_or_events(cycles, ask.views.events),
        err,
    );
    Ok(status)
}
