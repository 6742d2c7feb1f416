//! `rheap lisp`: a program of the small Scheme is run.

ghost use Rattle.std.specs.Prelude.{◌≡◌, ◌⊎◌, List, ℕ, Ok, IfErr, IfOk, IfSome, codes};
ghost use Rattle.std.specs.Io.KnownBytes.{Consumes, Keeps};
ghost use Rattle.rh_commands.specs.Fault.{status_of, status_after, IsLateStatus, IsUsualFault};
ghost use Rattle.rh_cli.specs.Lisp.{ConcludesLisp, IsLispStatus, lisp_status, lisp_told_as, outcome_in};

use crate::keeping::KeptReader;
use crate::lisp_explaining::show_kept;
use crate::program::{gathering, is_standard_input, kept_if, opened};
use rh_choices::Limits;
use rh_commands::{Ending, LineFault, tell};
use rh_lisp_run::{Ended, Fault, LispFault, Outcome, Ran, Source, Stop, run_lisp};
use std::alloc::Allocator;
use std::io::{self, Read, Write};
use std::rt::Files;

/// Runs the program that the reader gives, and writes what it prints to `out`. Where the program
/// has a fault or stops, the line that says where goes to `err`, with `file` as the text's name. If
/// the reader keeps the text, its form there comes after it, and a sentence that says what may
/// stand there. Answers the status that the program ends with: 0 where it finished, 3 where memory
/// was refused, and else 1.
pub fn drive_lisp<A: Allocator + Copy, R: Read, O: Write, E: Write>(
    alloc: A,
    file: &str,
    limits: Limits,
    reader: &mut KeptReader<R, A>,
    out: &mut O,
    err: &mut E,
) -> u8
    ensures told { IfSome (R.remaining reader.old.reader) (λ input.
        ConcludesLisp limits.steps input result (O.contents out.old) (O.contents out.new)) }
    ensures read { (input : List ℕ)
        × Consumes (R.remaining reader.old.reader) (R.remaining reader.new.reader) input
        × ConcludesLisp limits.steps input result (O.contents out.old) (O.contents out.new) }
    // Where the program finished, nothing is told of a fault.
    ensures quiet { result ≡ 0 → Keeps (E.contents err.old) (E.contents err.new) }
    ensures late { IsLateStatus result }
{
    let ran = run_lisp(alloc, file.as_bytes(), limits, reader, out);
    tell_run(file, ran, reader.kept(), err)
}

/// Tells how a run ended, unless its program finished, and answers the status. Where it stopped is
/// shown in the text, if that was kept.
pub(crate) fn tell_run<A: Allocator, E: Write>(
    file: &str,
    ran: Result<Ran<A>, LispFault>,
    text: Option<&[u8]>,
    err: &mut E,
) -> u8
    ensures status { IsLispStatus (outcome_in (λ r. r.ended.outcome) ran) result }
    ensures quiet { result ≡ 0 → Keeps (E.contents err.old) (E.contents err.new) }
    ensures late { IsLateStatus result }
{
    match ran {
        Ok(ran) => tell_end(&ran.ended, text, err),
        Err(fault) => tell_fault(file, fault, text, err),
    }
}

/// Tells where a program stopped, and answers its status. Nothing is told of one that finished.
fn tell_end<A: Allocator, E: Write>(ended: &Ended<A>, text: Option<&[u8]>, err: &mut E) -> u8
    ensures status { IsLispStatus (Ok ended.now.outcome) result }
    ensures quiet { result ≡ 0 → Keeps (E.contents err.old) (E.contents err.new) }
{
    match Stop::of_outcome(ended.outcome) {
        None => 0,
        Some(stop) => {
            // What can't be told is left out, as a fault's line is.
            let _ = err.write_all(&ended.line);
            show_kept(text, stop, err);
            1
        }
    }
}

/// Tells why a program wasn't run, or what it printed isn't written, and answers the status.
fn tell_fault<E: Write>(file: &str, fault: LispFault, text: Option<&[u8]>, err: &mut E) -> u8
    ensures { result ≡ lisp_status fault }
{
    match fault {
        LispFault::Text(fault) => tell_place(file, fault, text, err),
        _ => tell(&fault_of_lisp(fault), err),
    }
}

/// Tells where a text is no program, and answers the status.
fn tell_place<E: Write>(file: &str, fault: Fault, text: Option<&[u8]>, err: &mut E) -> u8
    ensures { result ≡ 1 }
{
    let name = match fault.source {
        Source::Prelude => "prelude",
        Source::Program => file,
    };
    let place = fault.position;
    // What can't be told is left out, as a fault's line is.
    let _ = writeln!(
        err,
        "{name}:{}:{}: {}",
        place.line, place.column, fault.kind
    );
    show_kept(text, Stop::of_fault(fault), err);
    1
}

/// Runs the program that the reader gives, and writes what it prints. It isn't told where the
/// program has a fault or stopped.
pub(crate) fn run_program<A: Allocator + Copy, R: Read, O: Write>(
    alloc: A,
    reader: &mut R,
    out: &mut O,
    limits: Limits,
) -> Result<Ending, LineFault>
    ensures told { IfSome (R.remaining reader.old) (λ input. ConcludesLisp limits.steps input
        (status_after result) (O.contents out.old) (O.contents out.new)) }
    ensures read { (input : List ℕ)
        × Consumes (R.remaining reader.old) (R.remaining reader.new) input
        × ConcludesLisp limits.steps input (status_after result) (O.contents out.old)
        (O.contents out.new) }
    ensures late { IfErr result (λ fault. IsUsualFault fault) }
{
    match run_lisp(alloc, b"-", limits, reader, out) {
        Ok(ran) => ending_of(ran.ended.outcome),
        Err(fault) => Err(fault_of_lisp(fault)),
    }
}

/// How the program ends after one that ended so.
fn ending_of(outcome: Outcome) -> Result<Ending, LineFault>
    ensures status { IsLispStatus (Ok outcome) (status_after result) }
    ensures late { IfErr result (λ fault. IsUsualFault fault) }
{
    match outcome {
        Outcome::Finished => Ok(Ending::Done),
        Outcome::Stopped { .. } => Err(LineFault::Stopped),
    }
}

/// Runs the program of a file. It is shown where it stopped, if that is asked.
pub(crate) fn play_lisp<R, E>(
    rt: &R,
    file: &str,
    limits: Limits,
    err: &mut E,
    explains: bool,
) -> Result<u8, LineFault>
where
    R: Files + Input + Print + AllocGlobal,
    E: Write,
    ensures late { IfOk result (λ status. IsLateStatus status) }
    ensures refused { IfErr result (λ fault.
        (fault ≡ LineFault.Open) ⊎ (fault ≡ LineFault.OutOfMemory)) }
    ensures input { IfErr result (λ fault. file.now ≡ codes "-" → fault ≡ LineFault.OutOfMemory) }
{
    let mut out = gathering(rt.alloc(), io::writer(rt))?;
    if is_standard_input(file) {
        let mut reader = kept_if(rt.alloc(), rt.reader(), explains);
        return Ok(drive_lisp(rt.alloc(), file, limits, &mut reader, &mut out, err));
    }
    let mut reader = kept_if(rt.alloc(), opened(rt, file)?, explains);
    Ok(drive_lisp(rt.alloc(), file, limits, &mut reader, &mut out, err))
}

/// The fault that one of a run is.
pub(crate) fn fault_of_lisp(fault: LispFault) -> LineFault
    ensures status { status_of result ≡ lisp_status fault }
    ensures late { IsUsualFault result }
    // It is told as what it is.
    ensures told { result ≡ lisp_told_as fault }
{
    match fault {
        LispFault::Read => LineFault::Read,
        LispFault::Long => LineFault::TooLong,
        LispFault::Text(fault) => LineFault::Program(fault.kind),
        LispFault::Limits => LineFault::Limits,
        LispFault::Pace(why) => LineFault::Pace(why),
        LispFault::Heap(fault) => LineFault::Heap(fault),
        LispFault::Write => LineFault::Write,
        LispFault::OutOfMemory => LineFault::OutOfMemory,
    }
}
