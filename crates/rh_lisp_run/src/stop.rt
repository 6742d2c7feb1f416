//! Why a program stopped or can't be read, as a sentence for the user.

ghost use Rattle.std.specs.Prelude.{◌≡◌, ◌↔◌, None, IfSome};

use rh_code::Position;
use rh_lisp::{Fault, FaultKind, Missing, Outcome, Problem, ReadKind, Source, Why};

/// Why a program stopped, or why a text is none.
#[derive(Clone, Copy, PartialEq, Eq)]
pub enum Cause {
    /// The program stopped before its end.
    Problem(Problem),
    /// The text is no program.
    Fault(FaultKind),
}

/// Where a program stopped, or a text is none.
#[derive(Clone, Copy, PartialEq, Eq)]
pub struct Stop {
    /// The text.
    pub source: Source,
    /// Where in it.
    pub position: Position,
    /// Why.
    pub cause: Cause,
}

impl Stop {
    /// Where and why a program stopped that ended so. Nothing if it finished.
    pub fn of_outcome(outcome: Outcome) -> Option<Stop>
        ensures finished { (result ≡ None) ↔ (outcome ≡ Outcome.Finished) }
        ensures stopped { IfSome result (λ stop. (problem : Problem)
            × (outcome ≡ Outcome.Stopped problem stop.source stop.position)
            × (stop.cause ≡ Cause.Problem problem)) }
    {
        match outcome {
            Outcome::Finished => None,
            Outcome::Stopped {
                problem,
                source,
                position,
            } => Some(Stop {
                source,
                position,
                cause: Cause::Problem(problem),
            }),
        }
    }

    /// Where and why a text is no program that has this fault.
    pub fn of_fault(fault: Fault) -> Stop
        ensures source { result.source ≡ fault.source }
        ensures position { result.position ≡ fault.position }
        ensures cause { result.cause ≡ Cause.Fault fault.kind }
    {
        Stop {
            source: fault.source,
            position: fault.position,
            cause: Cause::Fault(fault.kind),
        }
    }

    /// What may stand there, in a sentence.
    pub fn sentence(self) -> &'static str {
        match self.cause {
            Cause::Problem(Problem::Failed(why, _)) => of_failure(why),
            Cause::Problem(problem) => of_problem(problem),
            Cause::Fault(FaultKind::Read(kind)) => of_reading(kind),
            Cause::Fault(kind) => of_fault(kind),
        }
    }
}

/// What may stand where a program fails.
fn of_failure(why: Why) -> &'static str {
    match why {
        Why::Unbound => "the name has no value yet: (define NAME VALUE) gives it one",
        Why::Pair => "a pair is due here: cons makes one, and () is none",
        Why::Number => "a number is due here",
        Why::Function => "a call begins with a procedure",
        Why::Arguments => "the procedure takes more operands, or fewer",
        Why::Vector => "a vector is due here, as (vector 1 2)",
        Why::Text => "a string is due here, as \"text\"",
        Why::Character => "a character is due here, as #\\a",
        Why::Range => "a number is too small or too great here, as an index past the end",
        Why::Zero => "the divisor is 0",
        Why::User => "the program ended by error",
        Why::List => "a list is due here, as (list 1 2)",
        Why::Symbol => "a symbol is due here, as 'a",
        Why::Record => "a record is due here, of the type to which the procedure belongs",
        Why::Values => "the form takes more values, or fewer",
        Why::Parameter => "a parameter is due here: make-parameter makes one",
    }
}

/// What a program lacked that didn't fail.
fn of_problem(problem: Problem) -> &'static str {
    match problem {
        Problem::Exhausted => "what the program reaches has no room: --grow or --heap gives more",
        Problem::Overflow(_) => "numbers are from -2^60 to 2^60 - 1",
        Problem::Output => "a program puts out 1048576 characters and names at most",
        Problem::Steps => "--steps says how many instructions may be done",
        Problem::Arguments => "a call has some 4090 operands at most",
        _ => "the heap has too few owners or slots",
    }
}

/// What may stand where a text isn't read.
fn of_reading(kind: ReadKind) -> &'static str {
    match kind {
        ReadKind::Unexpected => "no list is open here, or what stands before has no datum",
        ReadKind::Unfinished => "the text ends before all that it begins has ended",
        ReadKind::Dot => "a dot stands before the last datum of a list, as (1 . 2)",
        ReadKind::Range => "numbers are from -2^60 to 2^60 - 1",
        ReadKind::Number => "numbers are whole: digits, after one sign at most",
        ReadKind::Escape =>
            "after \\ in a string stands n, t, r, a, b, \", \\, |, x41; or a line end",
        ReadKind::Datum => "after # stands t, f, a vector as (1 2), or a character as \\a",
        ReadKind::Long | ReadKind::OutOfMemory => "the text is too long",
    }
}

/// What may stand where a text is no program.
fn of_fault(kind: FaultKind) -> &'static str {
    match kind {
        FaultKind::Missing(Missing::Import) =>
            "only (scheme ..) can be imported, by its own names: (import (scheme base))",
        FaultKind::Missing(_) => "rheap lisp --help has the forms that are there",
        FaultKind::Name => "a name is due here",
        FaultKind::Globals => "names, quoted lists and strings are 134399 at most in all",
        FaultKind::Variables =>
            "a procedure has some 4090 variables and waiting operands at most, and a call so many operands",
        FaultKind::Elements => "a vector or a string has 4094 elements at most",
        FaultKind::Long => "the program is too long",
        _ =>
            "the form has another number of parts, or a part may not stand there: rheap lisp --help has it",
    }
}
