//! Why a text is no trace.

ghost use Rattle.std.specs.Prelude.{◌≡◌};
ghost use Rattle.rh_syntax.specs.declared.fault.ParseError.TheVariants as errors;

use std::alloc::{AllocError, AllocFailed};
use thiserror::Error;

/// What is wrong with a line. In each line the first of these that holds is named, but that a
/// wrong number of parts, other than an owner alone, comes after `Word` (in a `deal` line before a
/// wrong kind); of `Number`, `Root` and `Tray` it is the one of the first faulty part.
#[derive(Clone, Copy, Debug, PartialEq, Eq, Error)]
pub enum Kind {
    /// The text has no byte. It is the fault of line 1.
    #[error("Empty")]
    Empty,
    /// The line's number is above 1,048,576, or it has more than 256 bytes before its line end.
    #[error("Long")]
    Long,
    /// The line has no line end.
    #[error("Cut")]
    Cut,
    /// A byte outside 32 to 126, an empty part, or, after the first line, a wrong number of parts.
    #[error("Form")]
    Form,
    /// The first line doesn't begin with the part `heap`, or hasn't six parts.
    #[error("Header")]
    Header,
    /// The line's keyword isn't one at that place, or what a `deal` line deals is neither `copies`
    /// nor `entries`.
    #[error("Word")]
    Word,
    /// A part that should be a number isn't the decimal of one from 0 to 4,294,967,295, or an
    /// operand without a dot isn't `nil` or the decimal of a whole number of 64 bits with sign.
    #[error("Number")]
    Number,
    /// A part that should be a root, or an operand with a dot, isn't `OWNER.SLOT`, two numbers
    /// from 0 to 4,294,967,295.
    #[error("Root")]
    Root,
    /// A part that should be the name of a tray isn't a letter a to z and then at most 15 of a to
    /// z, 0 to 9 and `_`.
    #[error("Tray")]
    Tray,
}

/// The first faulty line of a text that is no trace.
#[derive(Clone, Copy, Debug, PartialEq, Eq, Error)]
#[error("line {line}: {kind}")]
pub struct TraceFault {
    /// The line's number, from 1.
    pub line: u32,
    /// What is wrong with it.
    pub kind: Kind,
}

/// Why `parse` gives no trace.
#[derive(Clone, Copy, Debug, PartialEq, Eq, Error)]
pub enum ParseError {
    /// The text is no trace.
    #[error("{0}")]
    Fault(TraceFault),
    /// The allocator refused memory for the lines.
    #[error("out of memory")]
    OutOfMemory,
}

impl From<TraceFault> for ParseError {
    ghost from_gives = { λ f e. e ≡ errors.Fault f };

    fn from(fault: TraceFault) -> ParseError {
        ParseError::Fault(fault)
    }
}

impl From<AllocError> for ParseError {
    ghost from_gives = { λ _ e. e ≡ errors.OutOfMemory };

    fn from(_error: AllocError) -> ParseError {
        ParseError::OutOfMemory
    }
}

impl<T: Drop> From<AllocFailed<T>> for ParseError {
    ghost from_gives = { λ _ e. e ≡ errors.OutOfMemory };

    fn from(_error: AllocFailed<T>) -> ParseError {
        ParseError::OutOfMemory
    }
}
