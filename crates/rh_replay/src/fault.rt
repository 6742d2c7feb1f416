//! Why a text is no history.

ghost use Rattle.std.specs.Prelude.{◌≡◌};
ghost use Rattle.rh_replay.specs.declared.fault.HistoryError.TheVariants as errors;

use rh_syntax::Kind;
use std::alloc::{AllocError, AllocFailed};
use thiserror::Error;

/// What is wrong with a line of a history's text. In each line the first of these that holds is
/// named: `Long`, `Cut`, `Trailing`; then `Form`; in the first line `Header`, `Number`; in a call's
/// line the faults of its command, `Answer`; in the last line `Form`, `Number`, `Count`.
#[derive(Clone, Copy, Debug, PartialEq, Eq, Error)]
pub enum HistoryKind {
    /// A fault that a trace's line has too. `Header` is that of a first line that doesn't begin
    /// with the part `history`, or hasn't three parts; `Number` also that of owners that aren't 1
    /// to 16, or of slots that aren't 1 to 256.
    #[error("{0}")]
    Line(Kind),
    /// The line stands after the `end` line.
    #[error("Trailing")]
    Trailing,
    /// No part of the line is `=`, or what follows it isn't an answer.
    #[error("Answer")]
    Answer,
    /// The `end` line has another number than that of the calls.
    #[error("Count")]
    Count,
    /// There is no `end` line. It is the fault of the line after the last.
    #[error("End")]
    End,
}

/// The first faulty line of a text that is no history.
#[derive(Clone, Copy, Debug, PartialEq, Eq, Error)]
#[error("line {line}: {kind}")]
pub struct HistoryFault {
    /// The line's number, from 1.
    pub line: u32,
    /// What is wrong with it.
    pub kind: HistoryKind,
}

/// Why `read_history` gives no history.
#[derive(Clone, Copy, Debug, PartialEq, Eq, Error)]
pub enum HistoryError {
    /// The text is no history.
    #[error("{0}")]
    Fault(HistoryFault),
    /// The allocator refused memory for the calls.
    #[error("out of memory")]
    OutOfMemory,
}

impl From<HistoryFault> for HistoryError {
    ghost from_gives = { λ f e. e ≡ errors.Fault f };

    fn from(fault: HistoryFault) -> HistoryError {
        HistoryError::Fault(fault)
    }
}

impl From<AllocError> for HistoryError {
    ghost from_gives = { λ _ e. e ≡ errors.OutOfMemory };

    fn from(_error: AllocError) -> HistoryError {
        HistoryError::OutOfMemory
    }
}

impl<T: Drop> From<AllocFailed<T>> for HistoryError {
    ghost from_gives = { λ _ e. e ≡ errors.OutOfMemory };

    fn from(_error: AllocFailed<T>) -> HistoryError {
        HistoryError::OutOfMemory
    }
}
