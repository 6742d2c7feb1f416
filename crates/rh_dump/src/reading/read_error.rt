//! Why a dump is not read.

ghost use Rattle.std.specs.Prelude.{◌≡◌};
ghost use Rattle.rh_dump.specs.declared.reading.read_error.LineError.TheVariants as errors;

use crate::reading::fault::{DumpFault, DumpKind};
use rh_layout::OutOfMemory;
use thiserror::Error;

/// Why `read_dump` gives no graph.
#[derive(Clone, Copy, Debug, PartialEq, Eq, Error)]
pub enum DumpReadError {
    /// The text is no dump, or has more than 268,435,456 bytes.
    #[error("{0}")]
    Fault(DumpFault),
    /// A read failed, or as many as may be made didn't come to the end.
    #[error("read failed")]
    Read,
    /// The allocator refused memory for the text or for the graph.
    #[error("out of memory")]
    OutOfMemory,
}

/// Why a line is not read.
#[derive(Clone, Copy)]
pub enum LineError {
    /// What is wrong with the line.
    Kind(DumpKind),
    /// The allocator refused memory for the graph.
    OutOfMemory,
}

impl From<DumpKind> for LineError {
    ghost from_gives = { λ kind e. e ≡ errors.Kind kind };

    fn from(kind: DumpKind) -> LineError {
        LineError::Kind(kind)
    }
}

impl From<OutOfMemory> for LineError {
    ghost from_gives = { λ _ e. e ≡ errors.OutOfMemory };

    fn from(_error: OutOfMemory) -> LineError {
        LineError::OutOfMemory
    }
}
