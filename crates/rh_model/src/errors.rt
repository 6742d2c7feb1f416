//! What the calls of the plain heap fail for.

use rh_layout::Refusal;
use thiserror::Error;

/// Why there is no plain heap.
#[derive(Clone, Copy, Debug, PartialEq, Eq, Error)]
pub enum PlainError {
    /// The owners aren't 1 to `MAX_OWNERS`, or the slots of each aren't 1 to `MAX_SLOTS`.
    #[error("BadRoots")]
    BadRoots,
    /// A growth was refused.
    #[error("out of memory")]
    OutOfMemory,
}

/// Why a command got no reply.
#[derive(Clone, Copy, Debug, PartialEq, Eq, Error)]
pub enum CommandError {
    /// The command was refused, for what it asks: never for a limit, since the plain heap has none.
    #[error("{0}")]
    Refused(Refusal),
    /// A growth was refused.
    #[error("out of memory")]
    OutOfMemory,
}
