//! Why a session ended early.

use thiserror::Error;

/// Why a session ended early. What was answered before stays written, and a prefix of the answer to
/// the line at which it ended may be.
#[derive(Clone, Copy, Debug, PartialEq, Eq, Error)]
pub enum ShellFault {
    /// A read failed, or 33,554,432 reads didn't come to the end.
    #[error("read failed")]
    Read,
    /// A write or a flush failed, or 33,554,432 writes of one text didn't come to its end.
    #[error("write failed")]
    Write,
    /// The allocator refused memory.
    #[error("out of memory")]
    OutOfMemory,
}
