//! Why a picture wasn't drawn.

use thiserror::Error;

/// Why a picture wasn't drawn.
#[derive(Clone, Copy, Debug, PartialEq, Eq, Error)]
pub enum DrawError {
    /// A write failed. A prefix of the picture may be written then, and not all of it.
    #[error("write failed")]
    Write,
    /// The allocator refused memory. Nothing is written then.
    #[error("out of memory")]
    OutOfMemory,
}
