//! Why a run of a trace ended early.

use rh_core::ConfigFault;
use rh_syntax::TraceFault;
use thiserror::Error;

/// Why a run of a trace ended early. `Long`, `Trace` and `New` are faults of the input, in this
/// order; nothing was written then, and nothing after `Read`. After `Write` a prefix of the text
/// may be written, and not all of it; after `OutOfMemory` a prefix of the answers, and nothing of
/// the total line.
#[derive(Clone, Copy, Debug, PartialEq, Eq, Error)]
pub enum RunFault {
    /// A read failed, or 33,554,432 reads didn't come to the end.
    #[error("read failed")]
    Read,
    /// The input has more than 16,777,216 bytes.
    #[error("too long")]
    Long,
    /// The input is no trace.
    #[error("{0}")]
    Trace(TraceFault),
    /// The numbers of the first line make no heap.
    #[error("heap: {0}")]
    New(ConfigFault),
    /// A write failed or took no byte, or 33,554,432 writes of one line, or of a part of a dump's,
    /// didn't come to its end.
    #[error("write failed")]
    Write,
    /// The allocator refused memory.
    #[error("out of memory")]
    OutOfMemory,
}
