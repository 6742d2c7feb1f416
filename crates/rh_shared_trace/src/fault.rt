//! Why a shared run ended early.

use rh_core::ConfigFault;
use rh_shared::SharedFault;
use rh_syntax::TraceFault;
use thiserror::Error;

/// Why a shared run ended early. `Long`, `Trace`, `New` and `Shared` are faults of the input and of
/// what was asked for, in this order. Nothing was written, but after `Write`: then a prefix of the
/// text of a legal history may be written, and not all of it.
#[derive(Clone, Copy, Debug, PartialEq, Eq, Error)]
pub enum SharedRunFault {
    /// A read failed, or 33,554,432 reads didn't come to the end.
    #[error("read failed")]
    Read,
    /// The input has more than 16,777,216 bytes.
    #[error("too long")]
    Long,
    /// The input is no trace; or it is one, and the line, the first such, is no command line, which
    /// is told as `Word`, or its owner isn't below the number of owners, which is told as `Root`.
    #[error("{0}")]
    Trace(TraceFault),
    /// The numbers of the first line make no heap.
    #[error("heap: {0}")]
    New(ConfigFault),
    /// More than 8 replicators were asked for.
    #[error("heap: {0}")]
    Shared(SharedFault),
    /// The history isn't that of the mutators' calls, or isn't legal, or isn't of the trace.
    #[error("history differs")]
    HistoryDiffers,
    /// A write failed or took no byte, or 33,554,432 writes of one line didn't come to its end.
    #[error("write failed")]
    Write,
    /// The allocator refused memory, or a thread was refused.
    #[error("out of memory")]
    OutOfMemory,
}
