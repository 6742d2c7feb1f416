//! Why a run of a trace by a way ended early.

use rh_core::ConfigFault;
use rh_syntax::TraceFault;
use std::fmt::Display;
use thiserror::Error;

/// Why a run ended early, where the way has faults of its own. `Long`, `Trace`, `New` and `Way` are
/// faults of the input; nothing was written then, and nothing after `Read`. After `Write` a prefix
/// of each text may be written, and not all of the one that ends last; after `OutOfMemory` a prefix
/// of what is written before the lines and of them, and nothing of what is written at the end.
#[derive(Clone, Copy, Debug, PartialEq, Eq, Error)]
#[error_bound(F: Display)]
pub enum WayFault<F> {
    /// A read failed, or 33,554,432 reads didn't come to the end.
    #[error("read failed")]
    Read,
    /// The input has more than 16,777,216 bytes.
    #[error("too long")]
    Long,
    /// The input is no trace, or none that the way runs.
    #[error("{0}")]
    Trace(TraceFault),
    /// The numbers of the first line make no heap.
    #[error("heap: {0}")]
    New(ConfigFault),
    /// The way's own fault.
    #[error("{0}")]
    Way(F),
    /// A write failed or took no byte, or 33,554,432 writes of one line, or of a part of a dump's,
    /// didn't come to its end.
    #[error("write failed")]
    Write,
    /// The allocator refused memory.
    #[error("out of memory")]
    OutOfMemory,
}

/// Why nothing was made for a trace to be played on.
pub enum Unprepared<F> {
    /// The trace is none that the way runs.
    Trace(TraceFault),
    /// The numbers of the first line make no heap.
    New(ConfigFault),
    /// The way's own fault.
    Way(F),
    /// The allocator refused memory.
    OutOfMemory,
}

/// The fault of a way that has none of its own.
#[derive(Clone, Copy)]
pub enum NoFault {}
