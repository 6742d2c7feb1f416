//! Why a way of this crate makes no heap for a trace.

use rh_pace::PaceError;
use thiserror::Error;

/// Why no heap collects by itself at the sizes of a trace, or grows from them.
#[derive(Clone, Copy, Debug, PartialEq, Eq, Error)]
pub enum Unpaced {
    /// Of a growing run alone: the most words of its heap are fewer than the words of the first
    /// line, or more than 16,777,216.
    #[error("grow: BadLimits")]
    Limits,
    /// No pace keeps up in that heap with what the trace asks for, and no mark was asked for.
    #[error("pace: {0}")]
    Pace(PaceError),
}
