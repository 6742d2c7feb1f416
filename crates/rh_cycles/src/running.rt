//! What is kept of a cycle that is on.

use crate::cycle::EntryCounts;

/// What is kept of a cycle that is on.
#[derive(Clone, Copy, Debug, PartialEq, Eq)]
pub struct Running {
    /// The epoch at its begin.
    pub epoch: u64,
    /// The line, or the call, at which it began.
    pub began: u64,
    /// The words that were used then.
    pub used: u64,
    /// The number of the last store before it.
    pub number: u64,
    /// The most units that one line, or one call, of it spent.
    pub most: u64,
    /// The entries of its deals and gives, by class.
    pub entries: EntryCounts,
}
