//! What a reader of cycles keeps, as plain numbers.

use crate::running::Running;
use rh_core::Stat;

/// What `Cycles` keeps from one call to the next. Whoever has no place for a `Cycles`, as a program in
/// C, keeps these numbers, and makes it of them again.
#[derive(Clone, Copy, Debug, PartialEq, Eq)]
pub struct CyclesKept {
    /// The calls that were counted.
    pub calls: u64,
    /// The cycles that ended.
    pub ended: u64,
    /// The heap's numbers as they were read last.
    pub last: Stat,
    /// What is kept of the cycle that is on, if its begin was read.
    pub running: Option<Running>,
}
