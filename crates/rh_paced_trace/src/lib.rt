//! Paced runs: traces of commands alone, run on a heap that collects by itself. And growing runs,
//! on one that grows by itself too. `rh_trace::run` runs a trace by the way `Paced` or `Growing`.
#![tactic(auto)]

mod commanded;
mod fault;
pub mod laws;
mod lines;
mod pacing;
mod ways;

pub use commanded::Commanded;
pub use fault::Unpaced;
pub use lines::other_fault;
pub use pacing::{growth_of, pace_of};
pub use rh_pace::{Pace, PaceError};
pub use rh_trace::{Summary, WayFault};
pub use ways::{Growing, Paced};
