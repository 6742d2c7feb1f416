//! The options of a run as plain data: how it is reported, and how many words and steps a program
//! may take. The command line and the runs both use them.
#![tactic(auto)]

mod limits;
mod telling;

pub use limits::{HeapWords, Limits, MOST_STEPS};
pub use telling::Telling;
