//! The lines of cycles as trace events, which Perfetto and chrome://tracing show.
#![tactic(auto)]

mod events;
mod heard;
pub mod laws;
mod line;
mod spelling;

pub use events::{CycleEvents, lines_or_events};
