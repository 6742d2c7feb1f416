//! The graph of a dump in the form of V8's heap snapshots, which the DevTools of Chrome open.
#![tactic(auto)]

mod counting;
pub mod laws;
mod spelling;
mod writing;

pub use writing::write_snapshot;
