//! Shared runs: traces of commands alone, played by mutators in threads on one shared heap, with
//! replicators beside them.
#![tactic(auto)]

mod fault;
pub mod laws;
mod limiting;
mod lines;
mod matching;
mod options;
mod playing;
mod running;
mod threads;
mod trace_limits;
mod writing;

pub use fault::SharedRunFault;
pub use options::RunOptions;
pub use running::run_shared;
