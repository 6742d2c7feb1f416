//! A line for each cycle of a heap: what was used before it and lives after it, what it freed, and
//! the work that it took.
//!
//! A reader reads the heap's numbers after each line of a trace, or after each call, and tells each
//! cycle that ended. It does nothing to the heap, which costs no more for it.
#![tactic(auto)]

mod cycle;
mod cycles;
mod kept;
pub mod laws;
mod line;
mod reader;
mod running;

pub use cycle::{Cycle, CycleEnd, EntryCounts};
pub use cycles::Cycles;
pub use kept::CyclesKept;
pub use line::{HEADER, put_cycle};
pub use reader::CycleReader;
pub use running::Running;
