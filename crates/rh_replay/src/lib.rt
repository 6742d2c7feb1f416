//! Histories of the calls of a heap: recorded, checked against the heap that never moves, written
//! and read.
#![tactic(auto)]

mod answers;
mod call;
mod checking;
mod fault;
mod history;
mod history_text;
pub mod laws;
mod reading;
mod recorder;
mod writing;

pub use call::Call;
pub use checking::{Verdict, check};
pub use fault::{HistoryError, HistoryFault, HistoryKind};
pub use history::History;
pub use history_text::read_history;
pub use recorder::{Recorder, RecorderError, TraceFull};
pub use writing::{report, report_logged, write_history, write_history_logged};
