//! The commands of `rheap` that need no Scheme, each from its input to its output, its status, and
//! its message where it fails.
#![tactic(auto)]

mod completing;
mod conversing;
mod counting;
mod drawing;
mod ending;
mod explaining;
mod fault;
mod fault_object;
mod graphing;
pub mod laws;
mod replaying;
mod reporting;
mod running;
mod sharing;
mod snapshotting;
mod telling;
mod view_log;
mod viewing;
mod why;

pub use completing::print_completions;
pub use conversing::converse;
pub use counting::count;
pub use drawing::draw;
pub use ending::Ending;
pub use explaining::explain;
pub use fault::LineFault;
pub use graphing::print_graph;
pub use replaying::replay;
pub use reporting::{view_count, view_report};
pub use running::run;
pub use sharing::play_shared;
pub use snapshotting::print_snapshot;
pub use telling::{show, tell, tell_as, tell_ending};
pub use view_log::ViewLog;
pub use viewing::view_run;
pub use why::print_path;
