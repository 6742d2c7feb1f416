//! What is wrong with a text, shown at the part at which it fails: of a trace, a history, a dump or a
//! program, and of the sizes that a trace's first line asks for.
#![tactic(auto)]

mod due;
mod dumps;
mod histories;
mod lines;
mod programs;
mod sizes;
mod spot;
mod told;
mod traces;

pub use due::Due;
pub use dumps::dump_spot;
pub use histories::history_spot;
pub use lines::nth_line;
pub use programs::form_spot;
pub use sizes::{beyond_spot, config_spot, few_words_spot, limits_spot, low_ratio_spot};
pub use spot::{Spot, write_spot};
pub use told::Told;
pub use traces::{Way, trace_spot};
