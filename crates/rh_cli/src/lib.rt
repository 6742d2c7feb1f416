//! The program, from its arguments to its status.
#![tactic(auto)]

mod arguments;
mod driving;
mod explaining;
mod keeping;
pub mod laws;
mod lisp;
mod lisp_cycles;
mod lisp_explaining;
mod lisp_session;
mod one_file;
mod output_file;
mod outputs;
mod program;
mod prompting;
mod viewed_driving;

pub use arguments::read_words;
pub use driving::drive;
pub use explaining::drive_explained;
pub use keeping::KeptReader;
pub use lisp::drive_lisp;
pub use lisp_cycles::drive_lisp_with_cycles;
pub use program::{Terminals, play};
pub use rh_choices::{HeapWords, Limits, Telling};
pub use rh_command_line::{Ask, CommandLineFault, PLAIN, Shell, Subcommand, Views};
pub use rh_commands::{Ending, LineFault, ViewLog, explain, tell};
pub use rh_trace_views::{Writers, writers};
pub use viewed_driving::{drive_viewed, reads_for};
