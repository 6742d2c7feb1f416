//! What a command line of `rheap` asks: its arguments, as clap takes them apart, and its texts.
#![tactic(auto)]

mod arguments;
mod ask;
mod commands;
pub mod completions;
mod fault;
mod help;
pub mod laws;
mod lisp_arguments;
mod table;
mod version;

pub use arguments::{MAX_REPLICATORS, is_output, read_command_line};
pub use ask::{Ask, PLAIN, Shell, Subcommand, Views};
pub use fault::{CommandLineError, CommandLineFault};
pub use rh_choices::{HeapWords, Limits, Telling};
