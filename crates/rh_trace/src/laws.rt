//! The laws of runs of a trace, by subject. Each function does nothing: its contract is the law.

pub mod answers;
pub mod dumps;
pub mod runs;
pub mod summaries;
pub mod trays;
pub mod ways;

pub use rh_syntax::laws::{
    a_single_command_is_read_as_spelled, each_line_is_of_one_request, the_first_fault_is_named,
    what_is_spelled_is_read,
};
