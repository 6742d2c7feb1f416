//! Where in a line of a trace its fault is, what is wrong there, and a block of text that shows it.
#![tactic(auto)]

mod block;
mod columns;
mod expected;
mod finding;
mod near;
mod part;
mod rows;
mod why;

pub use block::{write_block, write_rows};
pub use columns::columns_of;
pub use expected::{Expected, Name};
pub use finding::{fault_part, is_marked, no_command_part};
pub use part::Part;
pub use why::Why;
