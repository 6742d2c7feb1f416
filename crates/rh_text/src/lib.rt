//! Texts of lines: an input read whole, its lines, parts and numbers, a line as it is made, and a
//! text sent whole.
//!
//! What reads and writes is told of in a log of the calls, so that a contract can speak of a call
//! that failed.
#![tactic(auto)]

mod input;
mod io_log;
pub mod laws;
mod leading;
mod line_text;
mod number;
mod output;
mod parts;
mod raw_line;
mod root;

pub use input::{InputFault, read_all, read_past};
pub use io_log::{IoLog, is_interrupted};
pub use leading::{after_byte, after_bytes, leading_number, leading_root};
pub use line_text::LineText;
pub use number::{read_integer, read_number};
pub use output::{Write, send};
pub use parts::{
    begins_with_digit, cut, has_dot, is_formed, is_text, next_part, one_part, six_parts,
    three_parts, two_parts,
};
pub use raw_line::first_line;
pub use root::read_root;
