//! The language of traces: a text of commands and of the lines of a cycle, read and written, and
//! the texts of the answers to commands. It knows no heap.
#![tactic(auto)]

mod command_answers;
mod fault;
pub mod laws;
mod line;
mod lines;
mod printing;
mod reading;
mod request;
mod trace;
mod tray_name;
mod values;

pub use command_answers::{put_answer_text, send_answer};
pub use fault::{Kind, ParseError, TraceFault};
pub use line::{Header, Line};
pub use lines::commands::{owned_command, put_command_text};
pub use lines::single::{
    command_of, write_answer, write_answer_logged, write_command, write_command_logged,
};
pub use printing::{print, print_logged, put_request_text};
pub use reading::{checked_parts, header_or_fault, request_or_fault};
pub use request::Request;
pub use trace::{Trace, parse};
pub use tray_name::{TrayName, tray_name_of};
