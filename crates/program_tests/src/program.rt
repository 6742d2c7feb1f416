//! The program: its arguments, its commands, and what it tells of texts with faults.

mod command_line;
mod driving;
mod explaining;
mod failing;
mod faults;
mod growing;
mod lisp;
mod lisp_cycles;
mod telling;
mod viewing;
