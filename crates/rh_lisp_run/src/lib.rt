//! Programs of the small Scheme, from a reader to a writer.
#![tactic(auto)]

mod console;
mod cycle_writer;
mod cycling;
mod entering;
mod fault;
mod heaps;
pub mod laws;
mod limits;
mod reading;
mod running;
mod session;
mod stage;
mod stop;
mod with_cycles;

pub use console::Console;
pub use fault::LispFault;
pub use limits::{MAX_OUTPUT, MAX_TEXT_BYTES};
pub use rh_choices::{HeapWords, Limits, MOST_STEPS};
pub use rh_lisp::{Fault, FaultKind, Outcome, Program, Source};
pub use running::{Ended, Ran, program_of, run_lisp, run_lisp_logged, run_program};
pub use session::run_session;
pub use stop::{Cause, Stop};
pub use with_cycles::{run_lisp_with_cycles, run_program_with_cycles};
