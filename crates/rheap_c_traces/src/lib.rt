//! Whole traces for a program in C or in plain Rust, which links this crate as a static library.
//!
//! Each call takes a trace as bytes and puts what `rheap run` prints of it into the caller's
//! buffer. Between two calls nothing is kept. Statuses: 0 done, 1 a fault of the trace, or no pace
//! keeps up with it, 3 memory was refused, 5 the buffer is too small.
#![tactic(auto)]

mod delivering;
pub mod laws;
mod paced;
mod plain;
mod status;

pub use paced::rheap_run_paced;
pub use plain::rheap_run;
