//! The laws of the runs of a subcommand, by subject. Each function does nothing: its contract is
//! the law.

pub mod runs;
pub mod viewed;
