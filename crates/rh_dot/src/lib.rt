//! The graph of a dump as a text for Graphviz, which draws it.
#![tactic(auto)]

pub mod laws;
mod spelling;
mod writing;

pub use writing::write_dot;
