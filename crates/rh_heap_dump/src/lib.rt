//! The graph of a heap: what its roots reach, with objects numbered as a dump numbers them.
#![tactic(auto)]

mod heap_dump;

pub use heap_dump::graph;
