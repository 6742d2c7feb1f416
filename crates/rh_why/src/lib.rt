//! Why an object of a dump is alive: a shortest path from a root to it.
#![tactic(auto)]

mod holder;
pub mod laws;
mod meeting;
mod path;
mod writing;

pub use holder::{Holder, Step};
pub use path::path_to;
pub use writing::write_path;
