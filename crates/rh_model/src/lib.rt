//! The heap that never moves its objects, by which every answer of a moving heap is judged.
#![tactic(auto)]

mod errors;
pub mod laws;
mod plain;
mod plain_value;
mod stored_object;

pub use errors::{CommandError, PlainError};
pub use plain::Plain;
pub use plain_value::PlainValue;
