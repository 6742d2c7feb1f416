//! A picture of a heap as it stands, in SVG: its roots, its objects and their replicas, references,
//! and the log.
#![tactic(auto)]

mod arrows;
mod bars;
mod cells;
mod drawing;
mod entries;
mod error;
mod head;
mod legend;
pub mod limits;
mod log;
mod page;
mod roots;
mod sketch;
mod spaces;
mod style;
mod to_space;

pub use drawing::{draw, draw_logged};
pub use error::DrawError;
