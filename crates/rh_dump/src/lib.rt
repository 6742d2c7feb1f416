//! Dumps: the graph that a heap's roots reach, with objects numbered breadth first, and its text.
#![tactic(auto)]

mod comparing;
mod dump_graph;
mod graph_builder;
pub mod laws;
pub mod limits;
mod numbering;
mod object_graph;
mod plain_dump;
mod reading;
mod writing;

pub use comparing::same_text;
pub use dump_graph::Graph;
pub use numbering::numbered_graph;
pub use object_graph::ObjectGraph;
pub use plain_dump::plain_graph;
pub use reading::fault::{DumpFault, DumpKind};
pub use reading::read_error::DumpReadError;
pub use reading::{read_dump, read_dump_logged};
pub use rh_text::Write;
pub use writing::spelling::put_value;
pub use writing::{write_dump, write_dump_logged};
