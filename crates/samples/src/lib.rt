//! What tests of several crates play: texts, and devices that read and write them; and a runtime of
//! the tests' own.
#![tactic(auto)]

pub mod devices;
pub mod terminal;
pub mod texts;
