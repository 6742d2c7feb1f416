//! Finds the kind of a line, and hands it to the file that reads or writes it.

pub mod commands;
pub mod header;
pub mod keywords;
pub mod leading;
pub mod single;
pub mod watching;
