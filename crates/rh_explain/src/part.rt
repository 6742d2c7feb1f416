//! The faulty part of a line.

use crate::why::Why;

/// The part of a line at which it fails.
#[derive(Clone, Copy)]
pub struct Part {
    /// The column at which the part begins, in bytes from 0.
    pub begins: usize,
    /// The column after its last byte. It is `begins` where something is missing.
    pub ends: usize,
    /// What is wrong with it.
    pub why: Why,
}

/// A part of a line of well formed parts, by its number, and what is wrong with it.
#[derive(Clone, Copy)]
pub struct Misfit {
    /// The part's number, from 0. It is the number of parts where one is missing.
    pub index: usize,
    /// What is wrong with it.
    pub why: Why,
}
