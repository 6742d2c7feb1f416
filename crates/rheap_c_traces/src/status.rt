//! The statuses that calls answer. Where the program `rheap` has the same ending, the number is its
//! own.

/// The text is delivered.
pub const DONE: u8 = 0;

/// The trace has a fault, or no pace keeps up with it.
pub const FAULT: u8 = 1;

/// Memory was refused.
pub const NO_MEMORY: u8 = 3;

/// The buffer has no room for the text.
pub const NO_ROOM: u8 = 5;
