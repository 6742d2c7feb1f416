//! What any program may take.

/// The most bytes of a program's text.
pub const MAX_TEXT_BYTES: usize = 1_048_576;

/// The most characters and names that a program may put out.
pub const MAX_OUTPUT: u32 = 1_048_576;
