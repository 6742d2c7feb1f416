//! How much of a heap is drawn one by one. Of a heap that has more only bars are drawn.

/// The most objects of from-space.
pub const MOST_OBJECTS: usize = 300;

/// The most words of from-space that objects use.
pub const MOST_WORDS: u32 = 4_096;

/// The most roots that aren't nil.
pub const MOST_ROOTS: usize = 300;

/// The most entries of the log.
pub const MOST_ENTRIES: u64 = 300;
