//! What a program may take.

/// The steps of a program to which no others are given: it would take years to spend them.
pub const MOST_STEPS: u64 = 18_446_744_073_709_551_615;

/// The words of the heap that a program runs on.
#[derive(Clone, Copy, Debug, PartialEq, Eq)]
pub enum HeapWords {
    /// It grows by itself, and each of its spaces has at most so many.
    UpTo(u32),
    /// Each of its spaces has so many, from its beginning to its end.
    Just(u32),
}

/// What a program may take.
#[derive(Clone, Copy, Debug, PartialEq, Eq)]
pub struct Limits {
    /// The words of its heap.
    pub heap: HeapWords,
    /// The instructions that it may do, those of the prelude too.
    pub steps: u64,
}
