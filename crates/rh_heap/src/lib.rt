//! A managed heap that collects by itself, for an author of a language runtime: one crate that has
//! all that a runtime names. It defines one error type; the rest it passes on from the crates below
//! it, whose contracts hold as they stand there.
//!
//! ```rust
//! use rh_heap::{Error, GrowingHeap, Operand, Reply, RootId};
//! use std::alloc::Allocator;
//!
//! const LIST: RootId = RootId { owner: 1, slot: 0 };
//!
//! fn first<A: Allocator + Copy>(alloc: A) -> Result<Reply, Error> {
//!     let mut heap = GrowingHeap::new(alloc, 4_000_000)?;   // of at most so many words
//!     heap.alloc(1, LIST, 2)?;                              // owner 1: its slot 0 names an object
//!     heap.store(1, LIST, 0, Operand::Int(7))?;             // with 7 in its first field
//!     Ok(heap.peek(1, LIST, 0)?)                            // Reply::Int(7)
//! }
//! ```
//!
//! `PacedHeap::sized` makes a heap of fixed sizes, with a guarantee within them.
//!
//! A contract of your own may cite definitions. `specs/Lib.antt` passes on those of the crates below
//! that such contracts need, under names as `Rattle.rh_heap.specs.InTime`; for any other list the
//! crate that defines it. `growing_laws` are the laws of the heap that grows, `laws` those of the
//! heap that collects by itself, and `heap_laws` those of the heap below it.
//!
//! `CALLING.md` has a proved caller and the contracts in short. The crate `first_runtime` is a small
//! runtime, whole, to be copied.
#![tactic(auto)]

mod error;

pub use error::Error;
pub use rh_core::{
    CommandHeap, Config, ConfigFault, Flipped, Heap, HeapError, ReleaseError, ResizeError,
    RoomError, Stat, WatchError, laws as heap_laws,
};
pub use rh_growing::{
    DEFAULT_AT_LEAST, DEFAULT_FACTOR, GrowingError, GrowingHeap, Growth, MAX_FACTOR, MIN_FACTOR,
    Short, laws as growing_laws,
};
pub use rh_layout::{
    Command, MAX_FIELDS, MAX_INT, MAX_OWNERS, MAX_SLOTS, MIN_INT, Operand, OutOfMemory, Refusal,
    Reply, RootId, Value,
};
pub use rh_pace::{
    CollectingHeap, DEFAULT_PACE_RATIO, Did, EpochsSpent, MIN_PACE_RATIO, Pace, PaceError,
    PacedHeap, Seen, Sizes, SizesError, laws,
};
