//! A space that is full: a call is refused, the runtime lets go of what it can, and insists.

use crate::problem::Problem;
use rh_heap::{Command, PacedHeap, Refusal, RootId, Sizes};
use std::alloc::Allocator;

const OBJECT_WORDS: u32 = 34;

/// As many slots as objects of so many words fit into the space.
const SIZES: Sizes = Sizes {
    words: 256,
    biggest: OBJECT_WORDS,
    ratio: 32,
    owners: 2,
    slots: 7,
};

/// Fills the slots with objects until the space has no room, makes one more once two are dropped,
/// and collects. Answers the words that live then.
pub fn run<A: Allocator + Copy>(alloc: A) -> Result<u32, Problem> {
    let mut heap = PacedHeap::sized(alloc, SIZES)?;
    run_in(&mut heap)
}

/// The same in this heap.
fn run_in<A: Allocator + Copy>(heap: &mut PacedHeap<A>) -> Result<u32, Problem> {
    fill(heap)?;
    make_one_more(heap)?;
    collect(heap)
}

/// The slots hold objects that fill the space.
fn fill<A: Allocator + Copy>(heap: &mut PacedHeap<A>) -> Result<(), Refusal> {
    for slot in 0..SIZES.slots {
        heap.alloc(1, RootId { owner: 1, slot }, OBJECT_WORDS - 2)?;
    }
    Ok(())
}

/// Asks for one more, which is refused for want of room, drops two, and insists on it.
fn make_one_more<A: Allocator + Copy>(heap: &mut PacedHeap<A>) -> Result<(), Problem> {
    let dst = RootId { owner: 0, slot: 0 };
    let alloc_one = Command::Alloc {
        dst,
        fields: OBJECT_WORDS - 2,
    };
    match heap.insist(1, &alloc_one) {
        Err(Refusal::SpaceFull { .. }) => {}
        _ => return Err(Problem::Answer),
    }
    heap.drop(1, RootId { owner: 1, slot: 0 })?;
    heap.drop(1, RootId { owner: 1, slot: 1 })?;
    heap.insist(1, &alloc_one)?;
    Ok(())
}

/// Collects. Answers the words that live then.
fn collect<A: Allocator + Copy>(heap: &mut PacedHeap<A>) -> Result<u32, Problem> {
    match heap.collect() {
        Ok(flipped) => Ok(flipped.live_words),
        Err(_) => Err(Problem::Answer),
    }
}
