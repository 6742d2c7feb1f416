//! Two owners that share an object: owner 1 puts it into a slot of owner 0, which all may use, and
//! owner 2 takes it from there. What an owner keeps in its own slots is its own.

use crate::problem::Problem;
use rh_heap::{Operand, PacedHeap, Refusal, Reply, RootId, Sizes};
use std::alloc::Allocator;

/// Owner 0 and two more, with a slot each, and objects of one field.
const SIZES: Sizes = Sizes {
    words: 256,
    biggest: 3,
    ratio: 32,
    owners: 3,
    slots: 1,
};

const MINE: RootId = RootId { owner: 1, slot: 0 };

const SHARED: RootId = RootId { owner: 0, slot: 0 };

const YOURS: RootId = RootId { owner: 2, slot: 0 };

/// Owner 2 stores a number in the object that owner 1 made, and owner 1 reads it. Answers it.
pub fn run<A: Allocator + Copy>(alloc: A) -> Result<i64, Problem> {
    let mut heap = PacedHeap::sized(alloc, SIZES)?;
    run_in(&mut heap)
}

/// The same in this heap.
fn run_in<A: Allocator + Copy>(heap: &mut PacedHeap<A>) -> Result<i64, Problem> {
    share(heap)?;
    hand_on(heap)?;
    read(heap)
}

/// Owner 1 makes an object, and puts it where all may take it.
fn share<A: Allocator + Copy>(heap: &mut PacedHeap<A>) -> Result<(), Refusal> {
    heap.alloc(1, MINE, 1)?;
    heap.copy(1, SHARED, MINE)?;
    Ok(())
}

/// Owner 2 may not take it from the slot of owner 1, takes it where all may, and stores a number.
fn hand_on<A: Allocator + Copy>(heap: &mut PacedHeap<A>) -> Result<(), Problem> {
    match heap.copy(2, YOURS, MINE) {
        Err(Refusal::NotYours) => {}
        _ => return Err(Problem::Answer),
    }
    heap.copy(2, YOURS, SHARED)?;
    heap.store(2, YOURS, 0, Operand::Int(7))?;
    Ok(())
}

/// Owner 1 reads the number.
fn read<A: Allocator + Copy>(heap: &PacedHeap<A>) -> Result<i64, Problem> {
    match heap.peek(1, MINE, 0)? {
        Reply::Int(n) => Ok(n),
        _ => Err(Problem::Answer),
    }
}
