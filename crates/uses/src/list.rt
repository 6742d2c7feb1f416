//! A list with a collector beside it: numbers are pushed in front of a list, which is dropped and
//! begun again, in a space that never holds a tenth of what is pushed.

use crate::problem::Problem;
use rh_heap::{Operand, PacedHeap, Refusal, Reply, RootId, Sizes, Value};
use std::alloc::Allocator;

/// A cell has 4 words: a header, a forward word, a number and the rest of the list.
const SIZES: Sizes = Sizes {
    words: 2048,
    biggest: 4,
    ratio: 32,
    owners: 2,
    slots: 2,
};

const OWNER: u32 = 1;

/// The list, and the cell that is made or read.
const LIST: RootId = RootId { owner: 1, slot: 0 };

const CELL: RootId = RootId { owner: 1, slot: 1 };

/// Pushes 10,000 numbers, 100 to each list. Answers the sum of the last list, and how many cycles
/// there were.
pub fn run<A: Allocator + Copy>(alloc: A) -> Result<(i64, u64), Problem> {
    let mut heap = PacedHeap::sized(alloc, SIZES)?;
    run_in(&mut heap)
}

/// Pushes them in this heap, and sums the last list.
fn run_in<A: Allocator + Copy>(heap: &mut PacedHeap<A>) -> Result<(i64, u64), Problem> {
    push_all(heap)?;
    let sum = sum(heap)?;
    Ok((sum, heap.stat().flips))
}

/// The numbers are pushed; the list is dropped before every hundredth.
fn push_all<A: Allocator + Copy>(heap: &mut PacedHeap<A>) -> Result<(), Refusal> {
    for n in 0..10_000 {
        if n % 100 == 0 {
            heap.drop(OWNER, LIST)?;
        }
        push(heap, n)?;
    }
    Ok(())
}

/// A new cell stands in front of the list.
fn push<A: Allocator + Copy>(heap: &mut PacedHeap<A>, n: i64) -> Result<(), Refusal> {
    heap.alloc(OWNER, CELL, 2)?;
    heap.store(OWNER, CELL, 0, Operand::Int(n))?;
    heap.store(OWNER, CELL, 1, Operand::Root(LIST))?;
    heap.copy(OWNER, LIST, CELL)?;
    Ok(())
}

/// The sum of the list, which is read from its front, a cell at a time.
fn sum<A: Allocator + Copy>(heap: &mut PacedHeap<A>) -> Result<i64, Problem> {
    let mut sum = 0i64;
    heap.copy(OWNER, CELL, LIST)?;
    for _ in 0..SIZES.words {
        if heap.root(CELL) == Some(Value::Nil) {
            return Ok(sum);
        }
        match heap.peek(OWNER, CELL, 0)? {
            Reply::Int(n) => sum = sum.wrapping_add(n),
            _ => return Err(Problem::Answer),
        }
        heap.load(OWNER, CELL, CELL, 1)?;
    }
    Err(Problem::Answer)
}
