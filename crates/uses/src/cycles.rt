//! A line for each cycle: the heap is asked after each call.

use crate::problem::Problem;
use rh_cycles::{Cycles, HEADER, put_cycle};
use rh_heap::{OutOfMemory, PacedHeap, RootId, Sizes};
use std::alloc::Allocator;
use std::io;

const SIZES: Sizes = Sizes {
    words: 4_096,
    biggest: 8,
    ratio: 32,
    owners: 2,
    slots: 2,
};

const KEPT: RootId = RootId { owner: 1, slot: 0 };

const LOST: RootId = RootId { owner: 1, slot: 1 };

/// A text of lines, one for each cycle that a heap ended.
#[derive(Drop)]
struct CycleLog<A: Allocator + Copy> {
    cycles: Cycles,
    lines: Vec<u8, A>,
}

impl<A: Allocator + Copy> CycleLog<A> {
    /// The names of the columns, and no cycle yet.
    fn new(alloc: A, heap: &PacedHeap<A>) -> Result<CycleLog<A>, OutOfMemory> {
        let mut lines = Vec::new(alloc);
        lines.extend_from_slice(HEADER)?;
        Ok(CycleLog {
            cycles: Cycles::new(heap),
            lines,
        })
    }

    /// A line more, where the call before ended a cycle.
    fn after(&mut self, heap: &PacedHeap<A>) -> Result<(), OutOfMemory> {
        match self.cycles.after(heap) {
            Some(cycle) => put_cycle(&mut self.lines, &cycle),
            None => Ok(()),
        }
    }

    /// Makes an object, lets go of it, and collects.
    fn lose_one(&mut self, heap: &mut PacedHeap<A>) -> Result<(), Problem> {
        heap.alloc(1, LOST, 3)?;
        self.after(heap)?;
        heap.drop(1, LOST)?;
        self.after(heap)?;
        let _ = heap.collect();
        self.after(heap)?;
        Ok(())
    }

    /// Makes an object that it keeps, and loses two others, one after the other.
    fn lose_two(&mut self, heap: &mut PacedHeap<A>) -> Result<(), Problem> {
        heap.alloc(1, KEPT, 2)?;
        self.after(heap)?;
        self.lose_one(heap)?;
        self.lose_one(heap)
    }
}

/// Writes a line for each of two cycles, in which an object lives and another is lost.
pub fn run<A: Allocator + Copy, W: io::Write>(alloc: A, writer: &mut W) -> Result<(), Problem> {
    let mut heap = PacedHeap::sized(alloc, SIZES)?;
    run_in(alloc, &mut heap, writer)
}

/// Writes the lines of the cycles of this heap.
fn run_in<A: Allocator + Copy, W: io::Write>(
    alloc: A,
    heap: &mut PacedHeap<A>,
    writer: &mut W,
) -> Result<(), Problem> {
    let mut log = CycleLog::new(alloc, heap)?;
    log.lose_two(heap)?;
    writer.write_all(&log.lines)?;
    Ok(())
}
