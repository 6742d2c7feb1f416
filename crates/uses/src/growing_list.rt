//! A list on the heap that grows: cells are pushed in front of it until a call is refused for want
//! of room. The heap said before that call, by `short`, that it may have no room.

ghost use Rattle.std.specs.Prelude.{◌≤◌, ℕ, Bool};
ghost use Rattle.rh_core.specs.runs.Progress.{words_made};
ghost use Rattle.rh_growing.specs.Calls.{IsGrowingCall};
ghost use Rattle.uses.specs.Room.{IsRoomy, IsToldShort};

use crate::problem::Problem;
use rh_heap::growing_laws::keeping_up::growing_heaps_keep_up;
use rh_heap::{Command, GrowingHeap, Operand, Refusal, Reply, RootId, Short};
use std::alloc::Allocator;

/// The most words of a space.
const AT_MOST: u32 = 100_000;

/// The words of a cell: a header, a forward word, a number and the rest of the list.
const CELL_WORDS: u32 = 4;

/// Who names the roots.
pub const OWNER: u32 = 1;

const LIST: RootId = RootId { owner: 1, slot: 0 };

const CELL: RootId = RootId { owner: 1, slot: 1 };

/// Pushes cells until one is refused. Answers why the heap had no room for it.
pub fn run<A: Allocator + Copy>(alloc: A) -> Result<Short, Problem> {
    let mut heap = GrowingHeap::new(alloc, AT_MOST)?;
    run_in(&mut heap)
}

/// Pushes them in this heap.
fn run_in<A: Allocator + Copy>(heap: &mut GrowingHeap<A>) -> Result<Short, Problem> {
    match push_all(heap, AT_MOST) {
        Err(Refusal::SpaceFull { .. } | Refusal::LogFull) => heap.short().ok_or(Problem::Answer),
        _ => Err(Problem::Answer),
    }
}

/// Pushes so many cells, unless a call is refused. The first one that is refused for want of room
/// was told so before it: the heap is short, unless the epochs are spent. Nothing is said of what
/// lives.
fn push_all<A: Allocator + Copy>(heap: &mut GrowingHeap<A>, cells: u32) -> Result<(), Refusal>
    ensures { IsRoomy 4 heap.old → IsToldShort heap.new result }
{
    for n in 0..cells {
        push(heap, i64::from(n))?;
    }
    Ok(())
}

/// A new cell stands in front of the list.
fn push<A: Allocator + Copy>(heap: &mut GrowingHeap<A>, number: i64) -> Result<(), Refusal>
    ensures { IsRoomy 4 heap.old → IsRoomy 4 heap.new × IsToldShort heap.new result }
{
    let obj = CELL;
    let (dst, fields) = (CELL, CELL_WORDS - 2);
    call(heap, &Command::Alloc { dst, fields })?;
    let (field, operand) = (0, Operand::Int(number));
    call(
        heap,
        &Command::Store {
            obj,
            field,
            operand,
        },
    )?;
    let (field, operand) = (1, Operand::Root(LIST));
    call(
        heap,
        &Command::Store {
            obj,
            field,
            operand,
        },
    )?;
    let (dst, src) = (LIST, CELL);
    call(heap, &Command::Copy { dst, src })?;
    Ok(())
}

/// One command, as `GrowingHeap::command`. Where objects of so many words are allowed and the log
/// fits the growth, that goes on so, and one that is refused for want of room was told so before.
pub fn call<A: Allocator + Copy>(
    heap: &mut GrowingHeap<A>,
    command: &Command,
) -> Result<Reply, Refusal>
    ensures call { (given : Bool) × IsGrowingCall given heap.old heap.new 1 command.now result }
    ensures room { (words : ℕ) → IsRoomy words heap.old → words_made command.now ≤ words
        → IsRoomy words heap.new × IsToldShort heap.new result }
{
    // Only for the proof: what a heap that grows keeps, and the law that it keeps up.
    let _ = heap.paced().heap().missing();
    let _ = heap.paced().pace();
    let _ = heap.growth();
    growing_heaps_keep_up::<A>();
    heap.command(OWNER, command)
}
