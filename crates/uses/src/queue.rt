//! A queue that lives in 45 % of its space: cells join behind the last one and leave from the
//! front, and no call is ever refused.

ghost use Rattle.std.specs.Prelude.{◌≡◌, ◌<◌, ◌^◌, ◌++◌, ℕ, All, List, IfErr, IfOk, IsOk};
ghost use Rattle.rh_layout.specs.declared.command.Command.{Command};
ghost use Rattle.rh_core.specs.declared.errors.HeapError.TheVariants as heap_errors;
ghost use Rattle.rh_pace.specs.InTime.{paced_after, paced_replies};
ghost use Rattle.rh_pace.specs.Paced.{PacedState};
ghost use Rattle.rh_pace.specs.Worked.{first_cell, one_joins, one_leaves, queue_calls, times};
ghost use Rattle.uses.specs.Queue.{IsServed, LeadTo, queue_heap};
ghost use Rattle.uses.specs.declared.problem.Problem.TheVariants as problems;

use crate::problem::Problem;
use rh_heap::{Operand, Pace, PacedHeap, Refusal, RootId};
use rh_pace::laws::no_limits::within_its_bounds_a_program_meets_no_limit;
use rh_pace::laws::worked::a_queue_in_45_percent_of_the_space_has_room;
use std::alloc::Allocator;

const WORDS: u32 = 2218;

const LIVE: u32 = 1000;

const RATIO: u32 = 8;

/// The words of a cell: a header, a forward word, a value and the cell behind it.
const CELL_WORDS: u32 = 4;

/// The cells beside the first one: with one that joins they take the live words.
const CELLS: u32 = 248;

const OWNER: u32 = 1;

const FIRST: RootId = RootId { owner: 1, slot: 0 };

const LAST: RootId = RootId { owner: 1, slot: 1 };

const NEW: RootId = RootId { owner: 1, slot: 2 };

/// Fills the queue, and lets one cell join and one leave so many times. Answers how many cycles
/// these calls take. None of them is refused, for want of room or for anything else (`accepted`):
/// memory refused for the heap is all that can go wrong.
pub fn run<A: Allocator + Copy>(alloc: A, rounds: u32) -> Result<u64, Problem>
    ensures cycles { IfOk result (λ cycles.
        cycles ≡ (paced_after queue_heap (queue_calls 248 rounds)).heap.flips) }
    ensures accepted { All (λ reply. IsOk reply)
        (paced_replies queue_heap (queue_calls 248 rounds)) }
    ensures memory { IfErr result (λ problem. problem ≡ problems.Heap heap_errors.OutOfMemory) }
{
    // Only for the proof: the pace is the queue's, and no call is refused.
    a_queue_in_45_percent_of_the_space_has_room::<A>();
    no_call_of_the_queue_is_refused::<A>();
    let pace = Pace::of(WORDS, LIVE, CELL_WORDS, RATIO)?;
    let mut heap = PacedHeap::new(alloc, pace.config(WORDS, RATIO, 2, 3), pace)?;
    play(&mut heap, rounds)?;
    Ok(heap.stat().flips)
}

/// The plain heap accepts each call of the queue. The queue stays within the bounds of its pace, the
/// log holds its lag, and epochs and numbers are left for all calls. So the heap answers as the
/// plain heap does, and accepts each.
fn no_call_of_the_queue_is_refused<A: Allocator + Copy>()
    ensures { (rounds : ℕ) → rounds < 2 ^ 32
        → All (λ reply. IsOk reply) (paced_replies queue_heap (queue_calls 248 rounds)) }
{
    a_queue_in_45_percent_of_the_space_has_room::<A>();
    within_its_bounds_a_program_meets_no_limit::<A>();
}

/// The queue is filled, and then one joins and one leaves so many times.
fn play<A: Allocator + Copy>(heap: &mut PacedHeap<A>, rounds: u32) -> Result<(), Refusal>
    ensures { (last : PacedState) → LeadTo heap.old (queue_calls 248 rounds) last
        → IsServed result (heap.new ≡ last) }
{
    start(heap)?;
    fill(heap)?;
    turn(heap, rounds)?;
    Ok(())
}

/// The cells beside the first one join.
fn fill<A: Allocator + Copy>(heap: &mut PacedHeap<A>) -> Result<(), Refusal>
    ensures { (rest : List (ℕ × Command)) (last : PacedState)
        → LeadTo heap.old (times 248 one_joins ++ rest) last
        → IsServed result (LeadTo heap.new rest last) }
{
    for _ in 0..CELLS {
        join(heap)?;
    }
    Ok(())
}

/// One joins and one leaves, so many times.
fn turn<A: Allocator + Copy>(heap: &mut PacedHeap<A>, rounds: u32) -> Result<(), Refusal>
    ensures { (rest : List (ℕ × Command)) (last : PacedState)
        → LeadTo heap.old (times rounds (one_joins ++ one_leaves) ++ rest) last
        → IsServed result (LeadTo heap.new rest last) }
{
    for _ in 0..rounds {
        join(heap)?;
        leave(heap)?;
    }
    Ok(())
}

/// The first cell is made.
fn start<A: Allocator + Copy>(heap: &mut PacedHeap<A>) -> Result<(), Refusal>
    ensures { (rest : List (ℕ × Command)) (last : PacedState)
        → LeadTo heap.old (first_cell ++ rest) last
        → IsServed result (LeadTo heap.new rest last) }
{
    heap.alloc(OWNER, FIRST, CELL_WORDS - 2)?;
    heap.copy(OWNER, LAST, FIRST)?;
    Ok(())
}

/// A new cell joins behind the last one.
fn join<A: Allocator + Copy>(heap: &mut PacedHeap<A>) -> Result<(), Refusal>
    ensures { (rest : List (ℕ × Command)) (last : PacedState)
        → LeadTo heap.old (one_joins ++ rest) last
        → IsServed result (LeadTo heap.new rest last) }
{
    heap.alloc(OWNER, NEW, CELL_WORDS - 2)?;
    heap.store(OWNER, LAST, 1, Operand::Root(NEW))?;
    heap.copy(OWNER, LAST, NEW)?;
    heap.drop(OWNER, NEW)?;
    Ok(())
}

/// The first one leaves.
fn leave<A: Allocator + Copy>(heap: &mut PacedHeap<A>) -> Result<(), Refusal>
    ensures { (rest : List (ℕ × Command)) (last : PacedState)
        → LeadTo heap.old (one_leaves ++ rest) last
        → IsServed result (LeadTo heap.new rest last) }
{
    heap.load(OWNER, FIRST, FIRST, 1)?;
    Ok(())
}
