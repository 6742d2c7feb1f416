//! A loop that makes one object after the other, and is never refused one. Each call says itself
//! that it is served (`IsPacedCall`), so that no law of collecting is called here. That no more than
//! one object is reached, on a heap that never moves its objects, is a law of
//! `rh_pace::laws::worked`.

ghost use Rattle.std.specs.Prelude.{◌≢◌, IfErr, IsOk};
ghost use Rattle.rh_layout.specs.declared.refusal.Refusal.{Refusal as RefusalState};
ghost use Rattle.uses.specs.Renewal.{Renews};
ghost use Rattle.uses.specs.declared.problem.Problem.TheVariants as problems;

use crate::problem::Problem;
use rh_heap::{PacedHeap, Refusal, RootId, Sizes};
use rh_pace::laws::worked::room_for_two_objects_is_not_idle;
use std::alloc::Allocator;

/// The words of an object: a header, a forward word and its fields.
const OBJECT_WORDS: u32 = 10;

/// One root is all that the program has.
const SIZES: Sizes = Sizes {
    words: 256,
    biggest: OBJECT_WORDS,
    ratio: 32,
    owners: 1,
    slots: 1,
};

/// The root that holds the object.
const OBJECT: RootId = RootId { owner: 0, slot: 0 };

/// Makes so many objects, each in the place of the last. Answers how many cycles these calls took.
/// None of them is refused, for want of room or for anything else.
pub fn run<A: Allocator + Copy>(alloc: A, rounds: u32) -> Result<u64, Problem>
    ensures { IfErr result (λ problem. (refusal : RefusalState)
        → problem ≢ problems.Refused refusal) }
{
    // Only for the proof: no more words are reached on a plain heap than one object has.
    room_for_two_objects_is_not_idle();
    let mut heap = PacedHeap::sized(alloc, SIZES)?;
    renew(&mut heap, rounds)?;
    Ok(heap.stat().flips)
}

/// Makes so many objects, where the heap serves as many.
fn renew<A: Allocator + Copy>(heap: &mut PacedHeap<A>, rounds: u32) -> Result<(), Refusal>
    ensures { Renews rounds heap.old → IsOk result }
{
    for _ in 0..rounds {
        heap.alloc(0, OBJECT, OBJECT_WORDS - 2)?;
    }
    Ok(())
}
