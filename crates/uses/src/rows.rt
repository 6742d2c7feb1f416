//! Numbers that are stored in a row by one call. What the call says of time and room carries to who
//! calls it, as of a single command.

ghost use Rattle.std.specs.Prelude.{◌≡◌, ◌≢◌, ◌+◌, ◌≤◌, ℕ, length, Err, IfOk};
ghost use Rattle.rh_layout.specs.declared.refusal.Refusal.TheVariants.{LogFull};
ghost use Rattle.rh_model.specs.Plain.{PlainHeap};
ghost use Rattle.rh_mutator.specs.StoringAll.{number_stores};
ghost use Rattle.rh_pace.specs.InTime.{IsInTime};
ghost use Rattle.rh_pace.specs.Pace.{lag_of};
ghost use Rattle.rh_pace.specs.PlainBounds.{AreBounded, ServesWithin, plain_after};

use crate::problem::Problem;
use rh_heap::{PacedHeap, Refusal, RootId, Sizes};
use std::alloc::Allocator;

/// Objects of four fields, and one root.
const SIZES: Sizes = Sizes {
    words: 256,
    biggest: 6,
    ratio: 32,
    owners: 1,
    slots: 1,
};

/// The root that holds the object.
const OBJECT: RootId = RootId { owner: 0, slot: 0 };

/// Stores four numbers in an object, and reads them. Answers how many were read.
pub fn run<A: Allocator + Copy>(alloc: A) -> Result<u32, Problem> {
    let mut heap = PacedHeap::sized(alloc, SIZES)?;
    Ok(run_in(&mut heap)?)
}

/// Stores and reads them in this heap.
fn run_in<A: Allocator + Copy>(heap: &mut PacedHeap<A>) -> Result<u32, Refusal> {
    heap.alloc(0, OBJECT, 4)?;
    keep_row(heap, OBJECT, &[1, 2, 3, 5])?;
    let mut numbers = [0; 4];
    heap.load_all(0, OBJECT, 0, &mut numbers)
}

/// Stores the numbers from field 0 on. In time the log is never too full for them, where it keeps as
/// many entries beyond the lag. A heap that serves commands serves as many fewer after them.
fn keep_row<A: Allocator + Copy>(
    heap: &mut PacedHeap<A>,
    object: RootId,
    numbers: &[i64],
) -> Result<(), Refusal>
    ensures room { (live biggest : ℕ) → IsInTime live biggest heap.old
        → lag_of heap.old.pace biggest + length numbers.now
        ≤ heap.old.heap.mutators.config.log_limit → result ≢ Err LogFull }
    ensures served { IfOk result (λ _. (live biggest n : ℕ) (p : PlainHeap)
        → ServesWithin live biggest (length numbers.now + n) p heap.old
        → AreBounded live biggest p (number_stores 0 object 0 numbers.now)
        → ServesWithin live biggest n (plain_after p (number_stores 0 object 0 numbers.now))
        heap.new) }
{
    heap.store_all(0, object, 0, numbers)
}
