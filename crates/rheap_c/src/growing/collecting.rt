//! Collecting on demand, on a heap that grows.

ghost use Rattle.std.specs.Prelude.{Bool};
ghost use Rattle.rheap_c.specs.Grown.{GrownCollects, GrownIncrements, IsGrownCollection, IsGrownIncrement};

use crate::fixed::collecting::status_of;
use crate::growing_part::GrowingPart;
use crate::status::{DONE, NOT_OPEN};
use rh_core::Flipped;
use rh_growing::GrowingHeap;
use rh_pace::EpochsSpent;
use std::alloc::Global;

/// `rheap_collect`, on a heap that grows.
#[inline(never)]
pub(crate) fn collect(heap: &mut GrowingPart, alloc: Global) -> u8
    ensures { GrownCollects heap.old.state heap.new.state result }
{
    match heap.take(alloc) {
        None => NOT_OPEN,
        Some(mut inner) => {
            let told = collected(&mut inner);
            heap.give(inner);
            status_of(&told)
        }
    }
}

/// `rheap_increment`, on a heap that grows.
#[inline(never)]
pub(crate) fn increment(heap: &mut GrowingPart, alloc: Global) -> u8
    ensures { GrownIncrements heap.old.state heap.new.state result }
{
    match heap.take(alloc) {
        None => NOT_OPEN,
        Some(mut inner) => {
            incremented(&mut inner);
            heap.give(inner);
            DONE
        }
    }
}

/// What `GrowingHeap::collect` promises, as one fact.
pub(crate) fn collected(heap: &mut GrowingHeap<Global>) -> Result<Flipped, EpochsSpent>
    ensures { (given : Bool) × IsGrownCollection given heap.old heap.new result }
{
    heap.collect()
}

/// What `GrowingHeap::increment` promises, as one fact.
fn incremented(heap: &mut GrowingHeap<Global>)
    ensures { (given : Bool) × IsGrownIncrement given heap.old heap.new }
{
    let _ = heap.increment();
}
