//! Collecting on demand: `rheap_collect`, `rheap_increment`.

ghost use Rattle.std.specs.Prelude.{◌≡◌};
ghost use Rattle.rheap_c.specs.Collected.{Collects, Increments, IsCollection, IsIncrement, collect_status};

use crate::fixed_part::FixedPart;
use crate::status::{DONE, EPOCHS_SPENT, NOT_OPEN};
use rh_core::Flipped;
use rh_pace::{EpochsSpent, PacedHeap};
use std::alloc::Global;

/// `rheap_collect`, on a heap of fixed sizes.
#[inline(always)]
pub(crate) fn collect(heap: &mut FixedPart, alloc: Global) -> u8
    ensures { Collects heap.old.state heap.new.state result }
{
    match heap.take(alloc) {
        None => NOT_OPEN,
        Some(mut inner) => {
            let told = collected(&mut inner);
            heap.give(inner);
            status_of(&told)
        }
    }
}

/// `rheap_increment`, on a heap of fixed sizes.
#[inline(always)]
pub(crate) fn increment(heap: &mut FixedPart, alloc: Global) -> u8
    ensures { Increments heap.old.state heap.new.state result }
{
    match heap.take(alloc) {
        None => NOT_OPEN,
        Some(mut inner) => {
            incremented(&mut inner);
            heap.give(inner);
            DONE
        }
    }
}

/// What `PacedHeap::collect` promises, as one fact.
pub(crate) fn collected(heap: &mut PacedHeap<Global>) -> Result<Flipped, EpochsSpent>
    ensures { IsCollection heap.old heap.new result }
{
    heap.collect()
}

/// What `PacedHeap::increment` promises, as one fact.
fn incremented(heap: &mut PacedHeap<Global>)
    ensures { IsIncrement heap.old heap.new }
{
    let _ = heap.increment();
}

/// The status of a collection.
pub(crate) fn status_of(told: &Result<Flipped, EpochsSpent>) -> u8
    ensures { result ≡ collect_status told.now }
{
    match told {
        Ok(_) => DONE,
        Err(_) => EPOCHS_SPENT,
    }
}
