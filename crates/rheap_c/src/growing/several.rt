//! Whole numbers in several fields of one object, on a heap that grows.

ghost use Rattle.rheap_c.specs.Grown.{AreGrownNumbers, AreGrownNumbersInsisting, AreGrownStored, AreGrownStoredInsisting, OnPaced};
ghost use Rattle.rheap_c.specs.Several.{AreTold};
ghost use Rattle.rheap_c.specs.Told.{root_of};

use crate::fixed::several::{LOG_FULL, told};
use crate::growing::collecting::collected;
use crate::growing_part::GrowingPart;
use crate::status::{DONE, NOT_OPEN};
use crate::value::RheapRoot;
use rh_growing::GrowingHeap;
use rh_layout::RootId;
use std::alloc::Global;

/// `rheap_store_ints`, on a heap that grows.
#[inline(never)]
pub(crate) fn store_ints(
    heap: &mut GrowingPart,
    alloc: Global,
    owner: u32,
    object: RheapRoot,
    from: u32,
    numbers: &[i64],
) -> u8
    ensures { AreGrownStored heap.old.state heap.new.state owner (root_of object) from numbers.now
        result }
{
    match heap.take(alloc) {
        None => NOT_OPEN,
        Some(mut inner) => {
            let status = stored(&mut inner, owner, object.id(), from, numbers);
            heap.give(inner);
            status
        }
    }
}

/// `rheap_insist_store_ints`, on a heap that grows.
#[inline(never)]
pub(crate) fn insist_store_ints(
    heap: &mut GrowingPart,
    alloc: Global,
    owner: u32,
    object: RheapRoot,
    from: u32,
    numbers: &[i64],
) -> u8
    ensures { AreGrownStoredInsisting heap.old.state heap.new.state owner (root_of object) from
        numbers.now result }
{
    match heap.take(alloc) {
        None => NOT_OPEN,
        Some(mut inner) => {
            let status = stored_insisting(&mut inner, owner, object.id(), from, numbers);
            heap.give(inner);
            status
        }
    }
}

/// `rheap_load_ints`, on a heap that grows.
#[inline(never)]
pub(crate) fn load_ints(
    heap: &mut GrowingPart,
    alloc: Global,
    owner: u32,
    object: RheapRoot,
    from: u32,
    numbers: &mut [i64],
    count: &mut u32,
) -> u8
    ensures { OnPaced (λ old new. AreTold old new owner (root_of object) from numbers.old
        numbers.new count.new result) heap.old.state heap.new.state }
{
    match heap.take(alloc) {
        None => {
            *count = 0;
            NOT_OPEN
        }
        Some(inner) => {
            let status = told(inner.paced(), owner, object.id(), from, numbers, count);
            heap.give(inner);
            status
        }
    }
}

/// What `GrowingHeap::store_all` promises, as one fact, with the status of its answer.
fn stored(
    heap: &mut GrowingHeap<Global>,
    owner: u32,
    object: RootId,
    from: u32,
    numbers: &[i64],
) -> u8
    ensures { AreGrownNumbers heap.old heap.new owner object from numbers.now result }
{
    match heap.store_all(owner, object, from, numbers) {
        Ok(()) => DONE,
        Err(refusal) => refusal.number(),
    }
}

/// Stores so, after a collection where the log has too few places: it is empty then.
fn stored_insisting(
    heap: &mut GrowingHeap<Global>,
    owner: u32,
    object: RootId,
    from: u32,
    numbers: &[i64],
) -> u8
    ensures { AreGrownNumbersInsisting heap.old heap.new owner object from numbers.now result }
{
    let status = stored(heap, owner, object, from, numbers);
    if status != LOG_FULL {
        return status;
    }
    let _ = collected(heap);
    stored(heap, owner, object, from, numbers)
}
