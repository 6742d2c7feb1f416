//! Whole numbers in several fields of one object: `rheap_store_ints`, `rheap_load_ints`.

ghost use Rattle.std.specs.Prelude.{◌≡◌, ◌≢◌, ◌⊎◌, length, Some};
ghost use Rattle.rh_layout.specs.declared.refusal.Refusal.TheVariants.{LogFull};
ghost use Rattle.rh_mutator.specs.Mutator.{graph_of};
ghost use Rattle.rh_mutator.specs.LoadingAll.{field_loads};
ghost use Rattle.rh_mutator.specs.StoringAll.{first_refusal, number_stores, numbers_refusal};
ghost use Rattle.rh_pace.specs.Collecting.{collect_step};
ghost use Rattle.rheap_c.specs.Collected.{IsCollection};
ghost use Rattle.rheap_c.specs.Several.{AreRead, AreReadUnless, AreStored, AreStoredInsisting, AreStoredUnless, AreTold};
ghost use Rattle.rheap_c.specs.Told.{root_of};

use crate::fixed::collecting::collected;
use crate::fixed_part::FixedPart;
use crate::status::{DONE, NOT_OPEN};
use crate::value::RheapRoot;
use rh_layout::RootId;
use rh_mutator::FieldItem;
use rh_pace::PacedHeap;
use std::alloc::Global;

/// The number of the refusal `LogFull`.
pub(crate) const LOG_FULL: u8 = 9;

/// `rheap_store_ints`, on a heap of fixed sizes.
#[inline(always)]
pub(crate) fn store_ints(
    heap: &mut FixedPart,
    alloc: Global,
    owner: u32,
    object: RheapRoot,
    from: u32,
    numbers: &[i64],
) -> u8
    ensures { AreStored heap.old.state heap.new.state owner (root_of object) from numbers.now
        result }
{
    match heap.take(alloc) {
        None => NOT_OPEN,
        Some(mut inner) => {
            let status = stored(&mut inner, owner, object.id(), from, numbers);
            heap.give(inner);
            status
        }
    }
}

/// `rheap_insist_store_ints`, on a heap of fixed sizes.
#[inline(always)]
pub(crate) fn insist_store_ints(
    heap: &mut FixedPart,
    alloc: Global,
    owner: u32,
    object: RheapRoot,
    from: u32,
    numbers: &[i64],
) -> u8
    ensures { AreStoredInsisting heap.old.state heap.new.state owner (root_of object) from
        numbers.now result }
{
    match heap.take(alloc) {
        None => NOT_OPEN,
        Some(mut inner) => {
            let status = stored_insisting(&mut inner, owner, object.id(), from, numbers);
            heap.give(inner);
            status
        }
    }
}

/// `rheap_load_ints`, on a heap of fixed sizes.
#[inline(always)]
pub(crate) fn load_ints(
    heap: &mut FixedPart,
    alloc: Global,
    owner: u32,
    object: RheapRoot,
    from: u32,
    numbers: &mut [i64],
    count: &mut u32,
) -> u8
    ensures { AreTold heap.old.state heap.new.state owner (root_of object) from numbers.old
        numbers.new count.new result }
{
    match heap.take(alloc) {
        None => {
            *count = 0;
            NOT_OPEN
        }
        Some(inner) => {
            let status = told(&inner, owner, object.id(), from, numbers, count);
            heap.give(inner);
            status
        }
    }
}

/// What `PacedHeap::store_items` promises, as one fact, with the status of its answer.
pub(crate) fn stored<T: FieldItem>(
    heap: &mut PacedHeap<Global>,
    owner: u32,
    object: RootId,
    from: u32,
    items: &[T],
) -> u8
    ensures { AreStoredUnless
        (numbers_refusal heap.old.heap.mutators owner object from (T.numbers items.now))
        heap.old heap.new (number_stores owner object from (T.numbers items.now)) result }
{
    match heap.store_items(owner, object, from, items) {
        Ok(()) => DONE,
        Err(refusal) => refusal.number(),
    }
}

/// Stores what items are, after a collection where the log has too few places: it is empty then.
pub(crate) fn stored_insisting<T: FieldItem>(
    heap: &mut PacedHeap<Global>,
    owner: u32,
    object: RootId,
    from: u32,
    items: &[T],
) -> u8
    ensures not_full { result ≢ 9 }
    ensures stored { AreStoredUnless
        (numbers_refusal heap.old.heap.mutators owner object from (T.numbers items.now))
        heap.old heap.new (number_stores owner object from (T.numbers items.now)) result
        ⊎ ((numbers_refusal heap.old.heap.mutators owner object from (T.numbers items.now)
        ≡ Some LogFull)
        × IsCollection heap.old (collect_step heap.old).0 (collect_step heap.old).1
        × AreStoredUnless (numbers_refusal (collect_step heap.old).0.heap.mutators owner object from
        (T.numbers items.now)) (collect_step heap.old).0 heap.new
        (number_stores owner object from (T.numbers items.now)) result) }
{
    let status = stored(heap, owner, object, from, items);
    if status != LOG_FULL {
        return status;
    }
    let _ = collected(heap);
    stored(heap, owner, object, from, items)
}

/// What `PacedHeap::load_all` promises, as one fact, with the status of its answer.
pub(crate) fn told(
    heap: &PacedHeap<Global>,
    owner: u32,
    object: RootId,
    from: u32,
    numbers: &mut [i64],
    count: &mut u32,
) -> u8
    ensures { AreReadUnless (first_refusal (graph_of heap.now.heap.mutators)
        (field_loads owner object from (length numbers.old)))
        (AreRead heap.now owner object from numbers.old numbers.new count.new) numbers.old
        numbers.new count.new result }
{
    match heap.load_all(owner, object, from, numbers) {
        Ok(read) => {
            *count = read;
            DONE
        }
        Err(refusal) => {
            *count = 0;
            refusal.number()
        }
    }
}
