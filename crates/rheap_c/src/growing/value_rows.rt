//! Values of all kinds in a row, and roots in a row whose values nobody looks at, on a heap that
//! grows.

ghost use Rattle.std.specs.Prelude.{◌≡◌, ◌≢◌};
ghost use Rattle.rh_pace.specs.Paced.{paced_step};
ghost use Rattle.rh_growing.specs.Growing.{with_paced};
ghost use Rattle.rheap_c.specs.Grown.{DoInTurn, DoesOnce, InsistsOnce, IsGrownRowDone, IsGrownRowInsisted, OnPaced};
ghost use Rattle.rheap_c.specs.Making.{have_kinds};
ghost use Rattle.rheap_c.specs.RootRows.{IsRowDone, IsRowEnd, done_until, row_loads};
ghost use Rattle.rheap_c.specs.Told.{root_of};
ghost use Rattle.rheap_c.specs.ValueRows.{OfKinds, value_stores};

use crate::fixed::root_rows::{next_index, next_root};
use crate::fixed::value_rows::are_known;
use crate::growing::insisting::insist_store_in;
use crate::growing::root_rows::load;
use crate::growing_part::GrowingPart;
use crate::init::RheapInit;
use crate::status::{BAD_KIND, DONE, NOT_OPEN};
use crate::value::RheapRoot;
use rh_growing::GrowingHeap;
use rh_layout::RootId;
use std::alloc::Global;

/// `rheap_store_row`, on a heap that grows.
#[inline(never)]
pub(crate) fn store_row(
    heap: &mut GrowingPart,
    alloc: Global,
    owner: u32,
    object: RheapRoot,
    from: u32,
    values: &[RheapInit],
    count: &mut usize,
) -> u8
    ensures { OfKinds (have_kinds values.now) (IsGrownRowDone heap.old.state heap.new.state
        (value_stores owner (root_of object) from values.now) count.new result)
        heap.old.state heap.new.state count.new result }
{
    if heap.is_empty() {
        *count = 0;
        return NOT_OPEN;
    }
    if are_known(values) {
        stored_row(heap, alloc, owner, object, from, values, count)
    } else {
        *count = 0;
        BAD_KIND
    }
}

/// `rheap_insist_store_row`, on a heap that grows.
#[inline(never)]
pub(crate) fn insist_store_row(
    heap: &mut GrowingPart,
    alloc: Global,
    owner: u32,
    object: RheapRoot,
    from: u32,
    values: &[RheapInit],
    count: &mut usize,
) -> u8
    ensures log { result ≢ 9 }
    ensures row { OfKinds (have_kinds values.now) (IsGrownRowInsisted heap.old.state heap.new.state
        (value_stores owner (root_of object) from values.now) count.new result)
        heap.old.state heap.new.state count.new result }
{
    if heap.is_empty() {
        *count = 0;
        return NOT_OPEN;
    }
    if are_known(values) {
        insisted_row(heap, alloc, owner, object, from, values, count)
    } else {
        *count = 0;
        BAD_KIND
    }
}

/// `rheap_load_roots_untold`, on a heap that grows.
#[inline(never)]
pub(crate) fn load_roots_untold(
    heap: &mut GrowingPart,
    alloc: Global,
    owner: u32,
    first: RheapRoot,
    src: RheapRoot,
    from: u32,
    length: usize,
    count: &mut usize,
) -> u8
    ensures { OnPaced (λ old new. IsRowDone old new (row_loads owner (root_of first) (root_of src)
        from length) count.new result) heap.old.state heap.new.state }
{
    match heap.take(alloc) {
        None => {
            *count = 0;
            NOT_OPEN
        }
        Some(mut inner) => {
            let status = loaded(&mut inner, owner, first.id(), src.id(), from, length, count);
            heap.give(inner);
            status
        }
    }
}

/// Stores these values, whose kinds there are, to fields.
fn stored_row(
    heap: &mut GrowingPart,
    alloc: Global,
    owner: u32,
    object: RheapRoot,
    from: u32,
    values: &[RheapInit],
    count: &mut usize,
) -> u8
    ensures { IsGrownRowDone heap.old.state heap.new.state
        (value_stores owner (root_of object) from values.now) count.new result }
{
    match heap.take(alloc) {
        None => {
            *count = 0;
            NOT_OPEN
        }
        Some(mut inner) => {
            let status = stored(&mut inner, owner, object.id(), from, values, count);
            heap.give(inner);
            status
        }
    }
}

/// Stores them, and insists on each store.
fn insisted_row(
    heap: &mut GrowingPart,
    alloc: Global,
    owner: u32,
    object: RheapRoot,
    from: u32,
    values: &[RheapInit],
    count: &mut usize,
) -> u8
    ensures log { result ≢ 9 }
    ensures row { IsGrownRowInsisted heap.old.state heap.new.state
        (value_stores owner (root_of object) from values.now) count.new result }
{
    match heap.take(alloc) {
        None => {
            *count = 0;
            NOT_OPEN
        }
        Some(mut inner) => {
            let status = insisted(&mut inner, owner, object.id(), from, values, count);
            heap.give(inner);
            status
        }
    }
}

/// Stores these values to fields.
fn stored(
    heap: &mut GrowingHeap<Global>,
    owner: u32,
    object: RootId,
    from: u32,
    values: &[RheapInit],
    count: &mut usize,
) -> u8
    ensures { DoInTurn DoesOnce heap.old heap.new (value_stores owner object from values.now)
        count.new result }
{
    let mut field = from;
    for at in 0..values.len() {
        let operand = values[at].operand();
        match heap.store(owner, object, field, operand) {
            Ok(_) => {}
            Err(why) => {
                *count = at;
                return why.number();
            }
        }
        field = next_index(field);
    }
    *count = values.len();
    DONE
}

/// Stores these values to fields, and insists on each store.
fn insisted(
    heap: &mut GrowingHeap<Global>,
    owner: u32,
    object: RootId,
    from: u32,
    values: &[RheapInit],
    count: &mut usize,
) -> u8
    ensures end { DoInTurn InsistsOnce heap.old heap.new (value_stores owner object from values.now)
        count.new result }
    // The log is never full.
    ensures log { result ≢ 9 }
{
    let mut field = from;
    for at in 0..values.len() {
        let operand = values[at].operand();
        match insist_store_in(heap, owner, object, field, operand) {
            Ok(_) => {}
            Err(why) => {
                *count = at;
                return why.number();
            }
        }
        field = next_index(field);
    }
    *count = values.len();
    DONE
}

/// Loads so many fields into roots.
fn loaded(
    heap: &mut GrowingHeap<Global>,
    owner: u32,
    first: RootId,
    src: RootId,
    from: u32,
    length: usize,
    count: &mut usize,
) -> u8
    ensures rest { heap.new ≡ with_paced heap.old heap.new.paced }
    ensures end { IsRowEnd (done_until paced_step heap.old.paced
        (row_loads owner first src from length)) heap.new.paced count.new result }
{
    let mut dst = first;
    let mut field = from;
    for at in 0..length {
        match load(heap, owner, dst, src, field) {
            Ok(_) => {}
            Err(why) => {
                *count = at;
                return why.number();
            }
        }
        dst = next_root(dst);
        field = next_index(field);
    }
    *count = length;
    DONE
}
