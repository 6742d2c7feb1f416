//! Values of all kinds in a row: `rheap_store_row`, `rheap_insist_store_row`. And roots in a row
//! whose values nobody looks at: `rheap_load_roots_untold`.

ghost use Rattle.std.specs.Prelude.{◌≢◌};
ghost use Rattle.rheap_c.specs.Grown.{CallsOnPaced, IsGrownRowDone, IsGrownRowInsisted};
ghost use Rattle.rheap_c.specs.Handle.{Calls};
ghost use Rattle.rheap_c.specs.Making.{have_kinds};
ghost use Rattle.rheap_c.specs.RootRows.{IsRowDone, IsRowInsisted, row_loads};
ghost use Rattle.rheap_c.specs.Told.{root_of};
ghost use Rattle.rheap_c.specs.ValueRows.{OfKinds, value_stores};

use crate::handle::Rheap;
use crate::init::RheapInit;
use crate::value::RheapRoot;
use crate::{fixed, growing};
use std::alloc::Global;

/// The fields from `from` on of the object that `object` names take these values, or those up to
/// the first store that is refused. `count` tells how many were stored. Where one is of a kind that
/// there isn't, none is.
#[unsafe(no_mangle)]
pub extern "C" fn rheap_store_row(
    heap: &mut Rheap,
    alloc: Global,
    owner: u32,
    object: RheapRoot,
    from: u32,
    values: &[RheapInit],
    count: &mut usize,
) -> u8
    ensures { Calls (λ old new. OfKinds (have_kinds values.now) (IsRowDone old new (value_stores
        owner (root_of object) from values.now) count.new result) old new count.new result)
        (λ old new. OfKinds (have_kinds values.now) (IsGrownRowDone old new (value_stores owner
        (root_of object) from values.now) count.new result) old new count.new result) heap.old
        heap.new }
{
    if heap.fixed.is_empty() {
        return growing::value_rows::store_row(
            &mut heap.growing,
            alloc,
            owner,
            object,
            from,
            values,
            count,
        );
    }
    fixed::value_rows::store_row(&mut heap.fixed, owner, object, from, values, count)
}

/// As `rheap_store_row`, where each store is insisted on: it is tried again after a collection
/// where the log is full.
#[unsafe(no_mangle)]
pub extern "C" fn rheap_insist_store_row(
    heap: &mut Rheap,
    alloc: Global,
    owner: u32,
    object: RheapRoot,
    from: u32,
    values: &[RheapInit],
    count: &mut usize,
) -> u8
    ensures log { result ≢ 9 }
    ensures row { Calls (λ old new. OfKinds (have_kinds values.now) (IsRowInsisted old new
        (value_stores owner (root_of object) from values.now) count.new result) old new count.new
        result)
        (λ old new. OfKinds (have_kinds values.now) (IsGrownRowInsisted old new (value_stores owner
        (root_of object) from values.now) count.new result) old new count.new result) heap.old
        heap.new }
{
    if heap.fixed.is_empty() {
        return growing::value_rows::insist_store_row(
            &mut heap.growing,
            alloc,
            owner,
            object,
            from,
            values,
            count,
        );
    }
    fixed::value_rows::insist_store_row(&mut heap.fixed, owner, object, from, values, count)
}

/// As `rheap_load_roots`, of so many fields, but no value is told.
#[unsafe(no_mangle)]
pub extern "C" fn rheap_load_roots_untold(
    heap: &mut Rheap,
    alloc: Global,
    owner: u32,
    first: RheapRoot,
    src: RheapRoot,
    from: u32,
    length: usize,
    count: &mut usize,
) -> u8
    ensures { CallsOnPaced (λ old new. IsRowDone old new (row_loads owner (root_of first) (root_of
        src) from length) count.new result) heap.old heap.new }
{
    if heap.fixed.is_empty() {
        return growing::value_rows::load_roots_untold(
            &mut heap.growing,
            alloc,
            owner,
            first,
            src,
            from,
            length,
            count,
        );
    }
    fixed::value_rows::load_roots_untold(&mut heap.fixed, owner, first, src, from, length, count)
}
