//! Roots in a row, and paths: `rheap_load_roots`, `rheap_store_roots`, `rheap_load_path`,
//! `rheap_drop_roots`.

ghost use Rattle.std.specs.Prelude.{length};
ghost use Rattle.rheap_c.specs.RootRows.{IsPathLoaded, IsRowDone, IsRowInsisted, IsRowLoaded, path_loads, row_drops, row_loads, row_stores};
ghost use Rattle.rheap_c.specs.Told.{root_of};
ghost use Rattle.rheap_c.specs.Grown.{IsGrownRowDone, IsGrownRowInsisted, CallsOnPaced};
ghost use Rattle.rheap_c.specs.Handle.{Calls};

use crate::handle::Rheap;
use crate::value::{RheapRoot, RheapValue};
use crate::{fixed, growing};
use std::alloc::Global;

/// The roots from `first` on take the values of the fields from `from` on of the object that `src`
/// names: as many as `values` has room for, or up to the first load that is refused. `values` tells
/// those that were loaded, and `count` how many.
#[unsafe(no_mangle)]
pub extern "C" fn rheap_load_roots(
    heap: &mut Rheap,
    alloc: Global,
    owner: u32,
    first: RheapRoot,
    src: RheapRoot,
    from: u32,
    values: &mut [RheapValue],
    count: &mut usize,
) -> u8
    ensures { CallsOnPaced (λ old new. IsRowLoaded old new (row_loads owner (root_of first) (root_of
        src) from (length values.old)) values.old values.new count.new result) heap.old heap.new }
{
    if heap.fixed.is_empty() {
        return growing::root_rows::load_roots(
            &mut heap.growing,
            alloc,
            owner,
            first,
            src,
            from,
            values,
            count,
        );
    }
    fixed::root_rows::load_roots(
        &mut heap.fixed,
        alloc,
        owner,
        first,
        src,
        from,
        values,
        count,
    )
}

/// The root `dst` takes what the last field of a path holds: the first field is one of the object
/// that `src` names, and each further one is of the object that the field before it holds. `count`
/// tells how many were loaded, up to the first load that is refused, and `value` what `dst` took
/// last.
#[unsafe(no_mangle)]
pub extern "C" fn rheap_load_path(
    heap: &mut Rheap,
    alloc: Global,
    owner: u32,
    dst: RheapRoot,
    src: RheapRoot,
    fields: &[u32],
    count: &mut usize,
    value: &mut RheapValue,
) -> u8
    ensures { CallsOnPaced (λ old new. IsPathLoaded old new (path_loads owner (root_of dst) (root_of
        src) fields.now) count.new value.new result) heap.old heap.new }
{
    if heap.fixed.is_empty() {
        return growing::root_rows::load_path(
            &mut heap.growing,
            alloc,
            owner,
            dst,
            src,
            fields,
            count,
            value,
        );
    }
    fixed::root_rows::load_path(
        &mut heap.fixed,
        alloc,
        owner,
        dst,
        src,
        fields,
        count,
        value,
    )
}

/// The fields from `from` on of the object that `object` names take what the roots from `first` on
/// hold: `length` of them, or up to the first store that is refused. `count` tells how many were
/// stored.
#[unsafe(no_mangle)]
pub extern "C" fn rheap_store_roots(
    heap: &mut Rheap,
    alloc: Global,
    owner: u32,
    object: RheapRoot,
    from: u32,
    first: RheapRoot,
    length: usize,
    count: &mut usize,
) -> u8
    ensures { Calls (λ old new. IsRowDone old new (row_stores owner (root_of object) from (root_of
        first) length) count.new result)
        (λ old new. IsGrownRowDone old new (row_stores owner (root_of object) from (root_of first)
        length) count.new result) heap.old heap.new }
{
    if heap.fixed.is_empty() {
        return growing::root_rows::store_roots(
            &mut heap.growing,
            alloc,
            owner,
            object,
            from,
            first,
            length,
            count,
        );
    }
    fixed::root_rows::store_roots(
        &mut heap.fixed,
        alloc,
        owner,
        object,
        from,
        first,
        length,
        count,
    )
}

/// As `rheap_store_roots`, where each store is insisted on: it is tried again after a collection
/// where the log is full.
#[unsafe(no_mangle)]
pub extern "C" fn rheap_insist_store_roots(
    heap: &mut Rheap,
    alloc: Global,
    owner: u32,
    object: RheapRoot,
    from: u32,
    first: RheapRoot,
    length: usize,
    count: &mut usize,
) -> u8
    ensures { Calls (λ old new. IsRowInsisted old new (row_stores owner (root_of object) from
        (root_of first) length) count.new result)
        (λ old new. IsGrownRowInsisted old new (row_stores owner (root_of object) from (root_of
        first) length) count.new result) heap.old heap.new }
{
    if heap.fixed.is_empty() {
        return growing::root_rows::insist_store_roots(
            &mut heap.growing,
            alloc,
            owner,
            object,
            from,
            first,
            length,
            count,
        );
    }
    fixed::root_rows::insist_store_roots(
        &mut heap.fixed,
        alloc,
        owner,
        object,
        from,
        first,
        length,
        count,
    )
}

/// The roots from `first` on become nil: `length` of them, or up to the first that is refused.
/// `count` tells how many did.
#[unsafe(no_mangle)]
pub extern "C" fn rheap_drop_roots(
    heap: &mut Rheap,
    alloc: Global,
    owner: u32,
    first: RheapRoot,
    length: usize,
    count: &mut usize,
) -> u8
    ensures { CallsOnPaced (λ old new. IsRowDone old new (row_drops owner (root_of first) length)
        count.new result) heap.old heap.new }
{
    if heap.fixed.is_empty() {
        return growing::root_rows::drop_roots(
            &mut heap.growing,
            alloc,
            owner,
            first,
            length,
            count,
        );
    }
    fixed::root_rows::drop_roots(&mut heap.fixed, alloc, owner, first, length, count)
}
