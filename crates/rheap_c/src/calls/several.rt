//! Whole numbers in several fields of one object: `rheap_store_ints`, `rheap_load_ints`.

ghost use Rattle.rheap_c.specs.Several.{AreStored, AreStoredInsisting, AreTold};
ghost use Rattle.rheap_c.specs.Told.{root_of};
ghost use Rattle.rheap_c.specs.Grown.{AreGrownStored, AreGrownStoredInsisting, CallsOnPaced};
ghost use Rattle.rheap_c.specs.Handle.{Calls};

use crate::handle::Rheap;
use crate::value::RheapRoot;
use crate::{fixed, growing};
use std::alloc::Global;

/// The fields from `from` on, counted from 0, of the object that `object` names take whole numbers,
/// all of them or none, as `PacedHeap::store_all`. In a cycle the log needs a place for each.
#[unsafe(no_mangle)]
pub extern "C" fn rheap_store_ints(
    heap: &mut Rheap,
    alloc: Global,
    owner: u32,
    object: RheapRoot,
    from: u32,
    numbers: &[i64],
) -> u8
    ensures { Calls (λ old new. AreStored old new owner (root_of object) from numbers.now result)
        (λ old new. AreGrownStored old new owner (root_of object) from numbers.now result) heap.old
        heap.new }
{
    if heap.fixed.is_empty() {
        return growing::several::store_ints(&mut heap.growing, alloc, owner, object, from, numbers);
    }
    fixed::several::store_ints(&mut heap.fixed, alloc, owner, object, from, numbers)
}

/// As `rheap_store_ints`, after a collection where the log has too few places.
#[unsafe(no_mangle)]
pub extern "C" fn rheap_insist_store_ints(
    heap: &mut Rheap,
    alloc: Global,
    owner: u32,
    object: RheapRoot,
    from: u32,
    numbers: &[i64],
) -> u8
    ensures { Calls (λ old new. AreStoredInsisting old new owner (root_of object) from numbers.now
        result)
        (λ old new. AreGrownStoredInsisting old new owner (root_of object) from numbers.now result)
        heap.old heap.new }
{
    if heap.fixed.is_empty() {
        return growing::several::insist_store_ints(
            &mut heap.growing,
            alloc,
            owner,
            object,
            from,
            numbers,
        );
    }
    fixed::several::insist_store_ints(&mut heap.fixed, alloc, owner, object, from, numbers)
}

/// The whole numbers that the fields from `from` on hold, counted from 0, of the object that
/// `object` names: as many as `numbers` has room for, or up to the first field that holds none, as
/// `PacedHeap::load_all`. Each of these fields must be there. `count` tells how many were read.
#[unsafe(no_mangle)]
pub extern "C" fn rheap_load_ints(
    heap: &mut Rheap,
    alloc: Global,
    owner: u32,
    object: RheapRoot,
    from: u32,
    numbers: &mut [i64],
    count: &mut u32,
) -> u8
    ensures { CallsOnPaced (λ old new. AreTold old new owner (root_of object) from numbers.old
        numbers.new count.new result) heap.old heap.new }
{
    if heap.fixed.is_empty() {
        return growing::several::load_ints(
            &mut heap.growing,
            alloc,
            owner,
            object,
            from,
            numbers,
            count,
        );
    }
    fixed::several::load_ints(&mut heap.fixed, alloc, owner, object, from, numbers, count)
}
