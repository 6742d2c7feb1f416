//! Objects that are made with their values: `rheap_make`, `rheap_insist_make` and the like.

ghost use Rattle.std.specs.Prelude.{false, true};
ghost use Rattle.rh_layout.specs.Shape.{shape_of};
ghost use Rattle.rh_pace.specs.Making.{IsInsistedMake, IsPacedMake};
ghost use Rattle.rheap_c.specs.GrownMaking.{InsistsOnMaking, IsGrownMadeWith, MakesOnce};
ghost use Rattle.rheap_c.specs.Handle.{Calls};
ghost use Rattle.rheap_c.specs.Making.{IsMadeWith};
ghost use Rattle.rheap_c.specs.Told.{root_of};

use crate::handle::Rheap;
use crate::init::RheapInit;
use crate::value::RheapRoot;
use crate::{fixed, growing};
use rh_layout::Shape;
use std::alloc::Global;

/// The root `dst` names a new object of so many fields, whose fields from the first on take these
/// values, all of them or none, as `PacedHeap::make`.
#[unsafe(no_mangle)]
pub extern "C" fn rheap_make(
    heap: &mut Rheap,
    alloc: Global,
    owner: u32,
    dst: RheapRoot,
    fields: u32,
    values: &[RheapInit],
) -> u8
    ensures { Calls (λ old new. IsMadeWith IsPacedMake old new owner (root_of dst) (shape_of fields
        false)
        values.now result)
        (λ old new. IsGrownMadeWith MakesOnce old new owner (root_of dst) (shape_of fields false)
        values.now result) heap.old heap.new }
{
    if heap.fixed.is_empty() {
        let shape = Shape { fields, raw: false };
        return growing::making::make(&mut heap.growing, alloc, owner, dst, shape, values, false);
    }
    fixed::making::make(&mut heap.fixed, owner, dst, fields, values)
}

/// The same of a raw object, as `PacedHeap::make_raw`.
#[unsafe(no_mangle)]
pub extern "C" fn rheap_make_raw(
    heap: &mut Rheap,
    alloc: Global,
    owner: u32,
    dst: RheapRoot,
    fields: u32,
    values: &[RheapInit],
) -> u8
    ensures { Calls (λ old new. IsMadeWith IsPacedMake old new owner (root_of dst) (shape_of fields
        true)
        values.now result)
        (λ old new. IsGrownMadeWith MakesOnce old new owner (root_of dst) (shape_of fields true)
        values.now result) heap.old heap.new }
{
    if heap.fixed.is_empty() {
        let shape = Shape { fields, raw: true };
        return growing::making::make(&mut heap.growing, alloc, owner, dst, shape, values, false);
    }
    fixed::making::make_raw(&mut heap.fixed, owner, dst, fields, values)
}

/// As `rheap_make`, tried again after a collection where there is no room, twice at most, as
/// `PacedHeap::insist_make`.
#[unsafe(no_mangle)]
pub extern "C" fn rheap_insist_make(
    heap: &mut Rheap,
    alloc: Global,
    owner: u32,
    dst: RheapRoot,
    fields: u32,
    values: &[RheapInit],
) -> u8
    ensures { Calls (λ old new. IsMadeWith IsInsistedMake old new owner (root_of dst) (shape_of
        fields false)
        values.now result)
        (λ old new. IsGrownMadeWith InsistsOnMaking old new owner (root_of dst) (shape_of fields
        false)
        values.now result) heap.old heap.new }
{
    if heap.fixed.is_empty() {
        let shape = Shape { fields, raw: false };
        return growing::making::make(&mut heap.growing, alloc, owner, dst, shape, values, true);
    }
    fixed::making::insist_make(&mut heap.fixed, owner, dst, fields, values)
}

/// The same of a raw object, as `PacedHeap::insist_make_raw`.
#[unsafe(no_mangle)]
pub extern "C" fn rheap_insist_make_raw(
    heap: &mut Rheap,
    alloc: Global,
    owner: u32,
    dst: RheapRoot,
    fields: u32,
    values: &[RheapInit],
) -> u8
    ensures { Calls (λ old new. IsMadeWith IsInsistedMake old new owner (root_of dst) (shape_of
        fields true)
        values.now result)
        (λ old new. IsGrownMadeWith InsistsOnMaking old new owner (root_of dst) (shape_of fields
        true)
        values.now result) heap.old heap.new }
{
    if heap.fixed.is_empty() {
        let shape = Shape { fields, raw: true };
        return growing::making::make(&mut heap.growing, alloc, owner, dst, shape, values, true);
    }
    fixed::making::insist_make_raw(&mut heap.fixed, owner, dst, fields, values)
}
