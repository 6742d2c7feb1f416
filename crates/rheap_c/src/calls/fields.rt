//! Loads and stores: `rheap_load`, `rheap_store_int` and the like.
//!
//! Most stores come while no cycle is on and are accepted. These are done in a few instructions,
//! each other one by a call.

ghost use Rattle.rh_layout.specs.declared.command.Command.TheVariants as commands;
ghost use Rattle.rh_layout.specs.declared.command.Operand.TheVariants as operands;
ghost use Rattle.rheap_c.specs.Called.{IsDone, IsLoaded};
ghost use Rattle.rheap_c.specs.Told.{root_of};
ghost use Rattle.rheap_c.specs.Grown.{IsGrownDone, IsGrownLoaded};
ghost use Rattle.rheap_c.specs.Handle.{Calls};

use crate::handle::Rheap;
use crate::root_word::RootWord;
use crate::value::{RheapRoot, RheapValue};
use crate::{fixed, growing};
use std::alloc::Global;

/// The root `dst` takes the value of a field, counted from 0, of the object that `src` names, as
/// `PacedHeap::load`, and `value` tells it.
#[unsafe(no_mangle)]
pub extern "C" fn rheap_load(
    heap: &mut Rheap,
    alloc: Global,
    owner: u32,
    dst: RheapRoot,
    src: RheapRoot,
    field: u32,
    value: &mut RheapValue,
) -> u8
    ensures { Calls (λ old new. IsLoaded old new owner (root_of dst) (root_of src) field result
        value.new)
        (λ old new. IsGrownLoaded old new owner (root_of dst) (root_of src) field result value.new)
        heap.old heap.new }
{
    if heap.fixed.is_empty() {
        return growing::fields::load(
            &mut heap.growing,
            alloc,
            owner,
            RootWord::of(dst),
            RootWord::of(src),
            field,
            value,
        );
    }
    fixed::fields::load(&mut heap.fixed, owner, dst, src, field, value)
}

/// As `rheap_load`, but no value is told.
#[unsafe(no_mangle)]
pub extern "C" fn rheap_load_untold(
    heap: &mut Rheap,
    alloc: Global,
    owner: u32,
    dst: RheapRoot,
    src: RheapRoot,
    field: u32,
) -> u8
    ensures { Calls (λ old new. IsDone old new owner (commands.Load (root_of dst) (root_of src)
        field) result)
        (λ old new. IsGrownDone old new owner (commands.Load (root_of dst) (root_of src) field)
        result) heap.old heap.new }
{
    if heap.fixed.is_empty() {
        return growing::fields::load_untold(
            &mut heap.growing,
            alloc,
            owner,
            RootWord::of(dst),
            RootWord::of(src),
            field,
        );
    }
    fixed::fields::load_untold(&mut heap.fixed, owner, dst, src, field)
}

/// A field, counted from 0, of the object that `object` names becomes nil, as `PacedHeap::store`.
#[unsafe(no_mangle)]
pub extern "C" fn rheap_store_nil(
    heap: &mut Rheap,
    alloc: Global,
    owner: u32,
    object: RheapRoot,
    field: u32,
) -> u8
    ensures { Calls (λ old new. IsDone old new owner (commands.Store (root_of object) field
        operands.Nil) result)
        (λ old new. IsGrownDone old new owner (commands.Store (root_of object) field operands.Nil)
        result) heap.old heap.new }
{
    if heap.fixed.is_empty() {
        return growing::fields::store_nil(
            &mut heap.growing,
            alloc,
            owner,
            RootWord::of(object),
            field,
        );
    }
    fixed::fields::store_nil(&mut heap.fixed, alloc, owner, object, field)
}

/// A field, counted from 0, of the object that `object` names takes a whole number, as
/// `PacedHeap::store`.
#[unsafe(no_mangle)]
pub extern "C" fn rheap_store_int(
    heap: &mut Rheap,
    alloc: Global,
    owner: u32,
    object: RheapRoot,
    field: u32,
    number: i64,
) -> u8
    ensures { Calls (λ old new. IsDone old new owner (commands.Store (root_of object) field
        (operands.Int number)) result)
        (λ old new. IsGrownDone old new owner (commands.Store (root_of object) field (operands.Int
        number)) result) heap.old heap.new }
{
    if heap.fixed.is_empty() {
        return growing::fields::store_int(
            &mut heap.growing,
            alloc,
            owner,
            RootWord::of(object),
            field,
            number,
        );
    }
    fixed::fields::store_int(&mut heap.fixed, alloc, owner, object, field, number)
}

/// A field, counted from 0, of the object that `object` names takes the value that the root `src`
/// holds, as `PacedHeap::store`.
#[unsafe(no_mangle)]
pub extern "C" fn rheap_store_root(
    heap: &mut Rheap,
    alloc: Global,
    owner: u32,
    object: RheapRoot,
    field: u32,
    src: RheapRoot,
) -> u8
    ensures { Calls (λ old new. IsDone old new owner (commands.Store (root_of object) field
        (operands.Root (root_of src))) result)
        (λ old new. IsGrownDone old new owner (commands.Store (root_of object) field (operands.Root
        (root_of src))) result) heap.old heap.new }
{
    if heap.fixed.is_empty() {
        return growing::fields::store_root(
            &mut heap.growing,
            alloc,
            owner,
            RootWord::of(object),
            field,
            RootWord::of(src),
        );
    }
    fixed::fields::store_root(&mut heap.fixed, alloc, owner, object, field, src)
}
