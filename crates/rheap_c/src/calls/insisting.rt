//! Calls that insist on room: `rheap_insist_alloc`, `rheap_insist_store_int` and the like.
//!
//! Most come while no cycle is on and are accepted. These are done in a few instructions, each
//! other one by a call.

ghost use Rattle.rh_layout.specs.declared.command.Command.TheVariants as commands;
ghost use Rattle.rh_layout.specs.declared.command.Operand.TheVariants as operands;
ghost use Rattle.rheap_c.specs.Insisted.{IsInsisted};
ghost use Rattle.rheap_c.specs.Told.{root_of};
ghost use Rattle.rheap_c.specs.Grown.{IsGrownInsisted};
ghost use Rattle.rheap_c.specs.Handle.{Calls};

use crate::handle::Rheap;
use crate::root_word::RootWord;
use crate::value::RheapRoot;
use crate::{fixed, growing};
use std::alloc::Global;

/// As `rheap_alloc`, tried again after a collection where there is no room, twice at most, as
/// `PacedHeap::insist`.
#[unsafe(no_mangle)]
pub extern "C" fn rheap_insist_alloc(
    heap: &mut Rheap,
    alloc: Global,
    owner: u32,
    dst: RheapRoot,
    fields: u32,
) -> u8
    ensures { Calls (λ old new. IsInsisted old new owner (commands.Alloc (root_of dst) fields)
        result)
        (λ old new. IsGrownInsisted old new owner (commands.Alloc (root_of dst) fields) result)
        heap.old heap.new }
{
    if heap.fixed.is_empty() {
        return growing::insisting::insist_alloc(
            &mut heap.growing,
            alloc,
            owner,
            RootWord::of(dst),
            fields,
        );
    }
    fixed::insisting::insist_alloc(&mut heap.fixed, alloc, owner, dst, fields)
}

/// As `rheap_alloc_raw`, tried again after a collection where there is no room, twice at most, as
/// `PacedHeap::insist`.
#[unsafe(no_mangle)]
pub extern "C" fn rheap_insist_alloc_raw(
    heap: &mut Rheap,
    alloc: Global,
    owner: u32,
    dst: RheapRoot,
    fields: u32,
) -> u8
    ensures { Calls (λ old new. IsInsisted old new owner (commands.Raw (root_of dst) fields) result)
        (λ old new. IsGrownInsisted old new owner (commands.Raw (root_of dst) fields) result)
        heap.old heap.new }
{
    if heap.fixed.is_empty() {
        return growing::insisting::insist_alloc_raw(
            &mut heap.growing,
            alloc,
            owner,
            RootWord::of(dst),
            fields,
        );
    }
    fixed::insisting::insist_alloc_raw(&mut heap.fixed, alloc, owner, dst, fields)
}

/// As `rheap_store_nil`, tried again after a collection where the log is full, as
/// `PacedHeap::insist`.
#[unsafe(no_mangle)]
pub extern "C" fn rheap_insist_store_nil(
    heap: &mut Rheap,
    alloc: Global,
    owner: u32,
    object: RheapRoot,
    field: u32,
) -> u8
    ensures { Calls (λ old new. IsInsisted old new owner (commands.Store (root_of object) field
        operands.Nil) result)
        (λ old new. IsGrownInsisted old new owner (commands.Store (root_of object) field
        operands.Nil) result) heap.old heap.new }
{
    if heap.fixed.is_empty() {
        return growing::insisting::insist_store_nil(
            &mut heap.growing,
            alloc,
            owner,
            RootWord::of(object),
            field,
        );
    }
    fixed::insisting::insist_store_nil(&mut heap.fixed, alloc, owner, object, field)
}

/// As `rheap_store_int`, tried again after a collection where the log is full, as
/// `PacedHeap::insist`.
#[unsafe(no_mangle)]
pub extern "C" fn rheap_insist_store_int(
    heap: &mut Rheap,
    alloc: Global,
    owner: u32,
    object: RheapRoot,
    field: u32,
    number: i64,
) -> u8
    ensures { Calls (λ old new. IsInsisted old new owner (commands.Store (root_of object) field
        (operands.Int number)) result)
        (λ old new. IsGrownInsisted old new owner (commands.Store (root_of object) field
        (operands.Int number)) result) heap.old heap.new }
{
    if heap.fixed.is_empty() {
        return growing::insisting::insist_store_int(
            &mut heap.growing,
            alloc,
            owner,
            RootWord::of(object),
            field,
            number,
        );
    }
    fixed::insisting::insist_store_int(&mut heap.fixed, alloc, owner, object, field, number)
}

/// As `rheap_store_root`, tried again after a collection where the log is full, as
/// `PacedHeap::insist`.
#[unsafe(no_mangle)]
pub extern "C" fn rheap_insist_store_root(
    heap: &mut Rheap,
    alloc: Global,
    owner: u32,
    object: RheapRoot,
    field: u32,
    src: RheapRoot,
) -> u8
    ensures { Calls (λ old new. IsInsisted old new owner (commands.Store (root_of object) field
        (operands.Root (root_of src))) result)
        (λ old new. IsGrownInsisted old new owner (commands.Store (root_of object) field
        (operands.Root (root_of src))) result) heap.old heap.new }
{
    if heap.fixed.is_empty() {
        return growing::insisting::insist_store_root(
            &mut heap.growing,
            alloc,
            owner,
            RootWord::of(object),
            field,
            RootWord::of(src),
        );
    }
    fixed::insisting::insist_store_root(&mut heap.fixed, alloc, owner, object, field, src)
}
