//! Loads and stores: `rheap_load`, `rheap_store_int` and the like.
//!
//! Most stores come while no cycle is on and are accepted. These are done in a few instructions,
//! each other one by a call.

ghost use Rattle.rh_layout.specs.declared.command.Command.TheVariants as commands;
ghost use Rattle.rh_layout.specs.declared.command.Operand.TheVariants as operands;
ghost use Rattle.rheap_c.specs.Called.{IsDone, IsLoaded};
ghost use Rattle.rheap_c.specs.RootWord.{root_in};
ghost use Rattle.rheap_c.specs.Told.{root_of};

use crate::fixed_part::FixedPart;
use crate::root_word::RootWord;
use crate::status::{DONE, NOT_OPEN, answer_status};
use crate::value::{RheapRoot, RheapValue};
use rh_layout::Operand;
use std::alloc::Global;

/// `rheap_load`, on a heap of fixed sizes.
#[inline(always)]
pub(crate) fn load(
    heap: &mut FixedPart,
    owner: u32,
    dst: RheapRoot,
    src: RheapRoot,
    field: u32,
    value: &mut RheapValue,
) -> u8
    ensures { IsLoaded heap.old.state heap.new.state owner (root_of dst) (root_of src) field
        result value.new }
{
    if heap.is_empty() {
        *value = RheapValue::nil();
        return NOT_OPEN;
    }
    let told = heap.here().load(owner, dst.id(), src.id(), field);
    *value = RheapValue::told(&told);
    answer_status(&told)
}

/// `rheap_load_untold`, on a heap of fixed sizes.
#[inline(always)]
pub(crate) fn load_untold(
    heap: &mut FixedPart,
    owner: u32,
    dst: RheapRoot,
    src: RheapRoot,
    field: u32,
) -> u8
    ensures { IsDone heap.old.state heap.new.state owner
        (commands.Load (root_of dst) (root_of src) field) result }
{
    if heap.is_empty() {
        return NOT_OPEN;
    }
    let told = heap.here().load(owner, dst.id(), src.id(), field);
    answer_status(&told)
}

/// `rheap_store_nil`, on a heap of fixed sizes.
#[inline(always)]
pub(crate) fn store_nil(
    heap: &mut FixedPart,
    alloc: Global,
    owner: u32,
    object: RheapRoot,
    field: u32,
) -> u8
    ensures { IsDone heap.old.state heap.new.state owner
        (commands.Store (root_of object) field operands.Nil) result }
{
    if heap.is_empty() {
        return NOT_OPEN;
    }
    match heap
        .here()
        .store_straight(owner, object.id(), field, Operand::Nil)
    {
        Some(_) => DONE,
        None => store_nil_at_length(heap, alloc, owner, RootWord::of(object), field),
    }
}

/// As `rheap_store_nil`, also in a cycle, and where it is refused.
#[inline(never)]
pub(crate) fn store_nil_at_length(
    heap: &mut FixedPart,
    alloc: Global,
    owner: u32,
    object: RootWord,
    field: u32,
) -> u8
    ensures { IsDone heap.old.state heap.new.state owner
        (commands.Store (root_in object) field operands.Nil) result }
{
    match heap.take(alloc) {
        None => NOT_OPEN,
        Some(mut inner) => {
            let told = inner.store(owner, object.id(), field, Operand::Nil);
            heap.give(inner);
            answer_status(&told)
        }
    }
}

/// `rheap_store_int`, on a heap of fixed sizes.
#[inline(always)]
pub(crate) fn store_int(
    heap: &mut FixedPart,
    alloc: Global,
    owner: u32,
    object: RheapRoot,
    field: u32,
    number: i64,
) -> u8
    ensures { IsDone heap.old.state heap.new.state owner
        (commands.Store (root_of object) field (operands.Int number)) result }
{
    if heap.is_empty() {
        return NOT_OPEN;
    }
    match heap
        .here()
        .store_straight(owner, object.id(), field, Operand::Int(number))
    {
        Some(_) => DONE,
        None => store_int_at_length(heap, alloc, owner, RootWord::of(object), field, number),
    }
}

/// As `rheap_store_int`, also in a cycle, and where it is refused.
#[inline(never)]
pub(crate) fn store_int_at_length(
    heap: &mut FixedPart,
    alloc: Global,
    owner: u32,
    object: RootWord,
    field: u32,
    number: i64,
) -> u8
    ensures { IsDone heap.old.state heap.new.state owner
        (commands.Store (root_in object) field (operands.Int number)) result }
{
    match heap.take(alloc) {
        None => NOT_OPEN,
        Some(mut inner) => {
            let told = inner.store(owner, object.id(), field, Operand::Int(number));
            heap.give(inner);
            answer_status(&told)
        }
    }
}

/// `rheap_store_root`, on a heap of fixed sizes.
#[inline(always)]
pub(crate) fn store_root(
    heap: &mut FixedPart,
    alloc: Global,
    owner: u32,
    object: RheapRoot,
    field: u32,
    src: RheapRoot,
) -> u8
    ensures { IsDone heap.old.state heap.new.state owner
        (commands.Store (root_of object) field (operands.Root (root_of src))) result }
{
    if heap.is_empty() {
        return NOT_OPEN;
    }
    match heap
        .here()
        .store_straight(owner, object.id(), field, Operand::Root(src.id()))
    {
        Some(_) => DONE,
        None => store_root_at_length(
            heap,
            alloc,
            owner,
            RootWord::of(object),
            field,
            RootWord::of(src),
        ),
    }
}

/// As `rheap_store_root`, also in a cycle, and where it is refused.
#[inline(never)]
pub(crate) fn store_root_at_length(
    heap: &mut FixedPart,
    alloc: Global,
    owner: u32,
    object: RootWord,
    field: u32,
    src: RootWord,
) -> u8
    ensures { IsDone heap.old.state heap.new.state owner
        (commands.Store (root_in object) field (operands.Root (root_in src))) result }
{
    match heap.take(alloc) {
        None => NOT_OPEN,
        Some(mut inner) => {
            let told = inner.store(owner, object.id(), field, Operand::Root(src.id()));
            heap.give(inner);
            answer_status(&told)
        }
    }
}
