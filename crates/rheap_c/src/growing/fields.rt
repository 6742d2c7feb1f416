//! Loads and stores on a heap that grows.

ghost use Rattle.rh_layout.specs.declared.command.Command.TheVariants as commands;
ghost use Rattle.rh_layout.specs.declared.command.Operand.TheVariants as operands;
ghost use Rattle.rheap_c.specs.Grown.{IsGrownDone, IsGrownLoaded};
ghost use Rattle.rheap_c.specs.RootWord.{root_in};

use crate::growing_part::GrowingPart;
use crate::root_word::RootWord;
use crate::status::{NOT_OPEN, answer_status};
use crate::value::RheapValue;
use rh_layout::Operand;
use std::alloc::Global;

/// `rheap_load`, on a heap that grows.
#[inline(never)]
pub(crate) fn load(
    heap: &mut GrowingPart,
    alloc: Global,
    owner: u32,
    dst: RootWord,
    src: RootWord,
    field: u32,
    value: &mut RheapValue,
) -> u8
    ensures { IsGrownLoaded heap.old.state heap.new.state owner (root_in dst) (root_in src)
        field result value.new }
{
    match heap.take(alloc) {
        None => {
            *value = RheapValue::nil();
            NOT_OPEN
        }
        Some(mut inner) => {
            let told = inner.load(owner, dst.id(), src.id(), field);
            heap.give(inner);
            *value = RheapValue::told(&told);
            answer_status(&told)
        }
    }
}

/// `rheap_load_untold`, on a heap that grows.
#[inline(never)]
pub(crate) fn load_untold(
    heap: &mut GrowingPart,
    alloc: Global,
    owner: u32,
    dst: RootWord,
    src: RootWord,
    field: u32,
) -> u8
    ensures { IsGrownDone heap.old.state heap.new.state owner (commands.Load (root_in dst)
        (root_in src) field) result }
{
    match heap.take(alloc) {
        None => NOT_OPEN,
        Some(mut inner) => {
            let told = inner.load(owner, dst.id(), src.id(), field);
            heap.give(inner);
            answer_status(&told)
        }
    }
}

/// `rheap_store_nil`, on a heap that grows.
#[inline(never)]
pub(crate) fn store_nil(
    heap: &mut GrowingPart,
    alloc: Global,
    owner: u32,
    object: RootWord,
    field: u32,
) -> u8
    ensures { IsGrownDone heap.old.state heap.new.state owner (commands.Store (root_in object)
        field operands.Nil) result }
{
    match heap.take(alloc) {
        None => NOT_OPEN,
        Some(mut inner) => {
            let told = inner.store(owner, object.id(), field, Operand::Nil);
            heap.give(inner);
            answer_status(&told)
        }
    }
}

/// `rheap_store_int`, on a heap that grows.
#[inline(never)]
pub(crate) fn store_int(
    heap: &mut GrowingPart,
    alloc: Global,
    owner: u32,
    object: RootWord,
    field: u32,
    number: i64,
) -> u8
    ensures { IsGrownDone heap.old.state heap.new.state owner (commands.Store (root_in object)
        field (operands.Int number)) result }
{
    match heap.take(alloc) {
        None => NOT_OPEN,
        Some(mut inner) => {
            let told = inner.store(owner, object.id(), field, Operand::Int(number));
            heap.give(inner);
            answer_status(&told)
        }
    }
}

/// `rheap_store_root`, on a heap that grows.
#[inline(never)]
pub(crate) fn store_root(
    heap: &mut GrowingPart,
    alloc: Global,
    owner: u32,
    object: RootWord,
    field: u32,
    src: RootWord,
) -> u8
    ensures { IsGrownDone heap.old.state heap.new.state owner (commands.Store (root_in object)
        field (operands.Root (root_in src))) result }
{
    match heap.take(alloc) {
        None => NOT_OPEN,
        Some(mut inner) => {
            let told = inner.store(owner, object.id(), field, Operand::Root(src.id()));
            heap.give(inner);
            answer_status(&told)
        }
    }
}
