//! The calls on the slots of owner 0 by number, on a heap that grows.
//!
//! Each is the call by owner 0, and takes what its export was given, in the same order. So an export
//! moves nothing to get here.

ghost use Rattle.rh_layout.specs.declared.command.Command.TheVariants as commands;
ghost use Rattle.rh_layout.specs.declared.command.Operand.TheVariants as operands;
ghost use Rattle.rheap_c.specs.Grown.{IsGrownDone, IsGrownInsisted, IsGrownLoaded, OnPaced};
ghost use Rattle.rheap_c.specs.Read.{IsAnswered, peek_answer};
ghost use Rattle.rheap_c.specs.Shared.{shared_root};

use crate::growing::{fields, insisting, objects, reading};
use crate::growing_part::GrowingPart;
use crate::root_word::RootWord;
use crate::value::RheapValue;
use std::alloc::Global;

/// `rheap_shared_alloc`, on a heap that grows.
#[inline(never)]
pub(crate) fn alloc(heap: &mut GrowingPart, alloc: Global, dst: u32, fields: u32) -> u8
    ensures { IsGrownDone heap.old.state heap.new.state 0 (commands.Alloc (shared_root dst) fields)
        result }
{
    objects::alloc(heap, alloc, 0, RootWord::shared(dst), fields)
}

/// `rheap_shared_alloc_raw`, on a heap that grows.
#[inline(never)]
pub(crate) fn alloc_raw(heap: &mut GrowingPart, alloc: Global, dst: u32, fields: u32) -> u8
    ensures { IsGrownDone heap.old.state heap.new.state 0 (commands.Raw (shared_root dst) fields)
        result }
{
    objects::alloc_raw(heap, alloc, 0, RootWord::shared(dst), fields)
}

/// `rheap_shared_load`, on a heap that grows.
#[inline(never)]
pub(crate) fn load(
    heap: &mut GrowingPart,
    alloc: Global,
    dst: u32,
    src: u32,
    field: u32,
    value: &mut RheapValue,
) -> u8
    ensures { IsGrownLoaded heap.old.state heap.new.state 0 (shared_root dst) (shared_root src)
        field result value.new }
{
    fields::load(
        heap,
        alloc,
        0,
        RootWord::shared(dst),
        RootWord::shared(src),
        field,
        value,
    )
}

/// `rheap_shared_load_untold`, on a heap that grows.
#[inline(never)]
pub(crate) fn load_untold(
    heap: &mut GrowingPart,
    alloc: Global,
    dst: u32,
    src: u32,
    field: u32,
) -> u8
    ensures { IsGrownDone heap.old.state heap.new.state 0 (commands.Load (shared_root dst)
        (shared_root src) field) result }
{
    fields::load_untold(
        heap,
        alloc,
        0,
        RootWord::shared(dst),
        RootWord::shared(src),
        field,
    )
}

/// `rheap_shared_peek`, on a heap that grows.
#[inline(never)]
pub(crate) fn peek(
    heap: &mut GrowingPart,
    alloc: Global,
    src: u32,
    field: u32,
    value: &mut RheapValue,
) -> u8
    ensures { OnPaced (λ old new. IsAnswered (λ s. peek_answer s 0 (shared_root src) field) old new
        result value.new) heap.old.state heap.new.state }
{
    reading::peek(heap, alloc, 0, RootWord::shared(src), field, value)
}

/// `rheap_shared_store_nil`, on a heap that grows.
#[inline(never)]
pub(crate) fn store_nil(heap: &mut GrowingPart, alloc: Global, object: u32, field: u32) -> u8
    ensures { IsGrownDone heap.old.state heap.new.state 0 (commands.Store (shared_root object) field
        operands.Nil) result }
{
    fields::store_nil(heap, alloc, 0, RootWord::shared(object), field)
}

/// `rheap_shared_store_int`, on a heap that grows.
#[inline(never)]
pub(crate) fn store_int(
    heap: &mut GrowingPart,
    alloc: Global,
    object: u32,
    field: u32,
    number: i64,
) -> u8
    ensures { IsGrownDone heap.old.state heap.new.state 0 (commands.Store (shared_root object) field
        (operands.Int number)) result }
{
    fields::store_int(heap, alloc, 0, RootWord::shared(object), field, number)
}

/// `rheap_shared_store_root`, on a heap that grows.
#[inline(never)]
pub(crate) fn store_root(
    heap: &mut GrowingPart,
    alloc: Global,
    object: u32,
    field: u32,
    src: u32,
) -> u8
    ensures { IsGrownDone heap.old.state heap.new.state 0 (commands.Store (shared_root object) field
        (operands.Root (shared_root src))) result }
{
    fields::store_root(
        heap,
        alloc,
        0,
        RootWord::shared(object),
        field,
        RootWord::shared(src),
    )
}

/// `rheap_shared_copy`, on a heap that grows.
#[inline(never)]
pub(crate) fn copy(heap: &mut GrowingPart, alloc: Global, dst: u32, src: u32) -> u8
    ensures { IsGrownDone heap.old.state heap.new.state 0 (commands.Copy (shared_root dst)
        (shared_root src)) result }
{
    objects::copy(heap, alloc, 0, RootWord::shared(dst), RootWord::shared(src))
}

/// `rheap_shared_drop`, on a heap that grows.
#[inline(never)]
pub(crate) fn drop_root(heap: &mut GrowingPart, alloc: Global, root: u32) -> u8
    ensures { IsGrownDone heap.old.state heap.new.state 0 (commands.Drop (shared_root root))
        result }
{
    objects::drop_root(heap, alloc, 0, RootWord::shared(root))
}

/// `rheap_shared_insist_alloc`, on a heap that grows.
#[inline(never)]
pub(crate) fn insist_alloc(heap: &mut GrowingPart, alloc: Global, dst: u32, fields: u32) -> u8
    ensures { IsGrownInsisted heap.old.state heap.new.state 0 (commands.Alloc (shared_root dst)
        fields) result }
{
    insisting::insist_alloc(heap, alloc, 0, RootWord::shared(dst), fields)
}

/// `rheap_shared_insist_alloc_raw`, on a heap that grows.
#[inline(never)]
pub(crate) fn insist_alloc_raw(heap: &mut GrowingPart, alloc: Global, dst: u32, fields: u32) -> u8
    ensures { IsGrownInsisted heap.old.state heap.new.state 0 (commands.Raw (shared_root dst)
        fields) result }
{
    insisting::insist_alloc_raw(heap, alloc, 0, RootWord::shared(dst), fields)
}

/// `rheap_shared_insist_store_nil`, on a heap that grows.
#[inline(never)]
pub(crate) fn insist_store_nil(heap: &mut GrowingPart, alloc: Global, object: u32, field: u32) -> u8
    ensures { IsGrownInsisted heap.old.state heap.new.state 0 (commands.Store (shared_root object)
        field operands.Nil) result }
{
    insisting::insist_store_nil(heap, alloc, 0, RootWord::shared(object), field)
}

/// `rheap_shared_insist_store_int`, on a heap that grows.
#[inline(never)]
pub(crate) fn insist_store_int(
    heap: &mut GrowingPart,
    alloc: Global,
    object: u32,
    field: u32,
    number: i64,
) -> u8
    ensures { IsGrownInsisted heap.old.state heap.new.state 0 (commands.Store (shared_root object)
        field (operands.Int number)) result }
{
    insisting::insist_store_int(heap, alloc, 0, RootWord::shared(object), field, number)
}

/// `rheap_shared_insist_store_root`, on a heap that grows.
#[inline(never)]
pub(crate) fn insist_store_root(
    heap: &mut GrowingPart,
    alloc: Global,
    object: u32,
    field: u32,
    src: u32,
) -> u8
    ensures { IsGrownInsisted heap.old.state heap.new.state 0 (commands.Store (shared_root object)
        field (operands.Root (shared_root src))) result }
{
    insisting::insist_store_root(
        heap,
        alloc,
        0,
        RootWord::shared(object),
        field,
        RootWord::shared(src),
    )
}
