//! Calls on the slots of owner 0 by number: `rheap_shared_load`, `rheap_shared_alloc` and the like.
//!
//! Each is the call of its name by owner 0, whose slots all owners share. On a heap of fixed sizes
//! no owner is looked at.

ghost use Rattle.rh_layout.specs.declared.command.Command.TheVariants as commands;
ghost use Rattle.rh_layout.specs.declared.command.Operand.TheVariants as operands;
ghost use Rattle.rheap_c.specs.Called.{IsDone, IsLoaded};
ghost use Rattle.rheap_c.specs.Grown.{CallsOnPaced, IsGrownDone, IsGrownInsisted, IsGrownLoaded};
ghost use Rattle.rheap_c.specs.Handle.{Calls};
ghost use Rattle.rheap_c.specs.Insisted.{IsInsisted};
ghost use Rattle.rheap_c.specs.Read.{IsAnswered, peek_answer};
ghost use Rattle.rheap_c.specs.Shared.{shared_root};

use crate::handle::Rheap;
use crate::value::RheapValue;
use crate::{fixed, growing};
use std::alloc::Global;

/// As `rheap_alloc` by owner 0, where `dst` is a slot of this owner.
#[unsafe(no_mangle)]
pub extern "C" fn rheap_shared_alloc(heap: &mut Rheap, alloc: Global, dst: u32, fields: u32) -> u8
    ensures { Calls (λ old new. IsDone old new 0 (commands.Alloc (shared_root dst) fields) result)
        (λ old new. IsGrownDone old new 0 (commands.Alloc (shared_root dst) fields) result) heap.old
        heap.new }
{
    if heap.fixed.is_empty() {
        return growing::shared::alloc(&mut heap.growing, alloc, dst, fields);
    }
    fixed::shared::alloc(&mut heap.fixed, alloc, dst, fields)
}

/// As `rheap_alloc_raw` by owner 0, where `dst` is a slot of this owner.
#[unsafe(no_mangle)]
pub extern "C" fn rheap_shared_alloc_raw(
    heap: &mut Rheap,
    alloc: Global,
    dst: u32,
    fields: u32,
) -> u8
    ensures { Calls (λ old new. IsDone old new 0 (commands.Raw (shared_root dst) fields) result)
        (λ old new. IsGrownDone old new 0 (commands.Raw (shared_root dst) fields) result) heap.old
        heap.new }
{
    if heap.fixed.is_empty() {
        return growing::shared::alloc_raw(&mut heap.growing, alloc, dst, fields);
    }
    fixed::shared::alloc_raw(&mut heap.fixed, alloc, dst, fields)
}

/// As `rheap_load` by owner 0, where `dst` and `src` are slots of this owner.
#[unsafe(no_mangle)]
pub extern "C" fn rheap_shared_load(
    heap: &mut Rheap,
    alloc: Global,
    dst: u32,
    src: u32,
    field: u32,
    value: &mut RheapValue,
) -> u8
    ensures { Calls (λ old new. IsLoaded old new 0 (shared_root dst) (shared_root src) field result
        value.new)
        (λ old new. IsGrownLoaded old new 0 (shared_root dst) (shared_root src) field result
        value.new) heap.old heap.new }
{
    if heap.fixed.is_empty() {
        return growing::shared::load(&mut heap.growing, alloc, dst, src, field, value);
    }
    fixed::shared::load(&mut heap.fixed, dst, src, field, value)
}

/// As `rheap_load_untold` by owner 0, where `dst` and `src` are slots of this owner.
#[unsafe(no_mangle)]
pub extern "C" fn rheap_shared_load_untold(
    heap: &mut Rheap,
    alloc: Global,
    dst: u32,
    src: u32,
    field: u32,
) -> u8
    ensures { Calls (λ old new. IsDone old new 0 (commands.Load (shared_root dst) (shared_root src)
        field) result)
        (λ old new. IsGrownDone old new 0 (commands.Load (shared_root dst) (shared_root src) field)
        result) heap.old heap.new }
{
    if heap.fixed.is_empty() {
        return growing::shared::load_untold(&mut heap.growing, alloc, dst, src, field);
    }
    fixed::shared::load_untold(&mut heap.fixed, dst, src, field)
}

/// As `rheap_peek` by owner 0, where `src` is a slot of this owner.
#[unsafe(no_mangle)]
pub extern "C" fn rheap_shared_peek(
    heap: &mut Rheap,
    alloc: Global,
    src: u32,
    field: u32,
    value: &mut RheapValue,
) -> u8
    ensures { CallsOnPaced (λ old new. IsAnswered (λ s. peek_answer s 0 (shared_root src) field) old
        new result value.new) heap.old heap.new }
{
    if heap.fixed.is_empty() {
        return growing::shared::peek(&mut heap.growing, alloc, src, field, value);
    }
    fixed::shared::peek(&mut heap.fixed, src, field, value)
}

/// As `rheap_store_nil` by owner 0, where `object` is a slot of this owner.
#[unsafe(no_mangle)]
pub extern "C" fn rheap_shared_store_nil(
    heap: &mut Rheap,
    alloc: Global,
    object: u32,
    field: u32,
) -> u8
    ensures { Calls (λ old new. IsDone old new 0 (commands.Store (shared_root object) field
        operands.Nil) result)
        (λ old new. IsGrownDone old new 0 (commands.Store (shared_root object) field operands.Nil)
        result) heap.old heap.new }
{
    if heap.fixed.is_empty() {
        return growing::shared::store_nil(&mut heap.growing, alloc, object, field);
    }
    fixed::shared::store_nil(&mut heap.fixed, alloc, object, field)
}

/// As `rheap_store_int` by owner 0, where `object` is a slot of this owner.
#[unsafe(no_mangle)]
pub extern "C" fn rheap_shared_store_int(
    heap: &mut Rheap,
    alloc: Global,
    object: u32,
    field: u32,
    number: i64,
) -> u8
    ensures { Calls (λ old new. IsDone old new 0 (commands.Store (shared_root object) field
        (operands.Int number)) result)
        (λ old new. IsGrownDone old new 0 (commands.Store (shared_root object) field (operands.Int
        number)) result) heap.old heap.new }
{
    if heap.fixed.is_empty() {
        return growing::shared::store_int(&mut heap.growing, alloc, object, field, number);
    }
    fixed::shared::store_int(&mut heap.fixed, alloc, object, field, number)
}

/// As `rheap_store_root` by owner 0, where `object` is a slot of this owner, and so is `src`.
#[unsafe(no_mangle)]
pub extern "C" fn rheap_shared_store_root(
    heap: &mut Rheap,
    alloc: Global,
    object: u32,
    field: u32,
    src: u32,
) -> u8
    ensures { Calls (λ old new. IsDone old new 0 (commands.Store (shared_root object) field
        (operands.Root (shared_root src))) result)
        (λ old new. IsGrownDone old new 0 (commands.Store (shared_root object) field (operands.Root
        (shared_root src))) result) heap.old heap.new }
{
    if heap.fixed.is_empty() {
        return growing::shared::store_root(&mut heap.growing, alloc, object, field, src);
    }
    fixed::shared::store_root(&mut heap.fixed, alloc, object, field, src)
}

/// As `rheap_copy` by owner 0, where `dst` and `src` are slots of this owner.
#[unsafe(no_mangle)]
pub extern "C" fn rheap_shared_copy(heap: &mut Rheap, alloc: Global, dst: u32, src: u32) -> u8
    ensures { Calls (λ old new. IsDone old new 0 (commands.Copy (shared_root dst) (shared_root src))
        result)
        (λ old new. IsGrownDone old new 0 (commands.Copy (shared_root dst) (shared_root src))
        result) heap.old heap.new }
{
    if heap.fixed.is_empty() {
        return growing::shared::copy(&mut heap.growing, alloc, dst, src);
    }
    fixed::shared::copy(&mut heap.fixed, dst, src)
}

/// As `rheap_drop` by owner 0, where `root` is a slot of this owner.
#[unsafe(no_mangle)]
pub extern "C" fn rheap_shared_drop(heap: &mut Rheap, alloc: Global, root: u32) -> u8
    ensures { Calls (λ old new. IsDone old new 0 (commands.Drop (shared_root root)) result)
        (λ old new. IsGrownDone old new 0 (commands.Drop (shared_root root)) result) heap.old
        heap.new }
{
    if heap.fixed.is_empty() {
        return growing::shared::drop_root(&mut heap.growing, alloc, root);
    }
    fixed::shared::drop_root(&mut heap.fixed, root)
}

/// As `rheap_insist_alloc` by owner 0, where `dst` is a slot of this owner.
#[unsafe(no_mangle)]
pub extern "C" fn rheap_shared_insist_alloc(
    heap: &mut Rheap,
    alloc: Global,
    dst: u32,
    fields: u32,
) -> u8
    ensures { Calls (λ old new. IsInsisted old new 0 (commands.Alloc (shared_root dst) fields)
        result)
        (λ old new. IsGrownInsisted old new 0 (commands.Alloc (shared_root dst) fields) result)
        heap.old heap.new }
{
    if heap.fixed.is_empty() {
        return growing::shared::insist_alloc(&mut heap.growing, alloc, dst, fields);
    }
    fixed::shared::insist_alloc(&mut heap.fixed, alloc, dst, fields)
}

/// As `rheap_insist_alloc_raw` by owner 0, where `dst` is a slot of this owner.
#[unsafe(no_mangle)]
pub extern "C" fn rheap_shared_insist_alloc_raw(
    heap: &mut Rheap,
    alloc: Global,
    dst: u32,
    fields: u32,
) -> u8
    ensures { Calls (λ old new. IsInsisted old new 0 (commands.Raw (shared_root dst) fields) result)
        (λ old new. IsGrownInsisted old new 0 (commands.Raw (shared_root dst) fields) result)
        heap.old heap.new }
{
    if heap.fixed.is_empty() {
        return growing::shared::insist_alloc_raw(&mut heap.growing, alloc, dst, fields);
    }
    fixed::shared::insist_alloc_raw(&mut heap.fixed, alloc, dst, fields)
}

/// As `rheap_insist_store_nil` by owner 0, where `object` is a slot of this owner.
#[unsafe(no_mangle)]
pub extern "C" fn rheap_shared_insist_store_nil(
    heap: &mut Rheap,
    alloc: Global,
    object: u32,
    field: u32,
) -> u8
    ensures { Calls (λ old new. IsInsisted old new 0 (commands.Store (shared_root object) field
        operands.Nil) result)
        (λ old new. IsGrownInsisted old new 0 (commands.Store (shared_root object) field
        operands.Nil) result) heap.old heap.new }
{
    if heap.fixed.is_empty() {
        return growing::shared::insist_store_nil(&mut heap.growing, alloc, object, field);
    }
    fixed::shared::insist_store_nil(&mut heap.fixed, alloc, object, field)
}

/// As `rheap_insist_store_int` by owner 0, where `object` is a slot of this owner.
#[unsafe(no_mangle)]
pub extern "C" fn rheap_shared_insist_store_int(
    heap: &mut Rheap,
    alloc: Global,
    object: u32,
    field: u32,
    number: i64,
) -> u8
    ensures { Calls (λ old new. IsInsisted old new 0 (commands.Store (shared_root object) field
        (operands.Int number)) result)
        (λ old new. IsGrownInsisted old new 0 (commands.Store (shared_root object) field
        (operands.Int number)) result) heap.old heap.new }
{
    if heap.fixed.is_empty() {
        return growing::shared::insist_store_int(&mut heap.growing, alloc, object, field, number);
    }
    fixed::shared::insist_store_int(&mut heap.fixed, alloc, object, field, number)
}

/// As `rheap_insist_store_root` by owner 0, where `object` is a slot of this owner, and so is `src`.
#[unsafe(no_mangle)]
pub extern "C" fn rheap_shared_insist_store_root(
    heap: &mut Rheap,
    alloc: Global,
    object: u32,
    field: u32,
    src: u32,
) -> u8
    ensures { Calls (λ old new. IsInsisted old new 0 (commands.Store (shared_root object) field
        (operands.Root (shared_root src))) result)
        (λ old new. IsGrownInsisted old new 0 (commands.Store (shared_root object) field
        (operands.Root (shared_root src))) result) heap.old heap.new }
{
    if heap.fixed.is_empty() {
        return growing::shared::insist_store_root(&mut heap.growing, alloc, object, field, src);
    }
    fixed::shared::insist_store_root(&mut heap.fixed, alloc, object, field, src)
}
