//! The calls on the slots of owner 0 by number, on a heap of fixed sizes: `rheap_shared_load` and the
//! like.
//!
//! What isn't done in a few instructions is left to the call by owner 0. Too many fields aren't looked
//! for first here: by number that saves nothing.

ghost use Rattle.std.specs.Prelude.{◌≡◌};
ghost use Rattle.rh_layout.specs.declared.command.Command.TheVariants as commands;
ghost use Rattle.rh_layout.specs.declared.command.Operand.TheVariants as operands;
ghost use Rattle.rheap_c.specs.Called.{IsDone, IsLoaded};
ghost use Rattle.rheap_c.specs.Insisted.{IsInsisted};
ghost use Rattle.rheap_c.specs.Read.{IsAnswered, peek_answer};
ghost use Rattle.rheap_c.specs.Shared.{shared_root};

use crate::fixed::{fields, insisting, objects};
use crate::fixed_part::FixedPart;
use crate::root_word::RootWord;
use crate::status::{DONE, NOT_OPEN, answer_status};
use crate::value::RheapValue;
use rh_layout::{Operand, Refusal, Reply, RootId};
use rh_pace::PacedHeap;
use std::alloc::Global;

/// `rheap_shared_alloc`, on a heap of fixed sizes.
#[inline(always)]
pub(crate) fn alloc(heap: &mut FixedPart, alloc: Global, dst: u32, fields: u32) -> u8
    ensures { IsDone heap.old.state heap.new.state 0 (commands.Alloc (shared_root dst) fields)
        result }
{
    if heap.is_empty() {
        return NOT_OPEN;
    }
    match heap.here().alloc_straight(0, shared(dst), fields) {
        Some(_) => DONE,
        None => alloc_at_length(heap, alloc, dst, fields),
    }
}

/// `rheap_shared_alloc_raw`, on a heap of fixed sizes.
#[inline(always)]
pub(crate) fn alloc_raw(heap: &mut FixedPart, alloc: Global, dst: u32, fields: u32) -> u8
    ensures { IsDone heap.old.state heap.new.state 0 (commands.Raw (shared_root dst) fields)
        result }
{
    if heap.is_empty() {
        return NOT_OPEN;
    }
    match heap.here().alloc_raw_straight(0, shared(dst), fields) {
        Some(_) => DONE,
        None => alloc_raw_at_length(heap, alloc, dst, fields),
    }
}

/// `rheap_shared_load`, on a heap of fixed sizes.
#[inline(always)]
pub(crate) fn load(
    heap: &mut FixedPart,
    dst: u32,
    src: u32,
    field: u32,
    value: &mut RheapValue,
) -> u8
    ensures { IsLoaded heap.old.state heap.new.state 0 (shared_root dst) (shared_root src) field
        result value.new }
{
    if heap.is_empty() {
        *value = RheapValue::nil();
        return NOT_OPEN;
    }
    let told = heap.here().load(0, shared(dst), shared(src), field);
    *value = RheapValue::told(&told);
    answer_status(&told)
}

/// `rheap_shared_load_untold`, on a heap of fixed sizes.
#[inline(always)]
pub(crate) fn load_untold(heap: &mut FixedPart, dst: u32, src: u32, field: u32) -> u8
    ensures { IsDone heap.old.state heap.new.state 0
        (commands.Load (shared_root dst) (shared_root src) field) result }
{
    if heap.is_empty() {
        return NOT_OPEN;
    }
    let told = heap.here().load(0, shared(dst), shared(src), field);
    answer_status(&told)
}

/// `rheap_shared_peek`, on a heap of fixed sizes.
#[inline(always)]
pub(crate) fn peek(heap: &mut FixedPart, src: u32, field: u32, value: &mut RheapValue) -> u8
    ensures { IsAnswered (λ s. peek_answer s 0 (shared_root src) field) heap.old.state
        heap.new.state result value.new }
{
    if heap.is_empty() {
        *value = RheapValue::nil();
        return NOT_OPEN;
    }
    let told = told_of_peek(heap.here(), shared(src), field);
    *value = RheapValue::told(&told);
    answer_status(&told)
}

/// `rheap_shared_store_nil`, on a heap of fixed sizes.
#[inline(always)]
pub(crate) fn store_nil(heap: &mut FixedPart, alloc: Global, object: u32, field: u32) -> u8
    ensures { IsDone heap.old.state heap.new.state 0
        (commands.Store (shared_root object) field operands.Nil) result }
{
    if heap.is_empty() {
        return NOT_OPEN;
    }
    match heap
        .here()
        .store_straight(0, shared(object), field, Operand::Nil)
    {
        Some(_) => DONE,
        None => store_nil_at_length(heap, alloc, object, field),
    }
}

/// `rheap_shared_store_int`, on a heap of fixed sizes.
#[inline(always)]
pub(crate) fn store_int(
    heap: &mut FixedPart,
    alloc: Global,
    object: u32,
    field: u32,
    number: i64,
) -> u8
    ensures { IsDone heap.old.state heap.new.state 0
        (commands.Store (shared_root object) field (operands.Int number)) result }
{
    if heap.is_empty() {
        return NOT_OPEN;
    }
    match heap
        .here()
        .store_straight(0, shared(object), field, Operand::Int(number))
    {
        Some(_) => DONE,
        None => store_int_at_length(heap, alloc, object, field, number),
    }
}

/// `rheap_shared_store_root`, on a heap of fixed sizes.
#[inline(always)]
pub(crate) fn store_root(
    heap: &mut FixedPart,
    alloc: Global,
    object: u32,
    field: u32,
    src: u32,
) -> u8
    ensures { IsDone heap.old.state heap.new.state 0
        (commands.Store (shared_root object) field (operands.Root (shared_root src))) result }
{
    if heap.is_empty() {
        return NOT_OPEN;
    }
    match heap
        .here()
        .store_straight(0, shared(object), field, Operand::Root(shared(src)))
    {
        Some(_) => DONE,
        None => store_root_at_length(heap, alloc, object, field, src),
    }
}

/// `rheap_shared_copy`, on a heap of fixed sizes.
#[inline(always)]
pub(crate) fn copy(heap: &mut FixedPart, dst: u32, src: u32) -> u8
    ensures { IsDone heap.old.state heap.new.state 0
        (commands.Copy (shared_root dst) (shared_root src)) result }
{
    if heap.is_empty() {
        return NOT_OPEN;
    }
    let told = heap.here().copy(0, shared(dst), shared(src));
    answer_status(&told)
}

/// `rheap_shared_drop`, on a heap of fixed sizes.
#[inline(always)]
pub(crate) fn drop_root(heap: &mut FixedPart, root: u32) -> u8
    ensures { IsDone heap.old.state heap.new.state 0 (commands.Drop (shared_root root)) result }
{
    if heap.is_empty() {
        return NOT_OPEN;
    }
    let told = heap.here().drop(0, shared(root));
    answer_status(&told)
}

/// `rheap_shared_insist_alloc`, on a heap of fixed sizes.
#[inline(always)]
pub(crate) fn insist_alloc(heap: &mut FixedPart, alloc: Global, dst: u32, fields: u32) -> u8
    ensures { IsInsisted heap.old.state heap.new.state 0 (commands.Alloc (shared_root dst) fields)
        result }
{
    if heap.is_empty() {
        return NOT_OPEN;
    }
    match heap.here().alloc_straight(0, shared(dst), fields) {
        Some(_) => DONE,
        None => insist_alloc_at_length(heap, alloc, dst, fields),
    }
}

/// `rheap_shared_insist_alloc_raw`, on a heap of fixed sizes.
#[inline(always)]
pub(crate) fn insist_alloc_raw(heap: &mut FixedPart, alloc: Global, dst: u32, fields: u32) -> u8
    ensures { IsInsisted heap.old.state heap.new.state 0 (commands.Raw (shared_root dst) fields)
        result }
{
    if heap.is_empty() {
        return NOT_OPEN;
    }
    match heap.here().alloc_raw_straight(0, shared(dst), fields) {
        Some(_) => DONE,
        None => insist_alloc_raw_at_length(heap, alloc, dst, fields),
    }
}

/// `rheap_shared_insist_store_nil`, on a heap of fixed sizes.
#[inline(always)]
pub(crate) fn insist_store_nil(heap: &mut FixedPart, alloc: Global, object: u32, field: u32) -> u8
    ensures { IsInsisted heap.old.state heap.new.state 0
        (commands.Store (shared_root object) field operands.Nil) result }
{
    if heap.is_empty() {
        return NOT_OPEN;
    }
    match heap
        .here()
        .store_straight(0, shared(object), field, Operand::Nil)
    {
        Some(_) => DONE,
        None => insist_store_nil_at_length(heap, alloc, object, field),
    }
}

/// `rheap_shared_insist_store_int`, on a heap of fixed sizes.
#[inline(always)]
pub(crate) fn insist_store_int(
    heap: &mut FixedPart,
    alloc: Global,
    object: u32,
    field: u32,
    number: i64,
) -> u8
    ensures { IsInsisted heap.old.state heap.new.state 0
        (commands.Store (shared_root object) field (operands.Int number)) result }
{
    if heap.is_empty() {
        return NOT_OPEN;
    }
    match heap
        .here()
        .store_straight(0, shared(object), field, Operand::Int(number))
    {
        Some(_) => DONE,
        None => insist_store_int_at_length(heap, alloc, object, field, number),
    }
}

/// `rheap_shared_insist_store_root`, on a heap of fixed sizes.
#[inline(always)]
pub(crate) fn insist_store_root(
    heap: &mut FixedPart,
    alloc: Global,
    object: u32,
    field: u32,
    src: u32,
) -> u8
    ensures { IsInsisted heap.old.state heap.new.state 0
        (commands.Store (shared_root object) field (operands.Root (shared_root src))) result }
{
    if heap.is_empty() {
        return NOT_OPEN;
    }
    match heap
        .here()
        .store_straight(0, shared(object), field, Operand::Root(shared(src)))
    {
        Some(_) => DONE,
        None => insist_store_root_at_length(heap, alloc, object, field, src),
    }
}

/// What a load by owner 0 is answered with, whatever root takes the value.
#[inline(always)]
fn told_of_peek(heap: &PacedHeap<Global>, src: RootId, field: u32) -> Result<Reply, Refusal>
    ensures { result ≡ peek_answer heap.now 0 src field }
{
    heap.peek(0, src, field)
}

/// The root in a slot of owner 0.
#[inline(always)]
fn shared(slot: u32) -> RootId
    ensures { result ≡ shared_root slot }
{
    RootId { owner: 0, slot }
}

/// As `rheap_shared_alloc`, also in a cycle, where one begins, and where it is refused.
#[inline(never)]
fn alloc_at_length(heap: &mut FixedPart, alloc: Global, dst: u32, fields: u32) -> u8
    ensures { IsDone heap.old.state heap.new.state 0 (commands.Alloc (shared_root dst) fields)
        result }
{
    objects::alloc_at_length(heap, alloc, 0, RootWord::shared(dst), fields)
}

/// As `rheap_shared_alloc_raw`, also in a cycle, where one begins, and where it is refused.
#[inline(never)]
fn alloc_raw_at_length(heap: &mut FixedPart, alloc: Global, dst: u32, fields: u32) -> u8
    ensures { IsDone heap.old.state heap.new.state 0 (commands.Raw (shared_root dst) fields)
        result }
{
    objects::alloc_raw_at_length(heap, alloc, 0, RootWord::shared(dst), fields)
}

/// As `rheap_shared_store_nil`, also in a cycle, and where it is refused.
#[inline(never)]
fn store_nil_at_length(heap: &mut FixedPart, alloc: Global, object: u32, field: u32) -> u8
    ensures { IsDone heap.old.state heap.new.state 0 (commands.Store (shared_root object) field
        operands.Nil) result }
{
    fields::store_nil_at_length(heap, alloc, 0, RootWord::shared(object), field)
}

/// As `rheap_shared_store_int`, also in a cycle, and where it is refused.
#[inline(never)]
fn store_int_at_length(
    heap: &mut FixedPart,
    alloc: Global,
    object: u32,
    field: u32,
    number: i64,
) -> u8
    ensures { IsDone heap.old.state heap.new.state 0 (commands.Store (shared_root object) field
        (operands.Int number)) result }
{
    fields::store_int_at_length(heap, alloc, 0, RootWord::shared(object), field, number)
}

/// As `rheap_shared_store_root`, also in a cycle, and where it is refused.
#[inline(never)]
fn store_root_at_length(
    heap: &mut FixedPart,
    alloc: Global,
    object: u32,
    field: u32,
    src: u32,
) -> u8
    ensures { IsDone heap.old.state heap.new.state 0 (commands.Store (shared_root object) field
        (operands.Root (shared_root src))) result }
{
    fields::store_root_at_length(
        heap,
        alloc,
        0,
        RootWord::shared(object),
        field,
        RootWord::shared(src),
    )
}

/// As `rheap_shared_insist_alloc`, also in a cycle, where one begins, and where it is refused.
#[inline(never)]
fn insist_alloc_at_length(heap: &mut FixedPart, alloc: Global, dst: u32, fields: u32) -> u8
    ensures { IsInsisted heap.old.state heap.new.state 0 (commands.Alloc (shared_root dst) fields)
        result }
{
    insisting::insist_alloc_at_length(heap, alloc, 0, RootWord::shared(dst), fields)
}

/// As `rheap_shared_insist_alloc_raw`, also in a cycle, where one begins, and where it is refused.
#[inline(never)]
fn insist_alloc_raw_at_length(heap: &mut FixedPart, alloc: Global, dst: u32, fields: u32) -> u8
    ensures { IsInsisted heap.old.state heap.new.state 0 (commands.Raw (shared_root dst) fields)
        result }
{
    insisting::insist_alloc_raw_at_length(heap, alloc, 0, RootWord::shared(dst), fields)
}

/// As `rheap_shared_insist_store_nil`, also in a cycle, and where it is refused.
#[inline(never)]
fn insist_store_nil_at_length(heap: &mut FixedPart, alloc: Global, object: u32, field: u32) -> u8
    ensures { IsInsisted heap.old.state heap.new.state 0 (commands.Store (shared_root object) field
        operands.Nil) result }
{
    insisting::insist_store_nil_at_length(heap, alloc, 0, RootWord::shared(object), field)
}

/// As `rheap_shared_insist_store_int`, also in a cycle, and where it is refused.
#[inline(never)]
fn insist_store_int_at_length(
    heap: &mut FixedPart,
    alloc: Global,
    object: u32,
    field: u32,
    number: i64,
) -> u8
    ensures { IsInsisted heap.old.state heap.new.state 0 (commands.Store (shared_root object) field
        (operands.Int number)) result }
{
    insisting::insist_store_int_at_length(heap, alloc, 0, RootWord::shared(object), field, number)
}

/// As `rheap_shared_insist_store_root`, also in a cycle, and where it is refused.
#[inline(never)]
fn insist_store_root_at_length(
    heap: &mut FixedPart,
    alloc: Global,
    object: u32,
    field: u32,
    src: u32,
) -> u8
    ensures { IsInsisted heap.old.state heap.new.state 0 (commands.Store (shared_root object) field
        (operands.Root (shared_root src))) result }
{
    insisting::insist_store_root_at_length(
        heap,
        alloc,
        0,
        RootWord::shared(object),
        field,
        RootWord::shared(src),
    )
}
