//! Calls that insist on room: `rheap_insist_alloc`, `rheap_insist_store_int` and the like.
//!
//! Most come while no cycle is on and are accepted. These are done in a few instructions, each
//! other one by a call. As in `objects`, too many fields go to that call at once.

ghost use Rattle.std.specs.Prelude.{◌≡◌};
ghost use Rattle.rh_layout.specs.declared.command.Command.TheVariants as commands;
ghost use Rattle.rh_layout.specs.declared.command.Operand.TheVariants as operands;
ghost use Rattle.rh_pace.specs.Calls.{IsPacedCall};
ghost use Rattle.rh_pace.specs.Paced.{PacedState};
ghost use Rattle.rheap_c.specs.Insisted.{IsInsisted, IsInsistedCall};
ghost use Rattle.rheap_c.specs.RootWord.{root_in};
ghost use Rattle.rheap_c.specs.Told.{root_of};

use crate::fixed_part::FixedPart;
use crate::root_word::RootWord;
use crate::status::{DONE, NOT_OPEN, answer_status};
use crate::value::RheapRoot;
use rh_layout::{Command, MAX_FIELDS, Operand, Refusal, Reply, RootId};
use rh_pace::{PacedHeap, wants_room};
use std::alloc::Global;

/// `rheap_insist_alloc`, on a heap of fixed sizes.
#[inline(always)]
pub(crate) fn insist_alloc(
    heap: &mut FixedPart,
    alloc: Global,
    owner: u32,
    dst: RheapRoot,
    fields: u32,
) -> u8
    ensures { IsInsisted heap.old.state heap.new.state owner
        (commands.Alloc (root_of dst) fields) result }
{
    if heap.is_empty() {
        return NOT_OPEN;
    }
    if fields > MAX_FIELDS {
        return insist_alloc_at_length(heap, alloc, owner, RootWord::of(dst), fields);
    }
    match heap.here().alloc_straight(owner, dst.id(), fields) {
        Some(_) => DONE,
        None => insist_alloc_at_length(heap, alloc, owner, RootWord::of(dst), fields),
    }
}

/// As `rheap_insist_alloc`, also in a cycle, where one begins, and where it is refused.
#[inline(never)]
pub(crate) fn insist_alloc_at_length(
    heap: &mut FixedPart,
    alloc: Global,
    owner: u32,
    dst: RootWord,
    fields: u32,
) -> u8
    ensures { IsInsisted heap.old.state heap.new.state owner
        (commands.Alloc (root_in dst) fields) result }
{
    match heap.take(alloc) {
        None => NOT_OPEN,
        Some(mut inner) => {
            let dst = dst.id();
            let tried = inner.alloc(owner, dst, fields);
            let told = insist(&mut inner, owner, &Command::Alloc { dst, fields }, tried);
            heap.give(inner);
            answer_status(&told)
        }
    }
}

/// `rheap_insist_alloc_raw`, on a heap of fixed sizes.
#[inline(always)]
pub(crate) fn insist_alloc_raw(
    heap: &mut FixedPart,
    alloc: Global,
    owner: u32,
    dst: RheapRoot,
    fields: u32,
) -> u8
    ensures { IsInsisted heap.old.state heap.new.state owner
        (commands.Raw (root_of dst) fields) result }
{
    if heap.is_empty() {
        return NOT_OPEN;
    }
    if fields > MAX_FIELDS {
        return insist_alloc_raw_at_length(heap, alloc, owner, RootWord::of(dst), fields);
    }
    match heap.here().alloc_raw_straight(owner, dst.id(), fields) {
        Some(_) => DONE,
        None => insist_alloc_raw_at_length(heap, alloc, owner, RootWord::of(dst), fields),
    }
}

/// As `rheap_insist_alloc_raw`, also in a cycle, where one begins, and where it is refused.
#[inline(never)]
pub(crate) fn insist_alloc_raw_at_length(
    heap: &mut FixedPart,
    alloc: Global,
    owner: u32,
    dst: RootWord,
    fields: u32,
) -> u8
    ensures { IsInsisted heap.old.state heap.new.state owner
        (commands.Raw (root_in dst) fields) result }
{
    match heap.take(alloc) {
        None => NOT_OPEN,
        Some(mut inner) => {
            let dst = dst.id();
            let tried = inner.alloc_raw(owner, dst, fields);
            let told = insist(&mut inner, owner, &Command::Raw { dst, fields }, tried);
            heap.give(inner);
            answer_status(&told)
        }
    }
}

/// `rheap_insist_store_nil`, on a heap of fixed sizes.
#[inline(always)]
pub(crate) fn insist_store_nil(
    heap: &mut FixedPart,
    alloc: Global,
    owner: u32,
    object: RheapRoot,
    field: u32,
) -> u8
    ensures { IsInsisted heap.old.state heap.new.state owner
        (commands.Store (root_of object) field operands.Nil) result }
{
    if heap.is_empty() {
        return NOT_OPEN;
    }
    match heap
        .here()
        .store_straight(owner, object.id(), field, Operand::Nil)
    {
        Some(_) => DONE,
        None => insist_store_nil_at_length(heap, alloc, owner, RootWord::of(object), field),
    }
}

/// As `rheap_insist_store_nil`, also in a cycle, and where it is refused.
#[inline(never)]
pub(crate) fn insist_store_nil_at_length(
    heap: &mut FixedPart,
    alloc: Global,
    owner: u32,
    object: RootWord,
    field: u32,
) -> u8
    ensures { IsInsisted heap.old.state heap.new.state owner
        (commands.Store (root_in object) field operands.Nil) result }
{
    insist_store(heap, alloc, owner, object.id(), field, Operand::Nil)
}

/// `rheap_insist_store_int`, on a heap of fixed sizes.
#[inline(always)]
pub(crate) fn insist_store_int(
    heap: &mut FixedPart,
    alloc: Global,
    owner: u32,
    object: RheapRoot,
    field: u32,
    number: i64,
) -> u8
    ensures { IsInsisted heap.old.state heap.new.state owner
        (commands.Store (root_of object) field (operands.Int number)) result }
{
    if heap.is_empty() {
        return NOT_OPEN;
    }
    match heap
        .here()
        .store_straight(owner, object.id(), field, Operand::Int(number))
    {
        Some(_) => DONE,
        None => insist_store_int_at_length(heap, alloc, owner, RootWord::of(object), field, number),
    }
}

/// As `rheap_insist_store_int`, also in a cycle, and where it is refused.
#[inline(never)]
pub(crate) fn insist_store_int_at_length(
    heap: &mut FixedPart,
    alloc: Global,
    owner: u32,
    object: RootWord,
    field: u32,
    number: i64,
) -> u8
    ensures { IsInsisted heap.old.state heap.new.state owner
        (commands.Store (root_in object) field (operands.Int number)) result }
{
    insist_store(heap, alloc, owner, object.id(), field, Operand::Int(number))
}

/// `rheap_insist_store_root`, on a heap of fixed sizes.
#[inline(always)]
pub(crate) fn insist_store_root(
    heap: &mut FixedPart,
    alloc: Global,
    owner: u32,
    object: RheapRoot,
    field: u32,
    src: RheapRoot,
) -> u8
    ensures { IsInsisted heap.old.state heap.new.state owner
        (commands.Store (root_of object) field (operands.Root (root_of src))) result }
{
    if heap.is_empty() {
        return NOT_OPEN;
    }
    match heap
        .here()
        .store_straight(owner, object.id(), field, Operand::Root(src.id()))
    {
        Some(_) => DONE,
        None => insist_store_root_at_length(
            heap,
            alloc,
            owner,
            RootWord::of(object),
            field,
            RootWord::of(src),
        ),
    }
}

/// As `rheap_insist_store_root`, also in a cycle, and where it is refused.
#[inline(never)]
pub(crate) fn insist_store_root_at_length(
    heap: &mut FixedPart,
    alloc: Global,
    owner: u32,
    object: RootWord,
    field: u32,
    src: RootWord,
) -> u8
    ensures { IsInsisted heap.old.state heap.new.state owner
        (commands.Store (root_in object) field (operands.Root (root_in src))) result }
{
    insist_store(
        heap,
        alloc,
        owner,
        object.id(),
        field,
        Operand::Root(src.id()),
    )
}

/// A store that insists on room.
#[inline(always)]
fn insist_store(
    heap: &mut FixedPart,
    alloc: Global,
    owner: u32,
    obj: RootId,
    field: u32,
    operand: Operand,
) -> u8
    ensures { IsInsisted heap.old.state heap.new.state owner (commands.Store obj field operand)
        result }
{
    match heap.take(alloc) {
        None => NOT_OPEN,
        Some(mut inner) => {
            let tried = inner.store(owner, obj, field, operand);
            let command = Command::Store {
                obj,
                field,
                operand,
            };
            let told = insist(&mut inner, owner, &command, tried);
            heap.give(inner);
            answer_status(&told)
        }
    }
}

/// Goes on with a command that was tried: where it found no room, it is insisted on. That tries it
/// once more, to the same answer; most commands are answered at once, without this.
#[inline(always)]
pub(crate) fn insist(
    heap: &mut PacedHeap<Global>,
    owner: u32,
    command: &Command,
    tried: Result<Reply, Refusal>,
) -> Result<Reply, Refusal>
    ensures { (before : PacedState) → IsPacedCall before heap.old owner command.now tried
        → IsInsistedCall before heap.new owner command.now result }
{
    if wants_room(&tried) {
        insisted(heap, owner, command)
    } else {
        tried
    }
}

/// What `PacedHeap::insist` promises, as one fact.
#[inline(never)]
fn insisted(heap: &mut PacedHeap<Global>, owner: u32, command: &Command) -> Result<Reply, Refusal>
    ensures { IsInsistedCall heap.old heap.new owner command.now result }
{
    heap.insist(owner, command)
}
