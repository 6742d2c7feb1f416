//! Calls that insist on room, on a heap that grows.

ghost use Rattle.rh_layout.specs.declared.command.Command.TheVariants as commands;
ghost use Rattle.rh_layout.specs.declared.command.Operand.TheVariants as operands;
ghost use Rattle.rheap_c.specs.Grown.{InsistsOnce, IsGrownInsisted};
ghost use Rattle.rheap_c.specs.RootWord.{root_in};

use crate::growing_part::GrowingPart;
use crate::root_word::RootWord;
use crate::status::{NOT_OPEN, answer_status};
use rh_growing::GrowingHeap;
use rh_layout::{Command, Operand, Refusal, Reply, RootId};
use std::alloc::Global;

/// `rheap_insist_alloc`, on a heap that grows.
#[inline(never)]
pub(crate) fn insist_alloc(
    heap: &mut GrowingPart,
    alloc: Global,
    owner: u32,
    dst: RootWord,
    fields: u32,
) -> u8
    ensures { IsGrownInsisted heap.old.state heap.new.state owner (commands.Alloc (root_in dst)
        fields) result }
{
    match heap.take(alloc) {
        None => NOT_OPEN,
        Some(mut inner) => {
            let told = insist_alloc_in(&mut inner, owner, dst.id(), fields);
            heap.give(inner);
            answer_status(&told)
        }
    }
}

/// `rheap_insist_alloc_raw`, on a heap that grows.
#[inline(never)]
pub(crate) fn insist_alloc_raw(
    heap: &mut GrowingPart,
    alloc: Global,
    owner: u32,
    dst: RootWord,
    fields: u32,
) -> u8
    ensures { IsGrownInsisted heap.old.state heap.new.state owner (commands.Raw (root_in dst)
        fields) result }
{
    match heap.take(alloc) {
        None => NOT_OPEN,
        Some(mut inner) => {
            let told = insist_alloc_raw_in(&mut inner, owner, dst.id(), fields);
            heap.give(inner);
            answer_status(&told)
        }
    }
}

/// `rheap_insist_store_nil`, on a heap that grows.
#[inline(never)]
pub(crate) fn insist_store_nil(
    heap: &mut GrowingPart,
    alloc: Global,
    owner: u32,
    object: RootWord,
    field: u32,
) -> u8
    ensures { IsGrownInsisted heap.old.state heap.new.state owner (commands.Store (root_in object) field operands.Nil) result }
{
    match heap.take(alloc) {
        None => NOT_OPEN,
        Some(mut inner) => {
            let told = insist_store_in(&mut inner, owner, object.id(), field, Operand::Nil);
            heap.give(inner);
            answer_status(&told)
        }
    }
}

/// `rheap_insist_store_int`, on a heap that grows.
#[inline(never)]
pub(crate) fn insist_store_int(
    heap: &mut GrowingPart,
    alloc: Global,
    owner: u32,
    object: RootWord,
    field: u32,
    number: i64,
) -> u8
    ensures { IsGrownInsisted heap.old.state heap.new.state owner (commands.Store (root_in object) field (operands.Int number)) result }
{
    match heap.take(alloc) {
        None => NOT_OPEN,
        Some(mut inner) => {
            let operand = Operand::Int(number);
            let told = insist_store_in(&mut inner, owner, object.id(), field, operand);
            heap.give(inner);
            answer_status(&told)
        }
    }
}

/// `rheap_insist_store_root`, on a heap that grows.
#[inline(never)]
pub(crate) fn insist_store_root(
    heap: &mut GrowingPart,
    alloc: Global,
    owner: u32,
    object: RootWord,
    field: u32,
    src: RootWord,
) -> u8
    ensures { IsGrownInsisted heap.old.state heap.new.state owner (commands.Store (root_in object) field (operands.Root (root_in src))) result }
{
    match heap.take(alloc) {
        None => NOT_OPEN,
        Some(mut inner) => {
            let operand = Operand::Root(src.id());
            let told = insist_store_in(&mut inner, owner, object.id(), field, operand);
            heap.give(inner);
            answer_status(&told)
        }
    }
}

/// What `GrowingHeap::insist` promises, as one fact.
#[inline(never)]
fn insisted(heap: &mut GrowingHeap<Global>, owner: u32, command: &Command) -> Result<Reply, Refusal>
    ensures { InsistsOnce heap.old heap.new owner command.now result }
{
    heap.insist(owner, command)
}

/// A new object that is insisted on. Most are made at once.
#[inline(always)]
fn insist_alloc_in(
    heap: &mut GrowingHeap<Global>,
    owner: u32,
    dst: RootId,
    fields: u32,
) -> Result<Reply, Refusal>
    ensures { InsistsOnce heap.old heap.new owner (commands.Alloc dst fields) result }
{
    match heap.alloc(owner, dst, fields) {
        Ok(reply) => Ok(reply),
        Err(_) => insisted(heap, owner, &Command::Alloc { dst, fields }),
    }
}

/// A new raw object that is insisted on. Most are made at once.
#[inline(always)]
fn insist_alloc_raw_in(
    heap: &mut GrowingHeap<Global>,
    owner: u32,
    dst: RootId,
    fields: u32,
) -> Result<Reply, Refusal>
    ensures { InsistsOnce heap.old heap.new owner (commands.Raw dst fields) result }
{
    match heap.alloc_raw(owner, dst, fields) {
        Ok(reply) => Ok(reply),
        Err(_) => insisted(heap, owner, &Command::Raw { dst, fields }),
    }
}

/// A store that is insisted on. Most are done at once.
#[inline(always)]
pub(crate) fn insist_store_in(
    heap: &mut GrowingHeap<Global>,
    owner: u32,
    obj: RootId,
    field: u32,
    operand: Operand,
) -> Result<Reply, Refusal>
    ensures { InsistsOnce heap.old heap.new owner (commands.Store obj field operand) result }
{
    match heap.store(owner, obj, field, operand) {
        Ok(reply) => Ok(reply),
        Err(_) => {
            let command = Command::Store {
                obj,
                field,
                operand,
            };
            insisted(heap, owner, &command)
        }
    }
}
