//! New objects, and copies and drops of roots: `rheap_alloc`, `rheap_copy`, `rheap_drop`,
//! `rheap_same`.
//!
//! Most objects are made where no cycle is on and none begins. They are made in a few instructions,
//! and each other one by a call. Too many fields go to that call at once: without that case an object
//! takes 5 instructions fewer.

ghost use Rattle.rh_layout.specs.declared.command.Command.TheVariants as commands;
ghost use Rattle.rheap_c.specs.Called.{IsCompared, IsDone};
ghost use Rattle.rheap_c.specs.RootWord.{root_in};
ghost use Rattle.rheap_c.specs.Told.{root_of};

use crate::fixed_part::FixedPart;
use crate::root_word::RootWord;
use crate::status::{DONE, NOT_OPEN, answer_status};
use crate::value::{RheapRoot, sameness};
use rh_layout::MAX_FIELDS;
use std::alloc::Global;

/// `rheap_alloc`, on a heap of fixed sizes.
#[inline(always)]
pub(crate) fn alloc(
    heap: &mut FixedPart,
    alloc: Global,
    owner: u32,
    dst: RheapRoot,
    fields: u32,
) -> u8
    ensures { IsDone heap.old.state heap.new.state owner (commands.Alloc (root_of dst) fields)
        result }
{
    if heap.is_empty() {
        return NOT_OPEN;
    }
    if fields > MAX_FIELDS {
        return alloc_at_length(heap, alloc, owner, RootWord::of(dst), fields);
    }
    match heap.here().alloc_straight(owner, dst.id(), fields) {
        Some(_) => DONE,
        None => alloc_at_length(heap, alloc, owner, RootWord::of(dst), fields),
    }
}

/// As `rheap_alloc`, also in a cycle, where one begins, and where it is refused.
#[inline(never)]
pub(crate) fn alloc_at_length(
    heap: &mut FixedPart,
    alloc: Global,
    owner: u32,
    dst: RootWord,
    fields: u32,
) -> u8
    ensures { IsDone heap.old.state heap.new.state owner (commands.Alloc (root_in dst) fields)
        result }
{
    match heap.take(alloc) {
        None => NOT_OPEN,
        Some(mut inner) => {
            let told = inner.alloc(owner, dst.id(), fields);
            heap.give(inner);
            answer_status(&told)
        }
    }
}

/// `rheap_alloc_raw`, on a heap of fixed sizes.
#[inline(always)]
pub(crate) fn alloc_raw(
    heap: &mut FixedPart,
    alloc: Global,
    owner: u32,
    dst: RheapRoot,
    fields: u32,
) -> u8
    ensures { IsDone heap.old.state heap.new.state owner (commands.Raw (root_of dst) fields)
        result }
{
    if heap.is_empty() {
        return NOT_OPEN;
    }
    if fields > MAX_FIELDS {
        return alloc_raw_at_length(heap, alloc, owner, RootWord::of(dst), fields);
    }
    match heap.here().alloc_raw_straight(owner, dst.id(), fields) {
        Some(_) => DONE,
        None => alloc_raw_at_length(heap, alloc, owner, RootWord::of(dst), fields),
    }
}

/// As `rheap_alloc_raw`, also in a cycle, where one begins, and where it is refused.
#[inline(never)]
pub(crate) fn alloc_raw_at_length(
    heap: &mut FixedPart,
    alloc: Global,
    owner: u32,
    dst: RootWord,
    fields: u32,
) -> u8
    ensures { IsDone heap.old.state heap.new.state owner (commands.Raw (root_in dst) fields)
        result }
{
    match heap.take(alloc) {
        None => NOT_OPEN,
        Some(mut inner) => {
            let told = inner.alloc_raw(owner, dst.id(), fields);
            heap.give(inner);
            answer_status(&told)
        }
    }
}

/// `rheap_copy`, on a heap of fixed sizes.
#[inline(always)]
pub(crate) fn copy(heap: &mut FixedPart, owner: u32, dst: RheapRoot, src: RheapRoot) -> u8
    ensures { IsDone heap.old.state heap.new.state owner
        (commands.Copy (root_of dst) (root_of src)) result }
{
    if heap.is_empty() {
        return NOT_OPEN;
    }
    let told = heap.here().copy(owner, dst.id(), src.id());
    answer_status(&told)
}

/// `rheap_drop`, on a heap of fixed sizes.
#[inline(always)]
pub(crate) fn drop_root(heap: &mut FixedPart, owner: u32, root: RheapRoot) -> u8
    ensures { IsDone heap.old.state heap.new.state owner (commands.Drop (root_of root)) result }
{
    if heap.is_empty() {
        return NOT_OPEN;
    }
    let told = heap.here().drop(owner, root.id());
    answer_status(&told)
}

/// `rheap_same`, on a heap of fixed sizes.
#[inline(always)]
pub(crate) fn same(
    heap: &mut FixedPart,
    owner: u32,
    a: RheapRoot,
    b: RheapRoot,
    same: &mut u8,
) -> u8
    ensures { IsCompared heap.old.state heap.new.state owner (root_of a) (root_of b) result
        same.new }
{
    if heap.is_empty() {
        *same = 0;
        return NOT_OPEN;
    }
    let told = heap.here().same(owner, a.id(), b.id());
    *same = sameness(&told);
    answer_status(&told)
}
