//! New objects, and copies and drops of roots, on a heap that grows.

ghost use Rattle.rh_layout.specs.declared.command.Command.TheVariants as commands;
ghost use Rattle.rheap_c.specs.Grown.{IsGrownCompared, IsGrownDone};
ghost use Rattle.rheap_c.specs.RootWord.{root_in};

use crate::growing_part::GrowingPart;
use crate::root_word::RootWord;
use crate::status::{NOT_OPEN, answer_status};
use crate::value::sameness;
use std::alloc::Global;

/// `rheap_alloc`, on a heap that grows.
#[inline(never)]
pub(crate) fn alloc(
    heap: &mut GrowingPart,
    alloc: Global,
    owner: u32,
    dst: RootWord,
    fields: u32,
) -> u8
    ensures { IsGrownDone heap.old.state heap.new.state owner (commands.Alloc (root_in dst)
        fields) result }
{
    match heap.take(alloc) {
        None => NOT_OPEN,
        Some(mut inner) => {
            let told = inner.alloc(owner, dst.id(), fields);
            heap.give(inner);
            answer_status(&told)
        }
    }
}

/// `rheap_alloc_raw`, on a heap that grows.
#[inline(never)]
pub(crate) fn alloc_raw(
    heap: &mut GrowingPart,
    alloc: Global,
    owner: u32,
    dst: RootWord,
    fields: u32,
) -> u8
    ensures { IsGrownDone heap.old.state heap.new.state owner (commands.Raw (root_in dst)
        fields) result }
{
    match heap.take(alloc) {
        None => NOT_OPEN,
        Some(mut inner) => {
            let told = inner.alloc_raw(owner, dst.id(), fields);
            heap.give(inner);
            answer_status(&told)
        }
    }
}

/// `rheap_copy`, on a heap that grows.
#[inline(never)]
pub(crate) fn copy(
    heap: &mut GrowingPart,
    alloc: Global,
    owner: u32,
    dst: RootWord,
    src: RootWord,
) -> u8
    ensures { IsGrownDone heap.old.state heap.new.state owner (commands.Copy (root_in dst)
        (root_in src)) result }
{
    match heap.take(alloc) {
        None => NOT_OPEN,
        Some(mut inner) => {
            let told = inner.copy(owner, dst.id(), src.id());
            heap.give(inner);
            answer_status(&told)
        }
    }
}

/// `rheap_drop`, on a heap that grows.
#[inline(never)]
pub(crate) fn drop_root(heap: &mut GrowingPart, alloc: Global, owner: u32, root: RootWord) -> u8
    ensures { IsGrownDone heap.old.state heap.new.state owner (commands.Drop (root_in root))
        result }
{
    match heap.take(alloc) {
        None => NOT_OPEN,
        Some(mut inner) => {
            let told = inner.drop(owner, root.id());
            heap.give(inner);
            answer_status(&told)
        }
    }
}

/// `rheap_same`, on a heap that grows.
#[inline(never)]
pub(crate) fn same(
    heap: &mut GrowingPart,
    alloc: Global,
    owner: u32,
    a: RootWord,
    b: RootWord,
    same: &mut u8,
) -> u8
    ensures { IsGrownCompared heap.old.state heap.new.state owner (root_in a) (root_in b)
        result same.new }
{
    match heap.take(alloc) {
        None => {
            *same = 0;
            NOT_OPEN
        }
        Some(mut inner) => {
            let told = inner.same(owner, a.id(), b.id());
            heap.give(inner);
            *same = sameness(&told);
            answer_status(&told)
        }
    }
}
