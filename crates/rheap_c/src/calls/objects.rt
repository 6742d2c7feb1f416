//! New objects, and copies and drops of roots: `rheap_alloc`, `rheap_copy`, `rheap_drop`,
//! `rheap_same`.
//!
//! Most objects are made where no cycle is on and none begins. They are made in a few instructions,
//! and each other one by a call.

ghost use Rattle.rh_layout.specs.declared.command.Command.TheVariants as commands;
ghost use Rattle.rheap_c.specs.Called.{IsCompared, IsDone};
ghost use Rattle.rheap_c.specs.Told.{root_of};
ghost use Rattle.rheap_c.specs.Grown.{IsGrownCompared, IsGrownDone};
ghost use Rattle.rheap_c.specs.Handle.{Calls};

use crate::handle::Rheap;
use crate::root_word::RootWord;
use crate::value::RheapRoot;
use crate::{fixed, growing};
use std::alloc::Global;

/// The root `dst` names a new object of so many fields, all nil, as `PacedHeap::alloc`.
#[unsafe(no_mangle)]
pub extern "C" fn rheap_alloc(
    heap: &mut Rheap,
    alloc: Global,
    owner: u32,
    dst: RheapRoot,
    fields: u32,
) -> u8
    ensures { Calls (λ old new. IsDone old new owner (commands.Alloc (root_of dst) fields) result)
        (λ old new. IsGrownDone old new owner (commands.Alloc (root_of dst) fields) result) heap.old
        heap.new }
{
    if heap.fixed.is_empty() {
        return growing::objects::alloc(&mut heap.growing, alloc, owner, RootWord::of(dst), fields);
    }
    fixed::objects::alloc(&mut heap.fixed, alloc, owner, dst, fields)
}

/// The root `dst` names a new raw object of so many fields, all nil, as `PacedHeap::alloc_raw`.
#[unsafe(no_mangle)]
pub extern "C" fn rheap_alloc_raw(
    heap: &mut Rheap,
    alloc: Global,
    owner: u32,
    dst: RheapRoot,
    fields: u32,
) -> u8
    ensures { Calls (λ old new. IsDone old new owner (commands.Raw (root_of dst) fields) result)
        (λ old new. IsGrownDone old new owner (commands.Raw (root_of dst) fields) result) heap.old
        heap.new }
{
    if heap.fixed.is_empty() {
        return growing::objects::alloc_raw(
            &mut heap.growing,
            alloc,
            owner,
            RootWord::of(dst),
            fields,
        );
    }
    fixed::objects::alloc_raw(&mut heap.fixed, alloc, owner, dst, fields)
}

/// The root `dst` takes the value that `src` holds, as `PacedHeap::copy`.
#[unsafe(no_mangle)]
pub extern "C" fn rheap_copy(
    heap: &mut Rheap,
    alloc: Global,
    owner: u32,
    dst: RheapRoot,
    src: RheapRoot,
) -> u8
    ensures { Calls (λ old new. IsDone old new owner (commands.Copy (root_of dst) (root_of src))
        result)
        (λ old new. IsGrownDone old new owner (commands.Copy (root_of dst) (root_of src)) result)
        heap.old heap.new }
{
    if heap.fixed.is_empty() {
        return growing::objects::copy(
            &mut heap.growing,
            alloc,
            owner,
            RootWord::of(dst),
            RootWord::of(src),
        );
    }
    fixed::objects::copy(&mut heap.fixed, owner, dst, src)
}

/// The root becomes nil, as `PacedHeap::drop`.
#[unsafe(no_mangle)]
pub extern "C" fn rheap_drop(heap: &mut Rheap, alloc: Global, owner: u32, root: RheapRoot) -> u8
    ensures { Calls (λ old new. IsDone old new owner (commands.Drop (root_of root)) result)
        (λ old new. IsGrownDone old new owner (commands.Drop (root_of root)) result) heap.old
        heap.new }
{
    if heap.fixed.is_empty() {
        return growing::objects::drop_root(&mut heap.growing, alloc, owner, RootWord::of(root));
    }
    fixed::objects::drop_root(&mut heap.fixed, owner, root)
}

/// Whether two roots hold equal values, as `PacedHeap::same`: `same` is 1 then, and else 0.
#[unsafe(no_mangle)]
pub extern "C" fn rheap_same(
    heap: &mut Rheap,
    alloc: Global,
    owner: u32,
    a: RheapRoot,
    b: RheapRoot,
    same: &mut u8,
) -> u8
    ensures { Calls (λ old new. IsCompared old new owner (root_of a) (root_of b) result same.new)
        (λ old new. IsGrownCompared old new owner (root_of a) (root_of b) result same.new) heap.old
        heap.new }
{
    if heap.fixed.is_empty() {
        return growing::objects::same(
            &mut heap.growing,
            alloc,
            owner,
            RootWord::of(a),
            RootWord::of(b),
            same,
        );
    }
    fixed::objects::same(&mut heap.fixed, owner, a, b, same)
}
