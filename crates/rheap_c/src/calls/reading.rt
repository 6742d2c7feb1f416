//! What roots and fields hold: `rheap_root`, `rheap_field`, `rheap_peek`.

ghost use Rattle.rheap_c.specs.Read.{IsAnswered, IsCounted, count_in, field_answer, peek_answer, root_answer};
ghost use Rattle.rheap_c.specs.Told.{root_of};
ghost use Rattle.rheap_c.specs.Grown.{CallsOnPaced};

use crate::handle::Rheap;
use crate::root_word::RootWord;
use crate::value::{RheapRoot, RheapValue};
use crate::{fixed, growing};
use std::alloc::Global;

/// What the root holds, as `PacedHeap::root`.
#[unsafe(no_mangle)]
pub extern "C" fn rheap_root(
    heap: &mut Rheap,
    alloc: Global,
    root: RheapRoot,
    value: &mut RheapValue,
) -> u8
    ensures { CallsOnPaced (λ old new. IsAnswered (λ s. root_answer s (root_of root)) old new result
        value.new) heap.old heap.new }
{
    if heap.fixed.is_empty() {
        return growing::reading::root(&mut heap.growing, alloc, RootWord::of(root), value);
    }
    fixed::reading::root(&mut heap.fixed, root, value)
}

/// What a field, counted from 0, of the object holds that the root names, without a root for the
/// value.
#[unsafe(no_mangle)]
pub extern "C" fn rheap_field(
    heap: &mut Rheap,
    alloc: Global,
    root: RheapRoot,
    field: u32,
    value: &mut RheapValue,
) -> u8
    ensures { CallsOnPaced (λ old new. IsAnswered (λ s. field_answer s (root_of root) field) old new
        result value.new) heap.old heap.new }
{
    if heap.fixed.is_empty() {
        return growing::reading::field(&mut heap.growing, alloc, RootWord::of(root), field, value);
    }
    fixed::reading::field(&mut heap.fixed, root, field, value)
}

/// What a field, counted from 0, of the object holds that the owner's root `src` names, without a
/// root for the value, as `PacedHeap::peek`: the answer is that of a load.
#[unsafe(no_mangle)]
pub extern "C" fn rheap_peek(
    heap: &mut Rheap,
    alloc: Global,
    owner: u32,
    src: RheapRoot,
    field: u32,
    value: &mut RheapValue,
) -> u8
    ensures { CallsOnPaced (λ old new. IsAnswered (λ s. peek_answer s owner (root_of src) field) old
        new result value.new) heap.old heap.new }
{
    if heap.fixed.is_empty() {
        return growing::reading::peek(
            &mut heap.growing,
            alloc,
            owner,
            RootWord::of(src),
            field,
            value,
        );
    }
    fixed::reading::peek(&mut heap.fixed, owner, src, field, value)
}

/// How many fields the object has that the root names.
#[unsafe(no_mangle)]
pub extern "C" fn rheap_fields(
    heap: &mut Rheap,
    alloc: Global,
    root: RheapRoot,
    fields: &mut u32,
) -> u8
    ensures { CallsOnPaced (λ old new. IsCounted (λ s. count_in (root_answer s (root_of root))) old
        new result fields.new) heap.old heap.new }
{
    if heap.fixed.is_empty() {
        return growing::reading::fields(&mut heap.growing, alloc, RootWord::of(root), fields);
    }
    fixed::reading::fields(&mut heap.fixed, alloc, root, fields)
}
