//! Objects that are made with their values: `rheap_make`, `rheap_insist_make` and the like.
//!
//! Where the heap makes the object straight, it reads C's values where they lie. Else they are
//! translated into an array of operands on the stack, which is small where there are few values.

ghost use Rattle.std.specs.Prelude.{◌≡◌, ◌≤◌, None, false, length, take, true};
ghost use Rattle.rh_layout.specs.Shape.{shape_of};
ghost use Rattle.rh_pace.specs.Making.{IsInsistedMake, IsPacedMake};
ghost use Rattle.rheap_c.specs.Making.{IsMadeUnless, IsMadeWith, have_kinds, making, operands_of, values_fault};
ghost use Rattle.rheap_c.specs.Told.{root_of};

use crate::fixed_part::FixedPart;
use crate::init::RheapInit;
use crate::status::{BAD_KIND, DONE, FIELDS_RANGE, NOT_OPEN, answer_status};
use crate::value::{RAW, RheapRoot};
use rh_layout::{Operand, RootId, Shape};
use rh_pace::PacedHeap;
use std::alloc::Global;

/// So many values are few.
pub(crate) const FEW: usize = 8;

/// So many values are many, and more lie in an array for all that an object may have.
pub(crate) const MANY: usize = 64;

/// The most values of an object.
pub(crate) const MOST: usize = 4095;

/// `rheap_make`, on a heap of fixed sizes.
#[inline(always)]
pub(crate) fn make(
    heap: &mut FixedPart,
    owner: u32,
    dst: RheapRoot,
    fields: u32,
    values: &[RheapInit],
) -> u8
    ensures { IsMadeWith IsPacedMake heap.old.state heap.new.state owner (root_of dst) (shape_of fields false)
        values.now result }
{
    if heap.is_empty() {
        return NOT_OPEN;
    }
    let shape = Shape { fields, raw: false };
    made(heap.here(), owner, dst.id(), shape, values, false)
}

/// `rheap_make_raw`, on a heap of fixed sizes.
#[inline(always)]
pub(crate) fn make_raw(
    heap: &mut FixedPart,
    owner: u32,
    dst: RheapRoot,
    fields: u32,
    values: &[RheapInit],
) -> u8
    ensures { IsMadeWith IsPacedMake heap.old.state heap.new.state owner (root_of dst) (shape_of fields true)
        values.now result }
{
    if heap.is_empty() {
        return NOT_OPEN;
    }
    let shape = Shape { fields, raw: true };
    made(heap.here(), owner, dst.id(), shape, values, false)
}

/// `rheap_insist_make`, on a heap of fixed sizes.
#[inline(always)]
pub(crate) fn insist_make(
    heap: &mut FixedPart,
    owner: u32,
    dst: RheapRoot,
    fields: u32,
    values: &[RheapInit],
) -> u8
    ensures { IsMadeWith IsInsistedMake heap.old.state heap.new.state owner (root_of dst)
        (shape_of fields false) values.now result }
{
    if heap.is_empty() {
        return NOT_OPEN;
    }
    let shape = Shape { fields, raw: false };
    made(heap.here(), owner, dst.id(), shape, values, true)
}

/// `rheap_insist_make_raw`, on a heap of fixed sizes.
#[inline(always)]
pub(crate) fn insist_make_raw(
    heap: &mut FixedPart,
    owner: u32,
    dst: RheapRoot,
    fields: u32,
    values: &[RheapInit],
) -> u8
    ensures { IsMadeWith IsInsistedMake heap.old.state heap.new.state owner (root_of dst)
        (shape_of fields true) values.now result }
{
    if heap.is_empty() {
        return NOT_OPEN;
    }
    let shape = Shape { fields, raw: true };
    made(heap.here(), owner, dst.id(), shape, values, true)
}

/// Makes an object with the values, or insists on it. Where it is made straight they are read where
/// they lie, which takes few instructions.
#[inline(always)]
fn made(
    heap: &mut PacedHeap<Global>,
    owner: u32,
    dst: RootId,
    shape: Shape,
    values: &[RheapInit],
    insists: bool,
) -> u8
    ensures { IsMadeUnless (making insists) (values_fault values.now) heap.old heap.new owner dst
        shape (operands_of values.now) result }
{
    match heap.make_given(owner, dst, shape, values) {
        Some(_) => DONE,
        None => made_by_operands(heap, owner, dst, shape, values, insists),
    }
}

/// As `made`, also in a cycle, where one begins, and where it is refused.
#[inline(never)]
fn made_by_operands(
    heap: &mut PacedHeap<Global>,
    owner: u32,
    dst: RootId,
    shape: Shape,
    values: &[RheapInit],
    insists: bool,
) -> u8
    ensures { IsMadeUnless (making insists) (values_fault values.now) heap.old heap.new owner dst
        shape (operands_of values.now) result }
{
    if values.len() > MOST {
        return FIELDS_RANGE;
    }
    if values.len() > MANY {
        return made_by_way_of::<MOST>(heap, insists, owner, dst, shape, values);
    }
    if values.len() > FEW {
        return made_by_way_of::<MANY>(heap, insists, owner, dst, shape, values);
    }
    made_by_way_of::<FEW>(heap, insists, owner, dst, shape, values)
}

/// As `made`, with an array of so many operands.
#[inline(never)]
fn made_by_way_of<const N: usize>(
    heap: &mut PacedHeap<Global>,
    insists: bool,
    owner: u32,
    dst: RootId,
    shape: Shape,
    values: &[RheapInit],
) -> u8
    requires room { length values.now ≤ N }
    requires few { N ≤ 4095 }
    ensures { IsMadeUnless (making insists) (values_fault values.now) heap.old heap.new owner dst
        shape (operands_of values.now) result }
{
    let mut operands = [Operand::Nil; N];
    if !translate(values, &mut operands) {
        return BAD_KIND;
    }
    made_at_length(heap, insists, owner, dst, shape, &operands[..values.len()])
}

/// Makes an object with the operands' values, or insists on it.
#[inline(always)]
fn made_at_length(
    heap: &mut PacedHeap<Global>,
    insists: bool,
    owner: u32,
    dst: RootId,
    shape: Shape,
    operands: &[Operand],
) -> u8
    ensures { IsMadeUnless (making insists) None heap.old heap.new owner dst shape operands.now
        result }
{
    if insists {
        return answer_status(&heap.insist_make_with(owner, dst, shape, operands));
    }
    answer_status(&heap.make_with(owner, dst, shape, operands))
}

/// Writes what the values mean to the operands, from the first on, where each is of a kind that
/// there is; and says whether each is.
#[inline(always)]
pub(crate) fn translate(values: &[RheapInit], operands: &mut [Operand]) -> bool
    requires { length values.now ≤ length operands.old }
    ensures kinds { result ≡ have_kinds values.now }
    ensures operands { result ≡ true
        → take (length values.now) operands.new ≡ operands_of values.now }
{
    for at in 0..values.len() {
        let value = values[at];
        if value.kind > RAW {
            return false;
        }
        operands[at] = value.operand();
    }
    true
}
