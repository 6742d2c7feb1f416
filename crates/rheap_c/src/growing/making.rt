//! Objects that are made with their values, on a heap that grows.

ghost use Rattle.std.specs.Prelude.{◌≤◌, None, length};
ghost use Rattle.rheap_c.specs.GrownMaking.{IsGrownMadeUnless, IsGrownMadeWith, growing_making};
ghost use Rattle.rheap_c.specs.Making.{operands_of, values_fault};
ghost use Rattle.rheap_c.specs.Told.{root_of};

use crate::fixed::making::{FEW, MANY, MOST, translate};
use crate::growing_part::GrowingPart;
use crate::init::RheapInit;
use crate::status::{BAD_KIND, FIELDS_RANGE, NOT_OPEN, answer_status};
use crate::value::RheapRoot;
use rh_growing::GrowingHeap;
use rh_layout::{Operand, RootId, Shape};
use std::alloc::Global;

/// `rheap_make` or `rheap_make_raw`, on a heap that grows; or where it insists the insisting call.
#[inline(never)]
pub(crate) fn make(
    heap: &mut GrowingPart,
    alloc: Global,
    owner: u32,
    dst: RheapRoot,
    shape: Shape,
    values: &[RheapInit],
    insists: bool,
) -> u8
    ensures { IsGrownMadeWith (growing_making insists) heap.old.state heap.new.state owner
        (root_of dst) shape values.now result }
{
    match heap.take(alloc) {
        None => NOT_OPEN,
        Some(mut inner) => {
            let status = made(&mut inner, insists, owner, dst.id(), shape, values);
            heap.give(inner);
            status
        }
    }
}

/// Makes an object with the values, or insists on it.
fn made(
    heap: &mut GrowingHeap<Global>,
    insists: bool,
    owner: u32,
    dst: RootId,
    shape: Shape,
    values: &[RheapInit],
) -> u8
    ensures { IsGrownMadeUnless (growing_making insists) (values_fault values.now) heap.old heap.new
        owner dst shape (operands_of values.now) result }
{
    if values.len() > MOST {
        return FIELDS_RANGE;
    }
    if values.len() > MANY {
        return made_by_way_of::<MOST>(heap, insists, owner, dst, shape, values);
    }
    if values.len() > FEW {
        return made_by_way_of::<MANY>(heap, insists, owner, dst, shape, values);
    }
    made_by_way_of::<FEW>(heap, insists, owner, dst, shape, values)
}

/// As `made`, with an array of so many operands.
#[inline(never)]
fn made_by_way_of<const N: usize>(
    heap: &mut GrowingHeap<Global>,
    insists: bool,
    owner: u32,
    dst: RootId,
    shape: Shape,
    values: &[RheapInit],
) -> u8
    requires room { length values.now ≤ N }
    requires few { N ≤ 4095 }
    ensures { IsGrownMadeUnless (growing_making insists) (values_fault values.now) heap.old heap.new
        owner dst shape (operands_of values.now) result }
{
    let mut operands = [Operand::Nil; N];
    if !translate(values, &mut operands) {
        return BAD_KIND;
    }
    made_of(heap, insists, owner, dst, shape, &operands[..values.len()])
}

/// Makes an object with the operands' values, or insists on it.
#[inline(always)]
fn made_of(
    heap: &mut GrowingHeap<Global>,
    insists: bool,
    owner: u32,
    dst: RootId,
    shape: Shape,
    operands: &[Operand],
) -> u8
    ensures { IsGrownMadeUnless (growing_making insists) None heap.old heap.new owner dst shape
        operands.now result }
{
    if insists {
        return answer_status(&heap.insist_make_with(owner, dst, shape, operands));
    }
    answer_status(&heap.make_with(owner, dst, shape, operands))
}
