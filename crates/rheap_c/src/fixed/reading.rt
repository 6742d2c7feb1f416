//! What roots and fields hold: `rheap_root`, `rheap_field`, `rheap_peek`.

ghost use Rattle.std.specs.Prelude.{◌≡◌};
ghost use Rattle.rh_model.specs.Graph.{reply_of};
ghost use Rattle.rheap_c.specs.Read.{IsAnswered, IsCounted, count_in, field_answer, graph_in, peek_answer, root_answer};
ghost use Rattle.rheap_c.specs.Told.{root_of};

use crate::fixed_part::FixedPart;
use crate::status::{DONE, NOT_OPEN, answer_status};
use crate::value::{RheapRoot, RheapValue};
use rh_layout::{Refusal, Reply, RootId, Shape, Value};
use rh_pace::PacedHeap;
use std::alloc::Global;

/// `rheap_root`, on a heap of fixed sizes.
#[inline(always)]
pub(crate) fn root(heap: &mut FixedPart, root: RheapRoot, value: &mut RheapValue) -> u8
    ensures { IsAnswered (λ s. root_answer s (root_of root)) heap.old.state heap.new.state result
        value.new }
{
    if heap.is_empty() {
        *value = RheapValue::nil();
        return NOT_OPEN;
    }
    let told = told_of_root(heap.here(), root.id());
    *value = RheapValue::told(&told);
    answer_status(&told)
}

/// `rheap_field`, on a heap of fixed sizes.
#[inline(always)]
pub(crate) fn field(heap: &mut FixedPart, root: RheapRoot, field: u32, value: &mut RheapValue) -> u8
    ensures { IsAnswered (λ s. field_answer s (root_of root) field) heap.old.state heap.new.state
        result value.new }
{
    if heap.is_empty() {
        *value = RheapValue::nil();
        return NOT_OPEN;
    }
    let told = told_of_field(heap.here(), root.id(), field);
    *value = RheapValue::told(&told);
    answer_status(&told)
}

/// `rheap_peek`, on a heap of fixed sizes.
#[inline(always)]
pub(crate) fn peek(
    heap: &mut FixedPart,
    owner: u32,
    src: RheapRoot,
    field: u32,
    value: &mut RheapValue,
) -> u8
    ensures { IsAnswered (λ s. peek_answer s owner (root_of src) field) heap.old.state
        heap.new.state result value.new }
{
    if heap.is_empty() {
        *value = RheapValue::nil();
        return NOT_OPEN;
    }
    let told = told_of_peek(heap.here(), owner, src.id(), field);
    *value = RheapValue::told(&told);
    answer_status(&told)
}

/// `rheap_fields`, on a heap of fixed sizes.
#[inline(always)]
pub(crate) fn fields(heap: &mut FixedPart, alloc: Global, root: RheapRoot, fields: &mut u32) -> u8
    ensures { IsCounted (λ s. count_in (root_answer s (root_of root))) heap.old.state
        heap.new.state result fields.new }
{
    match heap.take(alloc) {
        None => {
            *fields = 0;
            NOT_OPEN
        }
        Some(inner) => {
            let told = told_of_root(&inner, root.id());
            heap.give(inner);
            match counted(&told) {
                Ok(count) => {
                    *fields = count;
                    DONE
                }
                Err(why) => {
                    *fields = 0;
                    why.number()
                }
            }
        }
    }
}

/// What a root is answered with.
pub(crate) fn told_of_root(heap: &PacedHeap<Global>, root: RootId) -> Result<Reply, Refusal>
    ensures { result ≡ root_answer heap.now root }
{
    match heap.root(root) {
        Some(value) => Ok(reply(heap, value)),
        None => Err(Refusal::NoRoot),
    }
}

/// What a field of the object that a root names is answered with: a load by the root's own owner.
pub(crate) fn told_of_field(
    heap: &PacedHeap<Global>,
    root: RootId,
    field: u32,
) -> Result<Reply, Refusal>
    ensures { result ≡ field_answer heap.now root field }
{
    heap.peek(root.owner, root, field)
}

/// What a load by an owner is answered with, whatever root takes the value.
pub(crate) fn told_of_peek(
    heap: &PacedHeap<Global>,
    owner: u32,
    src: RootId,
    field: u32,
) -> Result<Reply, Refusal>
    ensures { result ≡ peek_answer heap.now owner src field }
{
    heap.peek(owner, src, field)
}

/// How a value is replied.
fn reply(heap: &PacedHeap<Global>, value: Value) -> Reply
    ensures { result ≡ reply_of (graph_in heap.now) value }
{
    match value {
        Value::Nil => Reply::Nil,
        Value::Int(number) => Reply::Int(number),
        Value::Ref(a) => {
            let fields = heap.fields(a).unwrap_or(0);
            let raw = heap.raw(a).unwrap_or(false);
            Shape { fields, raw }.reply()
        }
    }
}

/// How many fields the object has to which the value refers that an answer tells.
pub(crate) fn counted(told: &Result<Reply, Refusal>) -> Result<u32, Refusal>
    ensures { result ≡ count_in told.now }
{
    match told {
        Ok(Reply::Object(fields) | Reply::Raw(fields)) => Ok(*fields),
        Ok(Reply::Done | Reply::Nil | Reply::Int(_) | Reply::Same(_)) => Err(Refusal::NotObject),
        Err(why) => Err(*why),
    }
}
