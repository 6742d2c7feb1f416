//! What roots and fields hold, on a heap that grows.

ghost use Rattle.rheap_c.specs.Grown.{OnPaced};
ghost use Rattle.rheap_c.specs.Read.{IsAnswered, IsCounted, count_in, field_answer, peek_answer, root_answer};
ghost use Rattle.rheap_c.specs.RootWord.{root_in};

use crate::fixed::reading::{counted, told_of_field, told_of_peek, told_of_root};
use crate::growing_part::GrowingPart;
use crate::root_word::RootWord;
use crate::status::{DONE, NOT_OPEN, answer_status};
use crate::value::RheapValue;
use std::alloc::Global;

/// `rheap_root`, on a heap that grows.
#[inline(never)]
pub(crate) fn root(
    heap: &mut GrowingPart,
    alloc: Global,
    root: RootWord,
    value: &mut RheapValue,
) -> u8
    ensures { OnPaced (λ old new. IsAnswered (λ s. root_answer s (root_in root)) old new result
        value.new) heap.old.state heap.new.state }
{
    match heap.take(alloc) {
        None => {
            *value = RheapValue::nil();
            NOT_OPEN
        }
        Some(inner) => {
            let told = told_of_root(inner.paced(), root.id());
            heap.give(inner);
            *value = RheapValue::told(&told);
            answer_status(&told)
        }
    }
}

/// `rheap_field`, on a heap that grows.
#[inline(never)]
pub(crate) fn field(
    heap: &mut GrowingPart,
    alloc: Global,
    root: RootWord,
    field: u32,
    value: &mut RheapValue,
) -> u8
    ensures { OnPaced (λ old new. IsAnswered (λ s. field_answer s (root_in root) field) old new
        result value.new) heap.old.state heap.new.state }
{
    match heap.take(alloc) {
        None => {
            *value = RheapValue::nil();
            NOT_OPEN
        }
        Some(inner) => {
            let told = told_of_field(inner.paced(), root.id(), field);
            heap.give(inner);
            *value = RheapValue::told(&told);
            answer_status(&told)
        }
    }
}

/// `rheap_peek`, on a heap that grows.
#[inline(never)]
pub(crate) fn peek(
    heap: &mut GrowingPart,
    alloc: Global,
    owner: u32,
    src: RootWord,
    field: u32,
    value: &mut RheapValue,
) -> u8
    ensures { OnPaced (λ old new. IsAnswered (λ s. peek_answer s owner (root_in src) field) old
        new result value.new) heap.old.state heap.new.state }
{
    match heap.take(alloc) {
        None => {
            *value = RheapValue::nil();
            NOT_OPEN
        }
        Some(inner) => {
            let told = told_of_peek(inner.paced(), owner, src.id(), field);
            heap.give(inner);
            *value = RheapValue::told(&told);
            answer_status(&told)
        }
    }
}

/// `rheap_fields`, on a heap that grows.
#[inline(never)]
pub(crate) fn fields(heap: &mut GrowingPart, alloc: Global, root: RootWord, fields: &mut u32) -> u8
    ensures { OnPaced (λ old new. IsCounted (λ s. count_in (root_answer s (root_in root))) old
        new result fields.new) heap.old.state heap.new.state }
{
    match heap.take(alloc) {
        None => {
            *fields = 0;
            NOT_OPEN
        }
        Some(inner) => {
            let told = told_of_root(inner.paced(), root.id());
            heap.give(inner);
            match counted(&told) {
                Ok(count) => {
                    *fields = count;
                    DONE
                }
                Err(why) => {
                    *fields = 0;
                    why.number()
                }
            }
        }
    }
}
