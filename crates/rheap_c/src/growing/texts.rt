//! The bytes of a text in several fields of one object, on a heap that grows.

ghost use Rattle.rh_mutator.specs.Texts.{text_numbers};
ghost use Rattle.rheap_c.specs.Grown.{AreGrownNumbers, AreGrownNumbersInsisting, AreGrownStored, AreGrownStoredInsisting, OnPaced};
ghost use Rattle.rheap_c.specs.Several.{AreBytesTold};
ghost use Rattle.rheap_c.specs.Told.{root_of};

use crate::fixed::several::LOG_FULL;
use crate::fixed::texts::told_text;
use crate::growing::collecting::collected;
use crate::growing_part::GrowingPart;
use crate::status::{DONE, NOT_OPEN};
use crate::value::RheapRoot;
use rh_growing::GrowingHeap;
use rh_layout::RootId;
use std::alloc::Global;

/// `rheap_store_text`, on a heap that grows.
#[inline(never)]
pub(crate) fn store_text(
    heap: &mut GrowingPart,
    alloc: Global,
    owner: u32,
    object: RheapRoot,
    from: u32,
    text: &[u8],
) -> u8
    ensures { AreGrownStored heap.old.state heap.new.state owner (root_of object) from (text_numbers
        text.now) result }
{
    match heap.take(alloc) {
        None => NOT_OPEN,
        Some(mut inner) => {
            let status = put(&mut inner, owner, object.id(), from, text);
            heap.give(inner);
            status
        }
    }
}

/// `rheap_insist_store_text`, on a heap that grows.
#[inline(never)]
pub(crate) fn insist_store_text(
    heap: &mut GrowingPart,
    alloc: Global,
    owner: u32,
    object: RheapRoot,
    from: u32,
    text: &[u8],
) -> u8
    ensures { AreGrownStoredInsisting heap.old.state heap.new.state owner (root_of object) from
        (text_numbers text.now) result }
{
    match heap.take(alloc) {
        None => NOT_OPEN,
        Some(mut inner) => {
            let status = put_insisting(&mut inner, owner, object.id(), from, text);
            heap.give(inner);
            status
        }
    }
}

/// `rheap_load_text`, on a heap that grows.
#[inline(never)]
pub(crate) fn load_text(
    heap: &mut GrowingPart,
    alloc: Global,
    owner: u32,
    object: RheapRoot,
    from: u32,
    text: &mut [u8],
    count: &mut u32,
) -> u8
    ensures { OnPaced (λ old new. AreBytesTold old new owner (root_of object) from text.old text.new
        count.new result) heap.old.state heap.new.state }
{
    match heap.take(alloc) {
        None => {
            *count = 0;
            NOT_OPEN
        }
        Some(inner) => {
            let status = told_text(inner.paced(), owner, object.id(), from, text, count);
            heap.give(inner);
            status
        }
    }
}

/// What `GrowingHeap::put_text` promises, as one fact, with the status of its answer.
fn put(heap: &mut GrowingHeap<Global>, owner: u32, object: RootId, from: u32, text: &[u8]) -> u8
    ensures { AreGrownNumbers heap.old heap.new owner object from (text_numbers text.now) result }
{
    match heap.put_text(owner, object, from, text) {
        Ok(()) => DONE,
        Err(refusal) => refusal.number(),
    }
}

/// Stores so, after a collection where the log has too few places: it is empty then.
fn put_insisting(
    heap: &mut GrowingHeap<Global>,
    owner: u32,
    object: RootId,
    from: u32,
    text: &[u8],
) -> u8
    ensures { AreGrownNumbersInsisting heap.old heap.new owner object from (text_numbers text.now)
        result }
{
    let status = put(heap, owner, object, from, text);
    if status != LOG_FULL {
        return status;
    }
    let _ = collected(heap);
    put(heap, owner, object, from, text)
}
