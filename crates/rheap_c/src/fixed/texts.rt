//! The bytes of a text in several fields of one object: `rheap_store_text`, `rheap_load_text`.

ghost use Rattle.std.specs.Prelude.{length};
ghost use Rattle.rh_mutator.specs.Mutator.{graph_of};
ghost use Rattle.rh_mutator.specs.LoadingAll.{field_loads};
ghost use Rattle.rh_mutator.specs.StoringAll.{first_refusal};
ghost use Rattle.rh_mutator.specs.Texts.{fields_of_bytes, text_numbers};
ghost use Rattle.rheap_c.specs.Several.{AreBytesRead, AreBytesTold, AreReadUnless, AreStored, AreStoredInsisting};
ghost use Rattle.rheap_c.specs.Told.{root_of};

use crate::fixed::several::{stored, stored_insisting};
use crate::fixed_part::FixedPart;
use crate::status::{DONE, NOT_OPEN};
use crate::value::RheapRoot;
use rh_layout::RootId;
use rh_pace::PacedHeap;
use std::alloc::Global;

/// `rheap_store_text`, on a heap of fixed sizes.
#[inline(always)]
pub(crate) fn store_text(
    heap: &mut FixedPart,
    alloc: Global,
    owner: u32,
    object: RheapRoot,
    from: u32,
    text: &[u8],
) -> u8
    ensures { AreStored heap.old.state heap.new.state owner (root_of object) from
        (text_numbers text.now) result }
{
    match heap.take(alloc) {
        None => NOT_OPEN,
        Some(mut inner) => {
            let status = stored(&mut inner, owner, object.id(), from, text);
            heap.give(inner);
            status
        }
    }
}

/// `rheap_insist_store_text`, on a heap of fixed sizes.
#[inline(always)]
pub(crate) fn insist_store_text(
    heap: &mut FixedPart,
    alloc: Global,
    owner: u32,
    object: RheapRoot,
    from: u32,
    text: &[u8],
) -> u8
    ensures { AreStoredInsisting heap.old.state heap.new.state owner (root_of object) from
        (text_numbers text.now) result }
{
    match heap.take(alloc) {
        None => NOT_OPEN,
        Some(mut inner) => {
            let status = stored_insisting(&mut inner, owner, object.id(), from, text);
            heap.give(inner);
            status
        }
    }
}

/// `rheap_load_text`, on a heap of fixed sizes.
#[inline(always)]
pub(crate) fn load_text(
    heap: &mut FixedPart,
    alloc: Global,
    owner: u32,
    object: RheapRoot,
    from: u32,
    text: &mut [u8],
    count: &mut u32,
) -> u8
    ensures { AreBytesTold heap.old.state heap.new.state owner (root_of object) from text.old
        text.new count.new result }
{
    match heap.take(alloc) {
        None => {
            *count = 0;
            NOT_OPEN
        }
        Some(inner) => {
            let status = told_text(&inner, owner, object.id(), from, text, count);
            heap.give(inner);
            status
        }
    }
}

/// What `PacedHeap::text` promises, as one fact, with the status of its answer.
pub(crate) fn told_text(
    heap: &PacedHeap<Global>,
    owner: u32,
    object: RootId,
    from: u32,
    text: &mut [u8],
    count: &mut u32,
) -> u8
    ensures { AreReadUnless (first_refusal (graph_of heap.now.heap.mutators)
        (field_loads owner object from (fields_of_bytes (length text.old))))
        (AreBytesRead heap.now owner object from text.old text.new count.new) text.old text.new
        count.new result }
{
    match heap.text(owner, object, from, text) {
        Ok(read) => {
            *count = read;
            DONE
        }
        Err(refusal) => {
            *count = 0;
            refusal.number()
        }
    }
}
