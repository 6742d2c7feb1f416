//! The bytes of a text in several fields of one object: `rheap_store_text`, `rheap_load_text`.

ghost use Rattle.rh_mutator.specs.Texts.{text_numbers};
ghost use Rattle.rheap_c.specs.Several.{AreBytesTold, AreStored, AreStoredInsisting};
ghost use Rattle.rheap_c.specs.Told.{root_of};
ghost use Rattle.rheap_c.specs.Grown.{AreGrownStored, AreGrownStoredInsisting, CallsOnPaced};
ghost use Rattle.rheap_c.specs.Handle.{Calls};

use crate::handle::Rheap;
use crate::value::RheapRoot;
use crate::{fixed, growing};
use std::alloc::Global;

/// The fields from `from` on, counted from 0, of the object that `object` names take the bytes of a
/// text, seven a field, all of them or none, as `PacedHeap::put_text`. In a cycle the log needs a
/// place for each field.
#[unsafe(no_mangle)]
pub extern "C" fn rheap_store_text(
    heap: &mut Rheap,
    alloc: Global,
    owner: u32,
    object: RheapRoot,
    from: u32,
    text: &[u8],
) -> u8
    ensures { Calls (λ old new. AreStored old new owner (root_of object) from (text_numbers
        text.now) result)
        (λ old new. AreGrownStored old new owner (root_of object) from (text_numbers text.now)
        result) heap.old heap.new }
{
    if heap.fixed.is_empty() {
        return growing::texts::store_text(&mut heap.growing, alloc, owner, object, from, text);
    }
    fixed::texts::store_text(&mut heap.fixed, alloc, owner, object, from, text)
}

/// As `rheap_store_text`, after a collection where the log has too few places.
#[unsafe(no_mangle)]
pub extern "C" fn rheap_insist_store_text(
    heap: &mut Rheap,
    alloc: Global,
    owner: u32,
    object: RheapRoot,
    from: u32,
    text: &[u8],
) -> u8
    ensures { Calls (λ old new. AreStoredInsisting old new owner (root_of object) from (text_numbers
        text.now) result)
        (λ old new. AreGrownStoredInsisting old new owner (root_of object) from (text_numbers
        text.now) result) heap.old heap.new }
{
    if heap.fixed.is_empty() {
        return growing::texts::insist_store_text(
            &mut heap.growing,
            alloc,
            owner,
            object,
            from,
            text,
        );
    }
    fixed::texts::insist_store_text(&mut heap.fixed, alloc, owner, object, from, text)
}

/// The bytes that the fields from `from` on hold, counted from 0, of the object that `object`
/// names: as many as `text` has room for, or those of the fields before the first that holds no
/// number, as `PacedHeap::text`. Each field that so many bytes take must be there. `count` tells
/// how many were read.
#[unsafe(no_mangle)]
pub extern "C" fn rheap_load_text(
    heap: &mut Rheap,
    alloc: Global,
    owner: u32,
    object: RheapRoot,
    from: u32,
    text: &mut [u8],
    count: &mut u32,
) -> u8
    ensures { CallsOnPaced (λ old new. AreBytesTold old new owner (root_of object) from text.old
        text.new count.new result) heap.old heap.new }
{
    if heap.fixed.is_empty() {
        return growing::texts::load_text(
            &mut heap.growing,
            alloc,
            owner,
            object,
            from,
            text,
            count,
        );
    }
    fixed::texts::load_text(&mut heap.fixed, alloc, owner, object, from, text, count)
}
