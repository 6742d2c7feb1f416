//! Roots in a row, and paths: `rheap_load_roots`, `rheap_store_roots`, `rheap_load_path`,
//! `rheap_drop_roots`.

ghost use Rattle.std.specs.Prelude.{◌≡◌, length};
ghost use Rattle.rh_layout.specs.declared.command.Command.TheVariants as commands;
ghost use Rattle.rh_pace.specs.Collecting.{insist_step};
ghost use Rattle.rh_pace.specs.Paced.{paced_step};
ghost use Rattle.rheap_c.specs.Insisted.{IsInsistedCall};
ghost use Rattle.rheap_c.specs.RootRows.{IsPathLoaded, IsRowDone, IsRowEnd, IsRowInsisted, IsRowLoaded, done_until, last_value, next_index as next_index_of, next_root as next_root_of, path_loads, row_drops, row_loads, row_stores, values_over};
ghost use Rattle.rheap_c.specs.Told.{root_of};

use crate::fixed::insisting::insist;
use crate::fixed_part::FixedPart;
use crate::status::{DONE, NOT_OPEN};
use crate::value::{RheapRoot, RheapValue};
use rh_layout::{Command, Operand, Refusal, Reply, RootId};
use rh_pace::PacedHeap;
use std::alloc::Global;

/// `rheap_load_roots`, on a heap of fixed sizes.
#[inline(always)]
pub(crate) fn load_roots(
    heap: &mut FixedPart,
    alloc: Global,
    owner: u32,
    first: RheapRoot,
    src: RheapRoot,
    from: u32,
    values: &mut [RheapValue],
    count: &mut usize,
) -> u8
    ensures { IsRowLoaded heap.old.state heap.new.state
        (row_loads owner (root_of first) (root_of src) from (length values.old)) values.old
        values.new count.new result }
{
    match heap.take(alloc) {
        None => {
            *count = 0;
            NOT_OPEN
        }
        Some(mut inner) => {
            let status = loaded(&mut inner, owner, first.id(), src.id(), from, values, count);
            heap.give(inner);
            status
        }
    }
}

/// `rheap_load_path`, on a heap of fixed sizes.
#[inline(always)]
pub(crate) fn load_path(
    heap: &mut FixedPart,
    alloc: Global,
    owner: u32,
    dst: RheapRoot,
    src: RheapRoot,
    fields: &[u32],
    count: &mut usize,
    value: &mut RheapValue,
) -> u8
    ensures { IsPathLoaded heap.old.state heap.new.state
        (path_loads owner (root_of dst) (root_of src) fields.now) count.new value.new result }
{
    match heap.take(alloc) {
        None => {
            *count = 0;
            *value = RheapValue::nil();
            NOT_OPEN
        }
        Some(mut inner) => {
            let status = followed(&mut inner, owner, dst.id(), src.id(), fields, count, value);
            heap.give(inner);
            status
        }
    }
}

/// `rheap_store_roots`, on a heap of fixed sizes.
#[inline(always)]
pub(crate) fn store_roots(
    heap: &mut FixedPart,
    alloc: Global,
    owner: u32,
    object: RheapRoot,
    from: u32,
    first: RheapRoot,
    length: usize,
    count: &mut usize,
) -> u8
    ensures { IsRowDone heap.old.state heap.new.state
        (row_stores owner (root_of object) from (root_of first) length) count.new result }
{
    match heap.take(alloc) {
        None => {
            *count = 0;
            NOT_OPEN
        }
        Some(mut inner) => {
            let status = stored(
                &mut inner,
                owner,
                object.id(),
                from,
                first.id(),
                length,
                count,
            );
            heap.give(inner);
            status
        }
    }
}

/// `rheap_insist_store_roots`, on a heap of fixed sizes.
#[inline(always)]
pub(crate) fn insist_store_roots(
    heap: &mut FixedPart,
    alloc: Global,
    owner: u32,
    object: RheapRoot,
    from: u32,
    first: RheapRoot,
    length: usize,
    count: &mut usize,
) -> u8
    ensures { IsRowInsisted heap.old.state heap.new.state
        (row_stores owner (root_of object) from (root_of first) length) count.new result }
{
    match heap.take(alloc) {
        None => {
            *count = 0;
            NOT_OPEN
        }
        Some(mut inner) => {
            let status = insisted(
                &mut inner,
                owner,
                object.id(),
                from,
                first.id(),
                length,
                count,
            );
            heap.give(inner);
            status
        }
    }
}

/// `rheap_drop_roots`, on a heap of fixed sizes.
#[inline(always)]
pub(crate) fn drop_roots(
    heap: &mut FixedPart,
    alloc: Global,
    owner: u32,
    first: RheapRoot,
    length: usize,
    count: &mut usize,
) -> u8
    ensures { IsRowDone heap.old.state heap.new.state
        (row_drops owner (root_of first) length) count.new result }
{
    match heap.take(alloc) {
        None => {
            *count = 0;
            NOT_OPEN
        }
        Some(mut inner) => {
            let status = dropped(&mut inner, owner, first.id(), length, count);
            heap.give(inner);
            status
        }
    }
}

/// Loads so many fields into roots, and tells their values.
fn loaded(
    heap: &mut PacedHeap<Global>,
    owner: u32,
    first: RootId,
    src: RootId,
    from: u32,
    values: &mut [RheapValue],
    count: &mut usize,
) -> u8
    ensures end { IsRowEnd (done_until paced_step heap.old
        (row_loads owner first src from (length values.old))) heap.new count.new result }
    ensures values { values.new ≡ values_over (done_until paced_step heap.old
        (row_loads owner first src from (length values.old))).replies values.old }
{
    let mut dst = first;
    let mut field = from;
    for at in 0..values.len() {
        let reply = match heap.load(owner, dst, src, field) {
            Ok(reply) => reply,
            Err(why) => {
                *count = at;
                return why.number();
            }
        };
        values[at] = RheapValue::of(reply);
        dst = next_root(dst);
        field = next_index(field);
    }
    *count = values.len();
    DONE
}

/// Follows a path.
fn followed(
    heap: &mut PacedHeap<Global>,
    owner: u32,
    dst: RootId,
    src: RootId,
    fields: &[u32],
    count: &mut usize,
    value: &mut RheapValue,
) -> u8
    ensures end { IsRowEnd (done_until paced_step heap.old (path_loads owner dst src fields.now))
        heap.new count.new result }
    ensures value { value.new ≡ last_value
        (done_until paced_step heap.old (path_loads owner dst src fields.now)).replies }
{
    let mut src = src;
    *value = RheapValue::nil();
    for at in 0..fields.len() {
        let reply = match heap.load(owner, dst, src, fields[at]) {
            Ok(reply) => reply,
            Err(why) => {
                *count = at;
                return why.number();
            }
        };
        *value = RheapValue::of(reply);
        src = dst;
    }
    *count = fields.len();
    DONE
}

/// Stores so many roots to fields.
fn stored(
    heap: &mut PacedHeap<Global>,
    owner: u32,
    object: RootId,
    from: u32,
    first: RootId,
    length: usize,
    count: &mut usize,
) -> u8
    ensures { IsRowEnd (done_until paced_step heap.old (row_stores owner object from first length))
        heap.new count.new result }
{
    let mut src = first;
    let mut field = from;
    for at in 0..length {
        match heap.store(owner, object, field, Operand::Root(src)) {
            Ok(_) => {}
            Err(why) => {
                *count = at;
                return why.number();
            }
        }
        src = next_root(src);
        field = next_index(field);
    }
    *count = length;
    DONE
}

/// Stores so many roots to fields, and insists on each store.
fn insisted(
    heap: &mut PacedHeap<Global>,
    owner: u32,
    object: RootId,
    from: u32,
    first: RootId,
    length: usize,
    count: &mut usize,
) -> u8
    ensures { IsRowEnd (done_until insist_step heap.old (row_stores owner object from first length))
        heap.new count.new result }
{
    let mut src = first;
    let mut field = from;
    for at in 0..length {
        let operand = Operand::Root(src);
        match insist_store(heap, owner, object, field, operand) {
            Ok(_) => {}
            Err(why) => {
                *count = at;
                return why.number();
            }
        }
        src = next_root(src);
        field = next_index(field);
    }
    *count = length;
    DONE
}

/// Makes so many roots nil.
fn dropped(
    heap: &mut PacedHeap<Global>,
    owner: u32,
    first: RootId,
    length: usize,
    count: &mut usize,
) -> u8
    ensures { IsRowEnd (done_until paced_step heap.old (row_drops owner first length)) heap.new
        count.new result }
{
    let mut root = first;
    for at in 0..length {
        match heap.drop(owner, root) {
            Ok(_) => {}
            Err(why) => {
                *count = at;
                return why.number();
            }
        }
        root = next_root(root);
    }
    *count = length;
    DONE
}

/// A store that is insisted on, as one fact.
#[inline(always)]
fn insist_store(
    heap: &mut PacedHeap<Global>,
    owner: u32,
    obj: RootId,
    field: u32,
    operand: Operand,
) -> Result<Reply, Refusal>
    ensures { IsInsistedCall heap.old heap.new owner (commands.Store obj field operand) result }
{
    let tried = heap.store(owner, obj, field, operand);
    let command = Command::Store {
        obj,
        field,
        operand,
    };
    insist(heap, owner, &command, tried)
}

/// The root in the next slot.
#[inline(always)]
pub(crate) fn next_root(root: RootId) -> RootId
    ensures { result ≡ next_root_of root }
{
    RootId {
        owner: root.owner,
        slot: next_index(root.slot),
    }
}

/// The next slot or field. No heap has as many as 32 bits count.
#[inline(always)]
pub(crate) fn next_index(at: u32) -> u32
    ensures { result ≡ next_index_of at }
{
    at.saturating_add(1)
}
