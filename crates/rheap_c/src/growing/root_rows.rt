//! Roots in a row, and paths, on a heap that grows.

ghost use Rattle.std.specs.Prelude.{◌≡◌, length};
ghost use Rattle.rh_layout.specs.declared.command.Command.TheVariants as commands;
ghost use Rattle.rh_pace.specs.Paced.{paced_step};
ghost use Rattle.rh_growing.specs.Growing.{with_paced};
ghost use Rattle.rheap_c.specs.Grown.{DoInTurn, DoesOnce, InsistsOnce, IsGrownRowDone, IsGrownRowInsisted, OnPaced};
ghost use Rattle.rheap_c.specs.RootRows.{IsPathLoaded, IsRowDone, IsRowEnd, IsRowLoaded, done_until, last_value, path_loads, row_drops, row_loads, row_stores, values_over};
ghost use Rattle.rheap_c.specs.Told.{root_of};

use crate::fixed::root_rows::{next_index, next_root};
use crate::growing::insisting::insist_store_in;
use crate::growing_part::GrowingPart;
use crate::status::{DONE, NOT_OPEN};
use crate::value::{RheapRoot, RheapValue};
use rh_growing::GrowingHeap;
use rh_layout::{Operand, Refusal, Reply, RootId};
use std::alloc::Global;

/// `rheap_load_roots`, on a heap that grows.
#[inline(never)]
pub(crate) fn load_roots(
    heap: &mut GrowingPart,
    alloc: Global,
    owner: u32,
    first: RheapRoot,
    src: RheapRoot,
    from: u32,
    values: &mut [RheapValue],
    count: &mut usize,
) -> u8
    ensures { OnPaced (λ old new. IsRowLoaded old new (row_loads owner (root_of first) (root_of src)
        from (length values.old)) values.old values.new count.new result) heap.old.state
        heap.new.state }
{
    match heap.take(alloc) {
        None => {
            *count = 0;
            NOT_OPEN
        }
        Some(mut inner) => {
            let status = loaded(&mut inner, owner, first.id(), src.id(), from, values, count);
            heap.give(inner);
            status
        }
    }
}

/// `rheap_load_path`, on a heap that grows.
#[inline(never)]
pub(crate) fn load_path(
    heap: &mut GrowingPart,
    alloc: Global,
    owner: u32,
    dst: RheapRoot,
    src: RheapRoot,
    fields: &[u32],
    count: &mut usize,
    value: &mut RheapValue,
) -> u8
    ensures { OnPaced (λ old new. IsPathLoaded old new (path_loads owner (root_of dst) (root_of src)
        fields.now) count.new value.new result) heap.old.state heap.new.state }
{
    match heap.take(alloc) {
        None => {
            *count = 0;
            *value = RheapValue::nil();
            NOT_OPEN
        }
        Some(mut inner) => {
            let status = followed(&mut inner, owner, dst.id(), src.id(), fields, count, value);
            heap.give(inner);
            status
        }
    }
}

/// `rheap_store_roots`, on a heap that grows.
#[inline(never)]
pub(crate) fn store_roots(
    heap: &mut GrowingPart,
    alloc: Global,
    owner: u32,
    object: RheapRoot,
    from: u32,
    first: RheapRoot,
    length: usize,
    count: &mut usize,
) -> u8
    ensures { IsGrownRowDone heap.old.state heap.new.state (row_stores owner (root_of object) from
        (root_of first) length) count.new result }
{
    match heap.take(alloc) {
        None => {
            *count = 0;
            NOT_OPEN
        }
        Some(mut inner) => {
            let status = stored(
                &mut inner,
                owner,
                object.id(),
                from,
                first.id(),
                length,
                count,
            );
            heap.give(inner);
            status
        }
    }
}

/// `rheap_insist_store_roots`, on a heap that grows.
#[inline(never)]
pub(crate) fn insist_store_roots(
    heap: &mut GrowingPart,
    alloc: Global,
    owner: u32,
    object: RheapRoot,
    from: u32,
    first: RheapRoot,
    length: usize,
    count: &mut usize,
) -> u8
    ensures { IsGrownRowInsisted heap.old.state heap.new.state (row_stores owner (root_of object)
        from (root_of first) length) count.new result }
{
    match heap.take(alloc) {
        None => {
            *count = 0;
            NOT_OPEN
        }
        Some(mut inner) => {
            let status = insisted_stores(
                &mut inner,
                owner,
                object.id(),
                from,
                first.id(),
                length,
                count,
            );
            heap.give(inner);
            status
        }
    }
}

/// `rheap_drop_roots`, on a heap that grows.
#[inline(never)]
pub(crate) fn drop_roots(
    heap: &mut GrowingPart,
    alloc: Global,
    owner: u32,
    first: RheapRoot,
    length: usize,
    count: &mut usize,
) -> u8
    ensures { OnPaced (λ old new. IsRowDone old new (row_drops owner (root_of first) length)
        count.new result) heap.old.state heap.new.state }
{
    match heap.take(alloc) {
        None => {
            *count = 0;
            NOT_OPEN
        }
        Some(mut inner) => {
            let status = dropped(&mut inner, owner, first.id(), length, count);
            heap.give(inner);
            status
        }
    }
}

/// Loads so many fields into roots, and tells their values.
fn loaded(
    heap: &mut GrowingHeap<Global>,
    owner: u32,
    first: RootId,
    src: RootId,
    from: u32,
    values: &mut [RheapValue],
    count: &mut usize,
) -> u8
    ensures rest { heap.new ≡ with_paced heap.old heap.new.paced }
    ensures end { IsRowEnd (done_until paced_step heap.old.paced
        (row_loads owner first src from (length values.old))) heap.new.paced count.new result }
    ensures values { values.new ≡ values_over (done_until paced_step heap.old.paced
        (row_loads owner first src from (length values.old))).replies values.old }
{
    let mut dst = first;
    let mut field = from;
    for at in 0..values.len() {
        let reply = match load(heap, owner, dst, src, field) {
            Ok(reply) => reply,
            Err(why) => {
                *count = at;
                return why.number();
            }
        };
        values[at] = RheapValue::of(reply);
        dst = next_root(dst);
        field = next_index(field);
    }
    *count = values.len();
    DONE
}

/// Follows a path.
fn followed(
    heap: &mut GrowingHeap<Global>,
    owner: u32,
    dst: RootId,
    src: RootId,
    fields: &[u32],
    count: &mut usize,
    value: &mut RheapValue,
) -> u8
    ensures rest { heap.new ≡ with_paced heap.old heap.new.paced }
    ensures end { IsRowEnd (done_until paced_step heap.old.paced
        (path_loads owner dst src fields.now)) heap.new.paced count.new result }
    ensures value { value.new ≡ last_value (done_until paced_step heap.old.paced
        (path_loads owner dst src fields.now)).replies }
{
    let mut src = src;
    *value = RheapValue::nil();
    for at in 0..fields.len() {
        let reply = match load(heap, owner, dst, src, fields[at]) {
            Ok(reply) => reply,
            Err(why) => {
                *count = at;
                return why.number();
            }
        };
        *value = RheapValue::of(reply);
        src = dst;
    }
    *count = fields.len();
    DONE
}

/// Makes so many roots nil.
fn dropped(
    heap: &mut GrowingHeap<Global>,
    owner: u32,
    first: RootId,
    length: usize,
    count: &mut usize,
) -> u8
    ensures rest { heap.new ≡ with_paced heap.old heap.new.paced }
    ensures end { IsRowEnd (done_until paced_step heap.old.paced (row_drops owner first length))
        heap.new.paced count.new result }
{
    let mut root = first;
    for at in 0..length {
        match drop_one(heap, owner, root) {
            Ok(_) => {}
            Err(why) => {
                *count = at;
                return why.number();
            }
        }
        root = next_root(root);
    }
    *count = length;
    DONE
}

/// Stores so many roots to fields.
fn stored(
    heap: &mut GrowingHeap<Global>,
    owner: u32,
    object: RootId,
    from: u32,
    first: RootId,
    length: usize,
    count: &mut usize,
) -> u8
    ensures { DoInTurn DoesOnce heap.old heap.new (row_stores owner object from first length)
        count.new result }
{
    let mut src = first;
    let mut field = from;
    for at in 0..length {
        match heap.store(owner, object, field, Operand::Root(src)) {
            Ok(_) => {}
            Err(why) => {
                *count = at;
                return why.number();
            }
        }
        src = next_root(src);
        field = next_index(field);
    }
    *count = length;
    DONE
}

/// Stores so many roots to fields, and insists on each store.
fn insisted_stores(
    heap: &mut GrowingHeap<Global>,
    owner: u32,
    object: RootId,
    from: u32,
    first: RootId,
    length: usize,
    count: &mut usize,
) -> u8
    ensures { DoInTurn InsistsOnce heap.old heap.new (row_stores owner object from first length)
        count.new result }
{
    let mut src = first;
    let mut field = from;
    for at in 0..length {
        match insist_store_in(heap, owner, object, field, Operand::Root(src)) {
            Ok(_) => {}
            Err(why) => {
                *count = at;
                return why.number();
            }
        }
        src = next_root(src);
        field = next_index(field);
    }
    *count = length;
    DONE
}

/// One load, after which no heap grows.
#[inline(always)]
pub(crate) fn load(
    heap: &mut GrowingHeap<Global>,
    owner: u32,
    dst: RootId,
    src: RootId,
    field: u32,
) -> Result<Reply, Refusal>
    ensures state { heap.new ≡ with_paced heap.old
        (paced_step heap.old.paced owner (commands.Load dst src field)).0 }
    ensures answer { result ≡ (paced_step heap.old.paced owner (commands.Load dst src field)).1 }
{
    heap.load(owner, dst, src, field)
}

/// One root becomes nil, after which no heap grows.
#[inline(always)]
fn drop_one(heap: &mut GrowingHeap<Global>, owner: u32, root: RootId) -> Result<Reply, Refusal>
    ensures state { heap.new ≡ with_paced heap.old
        (paced_step heap.old.paced owner (commands.Drop root)).0 }
    ensures answer { result ≡ (paced_step heap.old.paced owner (commands.Drop root)).1 }
{
    heap.drop(owner, root)
}
