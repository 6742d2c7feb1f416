//! Values of all kinds in a row: `rheap_store_row`, `rheap_insist_store_row`. And roots in a row
//! whose values nobody looks at: `rheap_load_roots_untold`.

ghost use Rattle.std.specs.Prelude.{◌≡◌, ◌≢◌};
ghost use Rattle.rh_layout.specs.declared.command.Command.TheVariants as commands;
ghost use Rattle.rh_pace.specs.Calls.{IsPacedCall};
ghost use Rattle.rh_pace.specs.Collecting.{insist_step};
ghost use Rattle.rh_pace.specs.Paced.{paced_step};
ghost use Rattle.rheap_c.specs.Insisted.{IsInsistedCall};
ghost use Rattle.rheap_c.specs.Making.{has_kind, have_kinds};
ghost use Rattle.rheap_c.specs.RootRows.{IsRowDone, IsRowEnd, IsRowInsisted, done_until, row_loads};
ghost use Rattle.rheap_c.specs.Told.{root_of};
ghost use Rattle.rheap_c.specs.ValueRows.{OfKinds, value_stores};

use crate::fixed::insisting::insist;
use crate::fixed::root_rows::{next_index, next_root};
use crate::fixed_part::FixedPart;
use crate::init::RheapInit;
use crate::status::{BAD_KIND, DONE, NOT_OPEN};
use crate::value::{RAW, RheapRoot};
use rh_layout::{Command, Operand, Refusal, Reply, RootId};
use rh_pace::PacedHeap;
use std::alloc::Global;

/// `rheap_store_row`, on a heap of fixed sizes.
#[inline(always)]
pub(crate) fn store_row(
    heap: &mut FixedPart,
    owner: u32,
    object: RheapRoot,
    from: u32,
    values: &[RheapInit],
    count: &mut usize,
) -> u8
    ensures { OfKinds (have_kinds values.now) (IsRowDone heap.old.state heap.new.state
        (value_stores owner (root_of object) from values.now) count.new result)
        heap.old.state heap.new.state count.new result }
{
    if heap.is_empty() {
        *count = 0;
        return NOT_OPEN;
    }
    if are_known(values) {
        stored(heap.here(), owner, object.id(), from, values, count)
    } else {
        *count = 0;
        BAD_KIND
    }
}

/// `rheap_insist_store_row`, on a heap of fixed sizes.
#[inline(always)]
pub(crate) fn insist_store_row(
    heap: &mut FixedPart,
    owner: u32,
    object: RheapRoot,
    from: u32,
    values: &[RheapInit],
    count: &mut usize,
) -> u8
    ensures log { result ≢ 9 }
    ensures row { OfKinds (have_kinds values.now) (IsRowInsisted heap.old.state heap.new.state
        (value_stores owner (root_of object) from values.now) count.new result)
        heap.old.state heap.new.state count.new result }
{
    if heap.is_empty() {
        *count = 0;
        return NOT_OPEN;
    }
    if are_known(values) {
        insisted(heap.here(), owner, object.id(), from, values, count)
    } else {
        *count = 0;
        BAD_KIND
    }
}

/// `rheap_load_roots_untold`, on a heap of fixed sizes.
#[inline(always)]
pub(crate) fn load_roots_untold(
    heap: &mut FixedPart,
    owner: u32,
    first: RheapRoot,
    src: RheapRoot,
    from: u32,
    length: usize,
    count: &mut usize,
) -> u8
    ensures { IsRowDone heap.old.state heap.new.state
        (row_loads owner (root_of first) (root_of src) from length) count.new result }
{
    if heap.is_empty() {
        *count = 0;
        return NOT_OPEN;
    }
    let inner = heap.here();
    loaded(inner, owner, first.id(), src.id(), from, length, count)
}

/// Whether each of these values is of a kind that there is.
pub(crate) fn are_known(values: &[RheapInit]) -> bool
    ensures { result ≡ have_kinds values.now }
{
    values.iter().all(|value| is_known(*value))
}

/// Whether a value is of a kind that there is.
#[inline(always)]
fn is_known(value: RheapInit) -> bool
    ensures { result ≡ has_kind value }
{
    value.kind <= RAW
}

/// Stores these values to fields.
fn stored(
    heap: &mut PacedHeap<Global>,
    owner: u32,
    object: RootId,
    from: u32,
    values: &[RheapInit],
    count: &mut usize,
) -> u8
    ensures { IsRowEnd (done_until paced_step heap.old (value_stores owner object from values.now))
        heap.new count.new result }
{
    let mut field = from;
    for at in 0..values.len() {
        let operand = values[at].operand();
        match store(heap, owner, object, field, operand) {
            Ok(_) => {}
            Err(why) => {
                *count = at;
                return why.number();
            }
        }
        field = next_index(field);
    }
    *count = values.len();
    DONE
}

/// Stores these values to fields, and insists on each store.
fn insisted(
    heap: &mut PacedHeap<Global>,
    owner: u32,
    object: RootId,
    from: u32,
    values: &[RheapInit],
    count: &mut usize,
) -> u8
    ensures end { IsRowEnd (done_until insist_step heap.old
        (value_stores owner object from values.now)) heap.new count.new result }
    // The log is never full.
    ensures log { result ≢ 9 }
{
    let mut field = from;
    for at in 0..values.len() {
        let operand = values[at].operand();
        match insist_store(heap, owner, object, field, operand) {
            Ok(_) => {}
            Err(why) => {
                *count = at;
                return why.number();
            }
        }
        field = next_index(field);
    }
    *count = values.len();
    DONE
}

/// Loads so many fields into roots.
fn loaded(
    heap: &mut PacedHeap<Global>,
    owner: u32,
    first: RootId,
    src: RootId,
    from: u32,
    length: usize,
    count: &mut usize,
) -> u8
    ensures { IsRowEnd (done_until paced_step heap.old (row_loads owner first src from length))
        heap.new count.new result }
{
    let mut dst = first;
    let mut field = from;
    for at in 0..length {
        match heap.load(owner, dst, src, field) {
            Ok(_) => {}
            Err(why) => {
                *count = at;
                return why.number();
            }
        }
        dst = next_root(dst);
        field = next_index(field);
    }
    *count = length;
    DONE
}

/// A store. Each kind of operand has code of its own, in which its kind is known.
#[inline(always)]
fn store(
    heap: &mut PacedHeap<Global>,
    owner: u32,
    obj: RootId,
    field: u32,
    operand: Operand,
) -> Result<Reply, Refusal>
    ensures { IsPacedCall heap.old heap.new owner (commands.Store obj field operand) result }
{
    match operand {
        Operand::Nil => store_first(heap, owner, obj, field, operand),
        Operand::Int(_) => store_first(heap, owner, obj, field, operand),
        Operand::Root(_) => store_first(heap, owner, obj, field, operand),
    }
}

/// A store: in a few instructions where no cycle is on and it is accepted.
#[inline(always)]
fn store_first(
    heap: &mut PacedHeap<Global>,
    owner: u32,
    obj: RootId,
    field: u32,
    operand: Operand,
) -> Result<Reply, Refusal>
    ensures { IsPacedCall heap.old heap.new owner (commands.Store obj field operand) result }
{
    match heap.store_straight(owner, obj, field, operand) {
        Some(reply) => Ok(reply),
        None => store_at_length(heap, owner, obj, field, operand),
    }
}

/// As `store`, also in a cycle, and where it is refused.
#[inline(never)]
fn store_at_length(
    heap: &mut PacedHeap<Global>,
    owner: u32,
    obj: RootId,
    field: u32,
    operand: Operand,
) -> Result<Reply, Refusal>
    ensures { IsPacedCall heap.old heap.new owner (commands.Store obj field operand) result }
{
    heap.store(owner, obj, field, operand)
}

/// A store that is insisted on. Each kind of operand has code of its own.
#[inline(always)]
fn insist_store(
    heap: &mut PacedHeap<Global>,
    owner: u32,
    obj: RootId,
    field: u32,
    operand: Operand,
) -> Result<Reply, Refusal>
    ensures { IsInsistedCall heap.old heap.new owner (commands.Store obj field operand) result }
{
    match operand {
        Operand::Nil => insist_first(heap, owner, obj, field, operand),
        Operand::Int(_) => insist_first(heap, owner, obj, field, operand),
        Operand::Root(_) => insist_first(heap, owner, obj, field, operand),
    }
}

/// A store that is insisted on: in a few instructions where no cycle is on and it is accepted.
#[inline(always)]
fn insist_first(
    heap: &mut PacedHeap<Global>,
    owner: u32,
    obj: RootId,
    field: u32,
    operand: Operand,
) -> Result<Reply, Refusal>
    ensures { IsInsistedCall heap.old heap.new owner (commands.Store obj field operand) result }
{
    match heap.store_straight(owner, obj, field, operand) {
        Some(reply) => Ok(reply),
        None => insist_store_at_length(heap, owner, obj, field, operand),
    }
}

/// As `insist_store`, also in a cycle, and where it is refused.
#[inline(never)]
fn insist_store_at_length(
    heap: &mut PacedHeap<Global>,
    owner: u32,
    obj: RootId,
    field: u32,
    operand: Operand,
) -> Result<Reply, Refusal>
    ensures { IsInsistedCall heap.old heap.new owner (commands.Store obj field operand) result }
{
    let tried = heap.store(owner, obj, field, operand);
    let command = Command::Store {
        obj,
        field,
        operand,
    };
    insist(heap, owner, &command, tried)
}
