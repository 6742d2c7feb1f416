//! Tickets that watch objects: `rheap_watch`, `rheap_unwatch`, `rheap_next_gone`,
//! `rheap_watch_room`.

ghost use Rattle.rheap_c.specs.Told.{root_of};
ghost use Rattle.rheap_c.specs.Watching.{HasWatchRoom, IsToldGone, IsUnwatched, IsWatched};
ghost use Rattle.rheap_c.specs.Grown.{CallsOnPaced};

use crate::handle::Rheap;
use crate::value::RheapRoot;
use crate::{fixed, growing};
use std::alloc::Global;

/// Watches the object that the root holds now, as `PacedHeap::watch`; `ticket` tells the ticket.
#[unsafe(no_mangle)]
pub extern "C" fn rheap_watch(
    heap: &mut Rheap,
    alloc: Global,
    owner: u32,
    root: RheapRoot,
    ticket: &mut u64,
) -> u8
    ensures { CallsOnPaced (λ old new. IsWatched old new owner (root_of root) result ticket.new)
        heap.old heap.new }
{
    if heap.fixed.is_empty() {
        return growing::watching::watch(&mut heap.growing, alloc, owner, root, ticket);
    }
    fixed::watching::watch(&mut heap.fixed, alloc, owner, root, ticket)
}

/// Frees a ticket that watches an object, as `PacedHeap::unwatch`. Any other ticket stays as it is.
#[unsafe(no_mangle)]
pub extern "C" fn rheap_unwatch(heap: &mut Rheap, alloc: Global, ticket: u64) -> u8
    ensures { CallsOnPaced (λ old new. IsUnwatched old new ticket result) heap.old heap.new }
{
    if heap.fixed.is_empty() {
        return growing::watching::unwatch(&mut heap.growing, alloc, ticket);
    }
    fixed::watching::unwatch(&mut heap.fixed, alloc, ticket)
}

/// The first ticket whose object is gone, as `PacedHeap::next_gone`: `is` is 1 then, and `ticket`
/// tells it. It is free from then on. Where there is none, both are 0.
#[unsafe(no_mangle)]
pub extern "C" fn rheap_next_gone(
    heap: &mut Rheap,
    alloc: Global,
    ticket: &mut u64,
    is: &mut u8,
) -> u8
    ensures { CallsOnPaced (λ old new. IsToldGone old new ticket.new is.new result) heap.old
        heap.new }
{
    if heap.fixed.is_empty() {
        return growing::watching::next_gone(&mut heap.growing, alloc, ticket, is);
    }
    fixed::watching::next_gone(&mut heap.fixed, alloc, ticket, is)
}

/// Makes room for so many tickets more, as `PacedHeap::watch_room` of all of them.
#[unsafe(no_mangle)]
pub extern "C" fn rheap_watch_room(heap: &mut Rheap, alloc: Global, additional: u32) -> u8
    ensures { CallsOnPaced (λ old new. HasWatchRoom old new additional result) heap.old heap.new }
{
    if heap.fixed.is_empty() {
        return growing::watching::watch_room(&mut heap.growing, alloc, additional);
    }
    fixed::watching::watch_room(&mut heap.fixed, alloc, additional)
}
