//! Tickets that watch objects: `rheap_watch`, `rheap_unwatch`, `rheap_next_gone`,
//! `rheap_watch_room`.

ghost use Rattle.std.specs.Prelude.{◌≡◌, ◌+◌};
ghost use Rattle.rh_core.specs.Watching.{unwatch_step};
ghost use Rattle.rh_pace.specs.Watching.{with_heap};
ghost use Rattle.rheap_c.specs.Told.{root_of};
ghost use Rattle.rheap_c.specs.Watching.{HasWatchRoom, IsToldGone, IsUnwatched, IsWatched, MakesRoom, tickets_of, unwatch_status, watch_status, watch_ticket};

use crate::fixed_part::FixedPart;
use crate::status::{DONE, NO_MEMORY, NOT_OPEN, NOT_WATCHED, TICKETS_RANGE, WATCHES_FULL};
use crate::value::RheapRoot;
use rh_core::WatchError;
use rh_pace::PacedHeap;
use rh_watches::RoomError;
use std::alloc::Global;

/// `rheap_watch`, on a heap of fixed sizes.
#[inline(always)]
pub(crate) fn watch(
    heap: &mut FixedPart,
    alloc: Global,
    owner: u32,
    root: RheapRoot,
    ticket: &mut u64,
) -> u8
    ensures { IsWatched heap.old.state heap.new.state owner (root_of root) result ticket.new }
{
    match heap.take(alloc) {
        None => {
            *ticket = 0;
            NOT_OPEN
        }
        Some(mut inner) => {
            let told = inner.watch(owner, root.id());
            heap.give(inner);
            *ticket = ticket_told(&told);
            watched_status(&told)
        }
    }
}

/// `rheap_unwatch`, on a heap of fixed sizes.
#[inline(always)]
pub(crate) fn unwatch(heap: &mut FixedPart, alloc: Global, ticket: u64) -> u8
    ensures { IsUnwatched heap.old.state heap.new.state ticket result }
{
    match heap.take(alloc) {
        None => NOT_OPEN,
        Some(mut inner) => {
            let status = unwatched(&mut inner, ticket);
            heap.give(inner);
            status
        }
    }
}

/// `rheap_next_gone`, on a heap of fixed sizes.
#[inline(always)]
pub(crate) fn next_gone(heap: &mut FixedPart, alloc: Global, ticket: &mut u64, is: &mut u8) -> u8
    ensures { IsToldGone heap.old.state heap.new.state ticket.new is.new result }
{
    match heap.take(alloc) {
        None => {
            *ticket = 0;
            *is = 0;
            NOT_OPEN
        }
        Some(mut inner) => {
            let told = inner.next_gone();
            heap.give(inner);
            match told {
                Some(gone) => {
                    *ticket = u64::from(gone);
                    *is = 1;
                }
                None => {
                    *ticket = 0;
                    *is = 0;
                }
            }
            DONE
        }
    }
}

/// `rheap_watch_room`, on a heap of fixed sizes.
#[inline(always)]
pub(crate) fn watch_room(heap: &mut FixedPart, alloc: Global, additional: u32) -> u8
    ensures { HasWatchRoom heap.old.state heap.new.state additional result }
{
    match heap.take(alloc) {
        None => NOT_OPEN,
        Some(mut inner) => {
            let status = made_room(&mut inner, additional);
            heap.give(inner);
            status
        }
    }
}

/// The ticket of a watch, and 0 where it was refused.
pub(crate) fn ticket_told(told: &Result<u32, WatchError>) -> u64
    ensures { result ≡ watch_ticket told.now }
{
    match told {
        Ok(ticket) => u64::from(*ticket),
        Err(_) => 0,
    }
}

/// The status of a watch.
pub(crate) fn watched_status(told: &Result<u32, WatchError>) -> u8
    ensures { result ≡ watch_status told.now }
{
    match told {
        Ok(_) => DONE,
        Err(WatchError::NoRoot) => 1,
        Err(WatchError::NotYours) => 2,
        Err(WatchError::NotObject) => 3,
        Err(WatchError::Full) => WATCHES_FULL,
    }
}

/// Frees a ticket, and answers the status. No heap has as many tickets as 32 bits count.
fn unwatched(heap: &mut PacedHeap<Global>, ticket: u64) -> u8
    ensures state { heap.new ≡ with_heap heap.old (unwatch_step heap.old.heap ticket).0 }
    ensures status { result ≡ unwatch_status (unwatch_step heap.old.heap ticket).1 }
{
    if ticket >= u64::from(heap.heap().watches().room()) {
        return NOT_WATCHED;
    }
    if heap.unwatch(ticket as u32) {
        DONE
    } else {
        NOT_WATCHED
    }
}

/// Makes room for so many tickets more, and answers the status.
fn made_room(heap: &mut PacedHeap<Global>, additional: u32) -> u8
    ensures { MakesRoom heap.old heap.new (tickets_of heap.old + additional) result }
{
    let now = heap.heap().watches().room();
    let Some(tickets) = now.checked_add(additional) else {
        return TICKETS_RANGE;
    };
    match heap.watch_room(tickets) {
        Ok(()) => DONE,
        Err(RoomError::OutOfMemory) => NO_MEMORY,
        Err(RoomError::TooMany) => TICKETS_RANGE,
        // Never, since there are more now.
        Err(RoomError::Fewer { .. }) => TICKETS_RANGE,
    }
}
