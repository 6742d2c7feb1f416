//! Tickets that watch objects, on a heap that grows.

ghost use Rattle.std.specs.Prelude.{◌≡◌, ◌+◌};
ghost use Rattle.rh_core.specs.Watching.{unwatch_step};
ghost use Rattle.rh_growing.specs.Growing.{with_paced};
ghost use Rattle.rh_growing.specs.Watching.{with_heap};
ghost use Rattle.rheap_c.specs.Grown.{OnPaced};
ghost use Rattle.rheap_c.specs.Told.{root_of};
ghost use Rattle.rheap_c.specs.Watching.{HasWatchRoom, IsToldGone, IsUnwatched, IsWatched, MakesRoom, tickets_of, unwatch_status};

use crate::fixed::watching::{ticket_told, watched_status};
use crate::growing_part::GrowingPart;
use crate::status::{DONE, NO_MEMORY, NOT_OPEN, NOT_WATCHED, TICKETS_RANGE};
use crate::value::RheapRoot;
use rh_growing::GrowingHeap;
use rh_watches::RoomError;
use std::alloc::Global;

/// `rheap_watch`, on a heap that grows.
#[inline(never)]
pub(crate) fn watch(
    heap: &mut GrowingPart,
    alloc: Global,
    owner: u32,
    root: RheapRoot,
    ticket: &mut u64,
) -> u8
    ensures { OnPaced (λ old new. IsWatched old new owner (root_of root) result ticket.new)
        heap.old.state heap.new.state }
{
    match heap.take(alloc) {
        None => {
            *ticket = 0;
            NOT_OPEN
        }
        Some(mut inner) => {
            let told = inner.watch(owner, root.id());
            heap.give(inner);
            *ticket = ticket_told(&told);
            watched_status(&told)
        }
    }
}

/// `rheap_unwatch`, on a heap that grows.
#[inline(never)]
pub(crate) fn unwatch(heap: &mut GrowingPart, alloc: Global, ticket: u64) -> u8
    ensures { OnPaced (λ old new. IsUnwatched old new ticket result) heap.old.state heap.new.state }
{
    match heap.take(alloc) {
        None => NOT_OPEN,
        Some(mut inner) => {
            let status = unwatched(&mut inner, ticket);
            heap.give(inner);
            status
        }
    }
}

/// `rheap_next_gone`, on a heap that grows.
#[inline(never)]
pub(crate) fn next_gone(heap: &mut GrowingPart, alloc: Global, ticket: &mut u64, is: &mut u8) -> u8
    ensures { OnPaced (λ old new. IsToldGone old new ticket.new is.new result) heap.old.state
        heap.new.state }
{
    match heap.take(alloc) {
        None => {
            *ticket = 0;
            *is = 0;
            NOT_OPEN
        }
        Some(mut inner) => {
            let told = inner.next_gone();
            heap.give(inner);
            match told {
                Some(gone) => {
                    *ticket = u64::from(gone);
                    *is = 1;
                }
                None => {
                    *ticket = 0;
                    *is = 0;
                }
            }
            DONE
        }
    }
}

/// `rheap_watch_room`, on a heap that grows.
#[inline(never)]
pub(crate) fn watch_room(heap: &mut GrowingPart, alloc: Global, additional: u32) -> u8
    ensures { OnPaced (λ old new. HasWatchRoom old new additional result) heap.old.state
        heap.new.state }
{
    match heap.take(alloc) {
        None => NOT_OPEN,
        Some(mut inner) => {
            let status = made_room(&mut inner, additional);
            heap.give(inner);
            status
        }
    }
}

/// Frees a ticket, and answers the status. No heap has as many tickets as 32 bits count.
fn unwatched(heap: &mut GrowingHeap<Global>, ticket: u64) -> u8
    ensures state { heap.new ≡ with_heap heap.old (unwatch_step heap.old.paced.heap ticket).0 }
    ensures status { result ≡ unwatch_status (unwatch_step heap.old.paced.heap ticket).1 }
{
    if ticket >= u64::from(heap.paced().heap().watches().room()) {
        return NOT_WATCHED;
    }
    if heap.unwatch(ticket as u32) {
        DONE
    } else {
        NOT_WATCHED
    }
}

/// Makes room for so many tickets more, and answers the status.
fn made_room(heap: &mut GrowingHeap<Global>, additional: u32) -> u8
    ensures rest { heap.new ≡ with_paced heap.old heap.new.paced }
    ensures made { MakesRoom heap.old.paced heap.new.paced
        (tickets_of heap.old.paced + additional) result }
{
    let now = heap.paced().heap().watches().room();
    let Some(tickets) = now.checked_add(additional) else {
        return TICKETS_RANGE;
    };
    match heap.watch_room(tickets) {
        Ok(()) => DONE,
        Err(RoomError::OutOfMemory) => NO_MEMORY,
        Err(RoomError::TooMany) => TICKETS_RANGE,
        // Never, since there are more now.
        Err(RoomError::Fewer { .. }) => TICKETS_RANGE,
    }
}
