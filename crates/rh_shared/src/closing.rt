//! Closing a shared heap: the mutators' shares are compared with the history.

ghost use Rattle.std.specs.Prelude.{◌≡◌, ◌↔◌, ◌≤◌, IfOk, IfErr, IsTrue, IfSome, IfNone, Some, length, slice_get};
ghost use Rattle.rh_shared.specs.Kept.{IsKept};
ghost use Rattle.rh_shared.specs.Shares.{HasShares, IsFirstDifference, IsLeastStranger, IsOneEach, WhyNotClosed, calls_of, calls_together, have_owners_below, lesser_stranger, mutator_count, share_of};

use crate::kept::Kept;
use crate::mutator::Mutator;
use crate::shared_heap::SharedHeap;
use rh_layout::limits::MAX_HISTORY_CALLS;
use rh_layout::{Command, Refusal, Reply};
use rh_replay::Call;
use std::alloc::{Allocator, Global};
use thiserror::Error;

/// Why a shared heap isn't closed. The first reason that holds is told.
#[derive(Clone, Copy, Debug, PartialEq, Eq, Error)]
pub enum CloseError {
    /// The mutators aren't exactly one for each owner of the heap.
    #[error("SharesMissing")]
    SharesMissing,
    /// The share of this owner isn't its calls in the history.
    #[error("HistoryDiffers owner {owner} at {at}")]
    HistoryDiffers {
        /// The owner, the least one whose share differs.
        owner: u32,
        /// The first place, from 1, at which the two differ or one has ended.
        at: u32,
    },
}

/// A shared heap that isn't closed.
#[derive(Drop)]
pub struct NotClosed<A: Allocator + Copy = Global> {
    /// What the lock held, as it was.
    pub kept: Kept<A>,
    /// The mutators.
    pub mutators: Vec<Mutator<A>, A>,
    /// Why it isn't closed.
    pub why: CloseError,
}

/// Takes the lock away, once there is exactly one mutator for each owner and each one's share is
/// its owner's calls in the history, in order. Then the shares together are all of the history.
///
/// # Errors
///
/// `NotClosed`, with the mutators and what the lock held, as it was. `SharesMissing` exactly where
/// the mutators aren't one for each owner of the heap. Else `HistoryDiffers` exactly where an
/// owner's share isn't its calls in the history, with the least such owner, and the first place at
/// which the two differ. An owner that the heap hasn't has no share, and its calls, which were
/// answered `NoRoot`, differ from it at 1.
pub fn close<A: Allocator + Copy>(
    shared: SharedHeap<A>,
    mutators: Vec<Mutator<A>, A>,
) -> Result<Kept<A>, NotClosed<A>>
    ensures closed { IfOk result (λ kept.
        IsOneEach kept.collector.heap.mutators.roots.owners mutators.items
        × HasShares mutators.items kept.recorder.history.calls) }
    ensures whole { IfOk result (λ kept.
        calls_together mutators.items ≡ length kept.recorder.history.calls) }
    ensures legal { IfOk result (λ kept.
        IsKept kept.recorder.history kept.collector.heap) }
    ensures back { IfErr result (λ left. left.mutators.items ≡ mutators.items) }
    ensures why { IfErr result (λ left.
        WhyNotClosed left.kept.collector.heap.mutators.roots.owners mutators.items
        left.kept.recorder.history.calls left.why) }
{
    let kept = shared.into_kept();
    kept.lends_kept();
    match why_not_closed(&kept, &mutators) {
        None => Ok(kept),
        Some(why) => Err(NotClosed {
            kept,
            mutators,
            why,
        }),
    }
}

/// Why a shared heap isn't closed, if so.
fn why_not_closed<A: Allocator + Copy>(
    kept: &Kept<A>,
    mutators: &[Mutator<A>],
) -> Option<CloseError>
    ensures closed { IfNone result
        (IsOneEach kept.now.collector.heap.mutators.roots.owners mutators.now
        × HasShares mutators.now kept.now.recorder.history.calls) }
    ensures why { IfSome result (λ why.
        WhyNotClosed kept.now.collector.heap.mutators.roots.owners mutators.now
        kept.now.recorder.history.calls why) }
{
    let owners = kept.heap().config().owners;
    if !is_one_each(mutators, owners) {
        return Some(CloseError::SharesMissing);
    }
    let calls = kept.history().calls();
    for owner in 0..owners {
        if let Some(at) = difference(mutators, owner, calls) {
            return Some(CloseError::HistoryDiffers { owner, at });
        }
    }
    match least_stranger(calls, owners) {
        Some(owner) => Some(CloseError::HistoryDiffers { owner, at: 1 }),
        None => None,
    }
}

/// Whether there is exactly one mutator for each of so many owners, and no other.
fn is_one_each<A: Allocator + Copy>(mutators: &[Mutator<A>], owners: u32) -> bool
    ensures { IsTrue result ↔ IsOneEach owners mutators.now }
{
    if !are_of_owners(mutators, owners) {
        return false;
    }
    for owner in 0..owners {
        if count_for(mutators, owner) != 1 {
            return false;
        }
    }
    true
}

/// Whether each mutator is for one of so many owners.
fn are_of_owners<A: Allocator + Copy>(mutators: &[Mutator<A>], owners: u32) -> bool
    ensures { result ≡ have_owners_below owners mutators.now }
{
    for mutator in mutators {
        if mutator.owner() >= owners {
            return false;
        }
    }
    true
}

/// How many mutators the owner has.
fn count_for<A: Allocator + Copy>(mutators: &[Mutator<A>], owner: u32) -> usize
    ensures { result ≡ mutator_count owner mutators.now }
{
    let mut count = 0;
    for mutator in mutators {
        if mutator.owner() == owner {
            count += 1;
        }
    }
    count
}

/// The first place, from 1, at which the share of an owner and its calls in the history differ.
fn difference<A: Allocator + Copy>(
    mutators: &[Mutator<A>],
    owner: u32,
    calls: &[Call],
) -> Option<u32>
    requires few { length calls.now ≤ MAX_HISTORY_CALLS }
    ensures same { IfNone result (share_of owner mutators.now ≡ calls_of owner calls.now) }
    ensures differs { IfSome result (λ at.
        IsFirstDifference (share_of owner mutators.now) (calls_of owner calls.now) at) }
{
    for mutator in mutators {
        if mutator.owner() == owner {
            return difference_of(mutator.calls(), owner, calls);
        }
    }
    difference_of(&[], owner, calls)
}

/// The first place, from 1, at which a share and the calls of an owner in the history differ.
fn difference_of(share: &[Call], owner: u32, calls: &[Call]) -> Option<u32>
    requires few { length calls.now ≤ MAX_HISTORY_CALLS }
    ensures same { IfNone result (share.now ≡ calls_of owner calls.now) }
    ensures differs { IfSome result (λ at.
        IsFirstDifference share.now (calls_of owner calls.now) at) }
{
    let mut found = 0;
    for call in calls {
        if call.owner == owner {
            if !stands_at(share, found, call) {
                return Some(found as u32 + 1);
            }
            found += 1;
        }
    }
    if found < share.len() {
        Some(found as u32 + 1)
    } else {
        None
    }
}

/// Whether the share has this call after so many others.
fn stands_at(share: &[Call], before: usize, call: &Call) -> bool
    ensures { IsTrue result ↔ (slice_get share.now before ≡ Some call.now) }
{
    match share.get(before) {
        Some(own) => is_same_call(own, call),
        None => false,
    }
}

/// Whether two calls are one.
fn is_same_call(one: &Call, other: &Call) -> bool
    ensures { IsTrue result ↔ (one.now ≡ other.now) }
{
    if one.owner != other.owner {
        return false;
    }
    if !is_same_command(one.command, other.command) {
        return false;
    }
    is_same_answer(one.answer, other.answer)
}

/// Whether two commands are one.
fn is_same_command(one: Command, other: Command) -> bool
    ensures { IsTrue result ↔ (one ≡ other) }
{
    one == other
}

/// Whether two answers are one.
fn is_same_answer(one: Result<Reply, Refusal>, other: Result<Reply, Refusal>) -> bool
    ensures { IsTrue result ↔ (one ≡ other) }
{
    one == other
}

/// The least owner from this one on that has a call.
fn least_stranger(calls: &[Call], owners: u32) -> Option<u32>
    ensures { IsLeastStranger result owners calls.now }
{
    let mut least = None;
    for call in calls {
        least = lesser(least, call.owner, owners);
    }
    least
}

/// The owner of a call where that is at least the number of owners, unless a lesser one was found.
fn lesser(found: Option<u32>, owner: u32, owners: u32) -> Option<u32>
    ensures { result ≡ lesser_stranger found owner owners }
{
    if owner < owners {
        return found;
    }
    match found {
        Some(least) if least <= owner => Some(least),
        _ => Some(owner),
    }
}
