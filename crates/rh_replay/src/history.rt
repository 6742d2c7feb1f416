//! Histories.

ghost use Rattle.std.specs.Prelude.{◌≡◌, ◌+◌, ◌<◌, ◌≤◌, IfOk, length};
ghost use Rattle.rh_replay.specs.History.{CallFits, IsHistory, empty_history, with_call};

use crate::call::Call;
use rh_layout::limits::MAX_HISTORY_CALLS;
use rh_layout::{MAX_OWNERS, MAX_SLOTS};
use std::alloc::{AllocError, Allocator, Global};
use std::marker::Model;

/// A history: how many owners a heap has, how many slots each of them, and the calls that it
/// answered by a reply or by a refusal that isn't for a limit, in the order in which they were
/// made. It has 1 to 16 owners, 1 to 256 slots of each, and at most 1,048,576 calls.
#[derive(Drop)]
pub struct History<A: Allocator = Global> {
    owners: u32,
    slots: u32,
    calls: Vec<Call, A>,
}

impl<A: Allocator> Model for History<A> {
    ghost use Rattle.std.specs.Prelude.{◌-◌, length};
    ghost use Rattle.std.specs.Vec.{vec_capacity};
    ghost use Rattle.rh_replay.specs.History.{HistoryInMemory, IsHistory};

    ghost Value = { HistoryInMemory };

    ghost view = { λ h.
        record {
          contents = record { owners = h.owners; slots = h.slots; calls = h.calls.items };
          room = vec_capacity h.calls - length h.calls.items;
        } };

    ghost invariant = { λ h.
        IsHistory (record { owners = h.owners; slots = h.slots; calls = h.calls.items }) };
}

impl<A: Allocator> History<A> {
    /// The history of these calls.
    pub(crate) fn of_calls(owners: u32, slots: u32, calls: Vec<Call, A>) -> History<A>
        requires { IsHistory (record { owners = owners; slots = slots; calls = calls.items }) }
        ensures { result.contents
            ≡ record { owners = owners; slots = slots; calls = calls.items } }
    {
        History {
            owners,
            slots,
            calls,
        }
    }

    /// How many owners there are.
    pub fn owners(&self) -> u32
        ensures value { result ≡ self.now.contents.owners }
        ensures history { IsHistory self.now.contents }
    {
        self.owners
    }

    /// How many slots each owner has.
    pub fn slots(&self) -> u32
        ensures value { result ≡ self.now.contents.slots }
        ensures history { IsHistory self.now.contents }
    {
        self.slots
    }

    /// The calls, in the order in which they were made.
    pub fn calls(&self) -> &[Call]
        ensures calls { result.now ≡ self.now.contents.calls }
        ensures history { IsHistory self.now.contents }
    {
        &self.calls
    }
}

impl<A: Allocator + Copy> History<A> {
    /// A history without a call, with room for so many.
    pub(crate) fn with_room(
        alloc: A,
        owners: u32,
        slots: u32,
        room: usize,
    ) -> Result<History<A>, AllocError>
        requires some_owner { 1 ≤ owners }
        requires few_owners { owners ≤ MAX_OWNERS }
        requires some_slot { 1 ≤ slots }
        requires few_slots { slots ≤ MAX_SLOTS }
        ensures contents { IfOk result (λ h. h.contents ≡ empty_history owners slots) }
        ensures room { IfOk result (λ h. room ≤ h.room) }
    {
        let calls = Vec::with_capacity(alloc, room)?;
        Ok(History {
            owners,
            slots,
            calls,
        })
    }

    /// Puts a call after the others, for which there is room.
    pub(crate) fn note(&mut self, call: Call)
        requires fits { CallFits call }
        requires few { length self.old.contents.calls < MAX_HISTORY_CALLS }
        requires room { 0 < self.old.room }
        ensures contents { self.new.contents ≡ with_call self.old.contents call }
        ensures room { self.old.room ≤ self.new.room + 1 }
    {
        self.calls.push(call).unwrap();
    }
}
