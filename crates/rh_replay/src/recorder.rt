//! Recorders of histories.

ghost use Rattle.std.specs.Prelude.{◌≡◌, ◌<◌, ◌≤◌, ◌↔◌, ◌⊎◌, IfOk, OnOk, OnErr, IsErr, Err, length, not};
ghost use Rattle.rh_replay.specs.History.{empty_history, is_left_out, noted_unless, with_call, AnswerIsKept};

use crate::call::{Call, answer_fits, command_fits};
use crate::history::History;
use rh_layout::limits::MAX_HISTORY_CALLS;
use rh_layout::{Command, MAX_OWNERS, MAX_SLOTS, Refusal, Reply};
use std::alloc::{AllocError, Allocator, Global};
use std::marker::Model;
use thiserror::Error;

/// Why there is no recorder.
#[derive(Clone, Copy, Debug, PartialEq, Eq, Error)]
pub enum RecorderError {
    /// The owners aren't 1 to 16, or the slots of each aren't 1 to 256.
    #[error("BadRoots")]
    BadRoots,
    /// The limit isn't 1 to 1,048,576 calls.
    #[error("BadHistory")]
    BadHistory,
    /// A growth was refused.
    #[error("out of memory")]
    OutOfMemory,
}

/// The history has as many calls as the recorder's limit.
#[derive(Clone, Copy, Debug, PartialEq, Eq, Error)]
#[error("TraceFull")]
pub struct TraceFull;

/// A history that calls are noted in. Room for all of them is made when the recorder is, and never
/// grows.
#[derive(Drop)]
pub struct Recorder<A: Allocator = Global> {
    history: History<A>,
    limit: u32,
}

impl<A: Allocator> Model for Recorder<A> {
    ghost use Rattle.std.specs.Prelude.{◌≤◌, ◌+◌, length};
    ghost use Rattle.rh_replay.specs.History.{RecorderState};
    ghost use Rattle.rh_layout.specs.declared.limits.TheConstants.{MAX_HISTORY_CALLS};

    ghost Value = { RecorderState };

    ghost view = { λ r. record { history = r.history.contents; limit = r.limit } };

    ghost invariant = { λ r. (1 ≤ r.limit) × (r.limit ≤ MAX_HISTORY_CALLS)
        × (length r.history.contents.calls ≤ r.limit)
        × (r.limit ≤ length r.history.contents.calls + r.history.room) };
}

impl<A: Allocator + Copy> Recorder<A> {
    /// A recorder of a heap of so many owners with so many slots each, that notes at most `limit`
    /// calls. No call is noted yet.
    ///
    /// # Errors
    ///
    /// `BadRoots` exactly where the owners aren't 1 to 16 or the slots aren't 1 to 256; else
    /// `BadHistory` exactly where the limit isn't 1 to 1,048,576; else `OutOfMemory` where room for
    /// the calls was refused.
    pub fn new(alloc: A, owners: u32, slots: u32, limit: u32) -> Result<Recorder<A>, RecorderError>
        ensures history { IfOk result (λ r. r.history ≡ empty_history owners slots) }
        ensures limit { IfOk result (λ r. r.limit ≡ limit) }
        ensures bad_roots { (result ≡ Err RecorderError.BadRoots)
            ↔ ((owners ≡ 0) ⊎ (MAX_OWNERS < owners) ⊎ (slots ≡ 0) ⊎ (MAX_SLOTS < slots)) }
        ensures bad_history { (result ≡ Err RecorderError.BadHistory)
            ↔ ((1 ≤ owners) × (owners ≤ MAX_OWNERS) × (1 ≤ slots) × (slots ≤ MAX_SLOTS)
            × ((limit ≡ 0) ⊎ (MAX_HISTORY_CALLS < limit))) }
    {
        if owners == 0 || owners > MAX_OWNERS || slots == 0 || slots > MAX_SLOTS {
            return Err(RecorderError::BadRoots);
        }
        if limit == 0 || limit > MAX_HISTORY_CALLS {
            return Err(RecorderError::BadHistory);
        }
        match History::with_room(alloc, owners, slots, limit as usize) {
            Ok(history) => Ok(Recorder { history, limit }),
            Err(AllocError) => Err(RecorderError::OutOfMemory),
        }
    }

    /// Notes a call of an owner after the others, with its answer. Takes no memory.
    ///
    /// # Errors
    ///
    /// `TraceFull` exactly where as many calls are noted as the limit; nothing has changed then.
    pub fn note(
        &mut self,
        owner: u32,
        command: &Command,
        answer: Result<Reply, Refusal>,
    ) -> Result<(), TraceFull>
        // The caller's answer isn't a refusal for a limit, since such a call stands in no history.
        requires { AnswerIsKept answer }
        ensures noted { OnOk result (self.new.history ≡ with_call self.old.history
            (record { owner = owner; command = command.now; answer = answer })) }
        ensures limit { self.new.limit ≡ self.old.limit }
        ensures full { IsErr result ↔ (length self.old.history.calls ≡ self.old.limit) }
        ensures unchanged { OnErr result (self.new ≡ self.old) }
    {
        if self.history.calls().len() == self.limit as usize {
            return Err(TraceFull);
        }
        let call = Call {
            owner,
            command: *command,
            answer,
        };
        command_fits(owner, *command);
        answer_fits(answer);
        self.history.note(call);
        Ok(())
    }

    /// Notes a call of an owner after the others, with its answer, unless that is a refusal for a
    /// limit of the heap. Takes no memory.
    pub fn note_unless_limited(
        &mut self,
        owner: u32,
        command: &Command,
        answer: Result<Reply, Refusal>,
    )
        requires { length self.old.history.calls < self.old.limit }
        ensures history { self.new.history ≡ noted_unless (is_left_out answer) self.old.history
            (record { owner = owner; command = command.now; answer = answer }) }
        ensures limit { self.new.limit ≡ self.old.limit }
    {
        if is_noted(answer) {
            self.note(owner, command, answer).unwrap();
        }
    }

    /// The calls that were noted, in order.
    pub fn history(&self) -> &History<A>
        ensures { result.now.contents ≡ self.now.history }
    {
        &self.history
    }

    /// The most calls that it notes.
    pub fn limit(&self) -> u32
        ensures limit { result ≡ self.now.limit }
        ensures few { length self.now.history.calls ≤ result }
    {
        self.limit
    }
}

/// Whether a call that was answered so stands in histories.
fn is_noted(answer: Result<Reply, Refusal>) -> bool
    ensures { result ≡ not (is_left_out answer) }
{
    match answer {
        Ok(_) => true,
        Err(refusal) => !refusal.is_limit(),
    }
}
