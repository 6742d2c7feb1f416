//! A mutator: the handle by which one thread calls a shared heap.

ghost use Rattle.std.specs.Prelude.{◌≡◌, ◌<◌, ◌≤◌, IfOk, length, Err};
ghost use Rattle.rh_shared.specs.Start.{HasRoots};
ghost use Rattle.rh_shared.specs.Shares.{first_mutators, with_answer};
ghost use Rattle.rh_shared.specs.Answers.{AnswersUnderLock, ComesAfterHistory};

use crate::kept::{CallError, is_full};
use crate::shared_heap::SharedHeap;
use crate::start::recorder_for;
use rh_layout::limits::MAX_HISTORY_CALLS;
use rh_layout::{Command, OutOfMemory, Reply};
use rh_replay::{Call, Recorder};
use std::alloc::{Allocator, Global};
use std::marker::Model;
use std::sync::Wait;

/// Who calls a shared heap for one of its owners. It keeps a share of the history: its own calls
/// with their answers, in order, but those that were refused for a limit.
#[derive(Drop)]
pub struct Mutator<A: Allocator + Copy = Global> {
    owner: u32,
    share: Recorder<A>,
}

impl<A: Allocator + Copy> Model for Mutator<A> {
    ghost use Rattle.rh_shared.specs.Shares.{MutatorState};

    ghost Value = { MutatorState };

    ghost view = { λ m. record { owner = m.owner; share = m.share } };
}

impl<A: Allocator + Copy> Mutator<A> {
    /// The owner for which it calls.
    pub fn owner(&self) -> u32
        ensures { result ≡ self.now.owner }
    {
        self.owner
    }

    /// Its share of the history.
    pub fn calls(&self) -> &[Call]
        ensures { result.now ≡ self.now.share.history.calls }
    {
        self.share.history().calls()
    }

    /// One command of its owner, as `Kept::call` does it under the lock. What the heap answers, by
    /// a reply or by a refusal that isn't for a limit, is added to its share. Takes no memory. It
    /// may wait for the lock.
    ///
    /// Unless its share is full, the answer is that of `Kept::call` in something that may lie under
    /// the lock. So it comes after some legal history: it is what the heap that never moves answers
    /// there; or that heap accepts the command, and a heap that stands for it is at the limit that
    /// refuses it.
    ///
    /// # Errors
    ///
    /// `TraceFull` where its share has as many calls as the history may have, and the lock isn't
    /// taken then; else the error of `Kept::call`.
    pub fn call<R: Wait>(
        &mut self,
        rt: &R,
        shared: &SharedHeap<A>,
        command: Command,
    ) -> Result<Reply, CallError>
        ensures share { self.new ≡ with_answer self.old command result }
        ensures full { length self.old.share.history.calls ≡ self.old.share.limit
            → result ≡ Err CallError.TraceFull }
        ensures lock { length self.old.share.history.calls < self.old.share.limit
            → AnswersUnderLock A self.old.owner command result }
        ensures history { length self.old.share.history.calls < self.old.share.limit
            → ComesAfterHistory self.old.owner command result }
    {
        if is_full(&self.share) {
            return Err(CallError::TraceFull);
        }
        let answer = shared.call(rt, self.owner, &command);
        self.add(&command, answer);
        answer
    }

    /// Adds a call that was answered so, unless it was refused for a limit.
    fn add(&mut self, command: &Command, answer: Result<Reply, CallError>)
        requires { length self.old.share.history.calls < self.old.share.limit }
        ensures { self.new ≡ with_answer self.old command.now answer }
    {
        match answer {
            Ok(reply) => self
                .share
                .note_unless_limited(self.owner, command, Ok(reply)),
            Err(CallError::TraceFull) => {}
            Err(CallError::Heap(refusal)) => {
                self.share
                    .note_unless_limited(self.owner, command, Err(refusal));
            }
        }
    }
}

/// A mutator for each owner, in order, with room for so many calls.
pub(crate) fn mutators_of<A: Allocator + Copy>(
    alloc: A,
    owners: u32,
    slots: u32,
    limit: u32,
) -> Result<Vec<Mutator<A>, A>, OutOfMemory>
    requires roots { HasRoots owners slots }
    requires some_call { 1 ≤ limit }
    requires few_calls { limit ≤ MAX_HISTORY_CALLS }
    ensures { IfOk result (λ mutators.
        mutators.items ≡ first_mutators owners slots limit owners) }
{
    let mut mutators = Vec::with_capacity(alloc, owners as usize)?;
    for owner in 0..owners {
        let share = recorder_for(alloc, owners, slots, limit)?;
        mutators.push(Mutator { owner, share })?;
    }
    Ok(mutators)
}
