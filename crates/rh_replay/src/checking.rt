//! Checks that a history is legal: each call is answered as the heap that never moves answers it.

ghost use Rattle.std.specs.Prelude.{◌≡◌, ◌↔◌, IsTrue, IfOk, OnOk};
ghost use Rattle.rh_model.specs.Plain.{step};
ghost use Rattle.rh_replay.specs.Legal.{IsVerdict};

use crate::call::Call;
use crate::history::History;
use rh_layout::{OutOfMemory, Refusal, Reply};
use rh_model::{CommandError, Plain, PlainError};
use std::alloc::Allocator;

/// What the heap that never moves says of a history.
#[derive(Clone, Copy, Debug, PartialEq, Eq)]
pub enum Verdict {
    /// Each answer is the one that this heap gives. The history has so many calls.
    Legal(u32),
    /// A call has another answer. It is the first such call.
    Wrong {
        /// Which call it is, counted from 1.
        at: u32,
        /// What this heap answers there.
        expected: Result<Reply, Refusal>,
    },
}

/// Whether two answers are one.
fn is_same_answer(one: Result<Reply, Refusal>, other: Result<Reply, Refusal>) -> bool
    ensures { IsTrue result ↔ (one ≡ other) }
{
    one == other
}

/// Plays a call on a heap that never moves, and gives that heap's answer, whatever the call's is.
fn answer_to<A: Allocator + Copy>(
    plain: &mut Plain<A>,
    call: &Call,
) -> Result<Result<Reply, Refusal>, OutOfMemory>
    ensures state { OnOk result (plain.new ≡ (step plain.old call.now.owner call.now.command).0) }
    ensures answer { IfOk result
        (λ answer. answer ≡ (step plain.old call.now.owner call.now.command).1) }
{
    match plain.command(call.owner, &call.command) {
        Ok(reply) => Ok(Ok(reply)),
        Err(CommandError::Refused(refusal)) => Ok(Err(refusal)),
        Err(CommandError::OutOfMemory) => Err(OutOfMemory),
    }
}

/// Plays a history from the start on a heap that never moves, and compares each answer.
///
/// # Errors
///
/// `OutOfMemory` where the allocator refused memory for that heap.
pub fn check<A: Allocator + Copy, B: Allocator>(
    alloc: A,
    history: &History<B>,
) -> Result<Verdict, OutOfMemory>
    ensures { IfOk result (λ verdict. IsVerdict history.now.contents verdict) }
{
    let mut plain = match Plain::new(alloc, history.owners(), history.slots()) {
        Ok(plain) => plain,
        // A history has as many owners and slots as a heap may have.
        Err(PlainError::BadRoots) => unreachable!(),
        Err(PlainError::OutOfMemory) => return Err(OutOfMemory),
    };
    let calls = history.calls();
    let mut count = 0;
    for call in calls {
        let expected = answer_to(&mut plain, call)?;
        count += 1;
        if !is_same_answer(call.answer, expected) {
            return Ok(Verdict::Wrong {
                at: count,
                expected,
            });
        }
    }
    Ok(Verdict::Legal(count))
}
