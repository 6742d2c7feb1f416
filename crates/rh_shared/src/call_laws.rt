//! Laws of calls, of new mutators and of closing. Each function does nothing: its contract is the
//! law.

ghost use Rattle.std.specs.Prelude.{◌≡◌, ◌↔◌, ℕ, ◌+◌, ◌<◌, ◌++◌, Bool, true, false, List, length, Some, Result, Ok, Err, IsOk};
ghost use Rattle.rh_layout.specs.Command.{made_by};
ghost use Rattle.rh_layout.specs.Refusal.{is_limit};
ghost use Rattle.rh_layout.specs.declared.command.Command.{Command};
ghost use Rattle.rh_layout.specs.declared.command.Command.TheVariants as commands;
ghost use Rattle.rh_layout.specs.declared.command.Operand.{Operand};
ghost use Rattle.rh_layout.specs.declared.command.Reply.{Reply};
ghost use Rattle.rh_layout.specs.declared.command.Reply.TheVariants as replies;
ghost use Rattle.rh_layout.specs.declared.command.RootId.{RootId};
ghost use Rattle.rh_layout.specs.declared.refusal.Refusal.{Refusal};
ghost use Rattle.rh_layout.specs.declared.refusal.Refusal.TheVariants.{LogFull, NumbersSpent, SpaceFull};
ghost use Rattle.rh_layout.specs.declared.shape.Shape.{Shape};
ghost use Rattle.rh_model.specs.Plain.{step};
ghost use Rattle.rh_mutator.specs.Commands.{IsStoring};
ghost use Rattle.rh_core.specs.Commands.{heap_step};
ghost use Rattle.rh_core.specs.Stat.{stat_of};
ghost use Rattle.rh_replay.specs.declared.call.Call.{Call};
ghost use Rattle.rh_replay.specs.Legal.{replay};
ghost use Rattle.rh_shared.specs.declared.closing.CloseError.{CloseError as CloseErrorOf};
ghost use Rattle.rh_shared.specs.declared.closing.CloseError.TheVariants as close_errors;
ghost use Rattle.rh_shared.specs.declared.kept.CallError.{CallError as CallErrorOf};
ghost use Rattle.rh_shared.specs.declared.kept.CallError.TheVariants as call_errors;
ghost use Rattle.rh_shared.specs.Answers.{AnswersUnderLock, ComesAfterHistory, DoesUnderLock};
ghost use Rattle.rh_shared.specs.Kept.{CallMeets, KeptState, kept_call, with_noted};
ghost use Rattle.rh_shared.specs.Shares.{HasShares, IsOneEach, MutatorState, PartAt, WhyNotClosed, calls_of, first_mutators, share_of, with_answer};
ghost use Rattle.rh_collector.specs.Collector.{with_heap};
ghost use Rattle.rh_collector.specs.declared.did.Did.{Did as DidOf};
ghost use Rattle.rh_collector.specs.Did.{did_nothing};
ghost use Rattle.rh_collector.specs.Increment.{increment, Meets, Met};

use rh_collector::laws::an_increment_begins_a_cycle_below_the_mark;
use rh_core::laws::refused_commands_change_nothing;
use std::alloc::Allocator;

/// A call of a full history changes nothing. Else a call that the heap accepts is followed by one
/// increment of the heap after it, and noted with its reply, and what is met in that call is what
/// that increment meets; one that the heap refuses changes nothing but the history, in which it is
/// noted unless it was refused for a limit, and no increment follows it.
pub fn a_call_is_noted_unless_a_limit_refused_it<A: Allocator + Copy>()
    ensures full { (met : Met) (k : KeptState A) (owner : ℕ) (command : Command)
        → length k.recorder.history.calls ≡ k.recorder.limit
        → kept_call met k owner command ≡ (k, Err call_errors.TraceFull) }
    ensures accepted { (met : Met) (k : KeptState A) (owner : ℕ) (command : Command)
        → length k.recorder.history.calls < k.recorder.limit → (reply : Reply)
        → (heap_step k.collector.heap owner command).1 ≡ Ok reply
        → (let after = with_heap k.collector (heap_step k.collector.heap owner command).0 in
        kept_call met k owner command ≡ (
          with_noted (record k {
            collector = (increment met after).0;
            last = (increment met after).1;
          }) owner command (Ok reply),
          Ok reply,
        )) }
    ensures meets { (met : Met) (k : KeptState A) (owner : ℕ) (command : Command)
        → length k.recorder.history.calls < k.recorder.limit → (reply : Reply)
        → (heap_step k.collector.heap owner command).1 ≡ Ok reply
        → CallMeets met k owner command
        → Meets met (with_heap k.collector (heap_step k.collector.heap owner command).0) }
    ensures refused { (met : Met) (k : KeptState A) (owner : ℕ) (command : Command)
        → length k.recorder.history.calls < k.recorder.limit → (refusal : Refusal)
        → (heap_step k.collector.heap owner command).1 ≡ Err refusal
        → is_limit refusal ≡ false
        → kept_call met k owner command
        ≡ (with_noted k owner command (Err refusal), Err (call_errors.Heap refusal)) }
    ensures limited { (met : Met) (k : KeptState A) (owner : ℕ) (command : Command)
        → length k.recorder.history.calls < k.recorder.limit → (refusal : Refusal)
        → (heap_step k.collector.heap owner command).1 ≡ Err refusal
        → is_limit refusal ≡ true
        → kept_call met k owner command ≡ (k, Err (call_errors.Heap refusal)) }
{
    refused_commands_change_nothing();
}

/// An answer that comes from something that may lie under a lock comes after a legal history.
pub fn an_answer_comes_after_a_legal_history<A: Allocator + Copy>()
    ensures { (owner : ℕ) (command : Command) (answer : Result Reply CallErrorOf)
        → AnswersUnderLock A owner command answer → ComesAfterHistory owner command answer }
{}

/// What the answers of a shared heap say of the commands alone, before the heap is closed.
///
/// - `space`: only a command that makes an object is refused for space. It is told the words that
///   the object needs, and fewer that are free.
/// - `log`: only a store is refused for the log, or for numbers (`numbers`).
pub fn limits_refuse_only_what_they_can()
    ensures space { (owner need free : ℕ) (command : Command)
        → ComesAfterHistory owner command (Err (call_errors.Heap (SpaceFull need free)))
        → (dst : RootId) × (shape : Shape) × (made_by command ≡ Some (dst, shape))
        × (need ≡ 2 + shape.fields) × (free < need) }
    ensures log { (owner : ℕ) (command : Command)
        → ComesAfterHistory owner command (Err (call_errors.Heap LogFull)) → IsStoring command }
    ensures numbers { (owner : ℕ) (command : Command)
        → ComesAfterHistory owner command (Err (call_errors.Heap NumbersSpent))
        → IsStoring command }
{}

/// What a reply of a shared heap says of the command alone, before the heap is closed; and that a
/// limit refuses what a plain heap accepts.
///
/// - `made` and `raw`: an allocation answers that an object of that many fields was made.
/// - `stored` and `dropped`: a store and a drop answer that they are done.
/// - `compared`: a comparison answers yes or no.
/// - `limited`: a plain heap accepts a command that a limit refuses, after the same history.
pub fn replies_are_of_the_command()
    ensures made { (owner fields : ℕ) (dst : RootId) (reply : Reply)
        → ComesAfterHistory owner (commands.Alloc dst fields) (Ok reply)
        → reply ≡ replies.Object fields }
    ensures raw { (owner fields : ℕ) (dst : RootId) (reply : Reply)
        → ComesAfterHistory owner (commands.Raw dst fields) (Ok reply)
        → reply ≡ replies.Raw fields }
    ensures stored { (owner field : ℕ) (obj : RootId) (operand : Operand) (reply : Reply)
        → ComesAfterHistory owner (commands.Store obj field operand) (Ok reply)
        → reply ≡ replies.Done }
    ensures dropped { (owner : ℕ) (root : RootId) (reply : Reply)
        → ComesAfterHistory owner (commands.Drop root) (Ok reply) → reply ≡ replies.Done }
    ensures compared { (owner : ℕ) (a b : RootId) (reply : Reply)
        → ComesAfterHistory owner (commands.Same a b) (Ok reply)
        → (equal : Bool) × (reply ≡ replies.Same equal) }
    ensures limited { (owner : ℕ) (command : Command) (limit : Refusal) → is_limit limit ≡ true
        → (comes : ComesAfterHistory owner command (Err (call_errors.Heap limit)))
        → IsOk (step (replay comes.history) owner command).1 }
{}

/// An increment of something that may lie under a lock begins a cycle exactly where none is on,
/// fewer words are free than the mark, and the epoch isn't the last. Where none is on and none
/// begins, it does nothing.
pub fn an_increment_under_a_lock_begins_a_cycle_below_the_mark<A: Allocator + Copy>()
    ensures began { (did : DidOf) → (does : DoesUnderLock A did)
        → (let s = does.held.collector in
        (did.began ≡ true) ↔ ((s.heap.mutators.cycle ≡ false)
        × ((stat_of s.heap).free < s.config.mark)
        × (s.heap.epoch < s.heap.mutators.config.last_epoch))) }
    ensures outside { (did : DidOf) → (does : DoesUnderLock A did)
        → does.held.collector.heap.mutators.cycle ≡ false → did.began ≡ false
        → did ≡ did_nothing }
{
    an_increment_begins_a_cycle_below_the_mark::<A>();
}

/// A mutator's share grows as the history does: by each call of its owner that is noted, with the
/// answer that is noted, and by no other.
pub fn a_share_grows_as_the_history_does<A: Allocator + Copy>()
    ensures { (met : Met) (k : KeptState A) (m : MutatorState) (command : Command)
        → (let done = kept_call met k m.owner command in
        let after = with_answer m command done.1 in
        (after.owner ≡ m.owner) × ((noted : List Call)
        × (done.0.recorder.history.calls ≡ k.recorder.history.calls ++ noted)
        × (after.share.history.calls ≡ m.share.history.calls ++ noted))) }
{}

/// The mutators that a shared heap is made with are one for each owner.
pub fn new_mutators_are_one_each()
    ensures { (owners slots limit : ℕ)
        → IsOneEach owners (first_mutators owners slots limit owners) }
{}

/// A shared heap has one reason at most why it isn't closed, and none where its mutators are one
/// for each owner and each share is its owner's calls.
pub fn one_reason_at_most_keeps_a_heap_open()
    ensures one { (owners : ℕ) (mutators : List MutatorState) (calls : List Call)
        (why other : CloseErrorOf) → WhyNotClosed owners mutators calls why
        → WhyNotClosed owners mutators calls other → why ≡ other }
    ensures none { (owners : ℕ) (mutators : List MutatorState) (calls : List Call)
        (why : CloseErrorOf) → IsOneEach owners mutators → HasShares mutators calls
        → ¬ WhyNotClosed owners mutators calls why }
{}

/// The place that `HistoryDiffers` tells is counted from 1: as many calls as it tells, less one,
/// are the same in the owner's share and among its calls in the history, and at the place itself
/// the two have different calls, or one of them has ended. So it is 1 where the first calls differ
/// already.
pub fn a_difference_is_told_by_its_place_from_1()
    ensures { (owners owner at : ℕ) (mutators : List MutatorState) (calls : List Call)
        → WhyNotClosed owners mutators calls (close_errors.HistoryDiffers owner at)
        → PartAt (share_of owner mutators) (calls_of owner calls) at }
{}
