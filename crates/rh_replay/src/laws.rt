//! Laws of histories: each has one verdict, and what is written is read. Each function does
//! nothing: its contract is the law.

ghost use Rattle.std.specs.Prelude.{◌≡◌, ◌≢◌, ◌↔◌, ℕ, ◌+◌, ◌<◌, List, [], slice_get, Some, Result, Ok, Err};
ghost use Rattle.rh_layout.specs.declared.command.Reply.{Reply as ReplyOf};
ghost use Rattle.rh_layout.specs.declared.refusal.Refusal.{Refusal as RefusalOf};
ghost use Rattle.rh_model.specs.Plain.{step};
ghost use Rattle.rh_text.specs.RawLine.{lines_of};
ghost use Rattle.rh_text.specs.Stages.{IsFaultless, IsFirst};
ghost use Rattle.rh_replay.specs.declared.call.Call.{Call as CallOf};
ghost use Rattle.rh_replay.specs.declared.checking.Verdict.{Verdict as VerdictOf};
ghost use Rattle.rh_replay.specs.declared.fault.HistoryFault.{HistoryFault as FaultOf};
ghost use Rattle.rh_replay.specs.Faults.{text_faults};
ghost use Rattle.rh_replay.specs.History.{HistoryState, empty_history, first_calls, with_call};
ghost use Rattle.rh_replay.specs.Legal.{IsLegal, IsVerdict, replay};
ghost use Rattle.rh_replay.specs.Reading.{history_of};
ghost use Rattle.rh_replay.specs.Report.{count_of};
ghost use Rattle.rh_replay.specs.Spelling.{IsReadable, spelling};

/// No history has two verdicts: where it is legal no call is the first wrong one, and there are no
/// two first wrong calls.
pub fn a_history_has_one_verdict()
    ensures { (h : HistoryState) (v w : VerdictOf) → IsVerdict h v → IsVerdict h w → v ≡ w }
{}

/// A history without a call is legal. With one call more it is legal exactly where it was and the
/// call has the answer of the step from the heap after the others.
pub fn a_legal_history_grows_by_the_steps_answer()
    ensures empty { (owners slots : ℕ) → IsLegal (empty_history owners slots) }
    ensures grown { (h : HistoryState) (call : CallOf) → IsLegal (with_call h call)
        ↔ (IsLegal h × (call.answer ≡ (step (replay h) call.owner call.command).1)) }
    ensures replayed { (h : HistoryState) (call : CallOf)
        → replay (with_call h call) ≡ (step (replay h) call.owner call.command).0 }
{}

/// A wrong call is counted from 1: a history's first calls, so many of them, are a legal history
/// exactly where they are fewer than the number that the verdict names. The answer that it names is
/// that of the step to the call of this number from the heap after the calls before it, and the
/// call has another.
pub fn a_wrong_call_is_counted_from_1()
    ensures counted { (h : HistoryState) (at : ℕ) (expected : Result ReplyOf RefusalOf)
        → IsVerdict h (VerdictOf.Wrong at expected)
        → (n : ℕ) → IsLegal (first_calls n h) ↔ (n < at) }
    ensures answered { (h : HistoryState) (before : ℕ) (expected : Result ReplyOf RefusalOf)
        → IsVerdict h (VerdictOf.Wrong (before + 1) expected)
        → (call : CallOf) × (slice_get h.calls before ≡ Some call)
        × (expected ≡ (step (replay (first_calls before h)) call.owner call.command).1)
        × (call.answer ≢ expected) }
{}

/// An owner's number in a report is that of its calls: none of no calls, and each call more adds
/// one to its own owner's number and nothing to another's.
pub fn each_call_is_counted_for_its_owner()
    ensures none { (owner : ℕ) → count_of [] owner ≡ 0 }
    ensures own { (h : HistoryState) (call : CallOf)
        → count_of (with_call h call).calls call.owner ≡ count_of h.calls call.owner + 1 }
    ensures other { (h : HistoryState) (call : CallOf) (owner : ℕ) → owner ≢ call.owner
        → count_of (with_call h call).calls owner ≡ count_of h.calls owner }
{}

/// What a history is spelled as is read as that history, and nothing else is read as it.
pub fn what_is_spelled_is_read()
    ensures spelled { (h : HistoryState) → IsReadable h → history_of (spelling h) ≡ Ok h }
    ensures read { (bytes : List ℕ) (h : HistoryState) → history_of bytes ≡ Ok h
        → IsReadable h × (bytes ≡ spelling h) }
{}

/// The fault that reading names is the one that comes first in the order of the format: it holds on
/// its line, and any other that holds is on a later line or at a later position of this line. What
/// is read has no fault.
pub fn the_first_fault_is_named()
    ensures first { (bytes : List ℕ) (fault : FaultOf) → history_of bytes ≡ Err fault
        → IsFirst (text_faults (lines_of bytes)) fault.line fault.kind }
    ensures none { (bytes : List ℕ) (h : HistoryState) → history_of bytes ≡ Ok h
        → (n : ℕ) → IsFaultless (text_faults (lines_of bytes) n) }
{}
