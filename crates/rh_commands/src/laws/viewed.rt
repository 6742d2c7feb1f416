//! Laws of viewed runs of paced and growing heaps.

ghost use Rattle.std.specs.Prelude.{◌≡◌, ℕ, Bool, List, None, Option, Result, IfOk};
ghost use Rattle.std.specs.Io.KnownBytes.{Consumes};
ghost use Rattle.rh_core.specs.runs.Programs.{CommandAnswers};
ghost use Rattle.rh_model.specs.Plain.{empty_plain};
ghost use Rattle.rh_pace.specs.declared.pace.Pace.{Pace};
ghost use Rattle.rh_replay.specs.Legal.{IsLegal};
ghost use Rattle.rh_syntax.specs.declared.request.Request.{Request as RequestOf};
ghost use Rattle.rh_syntax.specs.Spelling.{Script};
ghost use Rattle.rh_trace.specs.declared.summary.Summary.{Summary as SummaryOf};
ghost use Rattle.rh_trace.specs.declared.way_fault.WayFault.{WayFault as WayFaultOf};
ghost use Rattle.rh_paced_trace.specs.declared.fault.Unpaced.{Unpaced as UnpacedOf};
ghost use Rattle.rh_paced_trace.specs.Commanded.{answered_by};
ghost use Rattle.rh_paced_trace.specs.Growing.{growing_sum_of, growing_text_of};
ghost use Rattle.rh_paced_trace.specs.Lines.{commands_in, other_fault};
ghost use Rattle.rh_paced_trace.specs.Run.{AreTransparent, sum_of, text_of};
ghost use Rattle.rh_choices.specs.declared.telling.Telling.{Telling as TellingOf};
ghost use Rattle.rh_trace_views.specs.History.{history_of};
ghost use Rattle.rh_trace_views.specs.Listening.{ViewsWriter, written_of};
ghost use Rattle.rh_trace_views.specs.Run.{Written, told_of};
ghost use Rattle.rh_trace_views.specs.Views.{numbered};
ghost use Rattle.rh_commands.specs.Ways.{EndsGrowing, EndsPaced, IsToldPlainly, ViewsEndGrowing, ViewsEndPaced, growing_answered, paced_answered};

use rh_choices::Telling;
use rh_core::laws::heaps_answer_as_plain_heaps;
use rh_core::laws::holds::what_collectors_do_adds_up;
use rh_core::laws::runs::{
    a_new_heap_is_well_formed, an_event_answers_as_the_plain_heap,
    every_event_keeps_a_heap_well_formed,
};
use rh_paced_trace::laws::growing::growing_heaps_answer_traces_as_plain_heaps;
use rh_trace_views::laws::the_history_of_plain_answers_is_legal;
use std::alloc::Allocator;

/// Where the answers to a trace of commands are those of a plain heap that begins empty, but for
/// limits, the history of the run is legal.
pub fn the_history_of_plain_replies_is_legal()
    ensures { (owners slots : ℕ) (requests : List RequestOf) (answers : CommandAnswers)
        → other_fault 2 requests ≡ None
        → AreTransparent (empty_plain owners slots) (commands_in requests) answers
        → IsLegal (history_of owners slots (numbered 2 requests (answered_by answers))) }
{
    the_history_of_plain_answers_is_legal();
}

/// Told as answers, a run of commands has the text of the run that isn't viewed: at a pace, and on a
/// heap that grows, whatever it is given.
pub fn as_answers_commands_are_told_as_they_are_written()
    ensures paced { (script : Script) → other_fault 2 script.requests ≡ None → (pace : Pace)
        → told_of Telling.Answers script.requests (paced_answered script pace)
        (sum_of script pace) ≡ text_of script pace }
    ensures growing { (script : Script) → other_fault 2 script.requests ≡ None → (at_most : ℕ)
        → (given : ℕ → Bool)
        → told_of Telling.Answers script.requests (growing_answered script at_most given)
        (growing_sum_of script at_most given) ≡ growing_text_of script at_most given }
{}

/// A run by the way `Paced` whose lines are told, whose commands are noted, and whose cycles are
/// written, ends as its input says.
pub fn a_viewed_paced_run_ends_as_its_input_says()
    ensures { (mark : Option ℕ) (telling : TellingOf) (input : List ℕ)
        (result : Result SummaryOf (WayFaultOf UnpacedOf))
        (old new : ViewsWriter → Option (List ℕ))
        → ViewsEndPaced mark telling input result old new
        → EndsPaced mark telling input result (written_of old new) }
{}

/// So does one by the way `Growing`.
pub fn a_viewed_growing_run_ends_as_its_input_says()
    ensures { (at_most : ℕ) (telling : TellingOf) (input : List ℕ)
        (result : Result SummaryOf (WayFaultOf UnpacedOf))
        (old new : ViewsWriter → Option (List ℕ))
        → ViewsEndGrowing at_most telling input result old new
        → EndsGrowing at_most telling input result (written_of old new) }
{}

/// What such runs tell and note, where they succeeded, are the answers of a plain heap, and the
/// history is legal.
pub fn viewed_runs_of_commands_tell_what_a_plain_heap_answers<A: Allocator + Copy>()
    ensures paced { (mark : Option ℕ) (telling : TellingOf) (input : List ℕ)
        (from to : Option (List ℕ)) → Consumes from to input
        → (result : Result SummaryOf (WayFaultOf UnpacedOf)) (w : Written)
        → EndsPaced mark telling input result w
        → IfOk result (λ summary. IsToldPlainly telling from to w summary) }
    ensures growing { (at_most : ℕ) (telling : TellingOf) (input : List ℕ)
        (from to : Option (List ℕ)) → Consumes from to input
        → (result : Result SummaryOf (WayFaultOf UnpacedOf)) (w : Written)
        → EndsGrowing at_most telling input result w
        → IfOk result (λ summary. IsToldPlainly telling from to w summary) }
{
    heaps_answer_as_plain_heaps();
    a_new_heap_is_well_formed();
    an_event_answers_as_the_plain_heap::<A>();
    every_event_keeps_a_heap_well_formed::<A>();
    what_collectors_do_adds_up::<A>();
    growing_heaps_answer_traces_as_plain_heaps::<A>();
    the_history_of_plain_replies_is_legal();
}
