//! Laws of viewed runs: how they end, and that they print what a plain heap answers. Each function
//! does nothing: its contract is the law.

ghost use Rattle.std.specs.Prelude.{◌≡◌, ℕ, List, Option, Result, filter, map, zip};
ghost use Rattle.rh_model.specs.Plain.{empty_plain};
ghost use Rattle.rh_replay.specs.Legal.{IsLegal};
ghost use Rattle.rh_syntax.specs.declared.request.Request.{Request as RequestOf};
ghost use Rattle.rh_syntax.specs.Spelling.{RequestFits, Script};
ghost use Rattle.rh_syntax.specs.TrayName.{IsTrayName};
ghost use Rattle.rh_trace.specs.declared.run_fault.RunFault.{RunFault as RunFaultOf};
ghost use Rattle.rh_trace.specs.declared.summary.Summary.{Summary as SummaryOf};
ghost use Rattle.rh_trace.specs.declared.way_fault.WayFault.{WayFault as WayFaultOf};
ghost use Rattle.rh_trace.specs.Answers.{Answered};
ghost use Rattle.rh_trace.specs.Fixed.{by_way};
ghost use Rattle.rh_trace.specs.Run.{AreTransparent, answers_of, output_of};
ghost use Rattle.rh_choices.specs.declared.telling.Telling.{Telling as TellingOf};
ghost use Rattle.rh_trace_views.specs.History.{calls_of, history_of};
ghost use Rattle.rh_trace_views.specs.Json.{json_string};
ghost use Rattle.rh_trace_views.specs.Kept.{is_kept, line_of_call};
ghost use Rattle.rh_trace_views.specs.Lines.{request_text};
ghost use Rattle.rh_trace_views.specs.Listening.{ViewsEndFixed, ViewsToldPlainlyFixed, ViewsWriter, written_of};
ghost use Rattle.rh_trace_views.specs.Run.{Ends, IsPlainlyViewed, view_of_run};
ghost use Rattle.rh_trace_views.specs.Views.{numbered};

use rh_choices::Telling;

/// A run on a heap of the first line's sizes whose lines are told, whose commands are noted, and whose
/// cycles are written, ends as its input says: what is told, the history and the cycles are those of
/// the trace. The way has no fault of its own.
pub fn a_viewed_run_ends_as_its_input_says<F>()
    ensures { (telling : TellingOf) (input : List ℕ) (outcome : Result SummaryOf (WayFaultOf F))
        (old new : ViewsWriter → Option (List ℕ)) → ViewsEndFixed telling input outcome old new
        → (result : Result SummaryOf RunFaultOf) × (outcome ≡ by_way result)
        × Ends telling input result (written_of old new) }
{}

/// What such a run tells and notes, where it succeeded, are the answers of a plain heap, and the
/// history is legal.
pub fn a_viewed_run_tells_what_a_plain_heap_answers()
    ensures { (telling : TellingOf) (summary : SummaryOf) (from to : Option (List ℕ))
        (old new : ViewsWriter → Option (List ℕ))
        → ViewsToldPlainlyFixed telling summary from to old new
        → IsPlainlyViewed telling from to (written_of old new) summary }
{
    the_history_of_plain_answers_is_legal();
}

/// Where the answers to requests are those of a plain heap that begins empty, but for limits, the
/// history of the run is legal.
pub fn the_history_of_plain_answers_is_legal()
    ensures { (owners slots : ℕ) (requests : List RequestOf) (answers : List Answered)
        → AreTransparent (empty_plain owners slots) requests answers
        → IsLegal (history_of owners slots (numbered 2 requests answers)) }
{}

/// The calls of a run's history are its commands with their answers, in order, without those that a
/// limit refused.
pub fn a_history_keeps_the_commands_that_no_limit_refused()
    ensures { (line : ℕ) (requests : List RequestOf) (answers : List Answered)
        → map line_of_call (calls_of (numbered line requests answers))
        ≡ filter (λ (x : RequestOf × Answered). is_kept x.0 x.1) (zip requests answers) }
{}

/// Told as answers, a trace has the text of the run that isn't viewed.
pub fn as_answers_a_trace_is_told_as_it_is_written()
    ensures { (script : Script) → view_of_run Telling.Answers script ≡ output_of (answers_of script) }
{}

/// The text of a line of a trace and the name of a tray stand within quotes as they are: no byte of
/// them needs an escape.
pub fn lines_and_names_need_no_escape()
    ensures line { (request : RequestOf) → RequestFits request
        → json_string (request_text request) ≡ request_text request }
    ensures name { (name : List ℕ) → IsTrayName name → json_string name ≡ name }
{}
