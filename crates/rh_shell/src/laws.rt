//! Laws of sessions. Each function does nothing: its contract is the law.

ghost use Rattle.std.specs.Prelude.{◌≡◌, ℕ, List, None, Some, Ok, Err};
ghost use Rattle.rh_core.specs.Config.{fault_of};
ghost use Rattle.rh_text.specs.RawLine.{RawLine, lines_of};
ghost use Rattle.rh_syntax.specs.declared.fault.TraceFault.{TraceFault};
ghost use Rattle.rh_syntax.specs.Reading.{request_or_fault, trace_of};
ghost use Rattle.rh_syntax.specs.Spelling.{Script};
ghost use Rattle.rh_trace.specs.declared.summary.Summary.{Summary as SummaryOf};
ghost use Rattle.rh_trace.specs.Run.{answers_of, config_of, output_of, summary_of};
ghost use Rattle.rh_shell.specs.Session.{IsAnswer, IsSession, PlayingState, SessionState};

/// Where what is typed is a trace without a fault, a session writes just what a run of that trace
/// writes, and adds up to the same.
pub fn a_session_of_a_trace_is_its_run()
    ensures { (script : Script) (typed text : List ℕ) (sum : SummaryOf)
        → trace_of typed ≡ Ok script → fault_of (config_of script.header) ≡ None
        → IsSession (lines_of typed) text sum
        → (text ≡ output_of (answers_of script)) × (sum ≡ summary_of (answers_of script)) }
{}

/// Once there is a heap, a line that is none of a trace leaves heap, trays and counts as they were.
pub fn a_line_of_no_trace_changes_nothing()
    ensures { (s t : SessionState) (p : PlayingState) (line : RawLine) (fault : TraceFault)
        (text : List ℕ) → s.playing ≡ Some p → request_or_fault s.number line ≡ Err fault
        → IsAnswer s line text t → t ≡ s }
{}
