//! Laws of the program: what each exit status means. Each function does nothing: its contract is
//! the law.

ghost use Rattle.std.specs.Prelude.{◌≡◌, ◌≢◌, ◌≤◌, ◌-◌, ◌^◌, ◌⊎◌, ◌↔◌, ℕ, ◌++◌, Bool, List, [], ◌∷◌, length, Option, Some, None, Result, Ok, Err, IsTrue, false, true, codes, decimal};
ghost use Rattle.std.specs.List.{AllByRecursion, flat_map};
ghost use Rattle.std.specs.Io.KnownBytes.{Appends, Keeps};
ghost use Rattle.clap.specs.Words.{kind_of};
ghost use Rattle.clap.specs.declared.error.Error.{Error as ClapError};
ghost use Rattle.clap.specs.declared.error.kind.ErrorKind.TheVariants.{DisplayHelp, DisplayVersion};
ghost use Rattle.rh_dump.specs.Dump.{GraphState, IsGraph};
ghost use Rattle.rh_dump.specs.declared.reading.due.Version.TheVariants.{One};
ghost use Rattle.rh_dump.specs.declared.reading.fault.DumpFault.{DumpFault as DumpFaultOf};
ghost use Rattle.rh_dump.specs.texts.Line.{dump_text, text_in};
ghost use Rattle.rh_dump.specs.texts.Reading.{graph_of_text};
ghost use Rattle.rh_dot.specs.Dot.{dot_text};
ghost use Rattle.rh_snapshot.specs.Text.{snapshot_text};
ghost use Rattle.rh_why.specs.Path.{why_text};
ghost use Rattle.rh_layout.specs.declared.command.Reply.{Reply};
ghost use Rattle.rh_layout.specs.declared.refusal.Refusal.{Refusal};
ghost use Rattle.rh_replay.specs.declared.checking.Verdict.{Verdict as VerdictOf};
ghost use Rattle.rh_replay.specs.declared.fault.HistoryFault.{HistoryFault as HistoryFaultOf};
ghost use Rattle.rh_replay.specs.History.{HistoryState};
ghost use Rattle.rh_replay.specs.Reading.{history_of};
ghost use Rattle.rh_replay.specs.Report.{report_text};
ghost use Rattle.rh_replay.specs.Spelling.{spelling};
ghost use Rattle.rh_trace.specs.Run.{StopsBeforeTotal, run_of};
ghost use Rattle.rh_trace.specs.declared.run_fault.RunFault.{RunFault as RunFaultOf};
ghost use Rattle.rh_trace.specs.declared.way_fault.WayFault.{WayFault as WayFaultOf};
ghost use Rattle.rh_trace.specs.declared.summary.Summary.{Summary as SummaryOf};
ghost use Rattle.rh_core.specs.runs.Programs.{CommandAnswers};
ghost use Rattle.rh_syntax.specs.Reading.{trace_of};
ghost use Rattle.rh_syntax.specs.Spelling.{Script};
ghost use Rattle.rh_syntax.specs.declared.fault.TraceFault.{TraceFault as TraceFaultOf};
ghost use Rattle.rh_pace.specs.declared.pace.Pace.{Pace as PaceOf};
ghost use Rattle.rh_paced_trace.specs.declared.fault.Unpaced.{Unpaced as UnpacedOf};
ghost use Rattle.rh_paced_trace.specs.Growing.{IsGrowingRun, growing_sum_of, growing_text_of};
ghost use Rattle.rh_paced_trace.specs.Run.{IsPlainRun, IsRun, AreSumsOf, output_of, sum_of, text_of};
ghost use Rattle.rh_shared_trace.specs.Run.{IsHistoryOf, IsSharedRun};
ghost use Rattle.rh_commands.specs.Count.{counts_line};
ghost use Rattle.rh_cli.specs.Drive.{Concludes};
ghost use Rattle.rh_commands.specs.Runs.{way_status};
ghost use Rattle.rh_commands.specs.Fault.{ending_status, status_of, IsLateStatus};
ghost use Rattle.rh_cli.specs.Lisp.{ConcludesLispCycles};
ghost use Rattle.rh_commands.specs.Replay.{IsJudged};
ghost use Rattle.rh_text.specs.RawLine.{lines_of};
ghost use Rattle.rh_shell.specs.Session.{IsSession};
ghost use Rattle.rh_commands.specs.ViewLog.{ViewLogState};
ghost use Rattle.rh_commands.specs.Views.{told_counts, told_report};
ghost use Rattle.rh_cli.specs.Views.{ConcludesViewed, HasFailed, HasRunFault};
ghost use Rattle.rh_choices.specs.declared.telling.Telling.{Telling as TellingOf};
ghost use Rattle.rh_trace_views.specs.Cycles.{cycles_text};
ghost use Rattle.rh_trace_views.specs.Run.{run_cycles, run_history, view_of_run, IsRun as IsViewedRun, IsTold, Written};
ghost use Rattle.rh_commands.specs.Ways.{growing_answered, growing_cycles, paced_answered, paced_cycles};
ghost use Rattle.rh_lisp.specs.Printed.{output_text as lisp_text};
ghost use Rattle.rh_lisp.specs.Program.{ProgramState};
ghost use Rattle.rh_machine.specs.declared.ending.Ending.TheVariants.{Halted};
ghost use Rattle.rh_lisp.specs.declared.outcome.Outcome.TheVariants.{Finished};
ghost use Rattle.rh_lisp_run.specs.Cycling.{RunsWithCycles};
ghost use Rattle.rh_lisp_run.specs.Run.{IsRun as IsLispRun, as_new};
ghost use Rattle.rh_lisp_run.specs.Session.{GoesOn};
ghost use Rattle.rh_choices.specs.declared.limits.Limits.{Limits as LimitsOf};
ghost use Rattle.rh_command_line.specs.declared.ask.Shell.{Shell as ShellOf};
ghost use Rattle.rh_command_line.specs.declared.ask.Subcommand.{Subcommand as SubcommandOf};
ghost use Rattle.rh_commands.specs.declared.ending.Ending.{Ending as EndingOf};
ghost use Rattle.rh_command_line.specs.declared.fault.CommandLineFault.{CommandLineFault as LineOf};
ghost use Rattle.rh_commands.specs.declared.fault.LineFault.{LineFault as FaultOf};

pub use rh_command_line::laws::worked_command_lines;
use rh_core::laws::heaps_answer_as_plain_heaps;
use rh_core::laws::holds::what_collectors_do_adds_up;
use rh_core::laws::runs::{
    a_new_heap_is_well_formed, an_event_answers_as_the_plain_heap,
    every_event_keeps_a_heap_well_formed,
};
use rh_dump::laws::what_is_spelled_is_read;
use rh_dump::limits::MAX_DUMP_BYTES;
use rh_paced_trace::laws::growing::growing_heaps_answer_traces_as_plain_heaps;
use std::alloc::Global;

/// 0 says that all was done: a run answered its whole trace, a paced run its whole trace of
/// commands at its pace, a growing run its whole trace of commands, the history of one in threads
/// is written, a history is legal and its report is written, or the counts of a dump's graph are,
/// or its text for Graphviz or as a heap snapshot, or a path in it, or a picture, or completions, or the whole text of a session, or what
/// a program of the small Scheme printed that finished, with all lines of its cycles where these
/// are written.
pub fn status_0_says_done()
    ensures run { (input : List ℕ) (old new : Option (List ℕ))
        → Concludes SubcommandOf.Run input 0 old new
        → (run : List ℕ × SummaryOf) × (run_of input ≡ Ok run) × Appends old new run.0 }
    ensures paced { (mark : Option ℕ) (input : List ℕ) (old new : Option (List ℕ))
        → Concludes (SubcommandOf.RunPaced mark) input 0 old new
        → (script : Script) × (pace : PaceOf) × IsRun mark input script pace
        × Appends old new (text_of script pace) }
    ensures growing { (at_most : ℕ) (input : List ℕ) (old new : Option (List ℕ))
        → Concludes (SubcommandOf.RunGrowing at_most) input 0 old new
        → (script : Script) × (given : ℕ → Bool) × IsGrowingRun at_most input script
        × Appends old new (growing_text_of script at_most given) }
    ensures threads { (replicators idle : ℕ) (input : List ℕ) (old new : Option (List ℕ))
        → Concludes (SubcommandOf.Threads replicators idle) input 0 old new
        → (script : Script) × (h : HistoryState)
        × IsSharedRun (record { replicators = replicators; idle = idle }) input script
        × IsHistoryOf script h × Appends old new (spelling h) }
    ensures replay { (input : List ℕ) (old new : Option (List ℕ))
        → Concludes SubcommandOf.Replay input 0 old new
        → (h : HistoryState) × (count : ℕ) × IsJudged input h (VerdictOf.Legal count)
        × Appends old new (report_text h (VerdictOf.Legal count)) }
    ensures dump { (input : List ℕ) (old new : Option (List ℕ))
        → Concludes SubcommandOf.Dump input 0 old new
        → (g : GraphState) × (graph_of_text input ≡ Ok g) × Appends old new (counts_line g) }
    ensures dot { (input : List ℕ) (old new : Option (List ℕ))
        → Concludes SubcommandOf.Dot input 0 old new
        → (g : GraphState) × (graph_of_text input ≡ Ok g) × Appends old new (dot_text g) }
    ensures snapshot { (input : List ℕ) (old new : Option (List ℕ))
        → Concludes SubcommandOf.Snapshot input 0 old new
        → (g : GraphState) × (graph_of_text input ≡ Ok g)
        × Appends old new (snapshot_text g) }
    ensures why { (object : ℕ) (input : List ℕ) (old new : Option (List ℕ))
        → Concludes (SubcommandOf.Why object) input 0 old new
        → (g : GraphState) × (graph_of_text input ≡ Ok g)
        × Appends old new (why_text object g) }
    ensures draw { (line : Option ℕ) (input : List ℕ) (old new : Option (List ℕ))
        → Concludes (SubcommandOf.Draw line) input 0 old new
        → (text : List ℕ) × Appends old new text }
    ensures session { (input : List ℕ) (old new : Option (List ℕ))
        → Concludes SubcommandOf.Session input 0 old new
        → (text : List ℕ) × (summary : SummaryOf) × IsSession (lines_of input) text summary
        × Appends old new text }
    ensures lisp { (limits : LimitsOf) (input : List ℕ) (old new : Option (List ℕ))
        → Concludes (SubcommandOf.Lisp limits) input 0 old new
        → (program : ProgramState) × IsLispRun (as_new limits.steps program) program
        × (program.machine.ended ≡ Some Halted) × Appends old new (lisp_text program) }
    ensures lisp_cycles { (limits : LimitsOf) (input : List ℕ)
        (old new before after : Option (List ℕ))
        → ConcludesLispCycles limits input 0 old new before after
        → (program : ProgramState)
        × RunsWithCycles (λ r. r) limits (Ok (Finished, program)) old new before after }
    ensures lisp_session { (limits : LimitsOf) (input : List ℕ) (old new : Option (List ℕ))
        → Concludes (SubcommandOf.LispSession limits) input 0 old new
        → GoesOn limits.heap limits.steps (Ok true) old new }
    ensures completions { (shell : ShellOf) (input : List ℕ) (old new : Option (List ℕ))
        → Concludes (SubcommandOf.Completions shell) input 0 old new
        → (text : List ℕ) × Appends old new text }
    ensures ending { (ending : EndingOf) → (ending_status ending ≡ 0) ↔ (ending ≡ EndingOf.Done) }
    // No fault has 0, but help and the version, which clap tells as errors.
    ensures fault { (fault : FaultOf) → status_of fault ≡ 0
        → (error : ClapError) × (fault ≡ FaultOf.CommandLine (LineOf.Arguments error))
        × ((kind_of error ≡ DisplayHelp) ⊎ (kind_of error ≡ DisplayVersion)) }
{}

/// What isn't a trace, a history or a dump ends with 1, or with 3 where memory was refused before
/// its fault was found. So does a paced or a growing run of what is no trace of commands, or of one
/// whose sizes make no heap, or for which there is no pace or no such growth, and nothing is
/// written then.
pub fn a_faulty_input_ends_with_1_or_3()
    ensures run { (input : List ℕ) (fault : RunFaultOf) (status : ℕ) (old new : Option (List ℕ))
        → run_of input ≡ Err fault → Concludes SubcommandOf.Run input status old new
        → (status ≡ 1) ⊎ (status ≡ 3) }
    ensures paced { (mark : Option ℕ) (input : List ℕ) (status : ℕ) (old new : Option (List ℕ))
        → ¬ ((script : Script) × (pace : PaceOf) × IsRun mark input script pace)
        → Concludes (SubcommandOf.RunPaced mark) input status old new
        → ((status ≡ 1) ⊎ (status ≡ 3)) × Keeps old new }
    ensures growing { (at_most : ℕ) (input : List ℕ) (status : ℕ) (old new : Option (List ℕ))
        → ¬ ((script : Script) × IsGrowingRun at_most input script)
        → Concludes (SubcommandOf.RunGrowing at_most) input status old new
        → ((status ≡ 1) ⊎ (status ≡ 3)) × Keeps old new }
    ensures threads { (replicators idle : ℕ) (input : List ℕ) (fault : TraceFaultOf) (status : ℕ)
        (old new : Option (List ℕ)) → trace_of input ≡ Err fault
        → Concludes (SubcommandOf.Threads replicators idle) input status old new
        → (status ≡ 1) ⊎ (status ≡ 3) }
    ensures replay { (input : List ℕ) (fault : HistoryFaultOf) (status : ℕ)
        (old new : Option (List ℕ)) → history_of input ≡ Err fault
        → Concludes SubcommandOf.Replay input status old new → (status ≡ 1) ⊎ (status ≡ 3) }
    ensures dump { (input : List ℕ) (fault : DumpFaultOf) (status : ℕ)
        (old new : Option (List ℕ)) → graph_of_text input ≡ Err fault
        → Concludes SubcommandOf.Dump input status old new → (status ≡ 1) ⊎ (status ≡ 3) }
    ensures dot { (input : List ℕ) (fault : DumpFaultOf) (status : ℕ)
        (old new : Option (List ℕ)) → graph_of_text input ≡ Err fault
        → Concludes SubcommandOf.Dot input status old new → (status ≡ 1) ⊎ (status ≡ 3) }
    ensures snapshot { (input : List ℕ) (fault : DumpFaultOf) (status : ℕ)
        (old new : Option (List ℕ)) → graph_of_text input ≡ Err fault
        → Concludes SubcommandOf.Snapshot input status old new
        → (status ≡ 1) ⊎ (status ≡ 3) }
    ensures why { (object : ℕ) (input : List ℕ) (fault : DumpFaultOf) (status : ℕ)
        (old new : Option (List ℕ)) → graph_of_text input ≡ Err fault
        → Concludes (SubcommandOf.Why object) input status old new
        → (status ≡ 1) ⊎ (status ≡ 3) }
{}

/// 2 says that the command line isn't understood: no subcommand ends with it, and no fault but one
/// of the command line has it.
pub fn status_2_says_that_the_command_line_is_not_understood()
    ensures never { (subcommand : SubcommandOf) (input : List ℕ) (status : ℕ)
        (old new : Option (List ℕ)) → Concludes subcommand input status old new → status ≢ 2 }
    ensures only { (fault : FaultOf) → status_of fault ≡ 2
        → (fault ≡ FaultOf.NoText)
        ⊎ ((line : LineOf) × (fault ≡ FaultOf.CommandLine line)) }
    ensures no_text { status_of FaultOf.NoText ≡ 2 }
    ensures incomplete { status_of (FaultOf.CommandLine LineOf.Incomplete) ≡ 2 }
    ensures mark { status_of (FaultOf.CommandLine LineOf.Mark) ≡ 2 }
    ensures grow { status_of (FaultOf.CommandLine LineOf.Grow) ≡ 2 }
    ensures replicators { status_of (FaultOf.CommandLine LineOf.Replicators) ≡ 2 }
    ensures idle { status_of (FaultOf.CommandLine LineOf.Idle) ≡ 2 }
    ensures line { status_of (FaultOf.CommandLine LineOf.Line) ≡ 2 }
    ensures shell { status_of (FaultOf.CommandLine LineOf.Shell) ≡ 2 }
    ensures views { status_of (FaultOf.CommandLine LineOf.Views) ≡ 2 }
    ensures crossed { status_of (FaultOf.CommandLine LineOf.Crossed) ≡ 2 }
    ensures events { status_of (FaultOf.CommandLine LineOf.Events) ≡ 2 }
    ensures forms { status_of (FaultOf.CommandLine LineOf.Forms) ≡ 2 }
    ensures object { status_of (FaultOf.CommandLine LineOf.Object) ≡ 2 }
    ensures session_cycles { status_of (FaultOf.CommandLine LineOf.SessionCycles) ≡ 2 }
    ensures words { status_of (FaultOf.CommandLine LineOf.Words) ≡ 2 }
    ensures steps { status_of (FaultOf.CommandLine LineOf.Steps) ≡ 2 }
    // What clap refuses has 2, unless it asks for help or the version, which is no mistake.
    ensures asked { (error : ClapError)
        → (kind_of error ≡ DisplayHelp) ⊎ (kind_of error ≡ DisplayVersion)
        → status_of (FaultOf.CommandLine (LineOf.Arguments error)) ≡ 0 }
    ensures refused { (error : ClapError)
        → kind_of error ≢ DisplayHelp → kind_of error ≢ DisplayVersion
        → status_of (FaultOf.CommandLine (LineOf.Arguments error)) ≡ 2 }
{}

/// 3 says that memory was refused, or a thread, and no other fault has it: a run has then written
/// nothing of its total line, and a paced or a growing run, one in threads, a check, a count, a text
/// for Graphviz, a heap snapshot, a path and a picture nothing at all.
pub fn status_3_says_want_of_memory()
    ensures fault { (fault : FaultOf) → (status_of fault ≡ 3) ↔ (fault ≡ FaultOf.OutOfMemory) }
    ensures run_fault { (fault : WayFaultOf UnpacedOf)
        → (way_status fault ≡ 3) ↔ (fault ≡ WayFaultOf.OutOfMemory) }
    ensures run { (input : List ℕ) (old new : Option (List ℕ))
        → Concludes SubcommandOf.Run input 3 old new → StopsBeforeTotal (run_of input) old new }
    ensures paced { (mark : Option ℕ) (input : List ℕ) (old new : Option (List ℕ))
        → Concludes (SubcommandOf.RunPaced mark) input 3 old new → Keeps old new }
    ensures growing { (at_most : ℕ) (input : List ℕ) (old new : Option (List ℕ))
        → Concludes (SubcommandOf.RunGrowing at_most) input 3 old new → Keeps old new }
    ensures threads { (replicators idle : ℕ) (input : List ℕ) (old new : Option (List ℕ))
        → Concludes (SubcommandOf.Threads replicators idle) input 3 old new → Keeps old new }
    ensures replay { (input : List ℕ) (old new : Option (List ℕ))
        → Concludes SubcommandOf.Replay input 3 old new → Keeps old new }
    ensures dump { (input : List ℕ) (old new : Option (List ℕ))
        → Concludes SubcommandOf.Dump input 3 old new → Keeps old new }
    ensures dot { (input : List ℕ) (old new : Option (List ℕ))
        → Concludes SubcommandOf.Dot input 3 old new → Keeps old new }
    ensures snapshot { (input : List ℕ) (old new : Option (List ℕ))
        → Concludes SubcommandOf.Snapshot input 3 old new → Keeps old new }
    ensures why { (object : ℕ) (input : List ℕ) (old new : Option (List ℕ))
        → Concludes (SubcommandOf.Why object) input 3 old new → Keeps old new }
    ensures draw { (line : Option ℕ) (input : List ℕ) (old new : Option (List ℕ))
        → Concludes (SubcommandOf.Draw line) input 3 old new → Keeps old new }
    ensures completions { (shell : ShellOf) (input : List ℕ) (old new : Option (List ℕ))
        → Concludes (SubcommandOf.Completions shell) input 3 old new → Keeps old new }
    ensures lisp { (limits : LimitsOf) (input : List ℕ) (old new : Option (List ℕ))
        → Concludes (SubcommandOf.Lisp limits) input 3 old new → Keeps old new }
{}

/// 4 says that a history is wrong, and that the whole report on it is written; or, of a run in
/// threads, that its history differs, and that nothing is written. No other subcommand ends with
/// it, and no other fault has it. No status is above it.
pub fn status_4_says_a_wrong_history()
    ensures wrong { (subcommand : SubcommandOf) (input : List ℕ) (old new : Option (List ℕ))
        → Concludes subcommand input 4 old new → ((subcommand ≡ SubcommandOf.Replay)
        × ((h : HistoryState) × (at : ℕ) × (expected : Result Reply Refusal)
        × IsJudged input h (VerdictOf.Wrong at expected)
        × Appends old new (report_text h (VerdictOf.Wrong at expected))))
        ⊎ ((replicators : ℕ) × (idle : ℕ) × (subcommand ≡ SubcommandOf.Threads replicators idle)
        × Keeps old new) }
    ensures fault { (fault : FaultOf) → (status_of fault ≡ 4) ↔ (fault ≡ FaultOf.HistoryDiffers) }
    ensures no_more { (fault : FaultOf) → status_of fault ≤ 4 }
    ensures most { (subcommand : SubcommandOf) (input : List ℕ) (status : ℕ)
        (old new : Option (List ℕ)) → Concludes subcommand input status old new → status ≤ 4 }
    ensures ending { (ending : EndingOf)
        → (ending_status ending ≡ 4) ↔ (ending ≡ EndingOf.WrongHistory) }
{}

/// What is viewed ends with the statuses of what isn't, and never with 2. 0 says that all that was
/// asked for is written: of a run, also of a paced and of a growing one, what is told of its lines,
/// its history and its cycles, each whole; the report on a legal history; or the counts of a dump.
/// 4 of a check says that the history is wrong, and that the whole report is written. 3 of a run says
/// that nothing of its history is written.
pub fn what_is_viewed_ends_with_the_same_statuses()
    ensures late { (telling : TellingOf) (subcommand : SubcommandOf) (input : List ℕ)
        (status : ℕ) (log : ViewLogState) (w : Written)
        → ConcludesViewed telling subcommand input status log w
        → IsLateStatus status }
    ensures run { (telling : TellingOf) (input : List ℕ) (log : ViewLogState) (w : Written)
        → ConcludesViewed telling SubcommandOf.Run input 0 log w
        → (script : Script) × IsViewedRun input script
        × Appends w.old w.new (view_of_run telling script)
        × Appends w.history_old w.history_new (spelling (run_history script))
        × Appends w.cycles_old w.cycles_new (cycles_text (run_cycles script)) }
    ensures unfailed { (telling : TellingOf) (input : List ℕ) (log : ViewLogState) (w : Written)
        → ConcludesViewed telling SubcommandOf.Run input 0 log w
        → (log.reads.failed ≡ false) × (log.writes.failed ≡ false)
        × (log.flush_failed ≡ false) }
    ensures paced { (mark : Option ℕ) (telling : TellingOf) (input : List ℕ)
        (log : ViewLogState) (w : Written)
        → ConcludesViewed telling (SubcommandOf.RunPaced mark) input 0 log w
        → (script : Script) × (pace : PaceOf) × IsRun mark input script pace
        × IsTold telling script (paced_answered script pace) (sum_of script pace)
        (paced_cycles script pace) w }
    ensures growing { (at_most : ℕ) (telling : TellingOf) (input : List ℕ)
        (log : ViewLogState) (w : Written)
        → ConcludesViewed telling (SubcommandOf.RunGrowing at_most) input 0 log w
        → (script : Script) × (given : ℕ → Bool) × IsGrowingRun at_most input script
        × IsTold telling script (growing_answered script at_most given)
        (growing_sum_of script at_most given) (growing_cycles script at_most given) w }
    ensures replay { (telling : TellingOf) (input : List ℕ) (log : ViewLogState) (w : Written)
        → ConcludesViewed telling SubcommandOf.Replay input 0 log w
        → (h : HistoryState) × (count : ℕ) × IsJudged input h (VerdictOf.Legal count)
        × Appends w.old w.new (told_report telling h (VerdictOf.Legal count)) }
    ensures wrong { (telling : TellingOf) (input : List ℕ) (log : ViewLogState) (w : Written)
        → ConcludesViewed telling SubcommandOf.Replay input 4 log w
        → (h : HistoryState) × (at : ℕ) × (expected : Result Reply Refusal)
        × IsJudged input h (VerdictOf.Wrong at expected)
        × Appends w.old w.new (told_report telling h (VerdictOf.Wrong at expected)) }
    ensures dump { (telling : TellingOf) (input : List ℕ) (log : ViewLogState) (w : Written)
        → ConcludesViewed telling SubcommandOf.Dump input 0 log w
        → (g : GraphState) × (graph_of_text input ≡ Ok g)
        × Appends w.old w.new (told_counts telling g) }
    ensures run_refused { (telling : TellingOf) (input : List ℕ) (log : ViewLogState) (w : Written)
        → ConcludesViewed telling SubcommandOf.Run input 3 log w
        → Keeps w.history_old w.history_new }
    ensures paced_refused { (mark : Option ℕ) (telling : TellingOf) (input : List ℕ)
        (log : ViewLogState) (w : Written)
        → ConcludesViewed telling (SubcommandOf.RunPaced mark) input 3 log w
        → Keeps w.history_old w.history_new }
    ensures growing_refused { (at_most : ℕ) (telling : TellingOf) (input : List ℕ)
        (log : ViewLogState) (w : Written)
        → ConcludesViewed telling (SubcommandOf.RunGrowing at_most) input 3 log w
        → Keeps w.history_old w.history_new }
{}

/// A viewed run ends with 1 only where its input has a fault, or a read, a write or a flush failed.
pub fn a_viewed_run_that_ends_with_1_has_its_cause()
    ensures { (telling : TellingOf) (input : List ℕ) (log : ViewLogState) (w : Written)
        → ConcludesViewed telling SubcommandOf.Run input 1 log w
        → HasRunFault input ⊎ HasFailed log }
{}

/// What a paced run prints, where it ends with 0, is what a heap answers that never moves its
/// objects: the input spells a trace of commands alone, and the text is a line for each answer and
/// the sums of these. An answer may be a refusal by a limit; the plain heap then leaves its command
/// out. So whatever the mark is, a collection is seen in refusals by a limit and in the sums alone.
pub fn a_paced_run_answers_as_the_plain_heap()
    ensures { (mark : Option ℕ) (input : List ℕ) (old new : Option (List ℕ))
        → Concludes (SubcommandOf.RunPaced mark) input 0 old new
        → (script : Script) × (answers : CommandAnswers) × (summary : SummaryOf)
        × IsPlainRun script answers (Some input) (Some []) × AreSumsOf answers summary
        × Appends old new (output_of answers summary) }
{
    heaps_answer_as_plain_heaps();
    a_new_heap_is_well_formed();
    an_event_answers_as_the_plain_heap::<Global>();
    every_event_keeps_a_heap_well_formed::<Global>();
    what_collectors_do_adds_up::<Global>();
}

/// The same of a growing run, whatever memory is given: whatever the most words are, a growth is
/// seen in refusals by a limit and in the sums alone.
pub fn a_growing_run_answers_as_the_plain_heap()
    ensures { (at_most : ℕ) (input : List ℕ) (old new : Option (List ℕ))
        → Concludes (SubcommandOf.RunGrowing at_most) input 0 old new
        → (script : Script) × (answers : CommandAnswers) × (summary : SummaryOf)
        × IsPlainRun script answers (Some input) (Some []) × AreSumsOf answers summary
        × Appends old new (output_of answers summary) }
{
    growing_heaps_answer_traces_as_plain_heaps::<Global>();
}

/// What a run in threads prints, where it ends with 0, is a history that `replay` never finds
/// wrong, whatever the schedule of the threads was.
pub fn a_history_of_threads_is_never_found_wrong()
    ensures { (replicators idle : ℕ) (input text : List ℕ)
        → Concludes (SubcommandOf.Threads replicators idle) input 0 (Some []) (Some text)
        → (status : ℕ) (old new : Option (List ℕ))
        → Concludes SubcommandOf.Replay text status old new → status ≢ 4 }
{}

/// What is counted of the text of a graph, of either version, is how many roots and how many
/// objects the graph has, and the line says them in this order.
pub fn the_counts_are_those_of_the_graph()
    ensures counted { (g : GraphState) (old new : Option (List ℕ)) → IsGraph g
        → length (dump_text g) ≤ MAX_DUMP_BYTES
        → Concludes SubcommandOf.Dump (dump_text g) 0 old new
        → Appends old new (codes "roots " ++ (decimal (length g.roots)
        ++ (codes " objects " ++ (decimal (length g.objects) ++ 10 ∷ [])))) }
    ensures version_1 { (g : GraphState) (old new : Option (List ℕ)) → IsGraph g
        → AllByRecursion (λ object. object.raw ≡ false) g.objects
        → length (text_in One g) ≤ MAX_DUMP_BYTES
        → Concludes SubcommandOf.Dump (text_in One g) 0 old new
        → Appends old new (codes "roots " ++ (decimal (length g.roots)
        ++ (codes " objects " ++ (decimal (length g.objects) ++ 10 ∷ [])))) }
    ensures one { (g : GraphState) → length g.roots ≡ 1 → length g.objects ≡ 1
        → counts_line g ≡ codes "roots 1 objects 1" ++ 10 ∷ [] }
    // A dump in which two roots refer to one object.
    ensures worked { (old new : Option (List ℕ)) → Concludes SubcommandOf.Dump
        (flat_map (λ line. line ++ 10 ∷ []) (codes "rheap 1" ∷ codes "roots 2" ∷ codes "1.0 @0"
        ∷ codes "1.1 @0" ∷ codes "objects 1" ∷ codes "@0 0" ∷ codes "end" ∷ [])) 0 old new
        → Appends old new (codes "roots 2 objects 1" ++ 10 ∷ []) }
    // A dump in which an object refers to a raw one.
    ensures raw { (old new : Option (List ℕ)) → Concludes SubcommandOf.Dump
        (flat_map (λ line. line ++ 10 ∷ []) (codes "rheap 2" ∷ codes "roots 1" ∷ codes "1.0 @0"
        ∷ codes "objects 2" ∷ codes "@0 1 @1" ∷ codes "@1 raw 1 5" ∷ codes "end" ∷ [])) 0 old new
        → Appends old new (codes "roots 1 objects 2" ++ 10 ∷ []) }
{
    what_is_spelled_is_read();
}
