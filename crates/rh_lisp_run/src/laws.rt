//! Laws of sessions, and of cycles that are read. Each function does nothing: its contract is the
//! law.

ghost use Rattle.std.specs.Prelude.{◌≡◌, ◌+◌, ◌^◌, ◌<◌, ◌⊎◌, ◌++◌, ℕ, List, length, true};
ghost use Rattle.rh_core.specs.runs.Programs.{CommandAnswers};
ghost use Rattle.rh_model.specs.Plain.{PlainHeap};
ghost use Rattle.rh_mutator.specs.Mutator.{MutatorState, StandsFor};
ghost use Rattle.rh_pace.specs.Paced.{PacedState};
ghost use Rattle.rh_core.specs.CommandHeap.{Stepping};
ghost use Rattle.rh_machine.specs.Machine.{answers_to, heap_after};
ghost use Rattle.rh_machine.specs.Output.{BeginsOutput, is_exhausted, plain_machine};
ghost use Rattle.rh_machine.specs.Registers.{Control, asks, hears};
ghost use Rattle.rh_lisp.specs.Printed.{output_text};
ghost use Rattle.rh_lisp.specs.Program.{ProgramState};
ghost use Rattle.rh_lisp_run.specs.Cycling.{EndInTurn, read_from, reading_steps};
ghost use Rattle.rh_lisp_run.specs.Run.{IsNewMachine};
ghost use Rattle.rh_lisp_run.specs.Session.{AreEntries, IsEntry};

/// Entries follow each other, on a heap of any kind.
///
/// - `joined`: entries are played, and then others on the heap that those left. So all of them are
///   played, and their text is the first text and then the second.
/// - `parted`: all of them are the first ones, and then the others.
pub fn entries_follow_each_other<S, X>()
    ensures joined { (mutators : S → MutatorState) (step : Stepping X S) (steps n m : ℕ)
        (old mid new : S) (first last : List ℕ) → AreEntries mutators step steps n old first mid
        → AreEntries mutators step steps m mid last new
        → AreEntries mutators step steps (n + m) old (first ++ last) new }
    ensures parted { (mutators : S → MutatorState) (step : Stepping X S) (steps n m : ℕ)
        (old new : S) (text : List ℕ) → AreEntries mutators step steps (n + m) old text new
        → (mid : S) × (first : List ℕ) × (last : List ℕ)
        × AreEntries mutators step steps n old first mid
        × AreEntries mutators step steps m mid last new × (text ≡ first ++ last) }
{}

/// An entry is played on a heap of any kind that stands for a plain heap. It prints what its
/// program prints on that; or the heap was exhausted, and what the program put out by then begins
/// what it puts out there.
pub fn an_entry_prints_what_it_prints_on_the_plain_heap<S, X>()
    ensures { (mutators : S → MutatorState) (step : Stepping X S) (steps : ℕ) (old new : S)
        (text : List ℕ) → IsEntry mutators step steps old text new
        → (p : PlainHeap) → StandsFor (mutators old) p
        → (begun : ProgramState) × IsNewMachine steps begun.machine
        × ((text ≡ output_text
        (record begun { machine = plain_machine begun.machine.steps p begun.machine }))
        ⊎ ((ended : Control) × (is_exhausted ended ≡ true)
        × BeginsOutput ended (plain_machine begun.machine.steps p begun.machine)
        × (text ≡ output_text (record begun { machine = ended })))) }
{}

/// The cycles of a heap of any kind are read while a machine is played on it.
///
/// - `heap`, `answers`: its commands make the same of the heap, and are answered the same, as where
///   they aren't read.
/// - `in_turn`: the commands at which cycles are told to have ended rise. They are counted from 1,
///   up to as many as were answered.
pub fn cycles_are_read_beside_the_heap<S, X>()
    ensures heap { (paced : S → PacedState) (step : Stepping X S) (given : CommandAnswers → X)
        (n : ℕ) (machine : Control) (s : S)
        → (heap_after (reading_steps paced step) asks hears given n machine
        (read_from paced s)).heap ≡ heap_after step asks hears given n machine s }
    ensures answers { (paced : S → PacedState) (step : Stepping X S) (given : CommandAnswers → X)
        (n : ℕ) (machine : Control) (s : S)
        → answers_to (reading_steps paced step) asks hears given n machine (read_from paced s)
        ≡ answers_to step asks hears given n machine s }
    ensures in_turn { (paced : S → PacedState) (step : Stepping X S) (given : CommandAnswers → X)
        (n : ℕ) (machine : Control) (s : S) → n < 2 ^ 64
        → EndInTurn 0 (length (answers_to step asks hears given n machine s))
        (heap_after (reading_steps paced step) asks hears given n machine
        (read_from paced s)).ended }
{}
