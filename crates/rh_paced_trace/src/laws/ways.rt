//! Laws of the ways in which traces of commands are run.

ghost use Rattle.std.specs.Prelude.{◌≡◌, ℕ, List, Option, Some, Result, Err, IfOk};
ghost use Rattle.std.specs.Io.KnownBytes.{Appends, Consumes, Keeps};
ghost use Rattle.rh_core.specs.runs.Programs.{CommandAnswers};
ghost use Rattle.rh_mutator.specs.Config.{fault_of};
ghost use Rattle.rh_mutator.specs.declared.config.ConfigFault.{ConfigFault};
ghost use Rattle.rh_text.specs.Output.{AppendsLess};
ghost use Rattle.rh_syntax.specs.Spelling.{Script};
ghost use Rattle.rh_trace.specs.Run.{config_of};
ghost use Rattle.rh_trace.specs.declared.summary.Summary.{Summary};
ghost use Rattle.rh_trace.specs.declared.way_fault.WayFault.{WayFault};
ghost use Rattle.rh_paced_trace.specs.declared.fault.Unpaced.{Unpaced};
ghost use Rattle.rh_paced_trace.specs.Growing.{EndsGrowing};
ghost use Rattle.rh_paced_trace.specs.Run.{AreSumsOf, Ends, IsCommandTrace, IsPlainRun, output_of};
ghost use Rattle.rh_paced_trace.specs.Ways.{AnswersGrowing, AnswersPaced};

use crate::laws::growing::growing_heaps_answer_traces_as_plain_heaps;
use rh_core::laws::heaps_answer_as_plain_heaps;
use rh_core::laws::holds::what_collectors_do_adds_up;
use rh_core::laws::runs::{
    a_new_heap_is_well_formed, an_event_answers_as_the_plain_heap,
    every_event_keeps_a_heap_well_formed,
};
use std::alloc::Allocator;

/// A run by the way `Paced`, whose answers are written, ends as a paced run of its input. So what is
/// written, and what it adds up to, is told by the mark and the input alone.
pub fn a_paced_run_ends_as_its_input_says()
    ensures { (mark : Option ℕ) (input : List ℕ) (result : Result Summary (WayFault Unpaced))
        (old new : Option (List ℕ)) → AnswersPaced mark input result old new
        → Ends mark input result old new }
{}

/// A run by the way `Growing`, whose answers are written, ends as a growing run of its input. So
/// what is written, and what it adds up to, is told by the most words, by the input, and by what
/// memory is given.
pub fn a_growing_run_ends_as_its_input_says()
    ensures { (at_most : ℕ) (input : List ℕ) (result : Result Summary (WayFault Unpaced))
        (old new : Option (List ℕ)) → AnswersGrowing at_most input result old new
        → EndsGrowing at_most input result old new }
{}

/// A run that ends for want of a heap has its cause in the input.
///
/// - `limits`: a paced run never ends with the fault Limits, which is one of growing runs.
/// - `paced`, `growing`: one that ends with a fault of the sizes has read a trace of commands, whose
///   first line has that fault.
pub fn a_run_without_a_heap_has_its_cause()
    ensures limits { (mark : Option ℕ) (input : List ℕ) (old new : Option (List ℕ))
        → ¬ Ends mark input (Err (WayFault.Way Unpaced.Limits)) old new }
    ensures paced { (mark : Option ℕ) (input : List ℕ) (fault : ConfigFault)
        (old new : Option (List ℕ)) → Ends mark input (Err (WayFault.New fault)) old new
        → (script : Script) × IsCommandTrace input script
        × (fault_of (config_of script.header) ≡ Some fault) }
    ensures growing { (at_most : ℕ) (input : List ℕ) (fault : ConfigFault)
        (old new : Option (List ℕ)) → EndsGrowing at_most input (Err (WayFault.New fault)) old new
        → (script : Script) × IsCommandTrace input script
        × (fault_of (config_of script.header) ≡ Some fault) }
{}

/// A paced run of the bytes that a reader gave tells what a plain heap answers.
///
/// - `plain`: where it succeeded, these are a trace, and such answers to it were written.
/// - `plain_prefix`: where a write failed, a prefix of the text of such answers was written.
/// - `memory`: where memory was refused, nothing was written.
pub fn a_paced_run_tells_what_a_plain_heap_answers<A: Allocator + Copy>()
    ensures plain { (mark : Option ℕ) (input : List ℕ) (result : Result Summary (WayFault Unpaced))
        (from to old new : Option (List ℕ)) → Consumes from to input
        → Ends mark input result old new → IfOk result (λ summary. (script : Script)
        × (answers : CommandAnswers) × IsPlainRun script answers from to
        × AreSumsOf answers summary × Appends old new (output_of answers summary)) }
    ensures plain_prefix { (mark : Option ℕ) (input : List ℕ) (from to old new : Option (List ℕ))
        → Consumes from to input → Ends mark input (Err WayFault.Write) old new
        → (script : Script) × (answers : CommandAnswers) × (summary : Summary)
        × IsPlainRun script answers from to × AreSumsOf answers summary
        × AppendsLess old new (output_of answers summary) }
    ensures memory { (mark : Option ℕ) (input : List ℕ) (old new : Option (List ℕ))
        → Ends mark input (Err WayFault.OutOfMemory) old new → Keeps old new }
{
    heaps_answer_as_plain_heaps();
    a_new_heap_is_well_formed();
    an_event_answers_as_the_plain_heap::<A>();
    every_event_keeps_a_heap_well_formed::<A>();
    what_collectors_do_adds_up::<A>();
}

/// The same of a growing run, whatever memory is given.
pub fn a_growing_run_tells_what_a_plain_heap_answers<A: Allocator + Copy>()
    ensures plain { (at_most : ℕ) (input : List ℕ) (result : Result Summary (WayFault Unpaced))
        (from to old new : Option (List ℕ)) → Consumes from to input
        → EndsGrowing at_most input result old new → IfOk result (λ summary. (script : Script)
        × (answers : CommandAnswers) × IsPlainRun script answers from to
        × AreSumsOf answers summary × Appends old new (output_of answers summary)) }
    ensures plain_prefix { (at_most : ℕ) (input : List ℕ) (from to old new : Option (List ℕ))
        → Consumes from to input → EndsGrowing at_most input (Err WayFault.Write) old new
        → (script : Script) × (answers : CommandAnswers) × (summary : Summary)
        × IsPlainRun script answers from to × AreSumsOf answers summary
        × AppendsLess old new (output_of answers summary) }
    ensures memory { (at_most : ℕ) (input : List ℕ) (old new : Option (List ℕ))
        → EndsGrowing at_most input (Err WayFault.OutOfMemory) old new → Keeps old new }
{
    growing_heaps_answer_traces_as_plain_heaps::<A>();
}
