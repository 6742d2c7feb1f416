//! Laws of runs by a way.

ghost use Rattle.std.specs.Prelude.{◌≡◌, ◌⊎◌, List, Option, Result, ℕ, IfOk, IsErrOf};
ghost use Rattle.std.specs.List.{flat_map};
ghost use Rattle.std.specs.Io.KnownBytes.{Appends, Consumes, Keeps};
ghost use Rattle.rh_text.specs.Output.{AppendsLess, AppendsPrefix};
ghost use Rattle.rh_syntax.specs.Spelling.{Script};
ghost use Rattle.rh_trace.specs.Answers.{Answered, answered_text};
ghost use Rattle.rh_trace.specs.Fixed.{FixedEnds, by_way};
ghost use Rattle.rh_trace.specs.Run.{Ends, IsPlainRun, output_of, run_of, summary_of};
ghost use Rattle.rh_trace.specs.declared.run_fault.RunFault.{RunFault as RunFaultOf};
ghost use Rattle.rh_trace.specs.declared.summary.Summary.{Summary as SummaryOf};
ghost use Rattle.rh_trace.specs.declared.way_fault.WayFault.{WayFault as WayFaultOf};

use crate::laws::dumps::a_heap_has_the_dump_of_its_plain_heap;
use rh_core::laws::heaps_answer_as_plain_heaps;
use rh_core::laws::runs::{
    an_event_answers_as_the_plain_heap, every_event_keeps_a_heap_well_formed,
};
use std::alloc::Allocator;

/// A run on a heap of the first line's sizes, whose answers are written, ends as `run_trace` does:
/// what is written, and what it adds up to, is told by the input alone. The way has no fault of its
/// own.
///
/// - `told`: of an outcome of `run_trace`, taken as one of a run by a way.
/// - `faults`: of any outcome of a run by this way: it is one of `run_trace`, taken so.
pub fn a_fixed_run_ends_as_its_trace<F>()
    ensures told { (input : List ℕ) (result : Result SummaryOf RunFaultOf)
        (old new : Option (List ℕ)) → FixedEnds {F = F} input (by_way result) old new
        → Ends (run_of input) result old new }
    ensures faults { (input : List ℕ) (outcome : Result SummaryOf (WayFaultOf F))
        (old new : Option (List ℕ)) → FixedEnds input outcome old new
        → (result : Result SummaryOf RunFaultOf) × (outcome ≡ by_way result)
        × Ends (run_of input) result old new }
{}

/// Said of the plain heap alone, of such a run of the bytes that a reader gave: which trace was read,
/// and which answers were written, where it succeeded; of what they are a prefix was written, where a
/// write failed or memory was refused.
pub fn a_fixed_run_answers_as_the_plain_heap<A: Allocator + Copy, F>()
    ensures plain { (input : List ℕ) (result : Result SummaryOf RunFaultOf)
        (from to old new : Option (List ℕ)) → Consumes from to input
        → FixedEnds {F = F} input (by_way result) old new
        → IfOk result (λ summary. (script : Script) × (answers : List Answered)
        × IsPlainRun script answers from to × (summary ≡ summary_of answers)
        × Appends old new (output_of answers)) }
    ensures plain_prefix { (input : List ℕ) (result : Result SummaryOf RunFaultOf)
        (from to old new : Option (List ℕ)) → Consumes from to input
        → FixedEnds {F = F} input (by_way result) old new → IsErrOf result RunFaultOf.Write
        → (script : Script) × (answers : List Answered)
        × IsPlainRun script answers from to × AppendsLess old new (output_of answers) }
    ensures plain_memory { (input : List ℕ) (result : Result SummaryOf RunFaultOf)
        (from to old new : Option (List ℕ)) → Consumes from to input
        → FixedEnds {F = F} input (by_way result) old new
        → IsErrOf result RunFaultOf.OutOfMemory
        → Keeps old new ⊎ ((script : Script) × (answers : List Answered)
        × IsPlainRun script answers from to
        × AppendsPrefix old new (flat_map answered_text answers)) }
{
    heaps_answer_as_plain_heaps();
    an_event_answers_as_the_plain_heap::<A>();
    every_event_keeps_a_heap_well_formed::<A>();
    a_heap_has_the_dump_of_its_plain_heap();
}
