//! Laws of what a program in C reads of how a heap looks: its dump, and its cycles.

ghost use Rattle.std.specs.Prelude.{◌≡◌, ℕ, List, ◌∷◌, map, Option, Some};
ghost use Rattle.rh_cycles.specs.declared.cycle.Cycle.{Cycle};
ghost use Rattle.rh_cycles.specs.Heaps.{CyclesState, kept_in, new_cycles};
ghost use Rattle.rh_dump.specs.PlainDump.{plain_dump_of};
ghost use Rattle.rh_dump.specs.texts.Line.{dump_text};
ghost use Rattle.rh_model.specs.Plain.{PlainHeap};
ghost use Rattle.rh_mutator.specs.Mutator.{StandsFor};
ghost use Rattle.rh_pace.specs.Paced.{PacedState};
ghost use Rattle.rheap_c.specs.declared.cycle_numbers.RheapCycleReader.{RheapCycleReader};
ghost use Rattle.rheap_c.specs.Cycles.{AreAsked, after_each, after_readings, cycle_numbers, no_cycle, reader_of, told_after_each, told_by_readings};
ghost use Rattle.rheap_c.specs.Views.{IsDump, IsToldOrRefused};

use rh_dump::laws::equal_dumps_are_same_graphs;
use rh_model::laws::pairs_what_is_reached;

/// A reader that a program in C keeps from one reading to the next tells what `Cycles` tells that
/// was made of the heap at the first reading and is asked at each further one. So the numbers that
/// cross to C, and come back, lose nothing by which cycles are told.
///
/// - `told`: the first reading tells no cycle, and each further one the numbers of the cycle that
///   `Cycles` tells then, or no cycle where it tells none.
/// - `kept`: the reader is left with what `Cycles` keeps then.
/// - `asked`: both, of a `Cycles` that was asked after each of these calls, each time as `Cycles::after`
///   promises.
pub fn a_reader_kept_in_c_tells_what_cycles_tells()
    ensures told { (r : RheapCycleReader) (s : PacedState) (heaps : List PacedState)
        → r.begun ≡ 0 → told_by_readings r (s ∷ heaps)
        ≡ no_cycle ∷ map cycle_numbers (told_after_each (new_cycles s) heaps) }
    ensures kept { (r : RheapCycleReader) (s : PacedState) (heaps : List PacedState)
        → r.begun ≡ 0 → after_readings r (s ∷ heaps)
        ≡ reader_of (kept_in (after_each (new_cycles s) heaps)) }
    ensures asked { (r : RheapCycleReader) (s : PacedState) (heaps : List PacedState)
        (new : CyclesState) (told : List (Option Cycle)) → r.begun ≡ 0
        → AreAsked (new_cycles s) new heaps told
        → (told_by_readings r (s ∷ heaps) ≡ no_cycle ∷ map cycle_numbers told)
        × (after_readings r (s ∷ heaps) ≡ reader_of (kept_in new)) }
{}

/// A dump from C is that of the plain heap for which the heap stands, which never moves its
/// objects. So the text is the same wherever the objects are, and whether or not a cycle is on.
pub fn a_dump_from_c_is_that_of_the_plain_heap()
    ensures { (s : PacedState) (p : PlainHeap) → StandsFor s.heap.mutators p
        → (new : Option PacedState) (before after : List ℕ) (count status : ℕ)
        → IsDump (Some s) new before after count status
        → IsToldOrRefused (dump_text (plain_dump_of p)) before after count status }
{
    equal_dumps_are_same_graphs();
    // What two graphs pair is reached in both.
    pairs_what_is_reached();
}
