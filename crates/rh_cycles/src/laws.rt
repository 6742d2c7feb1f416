//! Laws of the numbers of cycles: they account for all words and flips. Each function does nothing:
//! its contract is the law.

ghost use Rattle.std.specs.Prelude.{◌≡◌, ℕ, ◌+◌, ◌≤◌, All, List, Some, false};
ghost use Rattle.rh_core.specs.declared.event.Event.{Event};
ghost use Rattle.rh_core.specs.declared.stat.Stat.{Stat};
ghost use Rattle.rh_core.specs.Heap.{HeapState, IsWellFormed};
ghost use Rattle.rh_core.specs.Stat.{stat_of};
ghost use Rattle.rh_core.specs.runs.Run.{event_step, heap_after};
ghost use Rattle.rh_cycles.specs.declared.cycle.Cycle.{Cycle};
ghost use Rattle.rh_cycles.specs.declared.cycle.CycleEnd.TheVariants.{Flipped};
ghost use Rattle.rh_cycles.specs.Cycles.{Reading, ReaderState, cycles_of, new_reader, read_step, reader_after};
ghost use Rattle.rh_cycles.specs.Runs.{AreRising, AreSteps, IsEndedBy, IsStep, IsWhole, flips_in, readings_of, step_of, steps_of, words_freed, words_in};

use rh_core::laws::cycles::{
    a_flip_ends_the_cycle, a_flip_is_refused_exactly_where_its_cycle_is_not_closed,
};
use rh_core::laws::progress::a_well_formed_heap_is_bounded;
use rh_core::laws::runs::every_event_keeps_a_heap_well_formed;
use rh_core::laws::stats::{
    each_call_leaves_the_rest_of_what_a_heap_tells, what_a_heap_tells_follows_its_calls,
};
use std::alloc::Allocator;

/// Steps of a heap are read, each of which makes words or is a flip. What the cycles freed and what
/// is used in the end are together what was used at first and what was made. As many cycles are told
/// as ended with a flip as there were flips.
pub fn cycles_account_for_all_words_and_flips()
    ensures words { (r : ReaderState) (steps : List (ℕ × Reading)) → IsWhole r
        → AreSteps r.last steps → words_freed (cycles_of r (readings_of steps))
        + (reader_after r (readings_of steps)).last.used
        ≡ r.last.used + words_in steps }
    ensures flips { (r : ReaderState) (steps : List (ℕ × Reading)) → IsWhole r
        → AreSteps r.last steps → (reader_after r (readings_of steps)).last.flips
        ≡ r.last.flips + flips_in (cycles_of r (readings_of steps)) }
{}

/// Each event of a well-formed heap is such a step: a command makes the words of its object where it
/// is accepted, a flip that is accepted is a flip, and any other event makes none.
pub fn each_event_is_a_step<A: Allocator + Copy>()
    ensures { (h : HeapState) → IsWellFormed h → (line : ℕ) (event : Event A)
        → IsStep (step_of line h event).0 (stat_of h) (stat_of (event_step h event).0) }
{
    what_a_heap_tells_follows_its_calls();
    each_call_leaves_the_rest_of_what_a_heap_tells();
    a_flip_is_refused_exactly_where_its_cycle_is_not_closed();
    a_flip_ends_the_cycle();
    a_well_formed_heap_is_bounded();
}

/// A run of events is read from a heap on in which no cycle is. Each word that was used at first or
/// made in the run is used in the end, or was freed by one of the cycles that are told. There is a
/// cycle for each flip.
pub fn each_word_of_a_run_is_used_or_was_freed<A: Allocator + Copy>()
    ensures words { (h : HeapState) → IsWellFormed h → h.mutators.cycle ≡ false
        → (line : ℕ) (events : List (Event A)) → (let steps = steps_of line h events in
        words_freed (cycles_of (new_reader (stat_of h)) (readings_of steps))
        + (stat_of (heap_after h events)).used ≡ (stat_of h).used + words_in steps) }
    ensures flips { (h : HeapState) → IsWellFormed h → h.mutators.cycle ≡ false
        → (line : ℕ) (events : List (Event A)) → (let steps = steps_of line h events in
        (stat_of (heap_after h events)).flips ≡ (stat_of h).flips
        + flips_in (cycles_of (new_reader (stat_of h)) (readings_of steps))) }
{
    cycles_account_for_all_words_and_flips();
    each_event_is_a_step::<A>();
    every_event_keeps_a_heap_well_formed::<A>();
}

/// A reader that read a heap's numbers reads them again after an event. If it tells a cycle that a
/// flip ended, the event was that flip. Then `live` is the words that the flip answered, `freed` the
/// other words that were used, and `objects` those that were placed.
pub fn a_cycle_that_a_flip_ended_has_its_numbers<A: Allocator + Copy>()
    ensures { (h : HeapState) → IsWellFormed h → (r : ReaderState) → r.last ≡ stat_of h
        → (line : ℕ) (event : Event A) (c : Cycle)
        → (read_step r (step_of line h event).1).1 ≡ Some c → c.end ≡ Flipped
        → IsEndedBy line h event c }
{
    what_a_heap_tells_follows_its_calls();
    each_call_leaves_the_rest_of_what_a_heap_tells();
    a_flip_ends_the_cycle();
    a_well_formed_heap_is_bounded();
    a_flip_is_refused_exactly_where_its_cycle_is_not_closed();
}

/// Lines are read that rise from one on. Each cycle that is told began at that one or later, and no
/// later than it ended.
pub fn a_cycle_begins_before_it_ends()
    ensures { (stat : Stat) (line : ℕ) (readings : List Reading) → AreRising line readings
        → All (λ c. (line ≤ c.began) × (c.began ≤ c.ended))
        (cycles_of (new_reader stat) readings) }
{}
