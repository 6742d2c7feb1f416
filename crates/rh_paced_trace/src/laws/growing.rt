//! Laws of growing runs.

ghost use Rattle.std.specs.Prelude.{◌≡◌, ℕ, Bool, false, List, [], length, None, slice_get};
ghost use Rattle.rh_model.specs.Plain.{empty_plain};
ghost use Rattle.rh_mutator.specs.Config.{fault_of};
ghost use Rattle.rh_core.specs.runs.Programs.{AreUnlimited};
ghost use Rattle.rh_syntax.specs.Spelling.{Script};
ghost use Rattle.rh_trace.specs.Run.{config_of};
ghost use Rattle.rh_pace.specs.InTime.{paced_replies};
ghost use Rattle.rh_pace.specs.declared.pace.Pace.{Pace};
ghost use Rattle.rh_growing.specs.Growing.{GrowingState};
ghost use Rattle.rh_growing.specs.Growth.{FitsLog, IsGrowth};
ghost use Rattle.rh_growing.specs.Programs.{growing_answers};
ghost use Rattle.rh_paced_trace.specs.Growing.{AreFullOnlyWhereShort, HaveRoomUnlessShort, growing_answers_of, growing_replies, growth_of, new_growing_run};
ghost use Rattle.rh_paced_trace.specs.Lines.{Commands, commands_in};
ghost use Rattle.rh_paced_trace.specs.Run.{AreTransparent, new_run};

use rh_core::laws::holds::what_collectors_do_adds_up;
use rh_core::laws::runs::{
    a_new_heap_is_well_formed, an_event_answers_as_the_plain_heap,
    every_event_keeps_a_heap_well_formed,
};
use rh_core::laws::{heaps_answer_as_plain_heaps, limits_refuse_exactly_where_they_are_met};
use rh_mutator::laws::every_heap_stands_for_a_plain_heap;
use rh_pace::laws::calls::{
    a_step_is_a_paced_call, every_call_keeps_a_heap_paced,
    increments_and_collections_are_collector_work,
};
use rh_pace::laws::growing::heaps_in_time_whatever_lives_have_room;
use std::alloc::Allocator;

/// A trace of commands is a program that looks at no answer, and insists on no command, on a heap
/// that grows too, whatever memory is given. So of its run all holds that is promised of every
/// program on such a heap.
pub fn a_growing_trace_is_a_program()
    ensures { (given : ℕ → Bool) (s : GrowingState) (commands : Commands)
        → growing_replies given s commands
        ≡ growing_answers (λ so_far. slice_get commands (length so_far)) (λ so_far. false)
        (λ so_far i. given (length so_far)) (length commands) s [] }
{}

/// No trace sees that its heap grows: each answer is that of a plain heap, which begins empty and
/// skips what limits refused. So it is whatever memory is given, and to however many words the heap
/// may grow.
pub fn growing_heaps_answer_traces_as_plain_heaps<A: Allocator + Copy>()
    ensures { (script : Script) (at_most : ℕ) → IsGrowth (growth_of script at_most)
        → (given : ℕ → Bool)
        → AreTransparent (empty_plain script.header.owners script.header.slots)
        (commands_in script.requests) (growing_answers_of script at_most given) }
{
    an_event_answers_as_the_plain_heap::<A>();
    every_event_keeps_a_heap_well_formed::<A>();
    what_collectors_do_adds_up::<A>();
    increments_and_collections_are_collector_work::<A>();
    a_new_heap_is_well_formed();
    heaps_answer_as_plain_heaps();
}

/// Where no limit refused, the answers of a trace are the same to however many words its heap may
/// grow, and whatever memory is given (`words`); and they are those of a paced run, at any pace
/// (`paced`).
pub fn growth_is_seen_in_refusals_by_a_limit_alone<A: Allocator + Copy>()
    ensures words { (script : Script) (first second : ℕ) → IsGrowth (growth_of script first)
        → IsGrowth (growth_of script second) → (given also : ℕ → Bool)
        → AreUnlimited (growing_answers_of script first given)
        → AreUnlimited (growing_answers_of script second also)
        → growing_answers_of script first given ≡ growing_answers_of script second also }
    ensures paced { (script : Script) (at_most : ℕ) → IsGrowth (growth_of script at_most)
        → fault_of (config_of script.header) ≡ None → (given : ℕ → Bool) (pace : Pace)
        → AreUnlimited (growing_answers_of script at_most given)
        → AreUnlimited (paced_replies (new_run script pace) (commands_in script.requests))
        → growing_answers_of script at_most given
        ≡ paced_replies (new_run script pace) (commands_in script.requests) }
{
    growing_heaps_answer_traces_as_plain_heaps::<A>();
    a_new_heap_is_well_formed();
    heaps_answer_as_plain_heaps();
    an_event_answers_as_the_plain_heap::<A>();
    every_event_keeps_a_heap_well_formed::<A>();
    what_collectors_do_adds_up::<A>();
}

/// A line is refused for room only where the heap has too few words since its last flip, or its
/// epochs are spent. It has too few only where the space has as many as it may have, or where
/// memory was refused (`rh_growing::laws::calls::a_heap_grows_within_its_limits`).
///
/// - `space`: in the space.
/// - `room`: in the log too, where it fits the words that the space may have.
pub fn a_growing_run_is_refused_for_room_only_where_it_is_short<A: Allocator + Copy>()
    ensures space { (script : Script) (at_most : ℕ) → IsGrowth (growth_of script at_most)
        → (given : ℕ → Bool)
        → AreFullOnlyWhereShort given (new_growing_run script at_most)
        (commands_in script.requests) }
    ensures room { (script : Script) (at_most : ℕ) → IsGrowth (growth_of script at_most)
        → FitsLog (growth_of script at_most) → (given : ℕ → Bool)
        → HaveRoomUnlessShort given (new_growing_run script at_most)
        (commands_in script.requests) }
{
    an_event_answers_as_the_plain_heap::<A>();
    every_event_keeps_a_heap_well_formed::<A>();
    what_collectors_do_adds_up::<A>();
    increments_and_collections_are_collector_work::<A>();
    a_new_heap_is_well_formed();
    every_call_keeps_a_heap_paced::<A>();
    a_step_is_a_paced_call::<A>();
    heaps_in_time_whatever_lives_have_room::<A>();
    every_heap_stands_for_a_plain_heap();
    limits_refuse_exactly_where_they_are_met();
}
