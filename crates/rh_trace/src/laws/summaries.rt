//! Laws of what a run adds up to.

ghost use Rattle.std.specs.Prelude.{◌≡◌, ◌+◌, List, count_by};
ghost use Rattle.std.specs.List.{AllByRecursion};
ghost use Rattle.rh_core.specs.runs.Run.{answers_of};
ghost use Rattle.rh_syntax.specs.declared.request.Request.{Request as RequestOf};
ghost use Rattle.rh_engine.specs.Engine.{EngineState};
ghost use Rattle.rh_trace.specs.Answers.{total_line, IsToldSummary};
ghost use Rattle.rh_trace.specs.declared.summary.Summary.{Summary as SummaryOf};
ghost use Rattle.rh_trace.specs.Events.{events_of, is_command, is_refused_command, ChangesByEvents};
ghost use Rattle.rh_trace.specs.Run.{answers_to, engine_after, summary_of};

use rh_core::laws::a_command_leaves_the_cycle;
use rh_core::laws::cycles::{
    a_cycle_begins_with_nothing_placed, a_flip_ends_the_cycle,
    a_flip_is_refused_exactly_where_its_cycle_is_not_closed,
};
use rh_core::laws::deals::a_deal_looks_at_as_many_as_it_may;
use rh_core::laws::gives::{a_give_leaves_the_cycle, a_shade_leaves_the_cycle};
use rh_core::laws::idle_work::idle_words_add_up;
use rh_core::laws::recalls::{a_recall_makes_all_undealt, an_abandon_forgets_what_was_placed};
use std::alloc::Allocator;

/// The flips and the root words of a summary are those that the heap counted: after requests it has
/// done as many flips more, and written as many words of roots more, as their answers add up to.
pub fn a_summary_has_what_the_heap_counted()
    ensures flips { (e : EngineState) (requests : List RequestOf)
        → (engine_after e requests).heap.flips
        ≡ e.heap.flips + (summary_of (answers_to e requests)).flips }
    ensures root_words { (e : EngineState) (requests : List RequestOf)
        → (engine_after e requests).heap.root_words
        ≡ e.heap.root_words + (summary_of (answers_to e requests)).root_words }
{
    a_command_leaves_the_cycle();
    a_cycle_begins_with_nothing_placed();
    a_shade_leaves_the_cycle();
    a_deal_looks_at_as_many_as_it_may();
    a_give_leaves_the_cycle();
    a_recall_makes_all_undealt();
    an_abandon_forgets_what_was_placed();
    idle_words_add_up();
    a_flip_ends_the_cycle();
    a_flip_is_refused_exactly_where_its_cycle_is_not_closed();
}

/// The commands of a summary are as many as the requests that are one. Where none of these is a
/// resize or a line of watches, its refused ones are as many as the commands that the heap refuses
/// of the events that the requests are to it.
pub fn a_summary_has_the_commands_of_its_lines<A: Allocator + Copy>()
    ensures commands { (e : EngineState) (requests : List RequestOf)
        → (summary_of (answers_to e requests)).commands ≡ count_by is_command requests }
    ensures refused { (e : EngineState) (requests : List RequestOf)
        → AllByRecursion ChangesByEvents requests
        → (summary_of (answers_to e requests)).refused
        ≡ count_by is_refused_command (answers_of {A = A} e.heap (events_of {A = A} e requests)) }
{}

/// Each total line is of one summary alone: two summaries with the same line, whose numbers have at
/// most 128 bits, as all have that a run answers, are the same.
pub fn each_total_line_is_of_one_summary()
    ensures { (a b : SummaryOf) → IsToldSummary a → IsToldSummary b
        → total_line a ≡ total_line b → a ≡ b }
{}
