//! Laws of the pace of a trace: what its lines allocate, the pace that this takes, and a run within
//! its bounds. Each function does nothing: its contract is the law.

ghost use Rattle.std.specs.Prelude.{◌≡◌, ◌↔◌, ◌⊎◌, ◌+◌, ◌*◌, ◌^◌, ◌<◌, ◌≤◌, ◌++◌, ℕ, Option, List, [], length, map, min, take, count_by, slice_get, false, Some, None, Ok, Err};
ghost use Rattle.std.specs.List.{flat_map};
ghost use Rattle.rh_layout.specs.declared.command.Command.{Command as CommandOf};
ghost use Rattle.rh_layout.specs.declared.command.RootId.{RootId};
ghost use Rattle.rh_layout.specs.declared.shape.Shape.{Shape};
ghost use Rattle.rh_layout.specs.Command.{made_by};
ghost use Rattle.rh_model.specs.Plain.{empty_plain};
ghost use Rattle.rh_mutator.specs.Config.{fault_of};
ghost use Rattle.rh_core.specs.runs.Programs.{AreUnlimited};
ghost use Rattle.rh_syntax.specs.declared.fault.Kind.TheVariants.{Word};
ghost use Rattle.rh_syntax.specs.declared.fault.TraceFault.{TraceFault as FaultOf};
ghost use Rattle.rh_syntax.specs.declared.request.Request.{Request as RequestOf};
ghost use Rattle.rh_syntax.specs.Reading.{fault_at};
ghost use Rattle.rh_syntax.specs.Spelling.{Script};
ghost use Rattle.rh_trace.specs.Events.{is_command};
ghost use Rattle.rh_trace.specs.Answers.{answer_line, total_line};
ghost use Rattle.rh_trace.specs.Run.{config_of};
ghost use Rattle.rh_pace.specs.declared.errors.PaceError.{PaceError as PaceErrorOf};
ghost use Rattle.rh_pace.specs.declared.pace.Pace.{Pace as PaceOf};
ghost use Rattle.rh_pace.specs.Pace.{KeepsUp, lag_of, words_left};
ghost use Rattle.rh_pace.specs.InTime.{paced_after, paced_replies};
ghost use Rattle.rh_pace.specs.Paced.{PacedState};
ghost use Rattle.rh_pace.specs.PlainBounds.{AreBounded};
ghost use Rattle.rh_pace.specs.PlainReplies.{plain_replies};
ghost use Rattle.rh_pace.specs.Programs.{paced_answers};
ghost use Rattle.rh_paced_trace.specs.Lines.{AreCommands, Commands, IsFirstOther, biggest_of, commands_in, other_fault};
ghost use Rattle.rh_paced_trace.specs.Pacing.{IsPaceOf, pace_at};
ghost use Rattle.rh_paced_trace.specs.Run.{IsRun, new_run, sum_of, summary_to, text_of};
ghost use Rattle.rh_paced_trace.specs.Worked.{queue_script};

pub mod growing;
pub mod ways;

use rh_core::laws::cycles::{
    a_cycle_begins_with_nothing_placed, a_flip_ends_the_cycle,
    a_flip_is_refused_exactly_where_its_cycle_is_not_closed,
};
use rh_core::laws::deals::a_deal_looks_at_as_many_as_it_may;
use rh_core::laws::gives::{a_give_leaves_the_cycle, a_shade_leaves_the_cycle};
use rh_core::laws::holds::what_collectors_do_adds_up;
use rh_core::laws::idle_work::idle_words_add_up;
use rh_core::laws::runs::{
    a_new_heap_is_well_formed, an_event_answers_as_the_plain_heap,
    every_event_keeps_a_heap_well_formed,
};
use rh_core::laws::{a_command_leaves_the_cycle, heaps_answer_as_plain_heaps};
use rh_pace::laws::no_limits::within_its_bounds_a_program_meets_no_limit;
use rh_pace::laws::worked::a_queue_in_45_percent_of_the_space_has_room;
use rh_syntax::laws::what_is_spelled_is_read;
use std::alloc::Global;

/// The commands of a trace are those of its lines that are commands, in order: each stands after as
/// many as there are command lines before its own, and there are no others. So a trace of commands
/// alone is these, line by line.
pub fn the_commands_of_a_trace_stand_in_the_order_of_its_lines()
    ensures placed { (requests : List RequestOf) (i owner : ℕ) (command : CommandOf)
        → slice_get requests i ≡ Some (RequestOf.Command owner command)
        → slice_get (commands_in requests) (count_by is_command (take i requests))
        ≡ Some (owner, command) }
    ensures count { (requests : List RequestOf)
        → length (commands_in requests) ≡ count_by is_command requests }
    ensures alone { (requests : List RequestOf) → AreCommands requests
        → map (λ owned. RequestOf.Command owned.0 owned.1) (commands_in requests) ≡ requests }
{}

/// Of a trace with a line that is no command the first such line is told, with the fault Word. The
/// request at i stands on line i + 2.
pub fn the_first_line_that_is_no_command_is_told()
    ensures told { (requests : List RequestOf) (fault : FaultOf)
        → (other_fault 2 requests ≡ Some fault)
        ↔ ((i : ℕ) × IsFirstOther requests i × (fault ≡ fault_at (i + 2) Word)) }
    ensures none { (requests : List RequestOf)
        → (other_fault 2 requests ≡ None) ↔ AreCommands requests }
{}

/// The biggest object of a trace has as many words as the largest that a line allocates, its fields
/// and 2: none has more, and one has as many, unless all have 2, or there is none. One of more than
/// 4,095 fields, which every heap refuses, counts as one of 4,095.
pub fn the_biggest_object_is_the_largest_that_a_line_allocates()
    ensures bound { (requests : List RequestOf) (i owner : ℕ) (command : CommandOf)
        → slice_get requests i ≡ Some (RequestOf.Command owner command)
        → (dst : RootId) (shape : Shape) → made_by command ≡ Some (dst, shape)
        → min shape.fields 4095 + 2 ≤ biggest_of (commands_in requests) }
    ensures reached { (requests : List RequestOf) → (biggest_of (commands_in requests) ≡ 2)
        ⊎ ((i : ℕ) × (owner : ℕ) × (command : CommandOf) × (dst : RootId) × (shape : Shape)
        × (slice_get requests i ≡ Some (RequestOf.Command owner command))
        × (made_by command ≡ Some (dst, shape))
        × (biggest_of (commands_in requests) ≡ min shape.fields 4095 + 2)) }
    ensures range { (requests : List RequestOf) → (2 ≤ biggest_of (commands_in requests))
        × (biggest_of (commands_in requests) ≤ 4097) }
{}

/// A run at a mark has a pace: its cycles begin where fewer words than that mark are free, and each
/// store in a cycle pays as many units as a word that is allocated. Its log keeps as many entries
/// as the first line says.
pub fn a_run_at_a_mark_has_its_pace()
    ensures mark { (mark : ℕ) (script : Script) (pace : PaceOf)
        → IsPaceOf (Some mark) script (Ok pace) → pace.mark ≡ mark }
    ensures store { (mark : ℕ) (script : Script) (pace : PaceOf)
        → IsPaceOf (Some mark) script (Ok pace)
        → pace.store_units ≡ (new_run script pace).heap.work.ratio }
    ensures log { (mark : ℕ) (script : Script) (pace : PaceOf)
        → IsPaceOf (Some mark) script (Ok pace)
        → pace.log_limit ≡ (new_run script pace).heap.mutators.config.log_limit }
    ensures always { (mark : ℕ) (script : Script) → (pace : PaceOf)
        × IsPaceOf (Some mark) script (Ok pace) }
    ensures never { (mark : ℕ) (script : Script) (why : PaceErrorOf)
        → ¬ IsPaceOf (Some mark) script (Err why) }
{}

/// Each cycle that ends begins the next epoch, and is one flip of the sums: so these tell how many
/// cycles ended in the run, which a new heap begins in epoch 1.
pub fn a_summary_counts_the_cycles_that_ended()
    ensures flips { (s : PacedState) (commands : Commands)
        → (summary_to s commands).flips + s.heap.epoch
        ≡ s.heap.flips + (paced_after s commands).heap.epoch }
    ensures run { (script : Script) (pace : PaceOf)
        → (sum_of script pace).flips + 1
        ≡ (paced_after (new_run script pace) (commands_in script.requests)).heap.epoch }
{
    a_command_leaves_the_cycle();
    a_cycle_begins_with_nothing_placed();
    a_shade_leaves_the_cycle();
    a_deal_looks_at_as_many_as_it_may();
    a_give_leaves_the_cycle();
    idle_words_add_up();
    a_flip_ends_the_cycle();
    a_flip_is_refused_exactly_where_its_cycle_is_not_closed();
}

/// A trace of commands is a program that looks at no answer, and insists on no command: the next
/// command is that of the next line. So of its run all holds that is promised of every program on a
/// paced heap.
pub fn a_trace_is_a_program()
    ensures { (s : PacedState) (commands : Commands) → paced_replies s commands
        ≡ paced_answers (λ so_far. slice_get commands (length so_far)) (λ so_far. false)
        (length commands) s [] }
{}

/// No trace sees at which pace its heap collects: at any two paces its answers are the same, where
/// no limit refused in either run.
pub fn the_pace_is_seen_in_refusals_by_a_limit_alone()
    ensures { (script : Script) → fault_of (config_of script.header) ≡ None
        → (first second : PaceOf)
        → AreUnlimited (paced_replies (new_run script first) (commands_in script.requests))
        → AreUnlimited (paced_replies (new_run script second) (commands_in script.requests))
        → paced_replies (new_run script first) (commands_in script.requests)
        ≡ paced_replies (new_run script second) (commands_in script.requests) }
{
    heaps_answer_as_plain_heaps();
    a_new_heap_is_well_formed();
    an_event_answers_as_the_plain_heap::<Global>();
    every_event_keeps_a_heap_well_formed::<Global>();
    what_collectors_do_adds_up::<Global>();
}

/// Within its bounds a trace meets no limit: no line is refused for room, and what is printed is
/// what a heap answers that never moves its objects and never fills.
///
/// The bounds are told of the plain heap, which begins empty. No line makes an object of more than
/// the biggest words there, and after none are more words reached from the roots than may live. The
/// pace keeps up with these words, and the first line's log keeps more entries than the lag.
///
/// - `run`: of each run of an input, at a mark or by its sizes. An input has few enough lines.
/// - `by_sizes`: of a run without a mark, whose pace keeps up with the words that twice its mark
///   leaves. Its biggest object is the largest that a line allocates.
/// - `commands`: of a trace as it stands, with fewer commands than there are epochs.
/// - `worked`: a queue that fills 45 in 100 words of its space, at mark 609.
pub fn within_its_bounds_a_trace_meets_no_limit()
    ensures commands { (script : Script) → fault_of (config_of script.header) ≡ None
        → (live biggest : ℕ) (pace : PaceOf)
        → KeepsUp script.header.words live biggest script.header.ratio pace
        → lag_of pace biggest < script.header.log
        → AreBounded live biggest (empty_plain script.header.owners script.header.slots)
        (commands_in script.requests)
        → length (commands_in script.requests) < 2 ^ 62
        → AreUnlimited (paced_replies (new_run script pace) (commands_in script.requests))
        × (text_of script pace ≡ flat_map answer_line (plain_replies
        (empty_plain script.header.owners script.header.slots) (commands_in script.requests))
        ++ total_line (sum_of script pace)) }
    ensures run { (mark : Option ℕ) (input : List ℕ) (script : Script) (pace : PaceOf)
        → IsRun mark input script pace
        → (live biggest : ℕ) → KeepsUp script.header.words live biggest script.header.ratio pace
        → lag_of pace biggest < script.header.log
        → AreBounded live biggest (empty_plain script.header.owners script.header.slots)
        (commands_in script.requests)
        → AreUnlimited (paced_replies (new_run script pace) (commands_in script.requests))
        × (text_of script pace ≡ flat_map answer_line (plain_replies
        (empty_plain script.header.owners script.header.slots) (commands_in script.requests))
        ++ total_line (sum_of script pace)) }
    ensures by_sizes { (input : List ℕ) (script : Script) (pace : PaceOf)
        → IsRun None input script pace
        → lag_of pace (biggest_of (commands_in script.requests)) < script.header.log
        → AreBounded (words_left script.header.words pace)
        (biggest_of (commands_in script.requests))
        (empty_plain script.header.owners script.header.slots) (commands_in script.requests)
        → AreUnlimited (paced_replies (new_run script pace) (commands_in script.requests))
        × (text_of script pace ≡ flat_map answer_line (plain_replies
        (empty_plain script.header.owners script.header.slots) (commands_in script.requests))
        ++ total_line (sum_of script pace)) }
    ensures worked { (rounds : ℕ) → rounds < 2 ^ 59
        → AreUnlimited (paced_replies
        (new_run (queue_script rounds) (pace_at 609 (queue_script rounds).header))
        (commands_in (queue_script rounds).requests)) }
{
    within_its_bounds_a_program_meets_no_limit::<Global>();
    a_queue_in_45_percent_of_the_space_has_room::<Global>();
    what_is_spelled_is_read();
}
