//! Laws of the requests of a trace, run one after the other.

ghost use Rattle.std.specs.Prelude.{◌≡◌, ℕ, ◌^◌, List, [], ◌++◌, Some};
ghost use Rattle.std.specs.List.{AllByRecursion};
ghost use Rattle.rh_layout.specs.declared.command.RootId.{RootId};
ghost use Rattle.rh_layout.specs.declared.item.Item.{Item};
ghost use Rattle.rh_layout.specs.declared.kind.Kind.{Kind as PieceKind};
ghost use Rattle.rh_core.specs.Giving.{HaveDistinctPlaces};
ghost use Rattle.rh_model.specs.Plain.{PlainHeap};
ghost use Rattle.rh_core.specs.Mutator.{StandsFor};
ghost use Rattle.rh_core.specs.Heap.{new_heap, IsWellFormed};
ghost use Rattle.rh_core.specs.runs.Stores.{IsStoreList};
ghost use Rattle.rh_core.specs.runs.Run.{answers_of, heap_after};
ghost use Rattle.rh_core.specs.Stat.{stat_of};
ghost use Rattle.rh_core.specs.Watching.{with_watches};
ghost use Rattle.rh_watches.specs.Watches.{WatchTable};
ghost use Rattle.rh_trace.specs.Answers as answers;
ghost use Rattle.rh_engine.specs.Engine.{EngineState, deal_line_step, gone_line_step, give_line_step, join_line_step, resize_line_step, tickets_line_step, unwatch_line_step, watch_line_step};
ghost use Rattle.rh_trace.specs.Events.{events_of, request_events, ChangesByEvents, IsOfWatches, MayChangeTrays, TellsAnswer};
ghost use Rattle.rh_heap_dump.specs.HeapDump.{dump_of};
ghost use Rattle.rh_trace.specs.Run.{config_of, answers_to, engine_after, new_run, request_step};
ghost use Rattle.rh_syntax.specs.Spelling.{Script};
ghost use Rattle.rh_engine.specs.Trays.{Tray, tray_named, AreFewInOrder};
ghost use Rattle.rh_syntax.specs.declared.line.Header.{Header as HeaderOf};
ghost use Rattle.rh_syntax.specs.declared.request.Request.{Request as RequestOf};
ghost use Rattle.rh_syntax.specs.declared.request.Request.TheVariants as forms;

use std::alloc::Allocator;

/// Where no request of a trace is a resize or a line of watches, the heap after them is the heap
/// after the events that they are to it. What is answered to a request that is an event is what the
/// heap answers to its event. So what is promised of every run of events holds of every trace that
/// has no such line, and of the parts of any other: see [`a_trace_stands_in_parts`]. A promise that
/// asks of a replica that no two of its entries are of one place holds too: see
/// [`the_trays_of_a_trace_stand_in_order`].
pub fn the_lines_of_a_trace_are_events<A: Allocator + Copy>()
    ensures heap { (e : EngineState) (requests : List RequestOf)
        → AllByRecursion ChangesByEvents requests
        → (engine_after e requests).heap
        ≡ heap_after {A = A} e.heap (events_of {A = A} e requests) }
    ensures answer { (e : EngineState) (request : RequestOf)
        → TellsAnswer (answers_of {A = A} e.heap (request_events {A = A} e request))
        (request_step e request).1 }
{}

/// The requests of a trace may be taken in two parts: the second goes on from the heap and the trays
/// that the first leaves. So a trace with `resize` lines or lines of watches is runs of events, each
/// from the heap that the line before it leaves.
pub fn a_trace_stands_in_parts()
    ensures engine { (e : EngineState) (before after : List RequestOf)
        → engine_after e (before ++ after) ≡ engine_after (engine_after e before) after }
    ensures answered { (e : EngineState) (before after : List RequestOf)
        → answers_to e (before ++ after)
        ≡ answers_to e before ++ answers_to (engine_after e before) after }
{}

/// A resize is the engine's step, and no event: whether there is memory for it isn't told by the
/// heap, and where there is none the run ends. It leaves a well-formed heap well formed, and the
/// heap goes on to stand for each plain heap that it stands for, and to have each of its store
/// lists. So what is promised of every run from such a heap holds of the requests after it.
pub fn a_resize_leaves_what_a_heap_stands_for()
    ensures step { (e : EngineState) (words : ℕ)
        → request_step e (forms.Resize words) ≡ (
          (resize_line_step e words).0,
          answers.Resize (resize_line_step e words).1,
        ) }
    ensures heap { (e : EngineState) (words : ℕ) → IsWellFormed e.heap
        → IsWellFormed (request_step e (forms.Resize words)).0.heap }
    ensures stands { (e : EngineState) (words : ℕ) (p : PlainHeap)
        → StandsFor e.heap.mutators p
        → StandsFor (request_step e (forms.Resize words)).0.heap.mutators p }
    ensures stores { (e : EngineState) (words : ℕ) (stores : List Item)
        → IsStoreList e.heap stores
        → IsStoreList (request_step e (forms.Resize words)).0.heap stores }
{}

/// A line of watches is the engine's step, and no event: nothing but tickets changes by it. It leaves
/// a well-formed heap well formed, and the heap goes on to stand for each plain heap that it stands
/// for, and to have each of its store lists. So what is promised of every run from such a heap holds
/// of the requests after it.
pub fn a_line_of_watches_leaves_what_a_heap_stands_for()
    ensures step { (e : EngineState) (owner tickets ticket : ℕ) (root : RootId)
        → (request_step e (forms.Tickets tickets) ≡ (
          (tickets_line_step e tickets).0,
          answers.Tickets (tickets_line_step e tickets).1,
        ))
        × (request_step e (forms.Watch owner root) ≡ (
          (watch_line_step e owner root).0,
          answers.Watch (watch_line_step e owner root).1,
        ))
        × (request_step e (forms.Unwatch ticket) ≡ (
          (unwatch_line_step e ticket).0,
          answers.Unwatch (unwatch_line_step e ticket).1,
        ))
        × (request_step e forms.Gone
        ≡ ((gone_line_step e).0, answers.Gone (gone_line_step e).1)) }
    ensures alone { (e : EngineState) (request : RequestOf) → IsOfWatches request
        → (t : WatchTable)
        × ((request_step e request).0.heap ≡ with_watches e.heap t) }
    ensures heap { (e : EngineState) (request : RequestOf) → IsOfWatches request
        → IsWellFormed e.heap → IsWellFormed (request_step e request).0.heap }
    ensures stands { (e : EngineState) (request : RequestOf) → IsOfWatches request
        → (p : PlainHeap) → StandsFor e.heap.mutators p
        → StandsFor (request_step e request).0.heap.mutators p }
    ensures stores { (e : EngineState) (request : RequestOf) → IsOfWatches request
        → (stores : List Item) → IsStoreList e.heap stores
        → IsStoreList (request_step e request).0.heap stores }
{}

/// A trace begins with a new heap of the sizes of its first line, 2^62 store numbers and 2^62
/// epochs, and with no trays.
pub fn a_trace_has_the_heap_of_its_first_line()
    ensures words { (header : HeaderOf) → (config_of header).words ≡ header.words }
    ensures ratio { (header : HeaderOf) → (config_of header).ratio ≡ header.ratio }
    ensures owners { (header : HeaderOf) → (config_of header).owners ≡ header.owners }
    ensures slots { (header : HeaderOf) → (config_of header).slots ≡ header.slots }
    ensures log { (header : HeaderOf) → (config_of header).log_limit ≡ header.log }
    ensures numbers { (header : HeaderOf) → (config_of header).last_number ≡ 2 ^ 62 }
    ensures epochs { (header : HeaderOf) → (config_of header).last_epoch ≡ 2 ^ 62 }
    ensures run { (script : Script)
        → (new_run script).heap ≡ new_heap (config_of script.header) }
    ensures trays { (script : Script) → (new_run script).trays ≡ [] }
{}

/// A deal, a give and a join are the steps of the engine on the trays that they name, of which the
/// laws of trays tell.
pub fn lines_of_trays_are_their_steps()
    ensures dealt { (e : EngineState) (kind : PieceKind) (most : ℕ) (tray : List ℕ)
        → request_step e (forms.Deal kind most tray) ≡ (
          (deal_line_step e kind most tray).0,
          answers.Deal (deal_line_step e kind most tray).1,
        ) }
    ensures given { (e : EngineState) (tray : List ℕ)
        → request_step e (forms.Give tray) ≡ (
          (give_line_step e tray).0,
          answers.Give (give_line_step e tray).1,
        ) }
    ensures joined { (e : EngineState) (into other : List ℕ)
        → request_step e (forms.Join into other) ≡ (
          (join_line_step e into other).0,
          answers.Join (join_line_step e into other).1,
        ) }
{}

/// A request leaves the trays as they are, unless it is a deal or a join, and a join leaves the
/// heap. A listing is answered the trays, a `stat` the numbers of the heap and a `dump` its dump,
/// and they change nothing.
pub fn lines_that_are_no_events_leave_the_heap()
    ensures trays { (e : EngineState) (request : RequestOf) → (MayChangeTrays request → ⊥)
        → (request_step e request).0.trays ≡ e.trays }
    ensures heap { (e : EngineState) (into other : List ℕ)
        → (request_step e (forms.Join into other)).0.heap ≡ e.heap }
    ensures listed { (e : EngineState)
        → request_step e forms.Trays ≡ (e, answers.Listing e.trays) }
    ensures counted { (e : EngineState)
        → request_step e forms.Stat ≡ (e, answers.Numbers (stat_of e.heap)) }
    ensures dumped { (e : EngineState)
        → request_step e forms.Dump ≡ (e, answers.Dump (dump_of e.heap)) }
{}

/// Where the entries of each tray stand in order of place and there are at most 64 trays, it is so
/// after all requests, and a trace begins with no trays. So after any requests of a trace no two
/// entries of a tray are of one place, as some promises ask of a replica that is given.
pub fn the_trays_of_a_trace_stand_in_order()
    ensures stay { (e : EngineState) (requests : List RequestOf) → AreFewInOrder e.trays
        → AreFewInOrder (engine_after e requests).trays }
    ensures run { (script : Script) (requests : List RequestOf)
        → AreFewInOrder (engine_after (new_run script) requests).trays }
    ensures places { (script : Script) (requests : List RequestOf) (name : List ℕ) (t : Tray)
        → tray_named (engine_after (new_run script) requests).trays name ≡ Some t
        → HaveDistinctPlaces t.entries }
{}
