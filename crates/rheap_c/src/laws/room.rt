//! Laws of the room that calls find.

ghost use Rattle.std.specs.Prelude.{◌≡◌, ◌↔◌, ◌+◌, ◌<◌, ℕ, ℤ, false, All, List, [], ◌∷◌, map, Option, Some, None};
ghost use Rattle.rh_layout.specs.declared.command.Command.{Command};
ghost use Rattle.rh_layout.specs.declared.command.Command.TheVariants.{Alloc, Load, Raw, Same};
ghost use Rattle.rh_layout.specs.declared.command.RootId.{RootId};
ghost use Rattle.rh_model.specs.Graph.{refusal_of};
ghost use Rattle.rh_model.specs.Plain.{PlainHeap, empty_plain, graph_of};
ghost use Rattle.rh_pace.specs.Collecting.{insist_step};
ghost use Rattle.rh_pace.specs.InTime.{StayWithin};
ghost use Rattle.rh_pace.specs.Pace.{CanKeepUp, KeepsUp, lag_of, words_left};
ghost use Rattle.rh_pace.specs.Paced.{PacedState, paced_step};
ghost use Rattle.rh_pace.specs.PlainBounds.{AreBounded};
ghost use Rattle.rh_pace.specs.Reachable.{ReachesAtMost};
ghost use Rattle.rh_mutator.specs.declared.config.Config.{Config};
ghost use Rattle.rh_mutator.specs.StoringAll.{number_stores};
ghost use Rattle.rh_pace.specs.declared.pace.Pace.{Pace};
ghost use Rattle.rheap_c.specs.Called.{IsDone};
ghost use Rattle.rheap_c.specs.Insisted.{IsInsisted};
ghost use Rattle.rheap_c.specs.Numbers.{room_in};
ghost use Rattle.rheap_c.specs.Opened.{IsFillingPace, IsNew, IsOpened, IsPaceFor, Opens, config_at};
ghost use Rattle.rheap_c.specs.Read.{graph_in};
ghost use Rattle.rheap_c.specs.Room.{AlwaysFindRoom, AlwaysFindSpace, AreCallsBounded, CallsStayWithin, FindRoomIfFit, FindRoomIfFitToLimit, FindRoomToLimit, InsistsOnNothing, IsBoundAs, IsRefusedFor, RowFits};
ghost use Rattle.rheap_c.specs.Rows.{plain_refusal, ready_for, row_refusal};
ghost use Rattle.rheap_c.specs.Runs.{Answer, Call, AreMade, doing};
ghost use Rattle.rheap_c.specs.Runs.Call.{Loads, Compares, InsistsOn, CollectsNow, IncrementsNow, Peeks, ReadsField, ReadsRoot, Counts, TellsNumbers, StoresInts, InsistsOnInts, LoadsInts, LoadsText};

use rh_core::laws::cycles::a_flip_is_refused_exactly_where_its_cycle_is_not_closed;
use rh_core::laws::gives::classes_are_told_apart;
use rh_core::laws::heaps_answer_as_plain_heaps;
use rh_core::laws::holds::what_collectors_do_adds_up;
use rh_core::laws::runs::{
    a_new_heap_is_well_formed, an_event_answers_as_the_plain_heap,
    every_event_keeps_a_heap_well_formed,
};
use rh_pace::laws::calls::increments_and_collections_are_collector_work;
use std::alloc::Global;

/// It keeps up. From an open on, calls within the bounds of the pace find room: no status is 8 or 9,
/// unless the epochs were spent before that call.
///
/// The bounds are these. No object has more words than the biggest, its fields and 2. Wherever a
/// cycle begins, also one of a collection, no more words are reached than may live. The log keeps
/// more entries than the lag of the pace. Only a call that stores more numbers in a row than the
/// log keeps entries beyond the lag may have status 9; a text is a row of its numbers. One that
/// insists never has.
///
/// - `open`: on a heap of `rheap_open`, where `live` words may live.
/// - `open_sized`: on a heap of `rheap_open_sized`, where as many may live as its pace leaves.
/// - `open_space`, `open_sized_space`: whatever the log keeps no status is 8, where no call insists.
/// - `new`: on any new heap at a pace that keeps up.
/// - `fit`: where no call stores such a row, all of them find room.
/// - `commands`: both of a list of commands.
pub fn calls_within_bounds_find_room()
    ensures open { (words live biggest ratio owners slots status : ℕ) (s : PacedState)
        → IsOpened (Opens (IsPaceFor words live biggest ratio) (CanKeepUp words live biggest ratio)
        (λ pace. config_at pace words ratio owners slots)) None (Some s) status
        → (new : Option PacedState) (calls : List Call) (answers : List Answer)
        → AreMade (Some s) new calls answers → CallsStayWithin live biggest s calls
        → lag_of s.pace biggest < s.heap.mutators.config.log_limit
        → FindRoomIfFit biggest s calls answers }
    ensures open_space { (words live biggest ratio owners slots status : ℕ) (s : PacedState)
        → IsOpened (Opens (IsPaceFor words live biggest ratio) (CanKeepUp words live biggest ratio)
        (λ pace. config_at pace words ratio owners slots)) None (Some s) status
        → (new : Option PacedState) (calls : List Call) (answers : List Answer)
        → AreMade (Some s) new calls answers → CallsStayWithin live biggest s calls
        → All InsistsOnNothing calls → AlwaysFindSpace s calls answers }
    ensures open_sized { (words biggest ratio owners slots status : ℕ) (s : PacedState)
        → IsOpened (Opens (IsFillingPace words biggest ratio)
        (CanKeepUp words (biggest + 1) biggest ratio)
        (λ pace. config_at pace words ratio owners slots)) None (Some s) status
        → (new : Option PacedState) (calls : List Call) (answers : List Answer)
        → AreMade (Some s) new calls answers
        → CallsStayWithin (words_left words s.pace) biggest s calls
        → lag_of s.pace biggest < s.heap.mutators.config.log_limit
        → FindRoomIfFit biggest s calls answers }
    ensures open_sized_space { (words biggest ratio owners slots status : ℕ) (s : PacedState)
        → IsOpened (Opens (IsFillingPace words biggest ratio)
        (CanKeepUp words (biggest + 1) biggest ratio)
        (λ pace. config_at pace words ratio owners slots)) None (Some s) status
        → (new : Option PacedState) (calls : List Call) (answers : List Answer)
        → AreMade (Some s) new calls answers
        → CallsStayWithin (words_left words s.pace) biggest s calls
        → All InsistsOnNothing calls → AlwaysFindSpace s calls answers }
    ensures new { (config : Config) (pace : Pace) (s : PacedState) → IsNew config pace s
        → (live biggest : ℕ) → KeepsUp config.words live biggest config.ratio pace
        → lag_of pace biggest < config.log_limit
        → (new : Option PacedState) (calls : List Call) (answers : List Answer)
        → AreMade (Some s) new calls answers → CallsStayWithin live biggest s calls
        → FindRoomIfFit biggest s calls answers }
    ensures fit { (biggest : ℕ) (s : PacedState) (calls : List Call) (answers : List Answer)
        → FindRoomIfFit biggest s calls answers
        → All (RowFits (lag_of s.pace biggest) s.heap.mutators.config.log_limit) calls
        → AlwaysFindRoom s calls answers }
    ensures commands { (config : Config) (pace : Pace) (s : PacedState) → IsNew config pace s
        → (live biggest : ℕ) → KeepsUp config.words live biggest config.ratio pace
        → (new : Option PacedState) (given : List (ℕ × Command)) (answers : List Answer)
        → AreMade (Some s) new (map doing given) answers → StayWithin live biggest s given
        → AlwaysFindSpace s (map doing given) answers
        × (lag_of pace biggest < config.log_limit → AlwaysFindRoom s (map doing given) answers) }
{
    every_event_keeps_a_heap_well_formed::<Global>();
    a_new_heap_is_well_formed();
    classes_are_told_apart();
    a_flip_is_refused_exactly_where_its_cycle_is_not_closed();
}

/// The same in the view of a program, which need not know that there is a collector. Its bounds are
/// told of a plain heap, which never collects: no command makes an object of more than the biggest
/// words, and after none are more words reached than may live. Then no status is 8 or 9, unless the
/// epochs were spent before that call. It is so up to the first status of a limit.
///
/// - `calls`: of any calls, but for a row of more numbers than the log keeps entries beyond the
///   lag. A row that is stored is the list of its stores there. Where a call collects, no more words
///   are reached than may live.
/// - `commands`: of a list of commands.
pub fn calls_bounded_on_a_plain_heap_find_room()
    ensures calls { (config : Config) (pace : Pace) (s : PacedState) → IsNew config pace s
        → (live biggest : ℕ) → KeepsUp config.words live biggest config.ratio pace
        → lag_of pace biggest < config.log_limit
        → (new : Option PacedState) (calls : List Call) (answers : List Answer)
        → AreMade (Some s) new calls answers
        → AreCallsBounded live biggest (empty_plain config.owners config.slots) calls
        → FindRoomIfFitToLimit biggest s calls answers }
    ensures commands { (config : Config) (pace : Pace) (s : PacedState) → IsNew config pace s
        → (live biggest : ℕ) → KeepsUp config.words live biggest config.ratio pace
        → lag_of pace biggest < config.log_limit
        → (new : Option PacedState) (given : List (ℕ × Command)) (answers : List Answer)
        → AreMade (Some s) new (map doing given) answers
        → AreBounded live biggest (empty_plain config.owners config.slots) given
        → FindRoomToLimit s (map doing given) answers }
{
    every_event_keeps_a_heap_well_formed::<Global>();
    an_event_answers_as_the_plain_heap::<Global>();
    what_collectors_do_adds_up::<Global>();
    increments_and_collections_are_collector_work::<Global>();
    a_new_heap_is_well_formed();
    heaps_answer_as_plain_heaps();
    classes_are_told_apart();
    a_flip_is_refused_exactly_where_its_cycle_is_not_closed();
}

/// The bounds of calls are those of what they do, on a heap and on a plain heap.
///
/// - `commands`, `bounded`: calls that do a list of commands, and tell a status alone, have the
///   bounds of the list.
/// - `load`, `compare`, `insist`: one call has those of its command.
/// - `row`, `row_bounded`: a row has those of its stores, unless it is refused.
/// - `insisted_row`, `insisted_row_bounded`: one that is insisted on has those of the row, on the
///   heap that is ready for it, and on the same plain heap.
/// - `collect`: a collection is bounded by what is reached, on a heap only where no cycle is on.
/// - `others`, `others_bounded`: all further calls are within any bounds.
pub fn calls_stay_within_as_their_commands()
    ensures commands { (live biggest : ℕ) (s : PacedState) (given : List (ℕ × Command))
        → CallsStayWithin live biggest s (map doing given) ↔ StayWithin live biggest s given }
    ensures bounded { (live biggest : ℕ) (p : PlainHeap) (given : List (ℕ × Command))
        → AreCallsBounded live biggest p (map doing given) ↔ AreBounded live biggest p given }
    ensures load { (live biggest owner : ℕ) (dst src : RootId) (field : ℕ)
        → IsBoundAs live biggest (Loads owner dst src field) owner (Load dst src field) }
    ensures compare { (live biggest owner : ℕ) (r q : RootId)
        → IsBoundAs live biggest (Compares owner r q) owner (Same r q) }
    ensures insist { (live biggest owner : ℕ) (command : Command)
        → IsBoundAs live biggest (InsistsOn owner command) owner command }
    ensures row { (live biggest : ℕ) (s : PacedState)
        → (owner : ℕ) (object : RootId) (from : ℕ) (numbers : List ℤ)
        → CallsStayWithin live biggest s (StoresInts owner object from numbers ∷ [])
        ↔ (row_refusal s owner object from numbers ≡ None
        → StayWithin live biggest s (number_stores owner object from numbers)) }
    ensures insisted_row { (live biggest : ℕ) (s : PacedState)
        → (owner : ℕ) (object : RootId) (from : ℕ) (numbers : List ℤ)
        → CallsStayWithin live biggest s (InsistsOnInts owner object from numbers ∷ [])
        ↔ CallsStayWithin live biggest (ready_for s owner object from numbers)
        (StoresInts owner object from numbers ∷ []) }
    ensures row_bounded { (live biggest : ℕ) (p : PlainHeap)
        → (owner : ℕ) (object : RootId) (from : ℕ) (numbers : List ℤ)
        → AreCallsBounded live biggest p (StoresInts owner object from numbers ∷ [])
        ↔ (plain_refusal p (number_stores owner object from numbers) ≡ None
        → AreBounded live biggest p (number_stores owner object from numbers)) }
    ensures insisted_row_bounded { (live biggest : ℕ) (p : PlainHeap)
        → (owner : ℕ) (object : RootId) (from : ℕ) (numbers : List ℤ)
        → AreCallsBounded live biggest p (InsistsOnInts owner object from numbers ∷ [])
        ↔ AreCallsBounded live biggest p (StoresInts owner object from numbers ∷ []) }
    ensures collect { (live biggest : ℕ) (s : PacedState)
        → CallsStayWithin live biggest s (CollectsNow ∷ [])
        ↔ (s.heap.mutators.cycle ≡ false → ReachesAtMost (graph_in s) live) }
    ensures collect_bounded { (live biggest : ℕ) (p : PlainHeap)
        → AreCallsBounded live biggest p (CollectsNow ∷ []) ↔ ReachesAtMost (graph_of p) live }
    ensures others { (live biggest : ℕ) (s : PacedState)
        → (owner : ℕ) (root : RootId) (field : ℕ) (numbers : List ℤ) (text : List ℕ)
        → CallsStayWithin live biggest s (IncrementsNow ∷ Peeks owner root field
        ∷ ReadsField root field ∷ ReadsRoot root ∷ Counts root ∷ TellsNumbers
        ∷ LoadsInts owner root field numbers ∷ LoadsText owner root field text ∷ []) }
    ensures others_bounded { (live biggest : ℕ) (p : PlainHeap)
        → (owner : ℕ) (root : RootId) (field : ℕ) (numbers : List ℤ) (text : List ℕ)
        → AreCallsBounded live biggest p (IncrementsNow ∷ Peeks owner root field
        ∷ ReadsField root field ∷ ReadsRoot root ∷ Counts root ∷ TellsNumbers
        ∷ LoadsInts owner root field numbers ∷ LoadsText owner root field text ∷ []) }
{}

/// Status 8 is the refusal `SpaceFull` with the numbers that `rheap_room` tells next, of which more
/// is needed than is free.
///
/// - `full`, `raw_full`: a new object has it exactly where nothing that its call asks is refused,
///   and it needs more words than are free, by the numbers that `rheap_room` tells before the call.
/// - `alloc`, `raw`: of a new object.
/// - `insist`, `insist_raw`: of one that was insisted on, where these are the numbers after the
///   collections.
pub fn a_refusal_for_room_has_the_numbers_of_rheap_room()
    ensures full { (old new : PacedState) (owner : ℕ) (dst : RootId) (fields status : ℕ)
        → IsDone (Some old) (Some new) owner (Alloc dst fields) status
        → (status ≡ 8) ↔ ((refusal_of (graph_in old) owner (Alloc dst fields) ≡ None)
        × ((room_in fields old).free < (room_in fields old).need)) }
    ensures raw_full { (old new : PacedState) (owner : ℕ) (dst : RootId) (fields status : ℕ)
        → IsDone (Some old) (Some new) owner (Raw dst fields) status
        → (status ≡ 8) ↔ ((refusal_of (graph_in old) owner (Raw dst fields) ≡ None)
        × ((room_in fields old).free < (room_in fields old).need)) }
    ensures alloc { (old new : PacedState) (owner : ℕ) (dst : RootId) (fields : ℕ)
        → IsDone (Some old) (Some new) owner (Alloc dst fields) 8
        → IsRefusedFor (room_in fields new) (paced_step old owner (Alloc dst fields)).1 }
    ensures raw { (old new : PacedState) (owner : ℕ) (dst : RootId) (fields : ℕ)
        → IsDone (Some old) (Some new) owner (Raw dst fields) 8
        → IsRefusedFor (room_in fields new) (paced_step old owner (Raw dst fields)).1 }
    ensures insist { (old new : PacedState) (owner : ℕ) (dst : RootId) (fields : ℕ)
        → IsInsisted (Some old) (Some new) owner (Alloc dst fields) 8
        → IsRefusedFor (room_in fields new) (insist_step old owner (Alloc dst fields)).1 }
    ensures insist_raw { (old new : PacedState) (owner : ℕ) (dst : RootId) (fields : ℕ)
        → IsInsisted (Some old) (Some new) owner (Raw dst fields) 8
        → IsRefusedFor (room_in fields new) (insist_step old owner (Raw dst fields)).1 }
{}
