//! Laws of heaps that are given other words.

ghost use Rattle.std.specs.Prelude.{◌≡◌, ◌+◌, ◌≤◌, ℕ, false, Some, None};
ghost use Rattle.rh_space.specs.Space.{free_words, used_words};
ghost use Rattle.rh_pace.specs.InTime.{IsInTime};
ghost use Rattle.rh_pace.specs.KeptUp.{IsKept};
ghost use Rattle.rh_pace.specs.Pace.{CanKeepUp, KeepsUp, words_left};
ghost use Rattle.rh_pace.specs.Paced.{PacedState};
ghost use Rattle.rh_pace.specs.Resizing.{LeavesNoLess};
ghost use Rattle.rheap_c.specs.Opened.{IsFillingPace, IsOpened, IsPaceFor, Opens, config_at};
ghost use Rattle.rheap_c.specs.Resized.{PaysRatio, ResizesFor, ResizesSized};
ghost use Rattle.rheap_c.specs.Room.{FindsRoom};

use rh_core::laws::cycles::a_flip_is_refused_exactly_where_its_cycle_is_not_closed;
use rh_core::laws::gives::classes_are_told_apart;
use rh_core::laws::runs::{a_new_heap_is_well_formed, every_event_keeps_a_heap_well_formed};
use std::alloc::Global;

/// A heap that was given other words finds room as one that is opened with them, from then on: calls
/// within the bounds that the resize names find room. It is the heap with status 0.
///
/// - `resized`: by `rheap_resize`, where no cycle was on and the new mark is free beside the words in
///   use.
/// - `sized`: so by `rheap_resize_sized`, where as many words may live as its pace leaves.
/// - `goes_on`: by `rheap_resize` at any moment, where the heap collected in time before, with the same
///   bounds, and no fewer words than before stand beside the mark.
/// - `keeps_up`, `keeps_up_sized`: the heap has a pace that keeps up, by `rheap_resize_sized` with as many
///   words as it leaves, so that it is in time from the first moment on at which no cycle is on and the
///   mark is free (`once_free`).
/// - `kept`, `kept_sized`: the heap keeps what a heap keeps between two calls.
/// - `pays`, `pays_sized`: a store pays what the ratio says, if it did before, whatever the status.
/// - `open`, `open_sized`: so it is of the heaps that these calls open.
/// - `in_time`: all heaps find room that collect in time.
pub fn a_resized_heap_finds_room()
    ensures resized { (words live biggest : ℕ) (s t : PacedState)
        → ResizesFor words live biggest (Some s) (Some t) 0
        → PaysRatio s → s.heap.mutators.cycle ≡ false
        → used_words s.heap.mutators.space.objects + t.pace.mark ≤ words
        → FindsRoom live biggest t }
    ensures sized { (words biggest : ℕ) (s t : PacedState)
        → ResizesSized words biggest (Some s) (Some t) 0
        → PaysRatio s → s.heap.mutators.cycle ≡ false
        → used_words s.heap.mutators.space.objects + t.pace.mark ≤ words
        → FindsRoom (words_left words t.pace) biggest t }
    ensures goes_on { (words live biggest : ℕ) (s t : PacedState)
        → ResizesFor words live biggest (Some s) (Some t) 0
        → IsInTime live biggest s → LeavesNoLess s words t.pace → FindsRoom live biggest t }
    ensures keeps_up { (words live biggest : ℕ) (s t : PacedState)
        → ResizesFor words live biggest (Some s) (Some t) 0
        → PaysRatio s → KeepsUp t.heap.mutators.config.words live biggest
        t.heap.mutators.config.ratio t.pace }
    ensures keeps_up_sized { (words biggest : ℕ) (s t : PacedState)
        → ResizesSized words biggest (Some s) (Some t) 0
        → PaysRatio s → KeepsUp t.heap.mutators.config.words (words_left words t.pace) biggest
        t.heap.mutators.config.ratio t.pace }
    ensures once_free { (live biggest : ℕ) (s : PacedState) → IsKept s
        → KeepsUp s.heap.mutators.config.words live biggest s.heap.mutators.config.ratio s.pace
        → s.heap.mutators.cycle ≡ false → s.pace.mark ≤ free_words s.heap.mutators.space
        → FindsRoom live biggest s }
    ensures kept { (words live biggest : ℕ) (s t : PacedState)
        → ResizesFor words live biggest (Some s) (Some t) 0 → IsKept t }
    ensures kept_sized { (words biggest : ℕ) (s t : PacedState)
        → ResizesSized words biggest (Some s) (Some t) 0 → IsKept t }
    ensures pays { (words live biggest status : ℕ) (s t : PacedState)
        → ResizesFor words live biggest (Some s) (Some t) status → PaysRatio s → PaysRatio t }
    ensures pays_sized { (words biggest status : ℕ) (s t : PacedState)
        → ResizesSized words biggest (Some s) (Some t) status → PaysRatio s → PaysRatio t }
    ensures open { (words live biggest ratio owners slots status : ℕ) (s : PacedState)
        → IsOpened (Opens (IsPaceFor words live biggest ratio) (CanKeepUp words live biggest ratio)
        (λ pace. config_at pace words ratio owners slots)) None (Some s) status → PaysRatio s }
    ensures open_sized { (words biggest ratio owners slots status : ℕ) (s : PacedState)
        → IsOpened (Opens (IsFillingPace words biggest ratio)
        (CanKeepUp words (biggest + 1) biggest ratio)
        (λ pace. config_at pace words ratio owners slots)) None (Some s) status → PaysRatio s }
    ensures in_time { (live biggest : ℕ) (s : PacedState) → IsKept s → IsInTime live biggest s
        → FindsRoom live biggest s }
{
    every_event_keeps_a_heap_well_formed::<Global>();
    a_new_heap_is_well_formed();
    classes_are_told_apart();
    a_flip_is_refused_exactly_where_its_cycle_is_not_closed();
}
