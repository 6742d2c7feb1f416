//! Laws of lists of calls on a handle of a heap that grows.

ghost use Rattle.std.specs.Prelude.{◌≡◌, ◌≤◌, ℕ, All, List, Option, Some, None, IfSome};
ghost use Rattle.rh_layout.specs.declared.command.Command.{Command};
ghost use Rattle.rh_model.specs.Plain.{PlainHeap};
ghost use Rattle.rh_mutator.specs.Mutator.{StandsFor};
ghost use Rattle.rh_pace.specs.Paced.{PacedState};
ghost use Rattle.rh_pace.specs.Reaching.{AreEpochsSpent};
ghost use Rattle.rh_core.specs.runs.Progress.{words_made};
ghost use Rattle.rh_growing.specs.Growing.{GrowingState, IsGrowingInTime};
ghost use Rattle.rheap_c.specs.declared.handle.Rheap.{Rheap};
ghost use Rattle.rheap_c.specs.Grown.{IsGrownDone};
ghost use Rattle.rheap_c.specs.GrownRuns.{AreGrownMade, AreMadeOn, AreSeenAsPlain};
ghost use Rattle.rheap_c.specs.Handle.{HoldsOne};
ghost use Rattle.rheap_c.specs.Runs.{Answer, Call, AreMade};

/// The calls on a handle are calls on the one heap that it keeps, so that the laws on these speak
/// of them.
///
/// - `fixed`: where it keeps a heap of fixed sizes, they are calls on that. The other part of the
///   handle stays.
/// - `growing`: where it keeps none, they are calls on the heap that grows, or on none, and no heap
///   of fixed sizes is there after them.
/// - `one`: a handle that holds one heap at most goes on so.
pub fn calls_on_a_handle_are_calls_on_its_heap()
    ensures fixed { (s : PacedState) (old new : Rheap) (calls : List Call) (answers : List Answer)
        → old.fixed.state ≡ Some s → AreMadeOn old new calls answers
        → AreMade (Some s) new.fixed.state calls answers
        × (new.growing.state ≡ old.growing.state) }
    ensures growing { (old new : Rheap) (calls : List Call) (answers : List Answer)
        → old.fixed.state ≡ None → AreMadeOn old new calls answers
        → (new.fixed.state ≡ None)
        × AreGrownMade old.growing.state new.growing.state calls answers }
    ensures one { (old new : Rheap) (calls : List Call) (answers : List Answer)
        → AreMadeOn old new calls answers → HoldsOne old → HoldsOne new }
{}

/// No program in C sees that the heap collects, nor that it grows, but by the calls that tell numbers of
/// the heap, by its picture, by the status of `rheap_release` and by those of limits. Where its heap stands for a plain heap, which
/// never moves its objects and has room for all, what its calls tell is what that answers, one by
/// one, and the heap is left standing for what the plain heap is after them. It says so of a heap
/// that grows what `no_program_in_c_sees_that_the_heap_collects` says of one of fixed sizes.
pub fn no_program_in_c_sees_that_the_heap_grows()
    ensures { (s : GrowingState) (new : Option GrowingState) (calls : List Call)
        (answers : List Answer) (p : PlainHeap) → AreGrownMade (Some s) new calls answers
        → StandsFor s.paced.heap.mutators p → AreSeenAsPlain new p calls answers }
{}

/// Where no heap is open, none is open after the calls, and each status is 12.
pub fn calls_on_no_heap_do_nothing()
    ensures { (new : Option GrowingState) (calls : List Call) (answers : List Answer)
        → AreGrownMade None new calls answers
        → (new ≡ None) × All (λ answer. answer.status ≡ 12) answers }
{}

/// As long as a heap that grows is in time and doesn't say that it is short, a call that does a
/// command and makes no object above the biggest finds room in its space, however many words live,
/// until the epochs are spent. And it is in time after the call.
pub fn a_heap_that_grows_has_room_unless_it_is_short()
    ensures room { (s : GrowingState) (new : Option GrowingState) (owner : ℕ) (command : Command)
        (status : ℕ) → IsGrowingInTime s → s.short ≡ None
        → words_made command ≤ s.growth.biggest
        → IsGrownDone (Some s) new owner command status → status ≡ 8
        → AreEpochsSpent s.paced.heap }
    ensures in_time { (s : GrowingState) (new : Option GrowingState) (owner : ℕ)
        (command : Command) (status : ℕ) → IsGrowingInTime s
        → words_made command ≤ s.growth.biggest
        → IsGrownDone (Some s) new owner command status → IfSome new IsGrowingInTime }
{}
