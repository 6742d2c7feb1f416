//! Laws of objects that are made with their values, and of what these values mean.

ghost use Rattle.std.specs.Prelude.{◌≡◌, ◌↔◌, ◌<◌, ◌≤◌, ◌+◌, ℕ, Bool, true, All, List, length, Option, Some, Result, slice_get};
ghost use Rattle.rh_layout.specs.declared.command.Command.TheVariants.{Store};
ghost use Rattle.rh_layout.specs.declared.command.Operand.{Operand};
ghost use Rattle.rh_layout.specs.declared.command.Reply.{Reply};
ghost use Rattle.rh_layout.specs.declared.command.RootId.{RootId};
ghost use Rattle.rh_layout.specs.declared.refusal.Refusal.{Refusal};
ghost use Rattle.rh_layout.specs.declared.shape.Shape.{Shape};
ghost use Rattle.rh_model.specs.Plain.{PlainHeap};
ghost use Rattle.rh_mutator.specs.Mutator.{StandsFor};
ghost use Rattle.rh_pace.specs.Paced.{PacedState};
ghost use Rattle.rh_growing.specs.Growing.{GrowingState};
ghost use Rattle.rheap_c.specs.declared.init.RheapInit.{RheapInit};
ghost use Rattle.rheap_c.specs.GrownMaking.{IsGrownMadeWith, growing_making};
ghost use Rattle.rheap_c.specs.Init.{MeanTheirKinds, MeansItsKind};
ghost use Rattle.rheap_c.specs.Making.{IsMadeWith, have_kinds, making};
ghost use Rattle.rheap_c.specs.PlainMaking.{IsMadeAsOnPlain};
ghost use Rattle.rheap_c.specs.Told.{status_of};
ghost use Rattle.rheap_c.specs.ValueRows.{value_stores};

/// The values that a program gives to `rheap_make` and its like, and to `rheap_store_row`, mean what
/// the header says of their kinds: nil for 0, the number for 1, and what the root holds for 2 and 3.
///
/// - `made`, `grown`: where each is of such a kind, and they are no more than an object has fields,
///   the object is made, or insisted on, with operands that mean so, one for each value. The status
///   tells its answer. That is so of a heap of fixed sizes, and of one that grows.
/// - `stored`: so does each store of a row, to the next field.
/// - `kinds`: a row is refused with status 20 exactly where one of its values isn't of such a kind.
pub fn values_mean_what_their_kinds_say()
    ensures made { (insists : Bool) (s : PacedState) (new : Option PacedState) (owner : ℕ)
        (dst : RootId) (shape : Shape) (values : List RheapInit) (status : ℕ)
        → length values ≤ 4095 → All (λ v. v.kind ≤ 3) values
        → IsMadeWith (making insists) (Some s) new owner dst shape values status
        → (after : PacedState) × (told : Result Reply Refusal) × (operands : List Operand)
        × (new ≡ Some after) × MeanTheirKinds values operands
        × making insists s after owner dst shape operands told × (status ≡ status_of told) }
    ensures grown { (insists : Bool) (s : GrowingState) (new : Option GrowingState) (owner : ℕ)
        (dst : RootId) (shape : Shape) (values : List RheapInit) (status : ℕ)
        → length values ≤ 4095 → All (λ v. v.kind ≤ 3) values
        → IsGrownMadeWith (growing_making insists) (Some s) new owner dst shape values status
        → (after : GrowingState) × (told : Result Reply Refusal) × (operands : List Operand)
        × (new ≡ Some after) × MeanTheirKinds values operands
        × growing_making insists s after owner dst shape operands told
        × (status ≡ status_of told) }
    ensures stored { (owner : ℕ) (object : RootId) (field : ℕ) (values : List RheapInit) (i : ℕ)
        (v : RheapInit) → field + length values ≤ 4294967295 → slice_get values i ≡ Some v
        → (operand : Operand) × MeansItsKind v operand
        × (slice_get (value_stores owner object field values) i
        ≡ Some (owner, Store object (field + i) operand)) }
    ensures kinds { (values : List RheapInit)
        → (have_kinds values ≡ true) ↔ All (λ v. v.kind ≤ 3) values }
{}

/// Values that no heap is asked for are refused, and nothing has changed then.
///
/// - `unknown`, `grown_unknown`: with status 20, where one is of a kind above 3, and they are no
///   more than an object has fields.
/// - `many`, `grown_many`: with status 7, where they are more, whatever their kinds.
pub fn values_are_refused_for_their_kinds_and_their_number()
    ensures unknown { (insists : Bool) (s : PacedState) (new : Option PacedState) (owner : ℕ)
        (dst : RootId) (shape : Shape) (values : List RheapInit) (status : ℕ)
        → length values ≤ 4095 → (i : ℕ) (v : RheapInit) → slice_get values i ≡ Some v
        → 3 < v.kind → IsMadeWith (making insists) (Some s) new owner dst shape values status
        → (new ≡ Some s) × (status ≡ 20) }
    ensures grown_unknown { (insists : Bool) (s : GrowingState) (new : Option GrowingState)
        (owner : ℕ) (dst : RootId) (shape : Shape) (values : List RheapInit) (status : ℕ)
        → length values ≤ 4095 → (i : ℕ) (v : RheapInit) → slice_get values i ≡ Some v
        → 3 < v.kind
        → IsGrownMadeWith (growing_making insists) (Some s) new owner dst shape values status
        → (new ≡ Some s) × (status ≡ 20) }
    ensures many { (insists : Bool) (s : PacedState) (new : Option PacedState) (owner : ℕ)
        (dst : RootId) (shape : Shape) (values : List RheapInit) (status : ℕ)
        → 4095 < length values
        → IsMadeWith (making insists) (Some s) new owner dst shape values status
        → (new ≡ Some s) × (status ≡ 7) }
    ensures grown_many { (insists : Bool) (s : GrowingState) (new : Option GrowingState)
        (owner : ℕ) (dst : RootId) (shape : Shape) (values : List RheapInit) (status : ℕ)
        → 4095 < length values
        → IsGrownMadeWith (growing_making insists) (Some s) new owner dst shape values status
        → (new ≡ Some s) × (status ≡ 7) }
{}

/// An object is made with its values as on the plain heap, which never moves its objects and has
/// room for all, by `rheap_make` and its like, insisting or not. Where values are refused as
/// `values_are_refused_for_their_kinds_and_their_number` says, both heaps stay as they are. Else, where
/// the heap stands for a plain heap, the status is the one that this gives, and the heap is left
/// standing for the plain heap after it. Or the status is that of a limit, where the plain heap makes the object, and the heap is
/// left standing for the plain heap as it was.
///
/// - `fixed`: on a heap of fixed sizes.
/// - `growing`: on one that grows, whatever memory is given.
pub fn an_object_is_made_as_on_the_plain_heap()
    ensures fixed { (insists : Bool) (s : PacedState) (p : PlainHeap)
        → StandsFor s.heap.mutators p → (new : Option PacedState) (owner : ℕ) (dst : RootId)
        (shape : Shape) (values : List RheapInit) (status : ℕ)
        → IsMadeWith (making insists) (Some s) new owner dst shape values status
        → (after : PacedState) × (new ≡ Some after)
        × IsMadeAsOnPlain after.heap.mutators p owner dst shape values status }
    ensures growing { (insists : Bool) (s : GrowingState) (p : PlainHeap)
        → StandsFor s.paced.heap.mutators p → (new : Option GrowingState) (owner : ℕ)
        (dst : RootId) (shape : Shape) (values : List RheapInit) (status : ℕ)
        → IsGrownMadeWith (growing_making insists) (Some s) new owner dst shape values status
        → (after : GrowingState) × (new ≡ Some after)
        × IsMadeAsOnPlain after.paced.heap.mutators p owner dst shape values status }
{}
