//! Laws of the heap that never moves: what is reached, what each command does, and when two heaps
//! hold the same graph. Each function does nothing: its contract is the law.

ghost use Rattle.std.specs.Prelude.{
  ◌≡◌,
  ◌↔◌,
  ℕ,
  ℤ,
  ◌<◌,
  ◌≤◌,
  Bool,
  true,
  false,
  IsTrue,
  List,
  Option,
  Some,
  None,
  Ok,
  Err,
};
ghost use Rattle.rh_layout.specs.declared.command.Command.{Command};
ghost use Rattle.rh_layout.specs.declared.command.Command.TheVariants as commands;
ghost use Rattle.rh_layout.specs.declared.command.Operand.TheVariants as operands;
ghost use Rattle.rh_layout.specs.declared.command.Reply.{Reply};
ghost use Rattle.rh_layout.specs.declared.command.Reply.TheVariants as replies;
ghost use Rattle.rh_layout.specs.declared.command.RootId.{RootId};
ghost use Rattle.rh_layout.specs.declared.refusal.Refusal.{Refusal};
ghost use Rattle.rh_layout.specs.declared.value.Value.{Value};
ghost use Rattle.rh_layout.specs.declared.value.Value.TheVariants.{Nil, Int, Ref};
ghost use Rattle.rh_layout.specs.Refusal.{rank_of};
ghost use Rattle.rh_layout.specs.Shape.{shape_of};
ghost use Rattle.rh_model.specs.Effects.{
  IsObject,
  RefersToObjects,
  IsWellFormedPlain,
  HoldsField,
  TellsValue,
  RootTakes,
  MakesObject,
  LoadsField,
  StoresField,
  TellsSame,
};
ghost use Rattle.rh_model.specs.Graph.{Graph, root_value, value_fields, refusal_of, reply_to, same_value};
ghost use Rattle.rh_model.specs.Plain.{PlainHeap, IsPlain, empty_plain, graph_of, step};
ghost use Rattle.rh_model.specs.SameGraph.{SameGraph, IsPairing};
ghost use Rattle.rh_model.specs.Reach.{Reached};
ghost use Rattle.rh_model.specs.Refusals.{RefusalHolds};

/// What is reached from the roots is the least set of names that has each name that a root refers
/// to, and each that a field of one of its objects refers to.
pub fn reach_is_the_least_set()
    ensures roots { (g : Graph) (r : RootId) (a : ℕ) → root_value g r ≡ Ref a → Reached g a }
    ensures fields { (g : Graph) (a f b : ℕ)
        → Reached g a → HoldsField g a f (Ref b) → Reached g b }
    ensures least { (g : Graph) (set : ℕ → Bool)
        → ((r : RootId) (a : ℕ) → root_value g r ≡ Ref a → IsTrue (set a))
        → ((a f b : ℕ) → IsTrue (set a) → HoldsField g a f (Ref b) → IsTrue (set b))
        → (a : ℕ) → Reached g a → IsTrue (set a) }
{}

/// What one of two paired graphs reaches is paired with what the other reaches, and nothing that is
/// reached is left over. So a pairing pairs all that is reached, and being the same graph speaks of
/// all of it.
pub fn pairs_what_is_reached()
    ensures there { (g h : Graph) (pairing : ℕ → Option ℕ) → IsPairing g h pairing
        → (a : ℕ) → Reached g a → (b : ℕ) × (pairing a ≡ Some b) × Reached h b }
    ensures back { (g h : Graph) (pairing : ℕ → Option ℕ) → IsPairing g h pairing
        → (b : ℕ) → Reached h b → (a : ℕ) × (pairing a ≡ Some b) × Reached g a }
{}

/// A graph whose roots and fields refer to objects alone is the same as itself. That of a
/// well-formed plain heap is such a graph.
pub fn same_graph_is_reflexive()
    ensures { (g : Graph) → RefersToObjects g → SameGraph g g }
{}

/// Two graphs are the same where each root holds one value in both, and the objects of a set of
/// names have the same fields and kinds in both, if the set has each name that a root refers to,
/// and each that a field of its objects refers to. So how many owners and slots there are, and what
/// isn't reached, play no part.
pub fn same_graph_speaks_of_what_is_reached()
    ensures { (g h : Graph) (set : ℕ → Bool)
        → ((r : RootId) → root_value g r ≡ root_value h r)
        → ((r : RootId) (a : ℕ) → root_value g r ≡ Ref a → IsTrue (set a))
        → ((a f b : ℕ) → IsTrue (set a) → HoldsField g a f (Ref b) → IsTrue (set b))
        → ((a : ℕ) → IsTrue (set a) → IsObject g a
        × (g.fields a ≡ h.fields a) × (g.raw a ≡ h.raw a))
        → SameGraph g h }
{}

/// A graph that is the same as a second, which is the same as a third, is the same as the third.
pub fn same_graph_is_transitive()
    ensures { (f g h : Graph) → SameGraph f g → SameGraph g h → SameGraph f h }
{}

/// A graph is the same as one that is the same as it, where the names of the latter's objects are
/// below some limit. Those of a plain heap are below the number of its objects.
pub fn same_graph_is_symmetric()
    ensures limited { (g h : Graph) (limit : ℕ)
        → ((a : ℕ) (fields : List Value) → g.fields a ≡ Some fields → a < limit)
        → SameGraph g h → SameGraph h g }
    ensures plain { (p : PlainHeap) (h : Graph)
        → SameGraph (graph_of p) h → SameGraph h (graph_of p) }
{}

/// Two graphs that are the same, with as many owners and slots, refuse each command of each owner
/// alike. Two graphs that are the same answer an accepted command alike.
pub fn same_graphs_answer_alike()
    ensures refusals { (g h : Graph) → SameGraph g h → g.owners ≡ h.owners → g.slots ≡ h.slots
        → (owner : ℕ) (command : Command)
        → refusal_of g owner command ≡ refusal_of h owner command }
    ensures replies { (g h : Graph) → SameGraph g h
        → (command : Command) → reply_to g command ≡ reply_to h command }
{}

/// A command is refused by the refusal with the least number of those that hold for it, whatever
/// its operands are, and it is accepted by the graph where none holds.
pub fn refusals_come_in_order()
    ensures least { (g : Graph) (owner : ℕ) (command : Command) (refusal : Refusal)
        → refusal_of g owner command ≡ Some refusal → RefusalHolds g owner command refusal
        × ((other : Refusal) → RefusalHolds g owner command other
        → rank_of refusal ≤ rank_of other) }
    ensures none { (g : Graph) (owner : ℕ) (command : Command) → refusal_of g owner command ≡ None
        → (refusal : Refusal) → ¬ RefusalHolds g owner command refusal }
{}

/// A refused command changes nothing, and its refusal holds for it. No refusal holds for a command
/// that is accepted.
pub fn refused_commands_change_nothing()
    ensures unchanged { (p q : PlainHeap) (owner : ℕ) (command : Command) (refusal : Refusal)
        → step p owner command ≡ (q, Err refusal)
        → (q ≡ p) × RefusalHolds (graph_of p) owner command refusal }
    ensures accepted { (p q : PlainHeap) (owner : ℕ) (command : Command) (reply : Reply)
        → step p owner command ≡ (q, Ok reply)
        → (refusal : Refusal) → ¬ RefusalHolds (graph_of p) owner command refusal }
{}

/// A new plain heap has the owners and slots that it was made with; each root is nil, and there is
/// no object. New plain heaps are the same graph, however many owners and slots they have.
pub fn a_new_plain_heap_is_empty()
    ensures owners { (owners slots : ℕ) → (empty_plain owners slots).owners ≡ owners }
    ensures slots { (owners slots : ℕ) → (empty_plain owners slots).slots ≡ slots }
    ensures roots { (owners slots : ℕ) (r : RootId)
        → root_value (graph_of (empty_plain owners slots)) r ≡ Nil }
    ensures objects { (owners slots a : ℕ)
        → (graph_of (empty_plain owners slots)).fields a ≡ None }
    ensures alike { (owners slots more_owners more_slots : ℕ)
        → SameGraph (graph_of (empty_plain owners slots))
        (graph_of (empty_plain more_owners more_slots)) }
{}

/// A value has fields exactly where it refers to an object, and then they are that object's.
pub fn a_reference_has_its_objects_fields()
    ensures { (g : Graph) (v : Value) (fields : List Value)
        → (value_fields g v ≡ Some fields)
        ↔ ((a : ℕ) × (v ≡ Ref a) × (g.fields a ≡ Some fields)) }
{}

/// A new plain heap is well formed, and so is each that a program has; and each command of each
/// owner leaves a well-formed one so.
pub fn plain_heaps_stay_well_formed()
    ensures empty { (owners slots : ℕ) → IsWellFormedPlain (empty_plain owners slots) }
    ensures program { (p : PlainHeap) → IsPlain p → IsWellFormedPlain p }
    ensures step { (p : PlainHeap) → IsWellFormedPlain p → (owner : ℕ) (command : Command)
        → IsWellFormedPlain (step p owner command).0 }
{}

/// An object that the roots don't reach stays so: no command of any owner reaches it again
/// (`unreached`), and its name stays an object's (`object`). So however many commands follow, what
/// is once out of reach never comes back.
pub fn what_is_not_reached_stays_so()
    ensures object { (p : PlainHeap) → IsWellFormedPlain p → (owner : ℕ) (command : Command)
        → (name : ℕ) → IsObject (graph_of p) name
        → IsObject (graph_of (step p owner command).0) name }
    ensures unreached { (p : PlainHeap) → IsWellFormedPlain p → (owner : ℕ) (command : Command)
        → (name : ℕ) → IsObject (graph_of p) name → ¬ Reached (graph_of p) name
        → ¬ Reached (graph_of (step p owner command).0) name }
{}

/// An accepted `Alloc` makes an object that was none before and that nothing referred to, of the
/// number of fields asked for, all nil; the root names it, and all else stays.
pub fn alloc_makes_an_object()
    ensures { (p q : PlainHeap) → IsWellFormedPlain p
        → (owner : ℕ) (dst : RootId) (fields : ℕ) (reply : Reply)
        → step p owner (commands.Alloc dst fields) ≡ (q, Ok reply)
        → (reply ≡ replies.Object fields)
        × MakesObject (graph_of p) (graph_of q) dst (shape_of fields false) }
{}

/// An accepted `Raw` makes a raw object that was none before and that nothing referred to, of the
/// number of fields asked for, all nil; the root names it, and all else stays.
pub fn raw_makes_a_raw_object()
    ensures { (p q : PlainHeap) → IsWellFormedPlain p
        → (owner : ℕ) (dst : RootId) (fields : ℕ) (reply : Reply)
        → step p owner (commands.Raw dst fields) ≡ (q, Ok reply)
        → (reply ≡ replies.Raw fields)
        × MakesObject (graph_of p) (graph_of q) dst (shape_of fields true) }
{}

/// A well-formed plain heap has no reference in a field of a raw object.
pub fn raw_objects_hold_no_references()
    ensures { (p : PlainHeap) → IsWellFormedPlain p → (a f b : ℕ)
        → IsTrue ((graph_of p).raw a) → ¬ HoldsField (graph_of p) a f (Ref b) }
{}

/// After an accepted `Load` the root `dst` holds what the field held of the object that `src`
/// named, the reply tells that value, and all else stays.
pub fn load_reads_a_field()
    ensures { (p q : PlainHeap) → IsWellFormedPlain p
        → (owner : ℕ) (dst src : RootId) (field : ℕ) (reply : Reply)
        → step p owner (commands.Load dst src field) ≡ (q, Ok reply)
        → LoadsField (graph_of p) (graph_of q) dst src field reply }
{}

/// After an accepted `Store` the field of the object that `obj` names holds nil, the number, or
/// what the operand's root holds, and all else stays.
pub fn store_writes_a_field()
    ensures nil { (p q : PlainHeap) → IsWellFormedPlain p
        → (owner : ℕ) (obj : RootId) (field : ℕ) (reply : Reply)
        → step p owner (commands.Store obj field operands.Nil) ≡ (q, Ok reply)
        → (reply ≡ replies.Done) × StoresField (graph_of p) (graph_of q) obj field Nil }
    ensures number { (p q : PlainHeap) → IsWellFormedPlain p
        → (owner : ℕ) (obj : RootId) (field : ℕ) (n : ℤ) (reply : Reply)
        → step p owner (commands.Store obj field (operands.Int n)) ≡ (q, Ok reply)
        → (reply ≡ replies.Done) × StoresField (graph_of p) (graph_of q) obj field (Int n) }
    ensures root { (p q : PlainHeap) → IsWellFormedPlain p
        → (owner : ℕ) (obj : RootId) (field : ℕ) (src : RootId) (reply : Reply)
        → step p owner (commands.Store obj field (operands.Root src)) ≡ (q, Ok reply)
        → (reply ≡ replies.Done)
        × StoresField (graph_of p) (graph_of q) obj field (root_value (graph_of p) src) }
{}

/// After an accepted `Copy` the root `dst` holds what `src` held, the reply tells that value, and
/// all else stays.
pub fn copy_copies_a_root()
    ensures { (p q : PlainHeap) → IsWellFormedPlain p
        → (owner : ℕ) (dst src : RootId) (reply : Reply)
        → step p owner (commands.Copy dst src) ≡ (q, Ok reply)
        → RootTakes (graph_of p) (graph_of q) dst (root_value (graph_of p) src)
        × TellsValue (graph_of p) reply (root_value (graph_of p) src) }
{}

/// An accepted `Same` changes nothing, and tells whether the roots hold one value.
pub fn same_compares_two_roots()
    ensures { (p q : PlainHeap) (owner : ℕ) (a b : RootId) (reply : Reply)
        → step p owner (commands.Same a b) ≡ (q, Ok reply)
        → (q ≡ p) × TellsSame (graph_of p) a b reply }
{}

/// After an accepted `Drop` the root holds nil, and all else stays.
pub fn drop_makes_a_root_nil()
    ensures { (p q : PlainHeap) → IsWellFormedPlain p
        → (owner : ℕ) (root : RootId) (reply : Reply)
        → step p owner (commands.Drop root) ≡ (q, Ok reply)
        → (reply ≡ replies.Done) × RootTakes (graph_of p) (graph_of q) root Nil }
{}

/// The test of two values tells whether they are equal.
pub fn same_value_is_equality()
    ensures { (v w : Value) → IsTrue (same_value v w) ↔ (v ≡ w) }
{}
