//! Laws of dumps: equal texts are of equal graphs, and what is written is read. Each function does
//! nothing: its contract is the law.

ghost use Rattle.std.specs.Prelude.{◌≡◌, ◌↔◌, ◌≤◌, ◌++◌, ◌∷◌, [], ℕ, pos, true, false, List, Some, Ok, Err, codes, length, slice_get};
ghost use Rattle.std.specs.List.{AllByRecursion, flat_map};
ghost use Rattle.rh_layout.specs.declared.value.Value.TheVariants.{Nil, Int, Ref};
ghost use Rattle.rh_text.specs.RawLine.{lines_of};
ghost use Rattle.rh_text.specs.Stages.{IsFaultless, IsFirst};
ghost use Rattle.rh_model.specs.Graph.{Graph};
ghost use Rattle.rh_model.specs.Reach.{Reached};
ghost use Rattle.rh_model.specs.SameGraph.{SameGraph};
ghost use Rattle.rh_model.specs.Plain as plain;
ghost use Rattle.rh_model.specs.Plain.{PlainHeap, IsPlain};
ghost use Rattle.rh_dump.specs.PlainDump.{plain_dump_of, plain_heap_of};
ghost use Rattle.rh_dump.specs.Dumpable.{IsDumpable};
ghost use Rattle.rh_dump.specs.Numbering.{names_after, dump_below, ReachesObjectsBelow};
ghost use Rattle.rh_dump.specs.Dump.{GraphState, IsGraph};
ghost use Rattle.rh_dump.specs.texts.Faults.{dump_faults};
ghost use Rattle.rh_dump.specs.declared.reading.due.Version.{Version};
ghost use Rattle.rh_dump.specs.declared.reading.due.Version.TheVariants.{One};
ghost use Rattle.rh_dump.specs.texts.Line.{CanSay, IsTextOf, dump_text, text_in};
ghost use Rattle.rh_dump.specs.texts.Reading.{graph_of_text};
ghost use Rattle.rh_dump.specs.declared.reading.fault.DumpFault.{DumpFault as FaultOf};
ghost use Rattle.rh_dump.specs.declared.reading.fault.DumpKind.TheVariants.{Number};

use crate::limits::{LAST_OBJECT, MAX_DUMP_BYTES, MAX_DUMP_READS, MAX_OBJECTS, MAX_ROOTS};

/// Two graphs have equal dumps exactly where they are the same graph, up to the names of their
/// objects. The graphs reach finitely many names, all objects'; how many owners and slots they
/// have plays no part, nor which limits are taken.
pub fn equal_dumps_are_same_graphs()
    ensures { (g h : Graph) (m n : ℕ) → ReachesObjectsBelow m g → ReachesObjectsBelow n h
        → (dump_below m g ≡ dump_below n h) ↔ SameGraph g h }
{}

/// The objects that have numbers are exactly those that are reached from the roots, and each has
/// one number.
pub fn what_is_reached_is_numbered_once()
    ensures reached { (g : Graph) (limit : ℕ) → ReachesObjectsBelow limit g
        → (a : ℕ) → Reached g a ↔ ((k : ℕ) × (slice_get (names_after g limit) k ≡ Some a)) }
    ensures once { (g : Graph) (limit i j a : ℕ)
        → slice_get (names_after g limit) i ≡ Some a
        → slice_get (names_after g limit) j ≡ Some a → i ≡ j }
{}

/// Two plain heaps have equal dumps exactly where they are the same graph.
pub fn equal_dumps_of_plain_heaps_are_same_graphs()
    ensures { (p q : PlainHeap) → IsPlain p → IsPlain q
        → (plain_dump_of p ≡ plain_dump_of q)
        ↔ SameGraph (plain.graph_of p) (plain.graph_of q) }
{}

/// A plain heap reaches objects alone, whose positions are below their number, and can be dumped
/// where it has at most 16,777,216 objects.
pub fn plain_heaps_can_be_dumped()
    ensures reaches { (p : PlainHeap) → IsPlain p
        → ReachesObjectsBelow (length p.objects) (plain.graph_of p) }
    ensures dumpable { (p : PlainHeap) → IsPlain p → length p.objects ≤ MAX_OBJECTS
        → IsDumpable (length p.objects) (plain.graph_of p) }
{}

/// The dump of what can be dumped is a graph, and so is that of a plain heap of at most 16,777,216
/// objects.
pub fn dumps_are_graphs()
    ensures graphs { (g : Graph) (limit : ℕ) → IsDumpable limit g
        → IsGraph (dump_below limit g) }
    ensures plain_heaps { (p : PlainHeap) → IsPlain p → length p.objects ≤ MAX_OBJECTS
        → IsGraph (plain_dump_of p) }
{}

/// Two graphs that can be dumped have equal dump texts exactly where they are the same graph, and
/// so have two plain heaps of at most 16,777,216 objects each.
pub fn equal_dump_texts_are_same_graphs()
    ensures graphs { (g h : Graph) (m n : ℕ) → IsDumpable m g → IsDumpable n h
        → (dump_text (dump_below m g) ≡ dump_text (dump_below n h)) ↔ SameGraph g h }
    ensures plain_heaps { (p q : PlainHeap) → IsPlain p → IsPlain q
        → length p.objects ≤ MAX_OBJECTS → length q.objects ≤ MAX_OBJECTS
        → (dump_text (plain_dump_of p) ≡ dump_text (plain_dump_of q))
        ↔ SameGraph (plain.graph_of p) (plain.graph_of q) }
{}

/// Each graph is read from its text of version 2, and from its text of version 1 exactly where it
/// has no raw object, if the text has at most 268,435,456 bytes. It is read exactly from what is a
/// text of it, within that limit.
pub fn what_is_spelled_is_read()
    ensures spelled { (g : GraphState) → IsGraph g → length (dump_text g) ≤ MAX_DUMP_BYTES
        → graph_of_text (dump_text g) ≡ Ok g }
    ensures version_1 { (g : GraphState) → IsGraph g → length (text_in One g) ≤ MAX_DUMP_BYTES
        → (graph_of_text (text_in One g) ≡ Ok g)
        ↔ AllByRecursion (λ object. object.raw ≡ false) g.objects }
    ensures read { (text : List ℕ) (g : GraphState) → (graph_of_text text ≡ Ok g)
        ↔ (IsGraph g × IsTextOf text g × (length text ≤ MAX_DUMP_BYTES)) }
{}

/// Three texts word for word: what one of version 2 with a raw object and one of version 1 are read
/// as, and that a raw object in version 1 is a number that is none.
pub fn worked_texts_are_read()
    ensures raw { graph_of_text (flat_map (λ line. line ++ 10 ∷ []) (codes "rheap 2"
        ∷ codes "roots 1" ∷ codes "1.0 @0" ∷ codes "objects 2" ∷ codes "@0 2 @1 nil"
        ∷ codes "@1 raw 2 5 nil" ∷ codes "end" ∷ [])) ≡ Ok (record {
          roots = (record { owner = 1; slot = 0 }, Ref 0) ∷ [];
          objects = record { raw = false; fields = Ref 1 ∷ Nil ∷ [] }
              ∷ record { raw = true; fields = Int (pos 5) ∷ Nil ∷ [] } ∷ [];
        }) }
    ensures before { graph_of_text (flat_map (λ line. line ++ 10 ∷ []) (codes "rheap 1"
        ∷ codes "roots 1" ∷ codes "1.0 @0" ∷ codes "objects 1" ∷ codes "@0 1 5"
        ∷ codes "end" ∷ [])) ≡ Ok (record {
          roots = (record { owner = 1; slot = 0 }, Ref 0) ∷ [];
          objects = record { raw = false; fields = Int (pos 5) ∷ [] } ∷ [];
        }) }
    ensures none { graph_of_text (flat_map (λ line. line ++ 10 ∷ []) (codes "rheap 1"
        ∷ codes "roots 1" ∷ codes "1.0 @0" ∷ codes "objects 1" ∷ codes "@0 raw 1 5"
        ∷ codes "end" ∷ [])) ≡ Err (record { line = 5; kind = Number }) }
{}

/// Graphs with equal texts are equal, however long these are, and of one version.
pub fn equal_texts_are_of_equal_graphs()
    ensures dumps { (a b : GraphState) → IsGraph a → IsGraph b → dump_text a ≡ dump_text b → a ≡ b }
    ensures versions { (v w : Version) (a b : GraphState) → IsGraph a → IsGraph b
        → AllByRecursion (CanSay v) a.objects → AllByRecursion (CanSay w) b.objects
        → text_in v a ≡ text_in w b → (v ≡ w) × (a ≡ b) }
{}

/// What every graph keeps is what every dump of a plain heap of at most 16,777,216 objects keeps,
/// and no more. So each graph is a dump: that of the plain heap that it describes, which is well
/// formed, and each text that is read is the text of this dump.
pub fn graphs_are_the_dumps_of_plain_heaps()
    ensures exact { (g : GraphState) → IsGraph g ↔ ((p : PlainHeap) × IsPlain p
        × (length p.objects ≤ MAX_OBJECTS) × (plain_dump_of p ≡ g)) }
    ensures described { (g : GraphState) → IsGraph g
        → IsPlain (plain_heap_of g) × (plain_dump_of (plain_heap_of g) ≡ g) }
    ensures texts { (text : List ℕ) (g : GraphState) → graph_of_text text ≡ Ok g
        → IsPlain (plain_heap_of g) × IsTextOf text (plain_dump_of (plain_heap_of g)) }
{}

/// Each graph has one spelling in a version: two texts of one version that are read are equal
/// exactly where the plain heaps that they describe are the same graph, up to the names of their
/// objects, and so are two graphs. Texts of two versions are read as equal graphs exactly where
/// these heaps are the same graph. The dump of a plain heap describes the same graph as the heap.
pub fn each_graph_has_one_text()
    ensures texts { (v : Version) (s t : List ℕ) (g h : GraphState) → graph_of_text s ≡ Ok g
        → graph_of_text t ≡ Ok h → s ≡ text_in v g → t ≡ text_in v h → (s ≡ t)
        ↔ SameGraph (plain.graph_of (plain_heap_of g)) (plain.graph_of (plain_heap_of h)) }
    ensures read { (s t : List ℕ) (g h : GraphState) → graph_of_text s ≡ Ok g
        → graph_of_text t ≡ Ok h → (g ≡ h)
        ↔ SameGraph (plain.graph_of (plain_heap_of g)) (plain.graph_of (plain_heap_of h)) }
    ensures graphs { (g h : GraphState) → IsGraph g → IsGraph h → (g ≡ h)
        ↔ SameGraph (plain.graph_of (plain_heap_of g)) (plain.graph_of (plain_heap_of h)) }
    ensures back { (p : PlainHeap) → IsPlain p → length p.objects ≤ MAX_OBJECTS
        → SameGraph (plain.graph_of p) (plain.graph_of (plain_heap_of (plain_dump_of p))) }
{}

/// The fault that reading names is the one that comes first in the order of the format: it holds on
/// its line, and any other that holds is on a later line or at a later position of this line. What
/// is read has no fault, and a text without a fault is the dump of a graph.
pub fn the_first_fault_is_named()
    ensures first { (text : List ℕ) (fault : FaultOf) → graph_of_text text ≡ Err fault
        → IsFirst (dump_faults (lines_of text)) fault.line fault.kind }
    ensures none { (text : List ℕ) (g : GraphState) → graph_of_text text ≡ Ok g
        → (n : ℕ) → IsFaultless (dump_faults (lines_of text) n) }
    ensures spelled { (text : List ℕ) → ((n : ℕ) → IsFaultless (dump_faults (lines_of text) n))
        → (g : GraphState) × IsGraph g × IsTextOf text g }
{}

/// The limits that clauses and code name are those that definitions and the format say.
pub fn dump_limits_are_those_of_the_format()
    ensures roots { MAX_ROOTS ≡ 4096 }
    ensures objects { (MAX_OBJECTS ≡ 16777216) × (LAST_OBJECT ≡ 16777215) }
    ensures text { (MAX_DUMP_BYTES ≡ 268435456) × (MAX_DUMP_READS ≡ 536870912) }
{}
