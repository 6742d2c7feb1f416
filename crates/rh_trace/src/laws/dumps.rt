//! Laws of the dumps of heaps. Each function does nothing: its contract is the law.

ghost use Rattle.std.specs.Prelude.{◌≡◌, ◌↔◌, ◌≤◌, length};
ghost use Rattle.rh_space.specs.Space.{IsSpace};
ghost use Rattle.rh_model.specs.SameGraph.{SameGraph};
ghost use Rattle.rh_model.specs.Plain as plain;
ghost use Rattle.rh_model.specs.Plain.{PlainHeap, IsPlain};
ghost use Rattle.rh_core.specs.Mutator.{StandsFor, graph_of};
ghost use Rattle.rh_core.specs.Heap.{HeapState, IsHeap};
ghost use Rattle.rh_dump.specs.Dump.{IsGraph};
ghost use Rattle.rh_dump.specs.texts.Line.{dump_text};
ghost use Rattle.rh_dump.specs.PlainDump.{plain_dump_of};
ghost use Rattle.rh_heap_dump.specs.HeapDump.{dump_of};

use rh_dump::laws::{
    dumps_are_graphs, equal_dump_texts_are_same_graphs, equal_dumps_are_same_graphs,
    plain_heaps_can_be_dumped,
};
use rh_dump::limits::MAX_OBJECTS;
use rh_model::laws::pairs_what_is_reached;

/// Two heaps have equal dumps exactly where they are the same graph, and so have a plain heap and a
/// heap.
pub fn equal_dumps_of_heaps_are_same_graphs()
    ensures heaps { (h k : HeapState) → IsHeap h → IsHeap k
        → (dump_of h ≡ dump_of k) ↔ SameGraph (graph_of h.mutators) (graph_of k.mutators) }
    ensures both { (p : PlainHeap) (h : HeapState) → IsPlain p → IsHeap h
        → (plain_dump_of p ≡ dump_of h)
        ↔ SameGraph (plain.graph_of p) (graph_of h.mutators) }
{
    equal_dumps_are_same_graphs();
    plain_heaps_can_be_dumped();
}

/// The dump of a heap is a graph.
pub fn dumps_of_heaps_are_graphs()
    ensures { (h : HeapState) → IsHeap h → IsSpace h.mutators.space → IsGraph (dump_of h) }
{
    dumps_are_graphs();
}

/// Two heaps have equal dump texts exactly where they are the same graph, and so have a plain heap
/// of at most 16,777,216 objects and a heap.
pub fn equal_dump_texts_of_heaps_are_same_graphs()
    ensures heaps { (h k : HeapState) → IsHeap h → IsHeap k
        → IsSpace h.mutators.space → IsSpace k.mutators.space
        → (dump_text (dump_of h) ≡ dump_text (dump_of k))
        ↔ SameGraph (graph_of h.mutators) (graph_of k.mutators) }
    ensures both { (p : PlainHeap) (h : HeapState) → IsPlain p → length p.objects ≤ MAX_OBJECTS
        → IsHeap h → IsSpace h.mutators.space
        → (dump_text (plain_dump_of p) ≡ dump_text (dump_of h))
        ↔ SameGraph (plain.graph_of p) (graph_of h.mutators) }
{
    equal_dump_texts_are_same_graphs();
    plain_heaps_can_be_dumped();
}

/// A heap has the dump of each plain heap that it stands for.
pub fn a_heap_has_the_dump_of_its_plain_heap()
    ensures { (h : HeapState) (p : PlainHeap) → StandsFor h.mutators p
        → dump_of h ≡ plain_dump_of p }
{
    equal_dumps_are_same_graphs();
    // What two graphs pair is reached in both.
    pairs_what_is_reached();
}
