//! The dump of a heap.

ghost use Rattle.std.specs.Prelude.{◌≡◌, IfOk};
ghost use Rattle.rh_space.specs.Space.{used_words};
ghost use Rattle.rh_core.specs.Mutator.{graph_of};
ghost use Rattle.rh_heap_dump.specs.HeapDump.{dump_of};

use rh_core::Heap;
use rh_dump::{Graph, ObjectGraph, numbered_graph};
use rh_layout::{OutOfMemory, RootId, Shape, Value};
use std::alloc::Allocator;

/// A heap, as the numbering of its objects reads it.
#[derive(Drop)]
struct HeapGraph<'a, A: Allocator> {
    heap: &'a Heap<A>,
}

impl<'a, A: Allocator + Copy> ObjectGraph for HeapGraph<'a, A> {
    ghost graph = { λ h. graph_of h.heap.now.mutators };

    ghost limit_of = { λ h. used_words h.heap.now.mutators.space.objects };

    ghost is_small = { λ h. Unit {0} };

    fn limit(&self) -> u32 {
        self.heap.used()
    }

    fn held(&self, id: RootId) -> Value {
        match self.heap.root(id) {
            Some(value) => value,
            None => Value::Nil,
        }
    }

    fn shape(&self, name: u32) -> Shape {
        let fields = match self.heap.fields(name) {
            Some(fields) => fields,
            None => 0,
        };
        let raw = match self.heap.raw(name) {
            Some(raw) => raw,
            None => false,
        };
        Shape { fields, raw }
    }

    fn value(&self, name: u32, field: u32) -> Value {
        match self.heap.field(name, field) {
            Some((_, value)) => value,
            None => Value::Nil,
        }
    }
}

/// What the roots of a heap reach, with objects numbered breadth first (Moore, 1959): the roots in
/// order of owner, then slot, then the fields of object 0, of object 1, and so on. Time and memory
/// are linear in the words that objects use. Beside the graph it takes 8 bytes for each of these
/// words at most, while it runs.
///
/// # Errors
///
/// `OutOfMemory` where a growth was refused.
pub fn graph<A: Allocator + Copy, B: Allocator + Copy>(
    alloc: A,
    heap: &Heap<B>,
) -> Result<Graph<A>, OutOfMemory>
    ensures { IfOk result (λ graph. graph ≡ dump_of heap.now) }
{
    numbered_graph(alloc, &HeapGraph { heap })
}
