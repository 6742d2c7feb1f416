//! The dump of a plain heap.

ghost use Rattle.std.specs.Prelude.{◌≡◌, ◌≤◌, ◌^◌, false, IfOk, length, slice_index_or};
ghost use Rattle.rh_model.specs.Plain as plain;
ghost use Rattle.rh_model.specs.Plain.{kinds};
ghost use Rattle.rh_model.specs.PlainValue.{value_of_plain};
ghost use Rattle.rh_dump.specs.PlainDump.{plain_dump_of};
ghost use Rattle.rh_dump.specs.Meeting.{IsBelow};

use crate::dump_graph::Graph;
use crate::limits::MAX_OBJECTS;
use crate::numbering::numbered_graph;
use crate::object_graph::ObjectGraph;
use rh_layout::{OutOfMemory, RootId, Shape, Value};
use rh_model::{Plain, PlainValue};
use std::alloc::Allocator;

impl<A: Allocator + Copy> ObjectGraph for Plain<A> {
    ghost use Rattle.rh_dump.specs.declared.limits.TheConstants.{MAX_OBJECTS};

    ghost graph = { plain.graph_of };

    ghost limit_of = { λ p. length p.objects };

    ghost is_small = { λ p. length p.objects ≤ MAX_OBJECTS };

    fn limit(&self) -> u32 {
        self.objects() as u32
    }

    fn held(&self, id: RootId) -> Value {
        // Called for what it ensures alone: a reference is to an object.
        let _ = self.objects();
        match self.root(id) {
            Some(value) => value_of(value),
            None => Value::Nil,
        }
    }

    fn shape(&self, name: u32) -> Shape {
        let fields = match self.fields(name as usize) {
            Some(fields) => fields,
            None => 0,
        };
        Shape {
            fields,
            raw: is_raw(self, name as usize),
        }
    }

    fn value(&self, name: u32, field: u32) -> Value {
        // Called for what it ensures alone: a reference is to an object.
        let _ = self.objects();
        match self.field(name as usize, field) {
            Some(value) => value_of(value),
            None => Value::Nil,
        }
    }
}

/// Whether the object at this position in the list of objects is raw; false where there is none.
fn is_raw<A: Allocator + Copy>(heap: &Plain<A>, position: usize) -> bool
    ensures { result ≡ slice_index_or (kinds heap.now.objects) position false }
{
    match heap.raw(position) {
        Some(raw) => raw,
        None => false,
    }
}

/// The value, whose position fits into 32 bits.
fn value_of(value: PlainValue) -> Value
    requires { IsBelow (2 ^ 32) (value_of_plain value) }
    ensures { result ≡ value_of_plain value }
{
    match value {
        PlainValue::Nil => Value::Nil,
        PlainValue::Int(number) => Value::Int(number),
        PlainValue::Object(position) => Value::Ref(position as u32),
    }
}

/// What the roots of a plain heap reach, with objects numbered breadth first (Moore, 1959): the
/// roots in order of owner, then slot, then the fields of object 0, of object 1, and so on. Time
/// and memory are linear in the plain heap. Beside the graph it takes, while it runs, 4 bytes for
/// each object and 4 for each that was met, and the room that the vector of these grew by.
///
/// # Errors
///
/// `OutOfMemory` where a growth was refused.
pub fn plain_graph<A: Allocator + Copy, B: Allocator + Copy>(
    alloc: A,
    heap: &Plain<B>,
) -> Result<Graph<A>, OutOfMemory>
    requires { length heap.now.objects ≤ MAX_OBJECTS }
    ensures { IfOk result (λ graph. graph ≡ plain_dump_of heap.now) }
{
    numbered_graph(alloc, heap)
}
