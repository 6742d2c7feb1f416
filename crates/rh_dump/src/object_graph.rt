//! A heap, as the numbering reads it.

ghost use Rattle.std.specs.Prelude.{◌≡◌, ◌<◌, ℕ, length, slice_index_or};
ghost use Rattle.rh_layout.specs.Shape.{shape_of};
ghost use Rattle.rh_layout.specs.declared.value.Value.TheVariants.{Nil};
ghost use Rattle.rh_model.specs.Graph.{Graph, root_value};
ghost use Rattle.rh_dump.specs.Numbering.{values_in};
ghost use Rattle.rh_dump.specs.Dumpable.{IsDumpable};

use rh_layout::{RootId, Shape, Value};

/// A heap as the numbering reads it: its roots, and objects with fields, whose names are numbers
/// below a limit. Whoever has a heap of a kind of its own dumps it by
/// [`numbered_graph`](crate::numbered_graph).
pub trait ObjectGraph {
    /// The heap as a graph.
    ghost graph: { Self → Graph };

    /// What all names are below.
    ghost limit_of: { Self → ℕ };

    /// The heap is small enough that its objects can be numbered.
    ghost is_small: { Self → Type 0 };

    /// What all names are below. The heap holds nothing that a dump can't say: there are at most
    /// 16,777,216 names, 16 owners with 256 slots each, and 4,095 fields of an object; each whole
    /// number has a word, each reference is to an object, and no field of a raw object holds one.
    fn limit(&self) -> u32
        requires { is_small self.now }
        ensures limit { result ≡ limit_of self.now }
        ensures dumpable { IsDumpable (limit_of self.now) (graph self.now) };

    /// What the root holds; nil where it isn't there.
    fn held(&self, id: RootId) -> Value
        requires { is_small self.now }
        ensures { result ≡ root_value (graph self.now) id };

    /// The shape of the object with this name; no fields where there is no such object.
    fn shape(&self, name: u32) -> Shape
        requires { is_small self.now }
        ensures { result ≡ shape_of (length (values_in ((graph self.now).fields name)))
            ((graph self.now).raw name) };

    /// What the field holds of the object with this name.
    fn value(&self, name: u32, field: u32) -> Value
        requires small { is_small self.now }
        requires field { field < length (values_in ((graph self.now).fields name)) }
        ensures { result ≡ slice_index_or (values_in ((graph self.now).fields name)) field Nil };
}
