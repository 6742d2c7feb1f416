//! A graph as a dump says it.

ghost use Rattle.std.specs.Prelude.{◌≡◌, length};
ghost use Rattle.rh_dump.specs.Dump.{IsGraph};
ghost use Rattle.rh_dump.specs.Graph.{objects_in, total};

use rh_layout::{RootId, Shape, Value};
use std::alloc::{Allocator, Global};
use std::marker::Model;

/// What a heap's roots reach: the roots that aren't nil, in order of owner, then slot, each with
/// what it holds, and the objects in order of their numbers, each with whether it is raw and what
/// its fields hold.
/// Objects are numbered breadth first, and a reference is to the object of that number. It takes
/// 24 bytes a root, 8 bytes an object and 16 bytes a field, and the room that its vectors grew by.
#[derive(Drop)]
pub struct Graph<A: Allocator = Global> {
    pub(crate) roots: Vec<(RootId, Value), A>,
    pub(crate) shapes: Vec<Shape, A>,
    pub(crate) values: Vec<Value, A>,
}

impl<A: Allocator> Model for Graph<A> {
    ghost use Rattle.rh_dump.specs.Dump.{GraphState, IsGraph};
    ghost use Rattle.rh_dump.specs.Graph.{graph_in, IsFilled};

    ghost Value = { GraphState };

    ghost view = { λ g. graph_in (record {
      roots = g.roots.items;
      shapes = g.shapes.items;
      values = g.values.items;
    }) };

    ghost invariant = { λ g. IsFilled (record {
      roots = g.roots.items;
      shapes = g.shapes.items;
      values = g.values.items;
    })
        × IsGraph (graph_in (record {
          roots = g.roots.items;
          shapes = g.shapes.items;
          values = g.values.items;
        })) };
}

impl<A: Allocator> Graph<A> {
    /// How many roots aren't nil. Each graph keeps what its text can say.
    pub fn roots(&self) -> u64
        ensures value { result ≡ length self.now.roots }
        ensures graph { IsGraph self.now }
    {
        self.roots.len() as u64
    }

    /// How many objects the roots reach.
    pub fn objects(&self) -> u64
        ensures { result ≡ length self.now.objects }
    {
        self.shapes.len() as u64
    }

    /// The roots that aren't nil, in order of owner, then slot, each with what it holds.
    pub fn root_entries(&self) -> &[(RootId, Value)]
        ensures { result.now ≡ self.now.roots }
    {
        &self.roots
    }

    /// The shapes of the objects, in order of their numbers, and what their fields hold, one object
    /// after the other.
    pub fn object_parts(&self) -> (&[Shape], &[Value])
        ensures objects { objects_in result.0.now result.1.now ≡ self.now.objects }
        // Each value is a field's, and each field has its value.
        ensures filled { total result.0.now ≡ length result.1.now }
    {
        (&self.shapes, &self.values)
    }
}
