//! A graph that is being put together.

ghost use Rattle.std.specs.Prelude.{◌≡◌, ◌++◌, ◌∷◌, [], OnOk, OnErr};
ghost use Rattle.rh_dump.specs.Dump.{IsGraph};
ghost use Rattle.rh_dump.specs.Graph.{empty_flat, graph_in, IsFilled};

use crate::dump_graph::Graph;
use rh_layout::{OutOfMemory, RootId, Shape, Value};
use std::alloc::{Allocator, Global};
use std::marker::Model;

/// A graph that is being put together: its roots, the shape of each object, and what the fields
/// hold, one after the other. In between it needn't be a graph.
#[derive(Drop)]
pub struct GraphBuilder<A: Allocator = Global> {
    roots: Vec<(RootId, Value), A>,
    shapes: Vec<Shape, A>,
    values: Vec<Value, A>,
}

impl<A: Allocator> Model for GraphBuilder<A> {
    ghost use Rattle.rh_dump.specs.Graph.{FlatGraph};

    ghost Value = { FlatGraph };

    ghost view = { λ g. record {
      roots = g.roots.items;
      shapes = g.shapes.items;
      values = g.values.items;
    } };
}

impl<A: Allocator + Copy> GraphBuilder<A> {
    /// A graph to which nothing was put.
    pub(crate) fn new(alloc: A) -> GraphBuilder<A>
        ensures { result ≡ empty_flat }
    {
        GraphBuilder {
            roots: Vec::new(alloc),
            shapes: Vec::new(alloc),
            values: Vec::new(alloc),
        }
    }

    /// Puts a root and what it holds at the end.
    ///
    /// # Errors
    ///
    /// The allocator refused memory. Nothing has changed then.
    pub(crate) fn push_root(&mut self, root: RootId, value: Value) -> Result<(), OutOfMemory>
        ensures ok { OnOk result
            (self.new ≡ record self.old { roots = self.old.roots ++ (root, value) ∷ [] }) }
        ensures err { OnErr result (self.new ≡ self.old) }
    {
        self.roots.push((root, value))?;
        Ok(())
    }

    /// Begins the next object, which has this shape.
    ///
    /// # Errors
    ///
    /// The allocator refused memory. Nothing has changed then.
    pub(crate) fn begin_object(&mut self, shape: Shape) -> Result<(), OutOfMemory>
        ensures ok { OnOk result
            (self.new ≡ record self.old { shapes = self.old.shapes ++ shape ∷ [] }) }
        ensures err { OnErr result (self.new ≡ self.old) }
    {
        self.shapes.push(shape)?;
        Ok(())
    }

    /// Puts what the next field holds at the end.
    ///
    /// # Errors
    ///
    /// The allocator refused memory. Nothing has changed then.
    pub(crate) fn push_value(&mut self, value: Value) -> Result<(), OutOfMemory>
        ensures ok { OnOk result
            (self.new ≡ record self.old { values = self.old.values ++ value ∷ [] }) }
        ensures err { OnErr result (self.new ≡ self.old) }
    {
        self.values.push(value)?;
        Ok(())
    }

    /// The graph, where one was put together.
    pub(crate) fn finish(self) -> Graph<A>
        requires filled { IsFilled self }
        requires graph { IsGraph (graph_in self) }
        ensures { result ≡ graph_in self }
    {
        Graph {
            roots: self.roots,
            shapes: self.shapes,
            values: self.values,
        }
    }
}
