//! The numbering of objects, breadth first.

ghost use Rattle.std.specs.Prelude.{◌≡◌, ◌<◌, ◌≤◌, ℕ, [], ◌∷◌, ◌++◌, length, OnOk, OnErr, IfOk, IfSome, slice_get, Some, None};
ghost use Rattle.rh_layout.specs.Shape.{shape_of};
ghost use Rattle.rh_dump.specs.Dump.{IsGraph};
ghost use Rattle.rh_dump.specs.Graph.{graph_in, IsFilled};
ghost use Rattle.rh_model.specs.Graph.{root_value};
ghost use Rattle.rh_dump.specs.Numbering.{
  with_name,
  with_value,
  number_in,
  numbered_value,
  values_in,
  roots_of,
  filled_root,
  filled_slots,
  names_after,
  dump_below,
};
ghost use Rattle.rh_dump.specs.Dumpable.{IsDumpable};
ghost use Rattle.rh_dump.specs.Meeting.{
  IsBelow,
  empty_numbering,
  with_roots,
  with_shape,
  with_fields,
  numbering_after,
};

use crate::dump_graph::Graph;
use crate::graph_builder::GraphBuilder;
use crate::limits::MAX_OBJECTS;
use crate::object_graph::ObjectGraph;
use rh_layout::limits::{MAX_OWNERS, MAX_SLOTS};
use rh_layout::{OutOfMemory, RootId, Shape, Value};
use std::alloc::{Allocator, Global};
use std::marker::Model;

/// The names that were met, in order of their numbers, and the graph as far as it was put together.
#[derive(Drop)]
pub(crate) struct Numbering<A: Allocator = Global> {
    /// At the position of each name that was met its number; at another anything. A name was met
    /// where it stands among the names at that number (Briggs and Torczon, 1993).
    numbers: Vec<u32, A>,
    names: Vec<u32, A>,
    graph: GraphBuilder<A>,
}

impl<A: Allocator> Model for Numbering<A> {
    ghost use Rattle.std.specs.Prelude.{◌≤◌, length};
    ghost use Rattle.rh_dump.specs.Meeting.{NumberingState, IsIndexOf};
    ghost use Rattle.rh_dump.specs.declared.limits.TheConstants.{MAX_OBJECTS};

    ghost Value = { NumberingState };

    ghost view = { λ n. record {
      limit = length n.numbers.items;
      names = n.names.items;
      flat = n.graph;
    } };

    ghost invariant = { λ n. IsIndexOf n.numbers.items n.names.items
        × (length n.numbers.items ≤ MAX_OBJECTS) };
}

impl<A: Allocator + Copy> Numbering<A> {
    /// Nothing was met; all names are below the limit.
    fn new(alloc: A, limit: u32) -> Result<Numbering<A>, OutOfMemory>
        requires { limit ≤ MAX_OBJECTS }
        ensures { IfOk result (λ n. n ≡ empty_numbering limit) }
    {
        let numbers = Vec::from_elem(alloc, 0, limit as usize)?;
        Ok(Numbering {
            numbers,
            names: Vec::new(alloc),
            graph: GraphBuilder::new(alloc),
        })
    }

    /// The number of the object with this name, where it was met.
    fn known_number(&self, name: u32) -> Option<u32>
        requires { name < self.now.limit }
        ensures known { IfSome result (λ known. (known ≡ number_in self.now.names name)
            × (with_name self.now.names name ≡ self.now.names)) }
        ensures new { result ≡ None → number_in self.now.names name ≡ length self.now.names }
    {
        let known = self.numbers[name as usize];
        if known as usize >= self.names.len() {
            return None;
        }
        if self.names[known as usize] != name {
            return None;
        }
        Some(known)
    }

    /// The number of the object with this name, which takes the next one where it wasn't met.
    fn number(&mut self, name: u32) -> Result<u32, OutOfMemory>
        requires { name < self.old.limit }
        ensures state { OnOk result
            (self.new ≡ record self.old { names = with_name self.old.names name }) }
        ensures number { IfOk result (λ number.
            number ≡ number_in (with_name self.old.names name) name) }
    {
        if let Some(known) = self.known_number(name) {
            return Ok(known);
        }
        let next = self.names.len() as u32;
        push_name(&mut self.names, name)?;
        self.numbers[name as usize] = next;
        Ok(next)
    }

    /// Meets a value, and answers it with the number of its object.
    fn meet(&mut self, value: Value) -> Result<Value, OutOfMemory>
        requires { IsBelow self.old.limit value }
        ensures state { OnOk result
            (self.new ≡ record self.old { names = with_value self.old.names value }) }
        ensures value { IfOk result (λ numbered.
            numbered ≡ numbered_value (with_value self.old.names value) value) }
    {
        match value {
            Value::Nil => Ok(Value::Nil),
            Value::Int(number) => Ok(Value::Int(number)),
            Value::Ref(name) => Ok(Value::Ref(self.number(name)?)),
        }
    }

    /// Puts a root with what it holds, unless that is nil.
    fn put_root(&mut self, id: RootId, value: Value) -> Result<(), OutOfMemory>
        requires { IsBelow self.old.limit value }
        ensures { OnOk result (self.new ≡ with_roots self.old (filled_root id value)) }
    {
        if let Value::Nil = value {
            return Ok(());
        }
        let numbered = self.meet(value)?;
        self.graph.push_root(id, numbered)
    }

    /// Begins an object of this shape.
    fn put_shape(&mut self, shape: Shape) -> Result<(), OutOfMemory>
        ensures { OnOk result (self.new ≡ with_shape self.old shape) }
    {
        self.graph.begin_object(shape)
    }

    /// The name of the object of this number.
    fn name_of(&self, number: usize) -> Option<u32>
        ensures { result ≡ slice_get self.now.names number }
    {
        self.names.get(number).copied()
    }

    /// Puts what a field holds.
    fn put_field(&mut self, value: Value) -> Result<(), OutOfMemory>
        requires { IsBelow self.old.limit value }
        ensures { OnOk result (self.new ≡ with_fields self.old (value ∷ [])) }
    {
        let numbered = self.meet(value)?;
        self.graph.push_value(numbered)
    }

    /// Puts the roots of one owner with so many slots.
    fn put_slots<H: ObjectGraph>(
        &mut self,
        heap: &H,
        owner: u32,
        slots: u32,
    ) -> Result<(), OutOfMemory>
        requires small { H.is_small heap.now }
        requires dumpable { IsDumpable self.old.limit (H.graph heap.now) }
        ensures { OnOk result (self.new
            ≡ with_roots self.old (filled_slots (root_value (H.graph heap.now)) owner slots)) }
    {
        for slot in 0..slots {
            let id = RootId { owner, slot };
            self.put_root(id, heap.held(id))?;
        }
        Ok(())
    }

    /// Puts all roots, which are looked for among so many owners with so many slots.
    fn put_roots<H: ObjectGraph>(
        &mut self,
        heap: &H,
        owners: u32,
        slots: u32,
    ) -> Result<(), OutOfMemory>
        requires small { H.is_small heap.now }
        requires owners { (H.graph heap.now).owners ≤ owners }
        requires slots { (H.graph heap.now).slots ≤ slots }
        requires dumpable { IsDumpable self.old.limit (H.graph heap.now) }
        ensures { OnOk result (self.new ≡ with_roots self.old (roots_of (H.graph heap.now))) }
    {
        for owner in 0..owners {
            self.put_slots(heap, owner, slots)?;
        }
        Ok(())
    }

    /// Puts an object and what its fields hold.
    fn put_object<H: ObjectGraph>(&mut self, heap: &H, name: u32) -> Result<(), OutOfMemory>
        requires small { H.is_small heap.now }
        requires dumpable { IsDumpable self.old.limit (H.graph heap.now) }
        ensures { let fields = values_in ((H.graph heap.now).fields name)
            in OnOk result (self.new ≡ with_fields (with_shape self.old
            (shape_of (length fields) ((H.graph heap.now).raw name))) fields) }
    {
        let shape = heap.shape(name);
        self.put_shape(shape)?;
        for field in 0..shape.fields {
            self.put_field(heap.value(name, field))?;
        }
        Ok(())
    }

    /// Puts the objects, in order of their numbers, until none is left.
    fn put_objects<H: ObjectGraph>(&mut self, heap: &H) -> Result<(), OutOfMemory>
        requires small { H.is_small heap.now }
        requires dumpable { IsDumpable self.old.limit (H.graph heap.now) }
        requires roots { self.old ≡ numbering_after self.old.limit (H.graph heap.now) 0 }
        ensures { OnOk result ((n : ℕ) × (n ≤ self.old.limit)
            × (length (names_after (H.graph heap.now) n) ≡ n)
            × (self.new ≡ numbering_after self.old.limit (H.graph heap.now) n)) }
    {
        let mut number = 0;
        while let Some(name) = self.name_of(number) {
            self.put_object(heap, name)?;
            number += 1;
        }
        Ok(())
    }

    /// The graph, where it is one.
    fn finish(self) -> Graph<A>
        requires filled { IsFilled self.flat }
        requires graph { IsGraph (graph_in self.flat) }
        ensures { result ≡ graph_in self.flat }
    {
        self.graph.finish()
    }
}

/// Puts a name at the end.
fn push_name<A: Allocator + Copy>(names: &mut Vec<u32, A>, name: u32) -> Result<(), OutOfMemory>
    ensures ok { OnOk result (names.new.items ≡ names.old.items ++ name ∷ []) }
    ensures err { OnErr result (names.new.items ≡ names.old.items) }
{
    names.push(name)?;
    Ok(())
}

/// The dump of a heap that is read so: what its roots reach, with objects numbered breadth first
/// (Moore, 1959), the roots in order of owner, then slot, then the fields of object 0, of object 1,
/// and so on. Time and memory are linear in the limit of the names and in the fields that are
/// reached. Beside the graph it takes, while it runs, 4 bytes for each name below the limit and 4
/// for each that was met, and the room that the vector of these grew by.
///
/// # Errors
///
/// `OutOfMemory` where a growth was refused.
pub fn numbered_graph<H: ObjectGraph, A: Allocator + Copy>(
    alloc: A,
    heap: &H,
) -> Result<Graph<A>, OutOfMemory>
    requires { H.is_small heap.now }
    ensures { IfOk result (λ graph.
        graph ≡ dump_below (H.limit_of heap.now) (H.graph heap.now)) }
{
    let mut numbering = Numbering::new(alloc, heap.limit())?;
    numbering.put_roots(heap, MAX_OWNERS, MAX_SLOTS)?;
    numbering.put_objects(heap)?;
    Ok(numbering.finish())
}
