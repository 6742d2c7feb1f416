//! What can be read of the plain heap: its roots, and the fields of its objects.

ghost use Rattle.std.specs.Prelude.{◌≡◌, if◌then◌else◌, [], length, slice_get, unwrap_or, Some, None};
ghost use Rattle.std.specs.Option.{option_map};
ghost use Rattle.rh_layout.specs.Root.{has_root};
ghost use Rattle.rh_model.specs.Graph.{root_value};
ghost use Rattle.rh_model.specs.Plain.{field_lists, graph_of, kinds, IsPlain};
ghost use Rattle.rh_model.specs.PlainValue.{value_of_plain};

use crate::plain::Plain;
use crate::plain_value::PlainValue;
use rh_layout::RootId;
use std::alloc::Allocator;

impl<A: Allocator + Copy> Plain<A> {
    /// What the root holds; `None` where the heap has no such root.
    pub fn root(&self, id: RootId) -> Option<PlainValue>
        ensures { option_map value_of_plain result
            ≡ (if has_root self.now.owners self.now.slots id
            then Some (root_value (graph_of self.now) id) else None) }
    {
        if self.has(id) {
            Some(self.held_by(id))
        } else {
            None
        }
    }

    /// How many objects there are: their positions are below it.
    pub fn objects(&self) -> usize
        ensures objects { result ≡ length self.now.objects }
        ensures plain { IsPlain self.now }
    {
        self.objects.len()
    }

    /// How many fields the object has at this position in the list of objects, counted from 0;
    /// `None` where there is none.
    pub fn fields(&self, position: usize) -> Option<u32>
        ensures { result ≡ option_map length (slice_get (field_lists self.now.objects) position) }
    {
        match self.fields_of(PlainValue::Object(position)) {
            None => None,
            Some(fields) => Some(fields.len() as u32),
        }
    }

    /// Whether the object is raw at this position in the list of objects, counted from 0; `None`
    /// where there is none.
    pub fn raw(&self, position: usize) -> Option<bool>
        ensures { result ≡ slice_get (kinds self.now.objects) position }
    {
        if position < self.objects.len() {
            Some(self.objects[position].raw)
        } else {
            None
        }
    }

    /// What the field, counted from 0, holds of the object at this position in the list of objects;
    /// `None` where there is no such field.
    pub fn field(&self, position: usize, field: u32) -> Option<PlainValue>
        ensures { option_map value_of_plain result
            ≡ slice_get (unwrap_or (slice_get (field_lists self.now.objects) position) []) field }
    {
        match self.fields_of(PlainValue::Object(position)) {
            None => None,
            Some(fields) => match fields.get(field as usize) {
                None => None,
                Some(value) => Some(*value),
            },
        }
    }
}
