//! Laws of heap snapshots. Each function does nothing: its contract is the law.

ghost use Rattle.std.specs.Prelude.{◌≡◌, ◌↔◌, ◌+◌, ◌++◌, ℕ, Contains, Some, true, false, length, map, slice_get};
ghost use Rattle.std.specs.List.{filter};
ghost use Rattle.rh_layout.specs.declared.command.RootId.{RootId};
ghost use Rattle.rh_layout.specs.declared.value.Value.TheVariants.{Ref};
ghost use Rattle.rh_layout.specs.Value.{is_reference};
ghost use Rattle.rh_model.specs.Plain.{PlainObject};
ghost use Rattle.rh_dump.specs.Dump.{GraphState, IsGraph, values_of};
ghost use Rattle.rh_snapshot.specs.Snapshot.{from_field, from_root, object_edges, object_node, root_edges, roots_node, snapshot_edges, snapshot_nodes};
ghost use Rattle.rh_snapshot.specs.Text.{edge_text, listed};

/// Each object has one node, which stands behind that of the roots at the place of its number: there
/// are no others. It has the object's number and its bytes.
pub fn each_object_has_one_node()
    ensures roots { (g : GraphState) → slice_get (snapshot_nodes g) 0 ≡ Some (roots_node g) }
    ensures objects { (g : GraphState) (number : ℕ) (object : PlainObject)
        → slice_get g.objects number ≡ Some object
        → slice_get (snapshot_nodes g) (number + 1) ≡ Some (object_node number object) }
    ensures no_others { (g : GraphState)
        → length (snapshot_nodes g) ≡ length g.objects + 1 }
{}

/// The node of the roots has an edge exactly for each root that holds a reference, and the node of
/// an object exactly for each of its fields that does. They lead to the object referred to.
pub fn each_reference_has_its_edge()
    ensures roots { (g : GraphState) (position to : ℕ)
        → Contains (roots_node g).edges (from_root position to)
        ↔ ((root : RootId) × (slice_get g.roots position ≡ Some (root, Ref to))) }
    ensures fields { (number field to : ℕ) (object : PlainObject)
        → Contains (object_node number object).edges (from_field field to)
        ↔ (slice_get object.fields field ≡ Some (Ref to)) }
{}

/// The text of a graph's edges is that of all its edges, node after node, with commas between them.
pub fn edges_are_listed()
    ensures { (g : GraphState) → IsGraph g → listed true (map edge_text (snapshot_edges g))
        ≡ listed true (map edge_text (root_edges 0 g.roots))
        ++ listed false (map edge_text (object_edges g.objects)) }
{}

/// There are as many edges as references: none is there twice.
pub fn there_are_no_other_edges()
    ensures { (g : GraphState)
        → length (snapshot_edges g) ≡ length (filter is_reference (values_of g)) }
{}
