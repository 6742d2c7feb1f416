//! Laws of the text's definition. Each function does nothing: its contract is the law.

ghost use Rattle.std.specs.Prelude.{◌≡◌, ◌↔◌, ◌+◌, ◌^◌, ◌<◌, ℕ, Contains, Some, length, slice_get, true};
ghost use Rattle.std.specs.List.{filter};
ghost use Rattle.rh_layout.specs.declared.command.RootId.{RootId};
ghost use Rattle.rh_layout.specs.declared.value.Value.{Value};
ghost use Rattle.rh_layout.specs.declared.value.Value.TheVariants.{Ref};
ghost use Rattle.rh_layout.specs.Value.{is_reference};
ghost use Rattle.rh_text.specs.RawLine.{lines_of};
ghost use Rattle.rh_model.specs.Plain.{PlainObject};
ghost use Rattle.rh_dump.specs.Dump.{GraphState, IsGraph, values_of};
ghost use Rattle.rh_dot.specs.Dot.{dot_line_text, dot_lines, dot_text, field_edge, object_node, root_edge, root_node};

/// Among the lines of a graph stands an edge exactly for each reference: from a root that holds it,
/// and from a field of an object that holds it.
pub fn each_reference_has_its_edge()
    ensures roots { (g : GraphState) (root : RootId) (to : ℕ)
        → Contains (dot_lines g) (root_edge root to) ↔ Contains g.roots (root, Ref to) }
    ensures fields { (g : GraphState) (number field to : ℕ)
        → Contains (dot_lines g) (field_edge number field to)
        ↔ ((object : PlainObject) × (slice_get g.objects number ≡ Some object)
        × (slice_get object.fields field ≡ Some (Ref to))) }
{}

/// Among the lines of a graph stands a node exactly for each root that isn't nil, with what it
/// holds, and for each object, with its number and its fields.
pub fn each_root_and_object_has_its_node()
    ensures roots { (g : GraphState) (root : RootId) (value : Value)
        → Contains (dot_lines g) (root_node root value) ↔ Contains g.roots (root, value) }
    ensures objects { (g : GraphState) (number : ℕ) (object : PlainObject)
        → Contains (dot_lines g) (object_node number object)
        ↔ (slice_get g.objects number ≡ Some object) }
{}

/// There are as many lines as roots, objects and references, and the first and the last.
pub fn there_are_no_other_lines()
    ensures { (g : GraphState) → length (dot_lines g)
        ≡ 2 + (length g.roots + (length g.objects + length (filter is_reference (values_of g)))) }
{}

/// The references are read from the text: a line of it is an edge's exactly where the root or the
/// field holds that reference.
pub fn references_are_read_from_the_text()
    ensures roots { (g : GraphState) (root : RootId) (to : ℕ) → IsGraph g
        → root.owner < 2 ^ 32 → root.slot < 2 ^ 32 → to < 2 ^ 32
        → Contains (lines_of (dot_text g))
        (record { bytes = dot_line_text (root_edge root to); ended = true })
        ↔ Contains g.roots (root, Ref to) }
    ensures fields { (g : GraphState) (number field to : ℕ) → IsGraph g
        → number < 2 ^ 32 → field < 2 ^ 32 → to < 2 ^ 32
        → Contains (lines_of (dot_text g))
        (record { bytes = dot_line_text (field_edge number field to); ended = true })
        ↔ ((object : PlainObject) × (slice_get g.objects number ≡ Some object)
        × (slice_get object.fields field ≡ Some (Ref to))) }
{}

/// Two graphs with the same text are equal, so that each root, object, field and kind is told.
pub fn each_text_is_of_one_graph()
    ensures { (g h : GraphState) → IsGraph g → IsGraph h → dot_text g ≡ dot_text h → g ≡ h }
{}
