//! The texts of nodes, edges and strings.

ghost use Rattle.std.specs.Prelude.{◌≡◌, ◌+◌, ◌^◌, ◌<◌, ◌≤◌, ◌++◌, ◌∷◌, [], false, decimal, length, map};
ghost use Rattle.rh_text.specs.Root.{root_text};
ghost use Rattle.rh_snapshot.specs.Snapshot.{field_edge, kind_of, root_edge, the_roots};
ghost use Rattle.rh_snapshot.specs.Text.{counts_text, edge_text, is_still_first, kind_text, listed, numbers_text, place_of};

use rh_layout::{RootId, Value};
use rh_text::LineText;

/// How many numbers a node has.
const NODE_NUMBERS: u64 = 7;

/// How many names of nodes there are before those of roots.
const NODE_NAMES: usize = 3;

/// The text becomes that of how many nodes and edges there are.
pub fn put_counts(text: &mut LineText, nodes: usize, edges: usize)
    ensures { text.new ≡ counts_text nodes edges }
{
    text.clear();
    text.put(b"\"node_count\":");
    text.put_integer(nodes);
    text.put(b",\n\"edge_count\":");
    text.put_integer(edges);
    text.put(b",\n\"trace_function_count\":0},\n\"nodes\":[");
}

/// Puts the numbers of a node after its type and its name: its own number, its size in bytes, and
/// how many edges it has.
fn put_numbers(text: &mut LineText, id: usize, size: u64, edges: usize)
    requires { length text.old ≤ 128 }
    ensures { text.new ≡ text.old ++ numbers_text id size edges }
{
    text.put_integer(id);
    text.put(b",");
    text.put_integer(size);
    text.put(b",");
    text.put_integer(edges);
    text.put(b",0,0");
}

/// The text becomes that of the node that holds the roots, where there are so many objects, and so
/// many roots hold a reference.
pub fn put_roots_node(text: &mut LineText, objects: usize, edges: usize)
    ensures { text.new ≡ kind_text the_roots ++ numbers_text objects 0 edges }
{
    text.clear();
    text.put(b"9,0,");
    put_numbers(text, objects, 0, edges);
}

/// The text becomes that of an object's node after another one, where so many of its fields hold a
/// reference.
pub fn put_object_node(text: &mut LineText, id: usize, raw: bool, size: u64, edges: usize)
    ensures { text.new ≡ 44 ∷ 10 ∷ (kind_text (kind_of raw) ++ numbers_text id size edges) }
{
    text.clear();
    if raw {
        text.put(b",\n3,2,");
    } else {
        text.put(b",\n3,1,");
    }
    put_numbers(text, id, size, edges);
}

/// Puts where the node of an object begins among the numbers of all nodes.
fn put_place(text: &mut LineText, to: u32)
    requires { length text.old ≤ 128 }
    ensures { text.new ≡ text.old ++ 44 ∷ decimal (place_of to) }
{
    text.put(b",");
    text.put_integer((u64::from(to) + 1) * NODE_NUMBERS);
}

/// The text becomes that of a root's edge, if it holds a reference, and else empty. It has a comma
/// before it unless it is the first edge. Returns whether the next one is the first.
pub fn put_root_edge(text: &mut LineText, is_first: bool, position: usize, value: Value) -> bool
    requires { position + 3 < 2 ^ 64 }
    ensures text { text.new ≡ listed is_first (map edge_text (root_edge position value)) }
    ensures next { result ≡ is_still_first is_first (root_edge position value) }
{
    text.clear();
    let Value::Ref(to) = value else {
        return is_first;
    };
    if !is_first {
        text.put(b",\n");
    }
    text.put(b"2,");
    text.put_integer(position + NODE_NAMES);
    put_place(text, to);
    false
}

/// The text becomes that of a field's edge, if it holds a reference, and else empty. It has a comma
/// before it: the edge of a root is the first one.
pub fn put_field_edge(text: &mut LineText, field: usize, value: Value)
    ensures { text.new ≡ listed false (map edge_text (field_edge field value)) }
{
    text.clear();
    if let Value::Ref(to) = value {
        text.put(b",\n1,");
        text.put_integer(field);
        put_place(text, to);
    }
}

/// The text becomes that of a root's name after another string.
pub fn put_string(text: &mut LineText, root: RootId)
    ensures { text.new ≡ 44 ∷ 10 ∷ 34 ∷ (root_text root ++ 34 ∷ []) }
{
    text.clear();
    text.put(b",\n\"");
    text.put_root(root);
    text.put(b"\"");
}
