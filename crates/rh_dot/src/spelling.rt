//! The texts of the lines, and of their parts.

ghost use Rattle.std.specs.Prelude.{◌≡◌, ◌+◌, ◌≤◌, ◌++◌, ◌∷◌, [], decimal, length};
ghost use Rattle.std.specs.List.{flat_map};
ghost use Rattle.rh_dot.specs.Dot.{cell_text, edges_of, object_head_text, root_lines, root_node, spell_dot_line};

use rh_dump::put_value;
use rh_layout::{RootId, Value};
use rh_text::LineText;

/// The text becomes that of a root's lines: its node, and its edge where it holds a reference.
pub fn put_root_lines(text: &mut LineText, root: RootId, value: Value)
    ensures { text.new ≡ flat_map spell_dot_line (root_lines (root, value)) }
{
    put_root_node(text, root, value);
    if let Value::Ref(to) = value {
        text.put(b"\"");
        text.put_root(root);
        put_target(text, b"\" -> \"@", to);
    }
}

/// The text becomes that of a root's node.
fn put_root_node(text: &mut LineText, root: RootId, value: Value)
    ensures value { text.new ≡ spell_dot_line (root_node root value) }
    ensures len { length text.new ≤ 120 }
{
    text.clear();
    text.put(b"{ rank=source \"");
    text.put_root(root);
    text.put(b"\" [shape=box label=\"");
    text.put_root(root);
    text.put(b" ");
    put_value(text, value);
    text.put(b"\"] }\n");
}

/// Puts the end of an edge's line: these bytes, the object's number, and the quote after it.
fn put_target(text: &mut LineText, before: &[u8], to: u32)
    requires { length text.old + length before.now ≤ 240 }
    ensures { text.new ≡ text.old ++ (before.now ++ (decimal to ++ 34 ∷ 10 ∷ [])) }
{
    text.put(before);
    text.put_integer(to);
    text.put(b"\"\n");
}

/// The text becomes the part of an object's node before its fields.
pub fn put_object_head(text: &mut LineText, number: usize, raw: bool)
    ensures { text.new ≡ object_head_text number raw }
{
    text.clear();
    text.put(b"\"@");
    text.put_integer(number);
    if raw {
        text.put(b"\" [shape=Mrecord label=\"@");
    } else {
        text.put(b"\" [shape=record label=\"@");
    }
    text.put_integer(number);
}

/// The text becomes that of a field in an object's node.
pub fn put_cell(text: &mut LineText, field: usize, value: Value)
    ensures { text.new ≡ cell_text field value }
{
    text.clear();
    text.put(b"|<");
    text.put_integer(field);
    text.put(b">");
    put_value(text, value);
}

/// The text becomes that of a field's edge, if the field holds a reference, and else empty.
pub fn put_edge(text: &mut LineText, number: usize, field: usize, value: Value)
    ensures { text.new ≡ flat_map spell_dot_line (edges_of number field value) }
{
    text.clear();
    if let Value::Ref(to) = value {
        text.put(b"\"@");
        text.put_integer(number);
        text.put(b"\":");
        text.put_integer(field);
        put_target(text, b" -> \"@", to);
    }
}
