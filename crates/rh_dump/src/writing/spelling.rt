//! The texts of a dump's lines.

ghost use Rattle.std.specs.Prelude.{◌≡◌, ◌+◌, ◌≤◌, ◌++◌, ◌∷◌, [], decimal, length};
ghost use Rattle.std.specs.List.{join_with_byte};
ghost use Rattle.rh_dump.specs.declared.reading.due.Version.TheVariants.{Two};
ghost use Rattle.rh_dump.specs.texts.Line.{kind_parts, spell_dump_line, value_text, header_line, roots_line, root_line, objects_line};

use rh_layout::{RootId, Value};
use rh_text::LineText;

/// The text becomes that of the first two lines, where so many roots aren't nil.
pub fn put_head(text: &mut LineText, roots: usize)
    ensures { text.new ≡ spell_dump_line (header_line Two) ++ spell_dump_line (roots_line roots) }
{
    text.clear();
    text.put(b"rheap 2\nroots ");
    text.put_integer(roots);
    text.put(b"\n");
}

/// Puts `nil`, a whole number, or `@` and the number of an object at the end.
pub fn put_value(text: &mut LineText, value: Value)
    requires { length text.old ≤ 235 }
    ensures value { text.new ≡ text.old ++ value_text value }
    ensures len { length text.new ≤ length text.old + 21 }
{
    match value {
        Value::Nil => text.put(b"nil"),
        Value::Int(number) => text.put_integer(number),
        Value::Ref(number) => {
            text.put(b"@");
            text.put_integer(number);
        }
    }
}

/// The text becomes that of a root's line.
pub fn put_root_line(text: &mut LineText, root: RootId, value: Value)
    ensures { text.new ≡ spell_dump_line (root_line root value) }
{
    text.clear();
    text.put_root(root);
    text.put(b" ");
    put_value(text, value);
    text.put(b"\n");
}

/// The text becomes that of the line that tells the number of objects.
pub fn put_objects_line(text: &mut LineText, objects: usize)
    ensures { text.new ≡ spell_dump_line (objects_line objects) }
{
    text.clear();
    text.put(b"objects ");
    text.put_integer(objects);
    text.put(b"\n");
}

/// The text becomes the parts of an object's line before its values.
pub fn put_object_head(text: &mut LineText, number: usize, raw: bool, fields: usize)
    ensures { text.new
        ≡ join_with_byte 32 ((64 ∷ decimal number) ∷ (kind_parts raw ++ decimal fields ∷ [])) }
{
    text.clear();
    text.put(b"@");
    text.put_integer(number);
    if raw {
        text.put(b" raw");
    }
    text.put(b" ");
    text.put_integer(fields);
}

/// The text becomes a further part of a line.
pub fn put_next_value(text: &mut LineText, value: Value)
    ensures { text.new ≡ 32 ∷ value_text value }
{
    text.clear();
    text.put(b" ");
    put_value(text, value);
}
