//! A graph written as a text for Graphviz.

ghost use Rattle.std.specs.Prelude.{◌≡◌, ◌∷◌, length, false, OnOk, OnErr};
ghost use Rattle.std.specs.Io.KnownBytes.{Appends};
ghost use Rattle.std.specs.List.{flat_map};
ghost use Rattle.rh_text.specs.IoLog.{AreSpent, AreSpentSince, MadeSince};
ghost use Rattle.rh_text.specs.Output.{AppendsLess};
ghost use Rattle.rh_dump.specs.Graph.{objects_in, total};
ghost use Rattle.rh_dot.specs.Dot.{cells_text, dot_text, field_edges, object_lines, object_node, root_lines, spell_dot_line};

use crate::spelling::{put_cell, put_edge, put_object_head, put_root_lines};
use rh_dump::Graph;
use rh_layout::{RootId, Shape, Value};
use rh_text::{IoLog, LineText, Write, send};
use std::alloc::Allocator;
use std::io;

/// Writes the lines of roots.
fn write_roots<W: io::Write>(
    text: &mut LineText,
    writer: &mut W,
    writes: &mut IoLog,
    roots: &[(RootId, Value)],
) -> Result<(), Write>
    requires { writes.old.failed ≡ false }
    ensures ok { OnOk result (Appends (W.contents writer.old) (W.contents writer.new)
        (flat_map spell_dot_line (flat_map root_lines roots.now))) }
    ensures err { OnErr result (AppendsLess (W.contents writer.old) (W.contents writer.new)
        (flat_map spell_dot_line (flat_map root_lines roots.now))) }
    ensures failed { OnErr result (AreSpent writes.new) }
    ensures none_failed { OnOk result (writes.new.failed ≡ false) }
    ensures spent { OnErr result (AreSpentSince writes.old writes.new) }
    ensures counted { MadeSince 0 writes.old writes.new }
{
    for entry in roots {
        put_root_lines(text, entry.0, entry.1);
        send(writer, writes, text.as_bytes())?;
    }
    Ok(())
}

/// Writes the fields of an object's node.
fn write_cells<W: io::Write>(
    text: &mut LineText,
    writer: &mut W,
    writes: &mut IoLog,
    fields: &[Value],
) -> Result<(), Write>
    requires { writes.old.failed ≡ false }
    ensures ok { OnOk result (Appends (W.contents writer.old) (W.contents writer.new)
        (cells_text 0 fields.now)) }
    ensures err { OnErr result (AppendsLess (W.contents writer.old) (W.contents writer.new)
        (cells_text 0 fields.now)) }
    ensures failed { OnErr result (AreSpent writes.new) }
    ensures none_failed { OnOk result (writes.new.failed ≡ false) }
    ensures spent { OnErr result (AreSpentSince writes.old writes.new) }
    ensures counted { MadeSince 0 writes.old writes.new }
{
    let mut field = 0;
    for value in fields {
        put_cell(text, field, *value);
        send(writer, writes, text.as_bytes())?;
        field += 1;
    }
    Ok(())
}

/// Writes the edges of an object's fields.
fn write_edges<W: io::Write>(
    text: &mut LineText,
    writer: &mut W,
    writes: &mut IoLog,
    number: usize,
    fields: &[Value],
) -> Result<(), Write>
    requires { writes.old.failed ≡ false }
    ensures ok { OnOk result (Appends (W.contents writer.old) (W.contents writer.new)
        (flat_map spell_dot_line (field_edges number 0 fields.now))) }
    ensures err { OnErr result (AppendsLess (W.contents writer.old) (W.contents writer.new)
        (flat_map spell_dot_line (field_edges number 0 fields.now))) }
    ensures failed { OnErr result (AreSpent writes.new) }
    ensures none_failed { OnOk result (writes.new.failed ≡ false) }
    ensures spent { OnErr result (AreSpentSince writes.old writes.new) }
    ensures counted { MadeSince 0 writes.old writes.new }
{
    let mut field = 0;
    for value in fields {
        put_edge(text, number, field, *value);
        send(writer, writes, text.as_bytes())?;
        field += 1;
    }
    Ok(())
}

/// Writes the lines of an object.
fn write_object<W: io::Write>(
    text: &mut LineText,
    writer: &mut W,
    writes: &mut IoLog,
    number: usize,
    raw: bool,
    fields: &[Value],
) -> Result<(), Write>
    requires { writes.old.failed ≡ false }
    ensures ok { OnOk result (Appends (W.contents writer.old) (W.contents writer.new)
        (flat_map spell_dot_line
        (object_node number (record { raw = raw; fields = fields.now })
        ∷ field_edges number 0 fields.now))) }
    ensures err { OnErr result (AppendsLess (W.contents writer.old) (W.contents writer.new)
        (flat_map spell_dot_line
        (object_node number (record { raw = raw; fields = fields.now })
        ∷ field_edges number 0 fields.now))) }
    ensures failed { OnErr result (AreSpent writes.new) }
    ensures none_failed { OnOk result (writes.new.failed ≡ false) }
    ensures spent { OnErr result (AreSpentSince writes.old writes.new) }
    ensures counted { MadeSince 0 writes.old writes.new }
{
    put_object_head(text, number, raw);
    send(writer, writes, text.as_bytes())?;
    write_cells(text, writer, writes, fields)?;
    send(writer, writes, b"\"]\n")?;
    write_edges(text, writer, writes, number, fields)
}

/// Writes the lines of objects, whose fields stand one after the other.
fn write_objects<W: io::Write>(
    text: &mut LineText,
    writer: &mut W,
    writes: &mut IoLog,
    shapes: &[Shape],
    values: &[Value],
) -> Result<(), Write>
    requires none_failed { writes.old.failed ≡ false }
    requires filled { total shapes.now ≡ length values.now }
    ensures ok { OnOk result (Appends (W.contents writer.old) (W.contents writer.new)
        (flat_map spell_dot_line (object_lines 0 (objects_in shapes.now values.now)))) }
    ensures err { OnErr result (AppendsLess (W.contents writer.old) (W.contents writer.new)
        (flat_map spell_dot_line (object_lines 0 (objects_in shapes.now values.now)))) }
    ensures failed { OnErr result (AreSpent writes.new) }
    ensures none_failed { OnOk result (writes.new.failed ≡ false) }
    ensures spent { OnErr result (AreSpentSince writes.old writes.new) }
    ensures counted { MadeSince 0 writes.old writes.new }
{
    let mut rest = values;
    let mut number = 0;
    for shape in shapes {
        let (fields, others) = rest.split_at(shape.fields as usize);
        write_object(text, writer, writes, number, shape.raw, fields)?;
        number += 1;
        rest = others;
    }
    Ok(())
}

/// Writes the text of a graph for Graphviz, a line or a part of one in each write that the writer
/// takes whole: a box at the left for each root, with what it holds; a table for each object, with
/// its number and what its fields hold, which is round where the object is raw; and an arrow for
/// each reference. It takes no memory. It tells in `writes` whether a write failed.
///
/// # Errors
///
/// `Write` where a write failed, or 33,554,432 writes of a line or a part of one didn't come to its
/// end. A prefix of the text was written then.
pub fn write_dot<A: Allocator, W: io::Write>(
    graph: &Graph<A>,
    writer: &mut W,
    writes: &mut IoLog,
) -> Result<(), Write>
    requires { writes.old.failed ≡ false }
    ensures ok { OnOk result (Appends (W.contents writer.old) (W.contents writer.new)
        (dot_text graph.now)) }
    ensures err { OnErr result (AppendsLess (W.contents writer.old) (W.contents writer.new)
        (dot_text graph.now)) }
    // It is refused only where a write failed or none was left, and no write failed where it isn't.
    ensures failed { OnErr result (AreSpent writes.new) }
    ensures none_failed { OnOk result (writes.new.failed ≡ false) }
    // Where it is refused and no write failed, at least 33,554,432 were made in this call, unless
    // the count of calls is full. That each text has its own is `send`'s to say.
    ensures spent { OnErr result (AreSpentSince writes.old writes.new) }
    ensures counted { MadeSince 0 writes.old writes.new }
{
    let (shapes, values) = graph.object_parts();
    let mut text = LineText::new();
    send(writer, writes, b"digraph rheap { rankdir=LR\n")?;
    write_roots(&mut text, writer, writes, graph.root_entries())?;
    write_objects(&mut text, writer, writes, shapes, values)?;
    send(writer, writes, b"}\n")
}
