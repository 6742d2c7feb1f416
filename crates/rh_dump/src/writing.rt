//! A graph written as its dump text.

ghost use Rattle.std.specs.Prelude.{◌≡◌, length, false, OnOk, OnErr};
ghost use Rattle.std.specs.Io.KnownBytes.{Appends};
ghost use Rattle.std.specs.List.{flat_map};
ghost use Rattle.rh_text.specs.IoLog.{AreSpent, AreSpentSince, MadeSince};
ghost use Rattle.rh_text.specs.Output.{AppendsLess};
ghost use Rattle.rh_dump.specs.Graph.{graph_in, objects_in, total};
ghost use Rattle.rh_dump.specs.texts.Line.{spell_dump_line, object_line, root_lines, object_lines, dump_text};

pub mod spelling;

use crate::dump_graph::Graph;
use crate::writing::spelling::{
    put_head, put_next_value, put_object_head, put_objects_line, put_root_line,
};
use rh_layout::{RootId, Shape, Value};
use rh_text::{IoLog, LineText, Write, send};
use std::alloc::Allocator;
use std::io;

/// Writes the lines of roots.
fn write_roots<W: io::Write>(
    text: &mut LineText,
    writer: &mut W,
    writes: &mut IoLog,
    roots: &[(RootId, Value)],
) -> Result<(), Write>
    requires { writes.old.failed ≡ false }
    ensures ok { OnOk result (Appends (W.contents writer.old) (W.contents writer.new)
        (flat_map spell_dump_line (root_lines roots.now))) }
    ensures err { OnErr result (AppendsLess (W.contents writer.old) (W.contents writer.new)
        (flat_map spell_dump_line (root_lines roots.now))) }
    ensures failed { OnErr result (AreSpent writes.new) }
    ensures none_failed { OnOk result (writes.new.failed ≡ false) }
    ensures spent { OnErr result (AreSpentSince writes.old writes.new) }
    ensures counted { MadeSince 0 writes.old writes.new }
{
    for entry in roots {
        put_root_line(text, entry.0, entry.1);
        send(writer, writes, text.as_bytes())?;
    }
    Ok(())
}

/// Writes the line of an object.
fn write_object<W: io::Write>(
    text: &mut LineText,
    writer: &mut W,
    writes: &mut IoLog,
    number: usize,
    raw: bool,
    fields: &[Value],
) -> Result<(), Write>
    requires { writes.old.failed ≡ false }
    ensures ok { OnOk result (Appends (W.contents writer.old) (W.contents writer.new)
        (spell_dump_line (object_line number (record { raw = raw; fields = fields.now })))) }
    ensures err { OnErr result (AppendsLess (W.contents writer.old) (W.contents writer.new)
        (spell_dump_line (object_line number (record { raw = raw; fields = fields.now })))) }
    ensures failed { OnErr result (AreSpent writes.new) }
    ensures none_failed { OnOk result (writes.new.failed ≡ false) }
    ensures spent { OnErr result (AreSpentSince writes.old writes.new) }
    ensures counted { MadeSince 0 writes.old writes.new }
{
    put_object_head(text, number, raw, fields.len());
    send(writer, writes, text.as_bytes())?;
    for value in fields {
        put_next_value(text, *value);
        send(writer, writes, text.as_bytes())?;
    }
    send(writer, writes, b"\n")
}

/// Writes the lines of objects, whose fields stand one after the other.
fn write_objects<W: io::Write>(
    text: &mut LineText,
    writer: &mut W,
    writes: &mut IoLog,
    shapes: &[Shape],
    values: &[Value],
) -> Result<(), Write>
    requires none_failed { writes.old.failed ≡ false }
    requires filled { total shapes.now ≡ length values.now }
    ensures ok { OnOk result (Appends (W.contents writer.old) (W.contents writer.new)
        (flat_map spell_dump_line (object_lines 0 (objects_in shapes.now values.now)))) }
    ensures err { OnErr result (AppendsLess (W.contents writer.old) (W.contents writer.new)
        (flat_map spell_dump_line (object_lines 0 (objects_in shapes.now values.now)))) }
    ensures failed { OnErr result (AreSpent writes.new) }
    ensures none_failed { OnOk result (writes.new.failed ≡ false) }
    ensures spent { OnErr result (AreSpentSince writes.old writes.new) }
    ensures counted { MadeSince 0 writes.old writes.new }
{
    let mut rest = values;
    let mut number = 0;
    for shape in shapes {
        let (fields, others) = rest.split_at(shape.fields as usize);
        write_object(text, writer, writes, number, shape.raw, fields)?;
        number += 1;
        rest = others;
    }
    Ok(())
}

/// Writes the dump text of the graph that is stored so.
fn write_flat<W: io::Write>(
    writer: &mut W,
    writes: &mut IoLog,
    roots: &[(RootId, Value)],
    shapes: &[Shape],
    values: &[Value],
) -> Result<(), Write>
    requires none_failed { writes.old.failed ≡ false }
    requires filled { total shapes.now ≡ length values.now }
    ensures ok { OnOk result (Appends (W.contents writer.old) (W.contents writer.new)
        (dump_text (graph_in (record {
          roots = roots.now;
          shapes = shapes.now;
          values = values.now;
        })))) }
    ensures err { OnErr result (AppendsLess (W.contents writer.old) (W.contents writer.new)
        (dump_text (graph_in (record {
          roots = roots.now;
          shapes = shapes.now;
          values = values.now;
        })))) }
    ensures failed { OnErr result (AreSpent writes.new) }
    ensures none_failed { OnOk result (writes.new.failed ≡ false) }
    ensures spent { OnErr result (AreSpentSince writes.old writes.new) }
    ensures counted { MadeSince 0 writes.old writes.new }
{
    let mut text = LineText::new();
    put_head(&mut text, roots.len());
    send(writer, writes, text.as_bytes())?;
    write_roots(&mut text, writer, writes, roots)?;
    put_objects_line(&mut text, shapes.len());
    send(writer, writes, text.as_bytes())?;
    write_objects(&mut text, writer, writes, shapes, values)?;
    send(writer, writes, b"end\n")
}

/// Writes the dump text of a graph, in version 2, a line or a part of a line in each write that the
/// writer takes whole. It takes no memory.
///
/// # Errors
///
/// `Write` where a write failed, or 33,554,432 writes of a line or a part of one didn't come to its
/// end (`write_dump_logged` says that it comes nowhere else). A prefix of the text was written
/// then.
pub fn write_dump<A: Allocator, W: io::Write>(graph: &Graph<A>, writer: &mut W) -> Result<(), Write>
    ensures ok { OnOk result (Appends (W.contents writer.old) (W.contents writer.new)
        (dump_text graph.now)) }
    ensures err { OnErr result (AppendsLess (W.contents writer.old) (W.contents writer.new)
        (dump_text graph.now)) }
{
    write_dump_logged(graph, writer, &mut IoLog::new())
}

/// Writes the dump text of a graph as `write_dump` does, and tells in `writes` whether a write
/// failed, and how many were made.
///
/// # Errors
///
/// As `write_dump`.
pub fn write_dump_logged<A: Allocator, W: io::Write>(
    graph: &Graph<A>,
    writer: &mut W,
    writes: &mut IoLog,
) -> Result<(), Write>
    requires { writes.old.failed ≡ false }
    ensures ok { OnOk result (Appends (W.contents writer.old) (W.contents writer.new)
        (dump_text graph.now)) }
    ensures err { OnErr result (AppendsLess (W.contents writer.old) (W.contents writer.new)
        (dump_text graph.now)) }
    // It is refused only where a write failed or none was left, and no write failed where it isn't.
    ensures failed { OnErr result (AreSpent writes.new) }
    ensures none_failed { OnOk result (writes.new.failed ≡ false) }
    // Where it is refused and no write failed, at least 33,554,432 were made in this call, unless
    // the count of calls is full. That each text has its own is `send`'s to say.
    ensures spent { OnErr result (AreSpentSince writes.old writes.new) }
    // No fewer were made than before.
    ensures counted { MadeSince 0 writes.old writes.new }
{
    write_flat(writer, writes, &graph.roots, &graph.shapes, &graph.values)
}
