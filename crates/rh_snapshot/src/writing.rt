//! A graph written as a heap snapshot.

ghost use Rattle.std.specs.Prelude.{◌≡◌, ◌∷◌, length, map, true, false, OnOk, OnErr};
ghost use Rattle.std.specs.Io.KnownBytes.{Appends};
ghost use Rattle.rh_text.specs.IoLog.{AreSpent, AreSpentSince, MadeSince};
ghost use Rattle.rh_text.specs.Output.{AppendsLess};
ghost use Rattle.rh_dump.specs.Graph.{objects_in, total};
ghost use Rattle.rh_snapshot.specs.Snapshot.{field_edges, object_edges, object_nodes, root_edges};
ghost use Rattle.rh_snapshot.specs.Text.{edge_text, edges_section, listed, node_text, nodes_section, root_string, snapshot_text};

use crate::counting::{count_references, count_root_references};
use crate::spelling::{
    put_counts, put_field_edge, put_object_node, put_root_edge, put_roots_node, put_string,
};
use rh_dump::Graph;
use rh_layout::{RootId, Shape, Value};
use rh_text::{IoLog, LineText, Write, send};
use std::alloc::Allocator;
use std::io;

/// What the numbers of nodes and edges are.
const META: &[u8] = b"{\"snapshot\":{\"meta\":{
\"node_fields\":[\"type\",\"name\",\"id\",\"self_size\",\"edge_count\",\"trace_node_id\",\"detachedness\"],
\"node_types\":[[\"hidden\",\"array\",\"string\",\"object\",\"code\",\"closure\",\"regexp\",\"number\",\"native\",\"synthetic\",\"concatenated string\",\"sliced string\",\"symbol\",\"bigint\",\"object shape\"],
\"string\",\"number\",\"number\",\"number\",\"number\",\"number\"],
\"edge_fields\":[\"type\",\"name_or_index\",\"to_node\"],
\"edge_types\":[[\"context\",\"element\",\"property\",\"internal\",\"hidden\",\"shortcut\",\"weak\"],\"string_or_number\",\"node\"],
\"trace_function_info_fields\":[\"function_id\",\"name\",\"script_name\",\"script_id\",\"line\",\"column\"],
\"trace_node_fields\":[\"id\",\"function_info_index\",\"count\",\"size\",\"children\"],
\"sample_fields\":[\"timestamp_us\",\"last_assigned_id\"],
\"location_fields\":[\"object_index\",\"script_id\",\"line\",\"column\"]},
";

/// What comes between the edges and the names of roots: what a dump has none of, and the names of
/// nodes.
const NAMES: &[u8] = b"],
\"trace_function_infos\":[],
\"trace_tree\":[],
\"samples\":[],
\"locations\":[],
\"strings\":[\"(roots)\",
\"object\",
\"raw object\"";

/// The words of an object beside its fields: its header and its forward word.
const OTHER_WORDS: u64 = 2;

/// The bytes of a word of a space, with the number beside it.
const WORD_BYTES: u64 = 16;

/// Writes the nodes of objects, whose fields stand one after the other.
fn write_nodes<W: io::Write>(
    text: &mut LineText,
    writer: &mut W,
    writes: &mut IoLog,
    shapes: &[Shape],
    values: &[Value],
) -> Result<(), Write>
    requires none_failed { writes.old.failed ≡ false }
    requires filled { total shapes.now ≡ length values.now }
    ensures ok { OnOk result (Appends (W.contents writer.old) (W.contents writer.new)
        (listed false (map node_text (object_nodes 0 (objects_in shapes.now values.now))))) }
    ensures err { OnErr result (AppendsLess (W.contents writer.old) (W.contents writer.new)
        (listed false (map node_text (object_nodes 0 (objects_in shapes.now values.now))))) }
    ensures failed { OnErr result (AreSpent writes.new) }
    ensures none_failed { OnOk result (writes.new.failed ≡ false) }
    ensures spent { OnErr result (AreSpentSince writes.old writes.new) }
    ensures counted { MadeSince 0 writes.old writes.new }
{
    let mut rest = values;
    let mut number = 0;
    for shape in shapes {
        let (fields, others) = rest.split_at(shape.fields as usize);
        let size = (shape.fields as u64 + OTHER_WORDS) * WORD_BYTES;
        put_object_node(text, number, shape.raw, size, count_references(fields));
        send(writer, writes, text.as_bytes())?;
        number += 1;
        rest = others;
    }
    Ok(())
}

/// Writes the edges of roots, the first of all edges among them.
fn write_root_edges<W: io::Write>(
    text: &mut LineText,
    writer: &mut W,
    writes: &mut IoLog,
    roots: &[(RootId, Value)],
) -> Result<(), Write>
    requires { writes.old.failed ≡ false }
    ensures ok { OnOk result (Appends (W.contents writer.old) (W.contents writer.new)
        (listed true (map edge_text (root_edges 0 roots.now)))) }
    ensures err { OnErr result (AppendsLess (W.contents writer.old) (W.contents writer.new)
        (listed true (map edge_text (root_edges 0 roots.now)))) }
    ensures failed { OnErr result (AreSpent writes.new) }
    ensures none_failed { OnOk result (writes.new.failed ≡ false) }
    ensures spent { OnErr result (AreSpentSince writes.old writes.new) }
    ensures counted { MadeSince 0 writes.old writes.new }
{
    let mut is_first = true;
    let mut position = 0;
    for root in roots {
        is_first = put_root_edge(text, is_first, position, root.1);
        send(writer, writes, text.as_bytes())?;
        position += 1;
    }
    Ok(())
}

/// Writes the edges of an object's fields.
fn write_edges<W: io::Write>(
    text: &mut LineText,
    writer: &mut W,
    writes: &mut IoLog,
    fields: &[Value],
) -> Result<(), Write>
    requires { writes.old.failed ≡ false }
    ensures ok { OnOk result (Appends (W.contents writer.old) (W.contents writer.new)
        (listed false (map edge_text (field_edges 0 fields.now)))) }
    ensures err { OnErr result (AppendsLess (W.contents writer.old) (W.contents writer.new)
        (listed false (map edge_text (field_edges 0 fields.now)))) }
    ensures failed { OnErr result (AreSpent writes.new) }
    ensures none_failed { OnOk result (writes.new.failed ≡ false) }
    ensures spent { OnErr result (AreSpentSince writes.old writes.new) }
    ensures counted { MadeSince 0 writes.old writes.new }
{
    let mut field = 0;
    for value in fields {
        put_field_edge(text, field, *value);
        send(writer, writes, text.as_bytes())?;
        field += 1;
    }
    Ok(())
}

/// Writes the edges of objects, whose fields stand one after the other.
fn write_object_edges<W: io::Write>(
    text: &mut LineText,
    writer: &mut W,
    writes: &mut IoLog,
    shapes: &[Shape],
    values: &[Value],
) -> Result<(), Write>
    requires none_failed { writes.old.failed ≡ false }
    requires filled { total shapes.now ≡ length values.now }
    ensures ok { OnOk result (Appends (W.contents writer.old) (W.contents writer.new)
        (listed false (map edge_text (object_edges (objects_in shapes.now values.now))))) }
    ensures err { OnErr result (AppendsLess (W.contents writer.old) (W.contents writer.new)
        (listed false (map edge_text (object_edges (objects_in shapes.now values.now))))) }
    ensures failed { OnErr result (AreSpent writes.new) }
    ensures none_failed { OnOk result (writes.new.failed ≡ false) }
    ensures spent { OnErr result (AreSpentSince writes.old writes.new) }
    ensures counted { MadeSince 0 writes.old writes.new }
{
    let mut rest = values;
    for shape in shapes {
        let (fields, others) = rest.split_at(shape.fields as usize);
        write_edges(text, writer, writes, fields)?;
        rest = others;
    }
    Ok(())
}

/// Writes the names of roots.
fn write_strings<W: io::Write>(
    text: &mut LineText,
    writer: &mut W,
    writes: &mut IoLog,
    roots: &[(RootId, Value)],
) -> Result<(), Write>
    requires { writes.old.failed ≡ false }
    ensures ok { OnOk result (Appends (W.contents writer.old) (W.contents writer.new)
        (listed false (map root_string roots.now))) }
    ensures err { OnErr result (AppendsLess (W.contents writer.old) (W.contents writer.new)
        (listed false (map root_string roots.now))) }
    ensures failed { OnErr result (AreSpent writes.new) }
    ensures none_failed { OnOk result (writes.new.failed ≡ false) }
    ensures spent { OnErr result (AreSpentSince writes.old writes.new) }
    ensures counted { MadeSince 0 writes.old writes.new }
{
    for root in roots {
        put_string(text, root.0);
        send(writer, writes, text.as_bytes())?;
    }
    Ok(())
}

/// Writes what the numbers are, how many nodes and edges there are, and the nodes.
fn write_all_nodes<A: Allocator, W: io::Write>(
    text: &mut LineText,
    graph: &Graph<A>,
    writer: &mut W,
    writes: &mut IoLog,
) -> Result<(), Write>
    requires { writes.old.failed ≡ false }
    ensures ok { OnOk result (Appends (W.contents writer.old) (W.contents writer.new)
        (nodes_section graph.now)) }
    ensures err { OnErr result (AppendsLess (W.contents writer.old) (W.contents writer.new)
        (nodes_section graph.now)) }
    ensures failed { OnErr result (AreSpent writes.new) }
    ensures none_failed { OnOk result (writes.new.failed ≡ false) }
    ensures spent { OnErr result (AreSpentSince writes.old writes.new) }
    ensures counted { MadeSince 0 writes.old writes.new }
{
    let (shapes, values) = graph.object_parts();
    let root_references = count_root_references(graph.root_entries());
    let edges = root_references + count_references(values);
    send(writer, writes, META)?;
    put_counts(text, shapes.len() + 1, edges);
    send(writer, writes, text.as_bytes())?;
    put_roots_node(text, shapes.len(), root_references);
    send(writer, writes, text.as_bytes())?;
    write_nodes(text, writer, writes, shapes, values)
}

/// Writes the edges.
fn write_all_edges<A: Allocator, W: io::Write>(
    text: &mut LineText,
    graph: &Graph<A>,
    writer: &mut W,
    writes: &mut IoLog,
) -> Result<(), Write>
    requires { writes.old.failed ≡ false }
    ensures ok { OnOk result (Appends (W.contents writer.old) (W.contents writer.new)
        (edges_section graph.now)) }
    ensures err { OnErr result (AppendsLess (W.contents writer.old) (W.contents writer.new)
        (edges_section graph.now)) }
    ensures failed { OnErr result (AreSpent writes.new) }
    ensures none_failed { OnOk result (writes.new.failed ≡ false) }
    ensures spent { OnErr result (AreSpentSince writes.old writes.new) }
    ensures counted { MadeSince 0 writes.old writes.new }
{
    let (shapes, values) = graph.object_parts();
    send(writer, writes, b"],\n\"edges\":[")?;
    write_root_edges(text, writer, writes, graph.root_entries())?;
    write_object_edges(text, writer, writes, shapes, values)
}

/// Writes a graph as a heap snapshot, a line or a part of one in each write that the writer takes
/// whole: first a node for what holds the roots, and a node for each object, with its number and
/// the bytes that it takes in a space; then an edge for each reference, from a root by its name and
/// from a field by its number. It takes no memory. It tells in `writes` whether a write failed.
///
/// # Errors
///
/// `Write` where a write failed, or 33,554,432 writes of one of these texts didn't come to its end.
/// A prefix of the text was written then.
pub fn write_snapshot<A: Allocator, W: io::Write>(
    graph: &Graph<A>,
    writer: &mut W,
    writes: &mut IoLog,
) -> Result<(), Write>
    requires { writes.old.failed ≡ false }
    ensures ok { OnOk result (Appends (W.contents writer.old) (W.contents writer.new)
        (snapshot_text graph.now)) }
    ensures err { OnErr result (AppendsLess (W.contents writer.old) (W.contents writer.new)
        (snapshot_text graph.now)) }
    // It is refused only where a write failed or none was left, and no write failed where it isn't.
    ensures failed { OnErr result (AreSpent writes.new) }
    ensures none_failed { OnOk result (writes.new.failed ≡ false) }
    // Where it is refused and no write failed, at least 33,554,432 were made in this call, unless
    // the count of calls is full. That each text has its own is `send`'s to say.
    ensures spent { OnErr result (AreSpentSince writes.old writes.new) }
    ensures counted { MadeSince 0 writes.old writes.new }
{
    let mut text = LineText::new();
    write_all_nodes(&mut text, graph, writer, writes)?;
    write_all_edges(&mut text, graph, writer, writes)?;
    send(writer, writes, NAMES)?;
    write_strings(&mut text, writer, writes, graph.root_entries())?;
    send(writer, writes, b"]}\n")
}
