//! Dumps read from their texts, and written.

use crate::expectations::{Row, ample, expect_equal};
use rh_dump::{DumpReadError, Graph, read_dump, read_dump_logged, same_text, write_dump};
use rh_text::IoLog;
use samples::devices::{SlowReader, SlowWriter};
use samples::texts::repeated;
use std::io;
use std::process::Abort;

/// An object that holds each kind of value, itself among them, and twice another, which is met
/// first through a field; and two roots.
const EACH_KIND: &[u8] =
    b"rheap 2\nroots 2\n0.3 @0\n15.9 -2305843009213693952\nobjects 2\n@0 5 nil @0 0 @1 @1\n@1 0\n\
        end\n";

/// The same graph as a text of the version before.
const EACH_KIND_BEFORE: &[u8] =
    b"rheap 1\nroots 2\n0.3 @0\n15.9 -2305843009213693952\nobjects 2\n@0 5 nil @0 0 @1 @1\n@1 0\n\
        end\n";

/// Raw objects, which hold each kind of value but references, or nothing.
const RAW: &[u8] =
    b"rheap 2\nroots 2\n0.0 @0\n0.1 @1\nobjects 3\n@0 raw 3 2305843009213693951 nil 0\n@1 1 @2\n\
        @2 raw 0\nend\n";

/// The dump of a heap without objects.
const EMPTY: &[u8] = b"rheap 2\nroots 0\nobjects 0\nend\n";

const EMPTY_BEFORE: &[u8] = b"rheap 1\nroots 0\nobjects 0\nend\n";

/// The graph that a dump is read as.
fn graph_of<R: AllocGlobal + Abort>(rt: &R, reader: &mut impl io::Read) -> Graph {
    read_dump(rt.alloc(), reader).ok().expect(rt, "a dump")
}

/// Expects this text of a graph.
fn expect_written<R: AllocGlobal + Abort>(rt: &R, graph: &Graph, text: &[u8]) {
    let mut written = Vec::new(rt.alloc());
    expect_equal(rt, write_dump(graph, &mut written), Ok(()));
    assert!(rt; written.as_slice() == text);
}

/// Checks that a text is read as a graph whose text it is.
fn expect_dump<R: AllocGlobal + Abort>(rt: &R, reader: &mut impl io::Read, text: &[u8]) {
    let graph = graph_of(rt, reader);
    expect_written(rt, &graph, text);
    let mut writer = SlowWriter::new(rt, 1000, 2);
    assert!(rt; write_dump(&graph, &mut writer).is_err());
    assert!(rt; text.starts_with(writer.text.as_slice()));
}

#[test]
fn what_is_read_is_written_again(rt: HostRuntime) {
    for (row, &text) in [EMPTY, EACH_KIND, RAW].iter().enumerate() {
        let rt = Row { rt: &rt, row };
        expect_dump(&rt, &mut { text }, text);
    }
}

/// Whether a graph has the same text as the one that a dump is read as.
fn has_text_of<R: AllocGlobal + Abort>(rt: &R, graph: &Graph, dump: &[u8]) -> bool {
    let other = graph_of(rt, &mut { dump });
    same_text(graph, &other)
}

/// Expects a text of the version before to be read as the graph of this dump.
fn expect_read_as<R: AllocGlobal + Abort>(rt: &R, text: &[u8], dump: &[u8]) {
    let graph = graph_of(rt, &mut { text });
    expect_written(rt, &graph, dump);
    assert!(rt; has_text_of(rt, &graph, dump));
}

#[test]
fn a_text_of_the_version_before_is_read(rt: HostRuntime) {
    let texts = [(EMPTY_BEFORE, EMPTY), (EACH_KIND_BEFORE, EACH_KIND)];
    for (row, &(text, dump)) in texts.iter().enumerate() {
        expect_read_as(&Row { rt: &rt, row }, text, dump);
    }
}

/// Texts that differ in a kind, in a count of fields, in a value or in a root.
const APART: &[&[u8]] = &[
    b"rheap 2\nroots 1\n1.0 @0\nobjects 1\n@0 1 5\nend\n",
    b"rheap 2\nroots 1\n1.0 @0\nobjects 1\n@0 raw 1 5\nend\n",
    b"rheap 2\nroots 1\n1.0 @0\nobjects 1\n@0 raw 1 nil\nend\n",
    b"rheap 2\nroots 1\n1.0 @0\nobjects 1\n@0 raw 0\nend\n",
    b"rheap 2\nroots 1\n1.1 @0\nobjects 1\n@0 raw 0\nend\n",
];

/// Whether two dumps are read as graphs with the same text.
fn have_one_text<R: AllocGlobal + Abort>(rt: &R, text: &[u8], other: &[u8]) -> bool {
    let graph = graph_of(rt, &mut { text });
    has_text_of(rt, &graph, other)
}

#[test]
fn graphs_have_one_text(rt: HostRuntime) {
    for (i, &text) in APART.iter().enumerate() {
        let rt = Row { rt: &rt, row: i };
        for (k, &other) in APART.iter().enumerate() {
            let rt = Row { rt: &rt, row: k };
            expect_equal(&rt, have_one_text(&rt, text, other), i == k);
        }
    }
}

/// The greatest object: more bytes than are asked of a reader at once, given one a time.
#[test]
fn a_dump_in_many_reads(rt: HostRuntime) {
    let first = b"rheap 2\nroots 1\n1.0 @0\nobjects 1\n@0 4095".as_slice();
    let mut text = ample(&rt, repeated(&rt, first, b" -2305843009213693952", 4_095));
    ample(&rt, text.extend_from_slice(b"\nend\n"));
    expect_dump(&rt, &mut SlowReader::new(&text, 0), &text);
}

/// Adds the lines of an owner's 256 roots to a dump.
fn add_roots<R: AllocGlobal + Abort>(rt: &R, text: &mut Vec<u8>, owner: u32) {
    for slot in 0..256u32 {
        let root = ample(rt, format!(in rt.alloc(); "{owner}.{slot} 7\n"));
        ample(rt, text.extend_from_slice(root.as_bytes()));
    }
}

#[test]
fn the_most_roots(rt: HostRuntime) {
    let mut text = ample(&rt, repeated(&rt, b"rheap 2\nroots 4096\n", b"", 0));
    for owner in 0..16u32 {
        add_roots(&rt, &mut text, owner);
    }
    ample(&rt, text.extend_from_slice(b"objects 0\nend\n"));
    expect_dump(&rt, &mut { text.as_slice() }, &text);
}

#[test]
fn reads_tell_which_failed(rt: HostRuntime) {
    // The read that fails, how many may be made, how reading ends, and what the log tells.
    let table = [
        (0, 1000, None, false),
        (9, 1000, Some(DumpReadError::Read), true),
        (0, 9, Some(DumpReadError::Read), false),
    ];
    for (row, &(nth, limit, error, told)) in table.iter().enumerate() {
        let rt = Row { rt: &rt, row };
        let mut reader = SlowReader::new(EMPTY, nth);
        let mut reads = IoLog::limited(limit);
        let outcome = read_dump_logged(rt.alloc(), &mut reader, &mut reads);
        expect_equal(&rt, outcome.err(), error);
        expect_equal(&rt, reads.has_failed(), told);
    }
}
