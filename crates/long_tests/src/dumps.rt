//! Dumps of the greatest sizes, and heaps of more than a million objects.

use crate::expectations::{ample, expect_equal};
use rh_core::{Config, Heap};
use rh_dump::limits::MAX_OBJECTS;
use rh_dump::{Graph, plain_graph, read_dump, same_text, write_dump};
use rh_layout::{Command, Operand, RootId};
use rh_model::Plain;
use rh_trace::graph;
use std::process::Abort;

const A: RootId = RootId { owner: 1, slot: 0 };

const B: RootId = RootId { owner: 1, slot: 1 };

/// Adds the line of an object of a chain to a dump: it has ten fields.
fn add_object(rt: &(impl AllocGlobal + Abort), text: &mut Vec<u8>, n: u32) {
    let next = n.saturating_add(1);
    let line = format!(in rt.alloc(); "@{n} 10 nil nil nil nil nil 1 2 3 @0 @{next}\n");
    let line = ample(rt, line);
    ample(rt, text.extend_from_slice(line.as_bytes()));
}

/// The dump of a chain of 1,100,000 objects, each with ten fields but the last.
fn chain(rt: &(impl AllocGlobal + Abort)) -> Vec<u8> {
    let mut text = Vec::new(rt.alloc());
    let first = b"rheap 2\nroots 1\n1.0 @0\nobjects 1100000\n".as_slice();
    ample(rt, text.extend_from_slice(first));
    for n in 0..1_099_999u32 {
        add_object(rt, &mut text, n);
    }
    ample(rt, text.extend_from_slice(b"@1099999 0\nend\n"));
    text
}

/// Ends the test unless this is the text of a graph.
fn expect_text_of(rt: &(impl AllocGlobal + Abort), graph: &Graph, text: &[u8]) {
    let mut written = Vec::new(rt.alloc());
    expect_equal(rt, write_dump(graph, &mut written), Ok(()));
    assert!(rt; written.as_slice() == text);
}

#[test]
fn a_dump_of_eleven_million_values(rt: HostRuntime) {
    let text = chain(&rt);
    let graph = read_dump(rt.alloc(), &mut { text.as_slice() }).ok();
    let graph = graph.expect(&rt, "a dump");
    expect_equal(&rt, graph.objects(), 1_100_000);
    expect_text_of(&rt, &graph, &text);
}

/// Sizes for a million objects of one field.
const LARGE: Config = Config {
    words: 4_194_304,
    ratio: 8,
    owners: 2,
    slots: 2,
    log_limit: 8,
    last_number: 2_000_000,
    last_epoch: 2,
};

/// A new object is made that refers to the one before, and is named in its place.
const LINK: &[Command] = &[
    Command::Alloc { dst: A, fields: 1 },
    Command::Store {
        obj: A,
        field: 0,
        operand: Operand::Root(B),
    },
    Command::Copy { dst: B, src: A },
];

/// Makes a chain of 1,100,000 objects in a heap and in a plain heap, which answer the same.
fn link(rt: &impl Abort, heap: &mut Heap, plain: &mut Plain) {
    for _ in 0..1_100_000u32 {
        for command in LINK {
            let answer = heap.command(1, command).ok();
            expect_equal(rt, answer, plain.command(1, command).ok());
        }
    }
}

/// Ends the test unless a heap and a plain heap have the same graph, of 1,100,000 objects.
fn expect_same_graph(rt: &(impl AllocGlobal + Abort), heap: &Heap, plain: &Plain) {
    let moving = graph(rt.alloc(), heap).ok().expect(rt, "a graph");
    assert!(rt; plain.objects() <= MAX_OBJECTS as usize);
    let never = plain_graph(rt.alloc(), plain).ok().expect(rt, "a graph");
    expect_equal(rt, moving.objects(), 1_100_000);
    assert!(rt; same_text(&moving, &never));
}

/// Makes the chain in a new heap and in this plain one, and expects the same graph of both.
fn expect_same_chain(rt: &(impl AllocGlobal + Abort), plain: &mut Plain) {
    let mut heap = Heap::new(rt.alloc(), LARGE).ok().expect(rt, "a heap");
    link(rt, &mut heap, plain);
    expect_same_graph(rt, &heap, plain);
}

#[test]
fn a_chain_of_a_million_objects(rt: HostRuntime) {
    let plain = Plain::new(rt.alloc(), 2, 2).ok();
    expect_same_chain(&rt, &mut plain.expect(&rt, "a plain heap"));
}
