//! Dumps of heaps and of plain heaps, which answer the same.

use crate::expectations::{Row, expect_bytes, expect_equal};
use rh_core::Heap;
use rh_dump::limits::MAX_OBJECTS;
use rh_dump::{Graph, plain_graph, same_text, write_dump};
use rh_layout::Command;
use rh_model::{CommandError, Plain};
use rh_partial::{PartialReplica, Piece};
use rh_trace::{Request, Trace, config_of, graph, parse, write_answer};
use samples::texts::WITHOUT_FIELDS;
use std::alloc::Allocator;
use std::process::Abort;

/// Traces, each with what its commands are answered, and the dump after it.
const PLAYED: &[(&[u8], &[u8], &[u8])] = &[
    // An object that refers to itself, and twice to another, which is met first through a field;
    // and one that no root reaches.
    (
        b"heap 64 8 8 2 3\n1 alloc 1.0 3\n1 alloc 1.2 3\n1 alloc 1.1 0\n1 store 1.0 0 1.0\n\
            1 store 1.0 1 1.1\n1 store 1.0 2 1.1\n1 drop 1.1\n1 drop 1.2\n",
        b"object 3\nobject 3\nobject 0\ndone\ndone\ndone\ndone\ndone\n",
        b"rheap 2\nroots 1\n1.0 @0\nobjects 2\n@0 3 @0 @1 @1\n@1 0\nend\n",
    ),
    (
        b"heap 64 8 8 2 3\n",
        b"",
        b"rheap 2\nroots 0\nobjects 0\nend\n",
    ),
    // Two objects, of which the one that was made last is named first.
    (
        b"heap 64 8 8 2 3\n1 alloc 1.1 0\n1 alloc 1.0 1\n",
        b"object 0\nobject 1\n",
        b"rheap 2\nroots 2\n1.0 @0\n1.1 @1\nobjects 2\n@0 1 nil\n@1 0\nend\n",
    ),
    // A raw object, and one that isn't, which refers to it; both have the same fields but one.
    (
        b"heap 64 8 8 2 3\n1 raw 1.1 2\n1 store 1.1 0 -7\n1 alloc 1.0 2\n1 store 1.0 0 -7\n\
            1 store 1.0 1 1.1\n",
        b"raw 2\ndone\nobject 2\ndone\ndone\n",
        b"rheap 2\nroots 2\n1.0 @0\n1.1 @1\nobjects 2\n@0 2 -7 @1\n@1 raw 2 -7 nil\nend\n",
    ),
    (
        WITHOUT_FIELDS,
        b"object 0\nrefused NoField\n",
        b"rheap 2\nroots 1\n1.0 @0\nobjects 1\n@0 0\nend\n",
    ),
    // An object that two fields refer to, before and after a flip.
    (
        b"heap 64 8 8 2 3\n1 alloc 1.0 2\n1 alloc 1.1 0\n1 store 1.0 0 1.1\n1 store 1.0 1 1.1\n\
            1 load 1.2 1.0 1\n1 same 1.1 1.2\n1 drop 1.1\n1 drop 1.2\nbegin\n1 alloc 1.1 3\n\
            1 drop 1.1\nshade 1.0\ndeal copies 9 a\ngive a\nflip\n1 load 1.1 1.0 0\n\
            1 load 1.2 1.0 1\n1 same 1.1 1.2\n",
        b"object 2\nobject 0\ndone\ndone\nobject 0\nsame yes\ndone\ndone\nobject 3\ndone\n\
            object 0\nobject 0\nsame yes\n",
        b"rheap 2\nroots 3\n1.0 @0\n1.1 @1\n1.2 @1\nobjects 2\n@0 2 @1 @1\n@1 0\nend\n",
    ),
    // The ends of the whole numbers.
    (
        b"heap 16 8 4 2 2\n1 alloc 1.0 1\n1 store 1.0 0 -2305843009213693952\n1 load 1.1 1.0 0\n\
            1 store 1.0 0 2305843009213693951\n1 load 1.1 1.0 0\n\
            1 store 1.0 0 2305843009213693952\n1 store 1.0 0 -2305843009213693953\n\
            1 load 1.1 1.0 0\n",
        b"object 1\ndone\nint -2305843009213693952\ndone\nint 2305843009213693951\n\
            refused IntRange\nrefused IntRange\nint 2305843009213693951\n",
        b"rheap 2\nroots 2\n1.0 @0\n1.1 2305843009213693951\nobjects 1\n\
            @0 1 2305843009213693951\nend\n",
    ),
    // Of several refusals the first in order.
    (
        b"heap 16 8 4 3 2\n1 copy 1.0 2.0\n1 copy 9.0 2.0\n1 load 1.1 1.0 0\n\
            1 store 1.0 0 9223372036854775807\n1 drop 1.2\n1 copy 1.0 0.0\n",
        b"refused NotYours\nrefused NoRoot\nrefused NotObject\nrefused NotObject\n\
            refused NoRoot\nnil\n",
        b"rheap 2\nroots 0\nobjects 0\nend\n",
    ),
];

/// The replica that took the piece.
fn replica_of(rt: &(impl AllocGlobal + Abort), piece: &Piece) -> PartialReplica {
    let empty = PartialReplica::empty(rt.alloc(), piece.epoch());
    empty.take(piece).ok().expect(rt, "memory is ample")
}

/// Does what a line of a cycle asks of a heap. What is dealt is given at once.
fn collect(rt: &(impl AllocGlobal + Abort), heap: &mut Heap, request: &Request) {
    let is_done = match *request {
        Request::Begin => heap.begin().is_ok(),
        Request::Shade { root } => heap.shade(root).is_ok(),
        Request::Deal { kind, most, .. } => {
            let dealt = heap.deal(kind, most).ok().expect(rt, "a piece");
            heap.give(&replica_of(rt, &dealt.piece)).is_ok()
        }
        Request::Flip => heap.flip().is_ok(),
        _ => true,
    };
    assert!(rt; is_done);
}

/// Does a command on a heap and on a plain heap, which answers the same, and adds the answer's line.
fn answer(
    rt: &impl Abort,
    (heap, plain): (&mut Heap, &mut Plain),
    answers: &mut Vec<u8>,
    owner: u32,
    command: &Command,
) {
    let answer = heap.command(owner, command);
    let got = answer.map_err(CommandError::Refused);
    expect_equal(rt, got, plain.command(owner, command));
    expect_equal(rt, write_answer(&answer, answers), Ok(()));
    answers.push(b'\n').ok().expect(rt, "memory is ample");
}

/// Plays the requests of a trace on a heap, and its commands on a plain heap too.
fn play_on(
    rt: &(impl AllocGlobal + Abort),
    (heap, plain): (&mut Heap, &mut Plain),
    answers: &mut Vec<u8>,
    requests: &[Request],
) {
    for (row, request) in requests.iter().enumerate() {
        let rt = &Row { rt, row };
        if let Request::Command { owner, command } = *request {
            answer(rt, (heap, plain), answers, owner, &command);
        } else {
            collect(rt, heap, request);
        }
    }
}

/// Plays a trace on these heaps, which answer the same, and expects what its commands are answered,
/// a line each.
fn play(
    rt: &(impl AllocGlobal + Abort),
    (heap, plain): (&mut Heap, &mut Plain),
    requests: &[Request],
    answers: &[u8],
) {
    let mut answered = Vec::new(rt.alloc());
    play_on(rt, (heap, plain), &mut answered, requests);
    expect_bytes(rt, &answered, answers);
}

/// Expects the text of a graph.
fn expect_dump<A: Allocator>(rt: &(impl AllocGlobal + Abort), graph: &Graph<A>, text: &[u8]) {
    let mut written = Vec::new(rt.alloc());
    expect_equal(rt, write_dump(graph, &mut written), Ok(()));
    expect_bytes(rt, &written, text);
}

/// Expects a heap and a plain heap to have the same dump.
fn expect_dumps(rt: &(impl AllocGlobal + Abort), heap: &Heap, plain: &Plain, text: &[u8]) {
    let moving = graph(rt.alloc(), heap).ok().expect(rt, "memory is ample");
    expect_dump(rt, &moving, text);
    assert!(rt; plain.objects() <= MAX_OBJECTS as usize);
    let still = plain_graph(rt.alloc(), plain);
    let still = still.ok().expect(rt, "memory is ample");
    expect_dump(rt, &still, text);
    assert!(rt; same_text(&moving, &still));
}

/// Plays a trace on a heap, and its commands on a plain heap too, and expects these answers and
/// this dump of both.
fn expect_played(rt: &(impl AllocGlobal + Abort), trace: &Trace, answers: &[u8], dump: &[u8]) {
    let config = config_of(trace.header());
    let mut heap = Heap::new(rt.alloc(), config).ok().expect(rt, "a heap");
    let plain = Plain::new(rt.alloc(), config.owners, config.slots);
    let mut plain = plain.ok().expect(rt, "a plain heap");
    play(rt, (&mut heap, &mut plain), trace.requests(), answers);
    expect_dumps(rt, &heap, &plain, dump);
}

#[test]
fn heaps_answer_as_plain_heaps_and_have_their_dumps(rt: HostRuntime) {
    let mut played: u32 = 0;
    for (row, &(text, answers, dump)) in PLAYED.iter().enumerate() {
        let rt = Row { rt: &rt, row };
        let trace = parse(rt.alloc(), text).ok().expect(&rt, "a trace");
        expect_played(&rt, &trace, answers, dump);
        played = played.saturating_add(1);
    }
    expect_equal(&rt, played, 8);
}
