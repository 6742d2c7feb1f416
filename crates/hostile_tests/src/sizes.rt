//! Memory that is refused where something grows, at sizes around those at which vectors grow.

use crate::expectations::{Row, expect_equal, expect_refusals};
use refusing::refused_in_turn;
use rh_core::{Config, Event, Heap, HeapError};
use rh_dump::limits::MAX_OBJECTS;
use rh_dump::plain_graph;
use rh_join::{Join, MapOf, MaxOf};
use rh_layout::{Command, Item, Operand, OutOfMemory, Reply, RootId, Value};
use rh_model::{CommandError, Plain};
use rh_partial::{PartialReplica, Piece, Reason, fold};
use rh_replay::{Recorder, RecorderError, Verdict, check};
use rh_shared::{SharedConfig, SharedHeap, Start, StartError};
use rh_trace::graph;
use std::alloc::Allocator;
use std::process::Abort;

/// The sizes. The greatest that the limits allow are tried where each call is.
const SIZES: &[u32] = &[1, 2, 3, 4, 8, 9, 64, 65, 1024];

const A: RootId = RootId { owner: 1, slot: 0 };

const B: RootId = RootId { owner: 1, slot: 1 };

/// A new object is made that refers to the one before, and is named in its place.
const LINK: &[Command] = &[
    Command::Alloc { dst: A, fields: 1 },
    Command::Store {
        obj: A,
        field: 0,
        operand: Operand::Root(B),
    },
    Command::Copy { dst: B, src: A },
];

const DROP: Command = Command::Drop { root: A };

/// The sizes of a heap with room for a chain of so many objects.
fn config_of(size: u32) -> Config {
    Config {
        words: 8 + size % 2048 * 3,
        ratio: 8,
        owners: 2,
        slots: 2,
        log_limit: size,
        last_number: 1 << 62,
        last_epoch: 1 << 62,
    }
}

type Map<M> = MapOf<u32, MaxOf, M>;

/// A map of so many keys. What was refused hands all back.
fn map_of<M: Allocator + Copy>(rt: &impl Abort, memory: M, size: u32) -> Option<Map<M>> {
    let mut map = MapOf::new(memory);
    for key in 0..size {
        match map.add(key, MaxOf(1)) {
            Ok(more) => map = more,
            Err(unadded) => {
                expect_equal(rt, (unadded.back.len(), unadded.key), (key as usize, key));
                return None;
            }
        }
    }
    Some(map)
}

/// A map of so many keys is joined with its copy. What was refused hands all back.
fn join_with_copy<M: Allocator + Copy>(rt: &impl Abort, map: Map<M>, size: u32) -> Option<()> {
    let copy = map.copy().ok()?;
    match map.join(copy) {
        Ok(joined) => {
            expect_equal(rt, joined.len(), size as usize);
            Some(())
        }
        Err(unjoined) => {
            let lengths = (unjoined.left.len(), unjoined.right.len());
            expect_equal(rt, lengths, (size as usize, size as usize));
            None
        }
    }
}

/// A map of so many keys is made, copied and joined with the copy, and one is made with room.
fn map<M: Allocator + Copy>(rt: &impl Abort, memory: M, size: u32) -> Option<()> {
    join_with_copy(rt, map_of(rt, memory, size)?, size)?;
    let reserved: Map<M> = MapOf::reserved(memory, size as usize).ok()?;
    expect_equal(rt, reserved.len(), 0);
    Some(())
}

/// Pieces with so many items in all, each of a field of its own.
fn pieces<R: AllocGlobal + Abort>(rt: &R, size: u32) -> Vec<Piece> {
    let mut pieces = Vec::new(rt.alloc());
    let mut piece = Piece::new(1);
    for field in 0..size {
        let item = Item {
            object: 0,
            field,
            number: 0,
            value: Value::Nil,
        };
        if piece.push(item).is_err() {
            pieces.push(piece).ok().expect(rt, "memory is ample");
            piece = Piece::new(1);
            let _ = piece.push(item);
        }
    }
    pieces.push(piece).ok().expect(rt, "memory is ample");
    pieces
}

/// A replica of these pieces, taken one by one.
fn taken<M: Allocator + Copy>(
    rt: &impl Abort,
    memory: M,
    pieces: &[Piece],
) -> Option<PartialReplica<M>> {
    let mut replica = PartialReplica::empty(memory, 1);
    for piece in pieces {
        let before = replica.len();
        match replica.take(piece) {
            Ok(more) => replica = more,
            Err(refused) => {
                let told = (refused.why, refused.back.len());
                expect_equal(rt, told, (Reason::OutOfMemory, before));
                return None;
            }
        }
    }
    Some(replica)
}

/// Joins two replicas of so many items each. What was refused hands both back.
fn join<M: Allocator + Copy>(
    rt: &impl Abort,
    copy: PartialReplica<M>,
    folded: PartialReplica<M>,
    size: u32,
) -> Option<()> {
    match copy.join(folded) {
        Ok(joined) => {
            expect_equal(rt, joined.len(), size as usize);
            Some(())
        }
        Err(unjoined) => {
            let both = (size as usize, size as usize);
            expect_equal(rt, (unjoined.left.len(), unjoined.right.len()), both);
            None
        }
    }
}

/// A replica takes so many items in pieces, is copied, and joined with the fold of the pieces.
fn replica<R: AllocGlobal + Abort, M: Allocator + Copy>(
    rt: &R,
    memory: M,
    size: u32,
) -> Option<()> {
    let pieces = pieces(rt, size);
    let replica = taken(rt, memory, &pieces)?;
    let copy = replica.copy().ok()?;
    join(rt, copy, fold(memory, 1, &pieces).ok()?, size)?;
    expect_equal(rt, replica.len(), size as usize);
    Some(())
}

/// A plain heap makes so many objects. A command that memory was refused to changes nothing.
fn plain<M: Allocator + Copy>(rt: &impl Abort, memory: M, size: u32) -> Option<()> {
    let mut plain = Plain::new(memory, 2, 2).ok()?;
    for made in 0..size {
        let fields = if made == 0 { size } else { 0 };
        let answer = plain.command(1, &Command::Alloc { dst: A, fields });
        if answer == Err(CommandError::OutOfMemory) {
            expect_equal(rt, plain.objects(), made as usize);
            let again = plain.command(1, &Command::Alloc { dst: A, fields });
            expect_equal(rt, again, Ok(Reply::Object(fields)));
            return None;
        }
        expect_equal(rt, answer, Ok(Reply::Object(fields)));
    }
    Some(())
}

/// So many events.
fn events_of<R: AllocGlobal + Abort, M: Allocator + Copy>(rt: &R, size: u32) -> Vec<Event<M>> {
    let mut events = Vec::new(rt.alloc());
    for _ in 0..size {
        let event: Event<M> = Event::Command {
            owner: 1,
            command: DROP,
        };
        events.push(event).ok().expect(rt, "memory is ample");
    }
    events
}

/// A heap for a chain of so many objects, unless it lacks memory.
fn heap_of<M: Allocator + Copy>(rt: &impl Abort, memory: M, size: u32) -> Option<Heap<M>> {
    let made = Heap::new(memory, config_of(size));
    if let Err(error) = &made {
        expect_equal(rt, *error, HeapError::OutOfMemory);
    }
    made.ok()
}

/// A heap is made, and so many events happen to it, or none.
fn run<R: AllocGlobal + Abort, M: Allocator + Copy>(rt: &R, memory: M, size: u32) -> Option<()> {
    let events: Vec<Event<M>> = events_of(rt, size);
    let mut heap = heap_of(rt, memory, size)?;
    let mut answers = Vec::new(memory);
    let done = heap.run(&events, &mut answers);
    if done == Err(OutOfMemory) {
        expect_equal(rt, answers.len(), 0);
        return None;
    }
    expect_equal(rt, answers.len(), size as usize);
    Some(())
}

/// Makes a chain of so many objects in a heap and in a plain heap, which answer the same.
fn link<A: Allocator + Copy>(rt: &impl Abort, heap: &mut Heap<A>, plain: &mut Plain<A>, size: u32) {
    for _ in 0..size {
        for command in LINK {
            let answer = heap.command(1, command).ok();
            expect_equal(rt, answer, plain.command(1, command).ok());
        }
    }
}

/// The graphs of these heaps, which have so many objects.
fn graphs_of<A: Allocator + Copy, M: Allocator + Copy>(
    rt: &impl Abort,
    memory: M,
    heap: &Heap<A>,
    plain: &Plain<A>,
    size: u32,
) -> Option<()> {
    let moving = graph(memory, heap).ok()?;
    expect_equal(rt, moving.objects(), size.into());
    assert!(rt; plain.objects() <= MAX_OBJECTS as usize);
    let still = plain_graph(memory, plain).ok()?;
    expect_equal(rt, still.objects(), size.into());
    Some(())
}

/// The graphs of a chain of so many objects, in a heap and in a plain heap.
fn graphs<R: AllocGlobal + Abort, M: Allocator + Copy>(rt: &R, memory: M, size: u32) -> Option<()> {
    let mut heap = Heap::new(rt.alloc(), config_of(size))
        .ok()
        .expect(rt, "a heap");
    let mut plain = Plain::new(rt.alloc(), 2, 2).ok().expect(rt, "a plain heap");
    link(rt, &mut heap, &mut plain, size);
    graphs_of(rt, memory, &heap, &plain, size)
}

/// So many calls are recorded and checked.
fn history<M: Allocator + Copy>(rt: &impl Abort, memory: M, size: u32) -> Option<()> {
    let made = Recorder::new(memory, 2, 2, size);
    if let Err(error) = &made {
        assert!(rt; matches!(error, RecorderError::OutOfMemory));
    }
    let mut recorder = made.ok()?;
    for _ in 0..size {
        expect_equal(rt, recorder.note(1, &DROP, Ok(Reply::Done)), Ok(()));
    }
    let verdict = check(memory, recorder.history()).ok()?;
    expect_equal(rt, verdict, Verdict::Legal(size));
    Some(())
}

/// A shared heap with a history of so many calls, and as many replicators, at most 8.
fn shared<M: Allocator + Copy>(rt: &impl Abort, memory: M, size: u32) -> Option<()> {
    let replicators = size.min(8);
    let shared = SharedConfig {
        replicators,
        copies: replicators,
        most: 64,
        mark: 0,
        history: size,
        patience: 0,
        idle: 0,
    };
    let started = Start::new(memory, config_of(size), shared);
    if let Err(error) = &started {
        expect_equal(rt, *error, StartError::OutOfMemory);
    }
    let (_shared, mutators, ends) = SharedHeap::new(memory, started.ok()?).ok()?;
    expect_equal(rt, (mutators.len(), ends.len()), (2, replicators as usize));
    Some(())
}

#[test]
fn memory_is_wanted_only_where_a_growth_is_refused(rt: HostRuntime) {
    let mut tried: u32 = 0;
    for (row, &size) in SIZES.iter().enumerate() {
        let rt = &Row { rt: &rt, row };
        let refused = refused_in_turn(rt.alloc(), |memory| {
            map(&Row { rt, row: 0 }, memory, size).is_none()
                || replica(&Row { rt, row: 1 }, memory, size).is_none()
                || plain(&Row { rt, row: 2 }, memory, size).is_none()
                || run(&Row { rt, row: 3 }, memory, size).is_none()
                || graphs(&Row { rt, row: 4 }, memory, size).is_none()
                || history(&Row { rt, row: 5 }, memory, size).is_none()
                || shared(&Row { rt, row: 6 }, memory, size).is_none()
        });
        // At size 1, where fewest are asked for: four of a map, four of a replica, three of a plain
        // heap, five of a heap and its answers, five of each graph, two of a history, and fifteen
        // of a shared heap with one replicator, whose rings take four of these.
        expect_refusals(rt, refused, 43);
        tried = tried.saturating_add(1);
    }
    expect_equal(&rt, tried, 9);
}
