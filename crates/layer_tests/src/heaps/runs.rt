//! Runs of events.

use crate::commands::{SIZES, alloc, drop_root, item, piece, root, store};
use crate::expectations::{Row, expect_equal, expect_refusals};
use refusing::refused_in_turn;
use rh_core::{Answer, Config, Event, Heap, HeapError, Kind, Shaded};
use rh_layout::{Command, Item, Operand, OutOfMemory, Reply, Value};
use rh_partial::PartialReplica;
use std::alloc::{Allocator, Global};
use std::process::Abort;

/// A heap's sizes, with limits that no test meets.
const SMALL: Config = Config { words: 16, ..SIZES };

/// What an answer tells: a word for the event, and two numbers.
type Told = (&'static str, u32, u32);

/// What an answer tells, where nothing was refused.
fn told(answer: &Answer) -> Option<Told> {
    match answer {
        Answer::Command(Ok(Reply::Done)) => Some(("done", 0, 0)),
        Answer::Command(Ok(Reply::Object(fields))) => Some(("object", *fields, 0)),
        Answer::Begin(Ok(epoch)) if *epoch == 1 => Some(("cycle", 1, 0)),
        Answer::Shade(Ok(Shaded::Placed)) => Some(("placed", 0, 0)),
        Answer::Deal(Ok(dealt)) if dealt.piece.len() == 1 => Some(("dealt", 1, dealt.passed)),
        Answer::Give(Ok(given)) if given.stale == 0 && given.placed == 0 => {
            Some(("given", given.joined, given.repeated))
        }
        Answer::Flip(Ok(flipped)) => Some(("flipped", flipped.roots, flipped.live_words)),
        _ => None,
    }
}

/// Owner 1's command.
fn command<A: Allocator + Copy>(command: Command) -> Event<A> {
    Event::Command { owner: 1, command }
}

/// So many events, each of which drops a root.
fn drops<R: AllocGlobal + Abort>(rt: &R, count: u32) -> Vec<Event<Global>> {
    let mut events = Vec::new(rt.alloc());
    for _ in 0..count {
        let event = command(drop_root(root(1, 0)));
        events.push(event).ok().expect(rt, "memory is ample");
    }
    events
}

/// Checks that so many events were answered, and that the last one is done.
fn expect_done(rt: &impl Abort, answers: &[Answer], count: usize) {
    expect_equal(rt, answers.len(), count);
    let last = answers.last().expect(rt, "an answer");
    expect_equal(rt, told(last), Some(("done", 0, 0)));
}

/// Runs these 100,000 events, each of which drops a root.
fn run_drops<R: AllocGlobal + Abort>(rt: &R, heap: &mut Heap, events: &[Event<Global>]) {
    let mut answers = Vec::new(rt.alloc());
    expect_equal(rt, heap.run(events, &mut answers), Ok(()));
    expect_done(rt, &answers, 100_000);
}

#[test]
fn a_run_of_100000_events(rt: HostRuntime) {
    let mut heap = Heap::new(rt.alloc(), SMALL).expect(&rt, "a heap");
    run_drops(&rt, &mut heap, &drops(&rt, 100_000));
}

/// A deal of so many at most.
fn deals<A: Allocator + Copy>(kind: Kind, most: u32) -> Event<A> {
    Event::Deal { kind, most }
}

/// A replica that took a piece of these items, where memory wasn't refused.
fn taken<A: Allocator + Copy>(
    rt: &impl Abort,
    memory: A,
    items: &[Item],
) -> Option<PartialReplica<A>> {
    PartialReplica::empty(memory, 1)
        .take(&piece(rt, 1, items))
        .ok()
}

/// Both joined, where memory wasn't refused.
fn joined<A: Allocator + Copy>(
    one: &PartialReplica<A>,
    other: &PartialReplica<A>,
) -> Option<PartialReplica<A>> {
    one.copy().ok()?.join(other.copy().ok()?).ok()
}

/// Adds a give of the replica, where memory wasn't refused.
fn add_give<A: Allocator + Copy>(
    events: &mut Vec<Event<A>, A>,
    replica: PartialReplica<A>,
) -> Option<()> {
    events.push(Event::Give(replica)).ok()
}

/// Adds gives of two replicas that are joined in both orders, and of the second join once more,
/// where memory wasn't refused.
fn add_joins<A: Allocator + Copy>(
    events: &mut Vec<Event<A>, A>,
    one: &PartialReplica<A>,
    other: &PartialReplica<A>,
) -> Option<()> {
    add_give(events, joined(one, other)?)?;
    add_give(events, joined(other, one)?)?;
    add_give(events, joined(other, one)?)
}

/// Adds the gives of `add_joins` of this replica and another, where memory wasn't refused. The other
/// has the first field as it was stored to, and the second.
fn add_gives_with_another<A: Allocator + Copy>(
    rt: &impl Abort,
    memory: A,
    events: &mut Vec<Event<A>, A>,
    one: &PartialReplica<A>,
) -> Option<()> {
    let items = [item(0, 1, 0, Value::Nil), item(0, 0, 1, Value::Int(9))];
    let other = taken(rt, memory, &items)?;
    add_joins(events, one, &other)
}

/// Adds the gives of `add_gives_with_another`, where memory wasn't refused. This replica has the first
/// field as it was made.
fn add_gives<A: Allocator + Copy>(
    rt: &impl Abort,
    memory: A,
    events: &mut Vec<Event<A>, A>,
) -> Option<()> {
    let one = taken(rt, memory, &[item(0, 0, 0, Value::Nil)])?;
    add_gives_with_another(rt, memory, events, &one)
}

/// What a cycle is told, in which replicas of both fields of an object are given three times.
const CYCLE: &[Told] = &[
    ("object", 2, 0),
    ("cycle", 1, 0),
    ("object", 3, 0),
    ("done", 0, 0),
    ("placed", 0, 0),
    ("dealt", 1, 0),
    ("done", 0, 0),
    ("dealt", 1, 0),
    ("dealt", 1, 0),
    ("given", 2, 0),
    ("given", 0, 2),
    ("given", 0, 2),
    ("flipped", 1, 4),
];

/// Adds the events of that cycle, where memory wasn't refused.
fn add_cycle<A: Allocator + Copy>(
    rt: &impl Abort,
    memory: A,
    events: &mut Vec<Event<A>, A>,
) -> Option<()> {
    let (first, second) = (root(1, 0), root(1, 1));
    for asked in [alloc(first, 2), alloc(second, 3), drop_root(second)] {
        events.push(command(asked)).ok()?;
        if events.len() == 1 {
            events.push(Event::Begin).ok()?;
        }
    }
    events.push(Event::Shade(first)).ok()?;
    events.push(deals(Kind::Copies, 1)).ok()?;
    events.push(command(store(first, 0, Operand::Int(9)))).ok()?;
    events.push(deals(Kind::Copies, 1)).ok()?;
    events.push(deals(Kind::Entries, 9)).ok()?;
    add_gives(rt, memory, events)?;
    events.push(Event::Flip).ok()
}

/// Runs the events of that cycle on a heap, twice where nothing was done. Answers whether memory
/// was refused.
fn is_refused_a_run<A: Allocator + Copy>(
    rt: &impl Abort,
    heap: &mut Heap<A>,
    events: &[Event<A>],
    answers: &mut Vec<Answer, A>,
) -> bool {
    let first = heap.run(events, answers);
    if first == Err(OutOfMemory) {
        assert!(rt; answers.is_empty());
        expect_equal(rt, heap.run(events, answers), Ok(()));
    }
    expect_equal(rt, answers.len(), CYCLE.len());
    for (row, (answer, due)) in answers.iter().zip(CYCLE).enumerate() {
        let rt = &Row { rt, row };
        expect_equal(rt, told(answer), Some(*due));
    }
    // 40 units were granted; an object placed, two copies and an entry dealt, six entries given and
    // two of them held.
    let stat = heap.stat();
    expect_equal(rt, (stat.granted, stat.spent), (40, 14));
    expect_equal(rt, (stat.epoch, stat.flips, stat.root_words), (2, 1, 1));
    first.is_err()
}

/// Makes the events and a heap, and runs them on it. Answers whether memory was refused.
fn is_refused_a_cycle<A: Allocator + Copy>(rt: &impl Abort, memory: A) -> bool {
    let mut events = Vec::new(memory);
    if add_cycle(rt, memory, &mut events).is_none() {
        return true;
    }
    is_refused_a_run_on_a_new_heap(rt, memory, &events)
}

/// Makes a heap, and runs events on it. Answers whether memory was refused.
fn is_refused_a_run_on_a_new_heap<A: Allocator + Copy>(
    rt: &impl Abort,
    memory: A,
    events: &[Event<A>],
) -> bool {
    let mut made = Heap::new(memory, SMALL);
    match &mut made {
        Ok(heap) => is_refused_a_run(rt, heap, events, &mut Vec::new(memory)),
        Err(error) => {
            expect_equal(rt, *error, HeapError::OutOfMemory);
            true
        }
    }
}

#[test]
fn a_cycle_whose_memory_is_refused_in_turn(rt: HostRuntime) {
    let refused = refused_in_turn(rt.alloc(), |memory| is_refused_a_cycle(&rt, memory));
    // The events and their growth, two replicas and what is made of them, and the heap and the
    // answers.
    expect_refusals(&rt, refused, 12);
}
