//! Cycles of a shared heap in which wide objects live, driven on without calls: what `bench/cycles`
//! times.

use crate::commands::{alloc, refer};
use crate::figures::CycleFigures;
use crate::players::players_of;
use crate::setup::{WORDS, config_of};
use rh_replicator::{Replicator, YieldingGate, crew};
use rh_shared::{Did, Mutator, SharedConfig, SharedHeap, Start};
use std::alloc::Global;
use std::rt::Clock;
use std::sync::Wait;
use std::sync::atomic::AtomicBool;
use std::thread;
use std::thread::Threads;
use std::time::Instant;

/// The wide objects, which stand in the fields of one object.
const WIDE: u32 = 8;

/// The objects that stand in the fields of a wide one.
const WIDTH: u32 = 250;

/// The fields of each of these.
const FIELDS: u32 = 8;

/// The calls that make all of them.
const CALLS: u32 = 1 + WIDE * (2 + 2 * WIDTH);

/// The most increments.
const MANY: u32 = 2_000_000_000;

/// What an increment did that found nothing to do.
const NOTHING: Did = Did {
    began: false,
    shaded: 0,
    dealt: 0,
    given: 0,
    dropped: 0,
    flipped: false,
    recalled: false,
};

/// A cycle begins as soon as the last has ended, pieces have at most so many items, and credit is
/// ample.
fn driven(replicators: u32, most: u32) -> SharedConfig {
    SharedConfig {
        replicators,
        copies: 1,
        most,
        mark: WORDS,
        history: CALLS,
        patience: 0,
        idle: 4_096,
    }
}

/// Makes the objects. What is refused is passed over.
fn make<R: Wait>(rt: &R, shared: &SharedHeap, mutator: &mut Mutator) {
    let _ = mutator.call(rt, shared, alloc(2, WIDE));
    for wide in 0..WIDE {
        let _ = mutator.call(rt, shared, alloc(1, WIDTH));
        for field in 0..WIDTH {
            let _ = mutator.call(rt, shared, alloc(0, FIELDS));
            let _ = mutator.call(rt, shared, refer(1, field, 0));
        }
        let _ = mutator.call(rt, shared, refer(2, wide, 1));
    }
}

/// Makes increments until so many cycles have ended; nothing where they are too many or the clock
/// failed.
fn drive<R: Clock + Wait>(rt: &R, shared: &SharedHeap, cycles: u32) -> Option<CycleFigures> {
    let mut left = cycles;
    let mut held = 0u128;
    let began = Instant::now(rt).ok()?;
    for _ in 0..MANY {
        if left == 0 {
            let nanoseconds = began.elapsed(rt).ok()?.as_nanos();
            return Some(CycleFigures {
                cycles,
                nanoseconds,
                held,
            });
        }
        let before = Instant::now(rt).ok()?;
        let did = shared.increment(rt);
        if did == NOTHING {
            thread::yield_now();
        } else {
            held = held.wrapping_add(before.elapsed(rt).ok()?.as_nanos());
        }
        if did.flipped {
            left -= 1;
        }
    }
    None
}

/// Makes the objects by the last mutator; nothing where there is none.
fn make_by_last<R: Wait>(rt: &R, shared: &SharedHeap, mutators: &mut Vec<Mutator>) -> Option<()> {
    let mut mutator = mutators.pop()?;
    make(rt, shared, &mut mutator);
    Some(())
}

/// Makes the cycles, with the replicators in threads beside them; nothing where it failed.
fn drive_beside<R>(
    rt: &R,
    alloc: Global,
    players: Vec<(Replicator, YieldingGate)>,
    shared: &SharedHeap,
    cycles: u32,
) -> Option<CycleFigures>
where
    R: Clock + Threads + Wait + Sync,
{
    let stop = AtomicBool::new(false);
    let mut figures = None;
    crew(rt, alloc, players, &stop, u32::MAX, || {
        figures = drive(rt, shared, cycles);
    })
    .ok()?;
    figures
}

/// Makes the objects and then the cycles, with the replicators in threads beside them.
fn run_started<R>(rt: &R, alloc: Global, start: Start, cycles: u32) -> Option<CycleFigures>
where
    R: Clock + Threads + Wait + Sync,
{
    let (shared, mut mutators, ends) = SharedHeap::new(alloc, start).ok()?;
    let players = players_of(alloc, ends).ok()?;
    make_by_last(rt, &shared, &mut mutators)?;
    drive_beside(rt, alloc, players, &shared, cycles)
}

/// Makes so many cycles of pieces of at most so many items with so many replicators in threads of
/// their own; nothing where it failed.
pub fn run<R>(rt: &R, replicators: u32, most: u32, cycles: u32) -> Option<CycleFigures>
where
    R: Clock + AllocGlobal + Threads + Wait + Sync,
{
    let start = Start::new(rt.alloc(), config_of(2), driven(replicators, most)).ok()?;
    run_started(rt, rt.alloc(), start, cycles)
}
