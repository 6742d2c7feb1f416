//! Folding of pieces, in place or by replicators in threads of their own: what `bench/folds` times.

use crate::figures::FoldFigures;
use crate::pieces::piece_of;
use rh_partial::{PartialReplica, Piece};
use rh_replicator::{LINK_PLACES, Link, Replicator, YieldingGate, crew, new_link};
use std::alloc::Global;
use std::rt::Clock;
use std::sync::Wait;
use std::sync::atomic::AtomicBool;
use std::thread;
use std::thread::Threads;
use std::time::Instant;

/// The most rounds of looks at the rings.
const LOOKS: u32 = 2_000_000_000;

/// What a thread still has to hand out, and what it took back.
#[derive(Clone, Copy)]
struct Work {
    /// The pieces that are still to be pushed.
    left: u32,
    /// The places of all replicas that came back.
    places: u64,
    /// The nanoseconds of the looks that moved something.
    held: u128,
}

/// Folds so many pieces in place; nothing where it failed.
fn fold_in_place<R: Clock + AllocGlobal>(
    rt: &R,
    pieces: u32,
    piece: &Piece,
) -> Option<FoldFigures> {
    let mut replica = PartialReplica::reserved(rt.alloc(), 1).ok()?;
    let mut places = 0u64;
    let began = Instant::now(rt).ok()?;
    for _ in 0..pieces {
        replica.refill(piece);
        places = places.wrapping_add(replica.len() as u64);
    }
    let took = began.elapsed(rt).ok()?.as_nanos();
    Some(FoldFigures {
        pieces,
        nanoseconds: took,
        held: took,
        places,
    })
}

/// Adds a ring to one more replicator, and this behind a gate; nothing where memory was refused.
fn add_ring(
    alloc: Global,
    number: u32,
    links: &mut Vec<Link>,
    players: &mut Vec<(Replicator, YieldingGate)>,
) -> Option<()> {
    let (link, ends) = new_link(alloc, number).ok()?;
    links.push(link).ok()?;
    players
        .push((Replicator::new(alloc, ends), YieldingGate))
        .ok()
}

/// Adds rings to so many replicators, and these behind gates; nothing where memory was refused.
fn add_rings(
    alloc: Global,
    replicators: u32,
    links: &mut Vec<Link>,
    players: &mut Vec<(Replicator, YieldingGate)>,
) -> Option<()> {
    for number in 0..replicators {
        add_ring(alloc, number, links, players)?;
    }
    Some(())
}

/// Takes a replica back, if one is there. Answers whether one was.
fn take_back(link: &mut Link, work: &mut Work) -> bool {
    let has_popped = link.pop();
    if let Some(replica) = link.waiting() {
        work.places = work.places.wrapping_add(replica.len() as u64);
    }
    link.forget();
    has_popped
}

/// Pushes a piece, if one is left and the ring has a place. Answers whether it did.
fn hand_over(link: &mut Link, piece: &Piece, work: &mut Work) -> bool {
    if work.left == 0 {
        return false;
    }
    if !link.has_place() {
        return false;
    }
    link.push(piece.copy());
    work.left -= 1;
    true
}

/// Takes back what a replicator made, and pushes pieces to it, 8 each way at most. Answers whether
/// anything moved.
fn exchange(link: &mut Link, piece: &Piece, work: &mut Work) -> bool {
    let mut has_moved = false;
    for _ in 0..LINK_PLACES {
        let has_popped = take_back(link, work);
        let has_pushed = hand_over(link, piece, work);
        if !has_popped && !has_pushed {
            return has_moved;
        }
        has_moved = true;
    }
    has_moved
}

/// Does so, and adds the time that it took where anything moved. Answers whether that is so;
/// nothing where the clock failed.
fn exchange_timed<R: Clock>(
    rt: &R,
    link: &mut Link,
    piece: &Piece,
    work: &mut Work,
) -> Option<bool> {
    let began = Instant::now(rt).ok()?;
    let has_moved = exchange(link, piece, work);
    if has_moved {
        let took = began.elapsed(rt).ok()?.as_nanos();
        work.held = work.held.wrapping_add(took);
    }
    Some(has_moved)
}

/// Looks at each ring once. Answers whether anything moved; nothing where the clock failed.
fn round<R: Clock>(rt: &R, links: &mut [Link], piece: &Piece, work: &mut Work) -> Option<bool> {
    let mut has_moved = false;
    for link in links.iter_mut() {
        if exchange_timed(rt, link, piece, work)? {
            has_moved = true;
        }
    }
    Some(has_moved)
}

/// Looks at the rings in turn until all pieces were pushed; nothing where that took too long or the
/// clock failed.
fn hand_out<R: Clock>(
    rt: &R,
    links: &mut [Link],
    pieces: u32,
    piece: &Piece,
) -> Option<FoldFigures> {
    let mut work = Work {
        left: pieces,
        places: 0,
        held: 0,
    };
    let began = Instant::now(rt).ok()?;
    for _ in 0..LOOKS {
        if work.left == 0 {
            return Some(FoldFigures {
                pieces,
                nanoseconds: began.elapsed(rt).ok()?.as_nanos(),
                held: work.held,
                places: work.places,
            });
        }
        if !round(rt, links, piece, &mut work)? {
            thread::yield_now();
        }
    }
    None
}

/// Folds so many pieces by replicators in threads of their own; nothing where it failed.
fn fold_beside<R>(
    rt: &R,
    players: Vec<(Replicator, YieldingGate)>,
    links: &mut [Link],
    pieces: u32,
    piece: &Piece,
) -> Option<FoldFigures>
where
    R: Clock + AllocGlobal + Threads + Wait + Sync,
{
    let stop = AtomicBool::new(false);
    let mut figures = None;
    crew(rt, rt.alloc(), players, &stop, u32::MAX, || {
        figures = hand_out(rt, links, pieces, piece);
    })
    .ok()?;
    figures
}

/// Folds so many pieces of so many items, of which so many at a time are of one place, by so many
/// replicators in threads of their own, or in place where none is asked for. Nothing where it
/// failed.
pub fn run<R>(
    rt: &R,
    replicators: u32,
    pieces: u32,
    items: u32,
    repeats: u32,
) -> Option<FoldFigures>
where
    R: Clock + AllocGlobal + Threads + Wait + Sync,
{
    let piece = piece_of(items, repeats, 1);
    if replicators == 0 {
        return fold_in_place(rt, pieces, &piece);
    }
    let mut links = Vec::new(rt.alloc());
    let mut players = Vec::new(rt.alloc());
    add_rings(rt.alloc(), replicators, &mut links, &mut players)?;
    fold_beside(rt, players, links.as_mut_slice(), pieces, &piece)
}
