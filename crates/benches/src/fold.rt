//! Folds items, piece by piece, into a partial replica of many places or, by refilling, of few, and
//! prints how many places it has: what `bench/fold` times.

ghost use Rattle.std.specs.Prelude.{◌<◌};

use rh_layout::Value;
use rh_partial::{Item, MAX_PIECE_ITEMS, PartialReplica, Piece};
use std::alloc::Global;

/// The places that the items of a fold are spread over.
const FOLD_PLACES: u64 = 4_096;

/// The places that the items of a refill are spread over.
const REFILL_PLACES: u64 = 64;

/// The next of a sequence of numbers that look random (Knuth's linear congruential generator for 64
/// bits).
fn next_seed(seed: u64) -> u64 {
    seed.wrapping_mul(6_364_136_223_846_793_005)
        .wrapping_add(1_442_695_040_888_963_407)
}

/// The item of a seed, with this number, at one of the first `places` places.
fn item_of(seed: u64, number: u64, places: u64) -> Item
    requires { 0 < places }
{
    let place = (seed >> 33) % places;
    Item {
        object: (place / 64) as u32,
        field: (place % 64) as u32,
        number,
        value: Value::Ref((seed >> 32) as u32),
    }
}

/// A full piece of epoch 1, and the seed after it.
fn piece_of(seed: u64, number: u64, places: u64) -> (Piece, u64)
    requires { 0 < places }
{
    let mut piece = Piece::new(1);
    let mut seed = seed;
    for _ in 0..MAX_PIECE_ITEMS {
        seed = next_seed(seed);
        // The piece has room for so many.
        let _ = piece.push(item_of(seed, number, places));
    }
    (piece, seed)
}

/// Folds so many items, rounded down to whole pieces, and answers how many places the replica has;
/// nothing where memory was refused.
fn folded(alloc: Global, items: u64) -> Option<usize> {
    let mut replica = PartialReplica::empty(alloc, 1);
    let mut seed = 1;
    for number in 1..=items / MAX_PIECE_ITEMS as u64 {
        let (piece, next) = piece_of(seed, number, FOLD_PLACES);
        seed = next;
        replica = replica.take(&piece).ok()?;
    }
    Some(replica.len())
}

/// Refills one replica with so many items, rounded down to whole pieces, and answers how many
/// places it has; nothing where memory was refused.
fn refilled(alloc: Global, items: u64) -> Option<usize> {
    let mut replica = PartialReplica::reserved(alloc, 1).ok()?;
    let mut seed = 1;
    for number in 1..=items / MAX_PIECE_ITEMS as u64 {
        let (piece, next) = piece_of(seed, number, REFILL_PLACES);
        seed = next;
        replica.refill(&piece);
    }
    Some(replica.len())
}

/// Runs the bench of this name, `fold` or `refill`, on so many items; nothing where it failed or
/// has another name.
pub fn run(rt: &(impl Print + AllocGlobal), what: &str, items: u64) -> Option<()> {
    let places = match what {
        "fold" => folded(rt.alloc(), items)?,
        "refill" => refilled(rt.alloc(), items)?,
        _ => return None,
    };
    println!(rt; "places {places}").ok()
}
