//! The pieces that replicators fold.

use rh_layout::Value;
use rh_partial::{Item, Piece};

/// A piece of epoch 1 with so many items, of which so many at a time are of one place.
pub fn piece_of(items: u32, repeats: u32, number: u64) -> Piece {
    let mut piece = Piece::new(1);
    for item in 0..items {
        let place = item / repeats.max(1);
        let item = Item {
            object: place / 8,
            field: place % 8,
            number: number.wrapping_mul(64).wrapping_add(item.into()),
            value: Value::Int(item.into()),
        };
        // A piece has room for 64.
        let _ = piece.push(item);
    }
    piece
}
