//! Places the objects of a space, holds each of their fields, and exchanges the two spaces: what
//! `bench/place` times.

use crate::spaces::Spaces;
use rh_layout::size_of;
use std::alloc::Global;

/// The fields of each object.
const FIELDS: u32 = 8;

/// Fills a space of so many words with objects, places them, holds their fields, and exchanges the
/// spaces. Answers how many pairs were held; nothing where memory was refused, the words are out of
/// range, or a pair went missing.
fn collected(alloc: Global, words: u32) -> Option<u32> {
    let mut spaces = Spaces::new(alloc, words)?;
    let objects = words / size_of(FIELDS);
    for _ in 0..objects {
        spaces.make(FIELDS)?;
    }
    let mut items = 0u32;
    for n in 0..objects {
        spaces.place(n.wrapping_mul(size_of(FIELDS)));
        for _ in 0..FIELDS {
            if spaces.hold_next() {
                items = items.wrapping_add(1);
            }
        }
    }
    if spaces.exchange() { Some(items) } else { None }
}

/// Runs the bench on a from-space of so many words; nothing where it failed.
pub fn run(rt: &(impl Print + AllocGlobal), words: u32) -> Option<()> {
    let items = collected(rt.alloc(), words)?;
    println!(rt; "items {items}").ok()
}
