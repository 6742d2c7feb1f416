//! Memory that is refused to what makes a layer or a heap.

use crate::commands::SIZES;
use crate::expectations::{expect_equal, is_refused};
use refusing::refused_in_turn;
use rh_log::Log;
use rh_pace::{Pace, PacedHeap};
use rh_place::Joint;
use rh_roots::Roots;
use rh_space::Space;

const PACE: Pace = Pace {
    mark: 20,
    store_units: 8,
    log_limit: 8,
};

#[test]
fn refused_memory(rt: HostRuntime) {
    let refused = refused_in_turn(rt.alloc(), |memory| {
        is_refused(Roots::new(memory, 2, 2))
            || is_refused(Space::new(memory, 8))
            || is_refused(Log::new(memory, 3, 9))
            || is_refused(Joint::new(memory, 8))
            || is_refused(PacedHeap::new(memory, SIZES, PACE))
    });
    // One of each layer, and one of each of the four of a heap.
    expect_equal(&rt, refused, Ok(8));
}
