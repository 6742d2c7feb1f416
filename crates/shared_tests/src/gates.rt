//! Gates by which tests see in what order replicators in threads of their own step.

use rh_replicator::{Gate, Stepped};
use std::sync::atomic::{AtomicBool, Ordering};
use std::thread;

/// More looks than any wait takes.
pub const LOOKS: u32 = 100_000_000;

/// What a gate and those beside it show one another.
#[derive(Drop)]
pub struct Signs {
    /// The gate was asked.
    pub asked: AtomicBool,
    /// It may pass.
    pub may_pass: AtomicBool,
    /// A step behind it folded a piece.
    pub folded: AtomicBool,
}

impl Signs {
    /// Those of a gate that wasn't asked yet.
    pub fn new(may_pass: bool) -> Signs {
        Signs {
            asked: AtomicBool::new(false),
            may_pass: AtomicBool::new(may_pass),
            folded: AtomicBool::new(false),
        }
    }
}

/// Looks until the sign is set, and lets other threads run after each look in vain. Answers whether
/// it was, within so many looks; where it wasn't, all others look no longer.
pub fn is_seen(sign: &AtomicBool, missed: &AtomicBool) -> bool {
    for _ in 0..LOOKS {
        if sign.load(Ordering::SeqCst) {
            return true;
        }
        if missed.load(Ordering::SeqCst) {
            return false;
        }
        thread::yield_now();
    }
    missed.store(true, Ordering::SeqCst);
    false
}

/// A gate that passes once the other one was asked too and this one may pass.
#[derive(Drop)]
pub struct Watched<'f> {
    /// What this gate shows.
    pub own: &'f Signs,
    /// What the other one shows.
    pub other: &'f Signs,
    /// Somebody looked as often as may be, and didn't see what he waited for.
    pub missed: &'f AtomicBool,
}

impl<'f> Gate for Watched<'f> {
    ghost passes = { λ before answer after. Unit {0} };

    ghost tells = { λ before stepped after. Unit {0} };

    fn pass(&mut self) -> bool {
        self.own.asked.store(true, Ordering::SeqCst);
        is_seen(&self.other.asked, self.missed) && is_seen(&self.own.may_pass, self.missed)
    }

    fn did(&mut self, stepped: &Stepped) {
        if *stepped == Stepped::Folded(1) {
            self.own.folded.store(true, Ordering::SeqCst);
        } else {
            thread::yield_now();
        }
    }
}
