//! Crews: replicators in threads of their own, beside work in this one.

use crate::expectations::expect_equal;
use refusing::{RefusingAllocator, refused_in_turn};
use rh_replicator::{OpenGate, Replicator, crew, new_link};
use std::alloc::Allocator;
use std::process::Abort;
use std::sync::Wait;
use std::sync::atomic::{AtomicBool, Ordering};
use std::thread::Threads;

/// A replicator without turns, on rings that are read by nobody.
fn one_of<A: Allocator + Copy>(rt: &impl Abort, ample: A, number: u32) -> Replicator<A> {
    let Ok((_link, ends)) = new_link(ample, number) else {
        panic!(rt; "memory is ample")
    };
    Replicator::new(ample, ends)
}

/// Two such replicators.
fn two_of<A: Allocator + Copy>(rt: &impl Abort, ample: A) -> Vec<(Replicator<A>, OpenGate), A> {
    let mut both = Vec::new(ample);
    for number in 0..2u32 {
        let one = (one_of(rt, ample, number), OpenGate);
        both.push(one).expect(rt, "memory is ample");
    }
    both
}

/// Whether a crew of two without turns, on rings from memory that is ample, met want of memory. The
/// work wasn't run then; else it was, and the crew was told to stop.
fn crew_is_refused<R, A>(rt: &R, ample: A, memory: A) -> bool
where
    R: Threads + Wait + Sync + Abort,
    A: Allocator + Copy + Send,
{
    let replicators = two_of(rt, ample);
    let stop = AtomicBool::new(false);
    let worked = AtomicBool::new(false);
    let ended = crew(rt, memory, replicators, &stop, 0, || {
        worked.store(true, Ordering::SeqCst);
    });
    let has_worked = worked.load(Ordering::SeqCst);
    match ended {
        Ok(both) => !(has_worked && stop.load(Ordering::SeqCst) && both.len() == 2),
        Err(_left) => !has_worked,
    }
}

#[test]
fn a_refused_crew_does_no_work(rt: HostRuntime) {
    let ample = RefusingAllocator::new(rt.alloc(), 0);
    let crews = refused_in_turn(rt.alloc(), |memory| crew_is_refused(&rt, &ample, memory));
    expect_equal(&rt, crews, Ok(2));
}
