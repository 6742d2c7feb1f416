//! The allocator that refuses one allocation, on which the tests of refused memory stand.

use crate::expectations::{expect_equal, expect_refusals};
use refusing::{RefusingAllocator, refused_in_turn};
use std::alloc::{AllocError, Allocator};
use std::process::Abort;
use std::thread;

/// Adds the first three squares.
fn add_squares<A: Allocator + Copy>(squares: &mut Vec<u64, A>) -> Result<(), AllocError> {
    for n in 0..3u64 {
        squares.push(n * n)?;
    }
    Ok(())
}

/// The first three squares and a copy of them: a reserved block, one that grows, and a clone.
fn squares_and_copy<A: Allocator + Copy>(
    alloc: A,
) -> Result<(Vec<u64, A>, Vec<u64, A>), AllocError> {
    let mut squares = Vec::with_capacity(alloc, 1)?;
    add_squares(&mut squares)?;
    let copy = squares.clone()?;
    Ok((squares, copy))
}

#[test]
fn each_allocation_is_refused_in_turn(rt: HostRuntime) {
    let refused = refused_in_turn(rt.alloc(), |memory| match squares_and_copy(memory) {
        Ok((squares, copy)) => {
            expect_equal(&rt, squares.as_slice(), [0, 1, 4].as_slice());
            expect_equal(&rt, copy.as_slice(), squares.as_slice());
            false
        }
        Err(_) => true,
    });
    expect_refusals(&rt, refused, 3);
}

#[test]
fn an_attempt_that_hides_its_refusal_is_told(rt: HostRuntime) {
    let hides = refused_in_turn(rt.alloc(), |memory| {
        let _ = squares_and_copy(memory);
        false
    });
    expect_equal(&rt, hides, Err(1));
    let invents = refused_in_turn(rt.alloc(), |_| true);
    expect_equal(&rt, invents, Err(1));
}

#[test]
fn none_is_refused_at_zero(rt: HostRuntime) {
    let memory = RefusingAllocator::new(rt.alloc(), 0);
    assert!(rt; squares_and_copy(&memory).is_ok());
    assert!(rt; memory.asked() >= 3 && !memory.has_refused());
}

/// Fills a list that has room for two, and grows it after a refusal.
fn grow<A: Allocator + Copy>(rt: &impl Abort, list: &mut Vec<u64, A>) {
    assert!(rt; list.push(7).is_ok() && list.push(8).is_ok());
    let refused = list.push(9).err().map(|failed| failed.value);
    expect_equal(rt, refused, Some(9));
    expect_equal(rt, list.as_slice(), [7, 8].as_slice());
    assert!(rt; list.push(9).is_ok());
    expect_equal(rt, list.as_slice(), [7, 8, 9].as_slice());
}

#[test]
fn a_refused_growth_changes_nothing(rt: HostRuntime) {
    let memory = RefusingAllocator::new(rt.alloc(), 2);
    let list = Vec::with_capacity(&memory, 2).ok();
    grow(&rt, &mut list.expect(&rt, "the first is given"));
    assert!(rt; memory.has_refused());
    expect_equal(&rt, memory.asked(), 3);
}

/// How many of 100 boxes were refused, where each is freed at once.
fn refused_boxes<A: Allocator + Copy + Send>(alloc: A) -> u64 {
    let mut refused: u64 = 0;
    for n in 0..100u64 {
        if Box::new(alloc, n).is_err() {
            refused = refused.saturating_add(1);
        }
    }
    refused
}

#[test]
fn threads_share_one_refusal(rt: HostRuntime) {
    let memory = RefusingAllocator::new(rt.alloc(), 50);
    let (left, right) = thread::join(&rt, || refused_boxes(&memory), || refused_boxes(&memory));
    expect_equal(&rt, left.saturating_add(right), 1);
    expect_equal(&rt, memory.asked(), 200);
    assert!(rt; memory.has_refused());
}
