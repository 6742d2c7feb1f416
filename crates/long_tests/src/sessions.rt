//! An entry of a session of the small Scheme, each allocation of which is refused in turn.

use crate::expectations::{expect_bytes, expect_equal};
use refusing::RefusingAllocator;
use rh_cli::{Ask, HeapWords, Limits, PLAIN, Subcommand, drive};
use std::alloc::Allocator;
use std::process::Abort;
use std::sync::Wait;
use std::thread::Threads;

/// A session whose errors are told to nobody.
const SESSION: Ask<'static> = Ask {
    subcommand: Subcommand::LispSession {
        limits: Limits {
            heap: HeapWords::Just(10_000),
            steps: 1_000_000,
        },
    },
    file: "-",
    explain: false,
    out: None,
    views: PLAIN,
};

/// An entry of two lines, which prints 3 and a line end.
const ENTRY: &[u8] = b"(+ 1\n 2)\n";

/// Holds a session, and answers its status. No test needs what `drive` promises beside it.
fn held<R, A>(rt: &R, memory: A, typed: &[u8], out: &mut Vec<u8>, err: &mut Vec<u8>) -> u8
where
    R: Threads + Wait + Sync,
    A: Allocator + Copy + Send,
{
    let mut reader = typed;
    drive(rt, memory, &SESSION, &mut reader, out, err)
}

/// How many allocations a session asks for, of which none is refused.
fn asked<R: AllocGlobal + Abort + Threads + Wait + Sync>(rt: &R, typed: &[u8]) -> u64 {
    let memory = RefusingAllocator::new(rt.alloc(), 0);
    let mut out = Vec::new(rt.alloc());
    let mut err = Vec::new(rt.alloc());
    let status = held(rt, &memory, typed, &mut out, &mut err);
    expect_equal(rt, status, 0);
    memory.asked()
}

/// Expects a session of the entry to be told that memory is refused, if the nth allocation is. What
/// is printed begins what the entry prints.
fn expect_refused<R: AllocGlobal + Abort + Threads + Wait + Sync>(rt: &R, nth: u64) {
    let memory = RefusingAllocator::new(rt.alloc(), nth);
    let mut out = Vec::new(rt.alloc());
    let mut err = Vec::new(rt.alloc());
    let status = held(rt, &memory, ENTRY, &mut out, &mut err);
    expect_equal(rt, (status, memory.has_refused()), (3, true));
    expect_bytes(rt, &err, b"rheap: out of memory\n");
    assert!(rt; b"3\n".starts_with(&out), "allocation {nth}");
}

/// Expects that of each second allocation of the entry, of those whose number is even or odd. Both are
/// a test each, since they take longer than any other one, and run side by side.
fn expect_each_second_refused<R: AllocGlobal + Abort + Threads + Wait + Sync>(rt: &R, rest: u64) {
    let begun = asked(rt, b"");
    let all = asked(rt, ENTRY);
    assert!(rt;
        begun.saturating_add(10) < all,
        "{begun} and {all} allocations"
    );
    for nth in begun..all {
        if nth % 2 == rest {
            expect_refused(rt, nth.saturating_add(1));
        }
    }
}

#[test]
fn each_odd_allocation_of_an_entry_is_refused_in_turn(rt: HostRuntime) {
    expect_each_second_refused(&rt, 0);
}

#[test]
fn each_even_allocation_of_an_entry_is_refused_in_turn(rt: HostRuntime) {
    expect_each_second_refused(&rt, 1);
}
