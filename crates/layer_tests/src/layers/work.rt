//! Work ledgers.

use crate::expectations::expect_equal;
use rh_work::{CreditShort, Work};

/// What was granted, the idle words, what was spent and what is free.
fn sums(work: &Work) -> (u64, u64, u64, u64) {
    (work.granted(), work.idle_words(), work.spent(), work.free())
}

#[test]
fn credit_is_granted_and_spent(rt: HostRuntime) {
    let mut work = Work::new(8).expect(&rt, "a ledger");
    expect_equal(&rt, sums(&work), (0, 0, 0, 0));
    work.grant(2);
    expect_equal(&rt, work.spend(6), Ok(()));
    expect_equal(&rt, work.spend(11), Err(CreditShort { need: 11, free: 10 }));
    work.idle(3);
    expect_equal(&rt, work.spend(12), Ok(()));
    expect_equal(&rt, sums(&work), (16, 3, 18, 1));
    work.restart();
    expect_equal(&rt, sums(&work), (0, 0, 0, 0));
    work.grant(1);
    expect_equal(&rt, work.free(), 8);
}
