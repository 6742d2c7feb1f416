//! Mutation logs.

use crate::commands::item;
use crate::expectations::expect_equal;
use rh_layout::{Item, Value};
use rh_log::{Log, PushError};
use std::process::Abort;

/// The entry `i`, which has to be there.
fn entry(rt: &impl Abort, log: &Log, i: usize) -> Item {
    assert!(rt; i < log.len());
    log.entry(i)
}

/// Fills a log of two entries, between which a store is only counted, and reads them.
fn fill_and_read(rt: &impl Abort, log: &mut Log) {
    expect_equal(rt, log.push(4, 1, Value::Ref(4)), Ok(1));
    expect_equal(rt, log.count_only(), Ok(2));
    expect_equal(rt, log.push(0, 0, Value::Nil), Ok(3));
    expect_equal(rt, log.push(0, 0, Value::Nil), Err(PushError::LogFull));
    expect_equal(rt, entry(rt, log, 0), item(4, 1, 1, Value::Ref(4)));
    expect_equal(rt, entry(rt, log, 1), item(0, 0, 3, Value::Nil));
}

/// A log that begins anew goes on with its numbers.
fn restart_and_push(rt: &impl Abort, log: &mut Log) {
    log.restart();
    expect_equal(rt, (log.number(), log.len()), (3, 0));
    expect_equal(rt, log.push(0, 0, Value::Int(7)), Ok(4));
    expect_equal(rt, entry(rt, log, 0).number, 4);
}

#[test]
fn stores_are_numbered_and_kept(rt: HostRuntime) {
    let mut log = Log::new(rt.alloc(), 2, 5).expect(&rt, "a log");
    fill_and_read(&rt, &mut log);
    restart_and_push(&rt, &mut log);
}
