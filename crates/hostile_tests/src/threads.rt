//! Four mutators and four replicators, in a small space.

use crate::expectations::{Row, expect_each, expect_equal};
use crate::numbers::Numbers;
use rh_layout::Command;
use rh_replay::{Verdict, check, read_history};
use rh_shared_trace::{RunOptions, run_shared};
use rh_text::IoLog;
use rh_trace::write_command;
use std::process::Abort;
use std::sync::Wait;
use std::thread::Threads;

/// Adds a command of an owner to a text.
fn add(rt: &impl Abort, text: &mut Vec<u8>, owner: u32, command: &Command) {
    assert!(rt; write_command(owner, command, text).is_ok());
    assert!(rt; text.push(b'\n').is_ok());
}

/// A trace of 2,000 commands of four owners.
fn trace<R: AllocGlobal + Abort>(rt: &R, numbers: &mut Numbers) -> Vec<u8> {
    let mut text = Vec::new(rt.alloc());
    assert!(rt; text.extend_from_slice(b"heap 192 32 16 5 4\n").is_ok());
    for _ in 0..2000u32 {
        let owner = 1 + numbers.below(4);
        add(rt, &mut text, owner, &numbers.command(owner));
    }
    text
}

/// Plays a trace in threads: the heap closes with the calls of all, and the history that it printed
/// is legal. Answers how many words the objects take that were made in it, and how many of these
/// objects are raw.
fn play<R: AllocGlobal + Abort + Threads + Wait + Sync>(
    rt: &R,
    text: &[u8],
    idle: u32,
) -> (u64, u64) {
    let options = RunOptions {
        replicators: 4,
        idle,
    };
    let mut written = Vec::new(rt.alloc());
    let ended = run_shared(
        rt,
        rt.alloc(),
        &mut { text },
        &mut IoLog::new(),
        &mut written,
        &mut IoLog::new(),
        options,
    );
    expect_equal(rt, ended, Ok(()));
    let history = read_history(rt.alloc(), &written).ok();
    let history = history.expect(rt, "a history");
    let Some(Verdict::Legal(calls)) = check(rt.alloc(), &history).ok() else {
        panic!(rt; "the history isn't legal");
    };
    expect_equal(rt, calls as usize, history.calls().len());
    let (mut words, mut raws): (u64, u64) = (0, 0);
    for call in history.calls() {
        if let (Some((_, shape)), Ok(_)) = (call.command.made(), call.answer) {
            words = words.saturating_add(2).saturating_add(shape.fields.into());
            raws = raws.saturating_add(shape.raw.into());
        }
    }
    (words, raws)
}

/// The fewest runs, and the most where the threads get few turns beside each other.
const RUNS: usize = 100;

const MOST_RUNS: usize = 2_000;

#[test]
fn four_mutators_and_four_replicators(rt: HostRuntime) {
    let mut numbers = Numbers { state: 3 };
    let (mut collected, mut with_raws): (u64, u64) = (0, 0);
    for row in 0..MOST_RUNS {
        // How often a run collects hangs on the turns that its threads get.
        if RUNS <= row && 10 <= collected && 10 <= with_raws {
            break;
        }
        let rt = Row { rt: &rt, row };
        let text = trace(&rt, &mut numbers);
        let (words, raws) = play(&rt, &text, numbers.below(4));
        // More than the space has: what isn't reached was collected.
        if words > 192 {
            collected = collected.saturating_add(1);
        }
        if raws > 0 {
            with_raws = with_raws.saturating_add(1);
        }
    }
    expect_each(&rt, &[collected, with_raws], 10);
}
