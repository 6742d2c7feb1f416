//! Traces that are played on a shared heap, with mutators and replicators in threads.

use crate::expectations::{Row, expect_bytes, expect_equal, expect_texts, play_again};
use refusing::RefusingAllocator;
use rh_core::ConfigFault;
use rh_replay::{Verdict, check, read_history};
use rh_shared::SharedFault;
use rh_shared_trace::{RunOptions, SharedRunFault, run_shared};
use rh_syntax::{Kind, TraceFault};
use rh_text::IoLog;
use std::alloc::Allocator;
use std::process::Abort;
use std::sync::Wait;
use std::thread::Threads;

/// No replicators, and no idle words.
const ALONE: RunOptions = RunOptions {
    replicators: 0,
    idle: 0,
};

/// One replicator, and two.
const ONE: RunOptions = RunOptions {
    replicators: 1,
    idle: 0,
};

const TWO: RunOptions = RunOptions {
    replicators: 2,
    idle: 0,
};

/// Two replicators, and an idle word.
const IDLE: RunOptions = RunOptions {
    replicators: 2,
    idle: 1,
};

/// No replicators, and as many idle words in each increment as end a cycle of one small object; and
/// the same with one replicator.
const IDLE_ALONE: RunOptions = RunOptions {
    replicators: 0,
    idle: 40,
};

const IDLE_ONE: RunOptions = RunOptions {
    replicators: 1,
    idle: 40,
};

/// What a trace of two owners is played with.
const CROWDS: &[RunOptions] = &[ALONE, TWO, IDLE];

/// More replicators than there may be.
const NINE: RunOptions = RunOptions {
    replicators: 9,
    idle: 0,
};

/// A number that is stored, and read once a cycle is on: the fifth object leaves less than half of
/// the words.
const HALF_FULL: &[u8] = b"heap 64 8 8 2 2\n1 alloc 1.0 6\n1 store 1.0 0 5\n\
    1 raw 1.1 6\n1 alloc 1.1 6\n1 alloc 1.1 6\n1 alloc 1.1 6\n1 alloc 1.1 6\n\
    1 store 1.0 1 1.1\n1 load 1.1 1.0 0\n";

const HALF_FULL_HISTORY: &[u8] = b"history 2 2\n1 alloc 1.0 6 = object 6\n1 store 1.0 0 5 = done\n\
    1 raw 1.1 6 = raw 6\n1 alloc 1.1 6 = object 6\n1 alloc 1.1 6 = object 6\n\
    1 alloc 1.1 6 = object 6\n1 alloc 1.1 6 = object 6\n\
    1 store 1.0 1 1.1 = done\n1 load 1.1 1.0 0 = int 5\nend 9\n";

/// An allocation for which there is no room, and a line whose root isn't there.
const LEFT_OUT: &[u8] = b"heap 16 8 4 1 1\n0 alloc 0.0 15\n0 drop 1.0\n0 drop 0.0\n";

const LEFT_OUT_HISTORY: &[u8] =
    b"history 1 1\n0 drop 1.0 = refused NoRoot\n0 drop 0.0 = done\nend 2\n";

/// Five objects, each in place of the one before it, where there is room for four at a time. The
/// third leaves less than half of the words, and the fourth grants what ends the cycle.
const REPLACED: &[u8] = b"heap 32 8 8 1 1\n\
    0 alloc 0.0 6\n0 alloc 0.0 6\n0 alloc 0.0 6\n0 alloc 0.0 6\n0 alloc 0.0 6\n";

/// The same, where the fourth grants too little.
const REPLACED_SLOWLY: &[u8] = b"heap 32 1 8 1 1\n\
    0 alloc 0.0 6\n0 alloc 0.0 6\n0 alloc 0.0 6\n0 alloc 0.0 6\n0 alloc 0.0 6\n";

const REPLACED_HISTORY: &[u8] = b"history 1 1\n\
    0 alloc 0.0 6 = object 6\n0 alloc 0.0 6 = object 6\n0 alloc 0.0 6 = object 6\n\
    0 alloc 0.0 6 = object 6\n0 alloc 0.0 6 = object 6\nend 5\n";

/// There is no room for the fifth.
const FOUR_HISTORY: &[u8] = b"history 1 1\n\
    0 alloc 0.0 6 = object 6\n0 alloc 0.0 6 = object 6\n0 alloc 0.0 6 = object 6\n\
    0 alloc 0.0 6 = object 6\nend 4\n";

/// Three stores in the cycle that the third object begins, where the log has one entry. Nothing is
/// granted after that, so the cycle doesn't end.
const LOG_FULL: &[u8] = b"heap 32 1 1 1 1\n\
    0 alloc 0.0 6\n0 alloc 0.0 6\n0 alloc 0.0 6\n\
    0 store 0.0 0 1\n0 store 0.0 1 2\n0 store 0.0 0 3\n0 load 0.0 0.0 1\n";

/// The stores after the first are left out, however many they are.
const LOG_FULL_HISTORY: &[u8] = b"history 1 1\n\
    0 alloc 0.0 6 = object 6\n0 alloc 0.0 6 = object 6\n0 alloc 0.0 6 = object 6\n\
    0 store 0.0 0 1 = done\n0 load 0.0 0.0 1 = nil\nend 5\n";

/// Two stores in that cycle: one more than the log has entries.
const LOG_FULL_BY_ONE: &[u8] = b"heap 32 1 1 1 1\n\
    0 alloc 0.0 6\n0 alloc 0.0 6\n0 alloc 0.0 6\n\
    0 store 0.0 0 1\n0 store 0.0 1 2\n0 load 0.0 0.0 1\n";

/// Two owners that share objects, and use 48 of 64 words, some of which nothing reaches any more.
const SHARED: &[u8] = b"heap 64 8 32 3 2\n\
    1 alloc 1.0 6\n2 alloc 2.0 6\n1 store 1.0 0 1\n2 store 2.0 0 2\n\
    1 copy 0.0 1.0\n2 copy 0.1 2.0\n1 load 1.1 0.1 0\n2 load 2.1 0.0 0\n\
    1 alloc 1.1 6\n2 alloc 2.1 6\n1 store 1.0 1 1.1\n2 store 2.0 1 2.1\n\
    1 alloc 1.1 6\n2 alloc 2.1 6\n1 store 1.0 1 1.1\n2 store 2.0 1 2.1\n\
    1 load 1.1 1.0 0\n2 load 2.1 2.0 0\n1 same 1.0 0.1\n2 same 2.0 0.0\n";

/// Inputs that are no such traces, each with the line that is told and what is wrong with it.
const FAULTY: &[(&[u8], u32, Kind)] = &[
    (b"", 1, Kind::Empty),
    (b"heap 64 8 8 2 2", 1, Kind::Cut),
    (b"heap 64 8 8 2 2\n1 drop 1.0\n1 drop", 3, Kind::Cut),
    // The first line that isn't a command, or isn't one of an owner that is there.
    (
        b"heap 64 8 8 2 2\n1 drop 1.0\nbegin\n2 drop 1.0\n",
        3,
        Kind::Word,
    ),
    (
        b"heap 64 8 8 2 2\n1 drop 1.0\n2 drop 1.0\nbegin\n",
        3,
        Kind::Root,
    ),
    // A line of watches is none, whatever its owner.
    (b"heap 64 8 8 2 2\n1 drop 1.0\n1 watch 1.0\n", 3, Kind::Word),
    (b"heap 64 8 8 2 2\n2 watch 1.0\n", 2, Kind::Word),
    (b"heap 64 8 8 2 2\ngone\n", 2, Kind::Word),
    // It comes before a fault of the sizes, and after one of the text.
    (b"heap 7 8 8 2 2\n2 drop 1.0\n", 2, Kind::Root),
    (b"heap 64 8 8 2 2\nbegin\n1 drop\n", 3, Kind::Form),
];

/// Traces whose sizes make no heap, each with what is wrong with them.
const WITHOUT_HEAP: &[(&[u8], ConfigFault)] = &[
    (b"heap 7 8 8 2 2\n", ConfigFault::BadSpace),
    (b"heap 64 8 8 17 2\n16 drop 1.0\n", ConfigFault::BadRoots),
];

/// The texts of the faults.
const FAULT_TEXTS: &[(SharedRunFault, &str)] = &[
    (SharedRunFault::Read, "read failed"),
    (SharedRunFault::Long, "too long"),
    (SharedRunFault::New(ConfigFault::BadSpace), "heap: BadSpace"),
    (
        SharedRunFault::Shared(SharedFault::BadReplicators),
        "heap: BadReplicators",
    ),
    (SharedRunFault::HistoryDiffers, "history differs"),
    (SharedRunFault::Write, "write failed"),
    (SharedRunFault::OutOfMemory, "out of memory"),
];

/// Plays a trace in threads. It has no clauses, since no test needs what `run_shared` promises.
fn played<R, A>(
    rt: &R,
    alloc: A,
    text: &mut &[u8],
    written: &mut Vec<u8>,
    options: RunOptions,
) -> Result<(), SharedRunFault>
where
    R: Threads + Wait + Sync,
    A: Allocator + Copy + Send,
{
    let mut reads = IoLog::new();
    let mut writes = IoLog::new();
    run_shared(rt, alloc, text, &mut reads, written, &mut writes, options)
}

/// Ends the test unless the text is played to this end, and this is written.
fn runs_to<R: AllocGlobal + Abort + Threads + Wait + Sync>(
    rt: &R,
    options: RunOptions,
    text: &[u8],
    end: Result<(), SharedRunFault>,
    history: &[u8],
) {
    let mut reader = text;
    let mut written = Vec::new(rt.alloc());
    let outcome = played(rt, rt.alloc(), &mut reader, &mut written, options);
    expect_equal(rt, outcome, end);
    expect_bytes(rt, &written, history);
}

/// Traces of one owner, with their histories, and what they are played with.
const ONE_OWNER: &[(RunOptions, &[u8], &[u8])] = &[
    (ALONE, HALF_FULL, HALF_FULL_HISTORY),
    (ONE, HALF_FULL, HALF_FULL_HISTORY),
    (TWO, HALF_FULL, HALF_FULL_HISTORY),
    (TWO, LEFT_OUT, LEFT_OUT_HISTORY),
    (ALONE, REPLACED, REPLACED_HISTORY),
    (ALONE, REPLACED_SLOWLY, FOUR_HISTORY),
    (IDLE_ALONE, REPLACED_SLOWLY, REPLACED_HISTORY),
    (TWO, LOG_FULL, LOG_FULL_HISTORY),
    (TWO, LOG_FULL_BY_ONE, LOG_FULL_HISTORY),
    (TWO, b"heap 64 8 8 2 2\n", b"history 2 2\nend 0\n"),
];

#[test]
fn histories_of_one_owner(rt: HostRuntime) {
    let mut played: u32 = 0;
    for (row, &(options, text, history)) in ONE_OWNER.iter().enumerate() {
        let rt = Row { rt: &rt, row };
        let again = play_again(|| runs_to(&rt, options, text, Ok(()), history));
        played = played.saturating_add(again);
    }
    expect_equal(&rt, played, 2000);
}

#[test]
fn faults_of_traces(rt: HostRuntime) {
    expect_texts(&rt, FAULT_TEXTS);
    for (row, &(text, line, kind)) in FAULTY.iter().enumerate() {
        let rt = Row { rt: &rt, row };
        let fault = SharedRunFault::Trace(TraceFault { line, kind });
        runs_to(&rt, TWO, text, Err(fault), b"");
    }
    for (row, &(text, fault)) in WITHOUT_HEAP.iter().enumerate() {
        let rt = Row { rt: &rt, row };
        runs_to(&rt, TWO, text, Err(SharedRunFault::New(fault)), b"");
    }
    let fault = SharedRunFault::Shared(SharedFault::BadReplicators);
    runs_to(&rt, NINE, HALF_FULL, Err(fault), b"");
}

/// Ends the test unless the history of two owners is read, is legal and has all their calls: none
/// meets a limit.
fn expect_legal<R: AllocGlobal + Abort>(rt: &R, written: &[u8]) {
    let history = read_history(rt.alloc(), written).expect(rt, "a history");
    let verdict = check(rt.alloc(), &history).ok();
    expect_equal(rt, verdict, Some(Verdict::Legal(20)));
}

/// Ends the test unless the trace of two owners is played to its end.
fn plays_legally<R: AllocGlobal + Abort + Threads + Wait + Sync>(rt: &R, options: RunOptions) {
    let mut reader = SHARED;
    let mut written = Vec::new(rt.alloc());
    let outcome = played(rt, rt.alloc(), &mut reader, &mut written, options);
    expect_equal(rt, outcome, Ok(()));
    expect_legal(rt, &written);
}

#[test]
fn histories_of_two_owners(rt: HostRuntime) {
    let mut played: u32 = 0;
    for (row, &options) in CROWDS.iter().enumerate() {
        let rt = Row { rt: &rt, row };
        let again = play_again(|| plays_legally(&rt, options));
        played = played.saturating_add(again);
    }
    expect_equal(&rt, played, 600);
}

/// How many objects a trace of one owner makes, each in place of the one before it, and how many
/// comparisons follow each. Its space has room for eight of them, so they fill it twice over. There
/// are fewer lines than it takes to end patience.
const OBJECTS: u32 = 20;

const COMPARISONS: u32 = 45;

/// Adds a line to a text.
fn add(rt: &impl Abort, text: &mut Vec<u8>, line: &[u8]) {
    text.extend_from_slice(line).expect(rt, "memory is ample");
}

/// That trace.
fn replaced_often<R: AllocGlobal + Abort>(rt: &R) -> Vec<u8> {
    let mut text = Vec::new(rt.alloc());
    add(rt, &mut text, b"heap 64 8 8 1 1\n");
    for _ in 0..OBJECTS {
        add(rt, &mut text, b"0 alloc 0.0 6\n");
        for _ in 0..COMPARISONS {
            add(rt, &mut text, b"0 same 0.0 0.0\n");
        }
    }
    text
}

/// How many calls stand in a history.
fn calls_of<R: AllocGlobal + Abort>(rt: &R, written: &[u8]) -> usize {
    let history = read_history(rt.alloc(), written).expect(rt, "a history");
    history.calls().len()
}

/// How many calls stand in the history of such a trace.
fn calls_in<R: AllocGlobal + Abort + Threads + Wait + Sync>(
    rt: &R,
    options: RunOptions,
    mut text: &[u8],
) -> usize {
    let mut written = Vec::new(rt.alloc());
    let outcome = played(rt, rt.alloc(), &mut text, &mut written, options);
    expect_equal(rt, outcome, Ok(()));
    calls_of(rt, &written)
}

#[test]
fn replicators_of_a_run_step(rt: HostRuntime) {
    let text = replaced_often(&rt);
    // Pieces are folded under the lock: each object is made.
    expect_equal(&rt, calls_in(&rt, IDLE_ALONE, &text), 920);
    let mut collected: u32 = 0;
    for row in 0..200usize {
        let rt = Row { rt: &rt, row };
        // Without a step no cycle ends, and all objects after the eighth are missing.
        if calls_in(&rt, IDLE_ONE, &text) > 908 {
            collected = collected.saturating_add(1);
        }
    }
    assert!(rt; collected > 0, "{collected}");
}

/// Whether a run of two owners has ended for want of memory: then some was refused, and nothing is
/// written. Else the history is legal, be it that a replicator was refused some and asked again.
fn is_cut<R: AllocGlobal + Abort>(
    rt: &R,
    outcome: Result<(), SharedRunFault>,
    written: &[u8],
    has_refused: bool,
) -> bool {
    if outcome.is_ok() {
        expect_legal(rt, written);
        return false;
    }
    expect_equal(rt, outcome, Err(SharedRunFault::OutOfMemory));
    expect_equal(rt, (has_refused, written.len()), (true, 0));
    true
}

/// Refuses the nth allocation of a run of two owners, whose cycle begins where the fifth of their
/// objects leaves less than half of the words. Answers whether the run ends for want of memory.
fn is_refused_in_threads<R: AllocGlobal + Abort + Threads + Wait + Sync>(rt: &R, nth: u64) -> bool {
    let memory = RefusingAllocator::new(rt.alloc(), nth);
    let mut reader = SHARED;
    let mut written = Vec::new(rt.alloc());
    let outcome = played(rt, &memory, &mut reader, &mut written, TWO);
    is_cut(rt, outcome, &written, memory.has_refused())
}

#[test]
fn refused_memory_in_a_cycle(rt: HostRuntime) {
    let mut refused: u32 = 0;
    for nth in 1..=60u32 {
        let row = nth as usize;
        if is_refused_in_threads(&Row { rt: &rt, row }, nth.into()) {
            refused = refused.saturating_add(1);
        }
    }
    assert!(rt; refused >= 30 && refused < 60, "{refused}");
}
