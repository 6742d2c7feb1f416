//! What a test expects.

use rh_core::{Heap, Stat};
use rh_dump::limits::MAX_OBJECTS;
use rh_dump::{plain_graph, same_text};
use rh_layout::{Command, Refusal};
use rh_model::Plain;
use rh_trace::graph;
use std::alloc::{Allocator, Global};
use std::fmt::{Debug, Display};
use std::process::Abort;
use std::sync::Wait;
use std::thread::Threads;

/// The handle of a row of a table, or of one turn of a loop: what fails under it is told with the
/// row's number, from 0, or with the number that the loop counts.
#[derive(Drop)]
pub struct Row<'a, R> {
    pub rt: &'a R,
    pub row: usize,
}

impl<R: AllocGlobal> Alloc for Row<'_, R> {
    type A = Global;

    fn alloc(&self) -> Global {
        self.rt.alloc()
    }
}

impl<R: Wait> Wait for Row<'_, R> {}

impl<R: Threads> Threads for Row<'_, R> {}

impl<R: Abort> Abort for Row<'_, R> {
    fn abort(&self) -> ! {
        self.rt.abort()
    }

    fn exit(&self, code: i32) -> ! {
        self.rt.exit(code)
    }

    fn panic<D: Display + Drop>(&self, message: D) -> ! {
        self.rt.panic(format_args!("row {}: {message}", self.row))
    }
}

/// Ends the test unless the two are equal, and shows both then: left what was got, right what was
/// wanted.
pub fn expect_equal<T: PartialEq + Debug + Drop>(rt: &impl Abort, got: T, wanted: T) {
    assert_eq!(rt; got, wanted);
}

/// Ends the test unless each of these was counted so often or more.
pub fn expect_each(rt: &impl Abort, counts: &[u64], least: u64) {
    let are_met = counts.iter().all(|count| *count >= least);
    assert!(rt; are_met, "{counts:?}, wanted {least} or more");
}

/// Ends the test unless the limit that is told of stood in the way of the command, in the heap that
/// had these numbers.
pub fn expect_limit(
    rt: &impl Abort,
    refusal: Refusal,
    command: &Command,
    before: &Stat,
    log_limit: u32,
) {
    let stands = match refusal {
        Refusal::SpaceFull { need, free } => {
            free == before.free
                && need > free
                && command.made().is_some_and(|(_, shape)| {
                    need == u64::from(shape.fields).saturating_add(2)
                })
        }
        Refusal::LogFull => {
            let stores = matches!(command, Command::Store { .. });
            stores && before.cycle && before.log == u64::from(log_limit)
        }
        _ => false,
    };
    assert!(rt; stands, "{command:?} {refusal:?} {before:?}");
}

/// Ends the test unless so many allocations or more were refused in turn.
pub fn expect_refusals(rt: &impl Abort, refused: Result<u64, u64>, least: u64) {
    assert!(rt;
        refused.is_ok_and(|n| n >= least),
        "{refused:?}, wanted {least} or more"
    );
}

/// Ends the test unless a heap and a plain heap have the same dump.
pub fn expect_same_dump<A: Allocator + Copy, B: Allocator + Copy>(
    rt: &impl Abort,
    memory: B,
    heap: &Heap<A>,
    plain: &Plain<B>,
) {
    assert!(rt; plain.objects() <= MAX_OBJECTS as usize);
    let moving = graph(memory, heap).ok().expect(rt, "memory is ample");
    let still = plain_graph(memory, plain);
    let still = still.ok().expect(rt, "memory is ample");
    assert!(rt; same_text(&moving, &still));
}
