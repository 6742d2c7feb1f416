//! Heaps that live long in a small space.

use crate::both::{Both, Counts, TIGHT};
use crate::expectations::{Row, expect_each, expect_equal, expect_limit, expect_same_dump};
use crate::numbers::{Numbers, count};
use crate::tickets::Tickets;
use refusing::RefusingAllocator;
use rh_core::{Config, Heap};
use rh_layout::{Command, Refusal, Reply};
use rh_model::{CommandError, Plain};
use rh_pace::{Pace, PacedHeap};
use std::alloc::{Allocator, Global};
use std::process::Abort;

/// More events than a thousand cycles take.
const MANY: usize = 400_000;

/// Expects that all that may come about came about often.
fn expect_counts(rt: &impl Abort, counts: &Counts) {
    expect_equal(rt, counts.flips, 1000);
    expect_each(rt, &counts.gives, 100);
    let mut gives: u64 = 0;
    for count in counts.gives {
        gives = gives.saturating_add(count);
    }
    expect_each(rt, &[gives], 1000);
    let (invented, dealt) = (&counts.invented, &counts.dealt);
    expect_each(rt, &[invented.joined, dealt.joined], 1000);
    expect_each(rt, &[invented.repeated, dealt.repeated], 1000);
    expect_each(rt, &[invented.stale, dealt.stale], 10);
    expect_each(rt, &[invented.placed, dealt.placed], 40);
    expect_each(rt, &[counts.idles_spent], 40);
    expect_each(rt, &[counts.commands], 20_000);
    expect_each(rt, &[counts.full], 500);
    expect_each(rt, &[counts.logs_full], 40);
    expect_each(rt, &[counts.recalls, counts.abandons, counts.idles], 300);
    expect_each(rt, &[counts.lost, counts.mended], 50);
    let resizes = &counts.resizes;
    expect_each(rt, &resizes.accepted, 100);
    expect_each(rt, &resizes.refused, 20);
    expect_each(rt, &resizes.releases, 100);
    expect_equal(rt, resizes.out_of_memory, [0, 0]);
}

/// A heap whose collector does anything at any moment, gives what nobody dealt, loses pieces,
/// recalls, abandons, resizes and watches: each answer is that of the heap that never moves, or the
/// definition's.
#[test]
fn a_heap_through_a_thousand_cycles(rt: HostRuntime) {
    let heap = Heap::new(rt.alloc(), TIGHT).ok().expect(&rt, "a heap");
    let mut both = Both::new(&rt, rt.alloc(), heap);
    let mut numbers = Numbers { state: 1 };
    for row in 0..MANY {
        let rt = Row { rt: &rt, row };
        if both.heap.stat().flips < 1000 {
            both.live(&rt, &mut numbers);
        }
    }
    expect_counts(&rt, &both.counts);
    expect_tickets(&rt, &both.tickets);
    both.settle(&rt);
}

/// Ends the test unless all that comes about of tickets did so, often enough.
fn expect_tickets(rt: &impl Abort, tickets: &Tickets) {
    expect_each(rt, &tickets.watches, 100);
    expect_each(rt, &tickets.unwatched, 100);
    let [made, fewer, many, refused] = tickets.rooms;
    expect_each(rt, &[made, fewer, many], 10);
    expect_equal(rt, refused, 0);
    expect_each(rt, &tickets.followed, 100);
    expect_each(rt, &[tickets.told], 1000);
}

/// More allocations than a new heap asks for, and about as many as one of `FEW` events does.
const ASKED: usize = 16;

/// The events of a short life.
const FEW: usize = 400;

/// A short life of a heap to which one allocation is refused. Answers how many resizes, releases
/// and calls for tickets this was; the heap isn't there where it was none of these.
fn refused_in_a_life(rt: &impl Abort, memory: Global, nth: usize, seed: u64) -> [u64; 3] {
    let refusing = RefusingAllocator::new(memory, nth as u64);
    let Ok(heap) = Heap::new(&refusing, TIGHT) else {
        return [0, 0, 0];
    };
    let mut both = Both::new(rt, memory, heap);
    let mut numbers = Numbers { state: seed };
    for row in 0..FEW {
        both.live(&Row { rt, row }, &mut numbers);
    }
    both.settle(rt);
    let [resizes, releases] = both.counts.resizes.out_of_memory;
    let rooms = both.tickets.rooms[3];
    let told = resizes.saturating_add(releases).saturating_add(rooms);
    expect_equal(rt, told, refusing.has_refused().into());
    [resizes, releases, rooms]
}

/// Memory is refused to one resize or release of a heap, or to room for tickets, at any moment of
/// its life: nothing has changed then, and it lives on.
#[test]
fn heaps_to_which_a_growth_is_refused(rt: HostRuntime) {
    let (mut resizes, mut releases, mut rooms): (u64, u64, u64) = (0, 0, 0);
    for row in 0..200usize {
        let rt = Row { rt: &rt, row };
        let refused = refused_in_a_life(&rt, rt.alloc(), 1 + row % ASKED, row as u64);
        resizes = resizes.saturating_add(refused[0]);
        releases = releases.saturating_add(refused[1]);
        rooms = rooms.saturating_add(refused[2]);
    }
    expect_each(&rt, &[resizes, releases, rooms], 20);
}

/// The sizes of a heap whose limits are met now and then.
const SMALL: Config = Config {
    words: 64,
    ratio: 8,
    owners: 3,
    slots: 4,
    log_limit: 2,
    last_number: 1 << 62,
    last_epoch: 1 << 62,
};

/// A cycle begins where fewer than 40 of the 64 words are free.
const PACE: Pace = Pace {
    mark: 40,
    store_units: 8,
    log_limit: 2,
};

/// A paced heap, the heap that never moves beside it, and what was counted.
#[derive(Drop)]
struct Paced {
    paced: PacedHeap<Global>,
    plain: Plain<Global>,
    /// Answers that weren't limits', and refusals for want of room and of a log.
    answers: u64,
    full: u64,
    logs_full: u64,
    /// Stores that were insisted on and done where the log was full.
    logs_emptied: u64,
    /// Flips by `collect`.
    collected: u64,
}

impl Paced {
    /// A command, or one that is insisted on, which is never told that the log is full.
    fn ask(&mut self, owner: u32, command: &Command, insists: bool) -> Result<Reply, Refusal> {
        if insists {
            self.paced.insist(owner, command)
        } else {
            self.paced.command(owner, command)
        }
    }

    /// A command, whose answer is the plain heap's unless it is a limit's.
    fn command(&mut self, rt: &impl Abort, numbers: &mut Numbers) {
        let owner = 1 + numbers.below(2);
        let command = numbers.command(owner);
        let insists = numbers.has(1);
        let before = self.paced.stat();
        let answer = self.ask(owner, &command, insists);
        if let Err(refusal) = answer
            && refusal.is_limit()
        {
            if insists {
                // A full log is collected away, and so is what isn't reached.
                let is_full = matches!(refusal, Refusal::SpaceFull { need, free } if need > free);
                assert!(rt; is_full && command.made().is_some());
            } else {
                expect_limit(rt, refusal, &command, &before, SMALL.log_limit);
                expect_equal(rt, self.paced.stat(), before);
            }
            count(match refusal {
                Refusal::LogFull => &mut self.logs_full,
                _ => &mut self.full,
            });
            return;
        }
        let plain = self.plain.command(owner, &command);
        expect_equal(rt, answer.map_err(CommandError::Refused), plain);
        count(&mut self.answers);
        let was_full = before.cycle && before.log == u64::from(SMALL.log_limit);
        if was_full && answer.is_ok() && matches!(command, Command::Store { .. }) {
            assert!(rt; insists);
            count(&mut self.logs_emptied);
        }
    }

    /// An increment beside a command, or a collection on demand, now and then.
    fn collect<R: AllocGlobal + Abort>(&mut self, rt: &R, numbers: &mut Numbers) {
        match numbers.below(500) {
            0 => {
                let _ = self.paced.increment();
            }
            1 => {
                let flips = self.paced.stat().flips;
                assert!(rt; self.paced.collect().is_ok());
                let stat = self.paced.stat();
                assert!(rt; stat.flips > flips && !stat.cycle);
                count(&mut self.collected);
                expect_same_dump(rt, rt.alloc(), self.paced.heap(), &self.plain);
            }
            _ => {}
        }
    }
}

#[test]
fn a_paced_heap_through_a_thousand_cycles(rt: HostRuntime) {
    let mut paced = Paced {
        paced: PacedHeap::new(rt.alloc(), SMALL, PACE)
            .ok()
            .expect(&rt, "a heap"),
        plain: Plain::new(rt.alloc(), SMALL.owners, SMALL.slots)
            .ok()
            .expect(&rt, "a plain heap"),
        answers: 0,
        full: 0,
        logs_full: 0,
        logs_emptied: 0,
        collected: 0,
    };
    let mut numbers = Numbers { state: 2 };
    for row in 0..MANY {
        let rt = Row { rt: &rt, row };
        if paced.paced.stat().flips < 1000 {
            paced.command(&rt, &mut numbers);
            paced.collect(&rt, &mut numbers);
        }
    }
    expect_equal(&rt, paced.paced.stat().flips, 1000);
    expect_each(&rt, &[paced.answers], 10_000);
    expect_each(&rt, &[paced.full, paced.logs_full, paced.collected], 10);
    expect_each(&rt, &[paced.logs_emptied], 3);
    assert!(rt; paced.collected < 300, "{}", paced.collected);
    expect_same_dump(&rt, rt.alloc(), paced.paced.heap(), &paced.plain);
}
