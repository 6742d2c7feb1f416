//! The rule by which a heap that grows is paced, on programs that look random: at the mark of the
//! rule no command is refused for room, whatever lives, and at one that is a few words lower some
//! are.

use crate::expectations::expect_equal;
use crate::numbers::Numbers;
use rh_layout::{Command, Operand, Refusal, Reply, RootId};
use rh_pace::{Pace, PacedHeap, least_words};
use std::process::Abort;
use std::rt::HostRuntime;

/// A program that looks random, and how its heap grows.
#[derive(Clone, Copy)]
struct Trial {
    seed: u32,
    /// What the program does: 0 to 7.
    kind: u32,
    ratio: u32,
    /// The words of the biggest object, 3 or more.
    biggest: u32,
    /// Of what a flip left, in percent, the words that the space has then, unless the rule asks for
    /// more.
    factor: u32,
    /// The words by which the mark is lower than that of the rule.
    lower: u32,
}

/// The commands of a program.
const COMMANDS: u32 = 600;

const RATIOS: &[u32] = &[4, 8, 16, 32, 64];

const BIGGEST: &[u32] = &[3, 10, 40, 300];

const FACTORS: &[u32] = &[100, 150, 200, 300];

/// The head of a list.
const HEAD: RootId = RootId { owner: 1, slot: 0 };

const NEW: RootId = RootId { owner: 1, slot: 1 };

const OTHER: RootId = RootId { owner: 1, slot: 2 };

impl Trial {
    /// The pace in a space of so many words.
    fn pace(self, words: u32) -> Option<Pace> {
        let pace = Pace::growing(words, self.biggest, self.ratio).ok()?;
        Some(Pace {
            mark: pace.mark.saturating_sub(self.lower),
            ..pace
        })
    }

    /// The words that a space has after a flip which left so many used.
    fn words(self, used: u32) -> u32 {
        let least = least_words(used, self.biggest, self.ratio).unwrap_or(0);
        let times = u64::from(used) * u64::from(self.factor) / 100;
        u32::try_from(least.max(times)).unwrap_or(u32::MAX).max(8)
    }

    /// The fields of the next object.
    fn fields(self, numbers: &mut Numbers) -> u32 {
        let most = self.biggest.saturating_sub(2).max(1);
        match self.kind {
            0 | 1 => most,
            2 => 1,
            _ => 1 + numbers.below(most),
        }
    }

    /// What is done once an object is there, in `NEW`: so many commands.
    fn after(self, numbers: &mut Numbers, turn: u32) -> &'static [Command] {
        match self.kind {
            // A list that only grows.
            0 | 2 | 3 => KEEP,
            // A list that is dropped now and then.
            1 | 4 if numbers.below(200) == 0 => DROP_LIST,
            1 | 4 => KEEP,
            // Nothing is kept.
            5 => &[],
            // Fields are stored to again and again.
            6 if turn % 4 > 0 => STORES,
            6 => KEEP,
            // It grows first, and then less and less is kept.
            _ if turn < COMMANDS / 2 => KEEP,
            _ => LEAVE,
        }
    }
}

/// The new object is the first of the list.
const KEEP: &[Command] = &[
    Command::Store {
        obj: NEW,
        field: 0,
        operand: Operand::Root(HEAD),
    },
    Command::Copy {
        dst: HEAD,
        src: NEW,
    },
];

const DROP_LIST: &[Command] = &[Command::Drop { root: HEAD }];

/// The first object leaves the list, and so does the second.
const LEAVE: &[Command] = &[
    Command::Load {
        dst: HEAD,
        src: HEAD,
        field: 0,
    },
    Command::Load {
        dst: HEAD,
        src: HEAD,
        field: 0,
    },
];

/// The first field of the new object is stored to twice.
const STORES: &[Command] = &[
    Command::Store {
        obj: NEW,
        field: 0,
        operand: Operand::Root(HEAD),
    },
    Command::Store {
        obj: NEW,
        field: 0,
        operand: Operand::Root(OTHER),
    },
];

/// Whether an answer says that there was no room.
fn is_room_refused(answer: Result<Reply, Refusal>) -> bool {
    matches!(answer, Err(Refusal::SpaceFull { .. } | Refusal::LogFull))
}

/// Resizes the heap as the trial has it after a flip.
fn resize(rt: &impl Abort, heap: &mut PacedHeap, trial: Trial) {
    let words = trial.words(heap.heap().used());
    let pace = trial.pace(words).expect(rt, "a pace");
    assert!(rt; heap.resize(words, pace).is_ok());
}

/// Whether a program is refused for room, whose heap is resized after each flip.
fn is_refused<R: AllocGlobal + Abort>(rt: &R, trial: Trial) -> bool {
    let words = trial.words(0);
    let pace = trial.pace(words).expect(rt, "a pace");
    let made = PacedHeap::new(rt.alloc(), pace.config(words, trial.ratio, 2, 4), pace);
    let mut heap = made.ok().expect(rt, "a heap");
    is_refused_in(rt, &mut heap, trial)
}

/// The same in a heap of the trial's first words.
fn is_refused_in(rt: &impl Abort, heap: &mut PacedHeap, trial: Trial) -> bool {
    let mut numbers = Numbers {
        state: trial.seed.into(),
    };
    for turn in 0..COMMANDS {
        let fields = trial.fields(&mut numbers);
        let alloc = Command::Alloc { dst: NEW, fields };
        let epoch = heap.heap().epoch();
        if is_room_refused(heap.command(1, &alloc)) {
            return true;
        }
        for command in trial.after(&mut numbers, turn) {
            if is_room_refused(heap.command(1, command)) {
                return true;
            }
        }
        if heap.heap().epoch() > epoch {
            resize(rt, heap, trial);
        }
    }
    false
}

/// How many of the trials are refused for room, where the mark is lower by so many words.
fn refused<R: AllocGlobal + Abort>(rt: &R, lower: u32) -> u32 {
    let mut refused = 0u32;
    for seed in 0..200u32 {
        let trial = Trial {
            seed,
            kind: seed % 8,
            ratio: RATIOS[seed as usize % RATIOS.len()],
            biggest: BIGGEST[seed as usize / 8 % BIGGEST.len()],
            factor: FACTORS[seed as usize / 5 % FACTORS.len()],
            lower,
        };
        if is_refused(rt, trial) {
            refused = refused.saturating_add(1);
        }
    }
    refused
}

/// At the mark of the rule no program is refused for room, whatever lives.
#[test]
fn programs_have_room_at_the_mark(rt: HostRuntime) {
    expect_equal(&rt, refused(&rt, 0), 0);
}

/// At a mark that is 5 words lower some are.
#[test]
fn some_programs_have_none_below_it(rt: HostRuntime) {
    assert!(rt; refused(&rt, 5) > 9);
}
