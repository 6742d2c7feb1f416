//! Plays programs in exactly the space that the rule of paces gives them, and fails where a command
//! is refused: what `bench/keeps_up` runs.

use crate::mutators::{Mutator, OWNER, big_objects, buffers, list, queue, stores_alone};
use rh_layout::Command;
use rh_pace::{Pace, PaceError, PacedHeap};
use std::alloc::Global;

/// The slots of the owner that the programs use.
const SLOTS: u32 = 3;

/// What is played of a program.
#[derive(Clone, Copy)]
pub struct Asked {
    /// The cells of a list or a queue.
    pub cells: u32,
    /// The units of collector work for each allocated word.
    pub ratio: u32,
    /// The commands that are given at least.
    pub commands: u64,
}

impl Asked {
    /// Little of each.
    pub const LITTLE: Asked = Asked {
        cells: 50,
        ratio: 8,
        commands: 20_000,
    };
}

/// The program of this name; nothing where there is none, or memory was refused.
fn mutator(memory: Global, name: &str, cells: u32) -> Option<Mutator> {
    match name {
        "list" => list(memory, cells),
        "queue" => queue(memory, cells),
        "big-objects" => big_objects(memory),
        "stores" => stores_alone(memory),
        "raw-buffers" => buffers(memory, true),
        "buffers" => buffers(memory, false),
        _ => None,
    }
}

/// The least words at which a pace keeps up; nothing where none does at any.
fn least_words(live: u32, biggest: u32, ratio: u32) -> Option<u32> {
    match Pace::of(0, live, biggest, ratio) {
        Err(PaceError::TooSmall { need }) => u32::try_from(need).ok(),
        _ => None,
    }
}

/// Gives commands of the owner until one is refused, and answers how many there were; nothing where
/// one was refused.
fn give(heap: &mut PacedHeap, commands: &[Command]) -> Option<u64> {
    let mut given = 0u64;
    for command in commands {
        heap.command(OWNER, command).ok()?;
        given = given.wrapping_add(1);
    }
    Some(given)
}

/// What a program does next: where a cycle is on it may do something else.
fn next<'a>(heap: &PacedHeap, mutator: &'a Mutator) -> &'a [Command] {
    if heap.heap().is_in_cycle() && !mutator.inside.is_empty() {
        &mutator.inside
    } else {
        &mutator.outside
    }
}

/// Plays a program until so many commands were given, and answers how many there were; nothing
/// where one was refused.
fn play(heap: &mut PacedHeap, mutator: &Mutator, commands: u64) -> Option<u64> {
    let mut given = give(heap, &mutator.first)?;
    for _ in 0..commands {
        if given >= commands {
            return Some(given);
        }
        let round = next(heap, mutator);
        given = given.wrapping_add(give(heap, round)?);
    }
    Some(given)
}

/// Plays a program on a heap of so many words at this pace. Answers how many commands were given
/// and how many cycles ended; nothing where one was refused.
fn play_at(
    memory: Global,
    mutator: &Mutator,
    asked: Asked,
    words: u32,
    pace: Pace,
) -> Option<(u64, u64)> {
    let mut heap = PacedHeap::new(memory, pace.config(words, asked.ratio, 2, SLOTS), pace).ok()?;
    let given = play(&mut heap, mutator, asked.commands)?;
    Some((given, heap.stat().flips))
}

/// Plays a program in exactly the words that the rule asks for, and prints what that came to;
/// nothing where the heap or one of its commands was refused, which is printed.
fn play_in_least(
    rt: &(impl Print + AllocGlobal),
    name: &str,
    mutator: &Mutator,
    asked: Asked,
) -> Option<()> {
    let (live, biggest, ratio) = (mutator.live, mutator.biggest, asked.ratio);
    let words = least_words(live, biggest, ratio)?;
    let pace = Pace::of(words, live, biggest, ratio).ok()?;
    let Some((given, cycles)) = play_at(rt.alloc(), mutator, asked, words, pace) else {
        let _ = println!(rt; "{name} ratio {ratio}: refused");
        return None;
    };
    let mark = pace.mark;
    println!(rt; "{name} ratio {ratio} live {live} words {words} mark {mark}").ok()?;
    println!(rt; "commands {given} cycles {cycles}: none was refused").ok()
}

/// Plays the program of this name in exactly the words that the rule asks for, and prints what that
/// came to; nothing where none has this name, or the heap or a command was refused.
pub fn run(rt: &(impl Print + AllocGlobal), name: &str, asked: Asked) -> Option<()> {
    let mutator = mutator(rt.alloc(), name, asked.cells)?;
    play_in_least(rt, name, &mutator, asked)
}
