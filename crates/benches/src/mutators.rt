//! Programs of one owner, each of which keeps to a number of words that are reached at most.

use rh_layout::{Command, Operand, RootId};
use std::alloc::Global;

/// The owner.
pub const OWNER: u32 = 1;

/// The words of a cell: a header, a forward word, a number and a reference.
pub const CELL_WORDS: u32 = 4;

/// The words of a big object, and its fields.
const BIG_WORDS: u32 = 258;

const BIG_FIELDS: u32 = BIG_WORDS - 2;

/// The words of an object that names a big one, and its fields.
const NAMING_WORDS: u32 = 28;

const NAMING_FIELDS: u32 = NAMING_WORDS - 2;

/// The fields of a table, and what is reached beside it.
const TABLE_FIELDS: u32 = 998;

const BESIDE_WORDS: u32 = 6;

/// What a program does again and again, with at most so many words reached, and no object above so
/// many words.
#[derive(Drop)]
pub struct Mutator {
    pub live: u32,
    pub biggest: u32,
    /// Once, at first.
    pub first: Vec<Command>,
    /// Where no cycle is on.
    pub outside: Vec<Command>,
    /// Where one is; nothing where that makes no difference.
    pub inside: Vec<Command>,
}

/// A root of the owner.
pub fn root(slot: u32) -> RootId {
    RootId { owner: OWNER, slot }
}

/// A new object of so many fields.
fn alloc(slot: u32, fields: u32) -> Command {
    Command::Alloc {
        dst: root(slot),
        fields,
    }
}

/// A new raw object of so many fields.
fn alloc_raw(slot: u32, fields: u32) -> Command {
    Command::Raw {
        dst: root(slot),
        fields,
    }
}

/// A field takes a value.
fn store(slot: u32, field: u32, operand: Operand) -> Command {
    Command::Store {
        obj: root(slot),
        field,
        operand,
    }
}

/// A root takes what another one holds.
fn copy(to: u32, from: u32) -> Command {
    Command::Copy {
        dst: root(to),
        src: root(from),
    }
}

/// Adds commands at the end; nothing where memory was refused.
fn add(commands: &mut Vec<Command>, more: &[Command]) -> Option<()> {
    for command in more {
        commands.push(*command).ok()?;
    }
    Some(())
}

/// A list that grows to so many cells and is dropped.
pub fn list(memory: Global, cells: u32) -> Option<Mutator> {
    let mut round = Vec::new(memory);
    add(&mut round, &[Command::Drop { root: root(0) }])?;
    for _ in 0..cells {
        let push = [alloc(1, 2), store(1, 1, Operand::Root(root(0))), copy(0, 1)];
        add(&mut round, &push)?;
    }
    Some(Mutator {
        live: CELL_WORDS.wrapping_mul(cells),
        biggest: CELL_WORDS,
        first: Vec::new(memory),
        outside: round,
        inside: Vec::new(memory),
    })
}

/// A queue of one cell.
pub fn begin_queue() -> [Command; 2] {
    [alloc(0, 2), copy(1, 0)]
}

/// A cell joins behind the others.
pub fn join() -> [Command; 3] {
    [alloc(2, 2), store(1, 1, Operand::Root(root(2))), copy(1, 2)]
}

/// The first cell leaves.
pub fn leave() -> [Command; 2] {
    let next = Command::Load {
        dst: root(0),
        src: root(0),
        field: 1,
    };
    [next, Command::Drop { root: root(2) }]
}

/// So many cells of which one joins behind the others, before the first one leaves.
pub fn queue(memory: Global, cells: u32) -> Option<Mutator> {
    let mut first = Vec::new(memory);
    add(&mut first, &begin_queue())?;
    for _ in 2..cells {
        add(&mut first, &join())?;
    }
    let mut round = Vec::new(memory);
    add(&mut round, &join())?;
    add(&mut round, &leave())?;
    Some(Mutator {
        live: CELL_WORDS.wrapping_mul(cells),
        biggest: CELL_WORDS,
        first,
        outside: round,
        inside: Vec::new(memory),
    })
}

/// Big objects, of which three live, and the last field of every other one refers to the one before
/// it.
pub fn big_objects(memory: Global) -> Option<Mutator> {
    let mut round = Vec::new(memory);
    let both = [
        alloc(0, BIG_FIELDS),
        store(0, BIG_FIELDS - 1, Operand::Root(root(1))),
        alloc(1, BIG_FIELDS),
        store(1, 0, Operand::Int(3)),
    ];
    add(&mut round, &both)?;
    Some(Mutator {
        live: 3 * BIG_WORDS,
        biggest: BIG_WORDS,
        first: Vec::new(memory),
        outside: round,
        inside: Vec::new(memory),
    })
}

/// Buffers, which are raw or aren't, each named by a small object: nine tenths of the words are
/// theirs. Two buffers live, and one object that names one.
pub fn buffers(memory: Global, raw: bool) -> Option<Mutator> {
    let buffer = if raw {
        alloc_raw(0, BIG_FIELDS)
    } else {
        alloc(0, BIG_FIELDS)
    };
    let mut round = Vec::new(memory);
    let named = [
        buffer,
        store(0, 0, Operand::Int(3)),
        alloc(1, NAMING_FIELDS),
        store(1, 0, Operand::Root(root(0))),
    ];
    add(&mut round, &named)?;
    Some(Mutator {
        live: 2 * BIG_WORDS + NAMING_WORDS,
        biggest: BIG_WORDS,
        first: Vec::new(memory),
        outside: round,
        inside: Vec::new(memory),
    })
}

/// A table to which alone is stored while a cycle is on, field by field, and small objects while
/// none is.
pub fn stores_alone(memory: Global) -> Option<Mutator> {
    let mut first = Vec::new(memory);
    add(&mut first, &[alloc(0, TABLE_FIELDS), alloc(1, 1)])?;
    let mut outside = Vec::new(memory);
    add(&mut outside, &[alloc(1, 1)])?;
    let mut inside = Vec::new(memory);
    for field in 0..TABLE_FIELDS {
        let number = Operand::Int(field.into());
        let stores = [store(0, 3, Operand::Root(root(1))), store(0, field, number)];
        add(&mut inside, &stores)?;
    }
    Some(Mutator {
        live: TABLE_FIELDS + 2 + BESIDE_WORDS,
        biggest: TABLE_FIELDS + 2,
        first,
        outside,
        inside,
    })
}
