//! A small runtime over `rh_heap`, whole, to be copied and grown: a machine with registers, which
//! hold lists of numbers or texts, and with instructions, which work on registers.
//!
//! A register is a root slot of the machine's owner. So the collector sees what it refers to, and
//! nothing of the machine changes when objects move. A list is nil, or a cell of two fields: its
//! first number, and the list of the others. A text is a raw object with a character a field.
#![tactic(auto)]

ghost use Rattle.std.specs.Prelude.{◌≢◌, ◌≡◌, ◌↔◌, ◌≤◌, ℕ, Bool, IfErr, IfOk, IsOk};
ghost use Rattle.rh_heap.specs.Growing.{IsGrowingInTime, growing_insist};
ghost use Rattle.rh_heap.specs.Progress.{words_made};
ghost use Rattle.rh_heap.specs.Refusal.TheVariants.{LogFull};
ghost use Rattle.rh_heap.specs.declared.error.Error.TheVariants as errors;

use rh_heap::{Command, Error, GrowingHeap, Operand, Reply, RootId, Value};
use std::alloc::Allocator;
use std::io;
use std::process::ExitCode;

/// Who names the registers. Owner 0 is there too: its slots are for what several owners share.
const MACHINE: u32 = 1;

/// The registers of programs.
const LIST: RootId = RootId { owner: 1, slot: 0 };

const TURNED: RootId = RootId { owner: 1, slot: 1 };

const TEXT: RootId = RootId { owner: 1, slot: 2 };

/// The register that names an object until it is whole, and nothing after that. No instruction may
/// name it.
const NEW: RootId = RootId { owner: 1, slot: 3 };

/// The most characters of a text.
const LONGEST: u32 = 16;

/// The most words that the heap may grow to, in each of its two spaces: 16 bytes a word. An object
/// takes a word for each field, and 2 more.
const AT_MOST: u32 = 1_000_000;

/// An instruction.
#[derive(Clone, Copy)]
enum Op {
    /// A number joins in front of the list in the register.
    Push(RootId, i64),
    /// The first register takes the list of the second one, turned round, which is empty then. They
    /// must be two: a register that is turned into itself loses its list.
    Turn(RootId, RootId),
    /// The register takes the text, or its first characters where it is too long.
    Write(RootId, &'static str),
}

const PROGRAM: &[Op] = &[
    Op::Push(LIST, 3),
    Op::Push(LIST, 4),
    Op::Push(LIST, 5),
    Op::Turn(TURNED, LIST),
    Op::Write(TEXT, "turned round"),
];

/// The machine: all that it keeps is in its heap.
#[derive(Drop)]
struct Machine<A: Allocator + Copy> {
    heap: GrowingHeap<A>,
}

impl<A: Allocator + Copy> Machine<A> {
    /// A machine whose registers are all nil. Its heap grows as its program needs it, and collects
    /// in time whatever lives.
    fn new(alloc: A) -> Result<Machine<A>, Error>
        ensures { IfOk result (λ machine. IsGrowingInTime machine.heap) }
    {
        let heap = GrowingHeap::new(alloc, AT_MOST)?;
        Ok(Machine { heap })
    }

    /// Does one instruction after the other.
    fn run(&mut self, program: &[Op]) -> Result<(), Error> {
        for op in program {
            match *op {
                Op::Push(list, number) => self.push(list, number)?,
                Op::Turn(to, from) => self.turn(to, from)?,
                Op::Write(to, text) => self.write(to, text)?,
            }
        }
        Ok(())
    }

    fn push(&mut self, list: RootId, number: i64) -> Result<(), Error> {
        let dst = NEW;
        self.insist(Command::Alloc { dst, fields: 2 })?;
        self.set(0, Operand::Int(number))?;
        self.set(1, Operand::Root(list))?;
        self.heap.copy(MACHINE, list, NEW)?;
        self.heap.drop(MACHINE, NEW)?;
        Ok(())
    }

    fn turn(&mut self, to: RootId, from: RootId) -> Result<(), Error> {
        self.heap.drop(MACHINE, to)?;
        // A list has fewer cells than a space has words.
        for _ in 0..AT_MOST {
            match self.pop(from)? {
                Some(number) => self.push(to, number)?,
                None => break,
            }
        }
        Ok(())
    }

    fn write(&mut self, to: RootId, text: &str) -> Result<(), Error> {
        let (dst, fields) = (NEW, LONGEST);
        self.insist(Command::Raw { dst, fields })?;
        for (field, character) in (0..LONGEST).zip(text.chars()) {
            self.set(field, Operand::Int(i64::from(u32::from(character))))?;
        }
        self.heap.copy(MACHINE, to, NEW)?;
        self.heap.drop(MACHINE, NEW)?;
        Ok(())
    }

    /// Takes the first number from the list in the register; `None` where that holds no list.
    fn pop(&mut self, list: RootId) -> Result<Option<i64>, Error> {
        // A copy to itself changes nothing, and answers what the register holds: a text is raw.
        let Reply::Object(_) = self.heap.copy(MACHINE, list, list)? else {
            return Ok(None);
        };
        match self.heap.peek(MACHINE, list, 0)? {
            Reply::Int(number) => {
                self.heap.load(MACHINE, list, list, 1)?;
                Ok(Some(number))
            }
            _ => Ok(None),
        }
    }

    /// The character of the text in the register; `None` past its end, and where the register holds
    /// no text.
    fn character(&self, text: RootId, field: u32) -> Option<char> {
        let Some(Value::Ref(address)) = self.heap.paced().root(text) else {
            return None;
        };
        if self.heap.paced().raw(address) != Some(true) {
            return None;
        }
        match self.heap.peek(MACHINE, text, field) {
            Ok(Reply::Int(code)) => char::from_u32(u32::try_from(code).ok()?),
            _ => None,
        }
    }

    /// A field of the new object takes a value.
    fn set(&mut self, field: u32, operand: Operand) -> Result<(), Error> {
        let obj = NEW;
        self.insist(Command::Store {
            obj,
            field,
            operand,
        })
    }

    /// Does a command that may need room. Where there is none, the heap collects at once, and grows.
    /// For lack of space it then refuses only where it has the most words, memory for more was
    /// refused, or the epochs are spent. It never refuses for lack of room in the log. A number
    /// outside -2^61 to 2^61 - 1 is refused too.
    fn insist(&mut self, command: Command) -> Result<(), Error>
        ensures done { (given : ℕ → Bool)
            × (self.new.heap ≡ (growing_insist given self.old.heap MACHINE command).0)
            × (IsOk result ↔ IsOk (growing_insist given self.old.heap MACHINE command).1) }
        ensures in_time { IsGrowingInTime self.old.heap
            → words_made command ≤ self.old.heap.growth.biggest → IsGrowingInTime self.new.heap }
        ensures log { IfErr result (λ error. error ≢ errors.Refused LogFull) }
    {
        match self.heap.insist(MACHINE, &command) {
            Ok(_) => Ok(()),
            Err(refusal) => Err(Error::Refused(refusal)),
        }
    }
}

/// What can go wrong in the program.
#[derive(Debug, Drop, thiserror::Error)]
enum Problem {
    /// A call on the heap failed.
    #[error("{0}")]
    Heap(#[from] Error),
    /// A write failed.
    #[error("write failed")]
    Write(#[from] io::Error),
}

/// Runs the program three thousand times, and prints what the registers hold then, and how many
/// cycles there were.
fn play<A: Allocator + Copy>(rt: &impl Print, machine: &mut Machine<A>) -> Result<(), Problem> {
    for _ in 0..3_000u32 {
        machine.run(PROGRAM)?;
    }
    for field in 0..LONGEST {
        if let Some(character) = machine.character(TEXT, field) {
            print!(rt; "{character}")?;
        }
    }
    for _ in 0..AT_MOST {
        let Some(number) = machine.pop(TURNED)? else {
            break;
        };
        print!(rt; " {number}")?;
    }
    let stat = machine.heap.paced().stat();
    println!(rt; ", in {} cycles", stat.flips)?;
    Ok(())
}

/// Makes a machine, and plays with it.
fn run(rt: &(impl Print + AllocGlobal)) -> Result<(), Problem> {
    let mut machine = Machine::new(rt.alloc())?;
    play(rt, &mut machine)
}

fn main(rt: HostRuntime) -> ExitCode {
    match run(&rt) {
        Ok(()) => ExitCode::SUCCESS,
        Err(problem) => {
            let _ = eprintln!(rt; "{problem}");
            ExitCode::FAILURE
        }
    }
}
