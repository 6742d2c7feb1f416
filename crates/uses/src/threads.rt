//! Threads that share a heap: each is an owner, and makes its calls under a lock. What all may use
//! stands in a slot of owner 0, here a list; what an owner has in its own slots is there when it
//! takes the lock again. Nothing is recorded, so no history ends what threads may do.

ghost use Rattle.std.specs.Prelude.{◌≢◌, IfErr};
ghost use Rattle.rh_layout.specs.declared.refusal.Refusal.TheVariants.{LogFull};
ghost use Rattle.uses.specs.declared.problem.Problem.TheVariants as problems;

use crate::problem::Problem;
use rh_heap::{Command, Operand, PacedHeap, Refusal, Reply, RootId, Sizes};
use rh_pace::laws::no_limits::what_changes_roots_alone_meets_no_limit;
use std::sync::{Mutex, Wait};
use std::thread::{self, Threads};

/// The words of a cell: a header, a forward word, a number and the rest of the list.
const CELL_WORDS: u32 = 4;

/// Owner 0 and one for each thread, with 2 slots each.
const SIZES: Sizes = Sizes {
    words: 256,
    biggest: CELL_WORDS,
    ratio: 32,
    owners: 3,
    slots: 2,
};

/// The list, from which each thread takes cells that another may have made.
const LIST: RootId = RootId { owner: 0, slot: 0 };

/// Two threads push 10,000 numbers each, and pop as many. Answers the sum of what they popped, and
/// how many cycles there were. No call is refused for want of room in the log.
pub fn run<R: Threads + Wait + Sync + AllocGlobal>(rt: &R) -> Result<(i64, u64), Problem>
    ensures { IfErr result (λ problem. problem ≢ problems.Refused LogFull) }
{
    let heap = PacedHeap::sized(rt.alloc(), SIZES)?;
    let shared = Mutex::new(heap);
    let (one, two) = thread::join(rt, || work(rt, &shared, 1), || work(rt, &shared, 2));
    let flips = shared.into_inner().stat().flips;
    Ok((one?.wrapping_add(two?), flips))
}

/// A thread pushes ten numbers and pops ten, over and over. Answers the sum of what it popped, each
/// read under a later lock: what an owner has in its own slots stays there.
fn work<R: Wait>(rt: &R, shared: &Mutex<PacedHeap>, owner: u32) -> Result<i64, Problem>
    ensures { IfErr result (λ problem. problem ≢ problems.Refused LogFull) }
{
    let mut sum = 0i64;
    for _ in 0..1000u32 {
        for n in 0..10i64 {
            push(&mut shared.lock(rt), owner, n)?;
        }
        for _ in 0..10u32 {
            pop(&mut shared.lock(rt), owner)?;
            sum = sum.wrapping_add(number(&mut shared.lock(rt), owner)?);
        }
    }
    Ok(sum)
}

/// A new cell stands in front of the list. All is done under one lock, so that no other thread sees
/// the list halfway. Where no room is left, `insist` collects at once.
fn push(heap: &mut PacedHeap, owner: u32, n: i64) -> Result<(), Refusal>
    ensures { IfErr result (λ refusal. refusal ≢ LogFull) }
{
    let obj = RootId { owner, slot: 0 };
    let alloc = Command::Alloc {
        dst: obj,
        fields: CELL_WORDS - 2,
    };
    let fill = Command::Store {
        obj,
        field: 0,
        operand: Operand::Int(n),
    };
    let link = Command::Store {
        obj,
        field: 1,
        operand: Operand::Root(LIST),
    };
    for command in [&alloc, &fill, &link] {
        heap.insist(owner, command)?;
    }
    what_changes_roots_alone_meets_no_limit();
    heap.copy(owner, LIST, obj)?;
    Ok(())
}

/// The owner's own slot takes the first cell of the list, under one lock too.
fn pop(heap: &mut PacedHeap, owner: u32) -> Result<(), Refusal>
    ensures { IfErr result (λ refusal. refusal ≢ LogFull) }
{
    what_changes_roots_alone_meets_no_limit();
    heap.copy(owner, RootId { owner, slot: 0 }, LIST)?;
    heap.load(owner, LIST, LIST, 1)?;
    Ok(())
}

/// The number in the owner's cell.
fn number(heap: &mut PacedHeap, owner: u32) -> Result<i64, Problem>
    ensures { IfErr result (λ problem. problem ≢ problems.Refused LogFull) }
{
    what_changes_roots_alone_meets_no_limit();
    let (cell, dst) = (RootId { owner, slot: 0 }, RootId { owner, slot: 1 });
    match heap.load(owner, dst, cell, 0)? {
        Reply::Int(n) => Ok(n),
        _ => Err(Problem::Answer),
    }
}
