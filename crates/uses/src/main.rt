//! Programs as a runtime's author writes them, over the heap that collects by itself. Each is
//! proved, and run.
#![tactic(auto)]

mod cycles;
mod files;
mod full;
mod growing_list;
mod list;
mod owners;
mod problem;
mod queue;
mod recorded;
mod renewal;
mod rows;
mod stack;
mod texts;
mod threads;

use problem::Problem;
use std::io;
use std::process::ExitCode;
use std::sync::Wait;
use std::thread::Threads;

/// Each program, and what it came to.
fn run(rt: &(impl Print + AllocGlobal + Threads + Wait + Sync)) -> Result<(), Problem> {
    run_owned(rt)?;
    run_in_fixed_room(rt)?;
    run_growing(rt)?;
    run_written(rt)
}

/// The programs over a paced heap by who owns its roots: one owner, two, and two threads.
fn run_owned(rt: &(impl Print + AllocGlobal + Threads + Wait + Sync)) -> Result<(), Problem> {
    let alloc = rt.alloc();
    let (sum, flips) = list::run(alloc)?;
    println!(rt; "list sum {sum} flips {flips}")?;
    let shared = owners::run(alloc)?;
    println!(rt; "owners shared {shared}")?;
    let (sum, flips) = threads::run(rt)?;
    println!(rt; "threads sum {sum} flips over 300 {}", flips > 300)?;
    Ok(())
}

/// The programs over a paced heap of fixed sizes: one fills it, and three stay within it.
fn run_in_fixed_room(rt: &(impl Print + AllocGlobal)) -> Result<(), Problem> {
    let alloc = rt.alloc();
    let live = full::run(alloc)?;
    println!(rt; "full live {live}")?;
    let cycles = queue::run(alloc, 10_000)?;
    println!(rt; "queue cycles {cycles}")?;
    let cycles = renewal::run(alloc, 10_000)?;
    println!(rt; "renewal cycles over 400 {}", cycles > 400)?;
    let read = rows::run(alloc)?;
    println!(rt; "row read {read}")?;
    Ok(())
}

/// The programs over a heap that grows.
fn run_growing(rt: &(impl Print + AllocGlobal)) -> Result<(), Problem> {
    let alloc = rt.alloc();
    let short = growing_list::run(alloc)?;
    println!(rt; "growing list short {short:?}")?;
    let (pushed, short) = stack::run(alloc)?;
    println!(rt; "stack numbers {pushed} short {short:?}")?;
    let closed = files::run(alloc)?;
    println!(rt; "files closed {closed}")?;
    let (freed, bytes) = texts::run(alloc)?;
    println!(rt; "texts freed {freed} bytes of the rest {bytes}")?;
    Ok(())
}

/// The programs that write what came of a heap.
fn run_written(rt: &(impl Print + AllocGlobal)) -> Result<(), Problem> {
    let alloc = rt.alloc();
    let (calls, objects) = recorded::run(alloc, &mut io::writer(rt))?;
    println!(rt; "recorded calls {calls} objects {objects}")?;
    cycles::run(alloc, &mut io::writer(rt))
}

fn main(rt: HostRuntime) -> ExitCode {
    match run(&rt) {
        Ok(()) => ExitCode::SUCCESS,
        Err(problem) => {
            let _ = eprintln!(rt; "{problem}");
            ExitCode::FAILURE
        }
    }
}
