//! The benches of what threads share: `shared_benches NAME NUMBERS`. Without a name each of them
//! runs once, on little, and prints no times.
#![tactic(auto)]

mod alone;
mod calls;
mod commands;
mod cycles;
mod figures;
mod folds;
mod pieces;
mod players;
mod setup;

use std::env::{self, Args};
use std::process::ExitCode;
use std::rt::{Clock, Env};
use std::sync::Wait;
use std::thread::Threads;

/// Gives commands to a heap that collects by itself, and prints a line; nothing where it failed.
fn print_paced<R: Print + Clock + AllocGlobal>(rt: &R) -> Option<()> {
    let paced = alone::run_paced(rt, 100)?;
    println!(rt;
        "paced: {} calls, {} allocations",
        paced.calls, paced.allocations
    )
    .ok()
}

/// Makes calls on what lies under a lock, and prints a line; nothing where it failed.
fn print_kept<R: Print + Clock + AllocGlobal>(rt: &R) -> Option<()> {
    let kept = alone::run_kept(rt, 100)?;
    println!(rt;
        "kept: {} calls, {} allocations",
        kept.calls, kept.allocations
    )
    .ok()
}

/// Makes the calls of so many threads, and prints a line; nothing where it failed.
fn print_calls<R>(rt: &R, threads: u32) -> Option<()>
where
    R: Print + Clock + AllocGlobal + Threads + Wait + Sync,
{
    let made = calls::run(rt, threads, 100)?;
    println!(rt;
        "{threads} threads: {} calls, {} allocations",
        made.calls, made.allocations
    )
    .ok()
}

/// Makes folds and cycles with so many replicators, and prints a line; nothing where it failed.
fn print_replicators<R>(rt: &R, replicators: u32) -> Option<()>
where
    R: Print + Clock + AllocGlobal + Threads + Wait + Sync,
{
    let made = folds::run(rt, replicators, 100, 8, 4)?;
    let driven = cycles::run(rt, replicators, 64, 1)?;
    println!(rt;
        "{replicators} replicators: {} pieces, {} cycles",
        made.pieces, driven.cycles
    )
    .ok()
}

/// Each bench once, on little; nothing where one failed.
fn run_each<R>(rt: &R) -> Option<()>
where
    R: Print + Clock + AllocGlobal + Threads + Wait + Sync,
{
    print_paced(rt)?;
    print_kept(rt)?;
    for threads in [1, 2, 4] {
        print_calls(rt, threads)?;
    }
    for replicators in [0, 1, 2, 4] {
        print_replicators(rt, replicators)?;
    }
    Some(())
}

/// The bench of this name with these numbers; nothing where it failed, or has another name or other
/// numbers.
fn run_one<R>(rt: &R, name: &str, numbers: &[u32]) -> Option<()>
where
    R: Print + Clock + AllocGlobal + Threads + Wait + Sync,
{
    match (name, numbers) {
        ("paced", &[calls]) => alone::run_paced(rt, calls)?.print(rt),
        ("kept", &[calls]) => alone::run_kept(rt, calls)?.print(rt),
        ("calls", &[threads, calls]) => calls::run(rt, threads, calls)?.print(rt),
        ("cycles", &[replicators, most, cycles]) => {
            cycles::run(rt, replicators, most, cycles)?.print(rt)
        }
        ("folds", &[replicators, pieces, items, repeats]) => {
            folds::run(rt, replicators, pieces, items, repeats)?.print(rt)
        }
        _ => None,
    }
}

/// Adds the number that an argument is; nothing where it is none, or memory was refused.
fn add_number(text: &str, numbers: &mut Vec<u32>) -> Option<()> {
    let number = text.parse::<u32>().ok()?;
    numbers.push(number).ok()
}

/// Adds the numbers that the arguments are; nothing where one is none, or memory was refused.
fn add_numbers(args: Args, numbers: &mut Vec<u32>) -> Option<()> {
    for text in args {
        add_number(text.as_str(), numbers)?;
    }
    Some(())
}

/// The bench that the arguments name, or each; nothing where one failed.
fn run<R>(rt: &R) -> Option<()>
where
    R: Env + Print + Clock + AllocGlobal + Threads + Wait + Sync,
{
    let mut args = env::args(rt).ok()?;
    let Some(name) = args.nth(1) else {
        return run_each(rt);
    };
    let mut numbers = Vec::new(rt.alloc());
    add_numbers(args, &mut numbers)?;
    run_one(rt, name.as_str(), numbers.as_slice())
}

fn main(rt: HostRuntime) -> ExitCode {
    match run(&rt) {
        Some(()) => ExitCode::SUCCESS,
        None => {
            let _ = eprintln!(rt; "shared_benches: no such bench or numbers, or it failed");
            ExitCode::FAILURE
        }
    }
}
