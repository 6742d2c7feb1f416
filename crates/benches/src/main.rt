//! The benches of the layers and of the heap that collects by itself, which the scripts in `bench/`
//! time: `benches NAME ARGUMENTS`. Without a name each of them but `stream` runs once, on little.
#![tactic(auto)]

mod binary_trees;
mod chain;
mod dump;
mod flip;
mod fold;
mod gc_bench;
mod growing;
mod keeps_up;
mod latency;
mod mutators;
mod place;
mod rattle_calls;
mod resizes;
mod setting;
mod spaces;
mod stream;
mod tree;

use gc_bench::Depths;
use keeps_up::Asked;
use setting::Setting;
use std::env;
use std::process::ExitCode;
use std::rt::{Clock, Env};
use std::time::CpuClock;

/// Each bench of trees once, on little; nothing where one failed.
fn run_each_of_trees(rt: &(impl Print + AllocGlobal)) -> Option<()> {
    binary_trees::run(rt, 8, 8192)?;
    binary_trees::run_growing(rt, 10, 1_000_000)?;
    gc_bench::run(rt, Depths::LITTLE, 32_768)?;
    gc_bench::run_growing(rt, Depths::LITTLE, 1_000_000)
}

/// Each bench once, on little; nothing where one failed.
fn run_each(rt: &(impl Print + Input + Clock + CpuClock + AllocGlobal)) -> Option<()> {
    fold::run(rt, "fold", 6400)?;
    dump::run(rt, Some("copy"))?;
    place::run(rt, 64)?;
    flip::run(rt, 1000, 100, false)?;
    run_each_of_trees(rt)?;
    growing::run(rt, 40_000, 20_000, false)?;
    resizes::run(rt, 131_072, false)?;
    rattle_calls::run(rt, "make_pair", 100)?;
    let names = [
        "list",
        "queue",
        "big-objects",
        "stores",
        "raw-buffers",
        "buffers",
    ];
    for name in names {
        keeps_up::run(rt, name, Asked::LITTLE)?;
    }
    Some(())
}

/// The number that an argument is; nothing where it is none.
fn number(text: Option<&str>) -> Option<u32> {
    text?.parse::<u32>().ok()
}

/// The setting of a stream that the arguments name; nothing where one is no number.
fn setting_of(
    headroom: Option<&str>,
    passes: Option<&str>,
    ratio: Option<&str>,
    mark: Option<&str>,
) -> Option<Setting> {
    Some(Setting {
        headroom: number(headroom)?,
        passes: number(passes)?,
        ratio: number(ratio)?,
        mark: number(mark)?,
    })
}

/// What is asked of a program by the arguments; nothing where one is no number.
fn asked_of(cells: Option<&str>, ratio: Option<&str>, commands: Option<&str>) -> Option<Asked> {
    Some(Asked {
        cells: number(cells)?,
        ratio: number(ratio)?,
        commands: number(commands)?.into(),
    })
}

/// The bench of this name with these arguments; nothing where it failed, or has another name or
/// other arguments.
fn run_one(
    rt: &(impl Print + Input + Clock + CpuClock + AllocGlobal),
    name: &str,
    first: Option<&str>,
    second: Option<&str>,
    third: Option<&str>,
    fourth: Option<&str>,
) -> Option<()> {
    match name {
        "fold" => fold::run(rt, first?, number(second)?.into()),
        "dump" => dump::run(rt, first),
        "place" => place::run(rt, number(first)?),
        "flip" => flip::run(rt, number(first)?, number(second)?, third.is_some()),
        "binary-trees" => binary_trees::run(rt, number(first)?, number(second)?),
        "growing-binary-trees" => binary_trees::run_growing(rt, number(first)?, number(second)?),
        "gc-bench" => gc_bench::run(rt, Depths::WHOLE, number(first)?),
        "growing-gc-bench" => gc_bench::run_growing(rt, Depths::WHOLE, number(first)?),
        "stream" => stream::run(rt, setting_of(first, second, third, fourth)?),
        "keeps-up" => keeps_up::run(rt, first?, asked_of(second, third, fourth)?),
        "growing" => growing::run(rt, number(first)?, number(second)?, true),
        "resizes" => resizes::run(rt, number(first)?, true),
        "calls" => rattle_calls::run(rt, first?, number(second)?),
        _ => None,
    }
}

/// The bench that the arguments name, or each; nothing where one failed.
fn run(rt: &(impl Env + Print + Input + Clock + CpuClock + AllocGlobal)) -> Option<()> {
    let mut args = env::args(rt).ok()?;
    let Some(name) = args.nth(1) else {
        return run_each(rt);
    };
    let (first, second) = (args.next(), args.next());
    let (third, fourth) = (args.next(), args.next());
    run_one(
        rt,
        name.as_str(),
        first.as_deref(),
        second.as_deref(),
        third.as_deref(),
        fourth.as_deref(),
    )
}

fn main(rt: HostRuntime) -> ExitCode {
    match run(&rt) {
        Some(()) => ExitCode::SUCCESS,
        None => {
            let _ = eprintln!(rt; "benches: no such bench or arguments, or it failed");
            ExitCode::FAILURE
        }
    }
}
