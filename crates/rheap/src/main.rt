//! The program `rheap`.
#![tactic(auto)]

use rh_cli::{Terminals, play};
use std::io::IsTerminal;
use std::process::ExitCode;

fn main(rt: HostRuntime) -> ExitCode {
    let mut err = rt.stderr();
    let terminals = Terminals {
        input: rt.stdin().is_terminal(),
        error: err.is_terminal(),
    };
    ExitCode::from(play(&rt, &rt, &mut err, terminals))
}
