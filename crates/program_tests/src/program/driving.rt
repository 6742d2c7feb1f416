//! The program's commands, over a text and two writers.

use crate::expectations::{expect_bytes, expect_equal, expect_prefix};
use rh_cli::{Ask, PLAIN, Subcommand, drive};
use samples::texts::without_last_line;
use std::alloc::Allocator;
use std::io::{Read, Write};
use std::process::Abort;
use std::sync::Wait;
use std::thread::Threads;

pub const RUN: Ask<'static> = Ask {
    subcommand: Subcommand::Run,
    file: "-",
    explain: false,
    out: None,
    views: PLAIN,
};

pub const PACED: Ask<'static> = Ask {
    subcommand: Subcommand::RunPaced { mark: None },
    file: "-",
    explain: false,
    out: None,
    views: PLAIN,
};

pub const THREADS: Ask<'static> = Ask {
    subcommand: Subcommand::Threads {
        replicators: 2,
        idle: 0,
    },
    file: "-",
    explain: false,
    out: None,
    views: PLAIN,
};

pub const REPLAY: Ask<'static> = Ask {
    subcommand: Subcommand::Replay,
    file: "-",
    explain: false,
    out: None,
    views: PLAIN,
};

pub const DUMP: Ask<'static> = Ask {
    subcommand: Subcommand::Dump,
    file: "-",
    explain: false,
    out: None,
    views: PLAIN,
};

pub const DOT: Ask<'static> = Ask {
    subcommand: Subcommand::Dot,
    file: "-",
    explain: false,
    out: None,
    views: PLAIN,
};

pub const DRAW: Ask<'static> = Ask {
    subcommand: Subcommand::Draw { line: None },
    file: "-",
    explain: false,
    out: None,
    views: PLAIN,
};

/// Does what is asked, and answers the status. No test needs what `drive` promises beside it.
pub fn status_of<R, A, T, O, E>(
    rt: &R,
    memory: A,
    ask: &Ask<'_>,
    reader: &mut T,
    out: &mut O,
    err: &mut E,
) -> u8
where
    R: Threads + Wait + Sync,
    A: Allocator + Copy + Send,
    T: Read,
    O: Write,
    E: Write,
{
    drive(rt, memory, ask, reader, out, err)
}

/// Does with a text what is asked. Answers the status, and what is written to both writers.
pub fn driven<R, A>(rt: &R, memory: A, ask: &Ask<'_>, text: &[u8]) -> (u8, Vec<u8>, Vec<u8>)
where
    R: AllocGlobal + Threads + Wait + Sync,
    A: Allocator + Copy + Send,
{
    let mut reader = text;
    let mut out = Vec::new(rt.alloc());
    let mut err = Vec::new(rt.alloc());
    let status = status_of(rt, memory, ask, &mut reader, &mut out, &mut err);
    (status, out, err)
}

/// Expects this status, these answers and what is told.
pub fn expect_ended(
    rt: &impl Abort,
    (ended, out, err): (u8, &[u8], &[u8]),
    status: u8,
    answers: &[u8],
    told: &[u8],
) {
    expect_equal(rt, ended, status);
    expect_bytes(rt, out, answers);
    expect_bytes(rt, err, told);
}

/// Does with the text what is asked, and compares the status and what is written to both writers.
pub fn drives_to<R: AllocGlobal + Abort + Threads + Wait + Sync>(
    rt: &R,
    ask: &Ask<'_>,
    text: &[u8],
    status: u8,
    answers: &[u8],
    told: &[u8],
) {
    let (ended, out, err) = driven(rt, rt.alloc(), ask, text);
    expect_ended(rt, (ended, &out, &err), status, answers, told);
}

/// Does what is asked, and expects this status, these answers and what is told, or that memory was
/// refused. Answers whether it was.
pub fn is_refused<R: AllocGlobal + Abort + Threads + Wait + Sync, A: Allocator + Copy + Send>(
    rt: &R,
    memory: A,
    &(ask, text, status, answers): &(Ask<'static>, &[u8], u8, &[u8]),
    told: &[u8],
) -> bool {
    let (ended, out, err) = driven(rt, memory, &ask, text);
    if ended == 3 {
        expect_refused(rt, ask.subcommand, answers, (&out, &err));
    } else {
        expect_ended(rt, (ended, &out, &err), status, answers, told);
    }
    ended == 3
}

/// Expects standard error to say that memory was refused, and nothing on standard output, but of a
/// run without a pace a prefix of the answers before their total line.
fn expect_refused(
    rt: &impl Abort,
    subcommand: Subcommand,
    answers: &[u8],
    (out, err): (&[u8], &[u8]),
) {
    expect_bytes(rt, err, b"rheap: out of memory\n");
    let written: &[u8] = match subcommand {
        Subcommand::Run => without_last_line(answers),
        _ => b"",
    };
    expect_prefix(rt, written, out);
}
