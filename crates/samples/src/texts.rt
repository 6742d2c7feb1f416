//! Texts of traces, histories and dumps, with their answers and reports, that several crates of tests
//! play; and texts that are made of others. What stands in `examples/`, where `examples/check` plays
//! it, is repeated only where a test counts its writes, lets them or its memory fail, or plays its
//! commands on a plain heap.

use std::alloc::AllocError;

/// The trace of an object without fields, and its answers.
pub const WITHOUT_FIELDS: &[u8] = b"heap 16 8 4 2 2\n1 alloc 1.0 0\n1 load 1.1 1.0 0\n";

pub const WITHOUT_FIELDS_ANSWERS: &[u8] =
    b"object 0\nrefused NoField\ntotal commands 2 refused 1 flips 0 rootwords 0\n";

/// The first line of a text of cycles.
pub const COLUMNS: &[u8] =
    b"number\tend\tepoch\tbegan\tended\tused\tlive\tfreed\tobjects\tgranted\t\
    idle\tspent\tmost\tlogged\tjoined\trepeated\tstale\tpassed\twords\n";

/// A trace of commands alone, whose paced heap is collected twice. Without a mark a cycle begins
/// where fewer than 12 words are free, as the 5th object leaves 9; the words of the next pay for
/// its flip, which keeps that one alone.
pub const TWO_FLIPS: &[u8] = b"heap 29 8 8 2 2\n1 alloc 1.0 2\n1 alloc 1.0 2\n1 alloc 1.0 2\n\
    1 alloc 1.0 2\n1 alloc 1.0 2\n1 alloc 1.0 2\n1 alloc 1.0 2\n1 alloc 1.0 2\n1 alloc 1.0 2\n\
    1 alloc 1.0 2\n1 alloc 1.0 2\n";

/// A whole cycle, whose log entry is never dealt.
pub const WHOLE_CYCLE: &[u8] =
    b"heap 16 8 4 2 2\n1 alloc 1.0 2\nbegin\n1 alloc 1.1 1\n1 store 1.0 0 1.1\nshade 1.0\n\
        shade 1.1\ndeal copies 9 t\ngive t\nflip\nstat\n";

pub const WHOLE_CYCLE_ANSWERS: &[u8] =
    b"object 2\ncycle 1\nobject 1\ndone\nplaced\nplaced\ndealt 3 passed 0\n\
        given joined 3 repeated 0 stale 0 placed 0\nflipped roots 2 live 7\n\
        stat used 7 free 9 cycle off epoch 2 number 1 log 0 granted 24 spent 15 placed 0 missing 0 idle 0\n\
        total commands 3 refused 0 flips 1 rootwords 2\n";

/// Trays joined in both orders and given again.
pub const JOINED: &[u8] =
    b"heap 64 8 8 2 2\n1 alloc 1.0 2\nbegin\n1 alloc 1.1 3\n1 drop 1.1\nshade 1.0\n\
        deal copies 1 a\n1 store 1.0 0 9\ndeal copies 1 b\ndeal entries 9 b\njoin c a\njoin c b\n\
        join d b\njoin d a\ntrays\ngive c\ngive d\ngive d\nflip\n";

pub const JOINED_ANSWERS: &[u8] =
    b"object 2\ncycle 1\nobject 3\ndone\nplaced\ndealt 1 passed 0\ndone\ndealt 1 passed 0\n\
        dealt 1 passed 0\njoined 1\njoined 2\njoined 2\njoined 2\ntray a epoch 1 entries 1\n\
        tray b epoch 1 entries 2\ntray c epoch 1 entries 2\ntray d epoch 1 entries 2\n\
        given joined 2 repeated 0 stale 0 placed 0\ngiven joined 0 repeated 2 stale 0 placed 0\n\
        given joined 0 repeated 2 stale 0 placed 0\nflipped roots 1 live 4\n\
        total commands 4 refused 0 flips 1 rootwords 1\n";

/// A history, and the report on it.
pub const RIGHT: &[u8] =
    b"history 2 2\n1 alloc 1.0 1 = object 1\n1 store 1.0 0 5 = done\n1 load 1.1 1.0 0 = int 5\n\
        end 3\n";

pub const RIGHT_REPORT: &[u8] = b"owner 1 calls 3\nlegal 3\n";

/// A history whose second answer is wrong, and the report on it.
pub const WRONG: &[u8] = b"history 2 2\n1 drop 1.0 = done\n1 drop 2.0 = done\nend 2\n";

pub const WRONG_REPORT: &[u8] = b"owner 1 calls 2\nwrong 2 expected refused NoRoot\n";

/// The dump of an object that refers to itself and to a raw one.
pub const BESIDE_RAW: &[u8] =
    b"rheap 2\nroots 2\n0.3 @0\n1.0 -7\nobjects 2\n@0 4 @1 nil @0 5\n@1 raw 2 5 nil\nend\n";

/// A text without its last line.
pub fn without_last_line(text: &[u8]) -> &[u8] {
    let Some((_, before)) = text.split_last() else {
        return text;
    };
    match before.iter().rposition(|byte| *byte == b'\n') {
        Some(at) => before.split_at(at.saturating_add(1).min(before.len())).0,
        None => b"",
    }
}

/// A text that begins with `first` and goes on with so many times `next`.
pub fn repeated(
    rt: &impl AllocGlobal,
    first: &[u8],
    next: &[u8],
    times: u32,
) -> Result<Vec<u8>, AllocError> {
    let mut text = Vec::new(rt.alloc());
    text.extend_from_slice(first)?;
    for _ in 0..times {
        text.extend_from_slice(next)?;
    }
    Ok(text)
}

/// Adds so many lines to a text: of each number from 1 on, between two parts.
pub fn add_numbered(
    rt: &impl AllocGlobal,
    text: &mut Vec<u8>,
    lines: u32,
    (before, after): (&str, &str),
) -> Result<(), AllocError> {
    for n in 1..=lines {
        let line = format!(in rt.alloc(); "{before}{n}{after}")?;
        text.extend_from_slice(line.as_bytes())?;
    }
    Ok(())
}
