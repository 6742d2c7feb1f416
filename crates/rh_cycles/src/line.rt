//! The line of a cycle.

ghost use Rattle.std.specs.Prelude.{◌≡◌, ◌+◌, ◌≤◌, ◌++◌, ◌∷◌, [], ℕ, length, take, OnOk, OnErr};
ghost use Rattle.rh_cycles.specs.Line.{column, cycle_line, end_text, ends_text, entries_text, words_text, work_text};

use crate::cycle::{Cycle, CycleEnd, EntryCounts};
use rh_layout::OutOfMemory;
use rh_text::LineText;
use std::alloc::Allocator;

/// The names of the columns of a cycle's line, with a tab between each two, and a line end.
pub const HEADER: &[u8] =
    b"number\tend\tepoch\tbegan\tended\tused\tlive\tfreed\tobjects\tgranted\tidle\tspent\tmost\tlogged\tjoined\trepeated\tstale\tpassed\twords\n";

/// Puts the line of a cycle at the end of a text: its numbers in the order of `HEADER`, with a tab
/// between each two, and a line end. A number that isn't known is `-`.
///
/// # Errors
///
/// `OutOfMemory` where memory for the line was refused. The text has a first part of the line then,
/// or none of it.
pub fn put_cycle<A: Allocator + Copy>(
    text: &mut Vec<u8, A>,
    cycle: &Cycle,
) -> Result<(), OutOfMemory>
    ensures line { OnOk result (text.new.items ≡ text.old.items ++ cycle_line cycle.now) }
    ensures part { OnErr result ((n : ℕ)
        × (text.new.items ≡ text.old.items ++ take n (cycle_line cycle.now))) }
{
    let mut part = LineText::new();
    put_ends(&mut part, cycle);
    text.extend_from_slice(part.as_bytes())?;
    part.clear();
    put_words(&mut part, cycle);
    text.extend_from_slice(part.as_bytes())?;
    part.clear();
    put_work(&mut part, cycle);
    text.extend_from_slice(part.as_bytes())?;
    part.clear();
    put_entries(&mut part, cycle.entries);
    put_column(&mut part, cycle.words);
    part.put(b"\n");
    text.extend_from_slice(part.as_bytes())?;
    Ok(())
}

/// Puts a tab and a number at the end.
fn put_column(text: &mut LineText, number: u64)
    requires { length text.old ≤ 235 }
    ensures value { text.new ≡ text.old ++ column number }
    ensures len { length text.new ≤ length text.old + 21 }
{
    text.put_part(b"\t", number);
}

/// Puts how a cycle ended at the end.
fn put_end(text: &mut LineText, end: CycleEnd)
    requires { length text.old ≤ 235 }
    ensures value { text.new ≡ text.old ++ 9 ∷ end_text end }
    ensures len { length text.new ≤ length text.old + 10 }
{
    match end {
        CycleEnd::Flipped => text.put(b"\tflipped"),
        CycleEnd::Abandoned => text.put(b"\tabandoned"),
    }
}

/// Puts which cycle it was, how it ended, and when.
fn put_ends(text: &mut LineText, cycle: &Cycle)
    requires { text.old ≡ [] }
    ensures { text.new ≡ ends_text cycle.now }
{
    text.put_integer(cycle.number);
    put_end(text, cycle.end);
    put_column(text, cycle.epoch);
    put_column(text, cycle.began);
    put_column(text, cycle.ended);
}

/// Puts the words, and the objects that were placed.
fn put_words(text: &mut LineText, cycle: &Cycle)
    requires { text.old ≡ [] }
    ensures { text.new ≡ words_text cycle.now }
{
    put_column(text, cycle.used);
    put_column(text, cycle.live);
    put_column(text, cycle.freed);
    put_column(text, cycle.objects);
}

/// Puts the units, and what was logged.
fn put_work(text: &mut LineText, cycle: &Cycle)
    requires { text.old ≡ [] }
    ensures { text.new ≡ work_text cycle.now }
{
    put_column(text, cycle.granted);
    put_column(text, cycle.idle);
    put_column(text, cycle.spent);
    put_column(text, cycle.most);
    put_column(text, cycle.logged);
}

/// Puts the entries of deals and gives, by class.
fn put_entries(text: &mut LineText, entries: Option<EntryCounts>)
    requires { text.old ≡ [] }
    ensures value { text.new ≡ entries_text entries }
    ensures len { length text.new ≤ 84 }
{
    match entries {
        Some(entries) => {
            put_column(text, entries.joined);
            put_column(text, entries.repeated);
            put_column(text, entries.stale);
            put_column(text, entries.passed);
        }
        None => text.put(b"\t-\t-\t-\t-"),
    }
}
