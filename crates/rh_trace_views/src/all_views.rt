//! The listeners of all views as one.

ghost use Rattle.std.specs.Prelude.{◌≡◌, None};
ghost use Rattle.rh_trace_views.specs.Listening.{history_in};

use crate::cycle_lines::CycleLines;
use crate::noted::Noted;
use crate::told::Told;
use rh_choices::Telling;
use rh_trace::{Both, Pair};
use std::alloc::Allocator;

/// Tells each line, notes the commands that no limit refused, and writes a line for each cycle, which
/// `R` reads. At the end the history is written, and then what the run adds up to.
pub type Views<R, A> = Both<Told<A>, Both<Noted<A>, CycleLines<R, A>>>;

/// Where lines are told, where the history goes, and where the lines of cycles do. A text that nobody
/// asks for goes to `std::io::sink()`.
pub type Writers<W, H, C> = Pair<W, Pair<H, C>>;

/// Lines are told so, once they begin. What is told of a line is put together in memory of `alloc`, a
/// dump too, and so is the history.
pub fn views<R, A: Allocator + Copy>(alloc: A, telling: Telling) -> Views<R, A>
    ensures telling { result.first.telling ≡ telling }
    ensures no_history { history_in result.second.first.recorder ≡ None }
    ensures no_reader { result.second.second.reader ≡ None }
{
    Both {
        first: Told::new(alloc, telling),
        second: Both {
            first: Noted::new(alloc),
            second: CycleLines::new(alloc),
        },
    }
}

/// What is told goes to the first of these, the history to the second, and the lines of cycles to the
/// third.
pub fn writers<W, H, C>(out: W, history: H, cycles: C) -> Writers<W, H, C>
    ensures out { result.first ≡ out }
    ensures history { result.second.first ≡ history }
    ensures cycles { result.second.second ≡ cycles }
{
    Pair {
        first: out,
        second: Pair {
            first: history,
            second: cycles,
        },
    }
}
