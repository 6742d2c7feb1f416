//! The keywords that only a session has: `cycles`, `draw` and `help`.

ghost use Rattle.std.specs.Prelude.{◌≡◌, ◌<◌, length};
ghost use Rattle.rh_shell.specs.Session.{own_of};

use rh_layout::limits::MAX_LINE_BYTES;
use rh_text::is_text;

/// How many bytes `draw` and the space after it have.
pub(crate) const DRAW_BYTES: usize = 5;

/// What a line asks that isn't one of a trace.
#[derive(Clone, Copy, Debug, PartialEq, Eq)]
pub(crate) enum Own {
    /// `help`: the language in short.
    Help,
    /// `cycles`: the cycles that ended.
    Cycles,
    /// `draw FILE`: a picture of the heap.
    Draw,
    /// Nothing.
    Nothing,
}

/// What a line, given without its line end, asks beside those of a trace.
#[tactic(auto, unfolding(crate::specs::Session::own_of))]
pub(crate) fn own_of(line: &[u8], ended: bool) -> Own
    ensures value { result ≡ own_of (record { bytes = line.now; ended = ended }) }
    ensures name { result ≡ Own.Draw → 5 < length line.now }
{
    if line.len() > MAX_LINE_BYTES {
        return Own::Nothing;
    }
    if !ended {
        return Own::Nothing;
    }
    if is_text(line, b"help") {
        return Own::Help;
    }
    if is_text(line, b"cycles") {
        return Own::Cycles;
    }
    if line.len() <= DRAW_BYTES {
        return Own::Nothing;
    }
    if is_text(&line[..DRAW_BYTES], b"draw ") {
        return Own::Draw;
    }
    Own::Nothing
}
