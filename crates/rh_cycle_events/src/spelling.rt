//! The texts of events, which each begin after the one before.

ghost use Rattle.std.specs.Prelude.{◌≡◌};
ghost use Rattle.rh_cycle_events.specs.Events.{told_by};
ghost use Rattle.rh_cycle_events.specs.Texts.{end_text, kept_text, logged_text, slice_text, units_text, used_text};

use crate::line::{Column, CycleLine};
use rh_text::LineText;

/// What comes before all other events: the name of the process.
pub(crate) const OPENING: &[u8] =
    b"[\n{\"name\":\"process_name\",\"ph\":\"M\",\"pid\":1,\"args\":{\"name\":\"rheap\"}}";

/// What ends them.
pub(crate) const CLOSING: &[u8] = b"\n]\n";

/// The text becomes the first part of a cycle's slice: its number, when it began, and how long it
/// took.
pub(crate) fn put_slice(text: &mut LineText, line: &CycleLine, begins: u64, lasts: u64)
    ensures { text.new ≡ slice_text (told_by line.now) begins lasts }
{
    text.clear();
    text.put_part(b",\n{\"name\":\"cycle ", line.number(Column::Number));
    text.put_part(b"\",\"ph\":\"X\",\"pid\":1,\"tid\":1,\"ts\":", begins);
    text.put_part(b",\"dur\":", lasts);
}

/// The text becomes the second part: how it ended, and the lines or calls at which it began and
/// ended.
pub(crate) fn put_end(text: &mut LineText, line: &CycleLine)
    ensures { text.new ≡ end_text (told_by line.now) }
{
    text.clear();
    if line.is_abandoned() {
        text.put(b",\"args\":{\"end\":\"abandoned\"");
    } else {
        text.put(b",\"args\":{\"end\":\"flipped\"");
    }
    text.put_part(b",\"began\":", line.number(Column::Began));
    text.put_part(b",\"ended\":", line.number(Column::Ended));
}

/// The text becomes the last part: the objects that were placed, and the words that were freed.
pub(crate) fn put_outcome(text: &mut LineText, line: &CycleLine)
    ensures { text.new ≡ kept_text (told_by line.now) }
{
    text.clear();
    text.put_part(b",\"objects\":", line.number(Column::Objects));
    text.put_part(b",\"freed\":", line.number(Column::Freed));
    text.put(b"}}");
}

/// The text becomes the counter of used words.
pub(crate) fn put_used(text: &mut LineText, at: u64, words: u64)
    ensures { text.new ≡ used_text at words }
{
    text.clear();
    let name = b",\n{\"name\":\"used words\",\"ph\":\"C\",\"pid\":1,\"ts\":";
    text.put_part(name, at);
    text.put_part(b",\"args\":{\"words\":", words);
    text.put(b"}}");
}

/// The text becomes the counter of what the log of a cycle has.
pub(crate) fn put_logged(text: &mut LineText, line: &CycleLine, at: u64)
    ensures { text.new ≡ logged_text (told_by line.now) at }
{
    text.clear();
    text.put_part(b",\n{\"name\":\"log\",\"ph\":\"C\",\"pid\":1,\"ts\":", at);
    text.put_part(b",\"args\":{\"stores\":", line.number(Column::Logged));
    text.put(b"}}");
}

/// The text becomes the counters of units: those that words granted, those of idle words, and those
/// that were spent.
pub(crate) fn put_units(text: &mut LineText, line: &CycleLine, at: u64)
    ensures { text.new ≡ units_text (told_by line.now) at }
{
    text.clear();
    text.put_part(b",\n{\"name\":\"units\",\"ph\":\"C\",\"pid\":1,\"ts\":", at);
    text.put_part(b",\"args\":{\"granted\":", line.number(Column::Granted));
    text.put_part(b",\"idle\":", line.number(Column::Idle));
    text.put_part(b",\"spent\":", line.number(Column::Spent));
    text.put(b"}}");
}
