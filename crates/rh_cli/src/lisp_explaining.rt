//! `rheap lisp --explain`: shows where a program of the small Scheme stopped, or can't be read.

use rh_explained::{Told, form_spot, nth_line, write_spot};
use rh_lisp_run::{Source, Stop};
use std::io::Write;

/// Writes the form of a text at which it stopped: its line with its number, carets under the form,
/// and a sentence that says what may stand there. The sentence stands alone where the form is one of
/// an earlier entry. Nothing is written where that is the language's own.
pub(crate) fn show_stop<E: Write>(text: &[u8], stop: Stop, err: &mut E) {
    if let Source::Prelude = stop.source {
        return;
    }
    let place = stop.position;
    if is_forgotten(text, place.line) {
        // What can't be told is left out, as a fault's line is.
        let _ = writeln!(err, "{}", stop.sentence());
        return;
    }
    let told = Told::Program(stop.sentence());
    let spot = form_spot(text, place.line, place.column, told);
    let _ = write_spot(err, &spot);
}

/// Whether a line has a line end alone. No form begins there, so that it stands for a line of an
/// entry before, of which a session keeps no more.
fn is_forgotten(text: &[u8], number: u32) -> bool {
    let (line, is_ended) = nth_line(text, number);
    is_ended && line.is_empty()
}

/// The same of a text that was kept.
pub(crate) fn show_kept<E: Write>(text: Option<&[u8]>, stop: Stop, err: &mut E) {
    if let Some(text) = text {
        show_stop(text, stop, err);
    }
}
