//! A text handed over in the caller's buffer, or a status alone.

ghost use Rattle.rheap_c_traces.specs.Told.{AnswersText};

use crate::status::{DONE, NO_ROOM};

/// Puts the text at the front of the buffer, where there is room for all of it, and counts its
/// bytes.
pub fn deliver(text: &[u8], answers: &mut [u8], length: &mut usize) -> u8
    ensures { AnswersText text.now result answers.old answers.new length.new }
{
    let count = text.len();
    *length = count;
    if answers.len() < count {
        return NO_ROOM;
    }
    answers[..count].copy_from_slice(text);
    DONE
}
