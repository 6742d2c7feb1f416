//! An answer read from the parts of a line.

ghost use Rattle.std.specs.Prelude.{◌≡◌};
ghost use Rattle.rh_text.specs.Parts.{parts_left};
ghost use Rattle.rh_replay.specs.Reading.{bare_answer, sameness_of, refusal_named, answer_with, answer_of};

use rh_layout::{Refusal, Reply};
use rh_text::{is_text, one_part, read_integer, read_number, two_parts};

/// The answer of one part.
#[tactic(auto, unfolding(crate::specs::Reading::bare_answer))]
fn bare_answer(word: &[u8]) -> Option<Result<Reply, Refusal>>
    ensures { result ≡ bare_answer word.now }
{
    if is_text(word, b"done") {
        return Some(Ok(Reply::Done));
    }
    if is_text(word, b"nil") {
        return Some(Ok(Reply::Nil));
    }
    None
}

/// Whether two values are the same.
#[tactic(auto, unfolding(crate::specs::Reading::sameness_of))]
fn sameness_of(part: &[u8]) -> Option<Result<Reply, Refusal>>
    ensures { result ≡ sameness_of part.now }
{
    if is_text(part, b"yes") {
        return Some(Ok(Reply::Same(true)));
    }
    if is_text(part, b"no") {
        return Some(Ok(Reply::Same(false)));
    }
    None
}

/// The refusal of this name that isn't for a limit.
#[tactic(auto, unfolding(crate::specs::Reading::refusal_named))]
fn refusal_named(part: &[u8]) -> Option<Result<Reply, Refusal>>
    ensures { result ≡ refusal_named part.now }
{
    if is_text(part, b"NoRoot") {
        return Some(Err(Refusal::NoRoot));
    }
    if is_text(part, b"NotYours") {
        return Some(Err(Refusal::NotYours));
    }
    if is_text(part, b"NotObject") {
        return Some(Err(Refusal::NotObject));
    }
    if is_text(part, b"NoField") {
        return Some(Err(Refusal::NoField));
    }
    if is_text(part, b"RawField") {
        return Some(Err(Refusal::RawField));
    }
    if is_text(part, b"IntRange") {
        return Some(Err(Refusal::IntRange));
    }
    if is_text(part, b"FieldsRange") {
        return Some(Err(Refusal::FieldsRange));
    }
    None
}

/// The answer of two parts.
#[tactic(auto, unfolding(crate::specs::Reading::answer_with))]
fn answer_with(word: &[u8], part: &[u8]) -> Option<Result<Reply, Refusal>>
    ensures { result ≡ answer_with word.now part.now }
{
    if is_text(word, b"int") {
        return Some(Ok(Reply::Int(read_integer(part)?)));
    }
    if is_text(word, b"object") {
        return Some(Ok(Reply::Object(read_number(part)?)));
    }
    if is_text(word, b"raw") {
        return Some(Ok(Reply::Raw(read_number(part)?)));
    }
    if is_text(word, b"same") {
        return sameness_of(part);
    }
    if is_text(word, b"refused") {
        return refusal_named(part);
    }
    None
}

/// The answer that the parts say that are left of a line.
#[tactic(auto, unfolding(crate::specs::Reading::answer_of))]
pub fn answer_of(rest: Option<&[u8]>) -> Option<Result<Reply, Refusal>>
    ensures { result ≡ answer_of (parts_left rest.entry) }
{
    match one_part(rest) {
        Some(word) => bare_answer(word),
        None => {
            let (word, part) = two_parts(rest)?;
            answer_with(word, part)
        }
    }
}
