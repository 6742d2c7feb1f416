//! Reads one line of a trace, or names its first fault.

ghost use Rattle.std.specs.Prelude.{◌≡◌};
ghost use Rattle.rh_text.specs.Parts.{parts_left};
ghost use Rattle.rh_text.specs.Steps.{Shows, with_fault};
ghost use Rattle.rh_syntax.specs.Reading.{owned_request, request_of_parts, checked_parts, fault_at, request_or_kind, header_or_kind, request_or_fault, header_or_fault};

use crate::fault::{Kind, TraceFault};
use crate::line::Header;
use crate::lines::commands::command_or_fault;
use crate::lines::header::header_of_parts;
use crate::lines::keywords::keyword_request;
use crate::lines::watching::read_watch;
use crate::request::Request;
use rh_layout::limits::{MAX_LINE_BYTES, MAX_LINES};
use rh_text::{begins_with_digit, is_formed, is_text, next_part};

/// The line's parts, where the line of this number (from 1) is within the limits, ended and well
/// formed.
///
/// # Errors
///
/// The first of these that holds: `Long` where the number is above 1,048,576 or the line has more
/// than 256 bytes; `Cut` where it isn't ended; `Form` where it has a byte outside 32 to 126 or an
/// empty part.
#[tactic(auto, unfolding(crate::specs::Reading::checked_parts))]
pub fn checked_parts(number: u32, bytes: &[u8], ended: bool) -> Result<Option<&[u8]>, Kind>
    ensures { Shows (λ x. parts_left x) result
        (checked_parts number (record { bytes = bytes.now; ended = ended })) }
{
    if number > MAX_LINES {
        return Err(Kind::Long);
    }
    if bytes.len() > MAX_LINE_BYTES {
        return Err(Kind::Long);
    }
    if !ended {
        return Err(Kind::Cut);
    }
    if !is_formed(bytes) {
        return Err(Kind::Form);
    }
    Ok(Some(bytes))
}

/// The request of a line that begins with an owner, by the keyword after it.
#[tactic(auto, unfolding(crate::specs::Reading::owned_request))]
fn owned_request(owner: &[u8], rest: Option<&[u8]>) -> Result<Request, Kind>
    ensures { result ≡ owned_request owner.now (parts_left rest.entry) }
{
    let Some((keyword, after)) = next_part(rest) else {
        return Err(Kind::Form);
    };
    if is_text(keyword, b"watch") {
        return read_watch(owner, after);
    }
    let (owner, command) = command_or_fault(owner, rest)?;
    Ok(Request::Command { owner, command })
}

/// The request of a line after the first, from its parts.
#[tactic(auto, unfolding(crate::specs::Reading::request_of_parts))]
fn request_of_parts(rest: Option<&[u8]>) -> Result<Request, Kind>
    ensures { result ≡ request_of_parts (parts_left rest.entry) }
{
    let Some((first, rest)) = next_part(rest) else {
        return Err(Kind::Form);
    };
    if begins_with_digit(first) {
        return owned_request(first, rest);
    }
    keyword_request(first, rest)
}

/// The request of the line of this number, by its limits, its form and its parts.
#[tactic(auto, unfolding(crate::specs::Reading::request_or_kind))]
fn request_or_kind(number: u32, bytes: &[u8], ended: bool) -> Result<Request, Kind>
    ensures { result ≡ request_or_kind number (record { bytes = bytes.now; ended = ended }) }
{
    let rest = checked_parts(number, bytes, ended)?;
    request_of_parts(rest)
}

/// The first line, by its limits, its form and its parts.
#[tactic(auto, unfolding(crate::specs::Reading::header_or_kind))]
fn header_or_kind(bytes: &[u8], ended: bool) -> Result<Header, Kind>
    ensures { result ≡ header_or_kind (record { bytes = bytes.now; ended = ended }) }
{
    let rest = checked_parts(1, bytes, ended)?;
    header_of_parts(rest)
}

/// A fault is named with its line.
fn with_line<T>(number: u32, read: Result<T, Kind>) -> Result<T, TraceFault>
    ensures { result ≡ with_fault (fault_at number) read }
{
    match read {
        Ok(x) => Ok(x),
        Err(kind) => Err(TraceFault { line: number, kind }),
    }
}

/// The request of the line of this number, its fault named with the line.
pub fn request_or_fault(number: u32, bytes: &[u8], ended: bool) -> Result<Request, TraceFault>
    ensures { result ≡ request_or_fault number (record { bytes = bytes.now; ended = ended }) }
{
    with_line(number, request_or_kind(number, bytes, ended))
}

/// The first line, its fault named with the line.
pub fn header_or_fault(bytes: &[u8], ended: bool) -> Result<Header, TraceFault>
    ensures { result ≡ header_or_fault (record { bytes = bytes.now; ended = ended }) }
{
    with_line(1, header_or_kind(bytes, ended))
}
