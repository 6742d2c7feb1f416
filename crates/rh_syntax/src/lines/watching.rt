//! The lines of watches, read and spelled.

ghost use Rattle.std.specs.Prelude.{◌≡◌, ◌≤◌, length};
ghost use Rattle.rh_text.specs.Parts.{parts_left};
ghost use Rattle.rh_syntax.specs.Reading.{read_tickets, read_watch, read_unwatch, watching_request};
ghost use Rattle.rh_syntax.specs.Spelling.{request_text};
ghost use Rattle.rh_syntax.specs.declared.request.Request.TheVariants as requests;

use crate::fault::Kind;
use crate::lines::keywords::{alone, listing_request};
use crate::request::Request;
use crate::values::{number_or_fault, root_or_fault};
use rh_layout::RootId;
use rh_text::{LineText, is_text, one_part};

/// `tickets N`, from what stands after the keyword.
#[tactic(auto, unfolding(crate::specs::Reading::read_tickets))]
fn read_tickets(rest: Option<&[u8]>) -> Result<Request, Kind>
    ensures { result ≡ read_tickets (parts_left rest.entry) }
{
    let Some(tickets) = one_part(rest) else {
        return Err(Kind::Form);
    };
    let tickets = number_or_fault(tickets)?;
    Ok(Request::Tickets { tickets })
}

/// `OWNER watch ROOT`, from the owner and what stands after the keyword.
#[tactic(auto, unfolding(crate::specs::Reading::read_watch))]
pub fn read_watch(owner: &[u8], rest: Option<&[u8]>) -> Result<Request, Kind>
    ensures { result ≡ read_watch owner.now (parts_left rest.entry) }
{
    let Some(root) = one_part(rest) else {
        return Err(Kind::Form);
    };
    let owner = number_or_fault(owner)?;
    let root = root_or_fault(root)?;
    Ok(Request::Watch { owner, root })
}

/// The text becomes that of a `watch` line.
pub fn put_watch(text: &mut LineText, owner: u32, root: RootId)
    ensures value { text.new ≡ request_text (requests.Watch owner root) }
    ensures len { length text.new ≤ 100 }
{
    text.clear();
    text.put_integer(owner);
    text.put(b" watch ");
    text.put_root(root);
}

/// `unwatch T`, from what stands after the keyword.
#[tactic(auto, unfolding(crate::specs::Reading::read_unwatch))]
fn read_unwatch(rest: Option<&[u8]>) -> Result<Request, Kind>
    ensures { result ≡ read_unwatch (parts_left rest.entry) }
{
    let Some(ticket) = one_part(rest) else {
        return Err(Kind::Form);
    };
    let ticket = number_or_fault(ticket)?;
    Ok(Request::Unwatch { ticket })
}

/// The request of a line of watches that begins with its keyword, or else of one that asks what is
/// there, from what stands after the keyword.
#[tactic(auto, unfolding(crate::specs::Reading::watching_request))]
pub fn watching_request(keyword: &[u8], rest: Option<&[u8]>) -> Result<Request, Kind>
    ensures { result ≡ watching_request keyword.now (parts_left rest.entry) }
{
    if is_text(keyword, b"tickets") {
        return read_tickets(rest);
    }
    if is_text(keyword, b"unwatch") {
        return read_unwatch(rest);
    }
    if is_text(keyword, b"gone") {
        return alone(rest, Request::Gone);
    }
    listing_request(keyword, rest)
}
