//! Lines that begin with their keyword (`begin`, `deal`, `stat`, `resize` and so on), read and written.

ghost use Rattle.std.specs.Prelude.{◌≡◌, ◌+◌, ◌≤◌, [], ◌∷◌, ◌++◌, length, decimal};
ghost use Rattle.std.specs.List.{join_with_byte};
ghost use Rattle.rh_text.specs.Parts.{parts_left};
ghost use Rattle.rh_syntax.specs.Reading.{tray_or_fault, kind_or_fault, alone, read_shade, read_deal, read_give, read_join, read_idle, read_resize, listing_request, keyword_request};
ghost use Rattle.rh_syntax.specs.Spelling.{kind_text, request_text};
ghost use Rattle.rh_syntax.specs.declared.request.Request.TheVariants as requests;

use crate::fault::Kind;
use crate::lines::watching::watching_request;
use crate::request::Request;
use crate::tray_name::{TrayName, tray_name_of};
use crate::values::{number_or_fault, root_or_fault};
use rh_layout::{Kind as PieceKind, RootId};
use rh_text::{LineText, is_text, next_part, one_part, three_parts, two_parts};

/// The name of a tray that a part says.
fn tray_or_fault(part: &[u8]) -> Result<TrayName, Kind>
    ensures { result ≡ tray_or_fault part.now }
{
    tray_name_of(part).ok_or(Kind::Tray)
}

/// Puts a space and the name of a tray at the end.
fn put_next_tray(text: &mut LineText, tray: TrayName)
    requires { length text.old ≤ 239 }
    ensures value { text.new ≡ text.old ++ 32 ∷ tray }
    ensures len { length text.new ≤ length text.old + 17 }
{
    text.put(b" ");
    text.put(tray.as_bytes());
}

/// What is dealt, by a part: `copies` or `entries`.
#[tactic(auto, unfolding(crate::specs::Reading::kind_or_fault))]
fn kind_or_fault(part: &[u8]) -> Result<PieceKind, Kind>
    ensures { result ≡ kind_or_fault part.now }
{
    if is_text(part, b"copies") {
        return Ok(PieceKind::Copies);
    }
    if is_text(part, b"entries") {
        return Ok(PieceKind::Entries);
    }
    Err(Kind::Word)
}

/// Puts what is dealt at the end.
fn put_kind(text: &mut LineText, kind: PieceKind)
    requires { length text.old ≤ 249 }
    ensures value { text.new ≡ text.old ++ kind_text kind }
    ensures len { length text.new ≤ length text.old + 7 }
{
    match kind {
        PieceKind::Copies => text.put(b"copies"),
        PieceKind::Entries => text.put(b"entries"),
    }
}

/// The request, where nothing stands after its keyword.
pub fn alone(rest: Option<&[u8]>, request: Request) -> Result<Request, Kind>
    ensures { result ≡ alone (parts_left rest.entry) request }
{
    match next_part(rest) {
        None => Ok(request),
        Some(_) => Err(Kind::Form),
    }
}

/// The text becomes a keyword alone.
pub fn put_alone(text: &mut LineText, keyword: &[u8])
    requires { length keyword.now ≤ 100 }
    ensures value { text.new ≡ keyword.now }
    ensures len { length text.new ≤ 100 }
{
    text.clear();
    text.put(keyword);
}

/// The text becomes a keyword and a number.
pub fn put_with_number(text: &mut LineText, keyword: &[u8], number: u32)
    requires { length keyword.now ≤ 50 }
    ensures value { text.new ≡ join_with_byte 32 (keyword.now ∷ decimal number ∷ []) }
    ensures len { length text.new ≤ 100 }
{
    text.clear();
    text.put(keyword);
    text.put_next_number(number);
}

/// `shade ROOT`, from what stands after the keyword.
#[tactic(auto, unfolding(crate::specs::Reading::read_shade))]
fn read_shade(rest: Option<&[u8]>) -> Result<Request, Kind>
    ensures { result ≡ read_shade (parts_left rest.entry) }
{
    let Some(root) = one_part(rest) else {
        return Err(Kind::Form);
    };
    let root = root_or_fault(root)?;
    Ok(Request::Shade { root })
}

/// The text becomes that of a `shade` line.
pub fn put_shade(text: &mut LineText, root: RootId)
    ensures value { text.new ≡ request_text (requests.Shade root) }
    ensures len { length text.new ≤ 100 }
{
    text.clear();
    text.put(b"shade ");
    text.put_root(root);
}

/// `deal copies MOST TRAY` or `deal entries MOST TRAY`, from what stands after the keyword.
#[tactic(auto, unfolding(crate::specs::Reading::read_deal))]
fn read_deal(rest: Option<&[u8]>) -> Result<Request, Kind>
    ensures { result ≡ read_deal (parts_left rest.entry) }
{
    let Some((kind, most, tray)) = three_parts(rest) else {
        return Err(Kind::Form);
    };
    let kind = kind_or_fault(kind)?;
    let most = number_or_fault(most)?;
    let tray = tray_or_fault(tray)?;
    Ok(Request::Deal { kind, most, tray })
}

/// The text becomes that of a `deal` line.
pub fn put_deal(text: &mut LineText, kind: PieceKind, most: u32, tray: TrayName)
    ensures value { text.new ≡ request_text (requests.Deal kind most tray) }
    ensures len { length text.new ≤ 100 }
{
    text.clear();
    text.put(b"deal ");
    put_kind(text, kind);
    text.put_next_number(most);
    put_next_tray(text, tray);
}

/// `give TRAY`, from what stands after the keyword.
#[tactic(auto, unfolding(crate::specs::Reading::read_give))]
fn read_give(rest: Option<&[u8]>) -> Result<Request, Kind>
    ensures { result ≡ read_give (parts_left rest.entry) }
{
    let Some(tray) = one_part(rest) else {
        return Err(Kind::Form);
    };
    let tray = tray_or_fault(tray)?;
    Ok(Request::Give { tray })
}

/// The text becomes that of a `give` line.
pub fn put_give(text: &mut LineText, tray: TrayName)
    ensures value { text.new ≡ request_text (requests.Give tray) }
    ensures len { length text.new ≤ 100 }
{
    text.clear();
    text.put(b"give");
    put_next_tray(text, tray);
}

/// `join TRAY TRAY`, from what stands after the keyword.
#[tactic(auto, unfolding(crate::specs::Reading::read_join))]
fn read_join(rest: Option<&[u8]>) -> Result<Request, Kind>
    ensures { result ≡ read_join (parts_left rest.entry) }
{
    let Some((into, other)) = two_parts(rest) else {
        return Err(Kind::Form);
    };
    let into = tray_or_fault(into)?;
    let other = tray_or_fault(other)?;
    Ok(Request::Join { into, other })
}

/// The text becomes that of a `join` line.
pub fn put_join(text: &mut LineText, into: TrayName, other: TrayName)
    ensures value { text.new ≡ request_text (requests.Join into other) }
    ensures len { length text.new ≤ 100 }
{
    text.clear();
    text.put(b"join");
    put_next_tray(text, into);
    put_next_tray(text, other);
}

/// `idle N`, from what stands after the keyword.
#[tactic(auto, unfolding(crate::specs::Reading::read_idle))]
fn read_idle(rest: Option<&[u8]>) -> Result<Request, Kind>
    ensures { result ≡ read_idle (parts_left rest.entry) }
{
    let Some(words) = one_part(rest) else {
        return Err(Kind::Form);
    };
    let words = number_or_fault(words)?;
    Ok(Request::Idle { words })
}

/// `resize WORDS`, from what stands after the keyword.
#[tactic(auto, unfolding(crate::specs::Reading::read_resize))]
fn read_resize(rest: Option<&[u8]>) -> Result<Request, Kind>
    ensures { result ≡ read_resize (parts_left rest.entry) }
{
    let Some(words) = one_part(rest) else {
        return Err(Kind::Form);
    };
    let words = number_or_fault(words)?;
    Ok(Request::Resize { words })
}

/// The request of a line that asks what is there, from what stands after its keyword.
#[tactic(auto, unfolding(crate::specs::Reading::listing_request))]
pub fn listing_request(keyword: &[u8], rest: Option<&[u8]>) -> Result<Request, Kind>
    ensures { result ≡ listing_request keyword.now (parts_left rest.entry) }
{
    if is_text(keyword, b"trays") {
        return alone(rest, Request::Trays);
    }
    if is_text(keyword, b"stat") {
        return alone(rest, Request::Stat);
    }
    if is_text(keyword, b"dump") {
        return alone(rest, Request::Dump);
    }
    Err(Kind::Word)
}

/// The request of a line that begins with its keyword, from what stands after it.
#[tactic(auto, unfolding(crate::specs::Reading::keyword_request))]
pub fn keyword_request(keyword: &[u8], rest: Option<&[u8]>) -> Result<Request, Kind>
    ensures { result ≡ keyword_request keyword.now (parts_left rest.entry) }
{
    if is_text(keyword, b"begin") {
        return alone(rest, Request::Begin);
    }
    if is_text(keyword, b"shade") {
        return read_shade(rest);
    }
    if is_text(keyword, b"deal") {
        return read_deal(rest);
    }
    if is_text(keyword, b"give") {
        return read_give(rest);
    }
    if is_text(keyword, b"join") {
        return read_join(rest);
    }
    if is_text(keyword, b"flip") {
        return alone(rest, Request::Flip);
    }
    if is_text(keyword, b"recall") {
        return alone(rest, Request::Recall);
    }
    if is_text(keyword, b"abandon") {
        return alone(rest, Request::Abandon);
    }
    if is_text(keyword, b"idle") {
        return read_idle(rest);
    }
    if is_text(keyword, b"resize") {
        return read_resize(rest);
    }
    watching_request(keyword, rest)
}
