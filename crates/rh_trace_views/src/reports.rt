//! Faults, reports on histories, and counts of dumps, as objects of JSON.

ghost use Rattle.std.specs.Prelude.{◌≡◌, ◌<◌, ◌++◌, IfOk, OnOk};
ghost use Rattle.std.specs.Option.{option_map};
ghost use Rattle.rh_replay.specs.Report.{count_of};
ghost use Rattle.rh_trace_views.specs.Json.{hex_digit, json_byte, json_dump, json_fault, json_owner, json_owners, json_place, json_report, json_string, json_verdict};

use crate::buffer::{put, put_part};
use rh_layout::{OutOfMemory, Refusal, Reply};
use rh_replay::{Call, History, Verdict};
use rh_syntax::put_answer_text;
use rh_text::LineText;
use std::alloc::Allocator;

/// A digit to base 16.
fn hex_digit(number: u8) -> u8
    requires { number < 16 }
    ensures { result ≡ hex_digit number }
{
    if number < 10 {
        number + b'0'
    } else {
        number - 10 + b'a'
    }
}

/// Puts a byte of a text within quotes.
fn put_json_byte<A: Allocator>(text: &mut Vec<u8, A>, byte: u8) -> Result<(), OutOfMemory>
    ensures { OnOk result (text.new.items ≡ text.old.items ++ json_byte byte) }
{
    if byte == b'"' {
        put(text, b"\\\"")?;
        return Ok(());
    }
    if byte == b'\\' {
        put(text, b"\\\\")?;
        return Ok(());
    }
    if byte < b' ' {
        put(text, b"\\u00")?;
        put(text, &[hex_digit(byte / 16), hex_digit(byte % 16)])?;
        return Ok(());
    }
    put(text, &[byte])?;
    Ok(())
}

/// Puts a text as it stands within quotes: with a backslash before quotes and backslashes, and `\u`
/// and four digits to base 16 for each byte below 32. All others stand as they are, in UTF-8.
///
/// # Errors
///
/// `OutOfMemory` where memory for it was refused. Nothing is promised of the text then.
pub fn put_json_string<A: Allocator>(text: &mut Vec<u8, A>, string: &str) -> Result<(), OutOfMemory>
    ensures { OnOk result (text.new.items ≡ text.old.items ++ json_string string.now) }
{
    for byte in string.as_bytes() {
        put_json_byte(text, *byte)?;
    }
    Ok(())
}

/// Puts the members of a place, where there is one.
fn put_place<A: Allocator>(
    text: &mut Vec<u8, A>,
    at: Option<(u32, &str)>,
) -> Result<(), OutOfMemory>
    ensures { OnOk result (text.new.items
        ≡ text.old.items ++ json_place (option_map (λ x. (x.0, x.1.now)) at.entry)) }
{
    match at {
        Some((line, kind)) => {
            put_part(text, b",\"line\":", line)?;
            put(text, b",\"kind\":\"")?;
            put_json_string(text, kind)?;
            put(text, b"\"")?;
            Ok(())
        }
        None => Ok(()),
    }
}

/// Puts the object of a fault, with its line end.
fn put_fault<A: Allocator>(
    text: &mut Vec<u8, A>,
    fault: &str,
    at: Option<(u32, &str)>,
) -> Result<(), OutOfMemory>
    ensures { OnOk result (text.new.items ≡ text.old.items
        ++ json_fault fault.now (option_map (λ x. (x.0, x.1.now)) at.entry)) }
{
    put(text, b"{\"fault\":\"")?;
    put_json_string(text, fault)?;
    put(text, b"\"")?;
    put_place(text, at)?;
    put(text, b"}\n")?;
    Ok(())
}

/// The object of a fault, with its line end: what it is, and where it has a place its line and the
/// name of its kind.
///
/// # Errors
///
/// `OutOfMemory` where memory for it was refused.
pub fn fault_json<A: Allocator + Copy>(
    alloc: A,
    fault: &str,
    at: Option<(u32, &str)>,
) -> Result<Vec<u8, A>, OutOfMemory>
    ensures { IfOk result (λ text. text.items
        ≡ json_fault fault.now (option_map (λ x. (x.0, x.1.now)) at.entry)) }
{
    let mut text = Vec::new(alloc);
    put_fault(&mut text, fault, at)?;
    Ok(text)
}

/// How many of the calls are the owner's.
fn count_of(calls: &[Call], owner: u32) -> usize
    ensures { result ≡ count_of calls.now owner }
{
    calls.iter().filter(|call| call.owner == owner).count()
}

/// Puts the object of an owner with so many calls, and nothing where there is none.
fn put_owner<A: Allocator>(
    text: &mut Vec<u8, A>,
    owner: u32,
    count: usize,
) -> Result<(), OutOfMemory>
    ensures { OnOk result (text.new.items ≡ text.old.items ++ json_owner owner count) }
{
    if count == 0 {
        return Ok(());
    }
    put_part(text, b"{\"owner\":", owner)?;
    put_part(text, b",\"calls\":", count)?;
    put(text, b"}\n")?;
    Ok(())
}

/// Puts the object of a first wrong call.
fn put_wrong<A: Allocator>(
    text: &mut Vec<u8, A>,
    at: u32,
    expected: Result<Reply, Refusal>,
) -> Result<(), OutOfMemory>
    ensures { OnOk result (text.new.items
        ≡ text.old.items ++ json_verdict (Verdict.Wrong at expected)) }
{
    let mut answer = LineText::new();
    put_answer_text(&mut answer, expected);
    put_part(text, b"{\"wrong\":", at)?;
    put(text, b",\"expected\":\"")?;
    put(text, answer.as_bytes())?;
    put(text, b"\"}\n")?;
    Ok(())
}

/// Puts the object of a verdict.
fn put_verdict<A: Allocator>(text: &mut Vec<u8, A>, verdict: &Verdict) -> Result<(), OutOfMemory>
    ensures { OnOk result (text.new.items ≡ text.old.items ++ json_verdict verdict.now) }
{
    match *verdict {
        Verdict::Legal(count) => {
            put_part(text, b"{\"legal\":", count)?;
            put(text, b"}\n")?;
            Ok(())
        }
        Verdict::Wrong { at, expected } => put_wrong(text, at, expected),
    }
}

/// The report on a history that has this verdict, as JSON: an object for each owner that has calls,
/// in order, and that of the verdict, each with a line end.
///
/// # Errors
///
/// `OutOfMemory` where memory for it was refused.
pub fn report_json<A: Allocator + Copy, B: Allocator>(
    alloc: A,
    history: &History<B>,
    verdict: &Verdict,
) -> Result<Vec<u8, A>, OutOfMemory>
    ensures { IfOk result (λ text. text.items
        ≡ json_report history.now.contents verdict.now) }
{
    let mut text = Vec::new(alloc);
    let owners = history.owners();
    let calls = history.calls();
    for owner in 0..owners {
        put_owner(&mut text, owner, count_of(calls, owner))?;
    }
    put_verdict(&mut text, verdict)?;
    Ok(text)
}

/// The text becomes the object of a dump of so many roots and objects, with a line end.
pub fn put_json_dump(text: &mut LineText, roots: usize, objects: usize)
    ensures { text.new ≡ json_dump roots objects }
{
    text.clear();
    text.put_part(b"{\"roots\":", roots);
    text.put_part(b",\"objects\":", objects);
    text.put(b"}\n");
}
