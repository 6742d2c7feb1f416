//! The messages for a line that is refused or not understood.

ghost use Rattle.std.specs.Prelude.{◌≡◌, ◌≤◌, ◌==◌, false, IsTrue, length};
ghost use Rattle.std.specs.List.{list_any};
ghost use Rattle.rh_shell.specs.Session.{kind_name, size_fault_name, IsFaultLine};

use rh_core::ConfigFault;
use rh_explain::{Why, fault_part};
use rh_explained::{Told, config_spot};
use rh_text::{LineText, is_text};
use rh_trace::Kind;
use std::alloc::Allocator;

/// The most bytes of a sentence that is told with a fault. A longer one is left out.
const MOST_SENTENCE: usize = 200;

/// What is told where a line needs a heap and none was made.
const NO_HEAP: &[u8] = b"the first line is heap WORDS RATIO LOG OWNERS SLOTS";

/// What is told of a line that begins with no command and none of a session's own words.
const NO_COMMAND: &[u8] =
    b"no such command: help lists them, and the end of input ends the session";

/// The name of a fault of a line.
pub(crate) fn kind_name(kind: Kind) -> &'static [u8]
    ensures value { result.now ≡ kind_name kind }
    ensures few { length result.now ≤ 10 }
{
    match kind {
        Kind::Empty => b"Empty",
        Kind::Long => b"Long",
        Kind::Cut => b"Cut",
        Kind::Form => b"Form",
        Kind::Header => b"Header",
        Kind::Word => b"Word",
        Kind::Number => b"Number",
        Kind::Root => b"Root",
        Kind::Tray => b"Tray",
    }
}

/// The name of a fault of the heap's sizes.
fn size_fault_name(fault: ConfigFault) -> &'static [u8]
    ensures value { result.now ≡ size_fault_name fault }
    ensures few { length result.now ≤ 10 }
{
    match fault {
        ConfigFault::BadSpace => b"BadSpace",
        ConfigFault::BadRatio => b"BadRatio",
        ConfigFault::BadRoots => b"BadRoots",
        ConfigFault::BadLog => b"BadLog",
        ConfigFault::BadNumbers => b"BadNumbers",
    }
}

/// Whether a text can stand as a sentence in a line: it has some bytes, not too many, and no line
/// feed.
fn is_sentence(text: &[u8]) -> bool
    ensures few { IsTrue result → length text.now ≤ 200 }
    ensures within { IsTrue result → list_any (λ b. b == 10) text.now ≡ false }
{
    if text.is_empty() {
        return false;
    }
    if text.len() > MOST_SENTENCE {
        return false;
    }
    !text.contains(&b'\n')
}

/// What is told of a line of an unknown word that begins as one of a session's own; else nothing.
fn own_sentence(kind: Kind, line: &[u8]) -> &'static [u8] {
    if kind != Kind::Word {
        return b"";
    }
    if is_text(line, b"draw") {
        return b"draw FILE";
    }
    if line.starts_with(b"help ") {
        return b"help stands alone";
    }
    if line.starts_with(b"cycles ") {
        return b"cycles stands alone";
    }
    b""
}

/// The text becomes the line of a fault: its name, and a sentence if there is one.
pub(crate) fn put_fault(text: &mut LineText, name: &[u8], sentence: &[u8])
    requires { length name.now ≤ 10 }
    ensures { IsFaultLine name.now text.new }
{
    text.clear();
    text.put(b"fault: ");
    text.put(name);
    if !is_sentence(sentence) {
        text.put(b"\n");
        return;
    }
    text.put(b": ");
    text.put(sentence);
    text.put(b"\n");
}

/// The text becomes the line of a fault: its name, and what is told of it if there is memory for
/// that.
fn put_told<A: Allocator + Copy>(alloc: A, text: &mut LineText, name: &[u8], told: Told)
    requires { length name.now ≤ 10 }
    ensures { IsFaultLine name.now text.new }
{
    match format!(in alloc; "{told}") {
        Ok(sentence) => put_fault(text, name, sentence.as_bytes()),
        Err(_) => put_fault(text, name, b""),
    }
}

/// The text becomes the line of the fault that the line of this number has in a trace.
pub(crate) fn put_line_fault<A: Allocator + Copy>(
    alloc: A,
    text: &mut LineText,
    kind: Kind,
    number: u32,
    line: &[u8],
    ended: bool,
)
    ensures { IsFaultLine (kind_name kind) text.new }
{
    let own = own_sentence(kind, line);
    if !own.is_empty() {
        put_fault(text, kind_name(kind), own);
        return;
    }
    match fault_part(number, line, ended) {
        Some(part) if matches!(part.why, Why::Unknown) => {
            put_fault(text, kind_name(kind), NO_COMMAND)
        }
        Some(part) => put_told(alloc, text, kind_name(kind), Told::Line(part.why)),
        None => put_fault(text, kind_name(kind), b""),
    }
}

/// The text becomes the line of a fault of the sizes that the heap's line has.
pub(crate) fn put_size_fault<A: Allocator + Copy>(
    alloc: A,
    text: &mut LineText,
    fault: ConfigFault,
    line: &[u8],
)
    ensures { IsFaultLine (size_fault_name fault) text.new }
{
    let told = config_spot(line, fault).told;
    put_told(alloc, text, size_fault_name(fault), told);
}

/// The text becomes the line of the fault of a line that needs a heap where none was made.
pub(crate) fn put_no_heap(text: &mut LineText)
    ensures { IsFaultLine (kind_name Kind.Header) text.new }
{
    put_fault(text, kind_name(Kind::Header), NO_HEAP);
}
