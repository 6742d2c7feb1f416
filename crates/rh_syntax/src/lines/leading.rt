//! Command lines read in one pass, where a text begins with one.
//!
//! These readers go from left to right, without looking for the line's end or its parts first. What
//! they find is what reading by parts finds; where they find nothing, that says nothing of the
//! text, and the line is read by its parts. So all that they promise beyond that is speed, which
//! `bench/run_trace` measures.

ghost use Rattle.std.specs.Prelude.{◌≡◌, ◌∷◌, ◌++◌, ◌≤◌, IfSome, codes, decimal};
ghost use Rattle.rh_text.specs.Root.{RootFits, root_text};
ghost use Rattle.rh_syntax.specs.Leading.{BeginsWith};
ghost use Rattle.rh_syntax.specs.Spelling.{CommandFits, OperandFits, operand_text, spell_command};

use rh_layout::limits::MAX_LINES;
use rh_layout::{Command, Operand, RootId};
use rh_text::{after_byte, after_bytes, leading_number, leading_root};

/// A line is read from so many bytes of a text, of which the compiler knows that each is there. No
/// line that is read here has more than 60.
const WINDOW: usize = 64;

/// The operand with which the text begins, and what stands after it.
#[inline(always)]
fn leading_operand(text: &[u8]) -> Option<(Operand, &[u8])>
    ensures { IfSome result (λ x. OperandFits x.0 × (text.now ≡ operand_text x.0 ++ x.1.now)) }
{
    if let Some(rest) = after_bytes(b"nil", text) {
        return Some((Operand::Nil, rest));
    }
    let (number, rest) = leading_number(text)?;
    let Some(after) = after_byte(b'.', rest) else {
        return Some((Operand::Int(i64::from(number)), rest));
    };
    let (slot, after) = leading_number(after)?;
    let root = RootId {
        owner: number,
        slot,
    };
    Some((Operand::Root(root), after))
}

/// The root and the space with which the text begins, and what stands after them.
#[inline(always)]
fn leading_root_and_space(text: &[u8]) -> Option<(RootId, &[u8])>
    ensures { IfSome result (λ x. RootFits x.0 × (text.now ≡ root_text x.0 ++ 32 ∷ x.1.now)) }
{
    let (root, rest) = leading_root(text)?;
    let rest = after_byte(b' ', rest)?;
    Some((root, rest))
}

/// `ROOT FIELDS`, with which the text begins, as the line `OWNER alloc ROOT FIELDS`.
#[inline(always)]
fn leading_alloc(owner: u32, text: &[u8]) -> Option<(u32, Command, &[u8])>
    ensures { IfSome result (λ x. BeginsWith (decimal owner ++ 32 ∷ (codes "alloc " ++ text.now))
        x.0 x.1 x.2.now) }
{
    let (dst, rest) = leading_root_and_space(text)?;
    let (fields, rest) = leading_number(rest)?;
    Some((owner, Command::Alloc { dst, fields }, rest))
}

/// `ROOT FIELDS`, with which the text begins, as the line `OWNER raw ROOT FIELDS`.
#[inline(always)]
fn leading_raw(owner: u32, text: &[u8]) -> Option<(u32, Command, &[u8])>
    ensures { IfSome result (λ x. BeginsWith (decimal owner ++ 32 ∷ (codes "raw " ++ text.now))
        x.0 x.1 x.2.now) }
{
    let (dst, rest) = leading_root_and_space(text)?;
    let (fields, rest) = leading_number(rest)?;
    Some((owner, Command::Raw { dst, fields }, rest))
}

/// `DST SRC FIELD`, with which the text begins, as the line `OWNER load DST SRC FIELD`.
#[inline(always)]
fn leading_load(owner: u32, text: &[u8]) -> Option<(u32, Command, &[u8])>
    ensures { IfSome result (λ x. BeginsWith (decimal owner ++ 32 ∷ (codes "load " ++ text.now))
        x.0 x.1 x.2.now) }
{
    let (dst, rest) = leading_root_and_space(text)?;
    let (src, rest) = leading_root_and_space(rest)?;
    let (field, rest) = leading_number(rest)?;
    let command = Command::Load { dst, src, field };
    Some((owner, command, rest))
}

/// `OBJ FIELD OPERAND`, with which the text begins, as the line `OWNER store OBJ FIELD OPERAND`.
#[inline(always)]
fn leading_store(owner: u32, text: &[u8]) -> Option<(u32, Command, &[u8])>
    ensures { IfSome result (λ x. BeginsWith (decimal owner ++ 32 ∷ (codes "store " ++ text.now))
        x.0 x.1 x.2.now) }
{
    let (obj, rest) = leading_root_and_space(text)?;
    let (field, rest) = leading_number(rest)?;
    let rest = after_byte(b' ', rest)?;
    let (operand, rest) = leading_operand(rest)?;
    let command = Command::Store {
        obj,
        field,
        operand,
    };
    Some((owner, command, rest))
}

/// `DST SRC`, with which the text begins, as the line `OWNER copy DST SRC`.
#[inline(always)]
fn leading_copy(owner: u32, text: &[u8]) -> Option<(u32, Command, &[u8])>
    ensures { IfSome result (λ x. BeginsWith (decimal owner ++ 32 ∷ (codes "copy " ++ text.now))
        x.0 x.1 x.2.now) }
{
    let (dst, rest) = leading_root_and_space(text)?;
    let (src, rest) = leading_root(rest)?;
    Some((owner, Command::Copy { dst, src }, rest))
}

/// `A B`, with which the text begins, as the line `OWNER same A B`.
#[inline(always)]
fn leading_same(owner: u32, text: &[u8]) -> Option<(u32, Command, &[u8])>
    ensures { IfSome result (λ x. BeginsWith (decimal owner ++ 32 ∷ (codes "same " ++ text.now))
        x.0 x.1 x.2.now) }
{
    let (a, rest) = leading_root_and_space(text)?;
    let (b, rest) = leading_root(rest)?;
    Some((owner, Command::Same { a, b }, rest))
}

/// `ROOT`, with which the text begins, as the line `OWNER drop ROOT`.
#[inline(always)]
fn leading_drop(owner: u32, text: &[u8]) -> Option<(u32, Command, &[u8])>
    ensures { IfSome result (λ x. BeginsWith (decimal owner ++ 32 ∷ (codes "drop " ++ text.now))
        x.0 x.1 x.2.now) }
{
    let (root, rest) = leading_root(text)?;
    Some((owner, Command::Drop { root }, rest))
}

/// The command with which the text begins, by its keyword, as an owner's line.
#[inline(always)]
fn leading_command(owner: u32, text: &[u8]) -> Option<(u32, Command, &[u8])>
    ensures { IfSome result (λ x. BeginsWith (decimal owner ++ 32 ∷ text.now) x.0 x.1 x.2.now) }
{
    if let Some(rest) = after_bytes(b"alloc ", text) {
        return leading_alloc(owner, rest);
    }
    if let Some(rest) = after_bytes(b"raw ", text) {
        return leading_raw(owner, rest);
    }
    if let Some(rest) = after_bytes(b"load ", text) {
        return leading_load(owner, rest);
    }
    if let Some(rest) = after_bytes(b"store ", text) {
        return leading_store(owner, rest);
    }
    if let Some(rest) = after_bytes(b"copy ", text) {
        return leading_copy(owner, rest);
    }
    if let Some(rest) = after_bytes(b"same ", text) {
        return leading_same(owner, rest);
    }
    if let Some(rest) = after_bytes(b"drop ", text) {
        return leading_drop(owner, rest);
    }
    None
}

/// The command line of this number with which the text begins, and what stands after it, read from
/// left to right, without looking for the line's end or its parts first. It is `None` also for
/// lines that ask for more, such as one whose number has more than eight digits, and where the text
/// has fewer than 64 bytes: `request_or_fault` reads these.
#[inline(always)]
pub fn leading_command_line(number: u32, text: &[u8]) -> Option<(u32, Command, &[u8])>
    ensures { IfSome result (λ x. number ≤ MAX_LINES × CommandFits x.0 x.1
        × (text.now ≡ spell_command x.0 x.1 ++ x.2.now)) }
{
    if number > MAX_LINES {
        return None;
    }
    let window: &[u8] = text.first_chunk::<WINDOW>()?;
    let (owner, rest) = leading_number(window)?;
    let rest = after_byte(b' ', rest)?;
    let (owner, command, rest) = leading_command(owner, rest)?;
    let rest = after_byte(b'\n', rest)?;
    Some((owner, command, text.split_at(WINDOW - rest.len()).1))
}
