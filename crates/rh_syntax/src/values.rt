//! What a part of a trace's line says: a word, a number, a root or an operand; and an operand's
//! text.

ghost use Rattle.std.specs.Prelude.{◌≡◌, ◌+◌, ◌≤◌, ◌++◌, length};
ghost use Rattle.rh_syntax.specs.Reading.{number_or_fault, integer_or_fault, root_or_fault, operand_or_fault};
ghost use Rattle.rh_syntax.specs.Spelling.{operand_text};

use crate::fault::Kind;
use rh_layout::{Operand, RootId};
use rh_text::{LineText, has_dot, is_text, read_integer, read_number, read_root};

/// The number that a part says.
pub fn number_or_fault(part: &[u8]) -> Result<u32, Kind>
    ensures { result ≡ number_or_fault part.now }
{
    read_number(part).ok_or(Kind::Number)
}

/// The whole number of 64 bits with sign that a part says.
fn integer_or_fault(part: &[u8]) -> Result<i64, Kind>
    ensures { result ≡ integer_or_fault part.now }
{
    read_integer(part).ok_or(Kind::Number)
}

/// The root that a part says.
pub fn root_or_fault(part: &[u8]) -> Result<RootId, Kind>
    ensures { result ≡ root_or_fault part.now }
{
    read_root(part).ok_or(Kind::Root)
}

/// `nil`, a root where there is a dot, and else a whole number.
#[tactic(auto, unfolding(crate::specs::Reading::operand_or_fault))]
pub fn operand_or_fault(part: &[u8]) -> Result<Operand, Kind>
    ensures { result ≡ operand_or_fault part.now }
{
    if is_text(part, b"nil") {
        return Ok(Operand::Nil);
    }
    if has_dot(part) {
        return Ok(Operand::Root(root_or_fault(part)?));
    }
    Ok(Operand::Int(integer_or_fault(part)?))
}

/// Puts `nil`, a whole number or `OWNER.SLOT` at the end.
pub fn put_operand(text: &mut LineText, operand: Operand)
    requires { length text.old ≤ 235 }
    ensures value { text.new ≡ text.old ++ operand_text operand }
    ensures len { length text.new ≤ length text.old + 21 }
{
    match operand {
        Operand::Nil => text.put(b"nil"),
        Operand::Int(number) => text.put_integer(number),
        Operand::Root(root) => text.put_root(root),
    }
}
