//! The beginning of a text: a byte, a number or a root, and the rest after it.
//!
//! These readers go from left to right, without looking for the line's end or its parts first. What
//! they find is what the text begins with. They find no number of more than eight digits, nor one
//! above 0 with which the text ends.

ghost use Rattle.std.specs.Int.{IsOutOfRange};
ghost use Rattle.std.specs.Prelude.{◌≡◌, ◌≢◌, ℕ, ◌^◌, ◌<◌, List, ◌∷◌, ◌++◌, decimal, MatchOption};
ghost use Rattle.rh_text.specs.Number.{IsU32};
ghost use Rattle.rh_text.specs.Root.{RootFits, root_text};

use rh_layout::RootId;

/// A number with so many digits, or more, is left to `read_number`.
const TOO_MANY_DIGITS: usize = 9;

/// What stands after the byte with which the text begins.
#[inline(always)]
pub fn after_byte(byte: u8, text: &[u8]) -> Option<&[u8]>
    ensures { MatchOption result ((rest : List ℕ) → text.now ≢ byte ∷ rest)
        (λ rest. text.now ≡ byte ∷ rest.now) }
{
    match text {
        [] => None,
        [first, rest @ ..] => { if *first == byte { Some(rest) } else { None } }
    }
}

/// What stands after these bytes, with which the text begins.
#[inline(always)]
pub fn after_bytes<'a>(prefix: &[u8], text: &'a [u8]) -> Option<&'a [u8]>
    ensures { MatchOption result ((rest : List ℕ) → text.now ≢ prefix.now ++ rest)
        (λ rest. text.now ≡ prefix.now ++ rest.now) }
{
    let mut rest = text;
    for byte in prefix {
        rest = after_byte(*byte, rest)?;
    }
    Some(rest)
}

/// The number with which the text begins, of at most eight digits, and what stands after it. It is
/// found where a byte that is no digit stands after it; `0` may be found whatever stands after it,
/// and also where the text ends with it.
#[inline(always)]
pub fn leading_number(text: &[u8]) -> Option<(u32, &[u8])>
    ensures { MatchOption result
        ((number byte : ℕ) → (rest : List ℕ) → number < 10 ^ 8 → IsOutOfRange 48 57 byte
        → text.now ≢ decimal number ++ byte ∷ rest)
        (λ x. IsU32 x.0 × (text.now ≡ decimal x.0 ++ x.1.now)
        × (x.0 ≢ 0 → (byte : ℕ) × (after : List ℕ) × IsOutOfRange 48 57 byte
        × (x.1.now ≡ byte ∷ after)) × (x.0 < 10 ^ 8)) }
{
    let [first, rest @ ..] = text else {
        return None;
    };
    if !first.is_ascii_digit() {
        return None;
    }
    if *first == b'0' {
        return Some((0, rest));
    }
    let mut number = u32::from(*first - b'0');
    let mut rest = rest;
    for i in 1..TOO_MANY_DIGITS {
        let [digit, after @ ..] = rest else {
            return None;
        };
        if !digit.is_ascii_digit() {
            return Some((number, rest));
        }
        number = number * 10 + u32::from(*digit - b'0');
        rest = after;
    }
    None
}

/// The root `OWNER.SLOT` with which the text begins, each of at most eight digits, and what stands
/// after it. It is found where a byte that is no digit stands after it; that whose slot is `0` may
/// be found whatever stands after it, and also where the text ends with it.
#[inline(always)]
pub fn leading_root(text: &[u8]) -> Option<(RootId, &[u8])>
    ensures { MatchOption result
        ((root : RootId) (byte : ℕ) (rest : List ℕ) → root.owner < 10 ^ 8 → root.slot < 10 ^ 8
        → IsOutOfRange 48 57 byte → text.now ≢ root_text root ++ byte ∷ rest)
        (λ x. RootFits x.0 × (text.now ≡ root_text x.0 ++ x.1.now)
        × (x.0.owner < 10 ^ 8) × (x.0.slot < 10 ^ 8)) }
{
    let (owner, rest) = leading_number(text)?;
    let rest = after_byte(b'.', rest)?;
    let (slot, rest) = leading_number(rest)?;
    Some((RootId { owner, slot }, rest))
}
