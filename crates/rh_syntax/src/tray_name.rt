//! The names of trays.

ghost use Rattle.std.specs.Prelude.{◌≡◌, ◌≤◌, length, IsTrue};
ghost use Rattle.std.specs.Cmp.{partial_equiv_from_equiv};
ghost use Rattle.std.specs.Cmp.Lexicographic.{nat_list_eq_equiv};
ghost use Rattle.std.specs.Cmp.Rules.{hashing};
ghost use Rattle.std.specs.Hash as fed;
ghost use Rattle.std.specs.List.{list_all};
ghost use Rattle.std.specs.Str.{bytes_eq};
ghost use Rattle.std.proofs.Common.{rules};
ghost use Rattle.rh_syntax.specs.TrayName.{is_letter, is_name_byte, is_tray_name, tray_name_of};

use std::hash::{Hash, Hasher};
use std::marker::Model;

/// The most bytes that the name of a tray has.
const MAX_NAME_BYTES: usize = 16;

/// The name of a tray: a letter a to z, then at most 15 of a to z, 0 to 9 and `_`.
///
/// Contracts see it as its bytes.
#[derive(Clone, Copy, Debug)]
pub struct TrayName {
    bytes: [u8; MAX_NAME_BYTES],
    len: u8,
}

impl Model for TrayName {
    ghost use Rattle.std.specs.Prelude.{◌≡◌, ℕ, List, length, take};
    ghost use Rattle.rh_syntax.specs.TrayName.{is_tray_name, padded};
    ghost use Rattle.std.proofs.Common.{sym, true};

    ghost Value = { List ℕ };

    ghost view = { λ n. take n.len n.bytes };

    // A name, and zeros after it.
    ghost invariant = { λ n. (is_tray_name (take n.len n.bytes) ≡ true)
        × (n.bytes ≡ padded (take n.len n.bytes))
        × (n.len ≡ length (take n.len n.bytes)) };

    ghost inverse = { λ name. record { bytes = padded name; len = length name } };

    ghost inverse_ok = { λ n h i. record { bytes = sym h.1 i; len = sym h.2 i } };
}

impl PartialEq for TrayName {
    ghost eq = { bytes_eq };

    ghost laws = { partial_equiv_from_equiv nat_list_eq_equiv };

    fn eq(&self, other: &TrayName) -> bool {
        self.as_bytes() == other.as_bytes()
    }
}

impl Eq for TrayName {
    ghost laws = { nat_list_eq_equiv };
}

impl Hash for TrayName {
    ghost hash_input = { fed.slice fed.u8 };

    ghost respects_eq = { Prim.search (hashing, rules) };

    fn hash<H: Hasher>(&self, state: &mut H) {
        self.as_bytes().hash(state);
    }
}

impl TrayName {
    /// The bytes of the name.
    pub fn as_bytes(&self) -> &[u8]
        ensures bytes { result.now ≡ self.now }
        ensures len { length result.now ≤ 16 }
    {
        &self.bytes[..usize::from(self.len)]
    }
}

/// The name that a part says, if it says one.
pub fn tray_name_of(part: &[u8]) -> Option<TrayName>
    ensures { result ≡ tray_name_of part.now }
{
    if !is_tray_name(part) {
        return None;
    }
    let mut bytes = [0; MAX_NAME_BYTES];
    bytes[..part.len()].copy_from_slice(part);
    Some(TrayName {
        bytes,
        len: part.len() as u8,
    })
}

/// Whether these bytes are the name of a tray.
#[tactic(auto, unfolding(crate::specs::TrayName::is_tray_name))]
fn is_tray_name(part: &[u8]) -> bool
    ensures name { result ≡ is_tray_name part.now }
    ensures len { IsTrue result → length part.now ≤ MAX_NAME_BYTES }
{
    match part {
        [first, rest @ ..] => {
            is_letter(*first) && rest.len() < MAX_NAME_BYTES && are_name_bytes(rest)
        }
        [] => false,
    }
}

/// Whether each byte is a letter a to z, a digit, or `_`.
fn are_name_bytes(bytes: &[u8]) -> bool
    ensures { result ≡ list_all is_name_byte bytes.now }
{
    bytes.iter().all(|b| is_name_byte(*b))
}

/// Whether a byte is a letter a to z.
fn is_letter(byte: u8) -> bool
    ensures { result ≡ is_letter byte }
{
    byte >= b'a' && byte <= b'z'
}

/// Whether a byte is a letter a to z, a digit, or `_`.
fn is_name_byte(byte: u8) -> bool
    ensures { result ≡ is_name_byte byte }
{
    is_letter(byte) || (byte >= b'0' && byte <= b'9') || byte == b'_'
}
