//! Text in a buffer of a fixed size, so that writing it takes no memory.

ghost use Rattle.std.specs.Prelude.{◌≡◌, ◌+◌, ◌<◌, ◌≤◌, List, [], ◌∷◌, ◌++◌, length, decimal};
ghost use Rattle.std.specs.Fmt.{signed_decimal};
ghost use Rattle.rh_text.specs.Root.{root_text};

use itoa::{Buffer, Integer, write_digits};
use rh_layout::RootId;
use std::marker::Model;

/// The most bytes that a line of text has here.
const CAPACITY: usize = 256;

/// A line of text, or a part of one, of at most 256 bytes.
#[derive(Drop)]
pub struct LineText {
    bytes: [u8; CAPACITY],
    len: usize,
}

impl Model for LineText {
    ghost use Rattle.std.specs.Prelude.{◌≤◌, ℕ, List, take};

    ghost Value = { List ℕ };

    ghost view = { λ t. take t.len t.bytes };

    ghost invariant = { λ t. t.len ≤ 256 };
}

/// How many digits the decimal of a number below 1,000 has: 1 to 3. 0 for any other number.
#[inline(always)]
fn few_digits(number: u64) -> usize
    ensures few { result ≤ 3 }
    ensures exact { 0 < result → length (decimal number) ≡ result }
{
    if number < 10 {
        1
    } else if number < 100 {
        2
    } else if number < 1000 {
        3
    } else {
        0
    }
}

impl LineText {
    /// An empty line.
    pub fn new() -> LineText
        ensures { result ≡ [] }
    {
        LineText {
            bytes: [0; CAPACITY],
            len: 0,
        }
    }

    /// Empties the line.
    pub fn clear(&mut self)
        ensures { self.new ≡ [] }
    {
        self.len = 0;
    }

    /// The bytes of the line.
    pub fn as_bytes(&self) -> &[u8]
        ensures { result.now ≡ self.now }
    {
        &self.bytes[..self.len]
    }

    /// Puts bytes at the end.
    #[inline(always)]
    pub fn put(&mut self, text: &[u8])
        requires { length self.old + length text.now ≤ 256 }
        ensures { self.new ≡ self.old ++ text.now }
    {
        let end = self.len + text.len();
        self.bytes[self.len..end].copy_from_slice(text);
        self.len = end;
    }

    /// Puts the text of an integer at the end.
    pub fn put_integer<I: Integer>(&mut self, number: I)
        requires { length self.old + I.MAX_STR_LEN ≤ 256 }
        ensures value { self.new ≡ self.old ++ I.text number }
        ensures len { length self.new ≤ length self.old + I.MAX_STR_LEN }
    {
        let mut buffer = Buffer::new();
        self.put(buffer.format(number).as_bytes());
    }

    /// Puts the decimal of a number at the end. One below 1,000 is written in place.
    #[inline(always)]
    pub fn put_number(&mut self, number: u64)
        requires { length self.old ≤ 236 }
        ensures value { self.new ≡ self.old ++ decimal number }
        ensures len { length self.new ≤ length self.old + 20 }
    {
        let digits = few_digits(number);
        if digits == 0 {
            self.put_integer(number);
            return;
        }
        let end = self.len + digits;
        write_digits(number, &mut self.bytes, end);
        self.len = end;
    }

    /// Puts the text of a whole number at the end. One from 0 to 999 is written in place.
    #[inline(always)]
    pub fn put_whole(&mut self, number: i64)
        requires { length self.old ≤ 236 }
        ensures value { self.new ≡ self.old ++ signed_decimal number }
        ensures len { length self.new ≤ length self.old + 20 }
    {
        if number < 0 {
            self.put_integer(number);
        } else {
            self.put_number(number.unsigned_abs());
        }
    }

    /// Puts bytes and the text of an integer at the end.
    pub fn put_part<I: Integer>(&mut self, name: &[u8], number: I)
        requires { length self.old + length name.now + I.MAX_STR_LEN ≤ 256 }
        ensures value { self.new ≡ self.old ++ (name.now ++ I.text number) }
        ensures len { length self.new ≤ length self.old + length name.now + I.MAX_STR_LEN }
    {
        self.put(name);
        self.put_integer(number);
    }

    /// Puts a space and the decimal of a number at the end.
    pub fn put_next_number(&mut self, number: u32)
        requires { length self.old ≤ 245 }
        ensures value { self.new ≡ self.old ++ 32 ∷ decimal number }
        ensures len { length self.new ≤ length self.old + 11 }
    {
        self.put(b" ");
        self.put_integer(number);
    }

    /// Puts `OWNER.SLOT` at the end.
    pub fn put_root(&mut self, root: RootId)
        requires { length self.old ≤ 235 }
        ensures value { self.new ≡ self.old ++ root_text root }
        ensures len { length self.new ≤ length self.old + 21 }
    {
        self.put_integer(root.owner);
        self.put(b".");
        self.put_integer(root.slot);
    }
}
