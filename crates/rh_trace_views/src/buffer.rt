//! Texts put together in memory.

ghost use Rattle.std.specs.Prelude.{◌≡◌, ◌++◌, OnOk};

use itoa::{Buffer, Integer};
use rh_layout::OutOfMemory;
use std::alloc::Allocator;

/// Puts bytes at the end.
///
/// # Errors
///
/// `OutOfMemory` where memory for them was refused.
pub fn put<A: Allocator>(text: &mut Vec<u8, A>, bytes: &[u8]) -> Result<(), OutOfMemory>
    ensures { OnOk result (text.new.items ≡ text.old.items ++ bytes.now) }
{
    text.extend_from_slice(bytes)?;
    Ok(())
}

/// Puts bytes and the text of an integer at the end.
///
/// # Errors
///
/// `OutOfMemory` where memory for them was refused.
pub fn put_part<A: Allocator, I: Integer>(
    text: &mut Vec<u8, A>,
    name: &[u8],
    number: I,
) -> Result<(), OutOfMemory>
    ensures { OnOk result (text.new.items ≡ text.old.items ++ (name.now ++ I.text number)) }
{
    put(text, name)?;
    let mut buffer = Buffer::new();
    put(text, buffer.format(number).as_bytes())?;
    Ok(())
}
