//! The text of a program, read whole.

ghost use Rattle.std.specs.Prelude.{◌≡◌, false, IsErrOf};
ghost use Rattle.rh_text.specs.IoLog.{AreSpent};
ghost use Rattle.rh_lisp_run.specs.Run.{ReadsText};

use crate::fault::LispFault;
use crate::limits::MAX_TEXT_BYTES;
use rh_text::{InputFault, IoLog, read_past};
use std::alloc::Allocator;
use std::io;

/// Reads the text of a program, at most 1,048,576 bytes.
///
/// # Errors
///
/// `Long` where the reader gave more bytes; else `Read` where a read failed, or 33,554,432 reads
/// didn't come to the end, and `OutOfMemory` where memory was refused.
pub fn read_text<A: Allocator + Copy, R: io::Read>(
    alloc: A,
    reader: &mut R,
    reads: &mut IoLog,
) -> Result<Vec<u8, A>, LispFault>
    requires { reads.old.failed ≡ false }
    ensures bytes { ReadsText (R.remaining reader.old) (R.remaining reader.new) (λ v. v.items)
        result }
    ensures failed { IsErrOf result LispFault.Read → AreSpent reads.new }
    ensures none_failed { ¬ IsErrOf result LispFault.Read → reads.new.failed ≡ false }
{
    match read_past(alloc, reader, reads, MAX_TEXT_BYTES) {
        Ok(text) => {
            if text.len() > MAX_TEXT_BYTES {
                return Err(LispFault::Long);
            }
            Ok(text)
        }
        Err(InputFault::Read) => Err(LispFault::Read),
        Err(InputFault::OutOfMemory) => Err(LispFault::OutOfMemory),
        // Reading past a limit never answers it.
        Err(InputFault::Long) => unreachable!(),
    }
}
