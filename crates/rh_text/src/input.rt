//! Reads an input whole, up to a limit.

ghost use Rattle.std.specs.Prelude.{◌≡◌, ◌++◌, ◌+◌, ◌<◌, ◌≤◌, length, false, IfOk, OnOk, IsErrOf};
ghost use Rattle.rh_text.specs.IoLog.{AreSpent, CountsDown};
ghost use Rattle.rh_text.specs.Input.{ReadsAll, ReadsPast};

use crate::io_log::{IoLog, is_interrupted};
use rh_layout::limits::MAX_INPUT_BYTES;
use std::alloc::Allocator;
use std::io;
use thiserror::Error;

/// The bytes that are asked of a reader at once.
const CHUNK: usize = 65_536;

/// Why an input could not be read whole.
#[derive(Clone, Copy, Debug, PartialEq, Eq, Error)]
pub enum InputFault {
    /// A read failed, or as many as may be made didn't come to the end: 33,554,432 of a trace or a
    /// history, 536,870,912 of a dump.
    #[error("read failed")]
    Read,
    /// The input has more than 16,777,216 bytes; never of an input that is read past a limit.
    #[error("too long")]
    Long,
    /// The allocator refused memory for the bytes.
    #[error("out of memory")]
    OutOfMemory,
}

/// Puts bytes after those that were read.
fn keep<A: Allocator>(text: &mut Vec<u8, A>, bytes: &[u8]) -> Result<(), InputFault>
    ensures ok { OnOk result (text.new.items ≡ text.old.items ++ bytes.now) }
    ensures few { OnOk result (length text.new.items ≤ MAX_INPUT_BYTES) }
    ensures long { IsErrOf result InputFault.Long
        → MAX_INPUT_BYTES < length text.old.items + length bytes.now }
    ensures refused { IsErrOf result InputFault.OutOfMemory
        → length text.old.items + length bytes.now ≤ MAX_INPUT_BYTES }
    ensures never_read { ¬ IsErrOf result InputFault.Read }
{
    if bytes.len() > MAX_INPUT_BYTES {
        return Err(InputFault::Long);
    }
    if text.len() > MAX_INPUT_BYTES - bytes.len() {
        return Err(InputFault::Long);
    }
    if text.extend_from_slice(bytes).is_err() {
        return Err(InputFault::OutOfMemory);
    }
    Ok(())
}

/// Reads all that a reader has, at most 16,777,216 bytes. A read that was interrupted is made
/// again, and counts.
///
/// # Errors
///
/// `Long` where the reader gave more bytes; else `Read` where a read failed, or no more may be made
/// and none came to the end, and `OutOfMemory` where the allocator refused memory for the bytes.
pub fn read_all<A: Allocator + Copy, R: io::Read>(
    alloc: A,
    reader: &mut R,
    reads: &mut IoLog,
) -> Result<Vec<u8, A>, InputFault>
    requires { reads.old.failed ≡ false }
    ensures bytes { ReadsAll (R.remaining reader.old) (R.remaining reader.new) (λ v. v.items)
        result }
    // Read is answered only where a read failed or none was left, and no read failed where it
    // isn't.
    ensures failed { IsErrOf result InputFault.Read → AreSpent reads.new }
    ensures none_failed { ¬ IsErrOf result InputFault.Read → reads.new.failed ≡ false }
    // No read came to the end where Read is answered.
    ensures not_ended { IsErrOf result InputFault.Read → reads.new.ended ≡ reads.old.ended }
    // Each read that was made took one of those that were left.
    ensures counted { CountsDown reads.old.left reads.old reads.new }
{
    let mut text = Vec::new(alloc);
    let mut chunk = [0; CHUNK];
    while reads.left() > 0 {
        match reads.read(reader, &mut chunk) {
            Ok(0) => return Ok(text),
            Ok(n) => keep(&mut text, &chunk[..n])?,
            Err(error) => {
                if !is_interrupted(&error) {
                    return Err(InputFault::Read);
                }
            }
        }
    }
    Err(InputFault::Read)
}

/// Reads all that a reader has, or more than `limit` bytes of it, at most 65,536 more. A read that
/// was interrupted is made again, and counts.
///
/// # Errors
///
/// `Read` where, before the limit was passed, a read failed, or no more may be made and none came
/// to the end; `OutOfMemory` where the allocator refused memory for the bytes. Never `Long`.
pub fn read_past<A: Allocator + Copy, R: io::Read>(
    alloc: A,
    reader: &mut R,
    reads: &mut IoLog,
    limit: usize,
) -> Result<Vec<u8, A>, InputFault>
    requires { reads.old.failed ≡ false }
    ensures bytes { ReadsPast limit (R.remaining reader.old) (R.remaining reader.new)
        (λ v. v.items) result }
    ensures few { IfOk result (λ text. length text.items ≤ limit + 65536) }
    ensures never_long { ¬ IsErrOf result InputFault.Long }
    // As of `read_all`.
    ensures failed { IsErrOf result InputFault.Read → AreSpent reads.new }
    ensures none_failed { ¬ IsErrOf result InputFault.Read → reads.new.failed ≡ false }
    ensures not_ended { IsErrOf result InputFault.Read → reads.new.ended ≡ reads.old.ended }
    ensures counted { CountsDown reads.old.left reads.old reads.new }
{
    let mut text: Vec<u8, A> = Vec::new(alloc);
    let mut chunk = [0; CHUNK];
    while reads.left() > 0 {
        match reads.read(reader, &mut chunk) {
            Ok(0) => return Ok(text),
            Ok(n) => {
                if text.extend_from_slice(&chunk[..n]).is_err() {
                    return Err(InputFault::OutOfMemory);
                }
                if text.len() > limit {
                    return Ok(text);
                }
            }
            Err(error) => {
                if is_interrupted(&error) {
                    continue;
                }
                return Err(InputFault::Read);
            }
        }
    }
    Err(InputFault::Read)
}
