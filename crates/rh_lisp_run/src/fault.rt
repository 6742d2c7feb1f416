//! Why a program isn't run, or what it printed isn't written.

use rh_core::ConfigFault;
use rh_lisp::Fault;
use rh_pace::PaceError;

/// Why a program isn't run, or what it printed isn't written. `Long`, `Text` and those of the heap
/// are faults of what is given, in this order. Nothing is written where one of them, `Read` or
/// `OutOfMemory` comes; after `Write` a prefix of the text may be written.
#[derive(Clone, Copy, Debug, PartialEq, Eq)]
pub enum LispFault {
    /// A read failed, or 33,554,432 reads didn't come to the end.
    Read,
    /// The text has more than 1,048,576 bytes.
    Long,
    /// The text is no program: its first fault, with its place.
    Text(Fault),
    /// A heap is to grow to more than 16,777,216 words.
    Limits,
    /// No pace keeps up in a heap of so many words.
    Pace(PaceError),
    /// No heap has so many words.
    Heap(ConfigFault),
    /// A write failed or took no byte, or the flush failed, or 33,554,432 writes didn't come to the
    /// end of the text.
    Write,
    /// The allocator refused memory.
    OutOfMemory,
}
