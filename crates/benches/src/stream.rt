//! Plays a stream of operations, read from standard input, on a heap that collects by itself, and
//! tells how long its batches took: what `bench/stream` times.
//!
//! A stream is 16 numbers of 8 bytes, least byte first, of which the third is the operations, the
//! fifth the checksum of the answers and the seventh the words of the greatest live set, and then 4
//! bytes an operation: its kind and three numbers.

use crate::latency::{Latency, now};
use crate::setting::Setting;
use rh_layout::{Operand, Refusal, Reply, RootId};
use rh_pace::PacedHeap;
use std::alloc::Global;
use std::io::{Input, Read};
use std::rt::Clock;
use std::time::CpuClock;

/// The owner whose roots the stream names, and its slots.
const OWNER: u32 = 1;

const SLOTS: u32 = 64;

/// The bytes of an operation, of a batch of 16 and of the head.
const OPERATION_BYTES: usize = 4;

const BATCH_BYTES: usize = 64;

const HEAD_BYTES: usize = 128;

/// What the last pass over a stream came to.
#[derive(Clone, Copy)]
struct Played {
    nanoseconds: u64,
    processor: u64,
    cycles: u64,
    sum: u64,
}

/// The number of the head at this place; nothing where the head is too short.
fn head_number(bytes: &[u8], place: usize) -> Option<u64> {
    let mut number = 0u64;
    for byte in bytes.chunks(8).nth(place)?.iter().rev() {
        number = number << 8 | u64::from(*byte);
    }
    Some(number)
}

/// A root of the stream's owner.
fn root(slot: u8) -> RootId {
    RootId {
        owner: OWNER,
        slot: slot.into(),
    }
}

/// The number that a byte stands for, from -128 on.
fn number(byte: u8) -> i64 {
    i64::from(byte) - if byte < 128 { 0 } else { 256 }
}

/// What an answer adds to the checksum.
#[inline]
fn code_of(reply: Reply) -> u64 {
    match reply {
        Reply::Done | Reply::Nil => 0,
        Reply::Int(number) => u64::try_from(number.wrapping_add(512)).unwrap_or(0),
        Reply::Object(fields) | Reply::Raw(fields) => fields.into(),
        Reply::Same(is_same) => 1024 + u64::from(is_same),
    }
}

/// The checksum with an answer more.
#[inline]
fn with_answer(sum: u64, reply: Reply) -> u64 {
    sum.wrapping_mul(1_000_003).wrapping_add(code_of(reply)) & 0xffff_ffff
}

/// Plays one operation. Answers the checksum with its answer.
#[inline]
fn play_one(heap: &mut PacedHeap, operation: &[u8], sum: u64) -> Result<u64, Refusal> {
    let &[kind, a, b, c] = operation else {
        return Ok(sum);
    };
    match kind {
        0 => heap.alloc(OWNER, root(a), b.into())?,
        1 => return Ok(with_answer(sum, heap.load(OWNER, root(a), root(b), c.into())?)),
        2 => heap.store(OWNER, root(a), b.into(), Operand::Nil)?,
        3 => heap.store(OWNER, root(a), b.into(), Operand::Int(number(c)))?,
        4 => heap.store(OWNER, root(a), b.into(), Operand::Root(root(c)))?,
        5 => return Ok(with_answer(sum, heap.copy(OWNER, root(a), root(b))?)),
        6 => return Ok(with_answer(sum, heap.same(OWNER, root(a), root(b))?)),
        _ => heap.drop(OWNER, root(a))?,
    };
    Ok(sum)
}

/// Plays the operations of a batch. Answers the checksum with their answers; nothing where one was
/// refused.
#[inline(never)]
fn play_batch(heap: &mut PacedHeap, batch: &[u8], sum: u64) -> Option<u64> {
    let mut sum = sum;
    for operation in batch.chunks_exact(OPERATION_BYTES) {
        sum = play_one(heap, operation, sum).ok()?;
    }
    Some(sum)
}

/// Drops all roots of the stream; nothing where one was refused.
fn clear(heap: &mut PacedHeap) -> Option<()> {
    for slot in 0..SLOTS {
        heap.drop(OWNER, RootId { owner: OWNER, slot }).ok()?;
    }
    Some(())
}

/// Plays all operations once, with each batch noted. Answers what it came to; nothing where one was
/// refused or a clock failed.
fn play(
    rt: &(impl Clock + CpuClock),
    heap: &mut PacedHeap,
    operations: &[u8],
    latency: &mut Latency,
) -> Option<Played> {
    clear(heap)?;
    let cycles = heap.stat().flips;
    let processor = rt.process_cpu_time().ok()?;
    let began = now(rt)?;
    let (mut last, mut sum) = (began, 0);
    for batch in operations.chunks(BATCH_BYTES) {
        sum = play_batch(heap, batch, sum)?;
        let now = now(rt)?;
        latency.note(now.saturating_sub(last));
        last = now;
    }
    let used = rt.process_cpu_time().ok()?.checked_sub(processor)?;
    Some(Played {
        nanoseconds: last.saturating_sub(began),
        processor: u64::try_from(used.as_nanos()).ok()?,
        cycles: heap.stat().flips.wrapping_sub(cycles),
        sum,
    })
}

/// A heap for the stream of this head: its greatest live set times the headroom; nothing where no
/// pace keeps up or memory was refused.
fn heap_for(alloc: Global, head: &[u8], setting: Setting) -> Option<PacedHeap> {
    let words = u32::try_from(head_number(head, 6)?)
        .ok()?
        .checked_mul(setting.headroom)?;
    let pace = setting.pace(words)?;
    PacedHeap::new(alloc, pace.config(words, setting.ratio, 2, SLOTS), pace).ok()
}

/// Plays the stream on standard input, and prints what its last pass came to; nothing where it
/// failed, or the answers aren't those of the head.
pub fn run(
    rt: &(impl Print + Input + Clock + CpuClock + AllocGlobal),
    setting: Setting,
) -> Option<()> {
    let mut bytes = Vec::new(rt.alloc());
    rt.reader().read_to_end(&mut bytes).ok()?;
    play_stream(rt, &bytes, setting)
}

/// Plays the stream of these bytes, and prints what its last pass came to; nothing where it failed,
/// or the answers aren't those of the head.
fn play_stream(
    rt: &(impl Print + Clock + CpuClock + AllocGlobal),
    bytes: &[u8],
    setting: Setting,
) -> Option<()> {
    let (head, operations) = bytes.split_at_checked(HEAD_BYTES)?;
    let sum = head_number(head, 4)?;
    let mut heap = heap_for(rt.alloc(), head, setting)?;
    for _ in 1..setting.passes {
        play_pass(rt, &mut heap, operations, None, sum)?;
    }
    play_pass(rt, &mut heap, operations, Some(setting), sum)
}

/// Plays all operations once, and prints what that came to where a setting is to be told; nothing
/// where it failed, or the checksum of the answers that are told is another one.
fn play_pass(
    rt: &(impl Print + Clock + CpuClock + AllocGlobal),
    heap: &mut PacedHeap,
    operations: &[u8],
    told: Option<Setting>,
    sum: u64,
) -> Option<()> {
    let mut latency = Latency::new(rt.alloc())?;
    let played = play(rt, heap, operations, &mut latency)?;
    match told {
        Some(setting) if played.sum == sum => tell(
            rt,
            setting,
            operations.len() / OPERATION_BYTES,
            &played,
            &latency,
        ),
        Some(_) => None,
        None => Some(()),
    }
}

/// Prints what a pass came to.
fn tell(
    rt: &impl Print,
    setting: Setting,
    operations: usize,
    played: &Played,
    latency: &Latency,
) -> Option<()> {
    let Setting {
        headroom,
        passes,
        ..
    } = setting;
    let Played {
        nanoseconds,
        processor,
        cycles,
        sum,
    } = *played;
    let (longest, most) = (latency.longest(), latency.within(999_900));
    let half = latency.within(500_000);
    println!(rt;
        "headroom {headroom} passes {passes} operations {operations} checksum {sum}"
    ).ok()?;
    println!(rt; "nanoseconds {nanoseconds} processor {processor} cycles {cycles}").ok()?;
    println!(rt; "longest {longest} p9999 {most} p50 {half}").ok()
}
