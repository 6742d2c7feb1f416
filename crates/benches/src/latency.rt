//! How long calls, or batches of calls, took: in buckets of 1.6 percent.

use std::alloc::Global;
use std::rt::Clock;

/// How many buckets there are: 64 for the times below 64 nanoseconds, and 64 for each power of two.
const BUCKETS: usize = 4096;

/// The nanoseconds that the clock shows; nothing where it failed.
#[inline]
pub fn now(rt: &impl Clock) -> Option<u64> {
    let time = rt.monotonic().ok()?;
    let seconds = time.as_secs().wrapping_mul(1_000_000_000);
    Some(seconds.wrapping_add(time.subsec_nanos().into()))
}

/// How long batches took.
#[derive(Drop)]
pub struct Latency {
    buckets: Vec<u64>,
    batches: u64,
    longest: u64,
}

impl Latency {
    /// No batch; nothing where memory was refused.
    pub fn new(alloc: Global) -> Option<Latency> {
        let mut buckets = Vec::new(alloc);
        buckets.resize(BUCKETS, 0).ok()?;
        Some(Latency {
            buckets,
            batches: 0,
            longest: 0,
        })
    }

    /// A batch that took so many nanoseconds.
    pub fn note(&mut self, nanoseconds: u64) {
        if let Some(bucket) = self.buckets.get_mut(bucket_of(nanoseconds)) {
            *bucket = bucket.wrapping_add(1);
        }
        self.batches = self.batches.wrapping_add(1);
        self.longest = self.longest.max(nanoseconds);
    }

    /// How many batches there were.
    pub fn batches(&self) -> u64 {
        self.batches
    }

    /// The nanoseconds of the longest batch.
    pub fn longest(&self) -> u64 {
        self.longest
    }

    /// The nanoseconds within which so many of a million batches end: the most of the bucket of the
    /// longest of these.
    pub fn within(&self, millionths: u64) -> u64 {
        let rank = (self.batches / 1_000).wrapping_mul(millionths) / 1_000;
        let mut batches = 0u64;
        for (bucket, count) in self.buckets.iter().enumerate() {
            batches = batches.wrapping_add(*count);
            if batches > rank {
                let most = least_of((bucket as u64).wrapping_add(1)).wrapping_sub(1);
                return most.min(self.longest);
            }
        }
        self.longest
    }
}

/// The bucket of so many nanoseconds.
fn bucket_of(nanoseconds: u64) -> usize {
    if nanoseconds < 64 {
        return nanoseconds as usize;
    }
    let power = 58u32.saturating_sub(nanoseconds.leading_zeros());
    let step = nanoseconds.wrapping_shr(power.wrapping_sub(1)) & 63;
    power as usize * 64 + step as usize
}

/// The least nanoseconds of a bucket.
fn least_of(bucket: u64) -> u64 {
    if bucket < 64 {
        bucket
    } else {
        (64 + bucket % 64).wrapping_shl(u32::try_from(bucket / 64 - 1).unwrap_or(0))
    }
}
