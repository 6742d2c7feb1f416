//! How often resizes and releases came to each end.

use crate::account::Account;
use crate::numbers::count_at;
use rh_core::{ReleaseError, ResizeError};

/// How often resizes and releases came to each end.
#[derive(Drop)]
pub struct Resizes {
    /// Resizes that were accepted: to more words, to fewer, to a higher limit, to a lower one. First
    /// those outside cycles, then those in one.
    pub accepted: [u64; 8],
    /// Resizes that were refused, in the order of the refusals.
    pub refused: [u64; 4],
    /// Releases that were made, and those that were refused in a cycle.
    pub releases: [u64; 2],
    /// Resizes and releases to which memory was refused.
    pub out_of_memory: [u64; 2],
}

impl Resizes {
    /// None yet.
    pub fn none() -> Resizes {
        Resizes {
            accepted: [0; 8],
            refused: [0; 4],
            releases: [0; 2],
            out_of_memory: [0; 2],
        }
    }

    /// Counts how a resize ended, of a heap that this was the account of before.
    pub fn note(
        &mut self,
        account: &Account,
        words: u32,
        limit: u32,
        answer: Result<(), ResizeError>,
    ) {
        match answer {
            Ok(()) => self.note_accepted(account, words, limit),
            Err(ResizeError::BadSpace) => count_at(&mut self.refused, 0),
            Err(ResizeError::Used(_)) => count_at(&mut self.refused, 1),
            Err(ResizeError::BadLog) => count_at(&mut self.refused, 2),
            Err(ResizeError::Entries(_)) => count_at(&mut self.refused, 3),
            Err(ResizeError::OutOfMemory) => count_at(&mut self.out_of_memory, 0),
        }
    }

    /// Counts a resize that was accepted.
    fn note_accepted(&mut self, account: &Account, words: u32, limit: u32) {
        let first = if account.on { 4 } else { 0 };
        if words > account.words {
            count_at(&mut self.accepted, first);
        }
        if words < account.words {
            count_at(&mut self.accepted, first + 1);
        }
        if limit > account.limit {
            count_at(&mut self.accepted, first + 2);
        }
        if limit < account.limit {
            count_at(&mut self.accepted, first + 3);
        }
    }

    /// Counts how a release ended.
    pub fn note_release(&mut self, answer: Result<(), ReleaseError>) {
        match answer {
            Ok(()) => count_at(&mut self.releases, 0),
            Err(ReleaseError::CycleOn) => count_at(&mut self.releases, 1),
            Err(ReleaseError::OutOfMemory) => count_at(&mut self.out_of_memory, 1),
        }
    }
}
