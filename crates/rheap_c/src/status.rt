//! The statuses that calls return: 0, a refusal's number from 1 to 10, or one of the calls from C
//! alone.

ghost use Rattle.std.specs.Prelude.{◌≡◌};
ghost use Rattle.rheap_c.specs.Told.{status_of};

use rh_layout::{Refusal, Reply};

/// The call was done.
pub const DONE: u8 = 0;

/// The epoch is the last one, so nothing can be collected any more.
pub const EPOCHS_SPENT: u8 = 11;

/// The handle holds no heap.
pub const NOT_OPEN: u8 = 12;

/// The handle holds a heap already.
pub const IS_OPEN: u8 = 13;

/// At these sizes no pace keeps up.
pub const NO_PACE: u8 = 14;

/// A size is out of its range.
pub const BAD_SIZES: u8 = 15;

/// Memory was refused.
pub const NO_MEMORY: u8 = 16;

/// No ticket is free.
pub const WATCHES_FULL: u8 = 17;

/// The ticket watches no object: it isn't there, it is free, or its object is gone.
pub const NOT_WATCHED: u8 = 18;

/// A heap may not have so many tickets.
pub const TICKETS_RANGE: u8 = 19;

/// A value is of a kind that there isn't.
pub const BAD_KIND: u8 = 20;

/// The factor of a growth is out of its range, or a limit of its words is.
pub const BAD_GROWTH: u8 = 21;

/// The buffer has no room for the text.
pub const TOO_LONG: u8 = 22;

/// A cycle is on.
pub const CYCLE_ON: u8 = 23;

/// What is in use doesn't fit into the words that a heap is to have, or into its log.
pub const IN_USE: u8 = 24;

/// The heap grows, and chooses its own words.
pub const GROWS: u8 = 25;

/// The number of the refusal `FieldsRange`.
pub(crate) const FIELDS_RANGE: u8 = 7;

/// The status of what a heap answered: 0, or the number of the refusal.
#[inline(always)]
pub fn answer_status(told: &Result<Reply, Refusal>) -> u8
    ensures { result ≡ status_of told.now }
{
    match told {
        Ok(_) => DONE,
        Err(refusal) => refusal.number(),
    }
}
