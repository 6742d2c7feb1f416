//! What tests ask of a heap, and what they compare of it.

use rh_layout::{Command, Reply, RootId};
use rh_replay::{Verdict, check};
use rh_shared::{CallError, Did, Kept};

pub const A: RootId = RootId { owner: 1, slot: 0 };

pub const B: RootId = RootId { owner: 1, slot: 1 };

pub const ALLOC_ONE: Command = Command::Alloc { dst: A, fields: 1 };

pub const ALLOC_TWO: Command = Command::Alloc { dst: A, fields: 2 };

pub const ALLOC_NONE: Command = Command::Alloc { dst: B, fields: 0 };

pub const SAME: Command = Command::Same { a: A, b: B };

pub const DROP: Command = Command::Drop { root: A };

/// What a call is answered.
pub type Answer = Result<Reply, CallError>;

pub const DONE: Answer = Ok(Reply::Done);

pub const NO_FIELDS: Answer = Ok(Reply::Object(0));

pub const ONE_FIELD: Answer = Ok(Reply::Object(1));

pub const TWO_FIELDS: Answer = Ok(Reply::Object(2));

pub const NOT_SAME: Answer = Ok(Reply::Same(false));

/// What an increment does in which nothing happens.
pub const NOTHING: Did = Did {
    began: false,
    shaded: 0,
    given: 0,
    dropped: 0,
    dealt: 0,
    flipped: false,
    recalled: false,
};

/// A cycle begins.
pub const BEGAN: Did = Did {
    began: true,
    ..NOTHING
};

/// A piece is dealt, folded in place and given, and the cycle ends.
pub const FLIPPED: Did = Did {
    given: 1,
    dealt: 1,
    flipped: true,
    ..NOTHING
};

/// The words that are used, the epoch, whether a cycle is on, and the flips; the units granted and
/// spent, the words of roots, and the fields that are missing; and how many calls were noted, if
/// they are legal.
pub type Numbers = ((u64, u64, bool, u64), (u64, u64, u128, u64), Option<u32>);

/// These numbers.
pub fn numbers_of<R: AllocGlobal>(rt: &R, kept: &Kept) -> Numbers {
    let stat = kept.heap().stat();
    let legal = match check(rt.alloc(), kept.history()) {
        Ok(Verdict::Legal(calls)) => Some(calls),
        _ => None,
    };
    (
        (stat.used, stat.epoch, stat.cycle, stat.flips),
        (stat.granted, stat.spent, stat.root_words, stat.missing),
        legal,
    )
}
