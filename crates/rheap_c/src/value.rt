//! Roots and values as they cross to C.

ghost use Rattle.std.specs.Prelude.{◌≡◌};
ghost use Rattle.rheap_c.specs.Told.{no_value, root_of, same_told, told_value, value_of_reply};

use rh_layout::{Refusal, Reply, RootId};

/// Nil.
pub const NIL: u32 = 0;

/// A whole number.
pub const NUMBER: u32 = 1;

/// A reference to an object that isn't raw.
pub const OBJECT: u32 = 2;

/// A reference to a raw object.
pub const RAW: u32 = 3;

/// A root: a slot of an owner, both counted from 0.
#[repr(C)]
#[derive(Clone, Copy)]
pub struct RheapRoot {
    /// The owner.
    pub owner: u32,
    /// The slot of this owner.
    pub slot: u32,
}

impl RheapRoot {
    /// The root as the heap names it.
    #[inline(always)]
    pub(crate) fn id(self) -> RootId
        ensures { result ≡ root_of self }
    {
        RootId {
            owner: self.owner,
            slot: self.slot,
        }
    }
}

/// What a root or a field holds.
#[repr(C)]
#[derive(Clone, Copy)]
pub struct RheapValue {
    /// `NIL`, `NUMBER`, `OBJECT` or `RAW`.
    pub kind: u32,
    /// How many fields the object has; 0 where the value is no reference.
    pub fields: u32,
    /// The number; 0 where the value is none.
    pub number: i64,
}

impl RheapValue {
    /// The value nil.
    #[inline(always)]
    pub(crate) fn nil() -> RheapValue
        ensures { result ≡ no_value }
    {
        RheapValue {
            kind: NIL,
            fields: 0,
            number: 0,
        }
    }

    /// The value that a heap answered with: nil where it refused the command, or answered none.
    #[inline(always)]
    pub(crate) fn told(told: &Result<Reply, Refusal>) -> RheapValue
        ensures { result ≡ told_value told.now }
    {
        match told {
            Ok(reply) => RheapValue::of(*reply),
            Err(_) => RheapValue::nil(),
        }
    }

    /// The value of a reply: nil where it has none.
    #[inline(always)]
    pub(crate) fn of(reply: Reply) -> RheapValue
        ensures { result ≡ value_of_reply reply }
    {
        match reply {
            Reply::Int(number) => RheapValue {
                kind: NUMBER,
                fields: 0,
                number,
            },
            Reply::Object(fields) => RheapValue {
                kind: OBJECT,
                fields,
                number: 0,
            },
            Reply::Raw(fields) => RheapValue {
                kind: RAW,
                fields,
                number: 0,
            },
            Reply::Done | Reply::Nil | Reply::Same(_) => RheapValue::nil(),
        }
    }
}

/// 1 where the answer is that two values are equal, and else 0.
#[inline(always)]
pub(crate) fn sameness(told: &Result<Reply, Refusal>) -> u8
    ensures { result ≡ same_told told.now }
{
    match told {
        Ok(Reply::Same(true)) => 1,
        _ => 0,
    }
}
