//! A space and its joint.

use rh_layout::{Item, Place, Value};
use rh_place::laws::from_space_goes_on;
use rh_place::{Joint, Placing};
use rh_space::Space;
use std::alloc::Global;
use std::marker::Model;

/// A space, and the joint to which it is the from-space.
#[derive(Drop)]
pub struct Spaces {
    space: Space,
    joint: Joint,
}

impl Model for Spaces {
    ghost use Rattle.rh_space.specs.Space.{SpaceState};
    ghost use Rattle.rh_place.specs.Joint.{JointState};
    ghost use Rattle.rh_place.specs.Mirrors.{Mirrors};

    ghost Value = { SpaceState × JointState };

    ghost view = { λ s. (s.space, s.joint) };

    ghost invariant = { λ s. Mirrors s.space s.joint };
}

impl Spaces {
    /// Two spaces of so many words, without an object; nothing where the words are out of range or
    /// memory was refused.
    pub fn new(alloc: Global, words: u32) -> Option<Spaces> {
        let space = Space::new(alloc, words).ok()?;
        let joint = Joint::new(alloc, words).ok()?;
        Some(Spaces { space, joint })
    }

    /// Makes an object of so many fields and answers its address, while there is room.
    pub fn make(&mut self, fields: u32) -> Option<u32> {
        if fields > rh_layout::limits::MAX_FIELDS {
            return None;
        }
        from_space_goes_on();
        self.space.bump(fields, false).ok()
    }

    /// Places the object at `a`, where there is one that isn't placed. Answers whether it did.
    pub fn place(&mut self, a: u32) -> bool {
        self.space.is_object(a) && matches!(self.joint.place(&mut self.space, a), Placing::Placed)
    }

    /// Holds a reference to the object itself in the next field that wasn't dealt. Answers whether
    /// there was one.
    pub fn hold_next(&mut self) -> bool {
        let Some(Place { object, field }) = self.joint.next(&self.space) else {
            return false;
        };
        self.joint.accept(
            &self.space,
            Item {
                object,
                field,
                number: 0,
                value: Value::Ref(object),
            },
        );
        true
    }

    /// Exchanges the spaces, where nothing is missing. Answers whether it did.
    pub fn exchange(&mut self) -> bool {
        if self.joint.missing() > 0 {
            return false;
        }
        self.joint.exchange(&mut self.space);
        true
    }
}
