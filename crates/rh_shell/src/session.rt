//! The state of a session between two lines: its heap, what its answers add up to, its next line.

ghost use Rattle.std.specs.Prelude.{◌≡◌};
ghost use Rattle.rh_shell.specs.Session.{IsCounted, new_session};

use crate::playing::Playing;
use rh_trace::Summary;
use std::alloc::Allocator;
use std::marker::Model;

/// What stands of a session between two lines.
#[derive(Drop)]
pub(crate) struct Session<A: Allocator + Copy> {
    /// The heap; `None` until its line was taken.
    pub playing: Option<Playing<A>>,
    /// What the answers add up to.
    pub summary: Summary,
    /// The number of the next line in the trace of the lines that were taken.
    pub number: u32,
}

impl<A: Allocator + Copy> Model for Session<A> {
    ghost use Rattle.rh_shell.specs.Session.{SessionState};

    ghost Value = { SessionState };

    ghost view = { λ s. record { playing = s.playing; summary = s.summary; number = s.number } };
}

impl<A: Allocator + Copy> Session<A> {
    /// A session before its first line.
    pub fn new() -> Self
        ensures value { result ≡ new_session }
        ensures counted { IsCounted result }
    {
        Session {
            playing: None,
            summary: Summary {
                commands: 0,
                refused: 0,
                flips: 0,
                root_words: 0,
            },
            number: 1,
        }
    }
}
