//! What the lines of a trace ask.

use crate::tray_name::TrayName;
use rh_layout::{Command, Kind, RootId};

/// What a line of a trace after the first asks. A trace is read as requests, kept, printed and
/// played as them.
#[derive(Clone, Copy, Debug, PartialEq, Eq)]
pub enum Request {
    /// An owner's command.
    Command {
        /// Whose command it is.
        owner: u32,
        /// Which command.
        command: Command,
    },
    /// A cycle begins.
    Begin,
    /// What a root refers to is placed.
    Shade {
        /// The root.
        root: RootId,
    },
    /// A piece is dealt, and folded into a tray.
    Deal {
        /// Whether copies of fields are dealt, or entries of the log.
        kind: Kind,
        /// The most items of the piece.
        most: u32,
        /// The name of the tray.
        tray: TrayName,
    },
    /// The partial replica in a tray is given to the heap, and stays in the tray.
    Give {
        /// The name of the tray.
        tray: TrayName,
    },
    /// A tray is joined into another.
    Join {
        /// The name of the tray that takes the other in.
        into: TrayName,
        /// The name of the other.
        other: TrayName,
    },
    /// The roots are moved to the replica.
    Flip,
    /// All that was dealt is undealt again; the cycle goes on in the next epoch.
    Recall,
    /// The cycle ends without a flip.
    Abandon,
    /// The collector has so many idle words more in this cycle, a unit each.
    Idle {
        /// How many words.
        words: u32,
    },
    /// Both spaces have so many words from then on.
    Resize {
        /// How many words.
        words: u32,
    },
    /// The heap has room for so many tickets from then on.
    Tickets {
        /// How many tickets.
        tickets: u32,
    },
    /// A ticket watches the object that a root holds.
    Watch {
        /// Whose root it is.
        owner: u32,
        /// The root.
        root: RootId,
    },
    /// A ticket watches no object from then on.
    Unwatch {
        /// The number of the ticket.
        ticket: u32,
    },
    /// The tickets whose objects are gone and that weren't told yet.
    Gone,
    /// The trays, each with its name, its epoch and how many entries it has.
    Trays,
    /// The numbers of the heap.
    Stat,
    /// The dump of what the roots reach.
    Dump,
}
