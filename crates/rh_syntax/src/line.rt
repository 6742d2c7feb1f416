//! The lines of a trace.

ghost use Rattle.std.specs.Prelude.{◌≡◌};
ghost use Rattle.rh_syntax.specs.Line.{line_of};
ghost use Rattle.rh_syntax.specs.declared.request.Request.TheVariants as requests;

use crate::request::Request;
use crate::tray_name::TrayName;
use rh_layout::{Command, Kind, Operand, RootId};

/// The numbers of a trace's first line, `heap WORDS RATIO LOG OWNERS SLOTS`.
#[derive(Clone, Copy, Debug, PartialEq, Eq)]
pub struct Header {
    /// The words of one space.
    pub words: u32,
    /// How many units of collector work each allocated word grants.
    pub ratio: u32,
    /// The most entries that the mutation log keeps.
    pub log: u32,
    /// How many owners of roots there are.
    pub owners: u32,
    /// How many slots each owner has.
    pub slots: u32,
}

/// A line of a trace after the first: a request, with one variant for each keyword.
#[derive(Clone, Copy, Debug, PartialEq, Eq)]
pub enum Line {
    /// `OWNER alloc ROOT FIELDS`: the root `dst` names a new object of so many fields.
    Alloc {
        /// Whose command it is.
        owner: u32,
        /// The root that names the new object.
        dst: RootId,
        /// How many fields the object has.
        fields: u32,
    },
    /// `OWNER raw ROOT FIELDS`: the root `dst` names a new raw object of so many fields.
    Raw {
        /// Whose command it is.
        owner: u32,
        /// The root that names the new object.
        dst: RootId,
        /// How many fields the object has.
        fields: u32,
    },
    /// `OWNER load DST SRC FIELD`: the root `dst` takes the value of a field of the object that
    /// `src` names.
    Load {
        /// Whose command it is.
        owner: u32,
        /// The root that takes the value.
        dst: RootId,
        /// The root that names the object.
        src: RootId,
        /// The field, from 0.
        field: u32,
    },
    /// `OWNER store OBJ FIELD OPERAND`: a field of the object that `obj` names takes the operand's
    /// value.
    Store {
        /// Whose command it is.
        owner: u32,
        /// The root that names the object.
        obj: RootId,
        /// The field, from 0.
        field: u32,
        /// Where the value comes from.
        operand: Operand,
    },
    /// `OWNER copy DST SRC`: the root `dst` takes the value that `src` holds.
    Copy {
        /// Whose command it is.
        owner: u32,
        /// The root that takes the value.
        dst: RootId,
        /// The root that holds it.
        src: RootId,
    },
    /// `OWNER same A B`: whether two roots hold equal values.
    Same {
        /// Whose command it is.
        owner: u32,
        /// One root.
        a: RootId,
        /// The other.
        b: RootId,
    },
    /// `OWNER drop ROOT`: the root becomes nil.
    Drop {
        /// Whose command it is.
        owner: u32,
        /// The root.
        root: RootId,
    },
    /// `begin`: a cycle begins.
    Begin,
    /// `shade ROOT`: what the root refers to is placed.
    Shade {
        /// The root.
        root: RootId,
    },
    /// `deal copies MOST TRAY` or `deal entries MOST TRAY`: a piece is dealt, and folded into the
    /// tray.
    Deal {
        /// Whether copies of fields are dealt, or entries of the log.
        kind: Kind,
        /// The most items of the piece.
        most: u32,
        /// The name of the tray.
        tray: TrayName,
    },
    /// `give TRAY`: the partial replica in the tray is given to the heap, and stays in the tray.
    Give {
        /// The name of the tray.
        tray: TrayName,
    },
    /// `join TRAY TRAY`: the second tray is joined into the first.
    Join {
        /// The name of the first tray.
        into: TrayName,
        /// The name of the second.
        other: TrayName,
    },
    /// `flip`: the roots are moved to the replica.
    Flip,
    /// `recall`: all that was dealt is undealt again; the cycle goes on in the next epoch.
    Recall,
    /// `abandon`: the cycle ends without a flip.
    Abandon,
    /// `idle N`: the collector has so many idle words more in this cycle, a unit each.
    Idle {
        /// How many words.
        words: u32,
    },
    /// `resize WORDS`: both spaces have so many words from then on.
    Resize {
        /// How many words.
        words: u32,
    },
    /// `tickets N`: the heap has room for so many tickets from then on.
    Tickets {
        /// How many tickets.
        tickets: u32,
    },
    /// `OWNER watch ROOT`: a ticket watches the object that the root holds.
    Watch {
        /// Whose line it is.
        owner: u32,
        /// The root.
        root: RootId,
    },
    /// `unwatch T`: the ticket watches no object from then on.
    Unwatch {
        /// The number of the ticket.
        ticket: u32,
    },
    /// `gone`: the tickets whose objects are gone and that weren't told yet.
    Gone,
    /// `trays`: the trays, each with its name, its epoch and how many entries it has.
    Trays,
    /// `stat`: the numbers of the heap.
    Stat,
    /// `dump`: the dump of what the roots reach.
    Dump,
}

impl Line {
    /// The line of a request.
    #[inline(always)]
    pub fn of(request: &Request) -> Line
        ensures { result ≡ line_of request.now }
    {
        match *request {
            Request::Command { owner, command } => command_line(owner, command),
            Request::Begin => Line::Begin,
            Request::Shade { root } => Line::Shade { root },
            Request::Deal { kind, most, tray } => Line::Deal { kind, most, tray },
            Request::Give { tray } => Line::Give { tray },
            Request::Join { into, other } => Line::Join { into, other },
            Request::Flip => Line::Flip,
            Request::Recall => Line::Recall,
            Request::Abandon => Line::Abandon,
            Request::Idle { words } => Line::Idle { words },
            Request::Resize { words } => Line::Resize { words },
            Request::Tickets { tickets } => Line::Tickets { tickets },
            Request::Watch { owner, root } => Line::Watch { owner, root },
            Request::Unwatch { ticket } => Line::Unwatch { ticket },
            Request::Gone => Line::Gone,
            Request::Trays => Line::Trays,
            Request::Stat => Line::Stat,
            Request::Dump => Line::Dump,
        }
    }
}

/// The line of an owner's command.
fn command_line(owner: u32, command: Command) -> Line
    ensures { result ≡ line_of (requests.Command owner command) }
{
    match command {
        Command::Alloc { dst, fields } => Line::Alloc { owner, dst, fields },
        Command::Raw { dst, fields } => Line::Raw { owner, dst, fields },
        Command::Load { dst, src, field } => Line::Load {
            owner,
            dst,
            src,
            field,
        },
        Command::Store {
            obj,
            field,
            operand,
        } => Line::Store {
            owner,
            obj,
            field,
            operand,
        },
        Command::Copy { dst, src } => Line::Copy { owner, dst, src },
        Command::Same { a, b } => Line::Same { owner, a, b },
        Command::Drop { root } => Line::Drop { owner, root },
    }
}
