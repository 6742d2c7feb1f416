//! Trays: partial replicas with names, in the order in which the names were first used.

ghost use Rattle.std.specs.Prelude.{◌≡◌, [], length, slice_get, OnOk, OnErr, IfOk, IsOk};
ghost use Rattle.std.specs.Option.{option_map};
ghost use Rattle.rh_engine.specs.Trays.{tray_named, trays_with, tray_or_empty, tray_of, tray_with, joined_trays, joined_into, join_step, with_join, is_beyond as is_beyond_in};

use indexmap::IndexMap;
use rh_layout::OutOfMemory;
use rh_partial::{PartialReplica, Piece};
use rh_syntax::TrayName;
use std::alloc::Allocator;
use std::hash::{BuildHasherDefault, FoldHasher};
use std::marker::Model;
use std::mem;
use thiserror::Error;

/// The most trays of a trace.
const MAX_TRAYS: usize = 64;

/// Why no tray was joined into another.
#[derive(Clone, Copy, Debug, PartialEq, Eq, Error)]
pub enum JoinRefusal {
    /// There is no tray of the second name.
    #[error("NoTray")]
    NoTray,
    /// There is no tray of the first name, and there are 64 others.
    #[error("TooManyTrays")]
    TooManyTrays,
}

/// The trays of a trace, in the order in which their names were first used.
///
/// Contracts see the names and, for each, the epoch and the entries.
#[derive(Drop)]
pub struct Trays<A: Allocator + Copy> {
    alloc: A,
    replicas: IndexMap<TrayName, PartialReplica<A>, BuildHasherDefault<FoldHasher>, A>,
}

impl<A: Allocator + Copy> Model for Trays<A> {
    ghost use Rattle.rh_engine.specs.Trays.{Trays as TraysOf, named_trays};

    ghost Value = { TraysOf };

    ghost view = { λ t. named_trays t.replicas.entries };
}

impl<A: Allocator + Copy> Trays<A> {
    /// No trays. They will take their memory from `alloc`.
    pub fn new(alloc: A) -> Self
        ensures { result ≡ [] }
    {
        Trays {
            alloc,
            replicas: IndexMap::new(alloc),
        }
    }

    /// How many trays there are.
    pub fn len(&self) -> usize
        ensures { result ≡ length self.now }
    {
        self.replicas.len()
    }

    /// The name and the replica of the tray that was first used after `i` others.
    pub fn tray(&self, i: usize) -> Option<(TrayName, &PartialReplica<A>)>
        ensures { option_map (λ t. (t.0, tray_of t.1.now)) result ≡ slice_get self.now i }
    {
        match self.replicas.get_index(i) {
            Some((name, replica)) => Some((*name, replica)),
            None => None,
        }
    }

    /// The replica in the tray of this name.
    pub fn get(&self, name: TrayName) -> Option<&PartialReplica<A>>
        ensures { option_map (λ r. tray_of r.now) result ≡ tray_named self.now name }
    {
        self.replicas.get(&name)
    }

    /// Whether a tray of this name would be one too many.
    pub(crate) fn is_beyond(&self, name: TrayName) -> bool
        ensures { result ≡ is_beyond_in self.now name }
    {
        self.len() >= MAX_TRAYS && self.get(name).is_none()
    }

    /// The tray of this name takes a replica in place of what it had. Nothing has changed where a
    /// growth was refused.
    fn put(&mut self, name: TrayName, replica: PartialReplica<A>) -> Result<(), OutOfMemory>
        ensures put { OnOk result (self.new ≡ trays_with self.old name (tray_of replica)) }
        ensures unchanged { OnErr result (self.new ≡ self.old) }
    {
        match self.replicas.insert(name, replica) {
            Ok(_) => Ok(()),
            Err(_) => Err(OutOfMemory),
        }
    }

    /// Folds a piece into the tray of this name, which is made where it isn't there, and must else
    /// be of the piece's epoch. Nothing has changed where a growth was refused.
    pub(crate) fn fold_piece(&mut self, name: TrayName, piece: &Piece) -> Result<(), OutOfMemory>
        requires { (tray_or_empty self.old name piece.now.epoch).epoch ≡ piece.now.epoch }
        ensures folded { OnOk result (self.new ≡ trays_with self.old name
            (tray_with (tray_or_empty self.old name piece.now.epoch) piece.now.items)) }
        ensures unchanged { OnErr result (self.new ≡ self.old) }
    {
        match self.replicas.get_mut(&name) {
            Some(replica) => fold_into_replica(replica, self.alloc, piece),
            None => {
                let mut replica = PartialReplica::empty(self.alloc, piece.epoch());
                fold_into_replica(&mut replica, self.alloc, piece)?;
                self.put(name, replica)
            }
        }
    }

    /// Joins the second tray into the first, which becomes a copy of it where it isn't there.
    /// Answers how many entries the first has then.
    ///
    /// # Errors
    ///
    /// The first of these that holds: `NoTray` where there is no tray of the second name,
    /// `TooManyTrays` where there is none of the first and there are 64 others. Outside of these
    /// `OutOfMemory` where a growth was refused. Nothing has changed after any of them.
    pub fn join(
        &mut self,
        into: TrayName,
        other: TrayName,
    ) -> Result<Result<u64, JoinRefusal>, OutOfMemory>
        ensures state { OnOk result (self.new ≡ (join_step self.old into other).0) }
        ensures answer { IfOk result (λ answer. answer ≡ (join_step self.old into other).1) }
        ensures accepted { OnErr result (IsOk (join_step self.old into other).1) }
        ensures unchanged { OnErr result (self.new ≡ self.old) }
    {
        let Some(second) = self.get(other) else {
            return Ok(Err(JoinRefusal::NoTray));
        };
        if self.is_beyond(into) {
            return Ok(Err(JoinRefusal::TooManyTrays));
        }
        let second = copied(second)?;
        let entries = self.join_replica(into, second)?;
        Ok(Ok(entries))
    }

    /// Joins a replica into the tray of this name, which becomes it where it isn't there. Nothing
    /// has changed where a growth was refused.
    fn join_replica(
        &mut self,
        into: TrayName,
        second: PartialReplica<A>,
    ) -> Result<u64, OutOfMemory>
        ensures state { OnOk result (self.new ≡ (with_join self.old into (tray_of second)).0) }
        ensures answer { IfOk result (λ entries. entries
            ≡ length (joined_into (tray_named self.old into) (tray_of second)).entries) }
        ensures unchanged { OnErr result (self.new ≡ self.old) }
    {
        match self.replicas.get_mut(&into) {
            Some(first) => join_into_replica(first, self.alloc, second),
            None => {
                let entries = second.len() as u64;
                self.put(into, second)?;
                Ok(entries)
            }
        }
    }
}

/// Folds a piece into a replica of its epoch. Its entries are what they were where a growth was
/// refused.
fn fold_into_replica<A: Allocator + Copy>(
    replica: &mut PartialReplica<A>,
    alloc: A,
    piece: &Piece,
) -> Result<(), OutOfMemory>
    requires { replica.old.epoch ≡ piece.now.epoch }
    ensures folded { OnOk result
        (tray_of replica.new ≡ tray_with (tray_of replica.old) piece.now.items) }
    ensures unchanged { OnErr result (tray_of replica.new ≡ tray_of replica.old) }
{
    let whole = mem::replace(replica, PartialReplica::empty(alloc, piece.epoch()));
    // What the order of the entries is, here and below, from which the clauses follow.
    let _ = whole.len();
    match whole.take(piece) {
        Ok(more) => {
            let _ = more.len();
            *replica = more;
            Ok(())
        }
        Err(refused) => {
            *replica = refused.back;
            Err(OutOfMemory)
        }
    }
}

/// Joins a second replica into a first. Answers how many entries that has then. They are what they
/// were where a growth was refused.
fn join_into_replica<A: Allocator + Copy>(
    first: &mut PartialReplica<A>,
    alloc: A,
    second: PartialReplica<A>,
) -> Result<u64, OutOfMemory>
    ensures joined { OnOk result
        (tray_of first.new ≡ joined_trays (tray_of first.old) (tray_of second)) }
    ensures answer { IfOk result (λ entries.
        entries ≡ length (joined_trays (tray_of first.old) (tray_of second)).entries) }
    ensures unchanged { OnErr result (tray_of first.new ≡ tray_of first.old) }
{
    let whole = mem::replace(first, PartialReplica::empty(alloc, 0));
    // What the order of the entries is, here and below, from which the clauses follow.
    let _ = (whole.len(), second.len());
    match whole.join(second) {
        Ok(both) => {
            let entries = both.len() as u64;
            *first = both;
            Ok(entries)
        }
        Err(unjoined) => {
            let _ = unjoined.left.len();
            *first = unjoined.left;
            Err(OutOfMemory)
        }
    }
}

/// A second replica with the entries of the first.
fn copied<A: Allocator + Copy>(
    replica: &PartialReplica<A>,
) -> Result<PartialReplica<A>, OutOfMemory>
    ensures { IfOk result (λ second. tray_of second ≡ tray_of replica.now) }
{
    match replica.copy() {
        Ok(second) => {
            // What the order of the entries is, from which the clause follows.
            let _ = (replica.len(), second.len());
            Ok(second)
        }
        Err(OutOfMemory) => Err(OutOfMemory),
    }
}
