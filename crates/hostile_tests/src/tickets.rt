//! A plain account of the tickets that watch objects.

use crate::account::Account;
use crate::both::TIGHT;
use crate::expectations::expect_equal;
use crate::numbers::{Numbers, count, count_at};
use rh_core::{Heap, RoomError, WatchError};
use rh_layout::{RootId, Value};
use rh_model::{Plain, PlainValue};
use std::alloc::{Allocator, Global};
use std::collections::VecDeque;
use std::process::Abort;

/// What a watch is answered.
type Watched = Result<u32, WatchError>;

/// What a ticket is: free, of an object, or to be told.
#[derive(Clone, Copy, Debug, PartialEq, Eq)]
enum Ticket {
    Free,
    /// Of the object that stands at this position of the plain heap, and at this address.
    On(usize, u32),
    Gone,
}

/// A plain account of tickets, and how often something came about.
#[derive(Drop)]
pub struct Tickets {
    tickets: Vec<Ticket>,
    /// Those that are to be told, in this order.
    gone: VecDeque<u32>,
    /// Watches that were refused, in the order of the refusals, those that weren't last.
    pub watches: [u64; 5],
    /// Tickets that weren't unwatched, and those that were.
    pub unwatched: [u64; 2],
    /// Tickets for which room was made, and room refused as fewer, as too many, and by memory.
    pub rooms: [u64; 4],
    /// Tickets that followed a reached object, one that wasn't, and tickets whose object was gone.
    pub followed: [u64; 3],
    /// Tickets that were told.
    pub told: u64,
}

/// The place of an answer among the counts of watches.
fn place_of(answer: Watched) -> usize {
    match answer {
        Err(WatchError::NoRoot) => 0,
        Err(WatchError::NotYours) => 1,
        Err(WatchError::NotObject) => 2,
        Err(WatchError::Full) => 3,
        Ok(_) => 4,
    }
}

/// The positions of the objects that a plain heap reaches.
pub fn reached(rt: &impl Abort, memory: Global, plain: &Plain<Global>) -> Vec<usize> {
    let mut found = Vec::new(memory);
    for owner in 0..TIGHT.owners {
        for slot in 0..TIGHT.slots {
            find(rt, &mut found, plain.root(RootId { owner, slot }));
        }
    }
    for next in 0..plain.objects() {
        let Some(&object) = found.get(next) else {
            break;
        };
        for field in 0..plain.fields(object).unwrap_or(0) {
            find(rt, &mut found, plain.field(object, field));
        }
    }
    found
}

/// Notes that an object is found, where the value is one that wasn't.
fn find(rt: &impl Abort, found: &mut Vec<usize>, value: Option<PlainValue>) {
    if let Some(PlainValue::Object(object)) = value
        && !found.contains(&object)
    {
        found.push(object).ok().expect(rt, "memory is ample");
    }
}

impl Tickets {
    /// The account of a new heap.
    pub fn new(memory: Global) -> Tickets {
        Tickets {
            tickets: Vec::new(memory),
            gone: VecDeque::new(memory),
            watches: [0; 5],
            unwatched: [0; 2],
            rooms: [0; 4],
            followed: [0; 3],
            told: 0,
        }
    }

    /// A call that is about tickets.
    pub fn call<A: Allocator + Copy>(
        &mut self,
        rt: &impl Abort,
        numbers: &mut Numbers,
        heap: &mut Heap<A>,
        plain: &Plain<Global>,
    ) {
        match numbers.below(8) {
            0 | 1 | 2 | 3 | 4 => self.watch(rt, numbers, heap, plain),
            5 => self.unwatch(rt, numbers.below(14), heap),
            6 => self.make_room(rt, numbers, heap),
            _ => {
                for _ in 0..numbers.below(4) {
                    self.tell(rt, heap);
                }
            }
        }
    }

    /// The first ticket that is free.
    fn least_free(&self) -> Option<u32> {
        for (number, ticket) in self.tickets.iter().enumerate() {
            if *ticket == Ticket::Free {
                return u32::try_from(number).ok();
            }
        }
        None
    }

    /// A ticket is something else from now on.
    fn set(&mut self, number: u32, ticket: Ticket) {
        if let Some(place) = self.tickets.get_mut(number as usize) {
            *place = ticket;
        }
    }

    /// What a watch has to be answered.
    fn watch_answer(&self, owner: u32, root: RootId, value: Option<PlainValue>) -> Watched {
        let Some(value) = value else {
            return Err(WatchError::NoRoot);
        };
        if owner >= TIGHT.owners {
            return Err(WatchError::NoRoot);
        }
        if root.owner != 0 && root.owner != owner {
            return Err(WatchError::NotYours);
        }
        if !matches!(value, PlainValue::Object(_)) {
            return Err(WatchError::NotObject);
        }
        self.least_free().ok_or(WatchError::Full)
    }

    /// An owner watches what a root holds.
    fn watch<A: Allocator + Copy>(
        &mut self,
        rt: &impl Abort,
        numbers: &mut Numbers,
        heap: &mut Heap<A>,
        plain: &Plain<Global>,
    ) {
        let owner = if numbers.has(1) {
            3
        } else {
            1 + numbers.below(2)
        };
        let root = numbers.root(owner);
        let (value, reference) = (plain.root(root), heap.root(root));
        let answer = self.watch_answer(owner, root, value);
        expect_equal(rt, heap.watch(owner, root), answer);
        count_at(&mut self.watches, place_of(answer));
        let Ok(ticket) = answer else {
            return;
        };
        if let Some(PlainValue::Object(object)) = value
            && let Some(Value::Ref(address)) = reference
        {
            self.set(ticket, Ticket::On(object, address));
        }
    }

    /// A ticket isn't wanted any more.
    fn unwatch<A: Allocator + Copy>(&mut self, rt: &impl Abort, number: u32, heap: &mut Heap<A>) {
        let ticket = self.tickets.get(number as usize).copied();
        let is_on = matches!(ticket, Some(Ticket::On(..)));
        expect_equal(rt, heap.unwatch(number), is_on);
        if is_on {
            self.set(number, Ticket::Free);
            count(&mut self.unwatched[1]);
        } else {
            count(&mut self.unwatched[0]);
        }
    }

    /// For how many tickets there is room.
    fn room(&self) -> u32 {
        u32::try_from(self.tickets.len()).unwrap_or(u32::MAX)
    }

    /// Room is made, or as much is there already. Where memory is refused nothing has changed.
    fn make_room<A: Allocator + Copy>(
        &mut self,
        rt: &impl Abort,
        numbers: &mut Numbers,
        heap: &mut Heap<A>,
    ) {
        let now = self.room();
        let room = numbers.tickets(now);
        let answer = heap.watch_room(room);
        if answer == Err(RoomError::OutOfMemory) {
            assert!(rt; room > now && room <= 65_536);
            count(&mut self.rooms[3]);
        } else if room < now {
            expect_equal(rt, answer, Err(RoomError::Fewer { now }));
            count(&mut self.rooms[1]);
        } else if room > 65_536 {
            expect_equal(rt, answer, Err(RoomError::TooMany));
            count(&mut self.rooms[2]);
        } else {
            expect_equal(rt, answer, Ok(()));
            for _ in now..room {
                let more = self.tickets.push(Ticket::Free);
                more.ok().expect(rt, "memory is ample");
                count(&mut self.rooms[0]);
            }
        }
    }

    /// The next ticket is told, where one is to be told, and is free then.
    fn tell<A: Allocator + Copy>(&mut self, rt: &impl Abort, heap: &mut Heap<A>) {
        let next = self.gone.pop_front();
        expect_equal(rt, heap.next_gone(), next);
        if let Some(number) = next {
            self.set(number, Ticket::Free);
            count(&mut self.told);
        }
    }

    /// Notes that the cycle flips. A ticket follows its object to the replica; where there is none,
    /// the plain heap doesn't reach the object, and the ticket is to be told.
    pub fn follow<A: Allocator + Copy>(
        &mut self,
        rt: &impl Abort,
        heap: &Heap<A>,
        account: &Account,
        reached: &[usize],
    ) {
        for number in 0..self.room() {
            let ticket = self.tickets.get(number as usize).copied();
            let Some(Ticket::On(object, address)) = ticket else {
                continue;
            };
            let is_reached = reached.contains(&object);
            if let Some(to) = account.replica_of(heap, address) {
                self.set(number, Ticket::On(object, to));
                let place = if is_reached { 0 } else { 1 };
                count_at(&mut self.followed, place);
            } else {
                assert!(rt; !is_reached);
                self.set(number, Ticket::Gone);
                self.gone
                    .push_back(number)
                    .ok()
                    .expect(rt, "memory is ample");
                count(&mut self.followed[2]);
            }
        }
    }

    /// All that is gone is told, and each ticket that is on then is of a reached object.
    pub fn settle<A: Allocator + Copy>(
        &mut self,
        rt: &impl Abort,
        heap: &mut Heap<A>,
        reached: &[usize],
    ) {
        for _ in 0..self.room().saturating_add(1) {
            self.tell(rt, heap);
        }
        for number in 0..self.room() {
            if let Some(Ticket::On(object, _)) = self.tickets.get(number as usize) {
                assert!(rt; reached.contains(object));
            }
            self.unwatch(rt, number, heap);
        }
    }
}
