//! A heap, the heap that never moves beside it, and an account of its sizes and its cycle.

ghost use Rattle.std.specs.Prelude.{◌≤◌};

use crate::account::{Account, Answer, MOST_IDLE};
use crate::expectations::{expect_equal, expect_same_dump};
use crate::numbers::{Numbers, count, count_at};
use crate::resizes::Resizes;
use crate::tickets::{Tickets, reached};
use rh_core::{Config, GiveError, Heap, IdleError, Kind, NoCycle, ReleaseError, ResizeError, Stat};
use rh_layout::{Item, Place, Refusal, RootId, Value};
use rh_model::{CommandError, Plain};
use rh_partial::{PartialReplica, Piece, fold};
use std::alloc::{Allocator, Global};
use std::process::Abort;

/// The first sizes of a heap of two owners and the shared slots: the ends of its words, its log and
/// its credit are met often, and those of its numbers and epochs aren't.
pub const TIGHT: Config = Config {
    words: 96,
    ratio: 48,
    owners: 3,
    slots: 4,
    log_limit: 3,
    last_number: 1 << 62,
    last_epoch: 1 << 62,
};

/// How many entries that were given were of each class, and how many objects were placed for them.
#[derive(Drop)]
pub struct Classes {
    pub joined: u64,
    pub repeated: u64,
    pub stale: u64,
    pub placed: u64,
}

impl Classes {
    /// No entries.
    fn none() -> Classes {
        Classes {
            joined: 0,
            repeated: 0,
            stale: 0,
            placed: 0,
        }
    }

    /// Adds what a give was answered.
    fn add(&mut self, answer: Answer) {
        if let Ok(given) = answer {
            self.joined = self.joined.saturating_add(given.joined.into());
            self.repeated = self.repeated.saturating_add(given.repeated.into());
            self.stale = self.stale.saturating_add(given.stale.into());
            self.placed = self.placed.saturating_add(given.placed.into());
        }
    }
}

/// How often something came about.
#[derive(Drop)]
pub struct Counts {
    /// Gives by their answers, in the order of the refusals, those that were accepted last.
    pub gives: [u64; 8],
    /// The entries of replicas that nobody dealt, and of those that were dealt.
    pub invented: Classes,
    pub dealt: Classes,
    /// Commands that the plain heap answered, and refusals for want of room and of a log.
    pub commands: u64,
    pub full: u64,
    pub logs_full: u64,
    /// Flips that were done.
    pub flips: u64,
    /// Recalls that were accepted.
    pub recalls: u64,
    /// Cycles that were abandoned and had placed something.
    pub abandons: u64,
    /// Idle words that were accepted, and those that were refused as too many.
    pub idles: u64,
    pub idles_spent: u64,
    /// Pieces that were lost and never given.
    pub lost: u64,
    /// Flips of cycles whose recall made such a piece undealt that was missing.
    pub mended: u64,
    pub resizes: Resizes,
}

/// The place of an answer among the counts of gives.
fn place_of(answer: Answer) -> usize {
    match answer {
        Err(GiveError::NoCycle) => 0,
        Err(GiveError::StaleEpoch { .. }) => 1,
        Err(GiveError::TooMany) => 2,
        Err(GiveError::CreditShort { .. }) => 3,
        Err(GiveError::Stranger { .. }) => 4,
        Err(GiveError::FromFuture { .. }) => 5,
        Err(GiveError::Forged { .. }) => 6,
        Ok(_) => 7,
    }
}

/// Gives a replica. The answer is the one that the account of the cycle expects, and a refused one
/// changes what was spent alone.
fn give<A: Allocator + Copy>(
    rt: &impl Abort,
    heap: &mut Heap<A>,
    account: &mut Account,
    replica: &PartialReplica,
) -> Answer {
    let before = heap.stat();
    let copies = heap.undealt(Kind::Copies);
    let entries = heap.undealt(Kind::Entries);
    let answer = account.give(rt, heap, replica);
    expect_equal(rt, heap.give(replica), answer);
    let after = heap.stat();
    expect_equal(rt, after.spent, account.spent);
    if answer.is_err() {
        let spent = before.spent;
        expect_equal(rt, Stat { spent, ..after }, before);
        expect_equal(rt, heap.undealt(Kind::Copies), copies);
        expect_equal(rt, heap.undealt(Kind::Entries), entries);
    }
    answer
}

/// A heap with memory of its own, the plain heap beside it, and an account of its sizes and its
/// cycle.
#[derive(Drop)]
pub struct Both<A: Allocator + Copy> {
    memory: Global,
    pub heap: Heap<A>,
    plain: Plain<Global>,
    account: Account,
    /// What was dealt: given in any order, late and again.
    replicas: Vec<PartialReplica>,
    /// A place of a piece of this epoch that was lost, and whether one was recalled in this cycle
    /// that was missing.
    lost: Option<Place>,
    recalled: bool,
    pub tickets: Tickets,
    pub counts: Counts,
}

impl<A: Allocator + Copy> Both<A> {
    /// A new heap, and what stands beside it.
    pub fn new(rt: &impl Abort, memory: Global, heap: Heap<A>) -> Both<A> {
        Both {
            memory,
            heap,
            plain: Plain::new(memory, TIGHT.owners, TIGHT.slots)
                .ok()
                .expect(rt, "a plain heap"),
            account: Account::new(memory, &TIGHT),
            replicas: Vec::new(memory),
            lost: None,
            recalled: false,
            tickets: Tickets::new(memory),
            counts: Counts {
                gives: [0; 8],
                invented: Classes::none(),
                dealt: Classes::none(),
                commands: 0,
                full: 0,
                logs_full: 0,
                flips: 0,
                recalls: 0,
                abandons: 0,
                idles: 0,
                idles_spent: 0,
                lost: 0,
                mended: 0,
                resizes: Resizes::none(),
            },
        }
    }

    /// An owner's command, whose answer is the plain heap's unless it meets the limit that the
    /// account expects.
    fn command(&mut self, rt: &impl Abort, numbers: &mut Numbers) {
        let owner = 1 + numbers.below(2);
        let command = numbers.command(owner);
        let before = self.heap.stat();
        let limit = self.account.limit_of(&command);
        let answer = self.heap.command(owner, &command);
        match answer {
            Err(refusal) if refusal.is_limit() => {
                expect_equal(rt, Some(refusal), limit);
                expect_equal(rt, self.heap.stat(), before);
                count(match refusal {
                    Refusal::LogFull => &mut self.counts.logs_full,
                    _ => &mut self.counts.full,
                });
            }
            _ => {
                let plain = self.plain.command(owner, &command);
                expect_equal(rt, answer.map_err(CommandError::Refused), plain);
                count(&mut self.counts.commands);
                if answer.is_ok() {
                    expect_equal(rt, limit, None);
                    self.account.note(&command, TIGHT.ratio);
                }
            }
        }
    }

    /// A root is shaded.
    fn shade(&mut self, rt: &impl Abort, root: RootId) {
        let answer = self.account.shade(rt, &self.heap, root);
        expect_equal(rt, self.heap.shade(root), answer);
    }

    /// A piece is dealt, and lost, or taken into a replica of its own: what was dealt isn't dealt
    /// again but after a recall.
    fn deal(&mut self, rt: &impl Abort, kind: Kind, most: u32, loses: bool) {
        let undealt = self.account.undealt(&self.heap, kind);
        expect_equal(rt, self.heap.undealt(kind), undealt);
        let answer = self.account.deal(&self.heap, kind, most);
        match self.heap.deal(kind, most) {
            Ok(dealt) => {
                let looked = u64::from(dealt.passed).saturating_add(dealt.piece.len() as u64);
                expect_equal(rt, Ok(looked), answer);
                if kind == Kind::Copies {
                    self.expect_copies(rt, &dealt.piece);
                }
                if loses {
                    self.lose(&dealt.piece);
                } else {
                    self.take(rt, &dealt.piece);
                }
            }
            Err(refusal) => expect_equal(rt, Err(refusal), answer),
        }
    }

    /// The piece has the fields that were next in order of placing, each with what stands there.
    fn expect_copies(&self, rt: &impl Abort, piece: &Piece) {
        let mut left = piece.len() as u64;
        for item in piece.items() {
            left = left.saturating_sub(1);
            let place = self.account.dealt_before(&self.heap, left);
            expect_equal(rt, Some(item.place()), place);
            let current = self.heap.field(item.object, item.field);
            expect_equal(rt, Some((item.number, item.value)), current);
        }
    }

    /// A piece is lost.
    fn lose(&mut self, piece: &Piece) {
        if let Some(item) = piece.items().first() {
            self.lost = Some(item.place());
            count(&mut self.counts.lost);
        }
    }

    /// A piece is taken into a replica of its own. Of six replicas all are given for the last time.
    fn take(&mut self, rt: &impl Abort, piece: &Piece) {
        if self.replicas.len() == 6 {
            for i in 0..6 {
                self.give(rt, i);
            }
            self.replicas.clear();
        }
        let empty = PartialReplica::empty(self.memory, piece.epoch());
        let replica = empty.take(piece).ok().expect(rt, "memory is ample");
        self.replicas
            .push(replica)
            .ok()
            .expect(rt, "memory is ample");
    }

    /// A replica that was dealt is given.
    fn give(&mut self, rt: &impl Abort, chosen: usize) {
        if let Some(replica) = self.replicas.get(chosen) {
            let answer = give(rt, &mut self.heap, &mut self.account, replica);
            self.counts.dealt.add(answer);
        }
    }

    /// The cycle ends, where it can, and the graph is that of the plain heap.
    fn flip(&mut self, rt: &impl Abort) {
        let refusal = self.account.flip(&self.heap, &TIGHT);
        if refusal.is_none() {
            self.account.used = self.account.placed_words(&self.heap);
            let reached = reached(rt, self.memory, &self.plain);
            self.tickets.follow(rt, &self.heap, &self.account, &reached);
        }
        let answer = self.heap.flip();
        expect_equal(rt, answer.err(), refusal);
        if answer.is_ok() {
            count(&mut self.counts.flips);
            if self.recalled {
                count(&mut self.counts.mended);
            }
            self.forget();
            expect_same_dump(rt, self.memory, &self.heap, &self.plain);
        }
    }

    /// The cycle has ended.
    fn forget(&mut self) {
        self.account.clear();
        (self.lost, self.recalled) = (None, false);
    }

    /// A cycle begins, where none is on.
    fn begin(&mut self, rt: &impl Abort) {
        let answer = self.account.begin();
        expect_equal(rt, self.heap.begin(), answer);
    }

    /// All that was dealt is undealt; the replicas are of an earlier epoch then.
    fn recall(&mut self, rt: &impl Abort) {
        let answer = self.account.recall();
        expect_equal(rt, self.heap.recall(), answer);
        if answer.is_ok() {
            let fields = self.account.fields(&self.heap);
            expect_equal(rt, self.heap.undealt(Kind::Copies), fields);
            expect_equal(rt, self.heap.undealt(Kind::Entries), 0);
            count(&mut self.counts.recalls);
            if let Some(place) = self.lost {
                self.recalled = self.recalled || self.account.is_missing(&self.heap, place);
            }
            self.lost = None;
        }
    }

    /// The cycle ends without a flip.
    fn abandon(&mut self, rt: &impl Abort) {
        let placed = self.account.placed.len();
        match self.heap.abandon() {
            Ok(forgotten) => {
                assert!(rt; self.account.on);
                expect_equal(rt, forgotten as usize, placed);
                self.forget();
                if placed > 0 {
                    count(&mut self.counts.abandons);
                }
            }
            Err(NoCycle) => assert!(rt; !self.account.on),
        }
    }

    /// The collector has some idle words, or as many as a cycle may have, or one more.
    fn some_idle(&mut self, rt: &impl Abort, numbers: &mut Numbers) {
        let left = MOST_IDLE.saturating_sub(self.account.idle);
        let words = match numbers.below(50) {
            0 => left.saturating_add(1),
            1 if numbers.has(2) => left,
            few => few.into(),
        };
        self.idle(rt, words);
    }

    /// The collector has so many idle words.
    fn idle(&mut self, rt: &impl Abort, words: u64) {
        let answer = self.account.add_idle(words);
        expect_equal(rt, self.heap.idle(words), answer);
        match answer {
            Ok(_) => count(&mut self.counts.idles),
            Err(IdleError::IdleSpent) => count(&mut self.counts.idles_spent),
            Err(IdleError::NoCycle) => {}
        }
    }

    /// The heap gets other sizes, where the account has no refusal, or memory is refused, as only a
    /// growth's may be. Nothing else changes.
    fn resize(&mut self, rt: &impl Abort, numbers: &mut Numbers) {
        let words = numbers.words(self.account.used);
        let limit = numbers.limit(self.account.logged);
        let before = self.heap.stat();
        let refusal = self.account.resize_refusal(words, limit);
        let answer = self.heap.resize(words, limit);
        self.counts
            .resizes
            .note(&self.account, words, limit, answer);
        if answer == Err(ResizeError::OutOfMemory) {
            expect_equal(rt, refusal, None);
            assert!(rt; words > self.account.words || limit > self.account.limit);
        } else {
            expect_equal(rt, answer.err(), refusal);
        }
        if answer.is_ok() {
            (self.account.words, self.account.limit) = (words, limit);
        }
        self.expect_sizes(rt, before);
    }

    /// The heap has the sizes of the account, and else the numbers that it had.
    fn expect_sizes(&self, rt: &impl Abort, before: Stat) {
        let free = self.account.free_words();
        expect_equal(rt, self.heap.stat(), Stat { free, ..before });
        let (words, log_limit) = (self.account.words, self.account.limit);
        let config = Config {
            words,
            log_limit,
            ..TIGHT
        };
        expect_equal(rt, self.heap.config(), config);
    }

    /// Memory is given back, where no cycle is on. Nothing changes, also where memory is refused.
    fn release(&mut self, rt: &impl Abort) {
        let before = self.heap.stat();
        let answer = self.heap.release();
        self.counts.resizes.note_release(answer);
        let is_refused = answer == Err(ReleaseError::CycleOn);
        expect_equal(rt, is_refused, self.account.on);
        self.expect_sizes(rt, before);
    }

    /// What was lost is undealt, what the roots refer to is placed, all is dealt and given but what
    /// is lost now, and the cycle ends where nothing was.
    fn end(&mut self, rt: &impl Abort, numbers: &mut Numbers) {
        if self.lost.is_some() {
            self.recall(rt);
        }
        self.shade_all(rt);
        for _ in 0..20u32 {
            for kind in [Kind::Copies, Kind::Entries] {
                self.deal(rt, kind, 64, numbers.has(1));
                let last = self.replicas.len().saturating_sub(1);
                self.give(rt, last);
            }
        }
        self.flip(rt);
    }

    /// Each root is shaded.
    fn shade_all(&mut self, rt: &impl Abort) {
        for owner in 0..TIGHT.owners {
            for slot in 0..TIGHT.slots {
                self.shade(rt, RootId { owner, slot });
            }
        }
    }

    /// A cycle ends, and begins first where none is on. No command is made beside it.
    fn collect_quietly(&mut self, rt: &impl Abort) {
        self.begin(rt);
        self.recall(rt);
        self.idle(rt, 1 << 20);
        self.shade_all(rt);
        for _ in 0..200u32 {
            if self.account.undealt(&self.heap, Kind::Copies) > 0 {
                self.deal(rt, Kind::Copies, 64, false);
                let last = self.replicas.len().saturating_sub(1);
                self.give(rt, last);
            }
        }
        self.flip(rt);
    }

    /// After two collections beside which no command is made, the tickets that are on are those of
    /// what is reached.
    pub fn settle(&mut self, rt: &impl Abort) {
        let flips = self.counts.flips;
        self.collect_quietly(rt);
        self.collect_quietly(rt);
        expect_equal(rt, self.counts.flips, flips.saturating_add(2));
        let reached = reached(rt, self.memory, &self.plain);
        self.tickets.settle(rt, &mut self.heap, &reached);
    }

    /// An event that isn't a command, or all that a cycle's end takes.
    fn collect(&mut self, rt: &impl Abort, numbers: &mut Numbers) {
        match numbers.below(20) {
            0 | 1 | 2 => {
                self.begin(rt);
                self.some_idle(rt, numbers);
                self.shade(rt, numbers.root(1));
            }
            3 => self.shade(rt, numbers.root(1)),
            4 | 5 | 6 => {
                let kind = numbers.kind();
                self.deal(rt, kind, numbers.below(8), numbers.has(3));
            }
            7 | 8 => self.give(rt, numbers.below(6) as usize),
            9 => self.flip(rt),
            10 => self.recall(rt),
            11 => self.abandon(rt),
            12 => self.some_idle(rt, numbers),
            13 | 14 | 15 => self.resize(rt, numbers),
            16 => self.release(rt),
            _ => self.end(rt, numbers),
        }
    }

    /// An object that is placed, where one is.
    fn placed(&self, numbers: &mut Numbers) -> Option<u32> {
        let count = u32::try_from(self.account.placed.len()).unwrap_or(0);
        if count == 0 {
            return None;
        }
        self.account
            .placed
            .get(numbers.below(count) as usize)
            .copied()
    }

    /// An entry as it stands at a placed object, or one of which a part is made up: with so many
    /// chances to none, one for each part. Of this field, where one is asked for.
    fn entry(&self, numbers: &mut Numbers, chances: u32, at: Option<u32>) -> Item
        requires { chances ≤ 32 }
    {
        let part = numbers.below(4 + chances);
        let words = self.account.words.max(1);
        let mut object = numbers.address(words);
        if part != 0 {
            object = self.placed(numbers).unwrap_or(object);
        }
        let fields = self.heap.fields(object).unwrap_or(0);
        let field = match at {
            Some(field) => field,
            None if fields == 0 || part == 1 => numbers.address(4),
            None => numbers.below(fields),
        };
        let current = self.heap.field(object, field);
        let (mut number, mut value) = current.unwrap_or((1, Value::Nil));
        if part == 2 {
            number = numbers.other_number(number);
        }
        if part == 3 {
            value = numbers.value(words);
        }
        Item {
            object,
            field,
            number,
            value,
        }
    }

    /// A replica that nobody dealt: of the heap's epoch or one beside it, with no entry, a few, or
    /// some 64.
    fn invented(&self, rt: &impl Abort, numbers: &mut Numbers) -> PartialReplica {
        let is = self.heap.epoch();
        let epoch = match numbers.below(12) {
            0 => is.saturating_sub(1),
            1 => is.saturating_add(1),
            _ => is,
        };
        let (crowd, chances) = (numbers.has(1), numbers.below(3) * 16);
        let entries = if crowd {
            62 + numbers.below(4)
        } else if numbers.has(3) {
            6 + numbers.below(40)
        } else {
            numbers.below(6)
        };
        let mut first = Piece::new(epoch);
        let mut second = Piece::new(epoch);
        for i in 0..entries {
            let at = if crowd { Some(i) } else { None };
            let entry = self.entry(numbers, chances, at);
            if first.push(entry).is_err() {
                let _ = second.push(entry);
            }
        }
        fold(self.memory, epoch, &[first, second])
            .ok()
            .expect(rt, "memory is ample")
    }

    /// An invented replica is given.
    fn invent(&mut self, rt: &impl Abort, numbers: &mut Numbers) {
        let replica = self.invented(rt, numbers);
        let answer = give(rt, &mut self.heap, &mut self.account, &replica);
        count_at(&mut self.counts.gives, place_of(answer));
        self.counts.invented.add(answer);
    }

    /// One event of any kind. The heap's numbers are then as the account has them.
    pub fn live(&mut self, rt: &impl Abort, numbers: &mut Numbers) {
        match numbers.below(9) {
            0 | 1 | 2 | 3 => self.command(rt, numbers),
            4 | 5 => self.collect(rt, numbers),
            6 => self.tickets.call(rt, numbers, &mut self.heap, &self.plain),
            _ => self.invent(rt, numbers),
        }
        let stat = self.heap.stat();
        let account = &self.account;
        expect_equal(rt, stat.missing, account.missing(&self.heap));
        expect_equal(rt, stat.placed, account.placed.len() as u64);
        let units = (account.granted, account.idle, account.spent);
        expect_equal(rt, (stat.granted, stat.idle, stat.spent), units);
        expect_equal(rt, (stat.cycle, stat.epoch), (account.on, account.epoch));
        expect_equal(
            rt,
            (stat.log, stat.flips),
            (account.logged.into(), self.counts.flips),
        );
        let words = (account.used.into(), account.free_words());
        expect_equal(rt, (stat.used, stat.free), words);
    }
}
