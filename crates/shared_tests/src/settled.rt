//! Four replicators and four mutators, each in a thread of its own, on one heap; and what went
//! through the rings between them.

ghost use Rattle.std.specs.Prelude.{◌≡◌};
ghost use Rattle.std.specs.List.{AllByRecursion};
ghost use Rattle.rh_collector.specs.Settling.{AreEndsHere, IsNewHere, pairs_of};
ghost use Rattle.shared_tests.specs.Beside.{AreEndsOf};

use crate::expectations::{Row, expect_equal, play_again};
use crate::gates::LOOKS;
use crate::starts::{EAGER, SMALL};
use crate::threads::calls_of_owner;
use rh_core::Config;
use rh_layout::Command;
use rh_replicator::{Gate, Replicator, ReplicatorEnds, RunEnd, Stepped, crew};
use rh_shared::{Did, Kept, SharedConfig, Start};
use std::marker::{Brand, PhantomData};
use std::process::Abort;
use std::sync::atomic::{AtomicBool, AtomicU64, Ordering};
use std::sync::{Mutex, Wait};
use std::thread::{self, Threads};

/// Five owners in a small space.
const FIVE: Config = Config { owners: 5, ..SMALL };

/// Four replicators, of which two get each piece, and cycle upon cycle.
const FOUR: SharedConfig = SharedConfig {
    replicators: 4,
    copies: 2,
    most: 1,
    history: 512,
    idle: 16,
    ..EAGER
};

/// More cycles end than these.
const FLIPS: u64 = 40;

/// Which rings a heap has.
trait Rings {
    ghost use Rattle.std.specs.Prelude.{List};
    ghost use Rattle.std.specs.declared.alloc.Global.{Global};
    ghost use Rattle.rh_collector.specs.Settling.{RingPair};

    ghost pairs: { List (RingPair Global) };
}

impl Rings for Brand {
    ghost use Rattle.std.specs.Prelude.{[]};

    ghost pairs = { [] };
}

/// A heap that has these rings, and what was counted under its lock.
#[derive(Drop)]
struct Crowded<B: Rings> {
    kept: Kept,
    /// Pieces that were pushed, and replicas that were given or dropped.
    pushed: u64,
    taken: u64,
    of: PhantomData<B>,
    ghost here: { pairs_of kept.collector.rings ≡ B.pairs },
}

impl<B: Rings> Crowded<B> {
    /// Counts what an increment did.
    fn count(&mut self, did: Did) {
        if did.dealt > 0 {
            self.pushed = self.pushed.saturating_add(FOUR.copies.into());
        }
        let taken = u64::from(did.given).saturating_add(did.dropped.into());
        self.taken = self.taken.saturating_add(taken);
    }

    /// One command of an owner.
    fn call(&mut self, owner: u32, command: &Command) {
        if self.kept.call(owner, command).is_ok() {
            let did = self.kept.last_did();
            self.count(did);
        }
    }

    /// One increment. Answers whether enough cycles have ended.
    fn increment(&mut self) -> bool {
        let did = self.kept.increment();
        self.count(did);
        self.kept.heap().stat().flips > FLIPS
    }
}

/// What a replicator did: the pieces that it took, and the replicas that it handed back.
#[derive(Drop)]
struct Folds {
    taken: AtomicU64,
    handed: AtomicU64,
}

impl Folds {
    fn new() -> Folds {
        Folds {
            taken: AtomicU64::new(0),
            handed: AtomicU64::new(0),
        }
    }
}

/// A gate that always passes, and counts.
#[derive(Drop)]
struct Counting<'f> {
    folds: &'f Folds,
}

impl<'f> Gate for Counting<'f> {
    ghost passes = { λ before answer after. Unit {0} };

    ghost tells = { λ before stepped after. Unit {0} };

    fn pass(&mut self) -> bool {
        true
    }

    fn did(&mut self, stepped: &Stepped) {
        if let Stepped::Folded(pieces) = *stepped {
            self.folds.taken.fetch_add(pieces.into(), Ordering::SeqCst);
            self.folds.handed.fetch_add(1, Ordering::SeqCst);
        } else {
            thread::yield_now();
        }
    }
}

/// The replicators that have these ends of the heap's rings, in order.
fn replicators_of<'f, R: AllocGlobal + Abort>(
    rt: &R,
    _kept: &Kept,
    ends: Vec<ReplicatorEnds>,
    folds: &'f [Folds],
) -> Vec<(Replicator, Counting<'f>)>
    requires { AllByRecursion (IsNewHere _kept.now.collector.rings) ends.items }
    ensures { AllByRecursion
        (λ own. AreEndsOf (pairs_of _kept.now.collector.rings) own.0) result.items }
{
    let mut all = Vec::new(rt.alloc());
    for own in ends {
        let folds = folds.get(own.replicator() as usize).expect(rt, "its folds");
        all.push((Replicator::new(rt.alloc(), own), Counting { folds }))
            .expect(rt, "memory is ample");
    }
    all
}

/// An owner's calls, twenty times over, and then increments until enough cycles have ended.
fn call_as<B: Rings, R: Wait>(rt: &R, crowded: &Mutex<Crowded<B>>, owner: u32) {
    for _ in 0..20u32 {
        for command in calls_of_owner(owner) {
            crowded.lock(rt).call(owner, &command);
            thread::yield_now();
        }
    }
    for _ in 0..LOOKS {
        if crowded.lock(rt).increment() {
            return;
        }
        thread::yield_now();
    }
}

/// Four owners call in threads of their own.
fn call_all<B: Rings + Send, R: Threads + Wait + Sync>(rt: &R, crowded: &Mutex<Crowded<B>>) {
    thread::join(
        rt,
        || { thread::join(rt, || call_as(rt, crowded, 1), || call_as(rt, crowded, 2)) },
        || { thread::join(rt, || call_as(rt, crowded, 3), || call_as(rt, crowded, 4)) },
    );
}

/// Settles the rings to a replicator: what was handed back came to the heap, or is left in the
/// ring. Answers how many replicas came, and how many pieces the replicator had taken.
fn settle_one<R: Abort>(
    rt: &R,
    kept: &mut Kept,
    own: (Replicator, RunEnd),
    folds: &[Folds],
) -> (u64, u64)
    requires { AreEndsHere kept.old.collector.rings own.0 }
    ensures { kept.new ≡ kept.old }
{
    let (replicator, end) = own;
    expect_equal(rt, end, RunEnd::Stopped);
    let done = replicator.finish().expect(rt, "the heap's ends are there");
    let number = done.replicator() as usize;
    let counted = folds.get(number).expect(rt, "its folds");
    let settled = kept.settle(done);
    let handed = counted.handed.load(Ordering::SeqCst);
    expect_equal(rt, settled.received.saturating_add(settled.left), handed);
    assert!(rt; handed >= 10, "{handed}");
    (settled.received, counted.taken.load(Ordering::SeqCst))
}

/// Ends the test unless of the replicas that came all were taken, but one for each ring that waits,
/// and of the pieces that were pushed all were read, but for what the rings have.
fn expect_sums(rt: &impl Abort, (received, taken): (u64, u64), (pushed, read): (u64, u64)) {
    assert!(rt;
        taken <= received && received <= taken.saturating_add(4),
        "{received} {taken}"
    );
    assert!(rt;
        read <= pushed && pushed <= read.saturating_add(32),
        "{pushed} {read}"
    );
}

/// Settles each ring. Of what came all was given or dropped, but one for each ring that waits, and
/// of what was pushed all was taken, but for what the rings have.
fn settle_all<B: Rings, R: Abort>(
    rt: &R,
    crowded: Crowded<B>,
    ended: Vec<(Replicator, RunEnd)>,
    folds: &[Folds],
)
    requires { AllByRecursion (λ own. AreEndsOf B.pairs own.0) ended.items }
{
    let Crowded {
        mut kept,
        pushed,
        taken,
        ..
    } = crowded;
    let (mut rings, mut received, mut read): (usize, u64, u64) = (0, 0, 0);
    for own in ended {
        let (came, took) = settle_one(&Row { rt, row: rings }, &mut kept, own, folds);
        received = received.saturating_add(came);
        read = read.saturating_add(took);
        rings = rings.saturating_add(1);
    }
    expect_equal(rt, rings, 4);
    expect_sums(rt, (received, taken), (pushed, read));
}

/// Ends the test unless enough cycles have ended, and enough calls were noted: no limit refuses a
/// copy or a load.
fn expect_played(rt: &impl Abort, kept: &Kept) {
    assert!(rt; kept.heap().stat().flips > FLIPS);
    let noted = kept.history().calls().len();
    assert!(rt; noted >= 240, "{noted}");
}

/// Plays a heap that has these rings.
fn play<B: Rings + Send, R: Threads + Wait + Sync + AllocGlobal + Abort>(
    rt: &R,
    kept: Kept,
    ends: Vec<ReplicatorEnds>,
)
    requires kept { pairs_of kept.collector.rings ≡ B.pairs }
    requires ends { AllByRecursion (IsNewHere kept.collector.rings) ends.items }
{
    let folds = [Folds::new(), Folds::new(), Folds::new(), Folds::new()];
    let replicators = replicators_of(rt, &kept, ends, &folds);
    let crowded: Mutex<Crowded<B>> = Mutex::new(Crowded {
        kept,
        pushed: 0,
        taken: 0,
        of: PhantomData,
    });
    let stop = AtomicBool::new(false);
    let Ok(ended) = crew(rt, rt.alloc(), replicators, &stop, LOOKS, || {
        call_all(rt, &crowded);
    }) else {
        panic!(rt; "they start")
    };
    let crowded = crowded.into_inner();
    expect_played(rt, &crowded.kept);
    settle_all(rt, crowded, ended, &folds);
}

/// Plays a new heap.
fn play_new<R: Threads + Wait + Sync + AllocGlobal + Abort>(rt: &R) {
    let start = Start::new(rt.alloc(), FIVE, FOUR)
        .ok()
        .expect(rt, "it starts");
    let Ok((kept, ends)) = Kept::new(rt.alloc(), start) else {
        panic!(rt; "memory is ample")
    };
    play::<Brand, R>(rt, kept, ends);
}

#[test]
fn what_went_through_four_rings_is_settled(rt: HostRuntime) {
    expect_equal(&rt, play_again(|| play_new(&rt)), 200);
}
