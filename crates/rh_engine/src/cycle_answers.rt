//! The texts of the answers to the lines of a cycle and to `resize`, without line ends.

ghost use Rattle.std.specs.Prelude.{◌≡◌, ◌+◌, ◌^◌, ◌<◌, ◌≤◌, ◌++◌, length, codes};
ghost use Rattle.rh_engine.specs.CycleAnswers.{two_numbers, credit_text, begin_text, shade_text, deal_error_text, deal_text, give_error_text, given_text, give_text, join_text, flip_text, recall_text, abandon_text, idle_text, resize_text, tray_text, stat_start, stat_log, stat_work, stat_text};
ghost use Rattle.rh_engine.specs.Trays.{tray_of};

use crate::engine::{DealRefusal, GiveRefusal, ResizeRefusal, TrayDeal};
use crate::trays::JoinRefusal;
use rh_core::{
    BeginError, DealError, FlipError, Flipped, GiveError, Given, IdleError, NoCycle, RecallError,
    ShadeError, Shaded, Stat,
};
use rh_partial::PartialReplica;
use rh_syntax::TrayName;
use rh_text::LineText;
use std::alloc::Allocator;

/// Puts a name, and two numbers with their own names, at the end.
fn put_two(text: &mut LineText, first: &[u8], m: u64, second: &[u8], n: u64)
    requires { length text.old + length first.now + length second.now ≤ 216 }
    ensures value { text.new ≡ text.old ++ two_numbers first.now m second.now n }
    ensures len { length text.new ≤ length text.old + length first.now + length second.now + 40 }
{
    text.put_part(first, m);
    text.put_part(second, n);
}

/// The text becomes that of too little credit.
fn put_credit(text: &mut LineText, need: u64, free: u64)
    ensures value { text.new ≡ credit_text need free }
    ensures len { length text.new ≤ 100 }
{
    text.clear();
    put_two(text, b"refused CreditShort need ", need, b" free ", free);
}

/// The text becomes these bytes.
fn put_only(text: &mut LineText, bytes: &[u8])
    requires { length bytes.now ≤ 100 }
    ensures value { text.new ≡ bytes.now }
    ensures len { length text.new ≤ 100 }
{
    text.clear();
    text.put(bytes);
}

/// The text becomes that of the answer to `begin`.
pub fn put_begin(text: &mut LineText, answer: Result<u64, BeginError>)
    ensures value { text.new ≡ begin_text answer }
    ensures len { length text.new ≤ 100 }
{
    text.clear();
    match answer {
        Ok(epoch) => text.put_part(b"cycle ", epoch),
        Err(BeginError::CycleOn) => text.put(b"refused CycleOn"),
        Err(BeginError::EpochsSpent) => text.put(b"refused EpochsSpent"),
    }
}

/// The text becomes that of the answer to `shade`.
pub fn put_shade(text: &mut LineText, answer: Result<Shaded, ShadeError>)
    ensures value { text.new ≡ shade_text answer }
    ensures len { length text.new ≤ 100 }
{
    match answer {
        Ok(Shaded::Placed) => put_only(text, b"placed"),
        Ok(Shaded::Already) => put_only(text, b"already"),
        Ok(Shaded::NoReference) => put_only(text, b"no reference"),
        Err(ShadeError::NoCycle) => put_only(text, b"refused NoCycle"),
        Err(ShadeError::NoRoot) => put_only(text, b"refused NoRoot"),
        Err(ShadeError::CreditShort { need, free }) => put_credit(text, need, free),
    }
}

/// The text becomes that of why the heap dealt nothing.
fn put_deal_error(text: &mut LineText, why: DealError)
    ensures value { text.new ≡ deal_error_text why }
    ensures len { length text.new ≤ 100 }
{
    match why {
        DealError::NoCycle => put_only(text, b"refused NoCycle"),
        DealError::NothingToDeal => put_only(text, b"refused NothingToDeal"),
        DealError::CreditShort { need, free } => put_credit(text, need, free),
    }
}

/// The text becomes that of the answer to `deal`.
pub fn put_deal(text: &mut LineText, answer: Result<TrayDeal, DealRefusal>)
    ensures value { text.new ≡ deal_text answer }
    ensures len { length text.new ≤ 100 }
{
    text.clear();
    match answer {
        Ok(done) => put_two(text, b"dealt ", done.items, b" passed ", done.passed.into()),
        Err(DealRefusal::TooManyTrays) => text.put(b"refused TooManyTrays"),
        Err(DealRefusal::OtherEpoch) => text.put(b"refused OtherEpoch"),
        Err(DealRefusal::Heap(why)) => put_deal_error(text, why),
    }
}

/// The text becomes that of a place whose entry can't be taken.
fn put_place(text: &mut LineText, name: &[u8], object: u32, field: u32)
    requires { length name.now ≤ 40 }
    ensures value { text.new ≡ two_numbers name.now object (codes " field ") field }
    ensures len { length text.new ≤ 100 }
{
    text.clear();
    put_two(text, name, object.into(), b" field ", field.into());
}

/// The text becomes that of why the heap didn't take a replica in.
fn put_give_error(text: &mut LineText, why: GiveError)
    ensures value { text.new ≡ give_error_text why }
    ensures len { length text.new ≤ 100 }
{
    text.clear();
    match why {
        GiveError::NoCycle => text.put(b"refused NoCycle"),
        GiveError::StaleEpoch { is, was } => {
            put_two(text, b"refused StaleEpoch is ", is, b" was ", was);
        }
        GiveError::TooMany => text.put(b"refused TooMany"),
        GiveError::CreditShort { need, free } => put_credit(text, need, free),
        GiveError::Stranger { object, field } => {
            put_place(text, b"refused Stranger object ", object, field);
        }
        GiveError::FromFuture { object, field } => {
            put_place(text, b"refused FromFuture object ", object, field);
        }
        GiveError::Forged { object, field } => {
            put_place(text, b"refused Forged object ", object, field);
        }
    }
}

/// The text becomes that of what was given.
fn put_given(text: &mut LineText, given: Given)
    ensures value { text.new ≡ given_text given }
    ensures len { length text.new ≤ 200 }
{
    text.clear();
    put_two(
        text,
        b"given joined ",
        given.joined.into(),
        b" repeated ",
        given.repeated.into(),
    );
    put_two(
        text,
        b" stale ",
        given.stale.into(),
        b" placed ",
        given.placed.into(),
    );
}

/// The text becomes that of the answer to `give`.
pub fn put_give(text: &mut LineText, answer: Result<Given, GiveRefusal>)
    ensures value { text.new ≡ give_text answer }
    ensures len { length text.new ≤ 200 }
{
    match answer {
        Ok(given) => put_given(text, given),
        Err(GiveRefusal::NoTray) => put_only(text, b"refused NoTray"),
        Err(GiveRefusal::Heap(why)) => put_give_error(text, why),
    }
}

/// The text becomes that of the answer to `join`.
pub fn put_join(text: &mut LineText, answer: Result<u64, JoinRefusal>)
    ensures value { text.new ≡ join_text answer }
    ensures len { length text.new ≤ 100 }
{
    text.clear();
    match answer {
        Ok(entries) => text.put_part(b"joined ", entries),
        Err(JoinRefusal::NoTray) => text.put(b"refused NoTray"),
        Err(JoinRefusal::TooManyTrays) => text.put(b"refused TooManyTrays"),
    }
}

/// The text becomes that of the answer to `flip`.
pub fn put_flip(text: &mut LineText, answer: Result<Flipped, FlipError>)
    ensures value { text.new ≡ flip_text answer }
    ensures len { length text.new ≤ 100 }
{
    text.clear();
    match answer {
        Ok(Flipped { roots, live_words }) => put_two(
            text,
            b"flipped roots ",
            roots.into(),
            b" live ",
            live_words.into(),
        ),
        Err(FlipError::NoCycle) => text.put(b"refused NoCycle"),
        Err(FlipError::RootUnplaced(root)) => {
            text.put(b"refused RootUnplaced ");
            text.put_root(root);
        }
        Err(FlipError::Missing(count)) => text.put_part(b"refused Missing ", count),
        Err(FlipError::EpochsSpent) => text.put(b"refused EpochsSpent"),
    }
}

/// The text becomes that of the answer to `recall`.
pub fn put_recall(text: &mut LineText, answer: Result<u64, RecallError>)
    ensures value { text.new ≡ recall_text answer }
    ensures len { length text.new ≤ 100 }
{
    text.clear();
    match answer {
        Ok(epoch) => text.put_part(b"cycle ", epoch),
        Err(RecallError::NoCycle) => text.put(b"refused NoCycle"),
        Err(RecallError::EpochsSpent) => text.put(b"refused EpochsSpent"),
    }
}

/// The text becomes that of the answer to `abandon`.
pub fn put_abandon(text: &mut LineText, answer: Result<u32, NoCycle>)
    ensures value { text.new ≡ abandon_text answer }
    ensures len { length text.new ≤ 100 }
{
    text.clear();
    match answer {
        Ok(placed) => text.put_part(b"abandoned ", placed),
        Err(_) => text.put(b"refused NoCycle"),
    }
}

/// The text becomes that of the answer to `idle`.
pub fn put_idle(text: &mut LineText, answer: Result<u64, IdleError>)
    ensures value { text.new ≡ idle_text answer }
    ensures len { length text.new ≤ 100 }
{
    text.clear();
    match answer {
        Ok(words) => text.put_part(b"idle ", words),
        Err(IdleError::NoCycle) => text.put(b"refused NoCycle"),
        Err(IdleError::IdleSpent) => text.put(b"refused IdleSpent"),
    }
}

/// The text becomes that of the answer to `resize`.
pub fn put_resize(text: &mut LineText, answer: Result<u32, ResizeRefusal>)
    ensures value { text.new ≡ resize_text answer }
    ensures len { length text.new ≤ 100 }
{
    text.clear();
    match answer {
        Ok(words) => text.put_part(b"words ", words),
        Err(ResizeRefusal::BadSpace) => text.put(b"refused BadSpace"),
        Err(ResizeRefusal::Used(used)) => text.put_part(b"refused Used ", used),
    }
}

/// The text becomes that of a tray in a listing.
pub fn put_tray<A: Allocator + Copy>(
    text: &mut LineText,
    name: TrayName,
    replica: &PartialReplica<A>,
)
    ensures value { text.new ≡ tray_text name (tray_of replica.now) }
    ensures len { length text.new ≤ 100 }
{
    text.clear();
    text.put(b"tray ");
    text.put(name.as_bytes());
    put_two(
        text,
        b" epoch ",
        replica.epoch(),
        b" entries ",
        replica.len() as u64,
    );
}

/// The text becomes the start of that of a heap's numbers.
fn put_stat_start(text: &mut LineText, stat: &Stat)
    requires used { stat.now.used < 2 ^ 32 }
    requires free { stat.now.free < 2 ^ 32 }
    ensures value { text.new ≡ stat_start stat.now }
    ensures len { length text.new ≤ 46 }
{
    text.clear();
    text.put_part(b"stat used ", stat.used as u32);
    text.put_part(b" free ", stat.free as u32);
    if stat.cycle {
        text.put(b" cycle on");
    } else {
        text.put(b" cycle off");
    }
}

/// Puts the epoch of a heap, the last store's number and the log's length at the end.
fn put_stat_log(text: &mut LineText, stat: &Stat)
    requires room { length text.old ≤ 46 }
    requires log { stat.now.log < 2 ^ 32 }
    ensures value { text.new ≡ text.old ++ stat_log stat.now }
    ensures len { length text.new ≤ 116 }
{
    put_two(text, b" epoch ", stat.epoch, b" number ", stat.number);
    text.put_part(b" log ", stat.log as u32);
}

/// Puts what was granted and spent, what is placed and missing, and the idle words at the end.
fn put_stat_work(text: &mut LineText, stat: &Stat)
    requires room { length text.old ≤ 116 }
    requires placed { stat.now.placed < 2 ^ 32 }
    ensures value { text.new ≡ text.old ++ stat_work stat.now }
    ensures len { length text.new ≤ 245 }
{
    put_two(text, b" granted ", stat.granted, b" spent ", stat.spent);
    text.put_part(b" placed ", stat.placed as u32);
    text.put_part(b" missing ", stat.missing);
    text.put_part(b" idle ", stat.idle);
}

/// The text becomes that of a heap's numbers. Those of a heap's words, of its log's entries and of
/// what is placed are below 2^32, as every heap's are.
pub fn put_stat(text: &mut LineText, stat: &Stat)
    requires used { stat.now.used < 2 ^ 32 }
    requires free { stat.now.free < 2 ^ 32 }
    requires log { stat.now.log < 2 ^ 32 }
    requires placed { stat.now.placed < 2 ^ 32 }
    ensures value { text.new ≡ stat_text stat.now }
    ensures len { length text.new ≤ 245 }
{
    put_stat_start(text, stat);
    put_stat_log(text, stat);
    put_stat_work(text, stat);
}
