//! Laws of the numbers that cross.

ghost use Rattle.std.specs.Prelude.{◌≡◌, ◌≤◌, ◌+◌, ◌-◌, ◌^◌, ℕ, true, false, Some, None, Option};
ghost use Rattle.rh_core.specs.declared.outcomes.Flipped.{Flipped};
ghost use Rattle.rh_core.specs.Stat.{stat_of};
ghost use Rattle.rh_pace.specs.declared.did.Did.{Did};
ghost use Rattle.rh_pace.specs.declared.pace.Pace.{Pace};
ghost use Rattle.rh_pace.specs.Paced.{PacedState};
ghost use Rattle.rh_cycles.specs.declared.cycle.Cycle.{Cycle};
ghost use Rattle.rh_cycles.specs.declared.cycle.CycleEnd.TheVariants as ends;
ghost use Rattle.rheap_c.specs.declared.numbers.RheapDid.{RheapDid};
ghost use Rattle.rheap_c.specs.declared.numbers.RheapPacing.{RheapPacing};
ghost use Rattle.rheap_c.specs.declared.numbers.RheapWords.{RheapWords};
ghost use Rattle.rheap_c.specs.declared.numbers.RheapStats.{RheapStats};
ghost use Rattle.rheap_c.specs.Cycles.{cycle_numbers};
ghost use Rattle.rheap_c.specs.Numbers.{IsRead, did_in, did_of, no_did, no_pace, no_room, no_stats, pace_in, pace_of, room_in, stats_of};
ghost use Rattle.rheap_c.specs.Runs.{IsTelling};

/// Each number crosses under its own name.
///
/// - `words`, `counted`, `units`, `placed`: the fields of `rheap_stat` are those of
///   `PacedHeap::stat`.
/// - `root_words`, `more_root_words`: the words of roots are too, up to 2^64 - 1.
/// - `in_cycle`, `outside`: that a cycle is on is 1, that none is 0.
/// - `did`, `began`, `unbegun`, `flipped`, `unflipped`: the fields of `rheap_last_did` are those of
///   `PacedHeap::last_did`; where no flip ended a cycle, its numbers are 0.
/// - `pace`: the fields of `rheap_pace` are those of `PacedHeap::pace`.
/// - `room`: `rheap_room` tells the words that are free, and 2 words more than the fields.
/// - `cycle`, `cycle_words`, `cycle_units`: the fields of a cycle that `rheap_cycle` tells are
///   those of `Cycle`, and `is` is 1; it is 0 where none is told (`no_cycle`).
/// - `cycle_flipped`, `cycle_abandoned`: that it ended with a flip is 1, that it was abandoned is
///   0.
pub fn numbers_cross_under_their_names()
    ensures words { (s : PacedState) → (let told = stats_of s in let stat = stat_of s.heap in
        (told.used ≡ stat.used) × (told.free ≡ stat.free)) }
    ensures counted { (s : PacedState) → (let told = stats_of s in let stat = stat_of s.heap in
        (told.epoch ≡ stat.epoch) × (told.number ≡ stat.number) × (told.log ≡ stat.log)) }
    ensures units { (s : PacedState) → (let told = stats_of s in let stat = stat_of s.heap in
        (told.granted ≡ stat.granted) × (told.idle ≡ stat.idle) × (told.spent ≡ stat.spent)) }
    ensures placed { (s : PacedState) → (let told = stats_of s in let stat = stat_of s.heap in
        (told.placed ≡ stat.placed) × (told.missing ≡ stat.missing) × (told.flips ≡ stat.flips)) }
    ensures root_words { (s : PacedState) → (stat_of s.heap).root_words ≤ 2 ^ 64 - 1
        → (stats_of s).root_words ≡ (stat_of s.heap).root_words }
    ensures more_root_words { (s : PacedState) → 2 ^ 64 - 1 ≤ (stat_of s.heap).root_words
        → (stats_of s).root_words ≡ 2 ^ 64 - 1 }
    ensures in_cycle { (s : PacedState) → (stat_of s.heap).cycle ≡ true → (stats_of s).cycle ≡ 1 }
    ensures outside { (s : PacedState) → (stat_of s.heap).cycle ≡ false → (stats_of s).cycle ≡ 0 }
    ensures did { (did : Did)
        → ((did_of did).held ≡ did.held) × ((did_of did).shaded ≡ did.shaded) }
    ensures began { (did : Did) → did.began ≡ true → (did_of did).began ≡ 1 }
    ensures unbegun { (did : Did) → did.began ≡ false → (did_of did).began ≡ 0 }
    ensures flipped { (did : Did) (flipped : Flipped) → did.flipped ≡ Some flipped
        → ((did_of did).roots ≡ flipped.roots) × ((did_of did).live_words ≡ flipped.live_words)
        × ((did_of did).flipped ≡ 1) }
    ensures unflipped { (did : Did) → did.flipped ≡ None → ((did_of did).roots ≡ 0)
        × ((did_of did).live_words ≡ 0) × ((did_of did).flipped ≡ 0) }
    ensures pace { (pace : Pace) → ((pace_of pace).mark ≡ pace.mark)
        × ((pace_of pace).store_units ≡ pace.store_units)
        × ((pace_of pace).log_limit ≡ pace.log_limit) }
    ensures room { (fields : ℕ) (s : PacedState)
        → ((room_in fields s).need ≡ fields + 2)
        × ((room_in fields s).free ≡ (stat_of s.heap).free) }
    ensures cycle { (c : Cycle) → (let told = cycle_numbers (Some c) in
        (told.is ≡ 1) × (told.number ≡ c.number) × (told.epoch ≡ c.epoch)
        × (told.began ≡ c.began) × (told.ended ≡ c.ended)) }
    ensures cycle_words { (c : Cycle) → (let told = cycle_numbers (Some c) in
        (told.used ≡ c.used) × (told.live ≡ c.live) × (told.freed ≡ c.freed)
        × (told.words ≡ c.words) × (told.objects ≡ c.objects)) }
    ensures cycle_units { (c : Cycle) → (let told = cycle_numbers (Some c) in
        (told.granted ≡ c.granted) × (told.idle ≡ c.idle) × (told.spent ≡ c.spent)
        × (told.most ≡ c.most) × (told.logged ≡ c.logged)) }
    ensures cycle_flipped { (c : Cycle) → c.end ≡ ends.Flipped
        → (cycle_numbers (Some c)).flipped ≡ 1 }
    ensures cycle_abandoned { (c : Cycle) → c.end ≡ ends.Abandoned
        → (cycle_numbers (Some c)).flipped ≡ 0 }
    ensures no_cycle { (cycle_numbers None).is ≡ 0 }
{}

/// The calls `rheap_stat`, `rheap_last_did`, `rheap_pace` and `rheap_room` change nothing. In lists
/// of calls they are those that tell numbers, with status 0 where a heap is open.
pub fn calls_that_tell_numbers_change_nothing()
    ensures stat { (old new : Option PacedState) (status : ℕ) (stats : RheapStats)
        → IsRead stats_of no_stats old new status stats → IsTelling old new status }
    ensures last_did { (old new : Option PacedState) (status : ℕ) (did : RheapDid)
        → IsRead did_in no_did old new status did → IsTelling old new status }
    ensures pace { (old new : Option PacedState) (status : ℕ) (pacing : RheapPacing)
        → IsRead pace_in no_pace old new status pacing → IsTelling old new status }
    ensures room { (fields : ℕ) (old new : Option PacedState) (status : ℕ) (room : RheapWords)
        → IsRead (room_in fields) no_room old new status room → IsTelling old new status }
{}
