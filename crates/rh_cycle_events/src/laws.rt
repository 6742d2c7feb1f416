//! Laws of the events of cycles. Each function does nothing: its contract is the law.

ghost use Rattle.std.specs.Prelude.{◌≡◌, ℕ, ◌++◌, All, List};
ghost use Rattle.std.specs.List.{flat_map};
ghost use Rattle.rh_cycles.specs.declared.cycle.Cycle.{Cycle};
ghost use Rattle.rh_cycles.specs.Line.{cycle_line, cycles_header};
ghost use Rattle.rh_cycle_events.specs.declared.heard.Heard.{Heard};
ghost use Rattle.rh_cycle_events.specs.Cycles.{IsOfWords, events_of_cycles};
ghost use Rattle.rh_cycle_events.specs.Events.{events_in, heard_after, nothing_heard};
ghost use Rattle.rh_cycle_events.specs.Texts.{opening_text};

/// What is written of the lines of cycles, below the names of their columns, are the events of
/// these cycles: their numbers, and when each began and ended, in words that were allocated.
///
/// - `cycles`: of all lines together, the events are those of these cycles, one after the other,
///   once the array was begun.
/// - `parts`, `heard`: lines may come in any parts, cut anywhere. What is written of two parts, one
///   after the other, is what is written of both together, and what is heard of them is too. So
///   `CycleEvents`, which writes `events_in` of what each call gives it, writes the events of the
///   cycles whose lines all of its calls together gave it.
pub fn events_are_those_of_the_cycles()
    ensures cycles { (cycles : List Cycle) → All IsOfWords cycles
        → events_in nothing_heard (cycles_header ++ flat_map cycle_line cycles)
        ≡ opening_text ++ events_of_cycles 0 cycles }
    ensures parts { (h : Heard) (first rest : List ℕ) → events_in h (first ++ rest)
        ≡ events_in h first ++ events_in (heard_after h first) rest }
    ensures heard { (h : Heard) (first rest : List ℕ) → heard_after h (first ++ rest)
        ≡ heard_after (heard_after h first) rest }
{}
