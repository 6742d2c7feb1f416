//! Runs in which all that was dealt is given.

ghost use Rattle.std.specs.Prelude.{◌≡◌, OnOk};
ghost use Rattle.rh_layout.specs.declared.kind.Kind.TheVariants.{Copies, Entries};
ghost use Rattle.rh_core.specs.Dealing.{undealt_count};
ghost use Rattle.rh_core.specs.runs.Run.{answers_of};
ghost use Rattle.rh_core.specs.runs.Schedules.{dealing_over, no_dealing, AreGiven, HasBegun};

use crate::commands::{SIZES, alloc, root};
use crate::expectations::expect_equal;
use rh_core::laws::schedules::all_that_was_dealt_is_current;
use rh_core::{Answer, Event, Heap};
use rh_layout::OutOfMemory;
use std::alloc::Allocator;
use std::process::Abort;

/// Runs events. Where the dealing of the present epoch began in them, nothing is undealt, and each
/// item that was dealt since was given, nothing is missing.
fn run_whole<A: Allocator + Copy>(
    heap: &mut Heap<A>,
    events: &[Event<A>],
    answers: &mut Vec<Answer, A>,
) -> Result<(), OutOfMemory>
    ensures { OnOk result (HasBegun heap.old events.now → undealt_count heap.new Copies ≡ 0
        → undealt_count heap.new Entries ≡ 0
        → AreGiven (dealing_over no_dealing events.now (answers_of heap.old events.now)).items
        (dealing_over no_dealing events.now (answers_of heap.old events.now)).replicas
        → heap.new.joint.missing ≡ 0) }
{
    // Only for the proof: a heap is well formed, and the law.
    heap.stat();
    all_that_was_dealt_is_current::<A>();
    heap.run(events, answers)?;
    Ok(())
}

/// Makes and shades an object without fields in a cycle.
fn place_without_fields<R: AllocGlobal + Abort>(rt: &R, heap: &mut Heap) {
    let command = alloc(root(1, 0), 0);
    let shade = Event::Shade(root(1, 0));
    let events = [Event::Begin, Event::Command { owner: 1, command }, shade];
    let mut answers = Vec::new(rt.alloc());
    expect_equal(rt, run_whole(heap, &events, &mut answers), Ok(()));
}

#[test]
fn an_object_without_fields_lacks_nothing(rt: HostRuntime) {
    let mut heap = Heap::new(rt.alloc(), SIZES).expect(&rt, "a heap");
    place_without_fields(&rt, &mut heap);
    expect_equal(&rt, (heap.stat().placed, heap.stat().missing), (1, 0));
}
