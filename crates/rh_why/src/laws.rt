//! Laws of paths. Each function does nothing: its contract is the law.

ghost use Rattle.std.specs.Prelude.{◌≡◌, ◌↔◌, ◌<◌, ◌≤◌, ℕ, List, [], length, reverse};
ghost use Rattle.rh_dump.specs.Dump.{GraphState, IsGraph};
ghost use Rattle.rh_why.specs.Path.{path_of};
ghost use Rattle.rh_why.specs.Way.{IsWayTo};
ghost use Rattle.rh_why.specs.declared.holder.Step.{Step as StepOf};

/// The path to an object of a graph is a way from a root to it, and no way to it is shorter. An
/// object has a path exactly where there is a way to it, and that is where the graph has it.
pub fn each_path_is_a_shortest_way()
    ensures way { (g : GraphState) (to : ℕ) → IsGraph g → to < length g.objects
        → IsWayTo g (reverse (path_of g to)) to }
    ensures shortest { (g : GraphState) (to : ℕ) (way : List StepOf) → IsGraph g
        → IsWayTo g way to → length (path_of g to) ≤ length way }
    ensures reached { (g : GraphState) (to : ℕ) → IsGraph g
        → ((way : List StepOf) × IsWayTo g way to) ↔ (to < length g.objects) }
    ensures none { (g : GraphState) (to : ℕ) → IsGraph g → length g.objects ≤ to
        → path_of g to ≡ [] }
{}
