//! Laws of rows of commands, of the values that cross in them, and of tickets' statuses.

ghost use Rattle.std.specs.Prelude.{◌≡◌, ◌≢◌, ◌<◌, ◌≤◌, ◌+◌, ◌++◌, ℕ, suc, List, [], ◌∷◌, length, map, take, true, false, Option, None, Some, Result, Ok, Err, slice_get};
ghost use Rattle.std.specs.Option.{option_map};
ghost use Rattle.rh_layout.specs.declared.command.Command.{Command};
ghost use Rattle.rh_layout.specs.declared.command.Command.TheVariants.{Drop, Load, Store};
ghost use Rattle.rh_layout.specs.declared.command.Operand.TheVariants as operands;
ghost use Rattle.rh_layout.specs.declared.command.Reply.{Reply};
ghost use Rattle.rh_layout.specs.declared.command.RootId.{RootId};
ghost use Rattle.rh_layout.specs.declared.refusal.Refusal.{Refusal};
ghost use Rattle.rh_core.specs.declared.errors.WatchError.TheVariants as errors;
ghost use Rattle.rh_pace.specs.InTime.{paced_after, paced_replies};
ghost use Rattle.rh_pace.specs.Paced.{PacedState, paced_step};
ghost use Rattle.rh_growing.specs.Growing.{GrowingState, growing_insist, growing_step};
ghost use Rattle.rheap_c.specs.declared.init.RheapInit.{RheapInit};
ghost use Rattle.rheap_c.specs.declared.value.RheapValue.{RheapValue};
ghost use Rattle.rheap_c.specs.Grown.{IsGrownRowDone, IsGrownRowInsisted};
ghost use Rattle.rheap_c.specs.GrownRows.{AreAllDone, AreDoneUntilRefused};
ghost use Rattle.rheap_c.specs.Init.{operand_of};
ghost use Rattle.rheap_c.specs.RootRows.{done_until, last_value, path_loads, row_drops, row_loads, row_stores, values_over};
ghost use Rattle.rheap_c.specs.Told.{no_value, root_of, value_of_reply};
ghost use Rattle.rheap_c.specs.ValueRows.{value_stores};
ghost use Rattle.rheap_c.specs.Watching.{unwatch_status, watch_status};

/// A row is its list of commands, up to the first that is refused.
///
/// - `done`: where none is refused, the heap is what the list makes of it, and the replies are the
///   answers to the list.
/// - `refused`: else the heap is what those before the refused one and that one make of it, and
///   they were answered so, one after the other: the last by the refusal, each other by a reply.
pub fn a_row_is_its_commands_up_to_a_refusal()
    ensures done { (s : PacedState) (given : List (ℕ × Command))
        → (done_until paced_step s given).refusal ≡ None
        → ((done_until paced_step s given).state ≡ paced_after s given)
        × (map (λ reply. Ok reply) (done_until paced_step s given).replies
        ≡ paced_replies s given) }
    ensures refused { (s : PacedState) (given : List (ℕ × Command)) (why : Refusal)
        → (done_until paced_step s given).refusal ≡ Some why
        → (let row = done_until paced_step s given in
        (row.state ≡ paced_after s (take (suc (length row.replies)) given))
        × (paced_replies s (take (suc (length row.replies)) given)
        ≡ map (λ reply. Ok reply) row.replies ++ Err why ∷ [])) }
{}

/// On a heap that grows, too, a row is its list of commands, up to the first that is refused, whatever
/// memory the allocator gives in each of them.
///
/// - `done`: where the status is 0, the heap is what the list makes of it, and each command has a
///   reply. All of them are counted.
/// - `refused`: else the heap is what those before the refused one and that one make of it. They were
///   answered so, one after the other: the last by a refusal, whose number is the status, each other
///   by a reply. Those that have one are counted.
/// - `insisted_done`, `insisted_refused`: the same where each command is insisted on.
pub fn a_growing_row_is_its_commands_up_to_a_refusal()
    ensures done { (s : GrowingState) (new : Option GrowingState) (row : List (ℕ × Command))
        (count status : ℕ) → IsGrownRowDone (Some s) new row count status → status ≡ 0
        → (after : GrowingState) × (new ≡ Some after)
        × AreAllDone growing_step s after row count }
    ensures refused { (s : GrowingState) (new : Option GrowingState) (row : List (ℕ × Command))
        (count status : ℕ) → IsGrownRowDone (Some s) new row count status → status ≢ 0
        → (after : GrowingState) × (new ≡ Some after)
        × AreDoneUntilRefused growing_step s after row count status }
    ensures insisted_done { (s : GrowingState) (new : Option GrowingState)
        (row : List (ℕ × Command)) (count status : ℕ)
        → IsGrownRowInsisted (Some s) new row count status → status ≡ 0
        → (after : GrowingState) × (new ≡ Some after)
        × AreAllDone growing_insist s after row count }
    ensures insisted_refused { (s : GrowingState) (new : Option GrowingState)
        (row : List (ℕ × Command)) (count status : ℕ)
        → IsGrownRowInsisted (Some s) new row count status → status ≢ 0
        → (after : GrowingState) × (new ≡ Some after)
        × AreDoneUntilRefused growing_insist s after row count status }
{}

/// Which commands the rows are: each takes the next slot and the next field. No row is so long that
/// these leave 32 bits.
///
/// - `loads`, `stores`, `drops`: those of roots in a row.
/// - `values`: those of values in a row.
/// - `path`, `path_on`: those of a path. The first field is one of the object that `src` names, and
///   each further one of the object that `dst` names by then.
pub fn rows_are_these_commands()
    ensures loads { (owner : ℕ) (dst src : RootId) (field n i : ℕ) → i < n
        → dst.slot + n ≤ 4294967295 → field + n ≤ 4294967295
        → slice_get (row_loads owner dst src field n) i ≡ Some (
          owner,
          Load (record { owner = dst.owner; slot = dst.slot + i }) src (field + i),
        ) }
    ensures stores { (owner : ℕ) (object src : RootId) (field n i : ℕ) → i < n
        → src.slot + n ≤ 4294967295 → field + n ≤ 4294967295
        → slice_get (row_stores owner object field src n) i ≡ Some (
          owner,
          Store object (field + i)
              (operands.Root (record { owner = src.owner; slot = src.slot + i })),
        ) }
    ensures drops { (owner : ℕ) (root : RootId) (n i : ℕ) → i < n → root.slot + n ≤ 4294967295
        → slice_get (row_drops owner root n) i
        ≡ Some (owner, Drop (record { owner = root.owner; slot = root.slot + i })) }
    ensures values { (owner : ℕ) (object : RootId) (field : ℕ) (values : List RheapInit) (i : ℕ)
        → field + length values ≤ 4294967295
        → slice_get (value_stores owner object field values) i
        ≡ option_map (λ value. (owner, Store object (field + i) (operand_of value)))
        (slice_get values i) }
    ensures path { (owner : ℕ) (dst src : RootId) (field : ℕ) (fields : List ℕ)
        → slice_get (path_loads owner dst src (field ∷ fields)) 0
        ≡ Some (owner, Load dst src field) }
    ensures path_on { (owner : ℕ) (dst src : RootId) (field : ℕ) (fields : List ℕ) (i : ℕ)
        → slice_get (path_loads owner dst src (field ∷ fields)) (suc i)
        ≡ option_map (λ next. (owner, Load dst dst next)) (slice_get fields i) }
    ensures as_many { (owner : ℕ) (r q : RootId) (field n : ℕ)
        → (length (row_loads owner r q field n) ≡ n) × (length (row_stores owner r field q n) ≡ n)
        × (length (row_drops owner r n) ≡ n) }
    ensures as_many_values { (owner : ℕ) (object : RootId) (field : ℕ) (values : List RheapInit)
        → length (value_stores owner object field values) ≡ length values }
{}

/// What rows and paths write for the program.
///
/// - `read`: a row of loads writes the value of each reply in its place.
/// - `left`: what stands behind these stays.
/// - `none`: a path that loads nothing tells nil.
/// - `last`: else it tells the value of its last reply.
pub fn rows_tell_the_values_of_their_replies()
    ensures read { (replies : List Reply) (before : List RheapValue) (i : ℕ)
        → i < length replies → slice_get (values_over replies before) i
        ≡ option_map value_of_reply (slice_get replies i) }
    ensures left { (replies : List Reply) (before : List RheapValue) (i : ℕ)
        → length replies ≤ length before → length replies ≤ i
        → slice_get (values_over replies before) i ≡ slice_get before i }
    ensures none { last_value [] ≡ no_value }
    ensures last { (replies : List Reply) (reply : Reply)
        → last_value (replies ++ reply ∷ []) ≡ value_of_reply reply }
{}

/// What a value means that a program gives to be written.
///
/// - `nil`, `number`: kinds 0 and 1.
/// - `root`: any other kind, so also 2 and 3, the kinds of references.
pub fn a_value_to_be_written_means_what_its_kind_says()
    ensures nil { (v : RheapInit) → v.kind ≡ 0 → operand_of v ≡ operands.Nil }
    ensures number { (v : RheapInit) → v.kind ≡ 1 → operand_of v ≡ operands.Int v.number }
    ensures root { (v : RheapInit) → v.kind ≢ 0 → v.kind ≢ 1
        → operand_of v ≡ operands.Root (root_of v.root) }
{}

/// The statuses of tickets: those of other refusals for a root that isn't there, another owner's,
/// or one that names no object; and statuses of their own.
pub fn tickets_have_these_statuses()
    ensures watched { (ticket : ℕ) → watch_status (Ok ticket) ≡ 0 }
    ensures refused { (watch_status (Err errors.NoRoot) ≡ 1)
        × (watch_status (Err errors.NotYours) ≡ 2) × (watch_status (Err errors.NotObject) ≡ 3)
        × (watch_status (Err errors.Full) ≡ 17) }
    ensures freed { (unwatch_status true ≡ 0) × (unwatch_status false ≡ 18) }
{}
