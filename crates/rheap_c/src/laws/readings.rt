//! Laws of readings.

ghost use Rattle.std.specs.Prelude.{◌≡◌, ◌⊎◌, ℕ, suc, ℤ, true, false, List, length, Option, None, Some, slice_get};
ghost use Rattle.rh_layout.specs.declared.command.Command.TheVariants.{Copy, Load};
ghost use Rattle.rh_layout.specs.declared.command.RootId.{RootId};
ghost use Rattle.rh_layout.specs.declared.refusal.Refusal.{Refusal};
ghost use Rattle.rh_layout.specs.Refusal.{rank_of};
ghost use Rattle.rh_layout.specs.declared.value.Value.{Value};
ghost use Rattle.rh_layout.specs.declared.value.Value.TheVariants.{Nil, Int, Ref};
ghost use Rattle.rh_layout.specs.Root.{has_root, may_use};
ghost use Rattle.rh_model.specs.Graph.{root_value};
ghost use Rattle.rh_model.specs.Plain.{PlainHeap};
ghost use Rattle.rh_mutator.specs.Mutator.{StandsFor};
ghost use Rattle.rh_mutator.specs.LoadingAll.{AreLoaded, field_loads, number_told};
ghost use Rattle.rh_mutator.specs.StoringAll.{first_refusal};
ghost use Rattle.rh_mutator.specs.Texts.{AreBytes, IsTextRead, fields_of_bytes, text_numbers};
ghost use Rattle.rh_pace.specs.Paced.{PacedState, paced_step};
ghost use Rattle.rheap_c.specs.Read.{field_answer, graph_in, peek_answer, root_answer};
ghost use Rattle.rheap_c.specs.Runs.{Answer, AreMade, Call, answer_to, with_count, with_numbers, with_text};
ghost use Rattle.rheap_c.specs.Runs.Call.{Counts, InsistsOnInts, LoadsInts, LoadsText, StoresInts};
ghost use Rattle.rheap_c.specs.Several.{AreBytesTold, AreStored, AreStoredInsisting};

use rh_pace::laws::texts::a_text_is_read_as_it_was_put;
use std::alloc::Global;

/// A reading is answered as a command, which it doesn't do.
///
/// - `peek`: `rheap_peek` as a load of the field into the root that it reads.
/// - `into`: so as a load into any root that is there and that the owner may use.
/// - `field`: `rheap_field` as `rheap_peek` for the root's own owner.
/// - `root`: `rheap_root` as a copy of the root to itself by the root's own owner.
pub fn readings_answer_as_commands()
    ensures peek { (s : PacedState) (owner : ℕ) (src : RootId) (field : ℕ)
        → peek_answer s owner src field ≡ (paced_step s owner (Load src src field)).1 }
    ensures into { (s : PacedState) (owner : ℕ) (dst src : RootId) (field : ℕ)
        → has_root s.heap.mutators.roots.owners s.heap.mutators.roots.slots dst ≡ true
        → may_use owner dst ≡ true
        → peek_answer s owner src field ≡ (paced_step s owner (Load dst src field)).1 }
    ensures field { (s : PacedState) (root : RootId) (field : ℕ)
        → field_answer s root field ≡ peek_answer s root.owner root field }
    ensures root { (s : PacedState) (root : RootId)
        → root_answer s root ≡ (paced_step s root.owner (Copy root root)).1 }
{}

/// A row is read as its fields are.
///
/// - `read`: where no load of the fields is refused, `rheap_load_ints` has status 0, and what it
///   reads is what `rheap_peek` tells of these fields, up to the first that holds no whole number.
/// - `refused`: else its status is that of the first load that is refused, and nothing is read.
pub fn a_row_is_read_as_its_fields_are()
    ensures read { (s : PacedState) (owner : ℕ) (object : RootId) (from : ℕ) (before : List ℤ)
        → first_refusal (graph_in s) (field_loads owner object from (length before)) ≡ None
        → ((answer_to s (LoadsInts owner object from before)).status ≡ 0)
        × AreLoaded (λ f. number_told (peek_answer s owner object f)) from before
        (answer_to s (LoadsInts owner object from before)).ints
        (answer_to s (LoadsInts owner object from before)).count }
    ensures refused { (s : PacedState) (owner : ℕ) (object : RootId) (from : ℕ)
        (before : List ℤ) (why : Refusal)
        → first_refusal (graph_in s) (field_loads owner object from (length before)) ≡ Some why
        → answer_to s (LoadsInts owner object from before)
        ≡ with_numbers (rank_of why) before 0 }
{}

/// A text is read as its fields are.
///
/// - `read`: where no load of the fields that so many bytes take is refused, `rheap_load_text` has
///   status 0. What it reads are the lowest seven bytes of each number that `rheap_peek` tells of
///   these fields, up to the first that holds none.
/// - `refused`: else its status is that of the first load that is refused, and nothing is read.
pub fn a_text_is_read_as_its_fields_are()
    ensures read { (s : PacedState) (owner : ℕ) (object : RootId) (from : ℕ) (before : List ℕ)
        → first_refusal (graph_in s)
        (field_loads owner object from (fields_of_bytes (length before))) ≡ None
        → ((answer_to s (LoadsText owner object from before)).status ≡ 0)
        × IsTextRead (λ f. number_told (peek_answer s owner object f)) from before
        (answer_to s (LoadsText owner object from before)).text
        (answer_to s (LoadsText owner object from before)).count }
    ensures refused { (s : PacedState) (owner : ℕ) (object : RootId) (from : ℕ)
        (before : List ℕ) (why : Refusal)
        → first_refusal (graph_in s)
        (field_loads owner object from (fields_of_bytes (length before))) ≡ Some why
        → answer_to s (LoadsText owner object from before) ≡ with_text (rank_of why) before 0 }
{}

/// A text that was stored is read as it was. Where `rheap_store_text` had status 0, and nothing
/// comes between, `rheap_load_text` of as many bytes from the same field on has status 0, and reads
/// all of them. So it is in a cycle too, whatever increments the stores paid for. The heap is one
/// that stands for a plain heap, as it does from an open on.
///
/// - `stored`: after `rheap_store_text`.
/// - `insisted`: after `rheap_insist_store_text`.
/// - `run`: wherever such two calls stand, one after the other, in a list of calls.
pub fn a_text_is_read_as_it_was_stored()
    ensures stored { (s : PacedState) (p : PlainHeap) → StandsFor s.heap.mutators p
        → (between new : Option PacedState) (owner : ℕ) (object : RootId) (from : ℕ)
        (text : List ℕ) → AreBytes text
        → AreStored (Some s) between owner object from (text_numbers text) 0
        → (before after : List ℕ) (count status : ℕ) → length before ≡ length text
        → AreBytesTold between new owner object from before after count status
        → (status ≡ 0) × (count ≡ length text) × (after ≡ text) }
    ensures insisted { (s : PacedState) (p : PlainHeap) → StandsFor s.heap.mutators p
        → (between new : Option PacedState) (owner : ℕ) (object : RootId) (from : ℕ)
        (text : List ℕ) → AreBytes text
        → AreStoredInsisting (Some s) between owner object from (text_numbers text) 0
        → (before after : List ℕ) (count status : ℕ) → length before ≡ length text
        → AreBytesTold between new owner object from before after count status
        → (status ≡ 0) × (count ≡ length text) × (after ≡ text) }
    ensures run { (s : PacedState) (p : PlainHeap) → StandsFor s.heap.mutators p
        → (new : Option PacedState) (calls : List Call) (answers : List Answer)
        → AreMade (Some s) new calls answers → (i owner : ℕ) (object : RootId) (from : ℕ)
        (text before : List ℕ) (store : Call) (stored read : Answer)
        → AreBytes text → length before ≡ length text
        → (store ≡ StoresInts owner object from (text_numbers text))
        ⊎ (store ≡ InsistsOnInts owner object from (text_numbers text))
        → slice_get calls i ≡ Some store → slice_get answers i ≡ Some stored
        → stored.status ≡ 0
        → slice_get calls (suc i) ≡ Some (LoadsText owner object from before)
        → slice_get answers (suc i) ≡ Some read → read ≡ with_text 0 text (length text) }
{
    a_text_is_read_as_it_was_put::<Global>();
}

/// `rheap_fields` counts the fields of the object that a root names.
///
/// - `object`: where the root is there and refers to an object, the status is 0, and the count how
///   many fields it has.
/// - `nil`, `number`: where the root holds no reference, there is no object: the status is 3, and
///   the count 0.
/// - `absent`: where the root isn't there, the status is 1, and the count 0.
pub fn counts_are_those_of_the_objects()
    ensures object { (s : PacedState) (root : RootId) (a : ℕ) (fields : List Value)
        → has_root s.heap.mutators.roots.owners s.heap.mutators.roots.slots root ≡ true
        → root_value (graph_in s) root ≡ Ref a → (graph_in s).fields a ≡ Some fields
        → answer_to s (Counts root) ≡ with_count 0 (length fields) }
    ensures nil { (s : PacedState) (root : RootId)
        → has_root s.heap.mutators.roots.owners s.heap.mutators.roots.slots root ≡ true
        → root_value (graph_in s) root ≡ Nil → answer_to s (Counts root) ≡ with_count 3 0 }
    ensures number { (s : PacedState) (root : RootId) (number : ℤ)
        → has_root s.heap.mutators.roots.owners s.heap.mutators.roots.slots root ≡ true
        → root_value (graph_in s) root ≡ Int number
        → answer_to s (Counts root) ≡ with_count 3 0 }
    ensures absent { (s : PacedState) (root : RootId)
        → has_root s.heap.mutators.roots.owners s.heap.mutators.roots.slots root ≡ false
        → answer_to s (Counts root) ≡ with_count 1 0 }
{}
