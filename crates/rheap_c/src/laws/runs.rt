//! Laws of lists of calls.

ghost use Rattle.std.specs.Prelude.{◌≡◌, ◌≢◌, ℕ, ℤ, All, List, [], drop, map, take, Option, Some, None};
ghost use Rattle.rh_layout.specs.declared.command.Command.{Command};
ghost use Rattle.rh_layout.specs.declared.command.Command.TheVariants.{Copy, Load, Same};
ghost use Rattle.rh_layout.specs.declared.command.RootId.{RootId};
ghost use Rattle.rh_model.specs.Plain.{PlainHeap};
ghost use Rattle.rh_mutator.specs.Mutator.{StandsFor};
ghost use Rattle.rh_mutator.specs.StoringAll.{number_stores, numbers_refusal};
ghost use Rattle.rh_layout.specs.declared.refusal.Refusal.{Refusal};
ghost use Rattle.rh_layout.specs.declared.refusal.Refusal.TheVariants.{LogFull};
ghost use Rattle.rh_pace.specs.InTime.{paced_after, paced_replies};
ghost use Rattle.rh_pace.specs.Paced.{PacedState};
ghost use Rattle.rheap_c.specs.declared.value.RheapValue.{RheapValue};
ghost use Rattle.rheap_c.specs.Called.{IsCompared, IsDone, IsLoaded};
ghost use Rattle.rheap_c.specs.Collected.{Collects, Increments};
ghost use Rattle.rheap_c.specs.Insisted.{IsInsisted};
ghost use Rattle.rheap_c.specs.Read.{IsAnswered, IsCounted, count_in, field_answer, peek_answer, root_answer};
ghost use Rattle.rheap_c.specs.Runs.{Answer, Call, AreMade, IsMade, IsTelling, TellAsPlain, after_call, after_calls, answers_to, command_of, doing, plain_after_calls, question_of, row_of};
ghost use Rattle.rheap_c.specs.Runs.Call.{Does, Loads, Compares, InsistsOn, CollectsNow, IncrementsNow, Peeks, ReadsField, ReadsRoot, Counts, TellsNumbers, StoresInts, InsistsOnInts, LoadsInts, LoadsText};
ghost use Rattle.rheap_c.specs.Several.{AreBytesTold, AreStored, AreStoredInsisting, AreTold};
ghost use Rattle.rheap_c.specs.Told.{no_value, status_of};

/// The calls of a program on one handle make one run, where each was made on what the one before it
/// left.
///
/// - `heap`: the handle holds what the list of calls makes of the heap.
/// - `between`: before each of them the handle holds what the calls before it make of the heap.
/// - `answers`: what the calls told is what they tell on that run. Of `rheap_stat`,
///   `rheap_last_did`, `rheap_pace` and `rheap_room` that is the status alone. What else they tell
///   is told of the heap that `between` gives.
/// - `commands`: where each does an owner's command and tells a status alone, that run is the list
///   of commands. So the laws on such lists speak of these calls.
/// - `none`: where no heap is open none is open after them, and each status is 12.
pub fn calls_make_one_run()
    ensures heap { (s : PacedState) (new : Option PacedState) (calls : List Call)
        (answers : List Answer) → AreMade (Some s) new calls answers
        → new ≡ Some (after_calls s calls) }
    ensures between { (s : PacedState) (new : Option PacedState) (calls : List Call)
        (answers : List Answer) → AreMade (Some s) new calls answers → (k : ℕ)
        → AreMade (Some (after_calls s (take k calls))) new (drop k calls) (drop k answers) }
    ensures answers { (s : PacedState) (new : Option PacedState) (calls : List Call)
        (answers : List Answer) → AreMade (Some s) new calls answers
        → answers ≡ answers_to s calls }
    ensures commands { (s : PacedState) (new : Option PacedState) (given : List (ℕ × Command))
        (answers : List Answer) → AreMade (Some s) new (map doing given) answers
        → (new ≡ Some (paced_after s given))
        × (map (λ answer. answer.status) answers ≡ map status_of (paced_replies s given)) }
    ensures none { (new : Option PacedState) (calls : List Call) (answers : List Answer)
        → AreMade None new calls answers
        → (new ≡ None) × All (λ answer. answer.status ≡ 12) answers }
{}

/// Each call of C's of these kinds, done as its contract says, is one that stands in such lists, with
/// all that it told.
///
/// - `does`, `loads`, `compares`, `insists`: those that do a command.
/// - `collects`, `increments`, `tells`: those that collect, and those that tell numbers.
/// - `peeks`, `field`, `root`, `counts`: those that read.
/// - `stores_ints`, `insists_on_ints`, `loads_ints`: those for fields in a row. The first two are
///   also those that store a text: the row is its numbers.
/// - `loads_text`: the one that reads a text.
pub fn each_call_stands_in_lists()
    ensures does { (old new : Option PacedState) (owner : ℕ) (command : Command) (status : ℕ)
        → IsDone old new owner command status → IsMade old new (Does owner command)
        (record { status = status; value = no_value; same = 0; count = 0; ints = []; text = [] }) }
    ensures loads { (old new : Option PacedState) (owner : ℕ) (dst src : RootId)
        (field status : ℕ) (value : RheapValue)
        → IsLoaded old new owner dst src field status value
        → IsMade old new (Loads owner dst src field)
        (record { status = status; value = value; same = 0; count = 0; ints = []; text = [] }) }
    ensures compares { (old new : Option PacedState) (owner : ℕ) (a b : RootId) (status same : ℕ)
        → IsCompared old new owner a b status same → IsMade old new (Compares owner a b)
        (record {
          status = status;
          value = no_value;
          same = same;
          count = 0;
          ints = [];
          text = [];
        }) }
    ensures insists { (old new : Option PacedState) (owner : ℕ) (command : Command) (status : ℕ)
        → IsInsisted old new owner command status → IsMade old new (InsistsOn owner command)
        (record { status = status; value = no_value; same = 0; count = 0; ints = []; text = [] }) }
    ensures collects { (old new : Option PacedState) (status : ℕ) → Collects old new status
        → IsMade old new CollectsNow
        (record { status = status; value = no_value; same = 0; count = 0; ints = []; text = [] }) }
    ensures increments { (old new : Option PacedState) (status : ℕ) → Increments old new status
        → IsMade old new IncrementsNow
        (record { status = status; value = no_value; same = 0; count = 0; ints = []; text = [] }) }
    ensures tells { (old new : Option PacedState) (status : ℕ) → IsTelling old new status
        → IsMade old new TellsNumbers
        (record { status = status; value = no_value; same = 0; count = 0; ints = []; text = [] }) }
    ensures peeks { (old new : Option PacedState) (owner : ℕ) (src : RootId) (field status : ℕ)
        (value : RheapValue)
        → IsAnswered (λ s. peek_answer s owner src field) old new status value
        → IsMade old new (Peeks owner src field)
        (record { status = status; value = value; same = 0; count = 0; ints = []; text = [] }) }
    ensures field { (old new : Option PacedState) (root : RootId) (field status : ℕ)
        (value : RheapValue)
        → IsAnswered (λ s. field_answer s root field) old new status value
        → IsMade old new (ReadsField root field)
        (record { status = status; value = value; same = 0; count = 0; ints = []; text = [] }) }
    ensures root { (old new : Option PacedState) (root : RootId) (status : ℕ) (value : RheapValue)
        → IsAnswered (λ s. root_answer s root) old new status value
        → IsMade old new (ReadsRoot root)
        (record { status = status; value = value; same = 0; count = 0; ints = []; text = [] }) }
    ensures counts { (old new : Option PacedState) (root : RootId) (status count : ℕ)
        → IsCounted (λ s. count_in (root_answer s root)) old new status count
        → IsMade old new (Counts root)
        (record {
          status = status;
          value = no_value;
          same = 0;
          count = count;
          ints = [];
          text = [];
        }) }
    ensures stores_ints { (old new : Option PacedState) (owner : ℕ) (object : RootId) (from : ℕ)
        (numbers : List ℤ) (status : ℕ) → AreStored old new owner object from numbers status
        → IsMade old new (StoresInts owner object from numbers)
        (record { status = status; value = no_value; same = 0; count = 0; ints = []; text = [] }) }
    ensures insists_on_ints { (old new : Option PacedState) (owner : ℕ) (object : RootId)
        (from : ℕ) (numbers : List ℤ) (status : ℕ)
        → AreStoredInsisting old new owner object from numbers status
        → IsMade old new (InsistsOnInts owner object from numbers)
        (record { status = status; value = no_value; same = 0; count = 0; ints = []; text = [] }) }
    ensures loads_ints { (old new : Option PacedState) (owner : ℕ) (object : RootId) (from : ℕ)
        (before after : List ℤ) (count status : ℕ)
        → AreTold old new owner object from before after count status
        → IsMade old new (LoadsInts owner object from before)
        (record {
          status = status;
          value = no_value;
          same = 0;
          count = count;
          ints = after;
          text = [];
        }) }
    ensures loads_text { (old new : Option PacedState) (owner : ℕ) (object : RootId) (from : ℕ)
        (before after : List ℕ) (count status : ℕ)
        → AreBytesTold old new owner object from before after count status
        → IsMade old new (LoadsText owner object from before)
        (record {
          status = status;
          value = no_value;
          same = 0;
          count = count;
          ints = [];
          text = after;
        }) }
{}

/// A row that is refused for anything but a full log leaves the heap as it was, also one that is
/// insisted on.
pub fn a_refused_row_changes_nothing()
    ensures { (s : PacedState) (owner : ℕ) (object : RootId) (from : ℕ) (numbers : List ℤ)
        (why : Refusal) → numbers_refusal s.heap.mutators owner object from numbers ≡ Some why
        → why ≢ LogFull
        → (after_call s (StoresInts owner object from numbers) ≡ s)
        × (after_call s (InsistsOnInts owner object from numbers) ≡ s) }
{}

/// The command that each call does, and the one whose answer it tells without doing it.
///
/// - `does`: a load, a comparison, and what is insisted on are done as commands.
/// - `asks`: a reading of a field tells the answer to a load, a reading of a root or of a count the
///   answer to a copy of the root to itself.
/// - `neither`, `neither_in_a_row`, `neither_of_a_text`: collecting, telling numbers, calls for
///   fields in a row, and reading a text do no command and ask for no answer.
/// - `rows`: a call that stores numbers to fields in a row does the stores of these numbers, all of
///   them or none.
/// - `only_rows`: a call that does such a list does no other command, and asks for no answer.
pub fn calls_are_these_commands()
    ensures does { (owner : ℕ) (command : Command) (dst src a b : RootId) (field : ℕ)
        → (command_of (Does owner command) ≡ Some (owner, command))
        × (command_of (Loads owner dst src field) ≡ Some (owner, Load dst src field))
        × (command_of (Compares owner a b) ≡ Some (owner, Same a b))
        × (command_of (InsistsOn owner command) ≡ Some (owner, command)) }
    ensures asks { (owner : ℕ) (src root : RootId) (field : ℕ)
        → (question_of (Peeks owner src field) ≡ Some (owner, Load src src field))
        × (question_of (ReadsField root field) ≡ Some (root.owner, Load root root field))
        × (question_of (ReadsRoot root) ≡ Some (root.owner, Copy root root))
        × (question_of (Counts root) ≡ Some (root.owner, Copy root root)) }
    ensures only_does { (owner : ℕ) (command : Command) (dst src a b : RootId) (field : ℕ)
        → (question_of (Does owner command) ≡ None)
        × (question_of (Loads owner dst src field) ≡ None)
        × (question_of (Compares owner a b) ≡ None)
        × (question_of (InsistsOn owner command) ≡ None) }
    ensures only_asks { (owner : ℕ) (src root : RootId) (field : ℕ)
        → (command_of (Peeks owner src field) ≡ None)
        × (command_of (ReadsField root field) ≡ None)
        × (command_of (ReadsRoot root) ≡ None)
        × (command_of (Counts root) ≡ None) }
    ensures neither { (command_of CollectsNow ≡ None) × (question_of CollectsNow ≡ None)
        × (command_of IncrementsNow ≡ None) × (question_of IncrementsNow ≡ None)
        × (command_of TellsNumbers ≡ None) × (question_of TellsNumbers ≡ None) }
    ensures neither_in_a_row { (owner : ℕ) (object : RootId) (from : ℕ) (numbers : List ℤ)
        → (command_of (StoresInts owner object from numbers) ≡ None)
        × (question_of (StoresInts owner object from numbers) ≡ None)
        × (command_of (InsistsOnInts owner object from numbers) ≡ None)
        × (question_of (InsistsOnInts owner object from numbers) ≡ None)
        × (command_of (LoadsInts owner object from numbers) ≡ None)
        × (question_of (LoadsInts owner object from numbers) ≡ None) }
    ensures neither_of_a_text { (owner : ℕ) (object : RootId) (from : ℕ) (before : List ℕ)
        → (command_of (LoadsText owner object from before) ≡ None)
        × (question_of (LoadsText owner object from before) ≡ None)
        × (row_of (LoadsText owner object from before) ≡ None) }
    ensures rows { (owner : ℕ) (object : RootId) (from : ℕ) (numbers : List ℤ)
        → (row_of (StoresInts owner object from numbers)
        ≡ Some (number_stores owner object from numbers))
        × (row_of (InsistsOnInts owner object from numbers)
        ≡ Some (number_stores owner object from numbers))
        × (row_of (LoadsInts owner object from numbers) ≡ None) }
    ensures only_rows { (call : Call) (row : List (ℕ × Command)) → row_of call ≡ Some row
        → (command_of call ≡ None) × (question_of call ≡ None) }
{}

/// No program in C sees that the heap collects, but by the calls that tell numbers of the heap, by its
/// picture, by the statuses of `rheap_release` and of resizes and by those of limits. Where its heap stands for a plain heap, which never moves its objects,
/// what its calls tell is what that answers, one by one.
///
/// - `told`: what each call tells, by its kind.
/// - `stands`: after the calls the heap stands for what the plain heap is after them.
///
/// A call that does a command tells what the plain heap answers, unless a limit refuses what the
/// plain heap accepts; the plain heap skips that then. A call that reads a root, a field or how
/// many fields there are tells what the plain heap answers, and the plain heap stays as it is. So
/// does one that reads a row or a text, field by field.
///
/// Numbers in a row, which a text is too, are stored on the plain heap as well, one after the other,
/// where it refuses none of these stores. Else the call tells the first that it refuses, and both
/// stay as they are. A limit may refuse a row that the plain heap accepts; the plain heap skips it
/// then.
///
/// The law says nothing of what `rheap_stat`, `rheap_last_did`, `rheap_pace` and `rheap_room` tell,
/// nor of the statuses of `rheap_collect` and `rheap_increment`.
pub fn no_program_in_c_sees_that_the_heap_collects()
    ensures told { (s : PacedState) (new : Option PacedState) (calls : List Call)
        (answers : List Answer) (p : PlainHeap) → AreMade (Some s) new calls answers
        → StandsFor s.heap.mutators p → TellAsPlain p calls answers }
    ensures stands { (s : PacedState) (new : Option PacedState) (calls : List Call)
        (answers : List Answer) (p : PlainHeap) → AreMade (Some s) new calls answers
        → StandsFor s.heap.mutators p
        → StandsFor (after_calls s calls).heap.mutators (plain_after_calls p calls answers) }
{}
