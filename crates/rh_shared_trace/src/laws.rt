//! Laws of runs of a trace by threads: what stands in their histories, and what a limit leaves out.
//! Each function does nothing: its contract is the law.

ghost use Rattle.std.specs.Prelude.{◌≡◌, ◌≢◌, ◌↔◌, ℕ, ◌+◌, ◌<◌, ◌≤◌, Bool, true, false, List, [], ◌∷◌, ◌++◌, filter, length, None};
ghost use Rattle.rh_layout.specs.declared.command.Command.{Command as CommandOf};
ghost use Rattle.rh_layout.specs.declared.refusal.Refusal.{Refusal as RefusalOf};
ghost use Rattle.rh_layout.specs.declared.refusal.Refusal.TheVariants.{SpaceFull};
ghost use Rattle.rh_layout.specs.Command.{made_by};
ghost use Rattle.rh_mutator.specs.Commands.{IsStoring, LimitHolds};
ghost use Rattle.rh_mutator.specs.Mutator.{IsMutator, MutatorState};
ghost use Rattle.rh_syntax.specs.declared.line.Header.{Header as HeaderOf};
ghost use Rattle.rh_syntax.specs.declared.request.Request.{Request as RequestOf};
ghost use Rattle.rh_syntax.specs.declared.request.Request.TheVariants as requests;
ghost use Rattle.rh_syntax.specs.Spelling.{Script};
ghost use Rattle.rh_replay.specs.History.{HistoryState};
ghost use Rattle.rh_shared.specs.Shares.{calls_of};
ghost use Rattle.rh_shared_trace.specs.declared.options.RunOptions.{RunOptions as RunOptionsOf};
ghost use Rattle.rh_shared_trace.specs.declared.trace_limits.Limit.{Limit as LimitOf};
ghost use Rattle.rh_shared_trace.specs.declared.trace_limits.Limit.TheVariants.{Space, Log};
ghost use Rattle.rh_shared_trace.specs.declared.trace_limits.TraceLimits.{TraceLimits as TraceLimitsOf};
ghost use Rattle.rh_shared_trace.specs.Limiting.{limits_of, taken_by, taken_by_all};
ghost use Rattle.rh_shared_trace.specs.Matching.{allocates, commands_of, lines_of, stores, takes_nothing, MayLeaveOut};
ghost use Rattle.rh_shared_trace.specs.Options.{shared_config_of};
ghost use Rattle.rh_shared_trace.specs.Run.{IsHistoryOf};

/// A trace of one owner has one history in which none of its lines is left out, however many
/// replicators and idle words a run had, and whenever its threads got their turns.
pub fn a_trace_of_one_owner_has_one_whole_history()
    ensures { (script : Script) (owner : ℕ) (h k : HistoryState) → IsHistoryOf script h
        → IsHistoryOf script k → owner < script.header.owners
        → ((other : ℕ) → other ≢ owner → lines_of other script.requests ≡ [])
        → length h.calls ≡ length (lines_of owner script.requests)
        → length k.calls ≡ length (lines_of owner script.requests) → h ≡ k }
{}

/// A line may be left out of a history that isn't full only where its command meets a limit of some
/// heap, whatever else is wrong with it. It may be wherever the trace may come to a limit that its
/// command meets.
///
/// - `space`: to that of the space, if the command asks for more words than are free.
/// - `stored`: to that of the log, if a store meets a limit.
/// - `comes`: the definition, in numbers: the lines take more of it than there is.
pub fn what_a_limit_may_refuse_may_be_left_out()
    ensures only { (limits : TraceLimitsOf) (command : CommandOf)
        → MayLeaveOut limits false command → (m : MutatorState) × IsMutator m
        × (limit : RefusalOf) × LimitHolds m command limit }
    ensures space { (command : CommandOf) (m : MutatorState) (need free : ℕ) (log : Bool)
        → LimitHolds m command (SpaceFull need free)
        → MayLeaveOut (record { space = true; log = log }) false command }
    ensures stored { (command : CommandOf) (m : MutatorState) (limit : RefusalOf) (space : Bool)
        → IsStoring command → LimitHolds m command limit
        → MayLeaveOut (record { space = space; log = true }) false command }
    ensures comes { (header : HeaderOf) (lines : List RequestOf)
        → (((limits_of header lines).space ≡ true) ↔ (header.words < taken_by_all Space lines))
        × (((limits_of header lines).log ≡ true) ↔ (header.log < taken_by_all Log lines)) }
{}

/// What lines take of what is limited.
///
/// - `space`: a command whose object needs more words than are free takes these words, up to 4,097.
/// - `none`: a command that makes no object takes none.
/// - `log`: a store takes one entry of the log, and no other command takes one.
/// - `others`: a line that is no command takes none of either.
/// - `most`: no line takes more than one entry of the log.
/// - `one`: one line alone takes what it takes.
/// - `sum`: lines after others take as much more as they take alone.
pub fn what_a_line_takes_is_what_a_heap_needs()
    ensures space { (m : MutatorState) (owner need free : ℕ) (command : CommandOf)
        → LimitHolds m command (SpaceFull need free) → need ≤ 4097
        → taken_by Space (requests.Command owner command) ≡ need }
    ensures none { (owner : ℕ) (command : CommandOf) → made_by command ≡ None
        → taken_by Space (requests.Command owner command) ≡ 0 }
    ensures log { (owner : ℕ) (command : CommandOf)
        → (taken_by Log (requests.Command owner command) ≡ 1) ↔ IsStoring command }
    ensures others { (limit : LimitOf) (request : RequestOf)
        → ((owner : ℕ) (command : CommandOf) → request ≢ requests.Command owner command)
        → taken_by limit request ≡ 0 }
    ensures most { (request : RequestOf) → taken_by Log request ≤ 1 }
    ensures one { (limit : LimitOf) (request : RequestOf)
        → taken_by_all limit (request ∷ []) ≡ taken_by limit request }
    ensures sum { (limit : LimitOf) (xs ys : List RequestOf)
        → taken_by_all limit (xs ++ ys) ≡ taken_by_all limit xs + taken_by_all limit ys }
{}

/// What stands in a history of fewer than 65,536 calls of what each owner's lines ask, in order and
/// as often.
///
/// - `each`: all loads, copies, comparisons and drops.
/// - `allocations`: all allocations, raw or not, of a trace whose objects have no more words
///   together than the space.
/// - `stores`: all stores of a trace that has no more of them than the log has entries.
pub fn what_no_limit_refuses_stands_in_a_history()
    ensures each { (script : Script) (h : HistoryState) (owner : ℕ) → IsHistoryOf script h
        → length h.calls < 65536 → owner < script.header.owners
        → filter takes_nothing (commands_of (calls_of owner h.calls))
        ≡ filter takes_nothing (lines_of owner script.requests) }
    ensures allocations { (script : Script) (h : HistoryState) (owner : ℕ)
        → IsHistoryOf script h → length h.calls < 65536 → owner < script.header.owners
        → taken_by_all Space script.requests ≤ script.header.words
        → filter allocates (commands_of (calls_of owner h.calls))
        ≡ filter allocates (lines_of owner script.requests) }
    ensures stores { (script : Script) (h : HistoryState) (owner : ℕ) → IsHistoryOf script h
        → length h.calls < 65536 → owner < script.header.owners
        → taken_by_all Log script.requests ≤ script.header.log
        → filter stores (commands_of (calls_of owner h.calls))
        ≡ filter stores (lines_of owner script.requests) }
{}

/// The numbers of a shared run. A cycle begins where fewer than half of the words, rounded down,
/// are free. An increment deals at most 16 fields or entries, each piece to one replicator. The
/// history has room for 65,536 calls, and patience ends after 1,000 increments without progress.
/// The replicators and the idle words are those that were asked for.
pub fn a_shared_run_goes_by_these_numbers()
    ensures mark { (header : HeaderOf) (options : RunOptionsOf)
        → (let c = shared_config_of header options in
        (c.mark + c.mark ≤ header.words) × (header.words < c.mark + c.mark + 2)) }
    ensures numbers { (header : HeaderOf) (options : RunOptionsOf)
        → (let c = shared_config_of header options in
        (c.most ≡ 16) × (c.copies ≡ 1) × (c.history ≡ 65536) × (c.patience ≡ 1000)) }
    ensures asked { (header : HeaderOf) (options : RunOptionsOf)
        → (let c = shared_config_of header options in
        (c.replicators ≡ options.replicators) × (c.idle ≡ options.idle)) }
{}
