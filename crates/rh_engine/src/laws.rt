//! Laws of trays, and of the lines that deal into them. Each function does nothing: its contract is
//! the law.

ghost use Rattle.std.specs.Prelude.{◌≡◌, ◌≢◌, ◌↔◌, ◌≤◌, ◌+◌, ◌-◌, ◌++◌, ◌∷◌, [], ℕ, Bool, List, length, true, Some, Result, Ok, Err, is_some, map, None, if◌then◌else◌};
ghost use Rattle.std.specs.List.{AllByRecursion};
ghost use Rattle.std.specs.List.Sorted.{IsStrictlySortedBy};
ghost use Rattle.std.specs.Map.{keys_of};
ghost use Rattle.rh_layout.specs.Item.{place_cmp, place_of};
ghost use Rattle.rh_layout.specs.declared.item.Item.{Item};
ghost use Rattle.rh_partial.specs.Item.{newest};
ghost use Rattle.rh_partial.specs.PartialReplica.{pair_at, joined_newest};
ghost use Rattle.rh_text.specs.Stages.{IsFaultless, IsLeast};
ghost use Rattle.rh_layout.specs.declared.kind.Kind.{Kind as PieceKind};
ghost use Rattle.rh_engine.specs.declared.engine.TrayDeal.{TrayDeal};
ghost use Rattle.rh_engine.specs.declared.engine.DealRefusal.{DealRefusal};
ghost use Rattle.rh_engine.specs.declared.engine.DealRefusal.TheVariants.{TooManyTrays};
ghost use Rattle.rh_engine.specs.declared.engine.GiveRefusal.{GiveRefusal};
ghost use Rattle.rh_engine.specs.declared.engine.ResizeRefusal.{ResizeRefusal};
ghost use Rattle.rh_engine.specs.declared.engine.TicketsRefusal.{TicketsRefusal};
ghost use Rattle.rh_engine.specs.declared.trays.JoinRefusal.{JoinRefusal};
ghost use Rattle.rh_engine.specs.declared.trays.JoinRefusal.TheVariants as joins;
ghost use Rattle.rh_core.specs.declared.errors.BeginError.{BeginError};
ghost use Rattle.rh_core.specs.declared.errors.FlipError.{FlipError};
ghost use Rattle.rh_core.specs.declared.errors.IdleError.{IdleError};
ghost use Rattle.rh_core.specs.declared.errors.NoCycle.{NoCycle};
ghost use Rattle.rh_core.specs.declared.errors.RecallError.{RecallError};
ghost use Rattle.rh_core.specs.declared.errors.ShadeError.{ShadeError};
ghost use Rattle.rh_core.specs.declared.errors.WatchError.{WatchError};
ghost use Rattle.rh_core.specs.declared.outcomes.Flipped.{Flipped};
ghost use Rattle.rh_core.specs.declared.outcomes.Given.{Given as GivenOf};
ghost use Rattle.rh_core.specs.declared.outcomes.Shaded.{Shaded};
ghost use Rattle.rh_core.specs.declared.stat.Stat.{Stat};
ghost use Rattle.rh_core.specs.Stat.{stat_of};
ghost use Rattle.rh_watches.specs.declared.watch.Watch.TheVariants.{Free};
ghost use Rattle.rh_watches.specs.Watches.{ticket_at};
ghost use Rattle.rh_syntax.specs.TrayName.{IsTrayName};
ghost use Rattle.rh_engine.specs.CycleAnswers.{begin_text, shade_text, deal_text, give_text, join_text, flip_text, recall_text, abandon_text, idle_text, resize_text, tray_text, stat_text};
ghost use Rattle.rh_engine.specs.ToldAnswers.{IsToldBegin, IsToldShade, IsToldDeal, IsToldGive, IsToldJoin, IsToldFlip, IsToldRecall, IsToldAbandon, IsToldIdle, IsToldResize, IsToldTray, IsToldStat};
ghost use Rattle.rh_engine.specs.WatchAnswers.{gone_text, tickets_text, unwatch_text, watch_text, IsToldGone, IsToldTickets, IsToldWatch};
ghost use Rattle.rh_engine.specs.Trays.{Trays as TraysOf, Tray, tray_named, trays_with, entries_with_all, replica_of, tray_of, IsJoinedInto};
ghost use Rattle.rh_engine.specs.Engine.{EngineState, deal_line_step, refusals_of_deal, join_line_step, refusals_of_join, give_line_step, refusals_of_give, IsDealtInto, resize_line_step, refusals_of_resize, tickets_line_step, refusals_of_tickets, gone_line_step};

/// Entries with items joined in have at each place what they had, joined with the newest of the
/// items, and stand in order of place where they did before.
pub fn joined_items_are_the_newest()
    ensures content { (entries items : List Item) → pair_at (entries_with_all entries items)
        ≡ joined_newest (pair_at entries) (newest items) }
    ensures order { (entries items : List Item)
        → IsStrictlySortedBy place_cmp (map place_of entries)
        → IsStrictlySortedBy place_cmp (map place_of (entries_with_all entries items)) }
{}

/// A tray that takes a name is the one of that name, and the trays of all other names stay. A name
/// that is there keeps its position, and a new one goes last.
pub fn a_tray_takes_its_name_alone()
    ensures there { (trays : TraysOf) (name : List ℕ) (t : Tray)
        → tray_named (trays_with trays name t) name ≡ Some t }
    ensures others { (trays : TraysOf) (name other : List ℕ) (t : Tray) → other ≢ name
        → tray_named (trays_with trays name t) other ≡ tray_named trays other }
    ensures order { (trays : TraysOf) (name : List ℕ) (t : Tray)
        → keys_of (trays_with trays name t)
        ≡ (if is_some (tray_named trays name) then keys_of trays
        else keys_of trays ++ name ∷ []) }
{}

/// A deal into a tray is refused by the first of its refusals that holds, and makes no tray and
/// changes nothing then. Where something is dealt none of them holds.
pub fn deals_into_trays_are_refused_in_order()
    ensures refused { (e : EngineState) (kind : PieceKind) (most : ℕ) (name : List ℕ)
        (why : DealRefusal) → (deal_line_step e kind most name).1 ≡ Err why
        → IsLeast (refusals_of_deal e kind most name) why
        × ((deal_line_step e kind most name).0 ≡ e) }
    ensures dealt { (e : EngineState) (kind : PieceKind) (most : ℕ) (name : List ℕ)
        (done : TrayDeal) → (deal_line_step e kind most name).1 ≡ Ok done
        → IsFaultless (refusals_of_deal e kind most name) }
{}

/// Where a deal into a tray is accepted, the heap dealt a piece, and the answer counts its items
/// and the entries that were passed over. The tray of the name is of the piece's epoch, and has at
/// each place what it had before, joined with the newest of the piece's items; its entries stand in
/// order of place where those of the trays before did, as in every trace they do, by a law of its
/// runs. All other trays stay, and the names keep their order; a new one goes last.
pub fn what_is_dealt_is_in_its_tray()
    ensures { (e : EngineState) (kind : PieceKind) (most : ℕ) (name : List ℕ) (done : TrayDeal)
        → (deal_line_step e kind most name).1 ≡ Ok done
        → IsDealtInto e (deal_line_step e kind most name).0 kind most name done }
{}

/// A join of trays is refused by the first of its refusals that holds, and changes nothing then.
/// Where trays are joined none of them holds.
pub fn joins_of_trays_are_refused_in_order()
    ensures refused { (e : EngineState) (into other : List ℕ) (why : JoinRefusal)
        → (join_line_step e into other).1 ≡ Err why
        → IsLeast (refusals_of_join e into other) why
        × ((join_line_step e into other).0 ≡ e) }
    ensures joined { (e : EngineState) (into other : List ℕ) (entries : ℕ)
        → (join_line_step e into other).1 ≡ Ok entries
        → IsFaultless (refusals_of_join e into other) }
{}

/// Where a join of trays is accepted, the tray of the first name is a copy of the second where
/// there was none. Else it is, of trays of two epochs, the later one; of one epoch, where the
/// entries of both stand in order of place, it has at each place what one had alone, or the newer
/// of what both had, in order of place. The answer is how many entries it has. All other trays
/// stay, and the names keep their order; a new one goes last. A join never changes the heap.
pub fn what_is_joined_is_in_the_first_tray()
    ensures joined { (e : EngineState) (into other : List ℕ) (entries : ℕ)
        → (join_line_step e into other).1 ≡ Ok entries
        → IsJoinedInto e.trays (join_line_step e into other).0.trays into other entries }
    ensures heap { (e : EngineState) (into other : List ℕ)
        → (join_line_step e into other).0.heap ≡ e.heap }
{}

/// A give of a tray is refused by the first of its refusals that holds; where there is no such tray
/// nothing changes, and the trays never do. Where something is given none of them holds. The
/// replica that is given has the tray's epoch and all of its entries.
pub fn gives_of_trays_are_refused_in_order()
    ensures refused { (e : EngineState) (name : List ℕ) (why : GiveRefusal)
        → (give_line_step e name).1 ≡ Err why → IsLeast (refusals_of_give e name) why }
    ensures given { (e : EngineState) (name : List ℕ) (given : GivenOf)
        → (give_line_step e name).1 ≡ Ok given → IsFaultless (refusals_of_give e name) }
    ensures absent { (e : EngineState) (name : List ℕ) → tray_named e.trays name ≡ None
        → (give_line_step e name).0 ≡ e }
    ensures trays { (e : EngineState) (name : List ℕ)
        → (give_line_step e name).0.trays ≡ e.trays }
    ensures whole { (t : Tray) → tray_of (replica_of t) ≡ t }
{}

/// A resize is refused by the first of its refusals that holds, and changes nothing then. Where the
/// spaces get other sizes none of them holds, and the answer is the words. Of what the heap tells of
/// itself the free words alone are others then: those that objects don't use. The limit of the log
/// and the trays stay.
pub fn resizes_are_refused_in_order()
    ensures refused { (e : EngineState) (words : ℕ) (why : ResizeRefusal)
        → (resize_line_step e words).1 ≡ Err why
        → IsLeast (refusals_of_resize e words) why × ((resize_line_step e words).0 ≡ e) }
    ensures resized { (e : EngineState) (words n : ℕ) → (resize_line_step e words).1 ≡ Ok n
        → IsFaultless (refusals_of_resize e words) × (n ≡ words)
        × (stat_of (resize_line_step e words).0.heap
        ≡ record (stat_of e.heap) { free = words - (stat_of e.heap).used }) }
    ensures limit { (e : EngineState) (words : ℕ)
        → (resize_line_step e words).0.heap.mutators.config.log_limit
        ≡ e.heap.mutators.config.log_limit }
    ensures trays { (e : EngineState) (words : ℕ)
        → (resize_line_step e words).0.trays ≡ e.trays }
{}

/// Room for tickets is refused by the first of its refusals that holds, and nothing changes then.
/// Where it is made none of them holds, there are so many tickets, and the answer is how many. The
/// trays stay.
pub fn room_for_tickets_is_refused_in_order()
    ensures refused { (e : EngineState) (tickets : ℕ) (why : TicketsRefusal)
        → (tickets_line_step e tickets).1 ≡ Err why
        → IsLeast (refusals_of_tickets e tickets) why
        × ((tickets_line_step e tickets).0 ≡ e) }
    ensures made { (e : EngineState) (tickets n : ℕ) → (tickets_line_step e tickets).1 ≡ Ok n
        → IsFaultless (refusals_of_tickets e tickets) × (n ≡ tickets)
        × (length (tickets_line_step e tickets).0.heap.watches.tickets ≡ tickets) }
    ensures trays { (e : EngineState) (tickets : ℕ)
        → (tickets_line_step e tickets).0.trays ≡ e.trays }
{}

/// A line `gone` tells the tickets that are to be told, in their order. Each of them is free from
/// then on, all others stay as they are, and none is to be told any more.
pub fn what_a_line_tells_is_free()
    ensures told { (e : EngineState) → (gone_line_step e).1 ≡ e.heap.watches.gone }
    ensures free { (e : EngineState) (ticket : ℕ) (before after : List ℕ) → (gone_line_step e).1 ≡ before ++ ticket ∷ after
        → ticket_at (gone_line_step e).0.heap.watches ticket ≡ Free }
    ensures others { (e : EngineState) (ticket : ℕ)
        → AllByRecursion (λ n. n ≢ ticket) (gone_line_step e).1
        → ticket_at (gone_line_step e).0.heap.watches ticket
        ≡ ticket_at e.heap.watches ticket }
    ensures once { (e : EngineState) → (gone_line_step (gone_line_step e).0).1 ≡ [] }
{}

/// There are at most 64 trays: in a cycle a deal into a tray is refused with TooManyTrays, and
/// changes nothing, exactly where there is none of its name and there are 64 others, and so is a
/// join of a tray that is there into one. A name that is new makes one tray more, and one that is
/// there none.
pub fn a_tray_more_than_64_is_refused()
    ensures deal { (e : EngineState) (kind : PieceKind) (most : ℕ) (name : List ℕ)
        → e.heap.mutators.cycle ≡ true
        → (deal_line_step e kind most name ≡ (e, Err TooManyTrays))
        ↔ ((tray_named e.trays name ≡ None) × (64 ≤ length e.trays)) }
    ensures join { (e : EngineState) (into other : List ℕ) (t : Tray)
        → tray_named e.trays other ≡ Some t
        → (join_line_step e into other ≡ (e, Err joins.TooManyTrays))
        ↔ ((tray_named e.trays into ≡ None) × (64 ≤ length e.trays)) }
    ensures counted { (trays : TraysOf) (name : List ℕ) (t : Tray)
        → length (trays_with trays name t)
        ≡ (if is_some (tray_named trays name) then length trays else length trays + 1) }
{}

/// Each text is of one answer to a line of its kind alone: two answers to lines of one kind with
/// the same text, whose numbers have at most 128 bits, as all have that a call answers, are the
/// same. Of answers to lines of two kinds nothing is said.
pub fn each_text_is_of_one_answer_to_its_line()
    ensures begin { (a b : Result ℕ BeginError) → IsToldBegin a → IsToldBegin b
        → begin_text a ≡ begin_text b → a ≡ b }
    ensures shade { (a b : Result Shaded ShadeError) → IsToldShade a → IsToldShade b
        → shade_text a ≡ shade_text b → a ≡ b }
    ensures deal { (a b : Result TrayDeal DealRefusal) → IsToldDeal a → IsToldDeal b
        → deal_text a ≡ deal_text b → a ≡ b }
    ensures give { (a b : Result GivenOf GiveRefusal) → IsToldGive a → IsToldGive b
        → give_text a ≡ give_text b → a ≡ b }
    ensures join { (a b : Result ℕ JoinRefusal) → IsToldJoin a → IsToldJoin b
        → join_text a ≡ join_text b → a ≡ b }
    ensures flip { (a b : Result Flipped FlipError) → IsToldFlip a → IsToldFlip b
        → flip_text a ≡ flip_text b → a ≡ b }
    ensures recall { (a b : Result ℕ RecallError) → IsToldRecall a → IsToldRecall b
        → recall_text a ≡ recall_text b → a ≡ b }
    ensures abandon { (a b : Result ℕ NoCycle) → IsToldAbandon a → IsToldAbandon b
        → abandon_text a ≡ abandon_text b → a ≡ b }
    ensures idle { (a b : Result ℕ IdleError) → IsToldIdle a → IsToldIdle b
        → idle_text a ≡ idle_text b → a ≡ b }
    ensures resize { (a b : Result ℕ ResizeRefusal) → IsToldResize a → IsToldResize b
        → resize_text a ≡ resize_text b → a ≡ b }
    ensures tickets { (a b : Result ℕ TicketsRefusal) → IsToldTickets a → IsToldTickets b
        → tickets_text a ≡ tickets_text b → a ≡ b }
    ensures watch { (a b : Result ℕ WatchError) → IsToldWatch a → IsToldWatch b
        → watch_text a ≡ watch_text b → a ≡ b }
    ensures unwatch { (a b : Bool) → unwatch_text a ≡ unwatch_text b → a ≡ b }
    ensures gone { (a b : List ℕ) → IsToldGone a → IsToldGone b → gone_text a ≡ gone_text b
        → a ≡ b }
{}

/// The line of a tray tells its name, its epoch and how many entries it has, and not which. The
/// line of a heap's numbers tells all of them but the flips and the words of roots that they wrote,
/// which the total line of a trace tells.
pub fn listings_tell_what_they_list()
    ensures tray { (name other : List ℕ) (t u : Tray) → IsTrayName name → IsTrayName other
        → IsToldTray t → IsToldTray u → tray_text name t ≡ tray_text other u
        → (name ≡ other) × (t.epoch ≡ u.epoch) × (length t.entries ≡ length u.entries) }
    ensures stat { (a b : Stat) → IsToldStat a → IsToldStat b → stat_text a ≡ stat_text b
        → a ≡ record b { flips = a.flips; root_words = a.root_words } }
{}
