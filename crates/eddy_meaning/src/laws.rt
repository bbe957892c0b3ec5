//! The laws of what a tuple owes, as contracts of functions that do nothing.
ghost use Rattle.std.specs.Prelude.{◌≡◌, ◌≢◌, ℕ, ◌+◌, ◌*◌, ◌<◌, ◌≤◌, ◌++◌, Option, List, Some, None, [], ◌∷◌, true, false, cond, nat_lt, length, take, slice_get, slice_set, slice_index, All};
ghost use Rattle.std.specs.List.{flat_map};
ghost use Rattle.std.specs.List.Sorted.{IsPermutation};
ghost use Rattle.sq_value.specs.Rank.{Rank};
ghost use Rattle.sq_value.specs.Relation.{Relation};
ghost use Rattle.sq_value.specs.declared.value.Value.{Value};
ghost use Rattle.sq_value.specs.declared.value.Truth.{Truth};
ghost use Rattle.sq_value.specs.declared.predicate.Kinds.{Kinds};
ghost use Rattle.sq_expr.specs.Fits.{IsFit};
ghost use Rattle.sq_expr.specs.Reach.{IsReachable};
ghost use Rattle.sq_expr.specs.declared.block.Block.{Block};
ghost use Rattle.sq_expr.specs.declared.block.Conjunct.{Conjunct};
ghost use Rattle.bag_meaning.specs.Bag.{sizes_of};
ghost use Rattle.bag_meaning.specs.Credit.{credit};
ghost use Rattle.bag_meaning.specs.declared.combo.Built.{Built};
ghost use Rattle.tuple_span.specs.Parts.{part_of};
ghost use Rattle.tuple_span.specs.declared.route.Route.{Route};
ghost use Rattle.eddy_meaning.specs.Tuple.{Tuple, combination_of, CoversAll, is_true_of};
ghost use Rattle.eddy_meaning.specs.Log.{IsBuildLog, HasNoRepeat, rows_built};
ghost use Rattle.eddy_meaning.specs.Entries.{entries_of, rows_before, GoesOn};
ghost use Rattle.eddy_meaning.specs.Owed.{owed_at};
ghost use Rattle.eddy_meaning.specs.Faithful.{IsSound, IsFaithful, StandsAt, is_finished};
ghost use Rattle.eddy_meaning.specs.Route.{IsLegal, AsksFor, came, log_after};
ghost use Rattle.eddy_meaning.specs.Keys.{Mark, IsMarked};
ghost use Rattle.eddy_meaning.specs.Act.{RouteFacts};
ghost use Rattle.eddy_meaning.specs.Shared.{block_log, place_in};
ghost use Rattle.eddy_meaning.specs.Hops.{HasHops, hop_bound};

use crate::entry::Entry;

/// The laws of what a tuple owes, over any build log. It does nothing.
///
/// The log behind a tuple's stamp doesn't count (`behind`). The tuple of a built row owes what the
/// row's stamp is credited with (`built`). Where a conjunct that it covers isn't True a tuple owes
/// nothing (`untrue`). What it owes is shared out over the entries of an alias that it lacks, those
/// before its stamp (`shared`). With a row of each alias and each conjunct True it owes its own
/// match (`finished`).
pub fn owed_laws()
    ensures behind { (gives : ℕ → Value → Value → Truth) (block : Block) (tables : List Relation)
        → (log more : List Built) (stamp : ℕ) (parts : List (Option ℕ)) → stamp ≤ length log
        → owed_at gives block tables (log ++ more) stamp parts ≡ owed_at gives block tables log stamp parts }
    ensures built { (gives : ℕ → Value → Value → Truth) (block : Block) (tables : List Relation)
        → (log : List Built) (k : ℕ) (b : Built) (parts : List (Option ℕ)) → HasNoRepeat log
        → slice_get log k ≡ Some b → b.alias < length block.aliases → part_of parts b.alias ≡ Some b.row
        → ((a : ℕ) → a ≢ b.alias → part_of parts a ≡ None)
        → owed_at gives block tables log k parts ≡ credit gives block tables log k }
    ensures untrue { (gives : ℕ → Value → Value → Truth) (kinds : ℕ → Option Kinds) (block : Block)
        → (tables : List Relation) → IsFit kinds tables block
        → (log : List Built) (stamp p : ℕ) (c : Conjunct) (parts : List (Option ℕ))
        → slice_get block.conjuncts p ≡ Some c → CoversAll parts c.span
        → is_true_of gives block tables parts c ≡ false → owed_at gives block tables log stamp parts ≡ [] }
    ensures shared { (gives : ℕ → Value → Value → Truth) (block : Block) (tables : List Relation)
        → (log : List Built) (stamp alias : ℕ) (parts : List (Option ℕ)) → HasNoRepeat log
        → part_of parts alias ≡ None → alias < length block.aliases → alias < length parts
        → IsPermutation (owed_at gives block tables log stamp parts)
        (flat_map (λ row. owed_at gives block tables log stamp (slice_set parts alias (Some row)))
        (rows_built alias (take stamp log))) }
    ensures finished { (gives : ℕ → Value → Value → Truth) (kinds : ℕ → Option Kinds) (block : Block)
        → (tables : List Relation) → IsFit kinds tables block
        → (log : List Built) (stamp : ℕ) (parts : List (Option ℕ)) → length block.aliases ≤ length parts
        → ((a : ℕ) → a < length block.aliases
        → (r : ℕ) × (part_of parts a ≡ Some r) × (r < slice_index (sizes_of block tables) a))
        → ((p : ℕ) (c : Conjunct) → slice_get block.conjuncts p ≡ Some c
        → CoversAll parts c.span × (is_true_of gives block tables parts c ≡ true))
        → owed_at gives block tables log stamp parts ≡ combination_of block parts ∷ [] }
{}

/// The laws of one routing. It does nothing.
///
/// A legal routing of a faithful tuple, whose asked keys are marked afterwards, adds at most one
/// entry to the log; what comes of it is faithful, owes what the tuple owed and what the new entry
/// is credited with, and lets no match go (`routed`). In a reachable block a sound tuple with no
/// legal route is finished (`stuck`). A tuple's hops stay between the bounds of its parts and done
/// conjuncts (`hops`), so no routing of an unfinished one goes past the bound of the block
/// (`bound`). Each part of a tuple that stands in the log has a stamp of its own, its place there,
/// and the tuple's is the greatest of them (`stamps`).
pub fn route_laws()
    ensures routed { (gives : ℕ → Value → Value → Truth) (kinds : ℕ → Option Kinds) (block : Block)
        → (tables : List Relation) → IsFit kinds tables block → (marks : List Mark) (log : List Built) (t : Tuple)
        → (route : Route) → IsBuildLog block tables log → IsFaithful gives block tables log t → IsLegal block t route
        → ((alias : ℕ) (key : Rank) → AsksFor block tables t route alias key → IsMarked marks alias key)
        → RouteFacts gives block tables (IsMarked marks) log (log_after log t route) t
        (came gives block tables log t route) }
    ensures stuck { (kinds : ℕ → Option Kinds) (block : Block) (tables : List Relation)
        → IsFit kinds tables block → IsReachable block → (t : Tuple) → IsSound block tables t
        → ((route : Route) → IsLegal block t route → ⊥) → is_finished block t ≡ true }
    ensures hops { (gives : ℕ → Value → Value → Truth) (kinds : ℕ → Option Kinds) (block : Block)
        → (tables : List Relation) → IsFit kinds tables block
        → (log : List Built) (t : Tuple) (route : Route) → length t.parts ≡ 12 → IsLegal block t route
        → HasHops t → All HasHops (came gives block tables log t route) }
    ensures bound { (block : Block) (tables : List Relation) (t : Tuple) → IsSound block tables t → HasHops t
        → is_finished block t ≡ false → t.hops + 1 ≤ hop_bound block }
    ensures stamps { (log : List Built) (parts : List (Option ℕ)) (stamp a r : ℕ) → StandsAt log parts stamp
        → part_of parts a ≡ Some r
        → (k : ℕ) × (slice_get log k ≡ Some (record { alias = a; row = r })) × (k ≤ stamp) }
{}

/// The laws of state modules. It does nothing.
///
/// The rows that stand in an alias's module before a stamp are those of that alias in the front of
/// the log (`rows`). What was seen of a module holds all of them, where nothing came later below a
/// bound that the stamp doesn't pass (`seen`).
pub fn module_laws()
    ensures rows { (alias : ℕ) (log : List Built) (stamp : ℕ)
        → rows_before stamp (entries_of alias log) ≡ rows_built alias (take stamp log) }
    ensures seen { (seen now : List Entry) (bound stamp : ℕ) → GoesOn seen bound now → stamp ≤ bound
        → rows_before stamp now ≡ rows_before stamp seen }
{}

/// The laws of the log that a block gets from a shared one, in which entries are rows of tables. It
/// does nothing.
///
/// No entry stands in it twice (`once`). Before the place of an alias's entry an alias has the rows
/// of its table up to the shared entry, and that row too where its number is lower (`rows`). The
/// test of stamps `12 p + a` is that of the shared stamps p, or of `p + 1` where the other alias is
/// lower (`stamps`).
pub fn shared_laws()
    ensures once { (uses : List ℕ) (shared : List Built) → HasNoRepeat shared → HasNoRepeat (block_log uses shared) }
    ensures rows { (uses : List ℕ) (front back : List Built) (e : Built) (a b : ℕ)
        → a ≤ length uses → b < length uses
        → rows_built b (take (place_in uses front e.alias a) (block_log uses (front ++ e ∷ back)))
        ≡ rows_built (slice_index uses b)
        (take (cond (nat_lt b a) (length front + 1) (length front)) (front ++ e ∷ back)) }
    ensures stamps { (p q a b : ℕ) → a < 12 → b < 12
        → nat_lt (12 * q + b) (12 * p + a) ≡ nat_lt q (cond (nat_lt b a) (p + 1) p) }
{}
