//! The laws of shared runs, as contracts of functions that do nothing.
ghost use Rattle.std.specs.Prelude.{◌≡◌, ℕ, ◌*◌, ◌<◌, ◌≤◌, [], ◌∷◌, ◌++◌, List, Option, Some, slice_get, slice_index, length, nat_lt, map, All};
ghost use Rattle.std.specs.List.{flat_map};
ghost use Rattle.sq_value.specs.Relation.{Relation};
ghost use Rattle.sq_value.specs.declared.predicate.Kinds.{Kinds};
ghost use Rattle.sq_value.specs.declared.value.Truth.{Truth};
ghost use Rattle.sq_value.specs.declared.value.Value.{Value};
ghost use Rattle.sq_expr.specs.Fits.{IsFit};
ghost use Rattle.sq_expr.specs.declared.block.Block.{Block};
ghost use Rattle.bag_meaning.specs.Bag.{row_count, uses_of};
ghost use Rattle.bag_meaning.specs.declared.combo.Built.{Built};
ghost use Rattle.bag_meaning.specs.declared.combo.Combo.{Combo};
ghost use Rattle.tuple_span.specs.declared.route.Via.{Via};
ghost use Rattle.eddy_meaning.specs.Act.{found_of, unfinished, pending_after};
ghost use Rattle.eddy_meaning.specs.Entries.{entries_of, rows_before};
ghost use Rattle.eddy_meaning.specs.Route.{IsLegalSelect, IsLegalProbe, came_of_select, probed, conjuncts_of};
ghost use Rattle.eddy_meaning.specs.Tuple.{Tuple};
ghost use Rattle.eddy_meaning.specs.Shared.{block_log};
ghost use Rattle.worker_meaning.specs.View.{View, Extends, IsLonger};
ghost use Rattle.shared_meaning.specs.Closed.{Done, HaveDrawn, IsWholeLog, AreSettledFor, IsFoundFor, IsLatest};
ghost use Rattle.shared_meaning.specs.Places.{IsPair, place_at, placed_entry, stamped_entry};
ghost use Rattle.shared_meaning.specs.Settled.{IsScannedAlone, IsSettledFor, made_of};
ghost use Rattle.shared_meaning.specs.Answer.{AreRowsBuilt};
ghost use Rattle.shared_meaning.specs.Numbers.{numbered, used_among, AreSlots, AreUsed};
ghost use Rattle.shared_meaning.specs.SharedLog.{IsSharedLog, IsUsing};
ghost use Rattle.shared_meaning.specs.SharedView.{Completes, view_for};

/// The laws of stamps read as places. It does nothing.
///
/// The places of pairs in a block's log rise with their stamps (`rises`). The entries of an alias in
/// the block's log are those of its table's module, each at the place of its pair (`entries`). The
/// log that a block gets from one that completes a view goes on from what the view tells of the
/// block (`completes`), and a log that completes a view completes one that tells less (`less`).
pub fn place_laws()
    ensures rises { (uses : List ℕ) (log : List Built) (s t : ℕ) → IsPair uses log s → IsPair uses log t
        → length uses ≤ 12 → nat_lt (place_at uses log s) (place_at uses log t) ≡ nat_lt s t }
    ensures entries { (uses : List ℕ) (log : List Built) (b : ℕ) → b < length uses
        → entries_of b (block_log uses log) ≡ map (placed_entry uses log b) (entries_of (slice_index uses b) log) }
    ensures completes { (block : Block) (tables : List Relation) (sizes uses : List ℕ) (view : View) (log : List Built)
        → IsUsing block tables sizes uses → Completes sizes view log
        → Extends block tables (view_for uses log view) (block_log uses log) [] }
    ensures less { (sizes : List ℕ) (old new : View) (log : List Built) → IsLonger old new
        → Completes sizes new log → Completes sizes old log }
{}

/// The laws of a worker's acts in a shared run, for one block. It does nothing.
///
/// A worker that did nothing is settled (`fresh`), and so is one whose view came to tell more (`look`).
/// A selection keeps it settled (`selected`). So does a probe in the turn of the alias's table, of the
/// entries that stand before the tuple's stamp with their pairs' stamps (`probed`), and a build in the
/// turn of the row's table, which makes a tuple for each alias of the table (`built`).
pub fn act_laws()
    ensures fresh { (gives : ℕ → Value → Value → Truth) (kinds : ℕ → Option Kinds) (block : Block)
        → (tables : List Relation) → IsFit kinds tables block → (sizes uses : List ℕ) → IsUsing block tables sizes uses
        → (view : View) → view.draws ≡ [] → IsSettledFor gives block tables sizes uses view [] [] }
    ensures look { (gives : ℕ → Value → Value → Truth) (kinds : ℕ → Option Kinds) (block : Block)
        → (tables : List Relation) → IsFit kinds tables block → (sizes uses : List ℕ) → IsUsing block tables sizes uses
        → (old new : View) (results : List Combo) (pending : List Tuple)
        → IsSettledFor gives block tables sizes uses old results pending → IsLonger old new → new.draws ≡ old.draws
        → IsSettledFor gives block tables sizes uses new results pending }
    ensures selected { (gives : ℕ → Value → Value → Truth) (kinds : ℕ → Option Kinds) (block : Block)
        → (tables : List Relation) → IsFit kinds tables block → (sizes uses : List ℕ) → IsUsing block tables sizes uses
        → (view : View) (results : List Combo) (pending : List Tuple) (place : ℕ) (t : Tuple) (p : ℕ)
        → IsSettledFor gives block tables sizes uses view results pending → slice_get pending place ≡ Some t
        → IsLegalSelect block t p → IsSettledFor gives block tables sizes uses view
        (results ++ found_of block (came_of_select gives block tables t p))
        (pending_after block pending place (came_of_select gives block tables t p)) }
    ensures probes { (gives : ℕ → Value → Value → Truth) (kinds : ℕ → Option Kinds) (block : Block)
        → (tables : List Relation) → IsFit kinds tables block → (sizes uses : List ℕ) → IsUsing block tables sizes uses
        → (old new : View) (results : List Combo) (pending : List Tuple) (place : ℕ) (t : Tuple) (alias : ℕ) (v : Via)
        → IsScannedAlone block → IsSettledFor gives block tables sizes uses old results pending
        → IsLonger old new → new.draws ≡ old.draws
        → slice_get pending place ≡ Some t → (legal : IsLegalProbe block t alias v)
        → legal.stamp < 12 * new.bound (slice_index uses alias)
        → IsSettledFor gives block tables sizes uses new
        (results ++ found_of block (probed gives block tables
        (rows_before legal.stamp (map (stamped_entry alias) (new.seen (slice_index uses alias)))) t alias
        (conjuncts_of v)))
        (pending_after block pending place (probed gives block tables
        (rows_before legal.stamp (map (stamped_entry alias) (new.seen (slice_index uses alias)))) t alias
        (conjuncts_of v))) }
    ensures built { (gives : ℕ → Value → Value → Truth) (kinds : ℕ → Option Kinds) (block : Block)
        → (tables : List Relation) → IsFit kinds tables block → (sizes uses : List ℕ) → IsUsing block tables sizes uses
        → (old new : View) (results : List Combo) (pending : List Tuple) (table row p : ℕ)
        → IsSettledFor gives block tables sizes uses old results pending → IsLonger old new
        → new.draws ≡ old.draws ++ record { alias = table; row = row; stamp = p } ∷ []
        → row < slice_index sizes table
        → IsSettledFor gives block tables sizes uses new
        (results ++ found_of block (made_of uses table row p)) (pending ++ unfinished block (made_of uses table row
        p)) }
{}

/// The law of the close of a shared run, for one block. It does nothing.
///
/// Where the workers are settled for the block with nothing pending, the log of the closed modules
/// completes each view, all draws are its stamps, each once, and each row of each table stands in it,
/// then what the workers found is the block's bag (`found`), and each combination has the greatest
/// `12 p + a` of its parts (`latest`).
pub fn found_laws()
    ensures found { (gives : ℕ → Value → Value → Truth) (kinds : ℕ → Option Kinds) (block : Block)
        → (tables : List Relation) → IsFit kinds tables block → (sizes uses : List ℕ) → IsUsing block tables sizes uses
        → (dones : List Done) (log : List Built) → AreSettledFor gives block tables sizes uses dones
        → HaveDrawn sizes (map (λ (d : Done). d.view) dones) log → IsScannedAlone block → IsWholeLog sizes log
        → IsFoundFor gives block tables uses log (flat_map (λ (d : Done). d.results) dones) }
    ensures latest { (gives : ℕ → Value → Value → Truth) (block : Block) (tables : List Relation) (sizes uses : List ℕ)
        → IsUsing block tables sizes uses → (log : List Built) (results : List Combo)
        → IsFoundFor gives block tables uses log results
        → All (λ (c : Combo). IsLatest uses log c.rows c.stamp) results }
{}

/// The law of tables by their own numbers. It does nothing.
///
/// The tables that pass the test are those that some alias of some block uses, where the blocks fit (`used`). A whole
/// shared log over the places of the used tables, by the tables' own numbers, has each row of each used table once
/// and nothing else (`rows`). A combination has the greatest `12 p + a` of its parts over it, as over the log of
/// places (`latest`).
pub fn number_laws()
    ensures used { (kinds : ℕ → Option Kinds) (tables : List Relation) (blocks : List Block)
        → All (λ (b : Block). IsFit kinds tables b) blocks → AreUsed blocks (used_among blocks (length tables)) }
    ensures rows { (tables : List Relation) (blocks : List Block) (used : List ℕ) → AreUsed blocks used
        → (log : List Built) → IsSharedLog (map (row_count tables) used) log
        → IsWholeLog (map (row_count tables) used) log → AreRowsBuilt tables blocks (map (numbered used) log) }
    ensures latest { (used : List ℕ) (block : Block) (slots : List ℕ) → AreSlots used block (length block.aliases) slots
        → (log : List Built) (rows : List ℕ) (stamp : ℕ) → IsLatest slots log rows stamp
        → IsLatest (uses_of block) (map (numbered used) log) rows stamp }
{}
