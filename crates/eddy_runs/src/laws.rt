//! The laws of runs, as contracts of functions that do nothing.
ghost use Rattle.std.specs.Prelude.{◌≡◌, ℕ, ◌<◌, ◌≤◌, Option, List, Some, true, length, slice_get};
ghost use Rattle.sq_value.specs.Relation.{Relation};
ghost use Rattle.sq_value.specs.declared.value.Value.{Value};
ghost use Rattle.sq_value.specs.declared.value.Truth.{Truth};
ghost use Rattle.sq_value.specs.declared.predicate.Kinds.{Kinds};
ghost use Rattle.sq_expr.specs.Fits.{IsFit};
ghost use Rattle.sq_expr.specs.declared.block.AliasUse.{AliasUse};
ghost use Rattle.sq_expr.specs.declared.block.Block.{Block};
ghost use Rattle.eddy_runs.specs.declared.event.Event.{Event};
ghost use Rattle.eddy_runs.specs.State.{State, IsStep, IsRun, HasEnded, empty_state};
ghost use Rattle.eddy_runs.specs.Work.{work_left, keys_to_ask};
ghost use Rattle.eddy_runs.specs.Reached.{IsReached};
ghost use Rattle.eddy_runs.specs.Complete.{IsBagOf};
ghost use Rattle.eddy_runs.specs.Told.{Told, IsToldRun, most_hops};
ghost use Rattle.eddy_runs.specs.Recorded.{IsRecorded, marks_of};
ghost use Rattle.eddy_runs.specs.Followed.{IsFollowed};

/// The laws of the core's runs. It does nothing.
///
/// What is told of a state stands at the start (`start`), is kept by each step (`step`), and so
/// stands in each state of each run (`run`): in all of them what was found and what the pending
/// tuples owe is what the log is credited with, each pending tuple is faithful and within its
/// hops, each row that came is kept, and each entry is chased. Where a run has ended its results
/// are the bag in another order, look-ups included (`end`). Where its routings were told to a
/// policy, the results, the log, the asked keys and the most hops are an answer as it must be
/// (`recorded`), and what was told accounts for each arrival, entry, key and result (`followed`).
pub fn run_laws()
    ensures start { (gives : ℕ → Value → Value → Truth) (block : Block) (tables : List Relation)
        → IsReached gives block tables (empty_state block) }
    ensures step { (gives : ℕ → Value → Value → Truth) (kinds : ℕ → Option Kinds) (block : Block)
        → (tables : List Relation) → IsFit kinds tables block → (old : State) (event : Event) (new : State)
        → IsReached gives block tables old → IsStep gives block tables old event new
        → IsReached gives block tables new }
    ensures run { (gives : ℕ → Value → Value → Truth) (kinds : ℕ → Option Kinds) (block : Block)
        → (tables : List Relation) → IsFit kinds tables block → (events : List Event) (s : State)
        → IsRun gives block tables events s → IsReached gives block tables s }
    ensures end { (gives : ℕ → Value → Value → Truth) (kinds : ℕ → Option Kinds) (block : Block)
        → (tables : List Relation) → IsFit kinds tables block
        → (alias : ℕ) (u : AliasUse) → slice_get block.aliases alias ≡ Some u → u.access.scan ≡ true
        → (s : State) → IsReached gives block tables s → HasEnded block tables s
        → IsBagOf gives block tables s.results }
    ensures recorded { (gives : ℕ → Value → Value → Truth) (kinds : ℕ → Option Kinds) (block : Block)
        → (tables : List Relation) → IsFit kinds tables block
        → (alias : ℕ) (u : AliasUse) → slice_get block.aliases alias ≡ Some u → u.access.scan ≡ true
        → (tolds : List Told) (s : State) → IsToldRun gives block tables tolds s → HasEnded block tables s
        → IsRecorded gives block tables s.results s.log (marks_of s.asked) (most_hops tolds) }
    ensures followed { (gives : ℕ → Value → Value → Truth) (kinds : ℕ → Option Kinds) (block : Block)
        → (tables : List Relation) → IsFit kinds tables block → (tolds : List Told) (s : State)
        → IsToldRun gives block tables tolds s → HasEnded block tables s
        → IsFollowed gives block tables s.results s.log (marks_of s.asked) (most_hops tolds) tolds }
{}

/// The laws of what a run has left to do. It does nothing.
///
/// Each step leaves less (`falls`), so no run has more steps than there was to do at its start
/// (`ends`).
pub fn work_laws()
    ensures falls { (gives : ℕ → Value → Value → Truth) (kinds : ℕ → Option Kinds) (block : Block)
        → (tables : List Relation) → IsFit kinds tables block → (old new : State) (event : Event)
        → IsReached gives block tables old → length old.next ≡ length block.aliases
        → IsStep gives block tables old event new
        → (length new.next ≡ length block.aliases) × (work_left block tables (keys_to_ask block tables) new
        < work_left block tables (keys_to_ask block tables) old) }
    ensures ends { (gives : ℕ → Value → Value → Truth) (kinds : ℕ → Option Kinds) (block : Block)
        → (tables : List Relation) → IsFit kinds tables block → (events : List Event) (s : State)
        → IsRun gives block tables events s
        → length events ≤ work_left block tables (keys_to_ask block tables) (empty_state block) }
{}
