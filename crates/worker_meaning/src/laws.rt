//! The laws of workers, as contracts of functions that do nothing.
ghost use Rattle.std.specs.Prelude.{◌≡◌, ℕ, ◌<◌, ◌++◌, Option, List, Some, [], true, length, map, slice_get, All};
ghost use Rattle.std.specs.List.Sorted.{IsPermutation};
ghost use Rattle.sq_value.specs.Relation.{Relation};
ghost use Rattle.sq_value.specs.declared.value.Value.{Value};
ghost use Rattle.sq_value.specs.declared.value.Truth.{Truth};
ghost use Rattle.sq_value.specs.declared.predicate.Kinds.{Kinds};
ghost use Rattle.sq_expr.specs.Fits.{IsFit};
ghost use Rattle.sq_expr.specs.declared.block.AliasUse.{AliasUse};
ghost use Rattle.sq_expr.specs.declared.block.Block.{Block};
ghost use Rattle.bag_meaning.specs.declared.combo.Built.{Built};
ghost use Rattle.eddy_meaning.specs.Owed.{all_credits};
ghost use Rattle.eddy_runs.specs.Complete.{IsBagOf};
ghost use Rattle.eddy_runs.specs.Told.{Told};
ghost use Rattle.eddy_runs.specs.Recorded.{IsRecorded};
ghost use Rattle.eddy_runs.specs.Followed.{IsFollowed};
ghost use Rattle.eddy_meaning.specs.Keys.{Mark};
ghost use Rattle.worker_meaning.specs.Close.{Seat, PoolMove, HaveClosed, HaveEnded, HaveAnswered, HaveTold, AreAccounted, results_of, most_of, all_told};
ghost use Rattle.worker_meaning.specs.Worker.{Worker, HaveShared, seat_of};
ghost use Rattle.worker_meaning.specs.Answers.{AnswersFor};
ghost use Rattle.eddy_meaning.specs.Hops.{CountsHops};
ghost use Rattle.bag_meaning.specs.declared.combo.Combo.{Combo};

/// The laws of the workers' close. It does nothing.
///
/// The results of all workers together are what the log is credited with (`credits`). Where each
/// row came to some worker, they are the bag in another order (`bag`). Where the workers answer for
/// their keys too and counted their hops, their results, the log, the marked keys and the most hops
/// are an answer as it must be (`recorded`), and where each has its account of what it was told, all
/// that was told accounts for each arrival, entry, key and result (`followed`).
pub fn close_laws()
    ensures credits { (gives : ℕ → Value → Value → Truth) (block : Block) (tables : List Relation)
        → (seats : List Seat) (log : List Built) (marks : List Mark) (moves : List PoolMove)
        → HaveClosed gives block tables seats log marks moves
        → IsPermutation (results_of seats) (all_credits gives block tables log) }
    ensures bag { (gives : ℕ → Value → Value → Truth) (kinds : ℕ → Option Kinds) (block : Block)
        → (tables : List Relation) → IsFit kinds tables block
        → (alias : ℕ) (u : AliasUse) → slice_get block.aliases alias ≡ Some u → u.access.scan ≡ true
        → (seats : List Seat) (log : List Built) (marks : List Mark) (moves : List PoolMove)
        → HaveEnded gives block tables seats log marks moves
        → IsBagOf gives block tables (results_of seats) }
    ensures recorded { (gives : ℕ → Value → Value → Truth) (block : Block) (tables : List Relation)
        → (seats : List Seat) (log : List Built) (marks : List Mark) (moves : List PoolMove)
        → (kinds : ℕ → Option Kinds) → IsFit kinds tables block
        → (alias : ℕ) (u : AliasUse) → slice_get block.aliases alias ≡ Some u → u.access.scan ≡ true
        → 0 < length seats → HaveEnded gives block tables seats log marks moves
        → HaveAnswered gives block tables seats marks
        → IsRecorded gives block tables (results_of seats) log marks (most_of seats) }
    ensures followed { (gives : ℕ → Value → Value → Truth) (block : Block) (tables : List Relation)
        → (seats : List Seat) (log : List Built) (marks : List Mark) (moves : List PoolMove)
        → (tolds : List (List Told)) → HaveClosed gives block tables seats log marks moves
        → HaveAnswered gives block tables seats marks → HaveTold gives block tables seats marks tolds
        → IsFollowed gives block tables (results_of seats) log marks (most_of seats) (all_told tolds) }
{}

/// The laws of what the workers claimed and fetched. It does nothing.
///
/// Where each row came to a worker by a claim or by a key whose mark it made, none owes a key, each
/// row of a scan was claimed once and each mark was made once, then each row that had to come came
/// to some worker (`ended`), each marked key was asked for by one (`answered`), and what arrived is
/// each row of each scan and of each marked key, once (`told`). What was told last may be told
/// behind the first part: so the calls of a policy that goes on after the others may stand behind
/// its own (`apart`).
pub fn sharing_laws()
    ensures ended { (gives : ℕ → Value → Value → Truth) (block : Block) (tables : List Relation)
        → (workers : List Worker) (marks : List Mark) → HaveShared block tables workers marks
        → (log : List Built) (moves : List PoolMove)
        → HaveClosed gives block tables (map seat_of workers) log marks moves
        → HaveEnded gives block tables (map seat_of workers) log marks moves }
    ensures answered { (gives : ℕ → Value → Value → Truth) (block : Block) (tables : List Relation)
        → (workers : List Worker) (marks : List Mark) → HaveShared block tables workers marks
        → All (λ (w : Worker). AnswersFor gives block tables w.view []) workers
        → All (λ (w : Worker). CountsHops block (length w.results) (length w.view.draws) w.most) workers
        → HaveAnswered gives block tables (map seat_of workers) marks }
    ensures told { (gives : ℕ → Value → Value → Truth) (block : Block) (tables : List Relation)
        → (workers : List Worker) (marks : List Mark) → HaveShared block tables workers marks
        → (tolds : List (List Told)) → AreAccounted gives block tables (map seat_of workers) tolds
        → HaveTold gives block tables (map seat_of workers) marks tolds }
    ensures apart { (gives : ℕ → Value → Value → Truth) (block : Block) (tables : List Relation)
        → (combos : List Combo) (log : List Built) (looked : List Mark) (most : ℕ) (front middle back : List Told)
        → IsFollowed gives block tables combos log looked most (front ++ (middle ++ back))
        → IsFollowed gives block tables combos log looked most (front ++ (back ++ middle)) }
{}
