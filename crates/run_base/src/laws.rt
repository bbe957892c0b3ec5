//! The laws of what can be run, as contracts of functions that do nothing.
ghost use Rattle.std.specs.Prelude.{◌≡◌, ℕ, List, Option, map};
ghost use Rattle.sq_value.specs.Relation.{Relation};
ghost use Rattle.sq_value.specs.declared.predicate.Kinds.{Kinds as TheKinds};
ghost use Rattle.run_base.specs.Runnable.{IsRunnable};
ghost use Rattle.run_base.specs.declared.bound.Bound.{Bound as TheBound};

/// The law of exchanged tables: what can be run over tables can be run over others of the same
/// columns. It does nothing.
pub fn exchange_law()
    ensures { (kinds : ℕ → Option TheKinds) (tables other : List Relation) (bound : TheBound)
        → map (λ t. t.columns) tables ≡ map (λ t. t.columns) other
        → IsRunnable kinds tables bound → IsRunnable kinds other bound }
{}
