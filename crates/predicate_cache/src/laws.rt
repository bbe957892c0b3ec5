//! The laws of the definitions, as contracts of functions that do nothing.
ghost use Rattle.std.specs.Prelude.{◌≡◌, ◌≤◌, true, ℕ, List, [], All, length, take};
ghost use Rattle.std.specs.Map.{keys_of};
ghost use Rattle.predicate_cache.specs.Cached.{Call, unused, after_calls};
ghost use Rattle.predicate_cache.specs.Kept.{AreGiven};
ghost use Rattle.predicate_cache.specs.Latest.{keys_called, last_uses};

use sq_value::Predicates;

/// The laws of a cache that was made for these predicates and this room, after any list of calls:
/// what is kept is what the predicates give, `given`, and never more than the room, `few`; each call
/// raises the hits by at most one, `hits`. Where each answer is kept that wasn't, what is kept is that of
/// the different calls that were used last, as many as there is room for, in the order of their last use,
/// `latest` (the stack of Mattson, Gecsei, Slutz and Traiger 1970). It does nothing.
pub fn cache_laws<F: Predicates>()
    ensures given { (functions : F) (room : ℕ) (calls : List Call)
        → AreGiven F.gives (after_calls F.gives calls (unused functions room)).entries }
    ensures few { (functions : F) (room : ℕ) (calls : List Call)
        → length (after_calls F.gives calls (unused functions room)).entries ≤ room }
    ensures hits { (functions : F) (room : ℕ) (calls : List Call)
        → (after_calls F.gives calls (unused functions room)).hits ≤ length calls }
    ensures latest { (functions : F) (room : ℕ) (calls : List Call) → All (λ (c : Call). c.keeps ≡ true) calls
        → keys_of (after_calls F.gives calls (unused functions room)).entries
        ≡ take room (last_uses (keys_called calls [])) }
{}
