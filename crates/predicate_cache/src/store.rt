//! Where answers are kept.
ghost use Rattle.std.specs.Prelude.{◌≡◌, ◌⊎◌, ◌∷◌, None, length, take};
ghost use Rattle.std.specs.Map.{lookup};
ghost use Rattle.lru.specs.LruCache.{lru_cache, promoted};
ghost use Rattle.predicate_cache.specs.Calls.{is_key};
ghost use Rattle.predicate_cache.specs.Kept.{AreKept};
ghost use Rattle.predicate_cache.specs.Store.{room_of, entries_of};

use crate::call_key::CallKey;
use lru::LruCache;
use sq_value::Truth;

/// Answers by their calls, the latest used first. None keeps nothing.
pub(crate) type Store = Option<LruCache<CallKey, Truth>>;

// The answer of a call where it is kept, which then goes first.
fn found_in(kept: &mut LruCache<CallKey, Truth>, key: CallKey) -> Option<Truth>
    ensures answer { result ≡ lookup (is_key key) kept.old.entries }
    ensures first { kept.new ≡ lru_cache (promoted (is_key key) kept.old.entries) kept.old.cap }
{
    kept.get(&key).copied()
}

// Keeps an answer, which isn't there, in front of the others. The last one goes where there is no room, and where there
// is no memory all stays as it is.
fn keep_in(kept: &mut LruCache<CallKey, Truth>, key: CallKey, truth: Truth)
    requires { lookup (is_key key) kept.old.entries ≡ None }
    ensures { (kept.new ≡ kept.old)
        ⊎ (kept.new ≡ lru_cache (take kept.old.cap ((key, truth) ∷ kept.old.entries)) kept.old.cap) }
{
    // For the proof alone.
    let _few = kept.len();
    let _ = kept.put(key, truth);
}

// The answer of a call where it is kept, which then goes first.
pub(crate) fn found(store: &mut Store, key: CallKey) -> Option<Truth>
    ensures answer { result ≡ lookup (is_key key) (entries_of store.old) }
    ensures first { entries_of store.new ≡ promoted (is_key key) (entries_of store.old) }
    ensures room { room_of store.new ≡ room_of store.old }
{
    match store {
        Some(kept) => found_in(kept, key),
        None => None,
    }
}

// Keeps an answer, which isn't there, in front of the others, where there is room and memory.
pub(crate) fn keep(store: &mut Store, key: CallKey, truth: Truth)
    requires { lookup (is_key key) (entries_of store.old) ≡ None }
    ensures entries { (entries_of store.new ≡ entries_of store.old)
        ⊎ (entries_of store.new ≡ take (room_of store.old) ((key, truth) ∷ entries_of store.old)) }
    ensures room { room_of store.new ≡ room_of store.old }
{
    if let Some(kept) = store {
        keep_in(kept, key, truth);
    }
}

// How many answers are kept.
pub(crate) fn count(store: &Store) -> usize
    ensures count { result ≡ length (entries_of store.now) }
    ensures kept { AreKept (room_of store.now) (entries_of store.now) }
{
    match store {
        Some(kept) => kept.len(),
        None => 0,
    }
}
