//! The cache.
ghost use Rattle.std.specs.Prelude.{◌≡◌, ◌≤◌, Bool, length, IfOk, IsSome, IfSome};
ghost use Rattle.sq_value.specs.Relation.{HasKind};
ghost use Rattle.predicate_cache.specs.Cached.{unused, after_call};
ghost use Rattle.predicate_cache.specs.Kept.{IsCache};

use crate::call_key::known_by;
use crate::store::{Store, count, found, keep};
use lru::LruCache;
use sq_value::{Memory, Predicates, Truth, Value};
use std::alloc::Global;
use std::marker::Model;
use std::num::NonZeroUsize;

/// A cache of the answers of predicates: those about integers and nulls that were used last, up to
/// a fixed number of them, which may be 0. It keeps a borrow of its predicates.
#[derive(Drop)]
pub struct Cache<'f, F: Predicates> {
    functions: &'f F,
    store: Store,
    hits: u64,
}

impl<'f, F: Predicates> Model for Cache<'f, F> {
    ghost use Rattle.std.specs.Coded.{codes};
    ghost use Rattle.predicate_cache.specs.Cached.{Remembered};

    ghost Value = { Remembered F };

    ghost coded = { Prim.hlevel (codes, F.code) };

    ghost use Rattle.predicate_cache.specs.Kept.{AreGiven};
    ghost use Rattle.predicate_cache.specs.Store.{room_of, entries_of};

    ghost view = { λ c. record {
      functions = c.functions.now;
      room = room_of c.store;
      entries = entries_of c.store;
      hits = c.hits;
    } };

    ghost invariant = { λ c. AreGiven F.gives (entries_of c.store) };
}

impl<'f, F: Predicates> Cache<'f, F> {
    /// A cache without room, which keeps nothing: it asks its predicates at each call. It takes no memory.
    pub fn none(functions: &'f F) -> Cache<'f, F>
        ensures { result ≡ unused functions.entry.now 0 }
    {
        Cache {
            functions,
            store: None,
            hits: 0,
        }
    }

    /// A cache without answers of these predicates, with room for 0 to 4,096 of them.
    ///
    /// # Errors
    /// `Memory`: there is no memory for it.
    pub fn new(alloc: Global, functions: &'f F, room: u32) -> Result<Cache<'f, F>, Memory>
        requires few { room ≤ 4096 }
        ensures { IfOk result (λ c. c ≡ unused functions.entry.now room) }
    {
        let Some(cap) = NonZeroUsize::new(room as usize) else {
            return Ok(Cache::none(functions));
        };
        let kept = LruCache::new(alloc, cap)?;
        Ok(Cache {
            functions,
            store: Some(kept),
            hits: 0,
        })
    }

    /// The predicates that the cache asks.
    pub fn functions(&self) -> &'f F
        ensures { result.now ≡ self.now.functions }
    {
        self.functions
    }

    /// The truth that the predicate with this number gives of two values of its argument types. A
    /// kept answer is given again, without a call of the predicate.
    ///
    /// It can't be refused: where there is no memory to keep a new answer, the cache stays as it is.
    pub fn call(&mut self, number: u8, x: &Value, y: &Value) -> Truth
        requires known { IsSome (F.kinds_of self.old.functions number) }
        requires fits { IfSome (F.kinds_of self.old.functions number)
            (λ k. HasKind k.first x.now × HasKind k.second y.now) }
        ensures truth { result ≡ F.gives number x.now y.now }
        ensures cache { (keeps : Bool) × (self.new ≡ after_call F.gives keeps number x.now y.now self.old) }
    {
        let Some(key) = known_by(number, x, y) else {
            return self.functions.call(number, x, y);
        };
        if let Some(truth) = found(&mut self.store, key) {
            self.hits = self.hits.saturating_add(1);
            return truth;
        }
        let truth = self.functions.call(number, x, y);
        keep(&mut self.store, key, truth);
        truth
    }

    /// How often a kept answer was given. It stays at the greatest `u64`.
    pub fn hits(&self) -> u64
        ensures { result ≡ self.now.hits }
    {
        self.hits
    }

    /// The number of answers that are kept. Each is what the predicates give, and no two are of one call.
    pub fn len(&self) -> usize
        ensures len { result ≡ length self.now.entries }
        ensures kept { IsCache F.gives self.now }
    {
        count(&self.store)
    }
}
