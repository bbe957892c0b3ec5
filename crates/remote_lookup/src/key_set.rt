//! Sets of keys.
ghost use Rattle.std.specs.Prelude.{◌≡◌, ◌↔◌, [], not, IsTrue, IfOk, OnOk};
ghost use Rattle.remote_lookup.specs.Rounds.{lists_key, AreOrdered};
ghost use Rattle.remote_lookup.specs.Asked.{IsKey, Grown};

use crate::remote::RemoteKey;
use sq_value::Memory;
use std::alloc::Global;
use std::collections::BTreeSet;
use std::marker::Model;

/// A set of keys, seen as its keys by remote and then rising.
#[derive(Drop)]
pub(crate) struct KeySet {
    keys: BTreeSet<RemoteKey>,
}

impl Model for KeySet {
    ghost use Rattle.std.specs.Prelude.{List};
    ghost use Rattle.remote_lookup.specs.declared.remote.RemoteKey.{RemoteKey as Key};

    ghost Value = { List Key };

    ghost view = { λ s. s.keys.keys };
}

impl KeySet {
    /// No keys.
    pub(crate) fn new(alloc: Global) -> KeySet
        ensures { result ≡ [] }
    {
        KeySet {
            keys: BTreeSet::new(alloc),
        }
    }

    /// Whether it has no keys.
    pub(crate) fn is_empty(&self) -> bool
        ensures { IsTrue result ↔ (self.now ≡ []) }
    {
        self.keys.is_empty()
    }

    /// Whether it has a key.
    pub(crate) fn has(&self, key: RemoteKey) -> bool
        ensures { result ≡ lists_key self.now key.remote key.key }
    {
        self.keys.contains(&key)
    }

    /// Adds a key, and answers whether it is new.
    ///
    /// # Errors
    /// `Memory`: there is no memory for it.
    pub(crate) fn insert(&mut self, key: RemoteKey) -> Result<bool, Memory>
        ensures new { IfOk result (λ new. new ≡ not (lists_key self.old key.remote key.key)) }
        ensures grown { OnOk result (Grown (IsKey key) self.old self.new) }
        ensures ordered { AreOrdered self.new }
    {
        Ok(self.keys.insert(key)?)
    }

    /// Its keys, in order.
    ///
    /// # Errors
    /// `Memory`: there is no memory for them.
    pub(crate) fn listed(&self, alloc: Global) -> Result<Vec<RemoteKey>, Memory>
        ensures keys { IfOk result (λ keys. keys.items ≡ self.now) }
        ensures ordered { IfOk result (λ keys. AreOrdered keys.items) }
    {
        let mut keys = Vec::with_capacity(alloc, self.keys.len())?;
        for key in self.keys.iter() {
            keys.push(*key)?;
        }
        Ok(keys)
    }
}
