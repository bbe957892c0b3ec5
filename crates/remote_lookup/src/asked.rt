//! The keys that are asked for.
ghost use Rattle.std.specs.Prelude.{◌≡◌, [], IfOk, OnOk};
ghost use Rattle.remote_lookup.specs.Asked.{IsKey, Grows};
ghost use Rattle.remote_lookup.specs.Rounds.{AreOrdered};

use crate::key_set::KeySet;
use crate::remote::RemoteKey;
use sq_value::Memory;
use std::alloc::Global;

/// The keys that are asked for: all of them, and those that no round has taken yet.
#[derive(Drop)]
pub(crate) struct Asked {
    pub(crate) all: KeySet,
    pub(crate) fresh: KeySet,
}

impl Asked {
    /// No keys.
    pub(crate) fn new(alloc: Global) -> Asked
        ensures { result ≡ record { all = []; fresh = [] } }
    {
        Asked {
            all: KeySet::new(alloc),
            fresh: KeySet::new(alloc),
        }
    }

    /// Asks for a key, which is fresh unless it was asked for before.
    ///
    /// # Errors
    /// `Memory`: there is no memory for it.
    pub(crate) fn ask(&mut self, key: RemoteKey) -> Result<(), Memory>
        ensures { OnOk result (Grows (IsKey key) self.old self.new) }
    {
        if self.all.insert(key)? {
            self.fresh.insert(key)?;
        }
        Ok(())
    }

    /// The fresh keys, in order; none is fresh then.
    ///
    /// # Errors
    /// `Memory`: there is no memory for them.
    pub(crate) fn take_fresh(&mut self, alloc: Global) -> Result<Vec<RemoteKey>, Memory>
        ensures keys { IfOk result (λ keys. keys.items ≡ self.old.fresh) }
        ensures ordered { IfOk result (λ keys. AreOrdered keys.items) }
        ensures taken { OnOk result (self.new ≡ record self.old { fresh = [] }) }
    {
        let fresh = self.fresh.listed(alloc)?;
        self.fresh = KeySet::new(alloc);
        Ok(fresh)
    }
}
