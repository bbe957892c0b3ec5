//! The tables of the keys that are loaded.
ghost use Rattle.std.specs.Prelude.{◌≡◌, [], length, IfOk, OnOk};
ghost use Rattle.std.specs.BTreeMap.{insert_entry};
ghost use Rattle.remote_lookup.specs.Gathered.{CanTake, with_keys};
ghost use Rattle.remote_lookup.specs.Rounds.{AreOrdered, key_order};
ghost use Rattle.remote_lookup.specs.Working.{known};

use crate::remote::{Loaded, RemoteKey};
use sq_value::{Memory, Table};
use std::alloc::Global;
use std::collections::BTreeMap;
use std::marker::Model;

/// The tables of keys, seen as keys and tables by remote and then by rising key.
#[derive(Drop)]
pub(crate) struct KeyTables {
    tables: BTreeMap<RemoteKey, Table>,
}

impl Model for KeyTables {
    ghost use Rattle.std.specs.Prelude.{List};
    ghost use Rattle.sq_value.specs.Relation.{Relation};
    ghost use Rattle.remote_lookup.specs.declared.remote.RemoteKey.{RemoteKey as Key};

    ghost Value = { List (Key × Relation) };

    ghost view = { λ s. s.tables.entries };
}

impl KeyTables {
    /// No keys.
    pub(crate) fn new(alloc: Global) -> KeyTables
        ensures { result ≡ [] }
    {
        KeyTables {
            tables: BTreeMap::new(alloc),
        }
    }

    /// How many keys there are.
    pub(crate) fn len(&self) -> usize
        ensures { result ≡ length self.now }
    {
        self.tables.len()
    }

    /// Puts the table of a key at its place.
    ///
    /// # Errors
    /// `Memory`: there is no memory for it.
    pub(crate) fn insert(&mut self, key: RemoteKey, table: Table) -> Result<(), Memory>
        ensures new { OnOk result (self.new ≡ insert_entry key_order self.old key table) }
        ensures ordered { AreOrdered (known self.new) }
    {
        self.tables.insert(key, table)?;
        Ok(())
    }

    /// The keys in order, and their rows behind those of the tables of their remotes.
    ///
    /// # Errors
    /// `Memory`: there is no memory for them.
    pub(crate) fn gathered(self, alloc: Global, into: Vec<Table>) -> Result<Loaded, Memory>
        requires { CanTake into.items self }
        ensures keys { IfOk result (λ loaded. loaded.keys.items ≡ known self) }
        ensures tables { IfOk result (λ loaded. loaded.tables.items ≡ with_keys into.items self) }
    {
        let mut tables = into;
        let mut keys = Vec::new(alloc);
        for (key, table) in self.tables {
            let mut rows = table;
            tables[key.remote as usize].append(&mut rows)?;
            keys.push(key)?;
        }
        Ok(Loaded { tables, keys })
    }
}
