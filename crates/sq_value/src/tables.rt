//! The tables of a run.
ghost use Rattle.std.specs.Prelude.{◌≡◌, [], ◌∷◌, ◌++◌, ◌<◌, length, set, Some, IfSome, OnOk, OnErr, slice_get};

use crate::memory::Memory;
use crate::table::Table;
use std::alloc::Global;
use std::marker::Model;
use std::mem;

/// The tables of a run, by number from 0 in the order in which they were pushed.
#[derive(Debug, Drop)]
pub struct Tables {
    tables: Vec<Table>,
}

impl Model for Tables {
    ghost use Rattle.std.specs.Prelude.{List, ◌<◌, length};
    ghost use Rattle.sq_value.specs.Relation.{Relation};

    ghost Value = { List Relation };

    ghost view = { λ t. t.tables.items };

    ghost invariant = { λ t. length t.tables.items < 4294967296 };
}

impl Tables {
    /// No tables.
    pub fn new(alloc: Global) -> Tables
        ensures { result ≡ [] }
    {
        Tables {
            tables: Vec::new(alloc),
        }
    }

    /// Puts a table behind the others; there are fewer than 4,294,967,295.
    ///
    /// # Errors
    /// `Memory`: there is no memory for it. The tables are unchanged and the table is dropped.
    pub fn push(&mut self, table: Table) -> Result<(), Memory>
        requires { length self.old < 4294967295 }
        ensures ok { OnOk result (self.new ≡ self.old ++ table ∷ []) }
        ensures err { OnErr result (self.new ≡ self.old) }
    {
        self.tables.push(table)?;
        Ok(())
    }

    /// The number of tables.
    pub fn len(&self) -> u32
        ensures { result ≡ length self.now }
    {
        self.tables.len() as u32
    }

    /// The table with this number, which is in range.
    pub fn get(&self, table: u32) -> &Table
        requires { table < length self.now }
        ensures { slice_get self.now table ≡ Some result.now }
    {
        &self.tables[table as usize]
    }

    /// Puts a table at the place of another, whose columns it has, and gives the other one. The
    /// number is in range.
    pub fn set(&mut self, table: u32, new: Table) -> Table
        requires there { table < length self.old }
        requires columns { IfSome (slice_get self.old table) (λ old. new.columns ≡ old.columns) }
        ensures replaced { self.new ≡ set self.old table new }
        ensures given { slice_get self.old table ≡ Some result }
    {
        mem::replace(&mut self.tables[table as usize], new)
    }
}
