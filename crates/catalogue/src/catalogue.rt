//! Tables by name, over a set of names that keeps their order.
ghost use Rattle.std.specs.Prelude.{◌≡◌, ◌<◌, None, Some, IsSome, length, set, slice_get, IfOk, IfSome, OnOk, OnErr};
ghost use Rattle.catalogue.specs.Named.{no_tables, place_of_table, with_table};

use crate::fault::CatalogueFault;
use crate::names::{fault_without_copy, place_of, push_name};
use indexmap::IndexSet;
use sq_value::{Memory, Table, Tables};
use std::alloc::Global;
use std::marker::Model;

/// The tables of a run, by place from 0 in the order in which they were added, and by name. Names
/// are the same but for the case of ASCII letters.
#[derive(Drop)]
pub struct Catalogue {
    names: IndexSet<String>,
    tables: Tables,
}

impl Model for Catalogue {
    ghost use Rattle.std.specs.Prelude.{◌≡◌, length};
    ghost use Rattle.catalogue.specs.Names.{bytes_of};
    ghost use Rattle.catalogue.specs.Named.{NamedTables};

    ghost Value = { NamedTables };

    ghost view = { λ c. record { names = bytes_of c.names.keys; tables = c.tables } };

    ghost invariant = { λ c. length c.names.keys ≡ length c.tables };
}

impl Catalogue {
    /// No tables.
    pub fn new(alloc: Global) -> Catalogue
        ensures { result ≡ no_tables }
    {
        Catalogue {
            names: IndexSet::new(alloc),
            tables: Tables::new(alloc),
        }
    }

    /// Adds a table under a name, and gives its place. There are fewer than 4,294,967,295.
    ///
    /// # Errors
    /// - `RepeatedTable`: a table of that name is there.
    /// - `Memory`: there is none, and no memory for the name or the place.
    ///
    /// The catalogue is then unchanged, and the table is dropped.
    pub fn add(&mut self, name: &str, table: Table) -> Result<u32, CatalogueFault>
        requires { length self.old.tables < 4294967295 }
        ensures place { IfOk result (λ place. place ≡ length self.old.tables) }
        ensures added { OnOk result (self.new ≡ with_table self.old name.now table) }
        ensures fresh { OnOk result (place_of_table self.old name.now ≡ None) }
        ensures repeated { result ≡ Err CatalogueFault.RepeatedTable → IsSome (place_of_table self.old name.now) }
        ensures memory { result ≡ Err CatalogueFault.Memory → place_of_table self.old name.now ≡ None }
        ensures unchanged { OnErr result (self.new ≡ self.old) }
    {
        let alloc = *self.names.allocator();
        let Ok(lower) = name.to_ascii_lowercase(alloc) else {
            return Err(fault_without_copy(&self.names, name));
        };
        if place_of(&self.names, lower.as_str()).is_some() {
            return Err(CatalogueFault::RepeatedTable);
        }
        let place = self.tables.len();
        self.names.reserve(1)?;
        self.tables.push(table)?;
        push_name(&mut self.names, lower);
        Ok(place)
    }

    /// The place of the table of that name, or None where there is none. The look-up makes a copy of
    /// the name in lower case.
    ///
    /// # Errors
    /// There is no memory for the copy.
    pub fn find(&self, name: &str) -> Result<Option<u32>, Memory>
        ensures found { IfOk result (λ place. place ≡ place_of_table self.now name.now) }
        ensures within { IfOk result (λ found. IfSome found (λ place. place < length self.now.tables)) }
    {
        let lower = name.to_ascii_lowercase(*self.names.allocator())?;
        let count = self.tables.len() as usize;
        match place_of(&self.names, lower.as_str()) {
            Some(place) if place < count => Ok(Some(place as u32)),
            _ => Ok(None),
        }
    }

    /// The tables, by place.
    pub fn tables(&self) -> &Tables
        ensures { result.now ≡ self.now.tables }
    {
        &self.tables
    }

    /// Puts a table at the place of another, whose columns it has, and gives the other one. The
    /// place is one of a table, and its name stays.
    pub fn set(&mut self, table: u32, new: Table) -> Table
        requires there { table < length self.old.tables }
        requires columns { IfSome (slice_get self.old.tables table) (λ old. new.columns ≡ old.columns) }
        ensures replaced { self.new ≡ record self.old { tables = set self.old.tables table new } }
        ensures given { slice_get self.old.tables table ≡ Some result }
    {
        self.tables.set(table, new)
    }
}
