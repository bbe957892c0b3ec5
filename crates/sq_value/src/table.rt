//! Tables: typed columns and rows.
ghost use Rattle.std.specs.Prelude.{◌≡◌, [], ◌∷◌, ◌++◌, ◌+◌, ◌<◌, length, Some, IfOk, IfSome, OnOk, OnErr, All, slice_get};

use crate::memory::Memory;
use crate::text::SqText;
use crate::value::{ColType, Value};
use std::alloc::Global;
use std::marker::Model;

/// A column of a table: its name, as it was written, and the type of its values.
#[derive(Debug, Drop)]
pub struct Column {
    /// Its name, as it was written.
    pub name: SqText,
    /// The type of its values.
    pub kind: ColType,
}

/// A table: typed columns and rows, in the order in which they were pushed.
///
/// The rows lie one after another in one flat list of values, so that a row costs no list of its
/// own and a cell is one index computation. A cell takes 24 bytes.
#[derive(Debug, Drop)]
pub struct Table {
    columns: Vec<Column>,
    values: Vec<Value>,
    rows: u32,
}

impl Model for Table {
    ghost use Rattle.std.specs.Prelude.{◌≡◌, ◌*◌, length};
    ghost use Rattle.sq_value.specs.Relation.{Relation};

    ghost Value = { Relation };

    ghost use Rattle.sq_value.specs.Flat.{relation_of, IsFlat};

    ghost view = { relation_of };

    ghost invariant = { IsFlat };
}

impl Table {
    ghost use Rattle.sq_value.specs.Relation.{IsRow, IsHeading, HasKind, cell};

    /// A table of these columns without rows. It has 1 to 64 columns, whose names differ by
    /// [`same_name`](crate::same_name).
    ///
    /// # Errors
    /// `Memory`: there is no memory for it.
    pub fn new(alloc: Global, columns: Vec<Column>) -> Result<Table, Memory>
        requires { IsHeading columns.items }
        ensures { IfOk result (λ t. t ≡ record { columns = columns.items; rows = [] }) }
    {
        Ok(Table {
            columns,
            values: Vec::new(alloc),
            rows: 0,
        })
    }

    /// Takes the room for so many rows more at once, so that pushing them takes no memory but their
    /// texts'.
    ///
    /// # Errors
    /// `Memory`: there is no memory for so many rows.
    pub fn reserve(&mut self, rows: u32) -> Result<(), Memory>
        ensures { self.new ≡ self.old }
    {
        let width = self.columns.len();
        self.values.reserve(rows as usize * width)?;
        Ok(())
    }

    /// Puts a row behind the others. It has one value for each column, null or of the column's
    /// type, and the table has fewer than 4,294,967,295 rows.
    ///
    /// # Errors
    /// `Memory`: there is no memory for the row. The table is unchanged and the row is dropped.
    pub fn push_row(&mut self, mut row: Vec<Value>) -> Result<(), Memory>
        requires fits { IsRow self.old.columns row.items }
        requires room { length self.old.rows < 4294967295 }
        ensures ok { OnOk result (self.new ≡ record self.old { rows = self.old.rows ++ row.items ∷ [] }) }
        ensures err { OnErr result (self.new ≡ self.old) }
    {
        self.append_row(&mut row)
    }

    /// Moves a row behind the others, and leaves its list empty, with its room. The row has one value
    /// for each column, null or of the column's type, and the table has fewer than 4,294,967,295 rows.
    ///
    /// # Errors
    /// `Memory`: there is no memory for the row. The table and the list are unchanged.
    pub fn append_row(&mut self, row: &mut Vec<Value>) -> Result<(), Memory>
        requires fits { IsRow self.old.columns row.old.items }
        requires room { length self.old.rows < 4294967295 }
        ensures ok { OnOk result (self.new ≡ record self.old { rows = self.old.rows ++ row.old.items ∷ [] }) }
        ensures moved { OnOk result (row.new.items ≡ []) }
        ensures err { OnErr result (self.new ≡ self.old) }
        ensures kept { OnErr result (row.new.items ≡ row.old.items) }
    {
        self.values.append(row)?;
        self.rows += 1;
        Ok(())
    }

    /// Moves all rows of a table of the same columns behind its own, in their order, and leaves the
    /// other one without rows. Together they have at most 4,294,967,295.
    ///
    /// # Errors
    /// `Memory`: there is no memory for the rows. Both tables are unchanged.
    pub fn append(&mut self, other: &mut Table) -> Result<(), Memory>
        requires columns { other.old.columns ≡ self.old.columns }
        requires room { length self.old.rows + length other.old.rows < 4294967296 }
        ensures ok { OnOk result (self.new ≡ record self.old { rows = self.old.rows ++ other.old.rows }) }
        ensures moved { OnOk result (other.new ≡ record other.old { rows = [] }) }
        ensures err { OnErr result (self.new ≡ self.old) }
        ensures kept { OnErr result (other.new ≡ other.old) }
    {
        self.values.append(&mut other.values)?;
        self.rows += other.rows;
        other.rows = 0;
        Ok(())
    }

    /// The number of rows.
    pub fn rows(&self) -> u32
        ensures count { result ≡ length self.now.rows }
        ensures fits { All (IsRow self.now.columns) self.now.rows }
    {
        self.rows
    }

    /// The columns, in order.
    pub fn columns(&self) -> &[Column]
        ensures columns { result.now ≡ self.now.columns }
        ensures heading { IsHeading result.now }
    {
        self.columns.as_slice()
    }

    /// The value at a row and a column, both counted from 0 and in range.
    pub fn value(&self, row: u32, column: u32) -> &Value
        requires row_in { row < length self.now.rows }
        requires column_in { column < length self.now.columns }
        ensures value { cell self.now row column ≡ Some result.now }
        ensures kind { IfSome (slice_get self.now.columns column) (λ c. HasKind c.kind result.now) }
    {
        let width = self.columns.len();
        &self.values[row as usize * width + column as usize]
    }
}
