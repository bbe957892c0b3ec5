//! Columns as a set: those of GROUP BY, and those that the cells show. Each look-up takes a time that goes
//! with the logarithm of their number, so no list of columns is walked for each name.

ghost use Rattle.std.specs.Prelude.{◌≡◌, ◌||◌, IfOk, OnOk};
ghost use Rattle.std.specs.List.{list_any};
ghost use Rattle.sq_expr.specs.declared.cond.ColumnOf.{ColumnOf};
ghost use Rattle.sq_bind.specs.Statement.{is_one_column, is_grouping, shows};
ghost use Rattle.sq_bind.specs.Columns.{has};

use sq_expr::{Cell, ColumnOf};
use sq_value::Memory;
use std::alloc::Global;
use std::collections::BTreeSet;
use std::marker::Model;

// Whether a column is in a set.
fn is_in(places: &BTreeSet<(u8, u32)>, column: ColumnOf) -> bool
    ensures { result ≡ has places.now column }
{
    places.contains(&(column.alias, column.column))
}

// Puts a column into a set.
fn put_column(places: &mut BTreeSet<(u8, u32)>, column: ColumnOf) -> Result<(), Memory>
    ensures { (other : ColumnOf) → OnOk result (has places.new other
        ≡ (has places.old other || is_one_column other column)) }
{
    places.insert((column.alias, column.column))?;
    Ok(())
}

// Puts the column of a cell into a set, where the cell shows it as it is.
fn put_shown(places: &mut BTreeSet<(u8, u32)>, cell: &Cell) -> Result<(), Memory>
    ensures { (other : ColumnOf) → OnOk result (has places.new other ≡ (has places.old other || shows other cell.now)) }
{
    match cell.agg {
        Some(_) => Ok(()),
        None => put_column(places, cell.column),
    }
}

// The set of some columns.
fn places_of(alloc: Global, columns: &[ColumnOf]) -> Result<BTreeSet<(u8, u32)>, Memory>
    ensures { IfOk result (λ places. (other : ColumnOf) → has places other ≡ is_grouping columns.now other) }
{
    let mut places = BTreeSet::new(alloc);
    for column in columns {
        put_column(&mut places, *column)?;
    }
    Ok(places)
}

// The set of the columns that cells show.
fn shown_of(alloc: Global, cells: &[Cell]) -> Result<BTreeSet<(u8, u32)>, Memory>
    ensures { IfOk result (λ places. (other : ColumnOf) → has places other ≡ list_any (shows other) cells.now) }
{
    let mut places = BTreeSet::new(alloc);
    for cell in cells {
        put_shown(&mut places, cell)?;
    }
    Ok(places)
}

/// The columns of GROUP BY, as a list and as a set. Seen as the list.
#[derive(Drop)]
pub struct Grouping {
    columns: Vec<ColumnOf>,
    places: BTreeSet<(u8, u32)>,
}

impl Model for Grouping {
    ghost use Rattle.std.specs.Prelude.{◌≡◌, List};
    ghost use Rattle.sq_expr.specs.declared.cond.ColumnOf.{ColumnOf};
    ghost use Rattle.sq_bind.specs.Statement.{is_grouping};
    ghost use Rattle.sq_bind.specs.Columns.{has};

    ghost Value = { List ColumnOf };

    ghost view = { λ s. s.columns.items };

    ghost invariant = { λ s. (column : ColumnOf) → has s.places column ≡ is_grouping s.columns.items column };
}

impl Grouping {
    /// These columns.
    ///
    /// # Errors
    /// `Memory`: there is no memory for the set.
    pub fn of(alloc: Global, columns: Vec<ColumnOf>) -> Result<Grouping, Memory>
        ensures { IfOk result (λ grouping. grouping ≡ columns.items) }
    {
        let places = places_of(alloc, columns.as_slice())?;
        Ok(Grouping { columns, places })
    }

    /// Whether a column is one of them.
    pub fn has(&self, column: ColumnOf) -> bool
        ensures { result ≡ is_grouping self.now column }
    {
        is_in(&self.places, column)
    }

    /// The list.
    pub fn into_columns(self) -> Vec<ColumnOf>
        ensures { result.items ≡ self }
    {
        self.columns
    }
}

/// The cells of a select list, with the set of the columns that they show. Seen as the cells.
#[derive(Drop)]
pub struct ShownCells {
    cells: Vec<Cell>,
    places: BTreeSet<(u8, u32)>,
}

impl Model for ShownCells {
    ghost use Rattle.std.specs.Prelude.{◌≡◌, List};
    ghost use Rattle.std.specs.List.{list_any};
    ghost use Rattle.sq_expr.specs.declared.cond.ColumnOf.{ColumnOf};
    ghost use Rattle.sq_expr.specs.declared.shape.Cell.{Cell};
    ghost use Rattle.sq_bind.specs.Statement.{shows};
    ghost use Rattle.sq_bind.specs.Columns.{has};

    ghost Value = { List Cell };

    ghost view = { λ s. s.cells.items };

    ghost invariant = { λ s. (column : ColumnOf) → has s.places column ≡ list_any (shows column) s.cells.items };
}

impl ShownCells {
    /// These cells.
    ///
    /// # Errors
    /// `Memory`: there is no memory for the set.
    pub fn of(alloc: Global, cells: Vec<Cell>) -> Result<ShownCells, Memory>
        ensures { IfOk result (λ shown. shown ≡ cells.items) }
    {
        let places = shown_of(alloc, cells.as_slice())?;
        Ok(ShownCells { cells, places })
    }

    /// Whether one of them shows a column as it is.
    pub fn shows(&self, column: ColumnOf) -> bool
        ensures { result ≡ list_any (shows column) self.now }
    {
        is_in(&self.places, column)
    }

    /// The cells, in order.
    pub fn cells(&self) -> &[Cell]
        ensures { result.now ≡ self.now }
    {
        &self.cells
    }

    /// The list.
    pub fn into_cells(self) -> Vec<Cell>
        ensures { result.items ≡ self }
    {
        self.cells
    }
}
