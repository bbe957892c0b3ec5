//! The names of the cells, in lower case, with what each means to ORDER BY.

ghost use Rattle.std.specs.Prelude.{◌≡◌, ◌<◌, [], ◌∷◌, ◌++◌, List, length, IfOk, OnOk};
ghost use Rattle.std.specs.BTreeMap.{get_by_text};
ghost use Rattle.sq_expr.specs.declared.shape.Cell.{Cell};
ghost use Rattle.sq_bind.specs.Ordered as spec;
ghost use Rattle.sq_bind.specs.Ordered.{HoldsCells};
ghost use Rattle.sq_bind.specs.Statement as statement;

use sq_expr::{AggKind, Cell, ColumnOf};
use sq_value::Memory;
use std::alloc::Global;
use std::collections::BTreeMap;

/// What the cells of one name mean: the first of them by its place, and whether all show what it shows.
#[derive(Clone, Copy, Debug)]
pub struct Meant {
    /// The place of the first cell of the name, from 0.
    pub place: u32,
    /// The set function that it shows, if it shows one.
    pub agg: Option<AggKind>,
    /// The column that it shows, or that its set function takes.
    pub column: ColumnOf,
    /// Whether all cells of the name show the same.
    pub is_one: bool,
}

/// What each name means, under the names in lower case. They are kept in order, so that no choice of names
/// makes a look-up slow.
pub type Meanings = BTreeMap<String, Meant>;

// The number of a set function, which tells it apart.
fn agg_number(agg: Option<AggKind>) -> u8
    ensures { result ≡ statement.agg_number agg }
{
    match agg {
        None => 0,
        Some(AggKind::CountAll) => 1,
        Some(AggKind::Count) => 2,
        Some(AggKind::Sum) => 3,
        Some(AggKind::Min) => 4,
        Some(AggKind::Max) => 5,
    }
}

/// Whether two columns are one.
pub fn is_one_column(column: ColumnOf, other: ColumnOf) -> bool
    ensures { result ≡ statement.is_one_column column other }
{
    column.alias == other.alias && column.column == other.column
}

fn is_at(agg: Option<AggKind>, column: ColumnOf, cell: &Cell) -> bool
    ensures { result ≡ spec.is_at agg column cell.now }
{
    agg_number(agg) == agg_number(cell.agg) && is_one_column(column, cell.column)
}

// What a name means with one more cell of it.
fn meant_with(place: u32, known: Option<Meant>, cell: &Cell) -> Meant
    ensures { result ≡ spec.meant_with place known cell.now }
{
    match known {
        Some(known) => Meant {
            place: known.place,
            agg: known.agg,
            column: known.column,
            is_one: known.is_one && is_at(known.agg, known.column, cell),
        },
        None => Meant {
            place,
            agg: cell.agg,
            column: cell.column,
            is_one: true,
        },
    }
}

/// What the cells of a name mean, which is given in lower case.
pub fn meaning(names: &Meanings, lower: &str) -> Option<Meant>
    ensures { result ≡ get_by_text names.now lower.now }
{
    names.get(lower).copied()
}

// Puts one more cell behind the others.
fn put_cell(alloc: Global, names: &mut Meanings, place: u32, cell: &Cell) -> Result<(), Memory>
    ensures { (front : List Cell) → length front ≡ place → HoldsCells names.old.entries front
        → OnOk result (HoldsCells names.new.entries (front ++ cell.now ∷ [])) }
{
    let lower = cell.name.as_str().to_ascii_lowercase(alloc)?;
    let with = meant_with(place, meaning(names, lower.as_str()), cell);
    names.insert(lower, with)?;
    Ok(())
}

// The names of cells whose places are known to be numbers of 32 bits.
fn names_of(alloc: Global, cells: &[Cell]) -> Result<Meanings, Memory>
    requires { length cells.now < 4294967296 }
    ensures { IfOk result (λ names. HoldsCells names.entries cells.now) }
{
    let mut names = BTreeMap::new(alloc);
    for (index, cell) in cells.iter().enumerate() {
        put_cell(alloc, &mut names, index as u32, cell)?;
    }
    Ok(names)
}

/// What each name of the cells means.
///
/// # Errors
/// `Memory`: there is no memory for the names, or there are more than 4,294,967,295 cells.
pub fn meanings_of(alloc: Global, cells: &[Cell]) -> Result<Meanings, Memory>
    ensures { IfOk result (λ names. HoldsCells names.entries cells.now) }
{
    if cells.len() > 4_294_967_295 {
        return Err(Memory);
    }
    names_of(alloc, cells)
}
