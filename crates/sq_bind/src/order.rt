//! ORDER BY: what it sorts by, and its faults. A cell of a name goes before the columns of FROM.

ghost use Rattle.std.specs.Prelude.{◌≡◌, ℕ, [], List, map, None, IfOk};
ghost use Rattle.std.specs.List.{flat_map};
ghost use Rattle.sq_value.specs.Name.{lower};
ghost use Rattle.sq_parse.specs.Tree.{column_place};
ghost use Rattle.sq_expr.specs.declared.shape.Cell.{Cell};
ghost use Rattle.sq_bind.specs.Fault.{first_of};
ghost use Rattle.sq_bind.specs.Statement as spec;
ghost use Rattle.sq_bind.specs.Statement.{Sorting};
ghost use Rattle.sq_bind.specs.Ordered as ordered;
ghost use Rattle.sq_bind.specs.Ordered.{HoldsCells};
ghost use Rattle.sq_bind.specs.Seen.{seen};
ghost use Rattle.sq_bind.specs.Seen as found;

use crate::columns::{Grouping, ShownCells};
use crate::fault::{BindFault, sooner};
use crate::output::{Meanings, Meant, meaning};
use crate::visible::{SeenAlias, resolve};
use sq_expr::{ColumnOf, ShapeOrder, SortOn};
use sq_parse::{ColRef, OrderItem, column_place};
use sq_value::Memory;
use sqlite_items::Items;
use std::alloc::Global;

// The cell of a name, or a fault.
#[tactic(auto, unfolding(crate::specs::Ordered::told))]
fn told(at: u32, meant: Meant) -> Result<SortOn, BindFault>
    ensures { result ≡ ordered.told at meant }
{
    if meant.is_one {
        Ok(SortOn::Cell(meant.place))
    } else {
        Err(BindFault::AmbiguousColumn { at })
    }
}

fn resolved_column(aliases: &[SeenAlias<'_>], column: &ColRef) -> Result<SortOn, BindFault>
    ensures { (place : ℕ) → result ≡ spec.sorted_on (map seen aliases.now) column.now place [] }
{
    match resolve(aliases, column) {
        Ok(found) => Ok(SortOn::Column(found.column)),
        Err(fault) => Err(fault),
    }
}

// A name without an alias in front, which is given in lower case too.
fn named_column(
    aliases: &[SeenAlias<'_>],
    names: &Meanings,
    column: &ColRef,
    name: &str,
) -> Result<SortOn, BindFault>
    requires { name.now ≡ lower column.now.column.text }
    ensures { (cells : List Cell) → HoldsCells names.now.entries cells
        → result ≡ spec.sorted_on (map seen aliases.now) column.now (spec.first_named cells column.now.column.text)
        (spec.candidates cells None column.now.column.text) }
{
    match meaning(names, name) {
        Some(meant) => told(column_place(column), meant),
        None => resolved_column(aliases, column),
    }
}

// What a column of ORDER BY means: a cell of its name, or a column of FROM.
fn order_on(
    aliases: &[SeenAlias<'_>],
    names: &Meanings,
    column: &ColRef,
    name: &str,
) -> Result<SortOn, BindFault>
    requires { name.now ≡ lower column.now.column.text }
    ensures { (cells : List Cell) → HoldsCells names.now.entries cells
        → result ≡ spec.order_on (map seen aliases.now) cells column.now }
{
    match &column.alias {
        Some(_) => resolved_column(aliases, column),
        None => named_column(aliases, names, column, name),
    }
}

/// What ORDER BY may sort by beside the cells: of a DISTINCT statement the columns that cells show, and of
/// a grouped one those of GROUP BY.
#[derive(Clone, Copy)]
pub struct Sortable<'a> {
    /// Whether the statement is DISTINCT.
    pub distinct: bool,
    /// Whether it is grouped.
    pub grouped: bool,
    /// The columns of GROUP BY.
    pub keys: &'a Grouping,
    /// The columns that its cells show.
    pub cells: &'a ShownCells,
}

// A column that no cell names.
fn sorted_fault(by: Sortable<'_>, at: u32, column: ColumnOf) -> Option<BindFault>
    ensures { result ≡ first_of (spec.sorted_faults (found.sorting by.entry) at column) }
{
    if by.distinct && !by.cells.shows(column) {
        Some(BindFault::NotSelected { at })
    } else if by.grouped && !by.keys.has(column) {
        Some(BindFault::NotGrouped { at })
    } else {
        None
    }
}

fn order_fault(by: Sortable<'_>, at: u32, on: Result<SortOn, BindFault>) -> Option<BindFault>
    ensures { result ≡ first_of (spec.order_faults (found.sorting by.entry) at on) }
{
    match on {
        Ok(SortOn::Cell(_)) => None,
        Ok(SortOn::Column(column)) => sorted_fault(by, at, column),
        Err(fault) => Some(fault),
    }
}

fn key_fault(
    alloc: Global,
    aliases: &[SeenAlias<'_>],
    names: &Meanings,
    by: Sortable<'_>,
    key: &OrderItem,
) -> Result<Option<BindFault>, Memory>
    requires { HoldsCells names.now.entries by.cells.now }
    ensures { IfOk result (λ fault.
        fault ≡ first_of (spec.key_faults (map seen aliases.now) (found.sorting by.entry) key.now)) }
{
    let name = key.column.column.text.as_str().to_ascii_lowercase(alloc)?;
    let on = order_on(aliases, names, &key.column, name.as_str());
    Ok(order_fault(by, column_place(&key.column), on))
}

/// The first fault of ORDER BY, where the names of the cells are known.
///
/// # Errors
/// `Memory`: there is no memory for a name.
pub fn keys_fault(
    alloc: Global,
    aliases: &[SeenAlias<'_>],
    names: &Meanings,
    by: Sortable<'_>,
    order: &[OrderItem],
) -> Result<Option<BindFault>, Memory>
    requires { HoldsCells names.now.entries by.cells.now }
    ensures { IfOk result (λ fault.
        fault ≡ first_of (flat_map (spec.key_faults (map seen aliases.now) (found.sorting by.entry)) order.now)) }
{
    let mut fault = None;
    for key in order {
        fault = sooner(fault, key_fault(alloc, aliases, names, by, key)?);
    }
    Ok(fault)
}

fn key_of(
    alloc: Global,
    aliases: &[SeenAlias<'_>],
    names: &Meanings,
    key: &OrderItem,
) -> Result<ShapeOrder, Memory>
    ensures { (cells : List Cell) → HoldsCells names.now.entries cells
        → IfOk result (λ made. made ≡ spec.key_of (map seen aliases.now) cells key.now) }
{
    let name = key.column.column.text.as_str().to_ascii_lowercase(alloc)?;
    match order_on(aliases, names, &key.column, name.as_str()) {
        Ok(on) => Ok(ShapeOrder { on, way: key.way }),
        Err(_) => {
            let first = ColumnOf {
                alias: 0,
                column: 0,
            };
            Ok(ShapeOrder {
                on: SortOn::Column(first),
                way: key.way,
            })
        }
    }
}

/// The sort keys of ORDER BY, where it has no fault and the names of the cells are known.
///
/// # Errors
/// `Memory`: there is no memory for them.
pub fn order_of(
    alloc: Global,
    aliases: &[SeenAlias<'_>],
    names: &Meanings,
    order: &[OrderItem],
) -> Result<Items<ShapeOrder>, Memory>
    ensures { (cells : List Cell) → HoldsCells names.now.entries cells
        → IfOk result (λ keys. keys ≡ map (spec.key_of (map seen aliases.now) cells) order.now) }
{
    let mut keys = Items::new(alloc);
    for key in order {
        keys.push(key_of(alloc, aliases, names, key)?)?;
    }
    Ok(keys)
}
