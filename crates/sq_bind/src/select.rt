//! The select list: the cells that it shows, and its faults.

ghost use Rattle.std.specs.Prelude.{◌≡◌, ◌≤◌, [], ◌∷◌, ◌++◌, length, map, OnOk, IfOk};
ghost use Rattle.std.specs.List.{flat_map};
ghost use Rattle.sq_parse.specs.Tree.{column_place};
ghost use Rattle.sq_bind.specs.Fault.{first_of};
ghost use Rattle.sq_bind.specs.Visible.{called, meant};
ghost use Rattle.sq_bind.specs.Statement as spec;
ghost use Rattle.sq_bind.specs.Seen.{seen};

use crate::fault::{BindFault, sooner};
use crate::operand::{column_fault, number_fault};
use crate::visible::{SeenAlias, called, resolve};
use sq_expr::{AggKind, Cell, ColumnOf};
use sq_parse::{ColRef, Item, Items as Selected, Name, column_place};
use sq_value::{Column, Memory, SqText};
use std::alloc::Global;

// Puts columns of an alias behind the others, under their own names.
#[tactic(auto, using(crate::proofs::SelectLemmas::next_cell, crate::proofs::SelectLemmas::all_cells))]
fn push_columns(
    alloc: Global,
    alias: u8,
    columns: &[Column],
    cells: &mut Vec<Cell>,
) -> Result<(), Memory>
    requires { length columns.now ≤ 64 }
    ensures { OnOk result (cells.new.items ≡ cells.old.items ++ spec.cells_from alias 0 columns.now) }
{
    for (index, column) in columns.iter().enumerate() {
        let name = SqText::of(alloc, column.name.as_str())?;
        cells.push(Cell {
            agg: None,
            column: ColumnOf {
                alias,
                column: index as u32,
            },
            name,
        })?;
    }
    Ok(())
}

fn push_alias(alloc: Global, alias: &SeenAlias<'_>, cells: &mut Vec<Cell>) -> Result<(), Memory>
    ensures { OnOk result (cells.new.items ≡ cells.old.items ++ spec.columns_of (seen alias.now)) }
{
    push_columns(alloc, alias.number, alias.table.columns(), cells)
}

fn push_all(alloc: Global, aliases: &[SeenAlias<'_>], cells: &mut Vec<Cell>) -> Result<(), Memory>
    ensures { OnOk result (cells.new.items ≡ cells.old.items ++ flat_map spec.columns_of (map seen aliases.now)) }
{
    for alias in aliases {
        push_alias(alloc, alias, cells)?;
    }
    Ok(())
}

fn push_called(
    alloc: Global,
    aliases: &[SeenAlias<'_>],
    name: &Name,
    cells: &mut Vec<Cell>,
) -> Result<(), Memory>
    ensures { OnOk result (cells.new.items
        ≡ cells.old.items ++ spec.called_columns (called name.now.text (map seen aliases.now))) }
{
    match called(aliases, name.text.as_str()) {
        Some(alias) => push_alias(alloc, alias, cells),
        None => Ok(()),
    }
}

fn name_in(columns: &[Column], column: u32) -> &str
    ensures { result.now ≡ spec.name_in columns.now column }
{
    match columns.get(column as usize) {
        Some(column) => column.name.as_str(),
        None => "",
    }
}

/// The name of a column, as its table spells it.
pub fn spelled<'t>(aliases: &[SeenAlias<'t>], column: ColumnOf) -> &'t str
    ensures { result.now ≡ spec.spelled (map seen aliases.now) column }
{
    match aliases.get(usize::from(column.alias)) {
        Some(alias) => name_in(alias.table.columns(), column.column),
        None => "",
    }
}

fn push_plain(
    alloc: Global,
    name: &str,
    column: ColumnOf,
    cells: &mut Vec<Cell>,
) -> Result<(), Memory>
    ensures { OnOk result (cells.new.items ≡ cells.old.items ++ spec.plain_cell name.now column ∷ []) }
{
    let name = SqText::of(alloc, name)?;
    cells.push(Cell {
        agg: None,
        column,
        name,
    })?;
    Ok(())
}

fn push_named(
    alloc: Global,
    aliases: &[SeenAlias<'_>],
    name: &Option<Name>,
    column: ColumnOf,
    cells: &mut Vec<Cell>,
) -> Result<(), Memory>
    ensures { OnOk result (cells.new.items
        ≡ cells.old.items ++ spec.column_named (map seen aliases.now) name.now column ∷ []) }
{
    match name {
        Some(name) => push_plain(alloc, name.text.as_str(), column, cells),
        None => push_plain(alloc, spelled(aliases, column), column, cells),
    }
}

fn push_column(
    alloc: Global,
    aliases: &[SeenAlias<'_>],
    column: &ColRef,
    name: &Option<Name>,
    cells: &mut Vec<Cell>,
) -> Result<(), Memory>
    ensures { OnOk result (cells.new.items ≡ cells.old.items
        ++ spec.named_column (map seen aliases.now) name.now (meant (map seen aliases.now) column.now)) }
{
    match resolve(aliases, column) {
        Ok(found) => push_named(alloc, aliases, name, found.column, cells),
        Err(_) => Ok(()),
    }
}

// The name of a set function without AS.
fn agg_name(kind: AggKind) -> &'static str
    ensures { result.now ≡ spec.agg_name kind }
{
    match kind {
        AggKind::CountAll | AggKind::Count => "count",
        AggKind::Sum => "sum",
        AggKind::Min => "min",
        AggKind::Max => "max",
    }
}

fn agg_named<'n>(kind: AggKind, name: &'n Option<Name>) -> &'n str
    ensures { result.now ≡ spec.agg_named kind name.now }
{
    match name {
        Some(name) => name.text.as_str(),
        None => agg_name(kind),
    }
}

// Puts a set function of a column behind the others.
fn push_agg(
    alloc: Global,
    kind: AggKind,
    name: &Option<Name>,
    column: ColumnOf,
    cells: &mut Vec<Cell>,
) -> Result<(), Memory>
    ensures { OnOk result (cells.new.items ≡ cells.old.items ++ spec.agg_cell kind name.now column ∷ []) }
{
    let name = SqText::of(alloc, agg_named(kind, name))?;
    cells.push(Cell {
        agg: Some(kind),
        column,
        name,
    })?;
    Ok(())
}

fn push_agg_of(
    alloc: Global,
    aliases: &[SeenAlias<'_>],
    kind: AggKind,
    column: &ColRef,
    name: &Option<Name>,
    cells: &mut Vec<Cell>,
) -> Result<(), Memory>
    ensures { OnOk result (cells.new.items ≡ cells.old.items
        ++ spec.agg_of kind name.now (meant (map seen aliases.now) column.now)) }
{
    match resolve(aliases, column) {
        Ok(found) => push_agg(alloc, kind, name, found.column, cells),
        Err(_) => Ok(()),
    }
}

fn push_aggregate(
    alloc: Global,
    aliases: &[SeenAlias<'_>],
    kind: AggKind,
    column: &Option<ColRef>,
    name: &Option<Name>,
    cells: &mut Vec<Cell>,
) -> Result<(), Memory>
    ensures { OnOk result (cells.new.items ≡ cells.old.items
        ++ spec.agg_cells (map seen aliases.now) kind name.now column.now) }
{
    match column {
        Some(column) => push_agg_of(alloc, aliases, kind, column, name, cells),
        None => {
            let first = ColumnOf {
                alias: 0,
                column: 0,
            };
            push_agg(alloc, AggKind::CountAll, name, first, cells)
        }
    }
}

#[tactic(auto, unfolding(crate::specs::Statement::item_cells))]
fn push_item(
    alloc: Global,
    aliases: &[SeenAlias<'_>],
    item: &Item,
    cells: &mut Vec<Cell>,
) -> Result<(), Memory>
    ensures { OnOk result (cells.new.items ≡ cells.old.items ++ spec.item_cells (map seen aliases.now) item.now) }
{
    match item {
        Item::AllOf(name) => push_called(alloc, aliases, name, cells),
        Item::Col(column, name) => push_column(alloc, aliases, column, name, cells),
        Item::Agg {
            at: _,
            kind,
            column,
            name,
        } => push_aggregate(alloc, aliases, *kind, column, name, cells),
    }
}

fn push_items(
    alloc: Global,
    aliases: &[SeenAlias<'_>],
    items: &[Item],
    cells: &mut Vec<Cell>,
) -> Result<(), Memory>
    ensures { OnOk result (cells.new.items
        ≡ cells.old.items ++ flat_map (spec.item_cells (map seen aliases.now)) items.now) }
{
    for item in items {
        push_item(alloc, aliases, item, cells)?;
    }
    Ok(())
}

#[tactic(auto, unfolding(crate::specs::Statement::cells_of))]
fn push_selected(
    alloc: Global,
    aliases: &[SeenAlias<'_>],
    items: &Selected,
    cells: &mut Vec<Cell>,
) -> Result<(), Memory>
    ensures { OnOk result (cells.new.items ≡ cells.old.items ++ spec.cells_of (map seen aliases.now) items.now) }
{
    match items {
        Selected::Star => push_all(alloc, aliases, cells),
        Selected::List(items) => push_items(alloc, aliases, items.as_slice(), cells),
    }
}

/// The cells of a select list. An item with a fault gives none.
///
/// # Errors
/// `Memory`: there is no memory for them.
pub fn cells_of(
    alloc: Global,
    aliases: &[SeenAlias<'_>],
    items: &Selected,
) -> Result<Vec<Cell>, Memory>
    ensures { IfOk result (λ cells. cells.items ≡ spec.cells_of (map seen aliases.now) items.now) }
{
    let mut cells = Vec::new(alloc);
    push_selected(alloc, aliases, items, &mut cells)?;
    Ok(cells)
}

/// The cells of one item.
///
/// # Errors
/// `Memory`: there is no memory for them.
pub fn item_cells(
    alloc: Global,
    aliases: &[SeenAlias<'_>],
    item: &Item,
) -> Result<Vec<Cell>, Memory>
    ensures { IfOk result (λ cells. cells.items ≡ spec.item_cells (map seen aliases.now) item.now) }
{
    let mut cells = Vec::new(alloc);
    push_item(alloc, aliases, item, &mut cells)?;
    Ok(cells)
}

fn called_fault(aliases: &[SeenAlias<'_>], name: &Name) -> Option<BindFault>
    ensures { result ≡ first_of (spec.called_faults name.now.at (called name.now.text (map seen aliases.now))) }
{
    match called(aliases, name.text.as_str()) {
        Some(_) => None,
        None => Some(BindFault::UnknownAlias { at: name.at }),
    }
}

// The fault of a set function's column.
fn summed_fault(aliases: &[SeenAlias<'_>], kind: AggKind, column: &ColRef) -> Option<BindFault>
    ensures { result ≡ first_of (spec.summed_faults kind (column_place column.now)
        (meant (map seen aliases.now) column.now)) }
{
    match kind {
        AggKind::Sum => number_fault(column_place(column), resolve(aliases, column)),
        AggKind::CountAll | AggKind::Count | AggKind::Min | AggKind::Max => {
            column_fault(aliases, column)
        }
    }
}

fn agg_fault(aliases: &[SeenAlias<'_>], kind: AggKind, column: &Option<ColRef>) -> Option<BindFault>
    ensures { result ≡ first_of (spec.agg_faults (map seen aliases.now) kind column.now) }
{
    match column {
        Some(column) => summed_fault(aliases, kind, column),
        None => None,
    }
}

#[tactic(auto, unfolding(crate::specs::Statement::item_faults))]
fn item_fault(aliases: &[SeenAlias<'_>], item: &Item) -> Option<BindFault>
    ensures { result ≡ first_of (spec.item_faults (map seen aliases.now) item.now) }
{
    match item {
        Item::AllOf(name) => called_fault(aliases, name),
        Item::Col(column, _) => column_fault(aliases, column),
        Item::Agg {
            at: _,
            kind,
            column,
            name: _,
        } => agg_fault(aliases, *kind, column),
    }
}

#[tactic(auto, using(crate::proofs::FaultLemmas::next_fault, crate::proofs::FaultLemmas::sooner_none))]
fn items_fault(aliases: &[SeenAlias<'_>], items: &[Item]) -> Option<BindFault>
    ensures { result ≡ first_of (flat_map (spec.item_faults (map seen aliases.now)) items.now) }
{
    let mut fault = None;
    for item in items {
        fault = sooner(fault, item_fault(aliases, item));
    }
    fault
}

/// The first fault of a select list.
#[tactic(auto, unfolding(crate::specs::Statement::selected_faults))]
pub fn selected_fault(aliases: &[SeenAlias<'_>], items: &Selected) -> Option<BindFault>
    ensures { result ≡ first_of (spec.selected_faults (map seen aliases.now) items.now) }
{
    match items {
        Selected::Star => None,
        Selected::List(items) => items_fault(aliases, items.as_slice()),
    }
}
