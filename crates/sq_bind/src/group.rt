//! GROUP BY: the columns that it names, their faults, and which columns have one value in each group.

ghost use Rattle.std.specs.Prelude.{◌≡◌, ◌++◌, map, IfOk, OnOk};
ghost use Rattle.std.specs.List.{flat_map, list_all};
ghost use Rattle.sq_bind.specs.Fault.{first_of};
ghost use Rattle.sq_bind.specs.Statement as spec;
ghost use Rattle.sq_bind.specs.Seen.{seen};

use crate::columns::Grouping;
use crate::fault::{BindFault, sooner};
use crate::operand::column_fault;
use crate::select::{cells_of, item_cells};
use crate::visible::{SeenAlias, resolve};
use sq_expr::{Cell, ColumnOf};
use sq_parse::{ColRef, Item, Items as Selected, Source, Statement, column_place, is_grouped};
use sq_value::Memory;
use std::alloc::Global;

fn push_grouping(
    aliases: &[SeenAlias<'_>],
    column: &ColRef,
    keys: &mut Vec<ColumnOf>,
) -> Result<(), Memory>
    ensures { OnOk result (keys.new.items ≡ keys.old.items ++ spec.grouping_by (map seen aliases.now) column.now) }
{
    match resolve(aliases, column) {
        Ok(found) => {
            keys.push(found.column)?;
            Ok(())
        }
        Err(_) => Ok(()),
    }
}

/// The columns of GROUP BY. One with a fault gives none.
///
/// # Errors
/// `Memory`: there is no memory for them.
#[tactic(auto, unfolding(crate::specs::Statement::grouping_of))]
pub fn grouping_of(
    alloc: Global,
    aliases: &[SeenAlias<'_>],
    groups: &[ColRef],
) -> Result<Vec<ColumnOf>, Memory>
    ensures { IfOk result (λ keys. keys.items ≡ spec.grouping_of (map seen aliases.now) groups.now) }
{
    let mut keys = Vec::new(alloc);
    for column in groups {
        push_grouping(aliases, column, &mut keys)?;
    }
    Ok(keys)
}

/// The first fault of the columns of GROUP BY.
#[tactic(auto, using(crate::proofs::FaultLemmas::next_fault, crate::proofs::FaultLemmas::sooner_none))]
pub fn groups_fault(aliases: &[SeenAlias<'_>], groups: &[ColRef]) -> Option<BindFault>
    ensures { result ≡ first_of (flat_map (spec.group_faults (map seen aliases.now)) groups.now) }
{
    let mut fault = None;
    for column in groups {
        fault = sooner(fault, column_fault(aliases, column));
    }
    fault
}

// Whether a cell has one value in each group.
fn is_settled(keys: &Grouping, cell: &Cell) -> bool
    ensures { result ≡ spec.is_settled keys.now cell.now }
{
    cell.agg.is_some() || keys.has(cell.column)
}

fn are_settled(keys: &Grouping, cells: &[Cell]) -> bool
    ensures { result ≡ list_all (spec.is_settled keys.now) cells.now }
{
    for cell in cells {
        if !is_settled(keys, cell) {
            return false;
        }
    }
    true
}

fn unsettled_fault(keys: &Grouping, at: u32, cells: &[Cell]) -> Option<BindFault>
    ensures { result ≡ first_of (spec.unsettled_faults keys.now at cells.now) }
{
    if are_settled(keys, cells) {
        None
    } else {
        Some(BindFault::NotGrouped { at })
    }
}

fn item_place(item: &Item) -> u32
    ensures { result ≡ spec.item_place item.now }
{
    match item {
        Item::AllOf(name) => name.at,
        Item::Col(column, _) => column_place(column),
        Item::Agg { at, .. } => *at,
    }
}

fn item_fault(
    alloc: Global,
    aliases: &[SeenAlias<'_>],
    keys: &Grouping,
    item: &Item,
) -> Result<Option<BindFault>, Memory>
    ensures { IfOk result (λ fault. fault ≡ first_of (spec.unsettled_faults keys.now (spec.item_place item.now)
        (spec.item_cells (map seen aliases.now) item.now))) }
{
    let cells = item_cells(alloc, aliases, item)?;
    Ok(unsettled_fault(keys, item_place(item), cells.as_slice()))
}

fn items_fault(
    alloc: Global,
    aliases: &[SeenAlias<'_>],
    keys: &Grouping,
    items: &[Item],
) -> Result<Option<BindFault>, Memory>
    ensures { IfOk result (λ fault. fault ≡ first_of (flat_map (λ i. spec.unsettled_faults keys.now (spec.item_place i)
        (spec.item_cells (map seen aliases.now) i)) items.now)) }
{
    let mut fault = None;
    for item in items {
        fault = sooner(fault, item_fault(alloc, aliases, keys, item)?);
    }
    Ok(fault)
}

fn star_place(sources: &[Source]) -> u32
    ensures { result ≡ spec.star_place sources.now }
{
    match sources {
        [source, ..] => source.table.at,
        [] => 0,
    }
}

fn selected_fault(
    alloc: Global,
    aliases: &[SeenAlias<'_>],
    keys: &Grouping,
    star: u32,
    items: &Selected,
) -> Result<Option<BindFault>, Memory>
    ensures { IfOk result (λ fault. fault ≡ first_of (spec.ungrouped_faults (map seen aliases.now) keys.now star
        items.now)) }
{
    match items {
        Selected::Star => {
            let cells = cells_of(alloc, aliases, items)?;
            Ok(unsettled_fault(keys, star, cells.as_slice()))
        }
        Selected::List(items) => items_fault(alloc, aliases, keys, items.as_slice()),
    }
}

/// The first column of the select list of a grouped statement that has no one value in each group. These
/// are the columns of GROUP BY.
///
/// # Errors
/// `Memory`: there is no memory for the cells of an item.
#[tactic(auto, unfolding(crate::specs::Statement::grouped_faults))]
pub fn grouped_fault(
    alloc: Global,
    aliases: &[SeenAlias<'_>],
    keys: &Grouping,
    statement: &Statement,
) -> Result<Option<BindFault>, Memory>
    requires { keys.now ≡ spec.grouping_of (map seen aliases.now) statement.now.groups }
    ensures { IfOk result (λ fault. fault ≡ first_of (spec.grouped_faults (map seen aliases.now) statement.now)) }
{
    if !is_grouped(statement) {
        return Ok(None);
    }
    let star = star_place(statement.sources.as_slice());
    selected_fault(alloc, aliases, keys, star, &statement.items)
}
