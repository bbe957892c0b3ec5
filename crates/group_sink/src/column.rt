//! What a cell shows of each group.
ghost use Rattle.std.specs.Prelude.{◌≡◌, ◌≤◌, ◌<◌, ◌==◌, ℕ, pos, All, IfOk, None, length, map, slice_index_or, unsigned_abs};
ghost use Rattle.result_sink.specs.Ready.{HasColumn};
ghost use Rattle.group_sink.specs.Cells.{out_of_value, rank_of_out, cell_over, aggregate};
ghost use Rattle.group_sink.specs.Lines as spec;
ghost use Rattle.group_sink.specs.Parts.{rank_kept, group_values};
ghost use Rattle.group_sink.specs.Picks.{pick_of, seen};
ghost use Rattle.group_sink.specs.Totals.{addend_of, total_by};
ghost use Rattle.group_sink.specs.Columns.{shown_in, shown_sum, rank_in};

use crate::line::Out;
use crate::picks::{Pick, picked_values};
use crate::totals::{Addend, totals_of};
use bag_meaning::Combo;
use sq_expr::{AggKind, Block, Cell, ColumnOf};
use sq_value::{ColType, Key, Memory, SortWay, SqText, Tables, Value};
use sqlite_items::Items;
use std::alloc::Global;

/// What a cell shows of each group, by the groups' numbers. Values are borrowed, and no text is copied.
#[derive(Debug, Drop)]
pub(crate) enum Column<'t> {
    /// A value of each group; a missing one is null.
    Values(Items<Option<&'t Value>>),
    /// How many members or values.
    Counts(Items<i128>),
    /// The sums of values in units of a scale, and how many are summed: the sum of none is null.
    Sums {
        sums: Items<i128>,
        counts: Items<i128>,
        scale: u8,
    },
}

/// The least value that isn't null is the first in this sorting.
const LEAST: SortWay = SortWay {
    descending: false,
    nulls_first: false,
};

/// The greatest value that isn't null is the first in this sorting.
const GREATEST: SortWay = SortWay {
    descending: true,
    nulls_first: false,
};

/// The scale of a column's numbers.
fn scale_of(block: &Block, tables: &Tables, column: ColumnOf) -> u8
    requires { HasColumn block.now tables.now column }
    ensures { result ≡ spec.scale_of block.now tables.now column }
{
    let alias = column.alias as usize;
    let table = tables.get(block.aliases.as_slice()[alias].table);
    match table.columns()[column.column as usize].kind {
        ColType::Decimal(scale) => scale,
        _ => 0,
    }
}

/// A picked value of each group.
fn value_column<'t>(
    alloc: Global,
    block: &Block,
    tables: &'t Tables,
    members: &[Combo],
    numbers: &[usize],
    groups: usize,
    column: ColumnOf,
    pick: Pick,
) -> Result<Column<'t>, Memory>
    requires few { length block.now.aliases ≤ 12 }
    requires column { HasColumn block.now tables.now column }
    requires both { length numbers.now ≡ length members.now }
    requires within { All (λ (g : ℕ). g < groups) numbers.now }
    ensures { IfOk result (λ made. (group : ℕ) → group < groups → shown_in made group
        ≡ out_of_value (pick_of pick (group_values block.now tables.now members.now numbers.now column group))) }
{
    let values = picked_values(alloc, block, tables, members, numbers, groups, column, pick)?;
    Ok(Column::Values(Items::from_vec(values)))
}

/// A count of each group.
fn count_column<'t>(
    alloc: Global,
    block: &Block,
    tables: &'t Tables,
    members: &[Combo],
    numbers: &[usize],
    groups: usize,
    column: ColumnOf,
    what: Addend,
) -> Result<Column<'t>, Memory>
    requires few { length block.now.aliases ≤ 12 }
    requires column { HasColumn block.now tables.now column }
    requires both { length numbers.now ≡ length members.now }
    requires within { All (λ (g : ℕ). g < groups) numbers.now }
    ensures { IfOk result (λ made. (group : ℕ) → group < groups → shown_in made group ≡ Out.Number
        (total_by (addend_of what) (group_values block.now tables.now members.now numbers.now column group)) 0) }
{
    let counts = totals_of(alloc, block, tables, members, numbers, groups, column, what)?;
    Ok(Column::Counts(Items::from_vec(counts)))
}

/// The sum of each group.
fn sum_column<'t>(
    alloc: Global,
    block: &Block,
    tables: &'t Tables,
    members: &[Combo],
    numbers: &[usize],
    groups: usize,
    column: ColumnOf,
) -> Result<Column<'t>, Memory>
    requires few { length block.now.aliases ≤ 12 }
    requires column { HasColumn block.now tables.now column }
    requires both { length numbers.now ≡ length members.now }
    requires within { All (λ (g : ℕ). g < groups) numbers.now }
    ensures { IfOk result (λ made. (group : ℕ) → group < groups → shown_in made group ≡ shown_sum
        (total_by (addend_of Addend.Known) (group_values block.now tables.now members.now numbers.now column group))
        (total_by (addend_of Addend.Units) (group_values block.now tables.now members.now numbers.now column group))
        (spec.scale_of block.now tables.now column)) }
{
    let scale = scale_of(block, tables, column);
    let counts = totals_of(
        alloc,
        block,
        tables,
        members,
        numbers,
        groups,
        column,
        Addend::Known,
    )?;
    let sums = totals_of(
        alloc,
        block,
        tables,
        members,
        numbers,
        groups,
        column,
        Addend::Units,
    )?;
    let counts = Items::from_vec(counts);
    let sums = Items::from_vec(sums);
    Ok(Column::Sums {
        sums,
        counts,
        scale,
    })
}

/// A set function of each group.
fn agg_column<'t>(
    alloc: Global,
    block: &Block,
    tables: &'t Tables,
    members: &[Combo],
    numbers: &[usize],
    groups: usize,
    kind: AggKind,
    column: ColumnOf,
) -> Result<Column<'t>, Memory>
    requires few { length block.now.aliases ≤ 12 }
    requires column { HasColumn block.now tables.now column }
    requires both { length numbers.now ≡ length members.now }
    requires within { All (λ (g : ℕ). g < groups) numbers.now }
    ensures { IfOk result (λ made. (group : ℕ) → group < groups → shown_in made group
        ≡ aggregate (spec.scale_of block.now tables.now column) kind
        (group_values block.now tables.now members.now numbers.now column group)) }
{
    match kind {
        AggKind::CountAll => count_column(
            alloc,
            block,
            tables,
            members,
            numbers,
            groups,
            column,
            Addend::One,
        ),
        AggKind::Count => count_column(
            alloc,
            block,
            tables,
            members,
            numbers,
            groups,
            column,
            Addend::Known,
        ),
        AggKind::Sum => sum_column(alloc, block, tables, members, numbers, groups, column),
        AggKind::Min => value_column(
            alloc,
            block,
            tables,
            members,
            numbers,
            groups,
            column,
            Pick::By(LEAST),
        ),
        AggKind::Max => value_column(
            alloc,
            block,
            tables,
            members,
            numbers,
            groups,
            column,
            Pick::By(GREATEST),
        ),
    }
}

/// What a cell shows of each group. Each member's group is its number.
///
/// # Errors
/// `Memory`: there is no memory for it.
pub(crate) fn column_of<'t>(
    alloc: Global,
    block: &Block,
    tables: &'t Tables,
    members: &[Combo],
    numbers: &[usize],
    groups: usize,
    agg: Option<AggKind>,
    column: ColumnOf,
) -> Result<Column<'t>, Memory>
    requires few { length block.now.aliases ≤ 12 }
    requires column { HasColumn block.now tables.now column }
    requires both { length numbers.now ≡ length members.now }
    requires within { All (λ (g : ℕ). g < groups) numbers.now }
    ensures { IfOk result (λ made. (group : ℕ) → group < groups → shown_in made group
        ≡ cell_over (spec.scale_of block.now tables.now column) agg
        (group_values block.now tables.now members.now numbers.now column group)) }
{
    match agg {
        None => value_column(
            alloc,
            block,
            tables,
            members,
            numbers,
            groups,
            column,
            Pick::First,
        ),
        Some(kind) => agg_column(alloc, block, tables, members, numbers, groups, kind, column),
    }
}

/// What a shown value is compared by: the units of a number, or a text's bytes.
fn units_key(value: Option<&Value>) -> Option<Key<'_>>
    ensures { rank_kept result ≡ rank_of_out (out_of_value (seen value.entry)) }
{
    match value {
        None => None,
        Some(Value::Null) => None,
        Some(Value::Int(number)) => Some(Key::Number(i128::from(*number))),
        Some(Value::Text(text)) => Some(Key::Text(text.as_str())),
        Some(Value::Decimal(number)) => Some(Key::Number(i128::from(number.units))),
    }
}

/// The number of a group; 0 where there is none.
fn number_at(numbers: &[i128], group: usize) -> i128
    ensures { result ≡ slice_index_or numbers.now group (pos 0) }
{
    match numbers.get(group) {
        Some(number) => *number,
        None => 0,
    }
}

/// Whether a count is of nothing.
fn is_zero(count: i128) -> bool
    ensures { result ≡ (unsigned_abs count == 0) }
{
    count.unsigned_abs() == 0
}

/// The value of a group; a missing one is null.
fn value_at<'t>(values: &[Option<&'t Value>], group: usize) -> Option<&'t Value>
    ensures { seen result ≡ seen (slice_index_or values.now group None) }
{
    match values.get(group) {
        Some(value) => *value,
        None => None,
    }
}

/// What a group is compared by under a cell.
pub(crate) fn key_in<'t>(column: &Column<'t>, group: usize) -> Option<Key<'t>>
    ensures { rank_kept result ≡ rank_in column.now group }
{
    match column {
        Column::Values(values) => units_key(value_at(values.as_slice(), group)),
        Column::Counts(counts) => Some(Key::Number(number_at(counts.as_slice(), group))),
        Column::Sums { sums, counts, .. } => {
            if is_zero(number_at(counts.as_slice(), group)) {
                return None;
            }
            Some(Key::Number(number_at(sums.as_slice(), group)))
        }
    }
}

/// A value as a cell shows it, with a copy of its text.
fn shown_value(alloc: Global, value: Option<&Value>) -> Result<Out, Memory>
    ensures { IfOk result (λ out. out ≡ out_of_value (seen value.entry)) }
{
    match value {
        None => Ok(Out::Null),
        Some(Value::Null) => Ok(Out::Null),
        Some(Value::Int(number)) => Ok(Out::Number {
            units: i128::from(*number),
            scale: 0,
        }),
        Some(Value::Text(text)) => Ok(Out::Text(SqText::of(alloc, text.as_str())?)),
        Some(Value::Decimal(number)) => Ok(Out::Number {
            units: i128::from(number.units),
            scale: number.scale,
        }),
    }
}

/// A sum as a cell shows it.
fn shown_units(count: i128, units: i128, scale: u8) -> Out
    ensures { result ≡ shown_sum count units scale }
{
    if is_zero(count) {
        return Out::Null;
    }
    Out::Number { units, scale }
}

/// What a cell shows of a group.
///
/// # Errors
/// `Memory`: there is no memory for a text.
pub(crate) fn out_in(alloc: Global, column: &Column<'_>, group: usize) -> Result<Out, Memory>
    ensures { IfOk result (λ out. out ≡ shown_in column.now group) }
{
    match column {
        Column::Values(values) => shown_value(alloc, value_at(values.as_slice(), group)),
        Column::Counts(counts) => Ok(Out::Number {
            units: number_at(counts.as_slice(), group),
            scale: 0,
        }),
        Column::Sums {
            sums,
            counts,
            scale,
        } => {
            let count = number_at(counts.as_slice(), group);
            let units = number_at(sums.as_slice(), group);
            Ok(shown_units(count, units, *scale))
        }
    }
}
