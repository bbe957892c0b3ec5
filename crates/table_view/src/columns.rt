//! The columns of a table: what they are read as, and what they hold.

ghost use Rattle.std.specs.Prelude.{◌≡◌, ◌<◌, MatchOption, Some, length};
ghost use Rattle.std.specs.Ordering.{is_lt};
ghost use Rattle.sq_value.specs.Comparison.{Comparable};
ghost use Rattle.sq_value.specs.Order.{sorted_by};
ghost use Rattle.table_view.specs.Columns as spec;

use crate::values::{cell_text, push_plain};
use sq_value::{ColType, Memory, SortWay, Table, Value, sort_order};
use std::alloc::Global;

/// The way of sorting in which the least value comes first, and a null after all others.
const RISING: SortWay = SortWay {
    descending: false,
    nulls_first: false,
};

/// The one in which the greatest value comes first.
const FALLING: SortWay = SortWay {
    descending: true,
    nulls_first: false,
};

// Whether a value comes before another one.
fn is_before(value: &Value, other: &Value, way: SortWay) -> bool
    requires { Comparable value.now other.now }
    ensures { result ≡ is_lt (sorted_by way value.now other.now) }
{
    sort_order(value, other, way).is_lt()
}

// The value of a column that comes first: none where there is no row.
fn first_of(table: &Table, column: u32, way: SortWay) -> Option<&Value>
    requires { column < length table.now.columns }
    ensures { MatchOption result (length table.now.rows ≡ 0)
        (λ value. spec.IsForemost way table.now column (length table.now.rows) value.now) }
{
    let rows = table.rows();
    if rows == 0 {
        return None;
    }
    let mut first = table.value(0, column);
    for row in 1..rows {
        let value = table.value(row, column);
        if is_before(value, first, way) {
            first = value;
        }
    }
    Some(first)
}

// Whether a value is null.
fn is_null(value: &Value) -> bool
    ensures { result ≡ spec.is_null (Some value.now) }
{
    matches!(value, Value::Null)
}

// How many values of a column are null.
fn nulls_of(table: &Table, column: u32) -> u32
    requires { column < length table.now.columns }
    ensures { result ≡ spec.nulls table.now column (length table.now.rows) }
{
    let mut nulls: u32 = 0;
    for row in 0..table.rows() {
        if is_null(table.value(row, column)) {
            nulls = nulls.saturating_add(1);
        }
    }
    nulls
}

// The name of a type, as a heading has it.
fn push_type(alloc: Global, text: &mut String, kind: ColType) -> Result<(), Memory> {
    match kind {
        ColType::Integer => text.push_str("int")?,
        ColType::Text => text.push_str("text")?,
        ColType::Decimal(scale) => text.push_str(format!(in alloc; "dec{scale}")?.as_str())?,
    }
    Ok(())
}

// Adds the least or the greatest value of a column, or `-` where there is none.
fn push_first(alloc: Global, text: &mut String, value: Option<&Value>) -> Result<(), Memory> {
    match value {
        Some(Value::Null) | None => Ok(text.push_str("-")?),
        Some(value) => Ok(text.push_str(cell_text(alloc, value)?.as_str())?),
    }
}

// Adds the line of a column.
fn push_column(
    alloc: Global,
    text: &mut String,
    table: &Table,
    place: u32,
    name: &str,
    kind: ColType,
) -> Result<(), Memory>
    requires { place < length table.now.columns }
{
    text.push_str("  ")?;
    push_plain(text, name)?;
    text.push_str(" ")?;
    push_type(alloc, text, kind)?;
    let nulls = nulls_of(table, place);
    text.push_str(format!(in alloc; ", {nulls} null, ")?.as_str())?;
    push_first(alloc, text, first_of(table, place, RISING))?;
    text.push_str(" to ")?;
    push_first(alloc, text, first_of(table, place, FALLING))?;
    text.push_str("\n")?;
    Ok(())
}

// The word for so many rows.
fn rows_word(rows: u32) -> &'static str {
    if rows == 1 { "row" } else { "rows" }
}

/// Adds the lines of a table: its name and its rows, and then each column's name, its type as read, how many nulls it
/// has, and its least and its greatest value. Control signs are blanks.
///
/// # Errors
/// There is no memory for them.
pub fn push_columns(
    alloc: Global,
    text: &mut String,
    name: &str,
    table: &Table,
) -> Result<(), Memory> {
    let rows = table.rows();
    let word = rows_word(rows);
    text.push_str(format!(in alloc; "{name}: {rows} {word}\n")?.as_str())?;
    for (place, column) in table.columns().iter().enumerate() {
        push_column(
            alloc,
            text,
            table,
            place as u32,
            column.name.as_str(),
            column.kind,
        )?;
    }
    Ok(())
}
