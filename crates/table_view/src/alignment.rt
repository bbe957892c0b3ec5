//! A table in aligned columns, for a terminal.

ghost use Rattle.std.specs.Prelude.{◌<◌, length};

use crate::values::{cell_text, plain_text};
use sq_value::{ColType, Column, Memory, Table};
use std::alloc::Global;
use unicode_width::UnicodeWidthStr;

// How many columns of a terminal a column of a table takes.
fn width_of(alloc: Global, table: &Table, column: u32, name: &str) -> Result<usize, Memory>
    requires { column < length table.now.columns }
{
    let mut width = plain_text(alloc, name)?.as_str().width();
    for row in 0..table.rows() {
        let cell = cell_text(alloc, table.value(row, column))?;
        width = width.max(cell.as_str().width());
    }
    Ok(width)
}

// How many columns of a terminal each column of a table takes.
fn widths_of(alloc: Global, table: &Table) -> Result<Vec<usize>, Memory> {
    let mut widths = Vec::new(alloc);
    for (place, column) in table.columns().iter().enumerate() {
        widths.push(width_of(alloc, table, place as u32, column.name.as_str())?)?;
    }
    Ok(widths)
}

// Adds so many blanks.
fn push_blanks(text: &mut String, count: usize) -> Result<(), Memory> {
    for _ in 0..count {
        text.push(' ')?;
    }
    Ok(())
}

// Adds a cell: a number's last sign, or a text's first one, is below the others of its column. Nothing is behind the
// last text of a line.
fn push_cell(
    text: &mut String,
    cell: &str,
    width: usize,
    kind: ColType,
    is_last: bool,
) -> Result<(), Memory> {
    let free = width.saturating_sub(cell.width());
    if !matches!(kind, ColType::Text) {
        push_blanks(text, free)?;
        text.push_str(cell)?;
        return Ok(());
    }
    text.push_str(cell)?;
    push_blanks(text, if is_last { 0 } else { free })
}

// What comes before a cell of a line.
fn before(place: usize) -> &'static str {
    if place == 0 { "" } else { "  " }
}

// The width at a place.
fn width_at(widths: &[usize], place: usize) -> usize {
    match widths.get(place) {
        Some(width) => *width,
        None => 0,
    }
}

// Adds the line of names.
fn push_names(
    alloc: Global,
    text: &mut String,
    columns: &[Column],
    widths: &[usize],
) -> Result<(), Memory> {
    for (place, column) in columns.iter().enumerate() {
        text.push_str(before(place))?;
        let name = plain_text(alloc, column.name.as_str())?;
        let is_last = place + 1 == columns.len();
        push_cell(
            text,
            name.as_str(),
            width_at(widths, place),
            column.kind,
            is_last,
        )?;
    }
    text.push_str("\n")?;
    Ok(())
}

// Adds the line of dashes below the names.
fn push_dashes(text: &mut String, widths: &[usize]) -> Result<(), Memory> {
    for (place, width) in widths.iter().enumerate() {
        text.push_str(before(place))?;
        for _ in 0..*width {
            text.push('-')?;
        }
    }
    text.push_str("\n")?;
    Ok(())
}

// Adds the line of a row.
fn push_row(
    alloc: Global,
    text: &mut String,
    table: &Table,
    row: u32,
    widths: &[usize],
) -> Result<(), Memory>
    requires { row < length table.now.rows }
{
    let columns = table.columns();
    for (place, column) in columns.iter().enumerate() {
        text.push_str(before(place))?;
        let cell = cell_text(alloc, table.value(row, place as u32))?;
        let is_last = place + 1 == columns.len();
        push_cell(
            text,
            cell.as_str(),
            width_at(widths, place),
            column.kind,
            is_last,
        )?;
    }
    text.push_str("\n")?;
    Ok(())
}

/// A table in aligned columns: a line of names, one of dashes, and one for each row. Control signs are blanks.
///
/// # Errors
/// There is no memory for it.
pub fn aligned(alloc: Global, table: &Table) -> Result<String, Memory> {
    let widths = widths_of(alloc, table)?;
    let widths = widths.as_slice();
    let mut text = String::new(alloc);
    push_names(alloc, &mut text, table.columns(), widths)?;
    push_dashes(&mut text, widths)?;
    for row in 0..table.rows() {
        push_row(alloc, &mut text, table, row, widths)?;
    }
    Ok(text)
}
