//! Lines made of cells.
ghost use Rattle.std.specs.Prelude.{◌≡◌, ◌≤◌, ◌<◌, ℕ, All, IfOk, length, map};
ghost use Rattle.result_sink.specs.Ready.{HasColumn};
ghost use Rattle.sq_expr.specs.declared.shape.Cell.{Cell as TheCell};
ghost use Rattle.group_sink.specs.Cells.{cell_over};
ghost use Rattle.group_sink.specs.Lines.{scale_of};
ghost use Rattle.group_sink.specs.Parts.{value_over};
ghost use Rattle.group_sink.specs.Picked.{picked};
ghost use Rattle.group_sink.specs.Columns.{cells_at};
ghost use Rattle.group_sink.specs.declared.line.Line.{Line as TheLine};

use crate::column::{Column, column_of, out_in};
use crate::line::Line;
use bag_meaning::Combo;
use sq_expr::{Block, Cell};
use sq_value::{Memory, Tables};
use sqlite_items::Items;
use std::alloc::Global;

/// What each cell shows of each group. Each member's group is its number.
///
/// # Errors
/// `Memory`: there is no memory for it.
pub(crate) fn columns_of<'t>(
    alloc: Global,
    block: &Block,
    tables: &'t Tables,
    members: &[Combo],
    numbers: &[usize],
    groups: usize,
    cells: &[Cell],
) -> Result<Vec<Column<'t>>, Memory>
    requires few { length block.now.aliases ≤ 12 }
    requires cells { All (λ (cell : TheCell). HasColumn block.now tables.now cell.column) cells.now }
    requires both { length numbers.now ≡ length members.now }
    requires within { All (λ (g : ℕ). g < groups) numbers.now }
    ensures each { IfOk result (λ columns. (group : ℕ) → group < groups → cells_at columns.items group
        ≡ map (λ (cell : TheCell). cell_over (scale_of block.now tables.now cell.column) cell.agg
        (picked group numbers.now (map (value_over block.now tables.now cell.column) members.now))) cells.now) }
    ensures long { IfOk result (λ columns. length columns.items ≡ length cells.now) }
{
    let mut columns = Vec::with_capacity(alloc, cells.len())?;
    for cell in cells {
        let column = column_of(
            alloc,
            block,
            tables,
            members,
            numbers,
            groups,
            cell.agg,
            cell.column,
        )?;
        columns.push(column)?;
    }
    Ok(columns)
}

/// The line of a group.
fn line_at(alloc: Global, columns: &[Column<'_>], group: usize) -> Result<Line, Memory>
    ensures { IfOk result (λ line. line.cells ≡ cells_at columns.now group) }
{
    let mut cells = Vec::with_capacity(alloc, columns.len())?;
    for column in columns {
        let out = out_in(alloc, column, group)?;
        cells.push(out)?;
    }
    Ok(Line {
        cells: Items::from_vec(cells),
    })
}

/// The lines of groups.
///
/// # Errors
/// `Memory`: there is no memory for them.
pub(crate) fn lines_at(
    alloc: Global,
    columns: &[Column<'_>],
    groups: &[usize],
) -> Result<Vec<Line>, Memory>
    ensures { IfOk result (λ lines. map (λ (line : TheLine). line.cells) lines.items
        ≡ map (cells_at columns.now) groups.now) }
{
    let mut lines = Vec::with_capacity(alloc, groups.len())?;
    for group in groups {
        let line = line_at(alloc, columns, *group)?;
        lines.push(line)?;
    }
    Ok(lines)
}
