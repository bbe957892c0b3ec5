//! The block of a statement that isn't shaped, made of its matches and its cells.

ghost use Rattle.std.specs.Prelude.{◌≡◌, map, IfOk};
ghost use Rattle.sq_bind.specs.Statement as spec;

use crate::operand::with_room;
use crate::shaped::Shaped;
use sq_expr::{Block, Cell, ColumnOf, OrderKey, OutCol, ShapeOrder, SortOn};
use sq_value::{Memory, SqText};
use sqlite_items::Items;
use std::alloc::Global;

fn output_column(alloc: Global, cell: &Cell) -> Result<OutCol, Memory>
    ensures { IfOk result (λ column. column ≡ spec.output_column cell.now) }
{
    let name = SqText::of(alloc, cell.name.as_str())?;
    Ok(OutCol {
        alias: cell.column.alias,
        column: cell.column.column,
        name,
    })
}

fn output_of(alloc: Global, cells: &[Cell]) -> Result<Items<OutCol>, Memory>
    ensures { IfOk result (λ output. output ≡ map spec.output_column cells.now) }
{
    let mut output = with_room(alloc, cells.len())?;
    for cell in cells {
        output.push(output_column(alloc, cell)?)?;
    }
    Ok(output)
}

fn column_at(cells: &[Cell], place: u32) -> ColumnOf
    ensures { result ≡ spec.column_at cells.now place }
{
    match cells.get(place as usize) {
        Some(cell) => cell.column,
        None => ColumnOf {
            alias: 0,
            column: 0,
        },
    }
}

fn sort_column(cells: &[Cell], on: SortOn) -> ColumnOf
    ensures { result ≡ spec.sort_column cells.now on }
{
    match on {
        SortOn::Cell(place) => column_at(cells, place),
        SortOn::Column(column) => column,
    }
}

fn plain_key(cells: &[Cell], key: &ShapeOrder) -> OrderKey
    ensures { result ≡ spec.plain_key cells.now key.now }
{
    let column = sort_column(cells, key.on);
    OrderKey {
        alias: column.alias,
        column: column.column,
        way: key.way,
    }
}

fn order_of(alloc: Global, cells: &[Cell], order: &[ShapeOrder]) -> Result<Items<OrderKey>, Memory>
    ensures { IfOk result (λ keys. keys ≡ map (spec.plain_key cells.now) order.now) }
{
    let mut keys = Items::new(alloc);
    for key in order {
        keys.push(plain_key(cells, key))?;
    }
    Ok(keys)
}

/// The block of a statement that isn't shaped: its matches, with the columns of its cells as output columns,
/// and its order.
///
/// # Errors
/// `Memory`: there is no memory for these.
#[tactic(auto, unfolding(crate::specs::Statement::plain_block))]
pub fn plain_of(alloc: Global, shaped: Shaped) -> Result<Block, Memory>
    ensures { IfOk result (λ block. block ≡ spec.plain_block shaped.block shaped.shape) }
{
    let Shaped { mut block, shape } = shaped;
    block.output = output_of(alloc, shape.cells.as_slice())?;
    block.order = order_of(alloc, shape.cells.as_slice(), shape.order.as_slice())?;
    Ok(block)
}
