//! A block as a line of text.
//!
//! Its four parts stand behind one another with a semicolon between, and one that is empty is `-`.
//! - The number of each alias's table. Behind it stands `+1` where it is also looked up by column 1,
//!   and `.1` where it is looked up by that column alone.
//! - Each output column: its alias, a point, the column's number, and the name.
//! - Each sort key: the column, `up` or `down`, and whether nulls come `first` or `last`.
//! - Each conjunct, with `@` and its aliases as a number of bits. A sum stands in brackets.
//!
//! A shape is five parts more: `grouped` or `each`; the columns of GROUP BY; the cells, each with its set function,
//! column and name; the sort keys, each a cell or a column; and `distinct` and `limit` with its number.

use sq_bind::Shaped;
use sq_expr::{
    AggKind, AliasUse, Arg, Block, Cell, ColumnOf, Cond, Conjunct, OrderKey, OutCol, Shape,
    ShapeOrder, Side, SortOn, Term,
};
use sq_value::{SortWay, Value};
use std::alloc::AllocError;

// What stands before the part of a list at a place.
fn before(place: usize, between: &'static str) -> &'static str {
    if place == 0 { "" } else { between }
}

fn push_aliases(text: &mut String, aliases: &[AliasUse]) -> Result<(), AllocError> {
    if aliases.is_empty() {
        return text.push_str("-");
    }
    for (place, one) in aliases.iter().enumerate() {
        let (before, table) = (before(place, " "), one.table);
        match one.access.look_up {
            None => write!(text, "{before}{table}")?,
            Some(column) if one.access.scan => write!(text, "{before}{table}+{column}")?,
            Some(column) => write!(text, "{before}{table}.{column}")?,
        }
    }
    Ok(())
}

fn push_output(text: &mut String, output: &[OutCol]) -> Result<(), AllocError> {
    if output.is_empty() {
        return text.push_str("-");
    }
    for (place, one) in output.iter().enumerate() {
        let (before, alias, column) = (before(place, ", "), one.alias, one.column);
        let name = one.name.as_str();
        write!(text, "{before}{alias}.{column} {name}")?;
    }
    Ok(())
}

fn way_text(way: SortWay) -> (&'static str, &'static str) {
    let up = if way.descending { "down" } else { "up" };
    let nulls = if way.nulls_first { "first" } else { "last" };
    (up, nulls)
}

fn push_order(text: &mut String, order: &[OrderKey]) -> Result<(), AllocError> {
    if order.is_empty() {
        return text.push_str("-");
    }
    for (place, key) in order.iter().enumerate() {
        let (before, alias, column) = (before(place, ", "), key.alias, key.column);
        let (way, nulls) = way_text(key.way);
        write!(text, "{before}{alias}.{column} {way} {nulls}")?;
    }
    Ok(())
}

fn push_column(text: &mut String, column: ColumnOf) -> Result<(), AllocError> {
    let (alias, column) = (column.alias, column.column);
    write!(text, "{alias}.{column}")
}

fn push_sum(text: &mut String, terms: &[Term]) -> Result<(), AllocError> {
    text.push_str("[")?;
    for (place, term) in terms.iter().enumerate() {
        let (before, factor) = (before(place, " "), term.factor);
        match term.column {
            None => write!(text, "{before}{factor}")?,
            Some(found) => {
                let (alias, column) = (found.alias, found.column);
                write!(text, "{before}{factor}*{alias}.{column}")?;
            }
        }
    }
    text.push_str("]")
}

fn push_side(text: &mut String, side: &Side) -> Result<(), AllocError> {
    match side {
        Side::Null => text.push_str("NULL"),
        Side::Text(own) => {
            let own = own.as_str();
            write!(text, "'{own}'")
        }
        Side::Column(column) => push_column(text, *column),
        Side::Sum(terms) => push_sum(text, terms.as_slice()),
    }
}

fn push_value(text: &mut String, value: &Value) -> Result<(), AllocError> {
    match value {
        Value::Null => text.push_str("NULL"),
        Value::Int(number) => write!(text, "{number}"),
        Value::Text(own) => {
            let own = own.as_str();
            write!(text, "'{own}'")
        }
        Value::Decimal(number) => write!(text, "{number:?}"),
    }
}

fn push_arg(text: &mut String, arg: &Arg) -> Result<(), AllocError> {
    match arg {
        Arg::Literal(value) => push_value(text, value),
        Arg::Column(column) => push_column(text, *column),
    }
}

fn push_call(text: &mut String, number: u8, x: &Arg, y: &Arg) -> Result<(), AllocError> {
    write!(text, "f{number}(")?;
    push_arg(text, x)?;
    text.push_str(", ")?;
    push_arg(text, y)?;
    text.push_str(")")
}

#[cycle(conditions)]
fn push_parts(text: &mut String, parts: &[Cond]) -> Result<(), AllocError> {
    for (place, part) in parts.iter().enumerate() {
        text.push_str(before(place, "; "))?;
        push_cond(text, part)?;
    }
    text.push_str(")")
}

#[cycle(conditions)]
fn push_cond(text: &mut String, cond: &Cond) -> Result<(), AllocError> {
    match cond {
        Cond::Compare(left, how, right) => {
            push_side(text, left)?;
            write!(text, " {how:?} ")?;
            push_side(text, right)
        }
        Cond::IsNull(side) => {
            push_side(text, side)?;
            text.push_str(" null")
        }
        Cond::Call(number, x, y) => push_call(text, *number, x, y),
        Cond::Not(part) => {
            text.push_str("not(")?;
            push_cond(text, part.get())?;
            text.push_str(")")
        }
        Cond::All(parts) => {
            text.push_str("all(")?;
            push_parts(text, parts.as_slice())
        }
        Cond::Any(parts) => {
            text.push_str("any(")?;
            push_parts(text, parts.as_slice())
        }
        Cond::Is(part, truth) => {
            write!(text, "is {truth:?}(")?;
            push_cond(text, part.get())?;
            text.push_str(")")
        }
    }
}

fn push_conjuncts(text: &mut String, conjuncts: &[Conjunct]) -> Result<(), AllocError> {
    if conjuncts.is_empty() {
        return text.push_str("-");
    }
    for (place, one) in conjuncts.iter().enumerate() {
        text.push_str(before(place, ", "))?;
        push_cond(text, &one.cond)?;
        write!(text, " @{}", one.span)?;
    }
    Ok(())
}

/// Puts the block behind a text.
pub fn push_block(text: &mut String, block: &Block) -> Result<(), AllocError> {
    push_aliases(text, block.aliases.as_slice())?;
    text.push_str("; ")?;
    push_output(text, block.output.as_slice())?;
    text.push_str("; ")?;
    push_order(text, block.order.as_slice())?;
    text.push_str("; ")?;
    push_conjuncts(text, block.conjuncts.as_slice())
}

fn agg_text(agg: Option<AggKind>) -> &'static str {
    match agg {
        None => "",
        Some(AggKind::CountAll) => "all ",
        Some(AggKind::Count) => "count ",
        Some(AggKind::Sum) => "sum ",
        Some(AggKind::Min) => "min ",
        Some(AggKind::Max) => "max ",
    }
}

fn push_cells(text: &mut String, cells: &[Cell]) -> Result<(), AllocError> {
    if cells.is_empty() {
        return text.push_str("-");
    }
    for (place, cell) in cells.iter().enumerate() {
        let (before, agg) = (before(place, ", "), agg_text(cell.agg));
        let (alias, column) = (cell.column.alias, cell.column.column);
        let name = cell.name.as_str();
        write!(text, "{before}{agg}{alias}.{column} {name}")?;
    }
    Ok(())
}

fn push_keys(text: &mut String, keys: &[ColumnOf]) -> Result<(), AllocError> {
    if keys.is_empty() {
        return text.push_str("-");
    }
    for (place, key) in keys.iter().enumerate() {
        let (before, alias, column) = (before(place, ", "), key.alias, key.column);
        write!(text, "{before}{alias}.{column}")?;
    }
    Ok(())
}

fn push_sort(text: &mut String, order: &[ShapeOrder]) -> Result<(), AllocError> {
    if order.is_empty() {
        return text.push_str("-");
    }
    for (place, key) in order.iter().enumerate() {
        let before = before(place, ", ");
        let (way, nulls) = way_text(key.way);
        match key.on {
            SortOn::Cell(cell) => write!(text, "{before}cell {cell} {way} {nulls}")?,
            SortOn::Column(found) => {
                let (alias, column) = (found.alias, found.column);
                write!(text, "{before}{alias}.{column} {way} {nulls}")?;
            }
        }
    }
    Ok(())
}

fn push_rest(text: &mut String, shape: &Shape) -> Result<(), AllocError> {
    match (shape.distinct, shape.limit) {
        (false, None) => text.push_str("-"),
        (true, None) => text.push_str("distinct"),
        (false, Some(limit)) => write!(text, "limit {limit}"),
        (true, Some(limit)) => write!(text, "distinct limit {limit}"),
    }
}

/// Puts the block and the shape behind a text.
pub fn push_shape(text: &mut String, shaped: &Shaped) -> Result<(), AllocError> {
    let shape = &shaped.shape;
    push_block(text, &shaped.block)?;
    text.push_str(if shape.grouped {
        "; grouped; "
    } else {
        "; each; "
    })?;
    push_keys(text, shape.keys.as_slice())?;
    text.push_str("; ")?;
    push_cells(text, shape.cells.as_slice())?;
    text.push_str("; ")?;
    push_sort(text, shape.order.as_slice())?;
    text.push_str("; ")?;
    push_rest(text, shape)
}
