//! A table as JSON.

ghost use Rattle.std.specs.Prelude.{◌<◌, length};

use crate::values::push_value;
use serde_json::Value as Json;
use sq_value::{Memory, Table, Value};
use std::alloc::Global;

// A text as JSON has it.
fn push_quoted(alloc: Global, text: &mut String, plain: &str) -> Result<(), Memory> {
    let quoted = Json::String(String::from_str(alloc, plain)?).to_string(alloc)?;
    text.push_str(quoted.as_str())?;
    Ok(())
}

// Adds a value as JSON has it.
fn push_json_value(alloc: Global, text: &mut String, value: &Value) -> Result<(), Memory> {
    match value {
        Value::Null => Ok(text.push_str("null")?),
        Value::Text(it) => push_quoted(alloc, text, it.as_str()),
        number => push_value(alloc, text, number),
    }
}

// Adds a row as an object of JSON.
fn push_object(alloc: Global, text: &mut String, table: &Table, row: u32) -> Result<(), Memory>
    requires { row < length table.now.rows }
{
    for (place, column) in table.columns().iter().enumerate() {
        text.push_str(if place == 0 { "{" } else { "," })?;
        push_quoted(alloc, text, column.name.as_str())?;
        text.push_str(":")?;
        push_json_value(alloc, text, table.value(row, place as u32))?;
    }
    text.push_str("}")?;
    Ok(())
}

/// A table as a list of JSON, with a line for each row: an object, which has each column under its name.
///
/// # Errors
/// There is no memory for it.
pub fn as_json(alloc: Global, table: &Table) -> Result<String, Memory> {
    let mut text = String::new(alloc);
    text.push_str("[")?;
    for row in 0..table.rows() {
        text.push_str(if row == 0 { "\n" } else { ",\n" })?;
        push_object(alloc, &mut text, table, row)?;
    }
    text.push_str("\n]\n")?;
    Ok(text)
}
