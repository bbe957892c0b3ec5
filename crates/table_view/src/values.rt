//! Values as text, and what of a text a terminal is shown.

use sq_value::{Dec, Memory, Value, push_decimal};
use std::alloc::Global;

// Adds a decimal number.
fn push_number(alloc: Global, text: &mut String, number: Dec) -> Result<(), Memory> {
    let mut digits = Vec::new(alloc);
    let scale = number.scale.min(6);
    let units = number.units;
    push_decimal(&mut digits, Dec { units, scale })?;
    for digit in digits.iter() {
        text.push(char::from(*digit))?;
    }
    Ok(())
}

/// Adds a value. Of NULL there is nothing to add.
///
/// # Errors
/// There is no memory for it.
pub(crate) fn push_value(alloc: Global, text: &mut String, value: &Value) -> Result<(), Memory> {
    match value {
        Value::Null => Ok(()),
        Value::Int(number) => Ok(text.push_str(format!(in alloc; "{number}")?.as_str())?),
        Value::Text(it) => Ok(text.push_str(it.as_str())?),
        Value::Decimal(number) => push_number(alloc, text, *number),
    }
}

/// Adds a text in which no sign moves the cursor: a control sign is a blank.
///
/// # Errors
/// There is no memory for it.
pub(crate) fn push_plain(text: &mut String, shown: &str) -> Result<(), Memory> {
    for sign in shown.chars() {
        text.push(if sign.is_control() { ' ' } else { sign })?;
    }
    Ok(())
}

/// A text in which no sign moves the cursor.
///
/// # Errors
/// There is no memory for it.
pub(crate) fn plain_text(alloc: Global, shown: &str) -> Result<String, Memory> {
    let mut plain = String::new(alloc);
    push_plain(&mut plain, shown)?;
    Ok(plain)
}

/// The text of a value, in which no sign moves the cursor.
///
/// # Errors
/// There is no memory for it.
pub(crate) fn cell_text(alloc: Global, value: &Value) -> Result<String, Memory> {
    let mut whole = String::new(alloc);
    push_value(alloc, &mut whole, value)?;
    plain_text(alloc, whole.as_str())
}
