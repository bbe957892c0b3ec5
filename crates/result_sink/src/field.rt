//! Fields of a record, as CSV writes them.

ghost use Rattle.std.specs.Prelude.{◌≡◌, ◌≤◌, ◌++◌, ◌∷◌, [], unwrap_or, OnOk};
ghost use Rattle.std.specs.Fmt.{signed_decimal};
ghost use Rattle.std.specs.Option.{option_copied, ForSome};
ghost use Rattle.csv.specs.Writing as csv_text;
ghost use Rattle.csv.specs.Writing.{default_writer, field_text, row_text};
ghost use Rattle.sq_value.specs.Decimal.{decimal_text};
ghost use Rattle.bag_meaning.specs.Answer.{value_text};
ghost use Rattle.result_sink.specs.Written.{IsWritable};

use itoa::Buffer;
use sq_value::{Dec, Memory, Value, push_decimal};

/// Whether a byte of a field calls for quotes round the field.
fn calls_for_quotes(byte: u8) -> bool
    ensures { result ≡ csv_text.needs_byte default_writer byte }
{
    byte == b',' || byte == b'"' || byte == b'\n' || byte == b'\r'
}

/// Whether a field is written between quotes.
fn needs_quotes(field: &[u8]) -> bool
    ensures { result ≡ csv_text.needs_quotes default_writer field.now }
{
    field.iter().any(|byte| calls_for_quotes(*byte))
}

/// A byte between quotes: a quote is doubled.
#[tactic(auto, using(crate::proofs::TextLemmas::escaped_bytes))]
fn push_escaped(line: &mut Vec<u8>, byte: u8) -> Result<(), Memory>
    ensures { OnOk result (line.new.items ≡ line.old.items ++ csv_text.escaped default_writer (byte ∷ [])) }
{
    if byte == b'"' {
        line.extend_from_slice(b"\"\"")?;
        return Ok(());
    }
    line.push(byte)?;
    Ok(())
}

/// A field between quotes, each of its own quotes doubled.
#[tactic(auto, using(crate::proofs::TextLemmas::escaped_bytes))]
fn push_quoted(line: &mut Vec<u8>, field: &[u8]) -> Result<(), Memory>
    ensures { OnOk result (line.new.items ≡ line.old.items ++ csv_text.quoted default_writer field.now) }
{
    line.push(b'"')?;
    for byte in field {
        push_escaped(line, *byte)?;
    }
    line.push(b'"')?;
    Ok(())
}

/// Puts a field behind a line, between quotes where it needs them.
pub fn push_field(line: &mut Vec<u8>, field: &[u8]) -> Result<(), Memory>
    ensures { OnOk result (line.new.items ≡ line.old.items ++ field_text default_writer field.now) }
{
    if needs_quotes(field) {
        return push_quoted(line, field);
    }
    line.extend_from_slice(field)?;
    Ok(())
}

/// Puts a decimal number of so many units of a scale behind a line. Its text needs no quotes.
fn push_units(line: &mut Vec<u8>, units: i64, scale: u8) -> Result<(), Memory>
    requires { scale ≤ 6 }
    ensures { OnOk result (line.new.items ≡ line.old.items
        ++ field_text default_writer (decimal_text record { units = units; scale = scale })) }
{
    push_decimal(line, Dec { units, scale })
}

/// Puts an integer behind a line. Its text needs no quotes.
fn push_integer(line: &mut Vec<u8>, number: i64) -> Result<(), Memory>
    ensures { OnOk result (line.new.items ≡ line.old.items ++ field_text default_writer (signed_decimal number)) }
{
    line.extend_from_slice(Buffer::new().format(number).as_bytes())?;
    Ok(())
}

/// Puts the field of a value behind a line. A null is an empty field.
fn push_value(line: &mut Vec<u8>, value: &Value) -> Result<(), Memory>
    requires { IsWritable value.now }
    ensures { OnOk result (line.new.items ≡ line.old.items ++ field_text default_writer (value_text value.now)) }
{
    match value {
        Value::Null => Ok(()),
        Value::Int(number) => push_integer(line, *number),
        Value::Text(text) => push_field(line, text.as_str().as_bytes()),
        Value::Decimal(number) => push_units(line, number.units, number.scale),
    }
}

/// Puts the field of a cell behind a line, which is that of a null where there is none.
pub(crate) fn push_cell(line: &mut Vec<u8>, cell: Option<&Value>) -> Result<(), Memory>
    requires { ForSome cell (λ value. IsWritable value.now) }
    ensures { OnOk result (line.new.items
        ≡ line.old.items ++ field_text default_writer (value_text (unwrap_or (option_copied cell.entry) Value.Null))) }
{
    match cell {
        Some(value) => push_value(line, value),
        None => Ok(()),
    }
}
