//! The values of a record's fields under the table's columns.
ghost use Rattle.std.specs.Prelude.{◌≡◌, ◌≢◌, ◌≤◌, [], None, Some, length, IfOk, IfErr, OnOk};
ghost use Rattle.std.specs.Str.{is_utf8};
ghost use Rattle.csv.specs.Records.{fields_of};
ghost use Rattle.table_csv.specs.Work.{ScaleFits, ScalesFit};
ghost use Rattle.table_csv.specs.Fields.{field_fault, number_fault, value_of, written_value, fields_fault, values_of, record_fault};

use crate::digits::plain_integer;
use crate::fault::TableFault;
use crate::records::field_of;
use csv::ByteRecord;
use sq_value::{ColType, Column, SqText, Value, read_decimal, read_int};
use std::alloc::Global;
use std::str;

/// The most records that a table has below its heading.
pub(crate) const MOST_ROWS: u32 = 4_000_000;

/// The value of an INTEGER column's field that isn't empty.
fn integer_value(text: &str, rec: u32, field: u32) -> Result<Value, TableFault>
    ensures ok { IfOk result (λ value. value ≡ written_value ColType.Integer text.now) }
    ensures taken { OnOk result (number_fault rec field ColType.Integer text.now ≡ None) }
    ensures fault { IfErr result (λ fault. number_fault rec field ColType.Integer text.now ≡ Some fault) }
{
    match read_int(text) {
        Ok(number) => Ok(Value::Int(number)),
        Err(_) => Err(TableFault::BadInteger { rec, field }),
    }
}

/// The value of a DECIMAL column's field that isn't empty.
fn decimal_value(text: &str, scale: u8, rec: u32, field: u32) -> Result<Value, TableFault>
    requires { scale ≤ 6 }
    ensures ok { IfOk result (λ value. value ≡ written_value (ColType.Decimal scale) text.now) }
    ensures taken { OnOk result (number_fault rec field (ColType.Decimal scale) text.now ≡ None) }
    ensures fault { IfErr result (λ fault. number_fault rec field (ColType.Decimal scale) text.now ≡ Some fault) }
{
    match read_decimal(text, scale) {
        Ok(number) => Ok(Value::Decimal(number)),
        Err(_) => Err(TableFault::BadDecimal { rec, field }),
    }
}

/// The value of a field in a column of that type, by the numbers of its record and of the field.
fn field_value(
    alloc: Global,
    kind: ColType,
    text: &[u8],
    rec: u32,
    field: u32,
) -> Result<Value, TableFault>
    requires { ScaleFits kind }
    ensures ok { IfOk result (λ value. value ≡ value_of kind text.now) }
    ensures taken { OnOk result (field_fault rec field kind text.now ≡ None) }
    ensures fault { IfErr result (λ fault. fault ≢ TableFault.Memory → field_fault rec field kind text.now
        ≡ Some fault) }
{
    let Ok(text) = str::from_utf8(text) else {
        return Err(TableFault::NotUtf8 { rec, field });
    };
    if text.is_empty() {
        return Ok(Value::Null);
    }
    match kind {
        ColType::Integer => integer_value(text, rec, field),
        ColType::Text => Ok(Value::Text(SqText::of(alloc, text)?)),
        ColType::Decimal(scale) => decimal_value(text, scale, rec, field),
    }
}

/// The value of an INTEGER column's field. Most are digits alone, and read without a text between.
fn integer_field(alloc: Global, text: &[u8], rec: u32, field: u32) -> Result<Value, TableFault>
    ensures ok { IfOk result (λ value. value ≡ value_of ColType.Integer text.now) }
    ensures taken { OnOk result (field_fault rec field ColType.Integer text.now ≡ None) }
    ensures fault { IfErr result (λ fault. fault ≢ TableFault.Memory → field_fault rec field ColType.Integer text.now
        ≡ Some fault) }
{
    match plain_integer(text) {
        Some(number) => Ok(Value::Int(number)),
        None => field_value(alloc, ColType::Integer, text, rec, field),
    }
}

/// The value of a field in a column of that type, by the way that is short for most fields.
fn read_field(
    alloc: Global,
    kind: ColType,
    text: &[u8],
    rec: u32,
    field: u32,
) -> Result<Value, TableFault>
    requires { ScaleFits kind }
    ensures ok { IfOk result (λ value. value ≡ value_of kind text.now) }
    ensures taken { OnOk result (field_fault rec field kind text.now ≡ None) }
    ensures fault { IfErr result (λ fault. fault ≢ TableFault.Memory → field_fault rec field kind text.now
        ≡ Some fault) }
{
    match kind {
        ColType::Integer => integer_field(alloc, text, rec, field),
        _ => field_value(alloc, kind, text, rec, field),
    }
}

/// Puts the values of a record that has as many fields as there are columns, at most 64, into an
/// empty list.
fn fill_values(
    alloc: Global,
    columns: &[Column],
    row: &ByteRecord,
    rec: u32,
    values: &mut Vec<Value>,
) -> Result<(), TableFault>
    requires scales { ScalesFit columns.now }
    requires long { length (fields_of row.now) ≡ length columns.now }
    requires few { length columns.now ≤ 64 }
    requires none { values.old.items ≡ [] }
    ensures ok { OnOk result (values.new.items ≡ values_of columns.now (fields_of row.now)) }
    ensures taken { OnOk result (fields_fault rec 1 columns.now (fields_of row.now) ≡ None) }
    ensures fault { IfErr result (λ fault. fault ≢ TableFault.Memory
        → fields_fault rec 1 columns.now (fields_of row.now) ≡ Some fault) }
{
    for i in 0..columns.len() {
        let kind = columns[i].kind;
        let field = field_of(row, i);
        values.push(read_field(alloc, kind, field, rec, i as u32 + 1)?)?;
    }
    Ok(())
}

/// Puts the values of the record with this number below the heading into an empty list. After an
/// error the list holds some of them.
pub(crate) fn read_record(
    alloc: Global,
    columns: &[Column],
    row: &ByteRecord,
    rec: u32,
    values: &mut Vec<Value>,
) -> Result<(), TableFault>
    requires scales { ScalesFit columns.now }
    requires few { length columns.now ≤ 64 }
    requires none { values.old.items ≡ [] }
    ensures ok { OnOk result (values.new.items ≡ values_of columns.now (fields_of row.now)) }
    ensures taken { OnOk result (record_fault rec columns.now (fields_of row.now) ≡ None) }
    ensures fault { IfErr result (λ fault. fault ≢ TableFault.Memory
        → record_fault rec columns.now (fields_of row.now) ≡ Some fault) }
{
    if rec > MOST_ROWS {
        return Err(TableFault::TooManyRows);
    }
    if row.len() != columns.len() {
        return Err(TableFault::Unequal { rec });
    }
    fill_values(alloc, columns, row, rec, values)
}
