//! The heading of a file: 1 to 64 names that differ, and the types that marks fix.
ghost use Rattle.std.specs.Prelude.{◌≡◌, ◌≢◌, ◌+◌, ◌<◌, ◌≤◌, [], ◌∷◌, ◌++◌, None, Some, length, drop, map, IfOk, IfErr, OnOk};
ghost use Rattle.std.specs.List.{list_any};
ghost use Rattle.csv.specs.Records.{fields_of};
ghost use Rattle.sq_value.specs.Name.{is_same_name};
ghost use Rattle.table_csv.specs.declared.heading.Named.{Named};
ghost use Rattle.table_csv.specs.Marks.{column_name, name_or_number};
ghost use Rattle.table_csv.specs.Heading.{name_fault, heading_fault};
ghost use Rattle.table_csv.specs.Work.{head_of, heads_from, names_of};

use crate::fault::TableFault;
use crate::marks::split_mark;
use crate::records::field_of;
use csv::ByteRecord;
use sq_value::{ColType, Memory, SqText, same_name};
use std::alloc::Global;
use std::str;

/// The most columns that a table has.
pub(crate) const MOST_COLUMNS: usize = 64;

/// What a heading's field says of its column: the name, and the type if its mark fixes one.
#[derive(Drop)]
pub(crate) struct Named {
    pub(crate) name: SqText,
    pub(crate) kind: Option<ColType>,
}

/// The name of the field with this number: its own, or `column` and the number where it is empty.
fn name_at(alloc: Global, name: &str, number: u32) -> Result<SqText, TableFault>
    ensures ok { IfOk result (λ text. text ≡ name_or_number number name.now) }
    ensures memory { IfErr result (λ fault. fault ≡ TableFault.Memory) }
{
    if name.is_empty() {
        let numbered = format!(in alloc; "column{number}")?;
        return Ok(SqText::of(alloc, numbered.as_str())?);
    }
    Ok(SqText::of(alloc, name)?)
}

/// Whether one of these has the name.
fn is_repeated(named: &[Named], name: &str) -> bool
    ensures { result ≡ list_any (λ (head : Named). is_same_name name.now head.name) named.now }
{
    named
        .iter()
        .any(|other| same_name(name, other.name.as_str()))
}

/// What a field with this number says, behind those that were read.
fn read_name(alloc: Global, named: &[Named], number: u32, field: &[u8]) -> Result<Named, TableFault>
    ensures ok { IfOk result (λ head. head ≡ head_of number field.now) }
    ensures taken { OnOk result (name_fault (names_of named.now) number field.now ≡ None) }
    ensures fault { IfErr result (λ fault. fault ≢ TableFault.Memory
        → name_fault (names_of named.now) number field.now ≡ Some fault) }
{
    let Ok(text) = str::from_utf8(field) else {
        return Err(TableFault::NotUtf8 {
            rec: 0,
            field: number,
        });
    };
    let (written, kind) = split_mark(text);
    let name = name_at(alloc, written, number)?;
    if is_repeated(named, name.as_str()) {
        return Err(TableFault::RepeatedColumn { field: number });
    }
    Ok(Named { name, kind })
}

/// What the fields of a heading of at most 64 fields say.
pub(crate) fn read_heading(alloc: Global, row: &ByteRecord) -> Result<Vec<Named>, TableFault>
    requires { length (fields_of row.now) ≤ 64 }
    ensures ok { IfOk result (λ heads. heads.items ≡ heads_from 1 (fields_of row.now)) }
    ensures taken { OnOk result (heading_fault [] 1 (fields_of row.now) ≡ None) }
    ensures fault { IfErr result (λ fault. fault ≢ TableFault.Memory → heading_fault [] 1 (fields_of row.now)
        ≡ Some fault) }
{
    let mut named = Vec::with_capacity(alloc, row.len())?;
    for i in 0..row.len() {
        let field = field_of(row, i);
        let head = read_name(alloc, named.as_slice(), i as u32 + 1, field)?;
        named.push(head)?;
    }
    Ok(named)
}
