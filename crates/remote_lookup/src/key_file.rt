//! The file of a key.
ghost use Rattle.std.specs.Prelude.{◌≡◌, ◌≢◌, ◌⊎◌, ◌<◌, [], Some, Ok, Err, length, option_map, string_bytes, take, IfOk, IfErr, OnOk};
ghost use Rattle.outside.specs.Faults.{NeverFalls, RoseOrFull};
ghost use Rattle.sq_value.specs.Relation.{IsHeading};
ghost use Rattle.table_csv.specs.TableFile.{table_of_bytes};
ghost use Rattle.remote_lookup.specs.KeyFiles as spec;
ghost use Rattle.remote_lookup.specs.KeyFiles.{rows_for, rows_in};
ghost use Rattle.remote_lookup.specs.Reading.{IsFault, IsRefusal, OverFile};
ghost use Rattle.remote_lookup.specs.Rounds.{Bad};

use crate::remote::{KeyFault, Remote, RemoteFault, RemoteKey};
use outside::{Folder, LoadFault};
use sq_value::{Column, Memory, SqText, Table, Value, same_columns};
use std::alloc::Global;
use table_csv::{TableFault, read_table};

/// The most bytes that a file may have.
const MOST_BYTES: usize = 67_108_864;

// The name of a key's file.
fn key_name(alloc: Global, prefix: &str, key: i64) -> Result<String, Memory>
    ensures { IfOk result (λ name. string_bytes name ≡ spec.key_name prefix.now key) }
{
    Ok(format!(in alloc; "{prefix}{key}.csv")?)
}

// Whether a value is the integer of a key.
fn is_that_integer(value: &Value, at: RemoteKey) -> bool
    ensures { result ≡ spec.is_that_integer at.key (Some value.now) }
{
    match value {
        Value::Int(number) => *number == at.key,
        Value::Null | Value::Text(_) | Value::Decimal(_) => false,
    }
}

// The first record of a table that has another key in a column, or none there; records count from 1.
fn other_key(table: &Table, column: u32, at: RemoteKey) -> Option<u32>
    requires { column < length table.now.columns }
    ensures { result ≡ spec.other_key column at.key 1 table.now.rows }
{
    for row in 0..table.rows() {
        if !is_that_integer(table.value(row, column), at) {
            return Some(row + 1);
        }
    }
    None
}

// The fault of a key's file that isn't a table.
fn table_fault(at: RemoteKey, fault: TableFault) -> RemoteFault
    ensures { IsFault (λ cause. (fault ≢ TableFault.Memory) × (cause ≡ Bad (KeyFault.Table fault))) at result }
{
    if fault == TableFault::Memory {
        return RemoteFault::Memory;
    }
    RemoteFault::BadFile {
        at,
        why: KeyFault::Table(fault),
    }
}

// The table of the bytes of a key's file, which has these columns and the key in one of them.
fn table_of(
    alloc: Global,
    bytes: &[u8],
    columns: &[Column],
    column: u32,
    at: RemoteKey,
) -> Result<Table, RemoteFault>
    requires { column < length columns.now }
    ensures rows { IfOk result (λ table. rows_for columns.now column at.key (table_of_bytes bytes.now)
        ≡ Ok table.rows) }
    ensures columns { IfOk result (λ table. table.columns ≡ columns.now) }
    ensures fault { IfErr result (IsFault
        (λ cause. rows_for columns.now column at.key (table_of_bytes bytes.now) ≡ Err cause) at) }
{
    let table = match read_table(alloc, bytes) {
        Ok(table) => table,
        Err(fault) => return Err(table_fault(at, fault)),
    };
    if !same_columns(table.columns(), columns) {
        return Err(RemoteFault::BadFile {
            at,
            why: KeyFault::Columns,
        });
    }
    match other_key(&table, column, at) {
        Some(rec) => Err(RemoteFault::BadFile {
            at,
            why: KeyFault::OtherKey { rec },
        }),
        None => Ok(table),
    }
}

/// A table of these columns without rows.
///
/// # Errors
/// `Memory`: there is no memory for it.
pub(crate) fn empty_table(alloc: Global, columns: &[Column]) -> Result<Table, Memory>
    requires { IsHeading columns.now }
    ensures { IfOk result (λ table. table ≡ record { columns = columns.now; rows = [] }) }
{
    let mut copies = Vec::with_capacity(alloc, columns.len())?;
    for column in columns {
        copies.push(Column {
            name: SqText::of(alloc, column.name.as_str())?,
            kind: column.kind,
        })?;
    }
    Table::new(alloc, copies)
}

// The bytes of a key's file, where it is there.
fn bytes_of<F: Folder>(
    alloc: Global,
    remote: &Remote,
    at: RemoteKey,
    folder: &mut F,
) -> Result<Option<Vec<u8>>, RemoteFault>
    ensures keeps { F.holds folder.new ≡ F.holds folder.old }
    ensures counts { NeverFalls (F.faults folder.old) (F.faults folder.new) }
    ensures kept { OnOk result (F.faults folder.new ≡ F.faults folder.old) }
    ensures shows { IfOk result (λ shown. OverFile (spec.key_name remote.now.prefix at.key) (F.holds folder.old)
        (λ found. option_map (take 67108865) found ≡ option_map (λ bytes. bytes.items) shown)) }
    ensures fault { IfErr result (λ fault. ((fault ≡ RemoteFault.Read at)
        × RoseOrFull (F.faults folder.old) (F.faults folder.new))
        ⊎ (fault ≡ RemoteFault.Memory)) }
{
    let name = key_name(alloc, remote.prefix.as_str(), at.key)?;
    match folder.look(alloc, name.as_str(), MOST_BYTES + 1) {
        Ok(found) => Ok(found),
        Err(LoadFault::Failed) => Err(RemoteFault::Read { at }),
        Err(_) => Err(RemoteFault::Memory),
    }
}

/// The table of a key's file, which has these columns; one without rows where the file isn't there.
///
/// # Errors
/// `Read`, `TooLong` or `BadFile` of the key; or `Memory`.
pub(crate) fn load_file<F: Folder>(
    alloc: Global,
    remote: &Remote,
    columns: &[Column],
    at: RemoteKey,
    folder: &mut F,
) -> Result<Table, RemoteFault>
    requires heading { IsHeading columns.now }
    requires column { remote.now.column < length columns.now }
    ensures keeps { F.holds folder.new ≡ F.holds folder.old }
    ensures counts { NeverFalls (F.faults folder.old) (F.faults folder.new) }
    ensures kept { OnOk result (F.faults folder.new ≡ F.faults folder.old) }
    ensures columns { IfOk result (λ table. table.columns ≡ columns.now) }
    ensures rows { IfOk result (λ table. OverFile (spec.key_name remote.now.prefix at.key) (F.holds folder.old)
        (λ found. rows_in columns.now remote.now.column at.key found ≡ Ok table.rows)) }
    ensures refused { IfErr result (IsRefusal (F.faults folder.old) (F.faults folder.new)
        (λ cause. OverFile (spec.key_name remote.now.prefix at.key) (F.holds folder.old)
        (λ found. rows_in columns.now remote.now.column at.key found ≡ Err cause)) at) }
{
    let Some(bytes) = bytes_of(alloc, remote, at, folder)? else {
        return Ok(empty_table(alloc, columns)?);
    };
    if bytes.len() > MOST_BYTES {
        return Err(RemoteFault::TooLong { at });
    }
    table_of(alloc, bytes.as_slice(), columns, remote.column, at)
}
