//! The records of a file, one after another.
ghost use Rattle.std.specs.Prelude.{◌≡◌, ◌<◌, Some, true, length, IfOk, IfErr, OnOk};
ghost use Rattle.csv.specs.Reading.{default_config, error_kind, records, stops_reader, strip_bom};
ghost use Rattle.csv.specs.Records.{field_at, fields_of};
ghost use Rattle.table_csv.specs.Reading.{GivesNext, IsPlain, records_left};

use crate::fault::TableFault;
use csv::{ByteRecord, Error, Reader, ReaderBuilder};
use std::alloc::Global;

/// A reader of the bytes to which the first record is one like the others, and of any length. An
/// empty heading is set, since csv would else keep copies of the first record, however long.
pub(crate) fn plain_reader(alloc: Global, bytes: &[u8]) -> Result<Reader<&[u8]>, TableFault>
    ensures plain { IfOk result (λ reader. IsPlain reader) }
    ensures records { strip_bom bytes.now ≡ bytes.now → IfOk result (λ reader. records_left reader
        ≡ records default_config bytes.now) }
    ensures memory { IfErr result (λ fault. fault ≡ TableFault.Memory) }
{
    let mut reader = ReaderBuilder::new()
        .flexible(true)
        .from_reader(alloc, bytes);
    match reader.set_byte_headers(ByteRecord::new(alloc)) {
        Ok(()) => Ok(reader),
        Err(_) => Err(TableFault::Memory),
    }
}

/// What a failed read means: want of memory. A slice's own reads don't fail, though no contract of
/// theirs rules it out.
fn fault_of(_error: &Error) -> TableFault
    requires { stops_reader (error_kind _error.now) ≡ true }
    ensures { result ≡ TableFault.Memory }
{
    TableFault::Memory
}

/// The next record into `row`, and whether there was one.
pub(crate) fn next_row(reader: &mut Reader<&[u8]>, row: &mut ByteRecord) -> Result<bool, TableFault>
    requires { IsPlain reader.old }
    ensures gives { IfOk result
        (λ found. GivesNext (records_left reader.old) found (fields_of row.new) (records_left reader.new)) }
    ensures plain { OnOk result (IsPlain reader.new) }
    ensures memory { IfErr result (λ fault. fault ≡ TableFault.Memory) }
{
    match reader.read_byte_record(row) {
        Ok(found) => Ok(found),
        Err(error) => Err(fault_of(&error)),
    }
}

/// The field of a record at a place, which is in range.
pub(crate) fn field_of(row: &ByteRecord, place: usize) -> &[u8]
    requires { place < length (fields_of row.now) }
    ensures { field_at (fields_of row.now) place ≡ Some result.now }
{
    match row.get(place) {
        Some(field) => field,
        None => &[],
    }
}
