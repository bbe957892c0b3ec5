//! A table from the bytes of a file: in one pass over them, or in two where the first records mislead.
ghost use Rattle.std.specs.Prelude.{◌≡◌, ◌≢◌, Err, Ok, length, fold, replicate, IfOk, IfErr};
ghost use Rattle.csv.specs.Reading.{default_config, records, strip_bom};
ghost use Rattle.table_csv.specs.TableFile.{behind_order_marks, table_of_bytes, table_of_records};
ghost use Rattle.table_csv.specs.Headed.{AreHeads, IsHeaded, IsLearned};
ghost use Rattle.table_csv.specs.Reading.{IsPlain, records_left};
ghost use Rattle.table_csv.specs.Work.{all_learned};

use crate::columns::{complete, empty_table};
use crate::fault::TableFault;
use crate::fields::MOST_ROWS;
use crate::front::{learn_first, read_heads};
use crate::heading::Named;
use crate::once::read_once;
use crate::records::{next_row, plain_reader};
use crate::rows::read_rows;
use crate::types::{Seen, learn_record};
use csv::{ByteRecord, Reader};
use sq_value::{Column, Table};
use std::alloc::Global;

/// The bytes behind all byte order marks with which they begin.
fn behind_order_marks(bytes: &[u8]) -> &[u8]
    ensures behind { result.now ≡ behind_order_marks bytes.now }
    ensures none { strip_bom result.now ≡ result.now }
{
    let mut rest = bytes;
    while let Some(behind) = rest.strip_prefix(&[0xEF, 0xBB, 0xBF]) {
        rest = behind;
    }
    rest
}

/// What the first pass learns of a heading's columns from the records below it.
#[derive(Drop)]
struct Learned {
    /// What is known of each column's fields.
    seen: Vec<Seen>,
    /// How many rows to take room for. Records of another length aren't counted, so that the room
    /// goes with the file's length, and none beyond the most that a table has.
    rows: u32,
}

/// What the reader's records show of each of so many columns.
fn learn_all(alloc: Global, reader: &mut Reader<&[u8]>, width: usize) -> Result<Learned, TableFault>
    requires { IsPlain reader.old }
    ensures ok { IfOk result (λ learned. learned.seen.items
        ≡ fold all_learned (replicate width Seen.Nulls) (records_left reader.old)) }
    ensures memory { IfErr result (λ fault. fault ≡ TableFault.Memory) }
{
    let mut seen = vec![in alloc; Seen::Nulls; width]?;
    let mut rows = 0u32;
    let mut row = ByteRecord::new(alloc);
    while next_row(reader, &mut row)? {
        learn_record(seen.as_mut_slice(), &row);
        rows = rows.saturating_add(u32::from(row.len() == width));
    }
    Ok(Learned {
        seen,
        rows: rows.min(MOST_ROWS),
    })
}

/// What the first pass finds: the columns, and how many rows to take room for.
#[derive(Drop)]
struct Layout {
    columns: Vec<Column>,
    rows: u32,
}

/// The layout of the records of bytes, the first of which is this heading.
fn learn_layout(alloc: Global, bytes: &[u8], heads: &[Named]) -> Result<Layout, TableFault>
    requires unmarked { strip_bom bytes.now ≡ bytes.now }
    requires heads { AreHeads (records default_config bytes.now) heads.now }
    ensures ok { IfOk result (λ layout. IsHeaded (records default_config bytes.now) layout.columns.items) }
    ensures memory { IfErr result (λ fault. fault ≡ TableFault.Memory) }
{
    let mut reader = plain_reader(alloc, bytes)?;
    let mut heading = ByteRecord::new(alloc);
    next_row(&mut reader, &mut heading)?;
    let learned = learn_all(alloc, &mut reader, heads.len())?;
    let columns = complete(alloc, heads, learned.seen.as_slice())?;
    Ok(Layout {
        columns,
        rows: learned.rows,
    })
}

/// The table of the reader's records, the first of which is the heading that gives these columns,
/// with room for so many rows from the start.
fn read_below(
    alloc: Global,
    reader: &mut Reader<&[u8]>,
    columns: Vec<Column>,
    rows: u32,
) -> Result<Table, TableFault>
    requires plain { IsPlain reader.old }
    requires headed { IsHeaded (records_left reader.old) columns.items }
    ensures ok { IfOk result (λ table. table_of_records (records_left reader.old) ≡ Ok table) }
    ensures fault { IfErr result (λ fault. fault ≢ TableFault.Memory
        → table_of_records (records_left reader.old) ≡ Err fault) }
{
    let mut heading = ByteRecord::new(alloc);
    next_row(reader, &mut heading)?;
    let table = empty_table(alloc, columns, rows)?;
    let mut seen = Vec::new(alloc);
    read_rows(alloc, reader, table, seen.as_mut_slice())
}

/// The table of bytes with this heading, in two passes over them: the columns, and then the rows.
fn read_twice(alloc: Global, bytes: &[u8], heads: &[Named]) -> Result<Table, TableFault>
    requires unmarked { strip_bom bytes.now ≡ bytes.now }
    requires heads { AreHeads (records default_config bytes.now) heads.now }
    ensures ok { IfOk result (λ table. table_of_records (records default_config bytes.now) ≡ Ok table) }
    ensures fault { IfErr result (λ fault. fault ≢ TableFault.Memory
        → table_of_records (records default_config bytes.now) ≡ Err fault) }
{
    let layout = learn_layout(alloc, bytes, heads)?;
    let mut reader = plain_reader(alloc, bytes)?;
    read_below(alloc, &mut reader, layout.columns, layout.rows)
}

/// What the front of a file says.
#[derive(Drop)]
struct Front {
    /// What the heading says.
    heads: Vec<Named>,
    /// What the first records below it show of each column.
    guess: Vec<Seen>,
}

/// The front of these bytes.
fn read_front(alloc: Global, bytes: &[u8]) -> Result<Front, TableFault>
    requires { strip_bom bytes.now ≡ bytes.now }
    ensures heads { IfOk result (λ front. AreHeads (records default_config bytes.now) front.heads.items) }
    ensures guess { IfOk result (λ front. IsLearned (length front.heads.items) front.guess.items) }
    ensures fault { IfErr result (λ fault. fault ≢ TableFault.Memory
        → table_of_records (records default_config bytes.now) ≡ Err fault) }
{
    let mut reader = plain_reader(alloc, bytes)?;
    let heads = read_heads(alloc, &mut reader)?;
    let guess = learn_first(alloc, &mut reader, heads.len())?;
    Ok(Front { heads, guess })
}

/// The table of a file's bytes. All byte order marks EF BB BF at their beginning are passed over, and
/// the rest is CSV: the first record is the heading, of 1 to 64 fields, and up to 4,000,000 records of
/// as many fields follow.
///
/// The types of columns without marks hang on all their fields. They are guessed from the first
/// records, and the bytes are read once more where the others show other types.
///
/// # Errors
/// The first fault, heading first and then by record and field; or `Memory`: there is no memory for
/// the table.
pub fn read_table(alloc: Global, bytes: &[u8]) -> Result<Table, TableFault>
    ensures ok { IfOk result (λ table. table_of_bytes bytes.now ≡ Ok table) }
    ensures fault { IfErr result (λ fault. fault ≢ TableFault.Memory → table_of_bytes bytes.now ≡ Err fault) }
{
    let bytes = behind_order_marks(bytes);
    let front = read_front(alloc, bytes)?;
    match read_once(alloc, bytes, front.heads.as_slice(), front.guess.as_slice())? {
        Some(table) => Ok(table),
        None => read_twice(alloc, bytes, front.heads.as_slice()),
    }
}
