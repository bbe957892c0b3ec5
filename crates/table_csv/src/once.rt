//! One pass over the records of a file, under the types that the first of them show.
ghost use Rattle.std.specs.Prelude.{◌≡◌, ◌≢◌, true, length, Ok, IfOk, IfErr, IfSome};
ghost use Rattle.csv.specs.Reading.{default_config, records, strip_bom};
ghost use Rattle.table_csv.specs.TableFile.{table_of_records};
ghost use Rattle.table_csv.specs.Headed.{AreHeads, IsLearned};
ghost use Rattle.table_csv.specs.Work.{column_of_head, completed};

use crate::columns::{complete, empty_table};
use crate::fault::TableFault;
use crate::fields::MOST_ROWS;
use crate::heading::Named;
use crate::records::{next_row, plain_reader};
use crate::rows::read_rows;
use crate::types::{Seen, type_of};
use csv::ByteRecord;
use sq_value::Table;
use std::alloc::Global;

/// How many bytes are counted in a byte, which holds as many: a compiler counts sixteen at once then.
const COUNTED: usize = 128;

/// How often a byte stands among so few.
fn count_few(bytes: &[u8], wanted: u8) -> u8 {
    let mut found = 0u8;
    for byte in bytes {
        found = found.wrapping_add(u8::from(*byte == wanted));
    }
    found
}

/// How often a byte stands among these.
fn count(bytes: &[u8], wanted: u8) -> usize {
    let mut found = 0usize;
    for few in bytes.chunks(COUNTED) {
        found = found.wrapping_add(usize::from(count_few(few, wanted)));
    }
    found
}

/// How many lines there are about: as many as line feeds, or as carriage returns where there are none.
fn lines_about(bytes: &[u8]) -> usize {
    match count(bytes, b'\n') {
        0 => count(bytes, b'\r'),
        feeds => feeds,
    }
}

/// For how many rows of so many columns to take room: as many as there are lines, but no more
/// than the bytes have fields, so that the room goes with the file's length, and than a table has.
fn rows_about(bytes: &[u8], width: usize) -> u32 {
    let most = bytes.len() / width.max(1);
    match u32::try_from(lines_about(bytes).min(most)) {
        Ok(rows) => rows.min(MOST_ROWS),
        Err(_) => MOST_ROWS,
    }
}

/// Whether what is known gives the head's column the type that was guessed.
fn is_right_one(head: &Named, guess: Seen, seen: Seen) -> bool
    ensures { result ≡ true → column_of_head head.now guess ≡ column_of_head head.now seen }
{
    head.kind.is_some() || type_of(guess) == type_of(seen)
}

/// Whether what is known gives each column the type that was guessed.
fn is_right(heads: &[Named], guess: &[Seen], seen: &[Seen]) -> bool
    requires guess { length heads.now ≡ length guess.now }
    requires seen { length heads.now ≡ length seen.now }
    ensures { result ≡ true → completed heads.now guess.now ≡ completed heads.now seen.now }
{
    for i in 0..heads.len() {
        if !is_right_one(&heads[i], guess[i], seen[i]) {
            return false;
        }
    }
    true
}

/// The table of bytes with this heading, if the types that were guessed are those that all fields
/// show. None where they aren't, and where there is a fault.
pub(crate) fn read_once(
    alloc: Global,
    bytes: &[u8],
    heads: &[Named],
    guess: &[Seen],
) -> Result<Option<Table>, TableFault>
    requires unmarked { strip_bom bytes.now ≡ bytes.now }
    requires heads { AreHeads (records default_config bytes.now) heads.now }
    requires guess { IsLearned (length heads.now) guess.now }
    ensures some { IfOk result (λ read. IfSome read
        (λ table. table_of_records (records default_config bytes.now) ≡ Ok table)) }
    ensures memory { IfErr result (λ fault. fault ≡ TableFault.Memory) }
{
    let mut reader = plain_reader(alloc, bytes)?;
    let mut heading = ByteRecord::new(alloc);
    next_row(&mut reader, &mut heading)?;
    let columns = complete(alloc, heads, guess)?;
    let table = empty_table(alloc, columns, rows_about(bytes, heads.len()))?;
    let mut seen = vec![in alloc; Seen::Nulls; heads.len()]?;
    let table = match read_rows(alloc, &mut reader, table, seen.as_mut_slice()) {
        Ok(table) => table,
        Err(TableFault::Memory) => return Err(TableFault::Memory),
        Err(_) => return Ok(None),
    };
    if is_right(heads, guess, seen.as_slice()) {
        Ok(Some(table))
    } else {
        Ok(None)
    }
}
