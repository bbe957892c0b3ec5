//! The front of a file: what its heading says, and what the first records below it show.
ghost use Rattle.std.specs.Prelude.{◌≡◌, ◌≢◌, Err, IfOk, IfErr, OnOk};
ghost use Rattle.table_csv.specs.TableFile.{table_of_records};
ghost use Rattle.table_csv.specs.Headed.{AreHeads, IsLearned};
ghost use Rattle.table_csv.specs.Reading.{IsPlain, records_left};

use crate::fault::TableFault;
use crate::heading::{MOST_COLUMNS, Named, read_heading};
use crate::records::next_row;
use crate::types::{Seen, learn_record};
use csv::{ByteRecord, Reader};
use std::alloc::Global;

/// How many records below the heading are looked at before the types of columns are guessed.
const FIRST_RECORDS: u32 = 64;

/// What the fields of the reader's first record say, which is the heading.
pub(crate) fn read_heads(
    alloc: Global,
    reader: &mut Reader<&[u8]>,
) -> Result<Vec<Named>, TableFault>
    requires { IsPlain reader.old }
    ensures ok { IfOk result (λ heads. AreHeads (records_left reader.old) heads.items) }
    ensures plain { OnOk result (IsPlain reader.new) }
    ensures fault { IfErr result (λ fault. fault ≢ TableFault.Memory
        → table_of_records (records_left reader.old) ≡ Err fault) }
{
    let mut row = ByteRecord::new(alloc);
    if !next_row(reader, &mut row)? || row.is_empty() {
        return Err(TableFault::NoHeading);
    }
    if row.len() > MOST_COLUMNS {
        return Err(TableFault::TooManyColumns);
    }
    read_heading(alloc, &row)
}

/// What the reader's next records show of each of so many columns.
pub(crate) fn learn_first(
    alloc: Global,
    reader: &mut Reader<&[u8]>,
    width: usize,
) -> Result<Vec<Seen>, TableFault>
    requires { IsPlain reader.old }
    ensures ok { IfOk result (λ seen. IsLearned width seen.items) }
    ensures memory { IfErr result (λ fault. fault ≡ TableFault.Memory) }
{
    let mut seen = vec![in alloc; Seen::Nulls; width]?;
    let mut row = ByteRecord::new(alloc);
    for _ in 0..FIRST_RECORDS {
        if !next_row(reader, &mut row)? {
            return Ok(seen);
        }
        learn_record(seen.as_mut_slice(), &row);
    }
    Ok(seen)
}
