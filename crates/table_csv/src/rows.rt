//! The rows of a table, from the records below the heading.
ghost use Rattle.std.specs.Prelude.{◌≡◌, ◌≢◌, [], None, Some, fold, map, IfOk, IfErr, OnOk};
ghost use Rattle.table_csv.specs.Fields.{records_fault, values_of};
ghost use Rattle.table_csv.specs.Reading.{IsPlain, records_left};
ghost use Rattle.table_csv.specs.Work.{ScalesFit, all_learned};

use crate::fault::TableFault;
use crate::fields::read_record;
use crate::records::next_row;
use crate::types::{Seen, learn_record};
use csv::{ByteRecord, Reader};
use sq_value::Table;
use std::alloc::Global;

/// The table with the reader's records as its rows, and what they show of columns of which something
/// is known.
pub(crate) fn read_rows(
    alloc: Global,
    reader: &mut Reader<&[u8]>,
    mut table: Table,
    seen: &mut [Seen],
) -> Result<Table, TableFault>
    requires plain { IsPlain reader.old }
    requires scales { ScalesFit table.columns }
    requires empty { table.rows ≡ [] }
    ensures ok { IfOk result (λ read. read
        ≡ record table { rows = map (values_of table.columns) (records_left reader.old) }) }
    ensures taken { OnOk result (records_fault 1 table.columns (records_left reader.old) ≡ None) }
    ensures fault { IfErr result (λ fault. fault ≢ TableFault.Memory
        → records_fault 1 table.columns (records_left reader.old) ≡ Some fault) }
    ensures learned { OnOk result (seen.new ≡ fold all_learned seen.old (records_left reader.old)) }
{
    let mut row = ByteRecord::new(alloc);
    let mut values = Vec::with_capacity(alloc, table.columns().len())?;
    let mut rec = 1;
    while next_row(reader, &mut row)? {
        read_record(alloc, table.columns(), &row, rec, &mut values)?;
        learn_record(seen, &row);
        table.append_row(&mut values)?;
        rec += 1;
    }
    Ok(table)
}
