//! The columns of a table, from what its heading says and what is known of the fields.
ghost use Rattle.std.specs.Prelude.{◌≡◌, [], length, IfOk, IfErr};
ghost use Rattle.sq_value.specs.Relation.{IsHeading};
ghost use Rattle.table_csv.specs.Work.{column_of_head, completed};

use crate::fault::TableFault;
use crate::heading::Named;
use crate::types::{Seen, type_of};
use sq_value::{Column, SqText, Table};
use std::alloc::Global;

/// The column of a head, which has the type that is known where it has no mark.
fn complete_one(alloc: Global, head: &Named, seen: Seen) -> Result<Column, TableFault>
    ensures ok { IfOk result (λ column. column ≡ column_of_head head.now seen) }
    ensures memory { IfErr result (λ fault. fault ≡ TableFault.Memory) }
{
    let kind = head.kind.unwrap_or(type_of(seen));
    Ok(Column {
        name: SqText::of(alloc, head.name.as_str())?,
        kind,
    })
}

/// The columns of a heading, where a column without a mark has the type that its fields show.
pub(crate) fn complete(
    alloc: Global,
    heads: &[Named],
    seen: &[Seen],
) -> Result<Vec<Column>, TableFault>
    requires { length heads.now ≡ length seen.now }
    ensures ok { IfOk result (λ columns. columns.items ≡ completed heads.now seen.now) }
    ensures memory { IfErr result (λ fault. fault ≡ TableFault.Memory) }
{
    let mut columns = Vec::with_capacity(alloc, heads.len())?;
    for i in 0..heads.len() {
        columns.push(complete_one(alloc, &heads[i], seen[i])?)?;
    }
    Ok(columns)
}

/// A table of these columns with room for so many rows.
pub(crate) fn empty_table(
    alloc: Global,
    columns: Vec<Column>,
    rows: u32,
) -> Result<Table, TableFault>
    requires { IsHeading columns.items }
    ensures ok { IfOk result (λ table. table ≡ record { columns = columns.items; rows = [] }) }
    ensures memory { IfErr result (λ fault. fault ≡ TableFault.Memory) }
{
    let mut table = Table::new(alloc, columns)?;
    table.reserve(rows)?;
    Ok(table)
}
