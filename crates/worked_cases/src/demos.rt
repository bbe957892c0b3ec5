//! Cells of the demo, worked out by hand from the rows' definitions.
//!
//! A case is a line: the rows of the demo, its seed, a table, a row, a column, and the cell: a number, `null`, or
//! `none` where there is no such cell.
use catalogue::Catalogue;
use demo_tables::demo;
use sq_value::Value;
use std::alloc::Global;
use std::test::Fail;

const CASES: &str = "\
1000 1 part 0 0 0
1000 1 part 0 1 1
1000 1 part 999 0 999
1000 1 part 999 1 0
1000 1 sale 0 0 1
1000 1 sale 0 1 0
1000 1 sale 999 0 994
1000 1 sale 999 1 99
1000 1 stock 0 0 1
1000 1 stock 98 1 98
1000 1 stock 99 0 90
1000 1 stock 99 1 null
1000 1 stock 999 1 null
1000 1 part 1000 0 none
1000 1 sale 1000 0 none
1000 1 stock 1000 0 none
1 18446744073709551615 part 0 1 5
1 18446744073709551615 sale 0 0 0
1 18446744073709551615 stock 1 0 none";

fn cell(
    alloc: Global,
    catalogue: &Catalogue,
    name: &str,
    row: u32,
    column: u32,
) -> Result<String, Fail> {
    let place = catalogue.find(name)?.ok_or("a table")?;
    let table = catalogue.tables().get(place);
    if row >= table.rows() || column as usize >= table.columns().len() {
        return Ok(String::from_str(alloc, "none")?);
    }
    match table.value(row, column) {
        Value::Int(number) => Ok(format!(in alloc; "{number}")?),
        Value::Null => Ok(String::from_str(alloc, "null")?),
        _ => Ok(String::from_str(alloc, "no number")?),
    }
}

/// The cell that a line asks for, and the one that it wants.
fn told<'c>(alloc: Global, case: &'c str) -> Result<(String, &'c str), Fail> {
    let mut words = case.split(' ');
    let rows: u32 = words.next().unwrap_or("").parse().unwrap_or(0);
    let seed: u64 = words.next().unwrap_or("").parse().unwrap_or(0);
    let name = words.next().unwrap_or("");
    let row: u32 = words.next().unwrap_or("").parse().unwrap_or(0);
    let column: u32 = words.next().unwrap_or("").parse().unwrap_or(0);
    if rows < 1 || rows > 1000 {
        return Err("from 1 to 1000 rows".into());
    }
    let catalogue = demo(alloc, rows, seed)?;
    Ok((
        cell(alloc, &catalogue, name, row, column)?,
        words.next().unwrap_or(""),
    ))
}

#[test]
fn cells_are_as_defined(rt: HostRuntime) -> Result<(), Fail> {
    for case in CASES.lines() {
        let (cell, wanted) = told(rt.alloc(), case)?;
        assert_eq!(rt; cell.as_str(), wanted, "{case}");
    }
    Ok(())
}
