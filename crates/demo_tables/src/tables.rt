//! The tables of the demo, made of a number of rows and a seed.
ghost use Rattle.std.specs.Prelude.{◌≡◌, ◌<◌, ◌≤◌, ◌%◌, ◌++◌, ◌∷◌, [], length, pos, IfOk, OnOk};
ghost use Rattle.catalogue.specs.Named.{with_table};
ghost use Rattle.sq_value.specs.Relation.{IsHeading};
ghost use Rattle.demo_tables.specs.Demo as spec;

use catalogue::Catalogue;
use sq_value::{ColType, Column, Memory, SqText, Table, Value};
use std::alloc::Global;

fn integer_column(alloc: Global, name: &str) -> Result<Column, Memory>
    ensures { IfOk result (λ c. c ≡ spec.integer_column name.now) }
{
    Ok(Column {
        name: SqText::of(alloc, name)?,
        kind: ColType::Integer,
    })
}

/// A table of two columns of integers without rows.
fn empty_pairs(alloc: Global, first: &str, second: &str) -> Result<Table, Memory>
    requires { IsHeading (spec.integer_column first.now ∷ spec.integer_column second.now ∷ []) }
    ensures { IfOk result (λ t. t ≡ record {
      columns = spec.integer_column first.now
          ∷ spec.integer_column second.now ∷ [];
      rows = [];
    }) }
{
    let mut columns = Vec::new(alloc);
    columns.push(integer_column(alloc, first)?)?;
    columns.push(integer_column(alloc, second)?)?;
    Table::new(alloc, columns)
}

fn number(n: u32) -> Value
    ensures { result ≡ spec.whole_number n }
{
    Value::Int(n as i64)
}

/// How many are held in a row of the stock.
fn held(row: u32) -> Value
    ensures { result ≡ spec.held row }
{
    if row % 100 == 99 {
        Value::Null
    } else {
        number(row % 100)
    }
}

/// Puts a row of two values behind the others.
fn push_pair(alloc: Global, table: &mut Table, first: Value, second: Value) -> Result<(), Memory>
    requires fits { spec.TakesPair table.old first second }
    requires room { length table.old.rows < 4294967295 }
    ensures { OnOk result (table.new ≡ record table.old { rows = table.old.rows ++ (first ∷ second ∷ []) ∷ [] }) }
{
    let mut row = Vec::new(alloc);
    row.push(first)?;
    row.push(second)?;
    table.push_row(row)
}

fn part(alloc: Global, count: u32, shift: u32) -> Result<Table, Memory>
    requires few { count ≤ 100000 }
    requires small { shift < 1000 }
    ensures { IfOk result (λ t. t ≡ spec.part count shift) }
{
    let mut table = empty_pairs(alloc, "id", "kind")?;
    for row in 0..count {
        push_pair(alloc, &mut table, number(row), number((row + shift) % 10))?;
    }
    Ok(table)
}

fn sale(alloc: Global, count: u32, shift: u32) -> Result<Table, Memory>
    requires few { count ≤ 100000 }
    requires small { shift < 1000 }
    ensures { IfOk result (λ t. t ≡ spec.sale count shift) }
{
    let mut table = empty_pairs(alloc, "part", "qty")?;
    for row in 0..count {
        let part = number((7 * row + shift) % count);
        push_pair(alloc, &mut table, part, number(row % 100))?;
    }
    Ok(table)
}

fn stock(alloc: Global, count: u32, shift: u32) -> Result<Table, Memory>
    requires few { count ≤ 100000 }
    requires small { shift < 1000 }
    ensures { IfOk result (λ t. t ≡ spec.stock count shift) }
{
    let mut table = empty_pairs(alloc, "part", "held")?;
    for row in 0..count {
        let part = number((11 * row + shift) % count);
        push_pair(alloc, &mut table, part, held(row))?;
    }
    Ok(table)
}

/// Puts a table under a new name behind the others.
fn add(catalogue: &mut Catalogue, name: &str, table: Table) -> Result<(), Memory>
    requires few { length catalogue.old.tables < 4294967295 }
    ensures { OnOk result (catalogue.new ≡ with_table catalogue.old name.now table) }
{
    match catalogue.add(name, table) {
        Ok(_) => Ok(()),
        Err(_) => Err(Memory),
    }
}

/// The tables `part`, `sale` and `stock`, each with so many rows, 1 to 100,000. The seed turns the
/// numbers that their rows share.
///
/// # Errors
/// `Memory`: there is no memory for them.
pub fn demo(alloc: Global, rows: u32, seed: u64) -> Result<Catalogue, Memory>
    requires some { 1 ≤ rows }
    requires few { rows ≤ 100000 }
    ensures { IfOk result (λ c. c ≡ spec.demo rows (seed % 1000)) }
{
    let shift = (seed % 1000) as u32;
    let mut catalogue = Catalogue::new(alloc);
    add(&mut catalogue, "part", part(alloc, rows, shift)?)?;
    add(&mut catalogue, "sale", sale(alloc, rows, shift)?)?;
    add(&mut catalogue, "stock", stock(alloc, rows, shift)?)?;
    Ok(catalogue)
}
