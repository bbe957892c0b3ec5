//! Look-ups worked out by hand.
ghost use Rattle.std.specs.Prelude.{◌≡◌, [], ◌∷◌, ◌<◌, IfOk, codes, length};
ghost use Rattle.sq_value.specs.declared.value.ColType.TheVariants as kind;

use index_source::Lookup;
use sq_value::{ColType, Column, Key, Memory, SqText, Table, Value};
use std::alloc::Global;
use std::test::Fail;

/// cid: 1, 1, 2, null and 1, in a table with that column alone.
fn orders(alloc: Global) -> Result<Table, Memory>
    ensures { IfOk result (λ t. t.columns ≡ record { name = codes "cid"; kind = kind.Integer } ∷ []) }
{
    let name = SqText::of(alloc, "cid")?;
    let kind = ColType::Integer;
    let mut table = Table::new(alloc, vec![in alloc; Column { name, kind }]?)?;
    table.push_row(vec![in alloc; Value::Int(1)]?)?;
    table.push_row(vec![in alloc; Value::Int(1)]?)?;
    table.push_row(vec![in alloc; Value::Int(2)]?)?;
    table.push_row(vec![in alloc; Value::Null]?)?;
    table.push_row(vec![in alloc; Value::Int(1)]?)?;
    Ok(table)
}

#[test]
fn rows_of_keys(rt: HostRuntime) -> Result<(), Fail> {
    let table = orders(rt.alloc())?;
    let lookup = Lookup::new(rt.alloc(), &table, 0)?;
    assert_eq!(rt; lookup.rows(&Key::Number(1_000_000)), [0, 1, 4].as_slice());
    assert_eq!(rt; lookup.rows(&Key::Number(2_000_000)), [2].as_slice());
    assert_eq!(rt; lookup.rows(&Key::Number(9_000_000)).len(), 0);
    assert_eq!(rt; lookup.rows(&Key::Text("1")).len(), 0);
    Ok(())
}
