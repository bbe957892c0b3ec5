//! Bags of small tables, worked out by hand.
ghost use Rattle.std.specs.Prelude.{◌≡◌, [], ◌∷◌, IfOk, map, codes, pos};
ghost use Rattle.sq_value.specs.declared.value.Value.TheVariants as value;
ghost use Rattle.sq_value.specs.declared.value.ColType.TheVariants as kind;
ghost use Rattle.worked_cases.specs.SampleBlocks as sample;

use bag_meaning::{Combo, plain};
use sq_expr::{Access, AliasUse, Block, ColumnOf, Cond, Conjunct, Conjuncts, OutCol, Side};
use sq_value::{Cmp, ColType, Column, Memory, NoPredicates, SqText, Table, Tables, Value};
use sqlite_items::Items;
use std::alloc::Global;
use std::test::Fail;

/// A table of one column, x INTEGER, without rows.
fn without_rows(alloc: Global) -> Result<Table, Memory>
    ensures { IfOk result (λ t. t ≡ record {
      columns = record { name = codes "x"; kind = kind.Integer } ∷ [];
      rows = [];
    }) }
{
    let name = SqText::of(alloc, "x")?;
    let kind = ColType::Integer;
    Table::new(alloc, vec![in alloc; Column { name, kind }]?)
}

/// n: x / 1 / 2 / 3, and a table without rows.
fn sample_tables(alloc: Global) -> Result<Tables, Memory>
    ensures { IfOk result (λ t. t ≡ sample.sample_tables) }
{
    let mut table = without_rows(alloc)?;
    table.push_row(vec![in alloc; Value::Int(1)]?)?;
    table.push_row(vec![in alloc; Value::Int(2)]?)?;
    table.push_row(vec![in alloc; Value::Int(3)]?)?;
    let mut tables = Tables::new(alloc);
    tables.push(table)?;
    tables.push(without_rows(alloc)?)?;
    Ok(tables)
}

fn scanned(table: u32) -> AliasUse
    ensures { result ≡ sample.scanned table }
{
    let access = Access {
        scan: true,
        look_up: None,
    };
    AliasUse { table, access }
}

fn aliases(alloc: Global, uses: &[u32]) -> Result<Items<AliasUse>, Memory>
    ensures { IfOk result (λ items. items ≡ map sample.scanned uses.now) }
{
    let mut aliases = Items::new(alloc);
    for table in uses {
        aliases.push(scanned(*table))?;
    }
    Ok(aliases)
}

fn output(alloc: Global) -> Result<Items<OutCol>, Memory>
    ensures { IfOk result (λ items. items ≡ record { alias = 0; column = 0; name = codes "x" } ∷ []) }
{
    let name = SqText::of(alloc, "x")?;
    let (alias, column) = (0, 0);
    Ok(Items::from_vec(vec![in alloc;
        OutCol {
            alias,
            column,
            name
        },
    ]?))
}

/// SELECT a.x FROM the tables of these numbers WHERE the conjuncts.
fn sample_block(alloc: Global, uses: &[u32], conjuncts: Items<Conjunct>) -> Result<Block, Memory>
    ensures { IfOk result (λ b. b ≡ sample.sample_block uses.now conjuncts) }
{
    Ok(Block {
        aliases: aliases(alloc, uses)?,
        conjuncts: Conjuncts::new(alloc, conjuncts)?,
        output: output(alloc)?,
        order: Items::new(alloc),
    })
}

/// a.x < b.x.
fn below() -> Conjunct
    ensures { result ≡ sample.below }
{
    let column = 0;
    let left = Side::Column(ColumnOf { alias: 0, column });
    let right = Side::Column(ColumnOf { alias: 1, column });
    Conjunct {
        cond: Cond::Compare(left, Cmp::Lt, right),
        span: 3,
    }
}

/// 'a' IS NULL.
fn never(alloc: Global) -> Result<Conjunct, Memory>
    ensures { IfOk result (λ c. c ≡ sample.never) }
{
    let text = SqText::of(alloc, "a")?;
    Ok(Conjunct {
        cond: Cond::IsNull(Side::Text(text)),
        span: 0,
    })
}

/// What `plain` gives of such a block over the sample tables.
#[tactic(auto, using(crate::proofs::BagLemmas::sample_fits))]
fn found(alloc: Global, uses: &[u32], conjuncts: Items<Conjunct>) -> Result<Vec<Combo>, Memory>
    requires { sample.IsSample uses.now conjuncts }
{
    let tables = sample_tables(alloc)?;
    let block = sample_block(alloc, uses, conjuncts)?;
    plain(alloc, &block, &tables, &NoPredicates)
}

/// The combination of these rows of alias 0 and alias 1, without a stamp.
fn combo(first: u32, second: u32) -> Combo {
    let mut rows = [0; 12];
    rows[0] = first;
    rows[1] = second;
    Combo { rows, stamp: 0 }
}

#[test]
#[tactic(auto, using(crate::proofs::BagLemmas::pairs_are_a_sample, crate::proofs::BagLemmas::never_is_a_sample, crate::proofs::BagLemmas::one_is_a_sample, crate::proofs::BagLemmas::empty_is_a_sample))]
fn bags_are_found(rt: HostRuntime) -> Result<(), Fail> {
    let alloc = rt.alloc();
    let pairs = found(alloc, &[0, 0], Items::from_vec(vec![in alloc; below()]?))?;
    assert_eq!(rt;
        pairs.as_slice(),
        [combo(0, 1), combo(0, 2), combo(1, 2)].as_slice()
    );
    let conjuncts = Items::from_vec(vec![in alloc; below(), never(alloc)?]?);
    assert_eq!(rt; found(alloc, &[0, 0], conjuncts)?.len(), 0);
    let rows = found(alloc, &[0], Items::new(alloc))?;
    assert_eq!(rt;
        rows.as_slice(),
        [combo(0, 0), combo(1, 0), combo(2, 0)].as_slice()
    );
    assert_eq!(rt; found(alloc, &[0, 1], Items::new(alloc))?.len(), 0);
    Ok(())
}
