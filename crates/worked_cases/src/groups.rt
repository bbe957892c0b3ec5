//! Statements with groups, DISTINCT and LIMIT over small tables, whose lines were worked out by hand.
//!
//! A case is a line: how many rows are members, how the bound shape is changed, the statement, and its text with a
//! slash for each line's end. Members come with falling rows, so that `report` has to put them in the order of the
//! product.
//! `first` takes the last column of GROUP BY away, so that a cell shows what its group's first member has. `distinct`
//! has lines told apart that are sorted by another column, and all of them; binding refuses both.
ghost use Rattle.std.specs.Prelude.{◌≡◌, ◌<◌, ◌≤◌, [], length, true, IfOk};
ghost use Rattle.sq_expr.specs.Shapes.{FitsShape};
ghost use Rattle.sq_bind.specs.Given.{IsParsed, AreAccesses};
ghost use Rattle.sq_parse.specs.Shaped.{is_shaped};

use crate::given::falling;
use case_kit::{are_ways_of, catalogue_of_lines, ways_of_words};
use catalogue::Catalogue;
use group_sink::{report, write_report};
use outside::{Sink, SureSink};
use sq_bind::{Shaped, bind_shape};
use sq_expr::{Access, Block, Shape};
use sq_parse::{Statement, is_shaped, parse};
use sq_value::{Memory, NoPredicates, Tables};
use sqlite_items::Items;
use std::alloc::Global;
use std::test::Fail;

/// Four orders: oid, cid and amt, a text, and two prices of 2 and 4 places. Numbers and a null. Two numbers that
/// together pass 64 bits.
const TABLES: &str = "\
ord oid:int,cid:int,amt:int,t:text,d:dec2,e:dec4/10,1,5,b,1.50,1.5000/11,1,7,,0.25,1.5000/12,2,5,ab,1.50,/13,,9,b,,
n x:int,cid:int,amt:int,t:text,d:dec2,e:dec4/1,,,,,/2,,,,,/,,,,,
large oid:int,cid:int,amt:int,t:text,d:dec2,e:dec4\
/9223372036854775807,,-9223372036854775808,,,/9223372036854775807,,-9223372036854775808,,,";

const CASES: &str = "\
4 |  | SELECT cid, COUNT(*) AS k, SUM(amt) FROM ord GROUP BY cid ORDER BY k DESC NULLS LAST | \
cid,k,sum/1,2,12/2,1,5/,1,9/
0 |  | SELECT cid, COUNT(*) AS k, SUM(amt) FROM ord GROUP BY cid ORDER BY k DESC NULLS LAST | cid,k,sum/
0 |  | SELECT COUNT(cid), MIN(amt), MAX(amt) FROM ord | count,min,max/0,,/
4 |  | SELECT COUNT(cid), MIN(amt), MAX(amt) FROM ord | count,min,max/3,5,9/
4 |  | SELECT MIN(t), MAX(t), SUM(d) FROM ord | min,max,sum/ab,b,3.25/
4 |  | SELECT d, COUNT(*) AS k FROM ord GROUP BY d | d,k/1.50,2/0.25,1/,1/
4 | first | SELECT e, oid FROM ord GROUP BY e, cid, oid ORDER BY oid DESC NULLS LAST | e,oid/,13/,12/1.5000,10/
2 |  | SELECT SUM(oid), SUM(amt) AS low, SUM(d) AS none FROM large | \
sum,low,none/18446744073709551614,-18446744073709551616,/
4 |  | SELECT DISTINCT amt FROM ord ORDER BY amt LIMIT 2 | amt/5/7/
4 |  | SELECT DISTINCT amt FROM ord ORDER BY amt LIMIT 1 | amt/5/
4 |  | SELECT DISTINCT amt FROM ord ORDER BY amt LIMIT 9 | amt/5/7/9/
4 |  | SELECT amt FROM ord LIMIT 0 | amt/
3 |  | SELECT x FROM n LIMIT 0 | x/
4 |  | SELECT DISTINCT e FROM ord | e/1.5000/\"\"/
4 | distinct | SELECT amt FROM ord ORDER BY oid DESC NULLS LAST LIMIT 4 | amt/9/5/7/";

/// The members.
const MEMBERS: [(u32, u32); 4] = [(3, 0), (2, 0), (1, 0), (0, 0)];

/// A shape whose lines are told apart, and all of them.
fn told_apart(tables: &Tables, block: &Block, shape: Shape) -> Shape
    requires { FitsShape tables.now block.now shape }
    ensures { FitsShape tables.now block.now result }
{
    let (_, _) = (tables, block);
    Shape {
        grouped: shape.grouped,
        keys: shape.keys,
        cells: shape.cells,
        order: shape.order,
        distinct: true,
        limit: None,
    }
}

/// A shape without its last column of GROUP BY. There is one before it.
fn without_last_key(
    alloc: Global,
    tables: &Tables,
    block: &Block,
    shape: Shape,
) -> Result<Shape, Memory>
    requires some { 1 < length shape.keys }
    requires fits { FitsShape tables.now block.now shape }
    ensures { IfOk result (FitsShape tables.now block.now) }
{
    let (_, _) = (tables, block);
    let count = shape.keys.len() - 1;
    let keys = Items::from_slice(alloc, &shape.keys.as_slice()[..count])?;
    Ok(Shape {
        grouped: shape.grouped,
        keys,
        cells: shape.cells,
        order: shape.order,
        distinct: shape.distinct,
        limit: shape.limit,
    })
}

/// A shape that is changed as a case says.
fn changed(
    alloc: Global,
    how: &str,
    tables: &Tables,
    block: &Block,
    shape: Shape,
) -> Result<Shape, Memory>
    requires { FitsShape tables.now block.now shape }
    ensures { IfOk result (FitsShape tables.now block.now) }
{
    match how {
        "distinct" => Ok(told_apart(tables, block, shape)),
        "first" if shape.keys.len() > 1 => without_last_key(alloc, tables, block, shape),
        _ => Ok(shape),
    }
}

/// Whether a statement's lines have a text.
#[tactic(auto, using(crate::proofs::ReadyLemmas::some_apart))]
fn are_lines(
    alloc: Global,
    tables: &Tables,
    block: &Block,
    shape: &Shape,
    members: &[(u32, u32)],
    text: &[u8],
) -> Result<bool, Fail>
    requires some { 0 < length block.now.aliases }
    requires few { length block.now.aliases ≤ 12 }
    requires unordered { block.now.order ≡ [] }
    requires fits { FitsShape tables.now block.now shape.now }
{
    let combos = falling(alloc, members)?;
    let lines = report(alloc, block, shape, tables, combos.as_slice())?;
    let mut out = SureSink::with_room(alloc, 1000)?;
    write_report(alloc, shape, lines.as_slice(), &mut out)?;
    Ok(out.written() == text)
}

/// Whether a bound statement's lines have a text.
fn are_lines_of(
    alloc: Global,
    tables: &Tables,
    shaped: Shaped,
    how: &str,
    members: &[(u32, u32)],
    text: &[u8],
) -> Result<bool, Fail>
    requires some { 0 < length shaped.block.aliases }
    requires few { length shaped.block.aliases ≤ 12 }
    requires unordered { shaped.block.order ≡ [] }
    requires fits { FitsShape tables.now shaped.block shaped.shape }
{
    let Shaped { block, shape } = shaped;
    let shape = changed(alloc, how, tables, &block, shape)?;
    are_lines(alloc, tables, &block, &shape, members, text)
}

/// Whether a statement that is bound has these lines.
fn has_lines(
    alloc: Global,
    catalogue: &Catalogue,
    accesses: &[Access],
    statement: &Statement,
    how: &str,
    members: &[(u32, u32)],
    text: &[u8],
) -> Result<bool, Fail>
    requires parsed { IsParsed statement.now }
    requires reached { AreAccesses catalogue.now.tables accesses.now }
{
    if !is_shaped(statement) {
        return Ok(false);
    }
    let Ok(shaped) = bind_shape(alloc, statement, catalogue, accesses, &NoPredicates) else {
        return Ok(false);
    };
    are_lines_of(alloc, catalogue.tables(), shaped, how, members, text)
}

/// Whether a case is right.
fn is_right(
    alloc: Global,
    catalogue: &Catalogue,
    accesses: &[Access],
    line: &str,
) -> Result<bool, Fail>
    requires reached { AreAccesses catalogue.now.tables accesses.now }
{
    let mut parts = line.split(" | ");
    let count = parts.next().unwrap_or("").parse::<usize>().unwrap_or(0);
    let how = parts.next().unwrap_or("");
    let statement = parts.next().unwrap_or("");
    let text = parts.next().unwrap_or("");
    let members = MEMBERS
        .get(MEMBERS.len().saturating_sub(count)..)
        .unwrap_or(&MEMBERS);
    let text = text.replace(alloc, "/", "\n")?;
    if statement.len() > 999 {
        return Ok(false);
    }
    let Ok(script) = parse(alloc, statement.as_bytes()) else {
        return Ok(false);
    };
    match script.statements.as_slice().first() {
        Some(statement) => has_lines(
            alloc,
            catalogue,
            accesses,
            statement,
            how,
            members,
            text.as_bytes(),
        ),
        None => Ok(false),
    }
}

#[test]
fn statements_have_lines(rt: HostRuntime) -> Result<(), Fail> {
    let alloc = rt.alloc();
    let catalogue = catalogue_of_lines(alloc, TABLES)?;
    let accesses = ways_of_words(alloc, "s s s")?;
    let accesses = accesses.as_slice();
    let are_there = are_ways_of(catalogue.tables(), accesses);
    assert!(rt; are_there);
    for line in CASES.lines() {
        let right = are_there && is_right(alloc, &catalogue, accesses, line)?;
        assert!(rt; right, "{line}");
    }
    Ok(())
}
