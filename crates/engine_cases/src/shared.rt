//! Shared runs of several statements. Each text tells the rows built, a table and a row of it, then the combinations of
//! each statement by the rows of its first two aliases.
ghost use Rattle.std.specs.Prelude.{◌≡◌, ◌<◌, ◌≤◌, All, IfOk, IfSome, length};
ghost use Rattle.sq_expr.specs.Fits.{IsFit};
ghost use Rattle.engine_cases.specs.Given.{no_kinds};

use crate::crews::{pairs_of, policies_of, push_pairs, watching};
use case_kit::{block_of_case, catalogue_of_lines};
use catalogue::Catalogue;
use shared_eddy::{Found, can_share, run_shared};
use shared_meaning::TableBuilt;
use sq_expr::Block;
use sq_value::{NoPredicates, Tables};
use std::alloc::Global;
use std::sync::Wait;
use std::test::Fail;
use std::thread::Threads;

// One table, read by a self-join and by a scan.
const ONE_TABLE: &str = "n x:int/1/2/3";

const OVER_ONE: &str = "SELECT a.x, b.x FROM n a, n b WHERE a.x = b.x
SELECT x FROM n WHERE x > 1";

const OF_ONE: &str = " 0,0 0,1 0,2| 0,0 1,1 2,2| 1,0 2,0";

// The same with the most hops and the turns under the script `v0`.
const OF_ONE_TOLD: &str = " 0,0 0,1 0,2| 0,0 1,1 2,2| 1,0 2,0; 3 9";

// Two tables, of which one is read by both statements.
const ORDERS: &str = "cust id:int,name:text/1,Ada/2,Bob/3,
ord oid:int,cid:int,amt:int/10,1,5/11,1,7/12,2,5/13,,9";

const OVER_ORDERS: &str = "SELECT name, amt FROM cust c, ord o WHERE c.id = o.cid
SELECT o.oid FROM ord o, ord p WHERE o.cid = p.cid AND o.oid <= p.oid";

const OF_ORDERS: &str = " 0,0 0,1 0,2 1,0 1,1 1,2 1,3| 0,0 0,1 1,2| 0,0 0,1 1,1 2,2";

// Two bands, each of a table that both statements read.
const RANGES: &str = "ord oid:int,cid:int,amt:int/10,1,5/11,1,7/12,2,5/13,,9
n x:int/1/2/3";

const OVER_RANGES: &str = "SELECT p.x FROM ord o, n p WHERE p.x BETWEEN o.cid AND o.amt
SELECT a.x FROM n a, n b WHERE b.x BETWEEN a.x AND a.x";

const OF_RANGES: &str =
    " 0,0 0,1 0,2 0,3 1,0 1,1 1,2| 0,0 0,1 0,2 1,0 1,1 1,2 2,1 2,2| 0,0 1,1 2,2";

// Comparisons with literals beside joins of one table, by aliases of two statements.
const OVER_LITERALS: &str = "SELECT a.x, b.x FROM n a, n b WHERE a.x < b.x AND b.x = 2
SELECT a.x, b.x FROM n a, n b WHERE a.x = b.x AND a.x > 1";

const OF_LITERALS: &str = " 0,0 0,1 0,2| 0,1| 1,1 2,2";

// The blocks of statements, a statement a line, over tables that are scanned. None where one isn't bound.
fn blocks_of(
    alloc: Global,
    catalogue: &Catalogue,
    ways: &str,
    statements: &str,
) -> Result<Option<Vec<Block>>, Fail>
    ensures { IfOk result (λ blocks. IfSome blocks (λ blocks. All (IsFit no_kinds
        catalogue.now.tables)
        blocks.items)) }
{
    let mut blocks = Vec::new(alloc);
    for line in statements.lines() {
        match block_of_case(alloc, catalogue, ways, line, &NoPredicates)? {
            Some(block) => blocks.push(block)?,
            None => return Ok(None),
        }
    }
    Ok(Some(blocks))
}

// Appends the rows built of each table, in order.
fn push_built(alloc: Global, told: &mut String, built: &[TableBuilt]) -> Result<(), Fail> {
    let mut pairs = Vec::new(alloc);
    for entry in built {
        pairs.push((entry.table, entry.row))?;
    }
    pairs.sort()?;
    push_pairs(alloc, told, pairs.as_slice())
}

// Appends the rows of the first two aliases of each block's combinations, in order.
fn push_found(alloc: Global, told: &mut String, found: &[Found]) -> Result<(), Fail> {
    for one in found {
        told.push_str("|")?;
        let pairs = pairs_of(alloc, one.combos.as_slice())?;
        push_pairs(alloc, told, pairs.as_slice())?;
    }
    Ok(())
}

// What a shared run of blocks answers by so many workers: the rows built, then the combinations of each block by the
// rows of its first two aliases, all in order; and by scripts the most hops, and the turns of modules.
fn told_of<'t, R: Threads + Wait + Sync>(
    rt: &R,
    alloc: Global,
    blocks: &'t [Block],
    tables: &'t Tables,
    workers: usize,
    scripts: bool,
) -> Result<String, Fail>
    requires fits { All (IsFit no_kinds tables.now) blocks.now }
    requires workers { (0 < workers) × (workers ≤ 16) }
{
    if !can_share(blocks, tables) {
        return Ok(String::from_str(alloc, "not shared")?);
    }
    let gate = watching(alloc, 0)?;
    let policies = policies_of(alloc, workers, scripts)?;
    let answer = run_shared(rt, alloc, blocks, tables, policies, &NoPredicates, &gate)?;
    let mut told = String::new(alloc);
    push_built(alloc, &mut told, answer.built.as_slice())?;
    push_found(alloc, &mut told, answer.found.as_slice())?;
    if scripts {
        let (hops, turns) = (answer.most_hops, gate.turns());
        told.push_str(format!(in alloc; "; {hops} {turns}")?.as_str())?;
    }
    Ok(told)
}

// What so many workers answer for statements over tables.
fn told_by<R: Threads + Wait + Sync>(
    rt: &R,
    alloc: Global,
    lines: &str,
    ways: &str,
    statements: &str,
    workers: usize,
    scripts: bool,
) -> Result<String, Fail>
    requires workers { (0 < workers) × (workers ≤ 16) }
{
    let catalogue = catalogue_of_lines(alloc, lines)?;
    let Some(blocks) = blocks_of(alloc, &catalogue, ways, statements)? else {
        return Ok(String::from_str(alloc, "no block")?);
    };
    told_of(
        rt,
        alloc,
        blocks.as_slice(),
        catalogue.tables(),
        workers,
        scripts,
    )
}

// By the script `v0` three rows are built in turns of one table, and each of them probes by each alias of the
// self-join: each row is built once for all statements.
#[test]
fn statements_share_the_rows_of_their_tables(rt: HostRuntime) -> Result<(), Fail> {
    for workers in [1, 2, 4, 16] {
        for (lines, ways, statements, wanted, scripts) in [
            (ONE_TABLE, "s", OVER_ONE, OF_ONE, false),
            (ONE_TABLE, "s", OVER_ONE, OF_ONE_TOLD, true),
            (ONE_TABLE, "s", OVER_LITERALS, OF_LITERALS, false),
            (ORDERS, "s s", OVER_ORDERS, OF_ORDERS, false),
            (RANGES, "s s", OVER_RANGES, OF_RANGES, false),
        ] {
            let told = told_by(&rt, rt.alloc(), lines, ways, statements, workers, scripts)?;
            assert_eq!(rt; told.as_str(), wanted, "by {workers}");
        }
    }
    Ok(())
}
