//! Joins and products by 1 to 16 workers, beside what was worked out by hand.

ghost use Rattle.std.specs.Prelude.{◌<◌, ◌≤◌};

use crate::crews::{Watch, pairs_of, run_by, told_of, watching};
use crate::sample::cut;
use bag_meaning::Combo;
use case_kit::{block_of_case, catalogue_of_lines};
use catalogue::Catalogue;
use eddy_query::Fitting;
use sq_value::NoPredicates;
use std::alloc::Global;
use std::sync::Wait;
use std::test::Fail;
use std::thread::Threads;

/// The tables.
const TABLES: &str = "\
cust id:int,name:text/1,Ada/2,Bob/3,
ord oid:int,cid:int,amt:int/10,1,5/11,1,7/12,2,5/13,,9
n x:int/1/2/3
e x:int
t x:int/1/2";

/// The cases. First what is wanted: how many rows are built and keys looked up, and the rows of the first two aliases
/// of each combination, in order; and under the script `v0` how many turns are taken. Then a bar, the ways of the
/// tables, a bar, and the statement; and a bar and the script where each worker has it.
///
/// Each row that arrives is built in a turn, or found built there, and each that is built probes in one. The key that
/// a probe asks for is marked in its turn, and each end of a key takes one more. In the last case three rows of `ord`
/// come by its scan and by a key.
const CASES: &str = "\
7 0 0,0 0,1 1,2 | s s s s s | SELECT name, amt FROM cust c, ord o WHERE c.id = o.cid
8 0 0,0 0,1 1,1 2,2 | s s s s s | SELECT o.oid FROM ord o, ord p WHERE o.cid = p.cid AND o.oid <= p.oid
6 3 0,0 0,1 1,2 | s 1 s s s | SELECT name, amt FROM cust c, ord o WHERE c.id = o.cid
6 2 0,0 1,0 2,1 | 0 s s s s | SELECT name, amt FROM ord o, cust c WHERE o.cid = c.id
6 0 0,1 0,2 1,2 | s s s s s | SELECT a.x AS p, b.x AS q FROM n a, n b WHERE a.x < b.x
7 0 0,0 0,1 0,2 1,0 1,1 1,2 2,1 2,2 | s s s s s | SELECT p.x FROM ord o, n p WHERE p.x BETWEEN o.cid AND o.amt
3 0 0,0 1,0 2,0 | s s s s s | SELECT x FROM n
0 0 | s s s s s | SELECT x FROM e
7 0 0,0 0,1 1,2; 14 | s s s s s | SELECT name, amt FROM cust c, ord o WHERE c.id = o.cid ORDER BY amt DESC | v0
6 3 0,0 0,1 1,2; 15 | s 1 s s s | SELECT name, amt FROM cust c, ord o WHERE c.id = o.cid ORDER BY amt DESC | v0
7 3 0,0 0,1 1,2; 20 | s s1 s s s | SELECT name, amt FROM cust c, ord o WHERE c.id = o.cid ORDER BY amt DESC | v0";

/// A product of two, and one of four.
const PAIRS: &str = "SELECT a.x FROM n a, n b";

const PRODUCT: &str = "SELECT a.x FROM t a, t b, t c, t d";

/// A self-join by an inequality: of 60 numbers 59 + 58 + .. + 0 combinations.
const BELOW: &str = "SELECT a.x FROM z a, z b WHERE a.x < b.x";

/// A self-join by equality: as many combinations as there are numbers.
const SAME: &str = "SELECT a.x FROM z a, z b WHERE a.x = b.x";

/// A join of three by a sum: of so many numbers as many combinations, and one less, and so on down to 1.
const SUMS: &str = "SELECT a.x FROM z a, z b, z c WHERE a.x + b.x = c.x";

// What so many workers answer for a statement with these ways of the tables, as text, with the turns of scripts.
fn told_by<R: Threads + Wait + Sync>(
    rt: &R,
    alloc: Global,
    ways: &str,
    text: &str,
    workers: usize,
    scripts: bool,
    gate: &Watch,
) -> Result<String, Fail>
    requires workers { (0 < workers) × (workers ≤ 16) }
{
    let catalogue = catalogue_of_lines(alloc, TABLES)?;
    match block_of_case(alloc, &catalogue, ways, text, &NoPredicates)? {
        Some(block) => {
            let query = Fitting::new(&block, catalogue.tables(), &NoPredicates);
            let answered = run_by(rt, alloc, &query, workers, scripts, gate)?;
            told_of(alloc, &answered)
        }
        None => Ok(String::from_str(alloc, "no block")?),
    }
}

// What is said of a line by so many workers.
fn line_told<R: Threads + Wait + Sync>(
    rt: &R,
    alloc: Global,
    line: &str,
    workers: usize,
) -> Result<String, Fail>
    requires workers { (0 < workers) × (workers ≤ 16) }
{
    let case = cut(line);
    let gate = watching(alloc, 0)?;
    let scripts = case.how == "v0";
    let told = told_by(rt, alloc, case.ways, case.text, workers, scripts, &gate)?;
    if !scripts {
        return Ok(told);
    }
    let turns = gate.turns();
    Ok(format!(in alloc; "{told}; {turns}")?)
}

#[test]
fn workers_find_what_was_worked_out(rt: HostRuntime) -> Result<(), Fail> {
    for line in CASES.lines() {
        let want = cut(line).want;
        for workers in [1, 2, 3, 8, 16] {
            let told = line_told(&rt, rt.alloc(), line, workers)?;
            assert_eq!(rt; told.as_str(), want, "by {workers}: {line}");
        }
    }
    Ok(())
}

// Each of two workers, and of four, claims first from the alias of its own number, and holds its module until all
// others hold the modules of their own. Where two of them were one thread, or one ran after another, some would wait in
// vain.
#[test]
fn workers_meet(rt: HostRuntime) -> Result<(), Fail> {
    for (workers, all, text, front) in [
        (2, 3, PAIRS, "6 0 0,0 0,1 0,2 1,0 1,1 1,2 2,0 2,1 2,2"),
        (4, 15, PRODUCT, "8 0 0,0 0,0 0,0 0,0 0,1 "),
    ] {
        let gate = watching(rt.alloc(), all)?;
        let told = told_by(&rt, rt.alloc(), "s s s s s", text, workers, true, &gate)?;
        assert!(rt; told.as_str().starts_with(front), "by {workers}: {told}");
        assert!(rt; gate.have_met(), "by {workers}");
    }
    Ok(())
}

// The catalogue of one table, `z`, whose rows are the numbers below `count`.
fn numbers_below(alloc: Global, count: u32) -> Result<Catalogue, Fail> {
    let mut line = String::from_str(alloc, "z x:int")?;
    for x in 0..count {
        line.push_str(format!(in alloc; "/{x}")?.as_str())?;
    }
    Ok(catalogue_of_lines(alloc, line.as_str())?)
}

// Puts the pairs of a first number behind the others: it, and each number whose sum with it is below `count`.
fn push_pairs_of(pairs: &mut Vec<(u32, u32)>, first: u32, count: u32) -> Result<(), Fail> {
    for sum in first..count {
        pairs.push((first, sum - first))?;
    }
    Ok(())
}

// Whether each third row is the sum of the first two.
fn are_sums(combos: &[Combo]) -> bool {
    combos.iter().all(|combo| combo.rows[2] == combo.rows[0].wrapping_add(combo.rows[1]))
}

// Whether these are all two numbers whose sum is below `count`, with their sum.
fn are_all_sums(alloc: Global, combos: &[Combo], count: u32) -> Result<bool, Fail> {
    let mut wanted = Vec::new(alloc);
    for first in 0..count {
        push_pairs_of(&mut wanted, first, count)?;
    }
    let found = pairs_of(alloc, combos)?;
    Ok(are_sums(combos) && found.as_slice() == wanted.as_slice())
}

// How many rows so many workers built over the numbers below `count`, and how many combinations they found; and of
// sums, whether they are all of them, and whether some were put into the pool.
fn numbers_told<R: Threads + Wait + Sync>(
    rt: &R,
    alloc: Global,
    count: u32,
    text: &str,
    workers: usize,
) -> Result<String, Fail>
    requires workers { (0 < workers) × (workers ≤ 16) }
{
    let catalogue = numbers_below(alloc, count)?;
    let gate = watching(alloc, 0)?;
    match block_of_case(alloc, &catalogue, "s", text, &NoPredicates)? {
        Some(block) => {
            let query = Fitting::new(&block, catalogue.tables(), &NoPredicates);
            let answered = run_by(rt, alloc, &query, workers, false, &gate)?;
            let (built, found) = (answered.built.len(), answered.combos.len());
            if text != SUMS {
                return Ok(format!(in alloc; "{built} {found}")?);
            }
            let all = are_all_sums(alloc, answered.combos.as_slice(), count)?;
            let puts = gate.puts().min(3);
            Ok(format!(in alloc; "{built} {found} {all} {puts}")?)
        }
        None => Ok(String::from_str(alloc, "no block")?),
    }
}

// Of 4,100 rows the aliases are claimed in the order of a survey. Of eight numbers at most eight tuples come of a
// probe, and two probes make a combination: far less than 64 are pending, and none is put into the pool.
#[test]
fn workers_join_numbers(rt: HostRuntime) -> Result<(), Fail> {
    for (count, text, want) in [
        (60, BELOW, "120 1770"),
        (4100, SAME, "8200 4100"),
        (8, SUMS, "24 36 true 0"),
    ] {
        for workers in [1, 2, 8] {
            let told = numbers_told(&rt, rt.alloc(), count, text, workers)?;
            assert_eq!(rt; told.as_str(), want, "by {workers}: {text}");
        }
    }
    Ok(())
}

// The row that is built last finds 100 entries at its first probe, and a worker with more than 64 pending tuples puts
// one of them into the pool after each routing: more than two are put.
#[test]
fn workers_put_tuples_into_the_pool(rt: HostRuntime) -> Result<(), Fail> {
    for workers in [1, 2, 8] {
        let told = numbers_told(&rt, rt.alloc(), 100, SUMS, workers)?;
        assert_eq!(rt; told.as_str(), "300 5050 true 3", "by {workers}");
    }
    Ok(())
}
