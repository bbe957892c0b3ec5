//! Runs of workers with a cache of predicates' answers each: how often kept ones were given, and how often the
//! predicates were called.

ghost use Rattle.std.specs.Prelude.{◌<◌, ◌≤◌};

use crate::crews::policies_of;
use crate::sample::cut;
use case_kit::{Counted, block_of_case, catalogue_of_lines};
use catalogue::Catalogue;
use eddy_query::Fitting;
use eddy_worker::{NoGate, run_many_cached};
use std::alloc::Global;
use std::sync::Wait;
use std::test::Fail;
use std::thread::Threads;

/// The cases. First what is wanted: how many combinations are found, the hits and the calls of the predicates together,
/// and whether there were hits. Then a bar, the ways of `k` and `z`, a bar, the statement, a bar, and the room of each
/// cache. Each name is that of one predicate, which is True of all.
///
/// Each of the 300 rows of `z` is put to each of its conjuncts once, and each time a kept answer is given or the
/// predicate called, whichever worker does it. How often tuples of joins are tested depends on the policies.
const CASES: &str = "\
300 300 some | s s | SELECT x FROM z WHERE p(x, 2) | 4
300 300 some | s s | SELECT x FROM z WHERE p(x, 2) | 4096
300 300 none | s s | SELECT x FROM z WHERE p(x, 2) | 0
0 300 none | s s | SELECT x FROM z WHERE NOT p(x, 2) | 4
300 any some | s s | SELECT x FROM k, z WHERE id = x AND p(x, 2) | 4
300 any some | s 0 | SELECT x FROM k, z WHERE id = x AND p(x, 2) | 4";

// The tables: `k` with the numbers 0 to 2, and `z` with 300 rows of them in turn.
fn tables_of(alloc: Global) -> Result<Catalogue, Fail> {
    let mut lines = String::from_str(alloc, "k id:int/0/1/2\nz x:int")?;
    for row in 0..300u32 {
        let x = row % 3;
        lines.push_str(format!(in alloc; "/{x}")?.as_str())?;
    }
    Ok(catalogue_of_lines(alloc, lines.as_str())?)
}

// How many combinations a run by so many workers found, and its hits.
fn found_by<R: Threads + Wait + Sync>(
    rt: &R,
    alloc: Global,
    query: &Fitting<'_, Counted>,
    workers: usize,
    room: u32,
) -> Result<(usize, u64), Fail>
    requires workers { (0 < workers) × (workers ≤ 16) }
    requires room { room ≤ 4096 }
{
    let policies = policies_of(alloc, workers, false)?;
    let cached = run_many_cached(rt, alloc, query, policies, &NoGate, room)?;
    Ok((cached.many.answered.combos.len(), cached.hits))
}

// What is said of so many combinations, hits and calls. Where `any`, not how often a condition was tested.
fn said_of(alloc: Global, found: usize, hits: u64, called: u64, any: bool) -> Result<String, Fail> {
    let some = if hits > 0 { "some" } else { "none" };
    if any {
        return Ok(format!(in alloc; "{found} any {some}")?);
    }
    let tests = hits.saturating_add(called);
    Ok(format!(in alloc; "{found} {tests} {some}")?)
}

// What is said of a case by so many workers.
fn case_said<R: Threads + Wait + Sync>(
    rt: &R,
    alloc: Global,
    catalogue: &Catalogue,
    line: &str,
    workers: usize,
) -> Result<String, Fail>
    requires workers { (0 < workers) × (workers ≤ 16) }
{
    let case = cut(line);
    let room = case.how.parse::<u32>().unwrap_or(0).min(4096);
    let any = case.want.contains("any");
    let functions = Counted::new();
    match block_of_case(alloc, catalogue, case.ways, case.text, &functions)? {
        Some(block) => {
            let query = Fitting::new(&block, catalogue.tables(), &functions);
            let (found, hits) = found_by(rt, alloc, &query, workers, room)?;
            said_of(alloc, found, hits, functions.calls(), any)
        }
        None => Ok(String::from_str(alloc, "no block")?),
    }
}

#[test]
fn each_worker_keeps_answers(rt: HostRuntime) -> Result<(), Fail> {
    let alloc = rt.alloc();
    let catalogue = tables_of(alloc)?;
    for line in CASES.lines() {
        let want = cut(line).want;
        for workers in [1, 2, 8] {
            let said = case_said(&rt, alloc, &catalogue, line, workers)?;
            assert_eq!(rt; said.as_str(), want, "by {workers}: {line}");
        }
    }
    Ok(())
}
