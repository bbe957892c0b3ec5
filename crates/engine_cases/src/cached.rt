//! Runs with a cache of predicates' answers: how often a kept one was given, and how often the predicates were called.

ghost use Rattle.std.specs.Prelude.{◌≤◌};

use crate::compared::is_bag;
use crate::core_runs::policy_of;
use crate::sample::{Case, cut};
use case_kit::{Counted, block_of_case, catalogue_of_lines};
use eddy_core::{CachedAnswer, run_one_cached};
use eddy_query::Fitting;
use sq_value::Memory;
use std::alloc::Global;
use std::test::Fail;

/// The tables.
const TABLES: &str = "\
w x:int/1/2/1/1
k id:int/1/2";

/// Cases, each with what is wanted: the hits, the calls of the predicates, and the combinations found; a bar, the ways
/// of the tables, a bar, the statement, a bar, the policy and the cache's room. Each name is that of one predicate,
/// which is True of all. `+` are hits that depend on the policy.
///
/// A tuple of `w` is through before the next one arrives, so the calls come in the order of its rows. Calls inside a
/// condition aren't asked of the cache. In the joins tuples of one alias and of both are tested, each row of `w` at
/// least once; a row that is looked up is built before its key is ended, so that no test at an end is counted. In the
/// last case each of the four rows is dropped, and is tested once more at the end of its key, without the cache.
const CASES: &str = "\
2 2 4 | s s | SELECT x FROM w WHERE p(x, 2) | lottery 2
1 3 4 | s s | SELECT x FROM w WHERE p(x, 2) | lottery 1
0 4 4 | s s | SELECT x FROM w WHERE p(x, 2) | lottery 0
2 2 4 | s s | SELECT x FROM w WHERE p(x, 2) | pressure 4096
1 3 4 | s s | SELECT x FROM w WHERE p(x, 2) | pressure 1
6 2 4 | s s | SELECT x FROM w WHERE p(x, 2) AND p(x, 2) | pressure 2
1 7 4 | s s | SELECT x FROM w WHERE p(x, 2) AND p(2, x) | s0,s1,b 1
0 4 0 | s s | SELECT x FROM w WHERE NOT p(x, 2) | lottery 2
0 4 4 | s s | SELECT x FROM w WHERE p(x, 2) OR x = 9 | lottery 2
+ 2 4 | s s | SELECT x FROM k, w WHERE id = x AND p(x, 2) | lottery 4
+ 2 4 | s s | SELECT x FROM k, w WHERE id = x AND p(x, 2) | pressure 4
+ 2 4 | 0 s | SELECT x FROM k, w WHERE id = x AND p(x, 2) | lottery 4
+ 2 4 | 0 s | SELECT x FROM k, w WHERE id = x AND p(x, 2) | pressure 4
+ 2 4 | 0 s | SELECT x FROM k, w WHERE id = x AND p(x, 2) | v0 2
2 6 0 | 0 s | SELECT x FROM k, w WHERE id = x AND p(x, 2) AND x = 9 | s1,s2,b,v0 2";

/// What is said of a run that found something else than the bag, or of a text without a block.
const OTHER: &str = "another bag";

// A run with a cache of this room.
fn run_of<'t>(
    alloc: Global,
    query: &Fitting<'t, Counted>,
    word: &str,
    room: u32,
) -> Result<CachedAnswer<'t>, Memory>
    requires room { room ≤ 4096 }
{
    let mut policy = policy_of(word);
    run_one_cached(alloc, query, &mut policy, room)
}

// What is said of a run that called the predicates so often.
fn said_of(
    alloc: Global,
    query: &Fitting<'_, Counted>,
    cached: &CachedAnswer<'_>,
    called: u64,
) -> Result<String, Fail> {
    let (combos, built) = (
        cached.answered.combos.as_slice(),
        cached.answered.built.as_slice(),
    );
    if !is_bag(alloc, query, combos, built)? {
        return Ok(String::from_str(alloc, OTHER)?);
    }
    let hits = cached.hits;
    let found = combos.len();
    Ok(format!(in alloc; "{hits} {called} {found}")?)
}

// What is said of a case.
fn case_said(alloc: Global, case: &Case<'_>) -> Result<String, Fail> {
    let catalogue = catalogue_of_lines(alloc, TABLES)?;
    let functions = Counted::new();
    let (word, room) = case.how.split_once(" ").unwrap_or(("", ""));
    let room = room.parse::<u32>().unwrap_or(0).min(4096);
    match block_of_case(alloc, &catalogue, case.ways, case.text, &functions)? {
        Some(block) => {
            let query = Fitting::new(&block, catalogue.tables(), &functions);
            let cached = run_of(alloc, &query, word, room)?;
            let called = functions.calls();
            said_of(alloc, &query, &cached, called)
        }
        None => Ok(String::from_str(alloc, OTHER)?),
    }
}

// Whether this is said: a front of `+` stands for some hits.
fn is_wanted(want: &str, said: &str) -> bool {
    match want.strip_prefix("+") {
        Some(rest) => said.ends_with(rest) && !said.starts_with("0 "),
        None => said == want,
    }
}

#[test]
fn kept_answers_spare_calls(rt: HostRuntime) -> Result<(), Fail> {
    let mut wrong = String::new(rt.alloc());
    for line in CASES.lines() {
        let case = cut(line);
        let said = case_said(rt.alloc(), &case)?;
        if !is_wanted(case.want, said.as_str()) {
            wrong.push_str(format!(in rt.alloc(); "{said}, and not {line}; ")?.as_str())?;
        }
    }
    assert_eq!(rt; wrong.as_str(), "");
    Ok(())
}
