//! Reads the words of the command line.

ghost use Rattle.std.specs.Prelude.{◌≡◌, ◌≤◌, Some, None, IfOk, IfErr, OnOk, map, option_map, length};
ghost use Rattle.std.specs.String.{string_bytes};
ghost use Rattle.clap.specs.Matches.{found_of};
ghost use Rattle.clap.specs.Walk.{rows_of};
ghost use Rattle.command_line.specs.Answers.{Reads};
ghost use Rattle.command_line.specs.Form.{command};
ghost use Rattle.command_line.specs.Form as spec;
ghost use Rattle.command_line.specs.Within.{IsWithin};

use crate::accesses::accesses_of;
use crate::command::{Command, Query, Task};
use crate::fault::WordsFault;
use crate::matching::{find_matches, text_of};
use crate::remotes::remotes_of;
use crate::settings::{
    cache_of, is_flag_given, number_between, policy_of, route_of, seed_of, workers_of,
};
use crate::tables::tables_of;
use clap::ArgMatches;
use sq_value::SqText;
use std::alloc::Global;

/// The most rows of the demo.
const MAX_ROWS: u64 = 100_000;

/// The script's file, the tables, the accesses and the remotes.
fn query_of(
    alloc: Global,
    words: &[&str],
    index: Option<&str>,
    lookup: Option<&str>,
    remote: Option<&str>,
) -> Result<Query, WordsFault>
    ensures { Reads (spec.query_of (map (λ w. w.now) words.now) (option_map (λ t. t.now) index.entry)
        (option_map (λ t. t.now) lookup.entry) (option_map (λ t. t.now) remote.entry)) result }
{
    let [script, table_words @ ..] = words else {
        return Err(WordsFault::OutOfForm);
    };
    let tables = tables_of(alloc, table_words)?;
    let accesses = accesses_of(alloc, tables.as_slice(), index, lookup)?;
    let remotes = remotes_of(alloc, tables.as_slice(), remote)?;
    let script = SqText::of(alloc, script)?;
    Ok(Query {
        script,
        tables,
        accesses,
        remotes,
    })
}

/// The rows of the demo.
fn demo_of(
    rows: &str,
    words: &[&str],
    index: Option<&str>,
    lookup: Option<&str>,
    remote: Option<&str>,
) -> Result<u32, WordsFault>
    ensures { Reads (spec.demo_of rows.now (map (λ w. w.now) words.now) (option_map (λ t. t.now) index.entry)
        (option_map (λ t. t.now) lookup.entry) (option_map (λ t. t.now) remote.entry)) result }
{
    if !words.is_empty() || index.is_some() || lookup.is_some() || remote.is_some() {
        return Err(WordsFault::OutOfForm);
    }
    match number_between(1, MAX_ROWS, rows) {
        Some(rows) => Ok(rows as u32),
        None => Err(WordsFault::OutOfForm),
    }
}

/// What is to be run.
fn task_of(
    alloc: Global,
    demo: Option<&str>,
    words: &[&str],
    index: Option<&str>,
    lookup: Option<&str>,
    remote: Option<&str>,
) -> Result<Task, WordsFault>
    ensures { Reads (spec.task_of (option_map (λ t. t.now) demo.entry) (map (λ w. w.now) words.now)
        (option_map (λ t. t.now) index.entry) (option_map (λ t. t.now) lookup.entry)
        (option_map (λ t. t.now) remote.entry)) result }
{
    match demo {
        Some(rows) => {
            let rows = demo_of(rows, words, index, lookup, remote)?;
            Ok(Task::Demo { rows })
        }
        None => {
            let query = query_of(alloc, words, index, lookup, remote)?;
            Ok(Task::Query(query))
        }
    }
}

/// What is to be run, by what `clap` finds.
fn task_in(alloc: Global, matches: &ArgMatches<'_>) -> Result<Task, WordsFault>
    ensures { Reads (spec.task_in (rows_of (found_of matches.now))) result }
{
    let demo = text_of(matches, "demo");
    let index = text_of(matches, "index");
    let lookup = text_of(matches, "lookup");
    let remote = text_of(matches, "remote");
    match matches.get_raw("words") {
        Some(words) => task_of(alloc, demo, words, index, lookup, remote),
        None => task_of(alloc, demo, &[], index, lookup, remote),
    }
}

/// Whether the queries run together: only where no access is asked for, no remote and no cache.
fn shared_of(
    shared: bool,
    index: Option<&str>,
    lookup: Option<&str>,
    remote: Option<&str>,
    cache: u32,
) -> Result<bool, WordsFault>
    ensures { Reads (spec.shared_of shared (option_map (λ t. t.now) index.entry)
        (option_map (λ t. t.now) lookup.entry) (option_map (λ t. t.now) remote.entry) cache) result }
{
    if !shared {
        return Ok(false);
    }
    if index.is_some() || lookup.is_some() || remote.is_some() || cache != 0 {
        return Err(WordsFault::OutOfForm);
    }
    Ok(true)
}

/// The same by what `clap` finds.
fn shared_in(matches: &ArgMatches<'_>, cache: u32) -> Result<bool, WordsFault>
    ensures { Reads (spec.shared_in (rows_of (found_of matches.now)) cache) result }
{
    let flag = text_of(matches, "shared");
    let index = text_of(matches, "index");
    let lookup = text_of(matches, "lookup");
    let remote = text_of(matches, "remote");
    let shared = is_flag_given(flag);
    shared_of(shared, index, lookup, remote, cache)
}

/// What the texts ask for that `clap` finds.
fn asked_by(alloc: Global, matches: &ArgMatches<'_>) -> Result<Command, WordsFault>
    ensures { Reads (spec.asked_by (rows_of (found_of matches.now))) result }
{
    let workers = workers_of(text_of(matches, "workers"))?;
    let policy = policy_of(text_of(matches, "policy"))?;
    let seed = seed_of(text_of(matches, "seed"))?;
    let route = route_of(alloc, text_of(matches, "route"))?;
    let cache = cache_of(text_of(matches, "cache"))?;
    let tally = is_flag_given(text_of(matches, "tally"));
    let shared = shared_in(matches, cache)?;
    let task = task_in(alloc, matches)?;
    Ok(Command {
        workers,
        policy,
        seed,
        route,
        cache,
        tally,
        shared,
        task,
    })
}

/// What the words ask for. They don't hold the program's own name.
///
/// # Errors
/// `OutOfForm`: the words aren't in the form of the command line.
/// `Memory`: there is no memory for what is read of them.
pub fn read_command(alloc: Global, words: &[String]) -> Result<Command, WordsFault>
    ensures taken { IfOk result (λ c. command (map string_bytes words.now) ≡ Some c) }
    ensures within { IfOk result IsWithin }
    ensures refused { IfErr result (λ e. e ≡ WordsFault.OutOfForm → command (map string_bytes words.now) ≡ None) }
{
    let matches = find_matches(alloc, words)?;
    asked_by(alloc, &matches)
}
