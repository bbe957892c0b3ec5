//! The core: runs with a policy, listed events with the state that they leave, a replay, and surveys.

use crate::compared::is_bag;
use crate::core_lines::{
    BOUNDS, CALLS, CHAIN, EVENTS, POLICIES, REPLAYS, RUNS, SURVEYS, TABLES, WHOLE,
};
use crate::events::{event_of, push_answer, push_state};
use crate::sample::{Case, cut, digits_of};
use bag_meaning::Built;
use case_kit::{block_of_case, catalogue_of_lines, push_listed};
use claim_order::survey;
use eddy_core::{Core, replay, run_one};
use eddy_query::Fitting;
use route_policy::{
    AnyPolicy, Greedy, Lottery, Policy, PolicyCall, Pressure, Recorder, RouteScript,
};
use sq_value::{NoPredicates, Predicates};
use std::alloc::Global;
use std::test::Fail;

/// A policy by its word: `lottery`, `greedy`, `pressure`, or a route script.
pub fn policy_of(word: &str) -> AnyPolicy {
    if word == "lottery" {
        return AnyPolicy::Lottery(Lottery::new(1));
    }
    if word == "greedy" {
        return AnyPolicy::Greedy(Greedy::new());
    }
    match RouteScript::read(word) {
        Ok(script) => AnyPolicy::Script(script),
        Err(_) => AnyPolicy::Pressure(Pressure::new()),
    }
}

// What is counted of a run, if it found the bag.
fn counts_said(
    alloc: Global,
    query: &Fitting<'_, NoPredicates>,
    word: &str,
) -> Result<String, Fail> {
    let mut policy = policy_of(word);
    let a = run_one(alloc, query, &mut policy)?;
    if !is_bag(alloc, query, a.combos.as_slice(), a.built.as_slice())? {
        return Ok(String::from_str(alloc, "another bag")?);
    }
    let (asked, hops) = (policy.asked(), a.most_hops);
    let (rows, keys, found) = (a.built.len(), a.looked.len(), a.combos.len());
    Ok(format!(in alloc; "{asked} {hops} / {rows} {keys} {found}")?)
}

// What no policy changes, after a slash, where each is within a bound of hops.
fn bound_said(
    alloc: Global,
    query: &Fitting<'_, NoPredicates>,
    most: &str,
) -> Result<String, Fail> {
    let most = most.parse::<u32>().unwrap_or(0);
    let mut said = String::new(alloc);
    for word in POLICIES.split(' ') {
        let counts = counts_said(alloc, query, word)?;
        let (front, rest) = counts.as_str().split_once('/').unwrap_or(("", ""));
        let hops = front
            .split(' ')
            .nth(1)
            .unwrap_or("")
            .parse::<u32>()
            .unwrap_or(99);
        if !said.is_empty() && !said.as_str().ends_with(rest) || hops > most {
            return Ok(format!(in alloc; "{counts} by {word}")?);
        }
        said = format!(in alloc; "/{rest}")?;
    }
    Ok(said)
}

// What a run by a script answers.
fn whole_said(
    alloc: Global,
    query: &Fitting<'_, NoPredicates>,
    script: &str,
) -> Result<String, Fail> {
    let mut policy = policy_of(script);
    let a = run_one(alloc, query, &mut policy)?;
    let mut told = String::new(alloc);
    for combo in a.combos.as_slice() {
        let (first, second, stamp) = (combo.rows[0], combo.rows[1], combo.stamp);
        let said = format!(in alloc; "{first},{second}@{stamp}")?;
        push_listed(&mut told, " ", said.as_str())?;
    }
    told.push(';')?;
    for built in a.built.as_slice() {
        let (alias, row) = (built.alias, built.row);
        told.push_str(format!(in alloc; " {alias}:{row}")?.as_str())?;
    }
    told.push(';')?;
    for key in a.looked.as_slice() {
        let alias = key.alias;
        let digits = digits_of(&key.key);
        told.push_str(format!(in alloc; " {alias}:{digits}")?.as_str())?;
    }
    Ok(told)
}

// What events answer, and the state that they leave.
fn events_said(
    alloc: Global,
    query: &Fitting<'_, NoPredicates>,
    events: &str,
) -> Result<String, Fail> {
    let mut core = Core::start(alloc, query)?;
    let mut told = String::new(alloc);
    for word in events.split(' ') {
        push_answer(alloc, &mut told, &mut core, event_of(word))?;
    }
    push_state(alloc, &mut told, &core)?;
    Ok(told)
}

// The combinations that a list of built rows replays to.
fn replay_said(alloc: Global, query: &Fitting<'_, NoPredicates>) -> Result<String, Fail> {
    let built = [Built { alias: 0, row: 0 }, Built { alias: 1, row: 1 }];
    let mut told = String::new(alloc);
    let combos = replay(alloc, query, built.as_slice())?;
    for combo in combos.as_slice() {
        let (first, second, stamp) = (combo.rows[0], combo.rows[1], combo.stamp);
        told.push_str(format!(in alloc; "{first} {second} at {stamp}")?.as_str())?;
    }
    Ok(told)
}

/// Whether calls are choices and returns in turn: what is wrong at a place, or their number.
pub fn in_turn(calls: &[PolicyCall]) -> usize {
    for (place, call) in calls.iter().enumerate() {
        let is_choice = matches!(call, PolicyCall::Chose { .. });
        if is_choice != (place % 2 == 0) {
            return place;
        }
    }
    calls.len()
}

// How many calls of the script `v0` a recorder with so much room keeps over a run.
fn calls_said(
    alloc: Global,
    query: &Fitting<'_, NoPredicates>,
    room: &str,
) -> Result<String, Fail> {
    let room = room.parse::<u32>().unwrap_or(0);
    let mut policy = Recorder::new(alloc, policy_of("v0"), room)?;
    // (what it answers is not asked for here)
    let _answered = run_one(alloc, query, &mut policy)?;
    let count = in_turn(policy.calls());
    Ok(format!(in alloc; "{count}")?)
}

// The order of a survey.
fn order_said(alloc: Global, query: &Fitting<'_, NoPredicates>) -> Result<String, Fail> {
    let order = survey(alloc, query)?;
    let mut told = String::new(alloc);
    for alias in order.as_slice() {
        push_listed(&mut told, " ", format!(in alloc; "{alias}")?.as_str())?;
    }
    Ok(told)
}

// What is said of a block.
fn said(
    alloc: Global,
    query: &Fitting<'_, NoPredicates>,
    asked: &str,
    how: &str,
) -> Result<String, Fail> {
    match asked {
        "run" => counts_said(alloc, query, how),
        "bound" => bound_said(alloc, query, how),
        "whole" => whole_said(alloc, query, how),
        "events" => events_said(alloc, query, how),
        "replay" => replay_said(alloc, query),
        "calls" => calls_said(alloc, query, how),
        _ => order_said(alloc, query),
    }
}

// What is said of a case.
fn case_said(alloc: Global, tables: &str, asked: &str, case: &Case<'_>) -> Result<String, Fail> {
    let catalogue = catalogue_of_lines(alloc, tables)?;
    match block_of_case(alloc, &catalogue, case.ways, case.text, &NoPredicates)? {
        Some(block) => {
            let query = Fitting::new(&block, catalogue.tables(), &NoPredicates);
            said(alloc, &query, asked, case.how)
        }
        None => Ok(String::from_str(alloc, "no block")?),
    }
}

#[test]
fn core_answers_as_worked_out(rt: HostRuntime) -> Result<(), Fail> {
    for (asked, tables, lines) in [
        ("run", TABLES, RUNS),
        ("bound", TABLES, BOUNDS),
        ("whole", TABLES, WHOLE),
        ("events", TABLES, EVENTS),
        ("replay", TABLES, REPLAYS),
        ("calls", TABLES, CALLS),
        ("survey", CHAIN, SURVEYS),
    ] {
        for line in lines.lines() {
            let case = cut(line);
            let told = case_said(rt.alloc(), tables, asked, &case)?;
            assert_eq!(rt; told.as_str(), case.want, "of {line}");
        }
    }
    Ok(())
}
