//! Events by their words, and what comes of them in a core.

use crate::sample::digits_of;
use eddy_core::Core;
use eddy_runs::Event;
use sq_value::NoPredicates;
use std::alloc::Global;
use std::test::Fail;
use tuple_span::{Route, Via};

// A number of a word, by its place behind the name.
fn number(word: &str, place: usize) -> u8 {
    let digits = word.split('.').nth(place).unwrap_or("");
    digits.parse::<u8>().unwrap_or(99)
}

// A route by its word's name and the numbers behind the tuple's place.
fn route_of(name: &str, second: u8, third: u8) -> Route {
    let via = match name {
        "select" => return Route::Select(second),
        "build" => return Route::Build { alias: second },
        "equal" => Via::Equal(third),
        "range" => Via::Range(third),
        "band" => Via::Band(third),
        _ => Via::All,
    };
    Route::Probe { alias: second, via }
}

/// An event by its word: `claim.ALIAS`, `fetch.PLACE`, `end.PLACE`, `select.PLACE.CONJUNCT`, `build.PLACE.ALIAS`,
/// `all.PLACE.ALIAS`, and `equal`, `range` or `band.PLACE.ALIAS.CONJUNCT`.
pub fn event_of(word: &str) -> Event {
    let name = word.split('.').nth(0).unwrap_or("");
    let first = number(word, 1);
    let place = usize::from(first);
    match name {
        "claim" => Event::Claim { alias: first },
        "fetch" => Event::Fetch { place },
        "end" => Event::End { place },
        _ => Event::Route {
            place,
            route: route_of(name, number(word, 2), number(word, 3)),
        },
    }
}

/// Adds the built rows, the asked keys and what was found.
pub fn push_state(
    alloc: Global,
    told: &mut String,
    core: &Core<'_, NoPredicates>,
) -> Result<(), Fail> {
    told.push_str("log")?;
    for entry in core.built() {
        let (alias, row) = (entry.alias, entry.row);
        told.push_str(format!(in alloc; " {alias}:{row}")?.as_str())?;
    }
    told.push_str(" keys")?;
    for key in core.asked() {
        let (alias, fetched) = (key.alias, key.fetched);
        let end = if key.ended { "." } else { "" };
        let digits = digits_of(&key.key);
        told.push_str(format!(in alloc; " {alias}:{digits}:{fetched}{end}")?.as_str())?;
    }
    told.push_str(" found")?;
    for combo in core.results() {
        let (first, second, stamp) = (combo.rows[0], combo.rows[1], combo.stamp);
        told.push_str(format!(in alloc; " {first},{second}@{stamp}")?.as_str())?;
    }
    Ok(())
}

// All that a core tells of its state.
fn seen(alloc: Global, core: &Core<'_, NoPredicates>) -> Result<String, Fail> {
    let (pending, ended) = (core.pending(), core.ended());
    let mut told = format!(in alloc; "{pending:?} {ended} ")?;
    push_state(alloc, &mut told, core)?;
    Ok(told)
}

/// Does an event, and adds its answer: how many tuples came, or why it is refused, and a star where a refusal changes
/// what the core tells.
pub fn push_answer(
    alloc: Global,
    told: &mut String,
    core: &mut Core<'_, NoPredicates>,
    event: Event,
) -> Result<(), Fail> {
    let before = seen(alloc, core)?;
    match core.step(alloc, event) {
        Ok(count) => told.push_str(format!(in alloc; "{count} ")?.as_str())?,
        Err(refused) => {
            told.push_str(format!(in alloc; "{refused:?} ")?.as_str())?;
            if before.as_str() != seen(alloc, core)?.as_str() {
                told.push_str("* ")?;
            }
        }
    }
    Ok(())
}
