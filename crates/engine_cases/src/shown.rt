//! Routes and tuples as text.

use case_kit::push_listed;
use std::alloc::Global;
use std::test::Fail;
use tuple_span::{Route, Tuple, Via};

/// How a probe finds its entries.
pub fn via_text(alloc: Global, via: Via) -> Result<String, Fail> {
    match via {
        Via::All => Ok(String::from_str(alloc, "all")?),
        Via::Equal(conjunct) => Ok(format!(in alloc; "equal {conjunct}")?),
        Via::Literal(conjunct) => Ok(format!(in alloc; "literal {conjunct}")?),
        Via::Range(conjunct) => Ok(format!(in alloc; "range {conjunct}")?),
        Via::Band(conjunct) => Ok(format!(in alloc; "band {conjunct}")?),
    }
}

fn route_text(alloc: Global, route: Route) -> Result<String, Fail> {
    match route {
        Route::Select(conjunct) => Ok(format!(in alloc; "select {conjunct}")?),
        Route::Build { alias } => Ok(format!(in alloc; "build {alias}")?),
        Route::Probe { alias, via } => {
            let via = via_text(alloc, via)?;
            Ok(format!(in alloc; "probe {alias} {via}")?)
        }
    }
}

/// Routes, in order.
pub fn routes_text(alloc: Global, routes: &[Route]) -> Result<String, Fail> {
    let mut text = String::new(alloc);
    for route in routes {
        let part = route_text(alloc, *route)?;
        push_listed(&mut text, ", ", part.as_str())?;
    }
    Ok(text)
}

// The rows of a tuple, by alias.
fn push_rows(alloc: Global, text: &mut String, tuple: &Tuple) -> Result<(), Fail> {
    for alias in 0..12 {
        if let Some(row) = tuple.part(alias) {
            let part = format!(in alloc; "{alias}:{row}")?;
            push_listed(text, " ", part.as_str())?;
        }
    }
    Ok(())
}

// The done conjuncts of a tuple, as far as the block has them.
fn push_done(alloc: Global, text: &mut String, tuple: &Tuple) -> Result<(), Fail> {
    for conjunct in 0..48 {
        if tuple.done(conjunct) {
            let part = format!(in alloc; "+{conjunct}")?;
            push_listed(text, " ", part.as_str())?;
        }
    }
    Ok(())
}

/// A tuple: its rows by alias, its stamp, its done conjuncts, and its hops.
pub fn tuple_text(alloc: Global, tuple: &Tuple) -> Result<String, Fail> {
    let mut text = String::new(alloc);
    push_rows(alloc, &mut text, tuple)?;
    if let Some(stamp) = tuple.stamp() {
        let part = format!(in alloc; "@{stamp}")?;
        push_listed(&mut text, " ", part.as_str())?;
    }
    push_done(alloc, &mut text, tuple)?;
    let hops = tuple.hops();
    let part = format!(in alloc; "hops {hops}")?;
    push_listed(&mut text, " ", part.as_str())?;
    Ok(text)
}

/// Tuples, in order, or `none`.
pub fn tuples_text(alloc: Global, tuples: &[Tuple]) -> Result<String, Fail> {
    if tuples.is_empty() {
        return Ok(String::from_str(alloc, "none")?);
    }
    let mut text = String::new(alloc);
    for tuple in tuples {
        let part = tuple_text(alloc, tuple)?;
        push_listed(&mut text, ", ", part.as_str())?;
    }
    Ok(text)
}
