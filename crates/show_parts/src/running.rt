//! A run of a statement, counted.

use crate::refusal::Refusal;
use bag_meaning::Built;
use eddy_core::run_one;
use eddy_picture::{Figures, figures_of};
use eddy_query::Fitting;
use route_counts::Counter;
use route_policy::{AnyPolicy, Policy};
use sq_value::Predicates;
use std::alloc::{AllocError, Global};

// How many rows were built of each of so many aliases.
fn built_of(alloc: Global, aliases: usize, log: &[Built]) -> Result<Vec<usize>, AllocError> {
    let mut counts = Vec::new(alloc);
    for alias in 0..aliases {
        let count = log
            .iter()
            .filter(|built| usize::from(built.alias) == alias)
            .count();
        counts.push(count)?;
    }
    Ok(counts)
}

// How many routings a run of a query has.
fn routings_of<F: Predicates>(
    alloc: Global,
    query: &Fitting<'_, F>,
    policy: AnyPolicy,
) -> Result<u64, Refusal> {
    let mut counter = Counter::new(alloc, policy, 1)?;
    // (what it answers is not asked for here)
    let _answered = run_one(alloc, query, &mut counter)?;
    Ok(counter.asked())
}

/// The figures of a run of a query, which is run once to know how long it is, and once to be counted.
pub(crate) fn figures_for<F: Predicates>(
    alloc: Global,
    number: usize,
    query: &Fitting<'_, F>,
    first: AnyPolicy,
    second: AnyPolicy,
) -> Result<Figures, Refusal> {
    let width = routings_of(alloc, query, first)? / 10 + 1;
    let mut counter = Counter::new(alloc, second, width)?;
    let answered = run_one(alloc, query, &mut counter)?;
    let rows = figures_of(alloc, &counter)?;
    let aliases = query.block().aliases.len();
    let built = built_of(alloc, aliases, answered.built.as_slice())?;
    let hops = answered.most_hops;
    let looked = answered.looked.len();
    Ok(Figures {
        number,
        built,
        hops,
        looked,
        rows,
    })
}
