//! The figures of a run: a row for each route that was taken.

ghost use Rattle.std.specs.Prelude.{◌≡◌, All, IfOk, map};
ghost use Rattle.std.specs.List.{list_any};
ghost use Rattle.eddy_picture.specs.Figures as figures;
ghost use Rattle.eddy_picture.specs.Percent as spec;

use route_counts::{Counter, LANES, Lane, PARTS, meaning_of};
use route_policy::Policy;
use std::alloc::{AllocError, Global};

/// What a lane was given in each part of a run, and what came of it.
#[derive(Clone, Copy, Debug)]
pub struct Row {
    /// The lane.
    pub lane: Lane,
    /// How many tuples it was given, by the part of the run.
    pub given: [u64; 10],
    /// How many tuples came of them, by the part of the run.
    pub came: [u64; 10],
}

/// What is shown of a run: the number of its statement, from 1; the rows that were built of each
/// alias; the most hops of a tuple; how many keys were looked up; and a row for each lane that was
/// given something.
#[derive(Drop)]
pub struct Figures {
    /// The number of its statement, from 1.
    pub number: usize,
    /// The rows that were built, by alias.
    pub built: Vec<usize>,
    /// The most hops of a tuple.
    pub hops: u32,
    /// How many keys were looked up.
    pub looked: usize,
    /// A row for each lane that was given something.
    pub rows: Vec<Row>,
}

/// How many of a hundred a part is of a whole, rounded down: 0 where there is no whole.
pub fn percent(part: u64, whole: u64) -> u64
    ensures { result ≡ spec.percent part whole }
{
    if whole == 0 {
        return 0;
    }
    let ratio = u128::from(part) * 100 / u128::from(whole);
    ratio.min(18_446_744_073_709_551_615) as u64
}

/// The sum of ten counts, as far as a u64 counts.
pub(crate) fn sum_of(counts: &[u64; 10]) -> u64 {
    let mut sum: u64 = 0;
    for count in counts.iter() {
        sum = sum.saturating_add(*count);
    }
    sum
}

/// How many tuples all lanes were given in a part.
pub(crate) fn given_in(rows: &[Row], part: usize) -> u64 {
    let mut sum: u64 = 0;
    for row in rows {
        sum = sum.saturating_add(row.given.get(part).copied().unwrap_or(0));
    }
    sum
}

// What a lane was given in each part.
fn given_of<P: Policy>(counter: &Counter<P>, lane: usize) -> [u64; 10]
    requires { spec.IsLane lane }
    ensures { result ≡ figures.counts_of counter.now.given lane }
{
    let mut counts = [0; 10];
    for part in 0..PARTS {
        counts[part] = counter.given(lane, part);
    }
    counts
}

// What came of it in each part.
fn came_of<P: Policy>(counter: &Counter<P>, lane: usize) -> [u64; 10]
    requires { spec.IsLane lane }
    ensures { result ≡ figures.counts_of counter.now.came lane }
{
    let mut counts = [0; 10];
    for part in 0..PARTS {
        counts[part] = counter.came(lane, part);
    }
    counts
}

// The row of a lane.
fn row_of<P: Policy>(counter: &Counter<P>, lane: usize) -> Row
    requires { spec.IsLane lane }
    ensures number { figures.row_lane result ≡ lane }
    ensures counted { figures.IsCounted counter.now result }
{
    Row {
        lane: meaning_of(lane),
        given: given_of(counter, lane),
        came: came_of(counter, lane),
    }
}

// Whether one of ten counts is of something.
fn has_count(counts: &[u64; 10]) -> bool
    ensures { result ≡ list_any figures.is_some_count counts.now }
{
    counts.iter().any(|count| *count != 0)
}

/// The rows of just the lanes that were given something, by the numbers of the lanes.
///
/// # Errors
/// There is no memory for their list.
pub fn figures_of<P: Policy>(alloc: Global, counter: &Counter<P>) -> Result<Vec<Row>, AllocError>
    ensures lanes { IfOk result (λ rows. map figures.row_lane rows.items
        ≡ figures.taken_lanes counter.now.given 2376) }
    ensures counted { IfOk result (λ rows. All (figures.IsCounted counter.now) rows.items) }
{
    let mut rows = Vec::new(alloc);
    for lane in 0..LANES {
        let row = row_of(counter, lane);
        if has_count(&row.given) {
            rows.push(row)?;
        }
    }
    Ok(rows)
}
