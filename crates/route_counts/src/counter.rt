//! The policy that counts.

ghost use Rattle.std.specs.Prelude.{◌≡◌, ◌<◌, ◌≤◌, ◌+◌, ◌*◌, IfOk, None, length, slice_index};
ghost use Rattle.route_policy.specs.Routes.{IsRoute};
ghost use Rattle.route_counts.specs.Counting as spec;

use crate::lane::{LANES, PARTS, lane_of};
use route_policy::Policy;
use sq_value::Memory;
use std::alloc::Global;
use std::marker::Model;
use tuple_span::{Route, Tuple};

/// A policy that answers as the one that it holds, and counts for each lane how many tuples it was
/// given and how many came of them, in each of ten parts of the run. A part is so many choices.
#[derive(Drop)]
pub struct Counter<P: Policy> {
    inner: P,
    width: u64,
    given: Vec<u64>,
    came: Vec<u64>,
}

impl<P: Policy> Model for Counter<P> {
    ghost use Rattle.std.specs.Prelude.{◌≡◌, ◌≤◌, length};
    ghost use Rattle.route_counts.specs.Counting.{Counting};

    ghost Value = { Counting P };

    ghost view = { λ r. record { inner = r.inner; width = r.width; given = r.given.items; came = r.came.items } };

    ghost invariant = { λ r. (1 ≤ r.width) × (length r.given.items ≡ 23760) × (length r.came.items ≡ 23760) };
}

// The part of a run that the last of so many choices belongs to.
fn part_of(asked: u64, width: u64) -> usize
    requires { 1 ≤ width }
    ensures value { result ≡ spec.part_after asked width }
    ensures below { result < 10 }
{
    (asked.saturating_sub(1) / width).min(9) as usize
}

// Raises a count, as far as a u64 counts.
fn raise(counts: &mut [u64], cell: usize, more: u64)
    requires { cell < length counts.old }
    ensures { counts.new ≡ spec.raised counts.old cell more }
{
    counts[cell] = counts[cell].saturating_add(more);
}

// A count of nothing for each lane and part.
fn no_counts(alloc: Global) -> Result<Vec<u64>, Memory>
    ensures { IfOk result (λ counts. counts.items ≡ spec.no_counts) }
{
    let counts = vec![in alloc; 0; LANES * PARTS]?;
    Ok(counts)
}

impl<P: Policy> Counter<P> {
    /// A policy that has counted nothing yet. A part of the run is `width` choices, at least 1; the
    /// tenth part is all that comes after the ninth.
    ///
    /// # Errors
    /// `Memory`: there is no memory for the counts.
    pub fn new(alloc: Global, inner: P, width: u64) -> Result<Counter<P>, Memory>
        requires { 1 ≤ width }
        ensures { IfOk result (λ counter. counter ≡ spec.fresh_counting inner width) }
    {
        let given = no_counts(alloc)?;
        let came = no_counts(alloc)?;
        Ok(Counter {
            inner,
            width,
            given,
            came,
        })
    }

    /// How many tuples a lane was given in a part of the run.
    pub fn given(&self, lane: usize, part: usize) -> u64
        requires { (lane < 2376) × (part < 10) }
        ensures { result ≡ slice_index self.now.given (spec.count_place lane part) }
    {
        self.given[lane * PARTS + part]
    }

    /// How many tuples came of them.
    pub fn came(&self, lane: usize, part: usize) -> u64
        requires { (lane < 2376) × (part < 10) }
        ensures { result ≡ slice_index self.now.came (spec.count_place lane part) }
    {
        self.came[lane * PARTS + part]
    }
}

impl<P: Policy> Policy for Counter<P> {
    ghost asked = { λ r. P.asked r.inner };

    ghost calls = { λ _. None };

    ghost may_choose = { λ r tuple legal choice now. P.may_choose r.inner tuple legal choice now.inner
        × (now ≡ spec.with_inner r now.inner) };

    ghost may_become = { λ r route count now. P.may_become r.inner route count now.inner
        × (now ≡ spec.counted r now.inner (P.asked now.inner) route count) };

    ghost may_see = { λ r alias now. P.may_see r.inner alias now.inner × (now ≡ spec.with_inner r now.inner) };

    ghost by_survey = { λ r. P.by_survey r.inner };

    fn choose(&mut self, tuple: &Tuple, legal: &[Route]) -> usize {
        self.inner.choose(tuple, legal)
    }

    fn returned(&mut self, route: Route, count: u64) {
        self.inner.returned(route, count);
        let part = part_of(self.inner.asked(), self.width);
        let cell = lane_of(route) * PARTS + part;
        raise(&mut self.given, cell, 1);
        raise(&mut self.came, cell, count);
    }

    fn touched(&mut self, alias: u8) {
        self.inner.touched(alias);
    }

    fn claims_by_survey(&self) -> bool {
        self.inner.claims_by_survey()
    }

    fn asked(&self) -> u64 {
        self.inner.asked()
    }
}
