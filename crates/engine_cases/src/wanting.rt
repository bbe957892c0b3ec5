//! Want of memory: a step that it refuses leaves the core as it was, and a run that it doesn't end finds the bag.
//!
//! `tools/fail-alloc` refuses the allocations of the first two tests, one after another. Where their sample finds no
//! memory they end with that error; what is wrong is an assertion that fails.

ghost use Rattle.std.specs.Prelude.{◌<◌};

use crate::compared::is_bag;
use crate::core_runs::policy_of;
use case_kit::{block_of_case, catalogue_of_lines};
use eddy_core::{Core, StepRefused, run_one};
use eddy_query::Fitting;
use eddy_runs::Event;
use sq_value::{Memory, NoPredicates};
use std::alloc::Global;
use std::test::Fail;
use tuple_span::{Route, Tuple, Via};

/// A block, and what its random events are drawn by: the state of the numbers, and the last of the kinds that a route is
/// of, from 0 on. With 6 the last one is a probe by a band.
#[derive(Clone, Copy)]
struct Sample {
    lines: &'static str,
    ways: &'static str,
    text: &'static str,
    state: u64,
    last_kind: u64,
}

/// A block of three aliases, and one of two with a range beside an equality. Each has an alias that look-ups alone
/// reach, and combinations.
const SAMPLES: [Sample; 2] = [
    Sample {
        lines: "r x:int,y:int/2,1/2,2/1,0\ns x:int,y:int/0,/0,3\nt x:int,y:int/1,/0,\n",
        ways: "s1 s 0",
        text: "SELECT a.x FROM r a, t b, s c WHERE c.x=a.y AND b.x=c.x",
        state: 9282619224369179792,
        last_kind: 5,
    },
    Sample {
        lines: "r x:int,y:int/1,2/3,0/1,/3,/1,2\ns x:int,y:int/3,2/1,0/0,1\nt x:int,y:int/3,1/,2/1,\n",
        ways: "s1 1 1",
        text: "SELECT a.x FROM s a, r b WHERE b.x<=a.y AND b.x=a.y",
        state: 57076528561608339,
        last_kind: 5,
    },
];

/// A block with a band.
const BANDED: Sample = Sample {
    lines: "r x:int,y:int/1,2/3,0/1,/3,/1,2\ns x:int,y:int/3,2/1,0/0,1\nt x:int,y:int/3,1/,2/1,\n",
    ways: "s 1 s",
    text: "SELECT a.x FROM r a, s b, t c WHERE b.y=a.y AND a.x BETWEEN b.x AND c.x",
    state: 41,
    last_kind: 6,
};

/// How often a step may want memory before a test ends with that error.
const PATIENCE: u32 = 20;

// The next pseudo-random number below a bound that isn't 0 (Knuth's MMIX generator).
fn next(state: &mut u64, below: u64) -> u64
    requires { 0 < below }
    ensures { result < below }
{
    *state = state
        .wrapping_mul(6364136223846793005)
        .wrapping_add(1442695040888963407);
    (*state >> 33) % below
}

// A route by its numbers, legal or not.
fn route(state: &mut u64, last_kind: u64) -> Route {
    let alias = next(state, 3) as u8;
    let conjunct = next(state, 4) as u8;
    match next(state, last_kind.saturating_add(1)) {
        0 => Route::Select(conjunct),
        1 => Route::Build { alias },
        2 => Route::Probe {
            alias,
            via: Via::All,
        },
        3 => Route::Probe {
            alias,
            via: Via::Range(conjunct),
        },
        4 => Route::Probe {
            alias,
            via: Via::Literal(conjunct),
        },
        5 => Route::Probe {
            alias,
            via: Via::Equal(conjunct),
        },
        _ => Route::Probe {
            alias,
            via: Via::Band(conjunct),
        },
    }
}

// An event of a key, legal or not, where so many are asked.
fn key_event(state: &mut u64, asked: usize) -> Event {
    let place = next(state, (asked as u64).saturating_add(1)) as usize;
    if next(state, 2) == 0 {
        Event::Fetch { place }
    } else {
        Event::End { place }
    }
}

// An event, legal or not, where so many tuples are pending and so many keys asked, with a route of kinds up to the last.
fn event(state: &mut u64, pending: usize, asked: usize, last_kind: u64) -> Event {
    match next(state, 16) {
        0 => Event::Claim {
            alias: next(state, 3) as u8,
        },
        1 | 2 if asked > 0 => key_event(state, asked),
        _ => {
            let place = next(state, (pending as u64).saturating_add(1)) as usize;
            let route = route(state, last_kind);
            Event::Route { place, route }
        }
    }
}

// A number that depends on both (Knuth's MMIX generator).
fn mixed(sum: u64, part: u64) -> u64 {
    sum.wrapping_mul(6364136223846793005)
        .wrapping_add(part)
        .wrapping_add(1442695040888963407)
}

// A tuple as a number.
fn sum_of_tuple(tuple: &Tuple) -> u64 {
    let mut sum = u64::from(tuple.span());
    for row in tuple.rows() {
        sum = mixed(sum, u64::from(row));
    }
    for conjunct in 0..48 {
        sum = mixed(sum, u64::from(tuple.done(conjunct)));
    }
    sum = mixed(sum, tuple.stamp().map_or(0, |stamp| stamp.wrapping_add(1)));
    mixed(sum, u64::from(tuple.hops()))
}

// All that a core tells of its state as one number, which takes no memory.
fn sum_of(core: &Core<'_, NoPredicates>) -> u64 {
    let mut sum = u64::from(core.ended());
    for tuple in core.pending() {
        sum = mixed(sum, sum_of_tuple(tuple));
    }
    sum = mixed(sum, core.pending().len() as u64);
    for combo in core.results() {
        for row in combo.rows {
            sum = mixed(sum, u64::from(row));
        }
        sum = mixed(sum, combo.stamp);
    }
    for entry in core.built() {
        sum = mixed(mixed(sum, u64::from(entry.alias)), u64::from(entry.row));
    }
    sum = mixed(sum, core.built().len() as u64);
    for key in core.asked() {
        sum = mixed(mixed(sum, u64::from(key.fetched)), u64::from(key.ended));
    }
    mixed(sum, core.asked().len() as u64)
}

// Tries random events until the core has ended. Whether it did, and each step that wanted memory left it as it was.
fn drive(alloc: Global, core: &mut Core<'_, NoPredicates>, sample: &Sample) -> Result<bool, Fail> {
    let mut state = sample.state;
    let mut patience = PATIENCE;
    for _ in 0..200_000 {
        if core.pending().is_empty() && core.ended() {
            return Ok(true);
        }
        let event = event(
            &mut state,
            core.pending().len(),
            core.asked().len(),
            sample.last_kind,
        );
        let before = sum_of(core);
        if core.step(alloc, event) == Err(StepRefused::Memory) {
            if sum_of(core) != before {
                return Ok(false);
            }
            if patience == 0 {
                return Err(Fail::from(Memory));
            }
            patience = patience.saturating_sub(1);
        }
    }
    Ok(false)
}

// Whether random events on a block come to an end with its bag, and ask for keys.
fn is_right_by_events(
    alloc: Global,
    query: &Fitting<'_, NoPredicates>,
    sample: &Sample,
) -> Result<bool, Fail> {
    let mut core = Core::start(alloc, query)?;
    if !drive(alloc, &mut core, sample)? || core.asked().is_empty() {
        return Ok(false);
    }
    is_bag(alloc, query, core.results(), core.built())
}

// Whether a run under `lottery` finds the bag, and looks keys up.
fn is_right_by_policy(alloc: Global, query: &Fitting<'_, NoPredicates>) -> Result<bool, Fail> {
    let mut policy = policy_of("lottery");
    let a = run_one(alloc, query, &mut policy)?;
    if a.looked.is_empty() {
        return Ok(false);
    }
    is_bag(alloc, query, a.combos.as_slice(), a.built.as_slice())
}

// Whether a block is run to its bag, by random events or under `lottery`, and asks for keys.
fn is_right(alloc: Global, sample: &Sample, by_events: bool) -> Result<bool, Fail> {
    let catalogue = catalogue_of_lines(alloc, sample.lines)?;
    match block_of_case(alloc, &catalogue, sample.ways, sample.text, &NoPredicates)? {
        Some(block) => {
            let query = Fitting::new(&block, catalogue.tables(), &NoPredicates);
            if by_events {
                is_right_by_events(alloc, &query, sample)
            } else {
                is_right_by_policy(alloc, &query)
            }
        }
        None => Ok(false),
    }
}

#[test]
fn a_step_that_wants_memory_changes_nothing(rt: HostRuntime) -> Result<(), Fail> {
    for sample in SAMPLES {
        let right = is_right(rt.alloc(), &sample, true)?;
        assert!(rt; right);
    }
    Ok(())
}

#[test]
fn a_run_wants_memory_or_finds_the_bag(rt: HostRuntime) -> Result<(), Fail> {
    for sample in SAMPLES {
        let right = is_right(rt.alloc(), &sample, false)?;
        assert!(rt; right);
    }
    Ok(())
}

#[test]
fn random_events_with_a_band_find_the_bag(rt: HostRuntime) -> Result<(), Fail> {
    let right = is_right(rt.alloc(), &BANDED, true)?;
    assert!(rt; right);
    Ok(())
}
