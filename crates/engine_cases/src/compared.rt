//! What a run has found, beside what nested loops and a replay find.

use bag_meaning::{Built, Combo, plain};
use eddy_core::replay;
use eddy_query::Fitting;
use sq_value::Predicates;
use std::alloc::Global;
use std::test::Fail;

// Whether a combination is among others: its rows, and its stamp where that counts.
fn is_among(combos: &[Combo], wanted: &Combo, with_stamp: bool) -> bool {
    for combo in combos {
        if combo.rows == wanted.rows && (!with_stamp || combo.stamp == wanted.stamp) {
            return true;
        }
    }
    false
}

// Whether these are the wanted ones in another order, no two of which have the same rows.
fn are_same(combos: &[Combo], wanted: &[Combo], with_stamps: bool) -> bool {
    if combos.len() != wanted.len() {
        return false;
    }
    for combo in wanted {
        if !is_among(combos, combo, with_stamps) {
            return false;
        }
    }
    true
}

/// Whether what was found is the bag, and what the build log replays to, stamps included.
pub fn is_bag<F: Predicates>(
    alloc: Global,
    query: &Fitting<'_, F>,
    found: &[Combo],
    built: &[Built],
) -> Result<bool, Fail> {
    let bag = plain(alloc, query.block(), query.tables(), query.functions())?;
    let replayed = replay(alloc, query, built)?;
    Ok(are_same(found, bag.as_slice(), false) && are_same(found, replayed.as_slice(), true))
}
