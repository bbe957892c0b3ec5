//! The one of each group's values that a cell shows: the first, the least or the greatest.
ghost use Rattle.std.specs.Prelude.{◌≡◌, ◌≤◌, ◌<◌, ℕ, All, IfOk, None, length, map, slice_index_or};
ghost use Rattle.sq_value.specs.Order.{ranks_sorted_by};
ghost use Rattle.sq_value.specs.Rank.{rank_of};
ghost use Rattle.result_sink.specs.Ready.{HasColumn};
ghost use Rattle.group_sink.specs.Parts.{rank_kept, value_over};
ghost use Rattle.group_sink.specs.Picked.{picked};
ghost use Rattle.group_sink.specs.Picks.{seen, sooner, picked_of, pick_of};

use bag_meaning::Combo;
use result_sink::cell_of;
use sq_expr::{Block, ColumnOf};
use sq_value::{Key, Memory, SortWay, Tables, Value, key_laws, key_of};
use std::alloc::Global;
use std::cmp::Ordering;

/// Which of a group's values is picked.
#[derive(Clone, Copy, Debug)]
pub(crate) enum Pick {
    /// That of the first member.
    First,
    /// The one that comes first in a sorting where nulls come last.
    By(SortWay),
}

/// The key of a value; a missing one is null.
fn key_of_seen(value: Option<&Value>) -> Option<Key<'_>>
    ensures { rank_kept result ≡ rank_of (seen value.entry) }
{
    match value {
        Some(known) => key_of(known),
        None => None,
    }
}

/// The order of two keys, either of which may be missing.
pub(crate) fn keys_order(way: SortWay, x: Option<Key<'_>>, y: Option<Key<'_>>) -> Ordering
    ensures { result ≡ ranks_sorted_by way (rank_kept x.entry) (rank_kept y.entry) }
{
    key_laws();
    match (x, y) {
        (None, None) => Ordering::Equal,
        (None, Some(_)) => {
            if way.nulls_first {
                Ordering::Less
            } else {
                Ordering::Greater
            }
        }
        (Some(_), None) => {
            if way.nulls_first {
                Ordering::Greater
            } else {
                Ordering::Less
            }
        }
        (Some(a), Some(b)) => {
            let order = a.cmp(&b);
            if way.descending {
                order.reverse()
            } else {
                order
            }
        }
    }
}

/// The one of two values that comes first; the former of two that tie.
fn sooner_of<'t>(way: SortWay, x: Option<&'t Value>, y: Option<&'t Value>) -> Option<&'t Value>
    ensures { seen result ≡ sooner way (seen x.entry) (seen y.entry) }
{
    let order = keys_order(way, key_of_seen(x), key_of_seen(y));
    if order == Ordering::Greater { y } else { x }
}

/// The one of two values that is picked.
fn pick_one<'t>(pick: Pick, x: Option<&'t Value>, y: Option<&'t Value>) -> Option<&'t Value>
    ensures { seen result ≡ picked_of pick (seen x.entry) (seen y.entry) }
{
    match pick {
        Pick::First => x,
        Pick::By(way) => sooner_of(way, x, y),
    }
}

/// Puts into each group's place the picked one of its members' values. It goes from the last member to
/// the first, so that of values that tie the first stays.
fn take_picks<'t>(
    best: &mut [Option<&'t Value>],
    pick: Pick,
    group_of: &[usize],
    values: &[Option<&'t Value>],
)
    requires both { length group_of.now ≡ length values.now }
    requires within { All (λ (g : ℕ). g < length best.old) group_of.now }
    requires none { (group : ℕ) → seen (slice_index_or best.old group None) ≡ Value.Null }
    ensures long { length best.new ≡ length best.old }
    ensures each { (group : ℕ) → group < length best.old
        → seen (slice_index_or best.new group None) ≡ pick_of pick (picked group group_of.now (map seen values.now)) }
{
    let mut place = group_of.len();
    while place > 0 {
        place -= 1;
        let group = group_of[place];
        best[group] = pick_one(pick, values[place], best[group]);
    }
}

/// Of each group the picked value.
fn picks_by<'t>(
    alloc: Global,
    pick: Pick,
    numbers: &[usize],
    groups: usize,
    values: &[Option<&'t Value>],
) -> Result<Vec<Option<&'t Value>>, Memory>
    requires both { length numbers.now ≡ length values.now }
    requires within { All (λ (g : ℕ). g < groups) numbers.now }
    ensures { IfOk result (λ best. (group : ℕ) → group < groups
        → seen (slice_index_or best.items group None) ≡ pick_of pick (picked group numbers.now (map seen values.now))) }
{
    let mut best = vec![in alloc; None; groups]?;
    take_picks(&mut best, pick, numbers, values);
    Ok(best)
}

/// The value of a column in each member; a missing one is null.
fn values_in<'t>(
    alloc: Global,
    block: &Block,
    tables: &'t Tables,
    members: &[Combo],
    column: ColumnOf,
) -> Result<Vec<Option<&'t Value>>, Memory>
    requires few { length block.now.aliases ≤ 12 }
    requires column { HasColumn block.now tables.now column }
    ensures { IfOk result (λ values. map seen values.items ≡ map (value_over block.now tables.now column) members.now) }
{
    let mut values = Vec::with_capacity(alloc, members.len())?;
    for member in members {
        let value = cell_of(block, tables, member, column);
        values.push(value)?;
    }
    Ok(values)
}

/// Of each group the picked one of a column's values. Each member's group is its number.
///
/// # Errors
/// `Memory`: there is no memory for them.
pub(crate) fn picked_values<'t>(
    alloc: Global,
    block: &Block,
    tables: &'t Tables,
    members: &[Combo],
    numbers: &[usize],
    groups: usize,
    column: ColumnOf,
    pick: Pick,
) -> Result<Vec<Option<&'t Value>>, Memory>
    requires few { length block.now.aliases ≤ 12 }
    requires column { HasColumn block.now tables.now column }
    requires both { length numbers.now ≡ length members.now }
    requires within { All (λ (g : ℕ). g < groups) numbers.now }
    ensures { IfOk result (λ best. (group : ℕ) → group < groups
        → seen (slice_index_or best.items group None)
        ≡ pick_of pick (picked group numbers.now (map (value_over block.now tables.now column) members.now))) }
{
    let values = values_in(alloc, block, tables, members, column)?;
    picks_by(alloc, pick, numbers, groups, values.as_slice())
}
