//! Members by the keys of GROUP BY.
ghost use Rattle.std.specs.Prelude.{◌≡◌, ◌≤◌, IfOk, All, length, map};
ghost use Rattle.result_sink.specs.Ready.{HasColumn};
ghost use Rattle.group_sink.specs.Dense.{numbered};
ghost use Rattle.group_sink.specs.Groups.{has_same_keys};
ghost use Rattle.group_sink.specs.Parts.{is_same_pair, pairs, rank_kept, rank_over, value_over};

use crate::part::refined;
use bag_meaning::Combo;
use result_sink::cell_of;
use sq_expr::{Block, ColumnOf};
use sq_value::{Key, Memory, Tables, key_of};
use std::alloc::Global;

/// The key of a column over a combination.
fn key_over<'t>(
    block: &Block,
    tables: &'t Tables,
    combo: &Combo,
    column: ColumnOf,
) -> Option<Key<'t>>
    requires few { length block.now.aliases ≤ 12 }
    requires column { HasColumn block.now tables.now column }
    ensures { rank_kept result ≡ rank_over block.now tables.now column combo.now }
{
    match cell_of(block, tables, combo, column) {
        Some(value) => key_of(value),
        None => None,
    }
}

/// The key of a column over each member.
fn keys_over<'t>(
    alloc: Global,
    block: &Block,
    tables: &'t Tables,
    members: &[Combo],
    column: ColumnOf,
) -> Result<Vec<Option<Key<'t>>>, Memory>
    requires few { length block.now.aliases ≤ 12 }
    requires column { HasColumn block.now tables.now column }
    ensures { IfOk result (λ keys. map rank_kept keys.items ≡ map (rank_over block.now tables.now column) members.now) }
{
    let mut keys = Vec::with_capacity(alloc, members.len())?;
    for member in members {
        let key = key_over(block, tables, member, column);
        keys.push(key)?;
    }
    Ok(keys)
}

/// Numbers members by one key of GROUP BY more.
fn refined_over(
    alloc: Global,
    block: &Block,
    tables: &Tables,
    members: &[Combo],
    numbers: &[usize],
    column: ColumnOf,
) -> Result<Vec<usize>, Memory>
    requires few { length block.now.aliases ≤ 12 }
    requires column { HasColumn block.now tables.now column }
    requires both { length numbers.now ≡ length members.now }
    ensures { IfOk result (λ numbers'. numbers'.items
        ≡ numbered is_same_pair (pairs numbers.now (map (rank_over block.now tables.now column) members.now))) }
{
    let keys = keys_over(alloc, block, tables, members, column)?;
    refined(alloc, numbers, keys.as_slice())
}

/// Numbers members by their keys: those with equal keys have one number, and the first of each group has
/// the number of groups before it. It takes time in proportion to the members, for each key.
///
/// # Errors
/// `Memory`: there is no memory for it.
pub(crate) fn group_numbers(
    alloc: Global,
    block: &Block,
    tables: &Tables,
    keys: &[ColumnOf],
    members: &[Combo],
) -> Result<Vec<usize>, Memory>
    requires few { length block.now.aliases ≤ 12 }
    requires columns { All (HasColumn block.now tables.now) keys.now }
    ensures { IfOk result (λ numbers. numbers.items
        ≡ numbered (has_same_keys (value_over block.now tables.now) keys.now) members.now) }
{
    let mut numbers = vec![in alloc; 0usize; members.len()]?;
    for key in keys {
        numbers = refined_over(alloc, block, tables, members, numbers.as_slice(), *key)?;
    }
    Ok(numbers)
}
