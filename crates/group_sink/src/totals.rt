//! Counts and sums by group, over a column.
ghost use Rattle.std.specs.Prelude.{◌≡◌, ◌≤◌, ◌<◌, ℕ, pos, All, IfOk, length, map, slice_index_or};
ghost use Rattle.result_sink.specs.Ready.{HasColumn};
ghost use Rattle.group_sink.specs.Parts.{group_values};
ghost use Rattle.group_sink.specs.Totals.{addend_of, addend_over, total_by};

use crate::summing::sums_of;
use bag_meaning::Combo;
use result_sink::cell_of;
use sq_expr::{Block, ColumnOf};
use sq_value::{Memory, Tables, Value};
use std::alloc::Global;

/// What each member adds to its group's total.
#[derive(Clone, Copy, Debug, PartialEq, Eq)]
pub(crate) enum Addend {
    /// One.
    One,
    /// One, where the value isn't null.
    Known,
    /// The units of a number; nothing for a null.
    Units,
}

/// What a value adds.
fn added_by(what: Addend, value: &Value) -> i64
    ensures { result ≡ addend_of what value.now }
{
    match (what, value) {
        (Addend::One, _) => 1,
        (Addend::Known, Value::Null) => 0,
        (Addend::Known, _) => 1,
        (Addend::Units, Value::Int(number)) => *number,
        (Addend::Units, Value::Decimal(number)) => number.units,
        (Addend::Units, _) => 0,
    }
}

/// What a member adds. To count members no cell is looked at.
fn addend_in(block: &Block, tables: &Tables, member: &Combo, column: ColumnOf, what: Addend) -> i64
    requires few { length block.now.aliases ≤ 12 }
    requires column { HasColumn block.now tables.now column }
    ensures { result ≡ addend_over block.now tables.now column what member.now }
{
    if what == Addend::One {
        return 1;
    }
    let null = Value::Null;
    let value = cell_of(block, tables, member, column).unwrap_or(&null);
    added_by(what, value)
}

/// What each member adds.
fn addends(
    alloc: Global,
    block: &Block,
    tables: &Tables,
    members: &[Combo],
    column: ColumnOf,
    what: Addend,
) -> Result<Vec<i64>, Memory>
    requires few { length block.now.aliases ≤ 12 }
    requires column { HasColumn block.now tables.now column }
    ensures { IfOk result (λ units. units.items ≡ map (addend_over block.now tables.now column what) members.now) }
{
    let mut units = Vec::with_capacity(alloc, members.len())?;
    for member in members {
        let number = addend_in(block, tables, member, column, what);
        units.push(number)?;
    }
    Ok(units)
}

/// The totals of groups: of each, what its members add together. Each member's group is its number.
///
/// # Errors
/// `Memory`: there is no memory for them.
pub(crate) fn totals_of(
    alloc: Global,
    block: &Block,
    tables: &Tables,
    members: &[Combo],
    numbers: &[usize],
    groups: usize,
    column: ColumnOf,
    what: Addend,
) -> Result<Vec<i128>, Memory>
    requires few { length block.now.aliases ≤ 12 }
    requires column { HasColumn block.now tables.now column }
    requires both { length numbers.now ≡ length members.now }
    requires within { All (λ (g : ℕ). g < groups) numbers.now }
    ensures { IfOk result (λ totals. (group : ℕ) → group < groups
        → slice_index_or totals.items group (pos 0)
        ≡ total_by (addend_of what) (group_values block.now tables.now members.now numbers.now column group)) }
{
    let units = addends(alloc, block, tables, members, column, what)?;
    sums_of(alloc, groups, numbers, units.as_slice())
}
