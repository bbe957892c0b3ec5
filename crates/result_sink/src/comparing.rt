//! The order of two combinations in an answer.

ghost use Rattle.std.specs.Prelude.{◌≡◌, ◌≤◌, length, All};
ghost use Rattle.std.specs.Ordering.{nat_cmp};
ghost use Rattle.std.specs.Cmp.Lexicographic.{slice_cmp};
ghost use Rattle.sq_value.specs.Order.{sorted_by};
ghost use Rattle.bag_meaning.specs.Answer.{answer_order, by_keys, key_value};
ghost use Rattle.result_sink.specs.Ready.{HasColumn, IsOrdered, column_of_key, rows_of_combo};

use crate::cell::cell_of;
use bag_meaning::Combo;
use sq_expr::{Block, ColumnOf, OrderKey};
use sq_value::{Tables, Value, sort_order};
use std::cmp::Ordering;

/// The order of two combinations by a key.
fn by_key(block: &Block, tables: &Tables, key: &OrderKey, x: &Combo, y: &Combo) -> Ordering
    requires few { length block.now.aliases ≤ 12 }
    requires column { HasColumn block.now tables.now (column_of_key key.now) }
    ensures { result ≡ sorted_by key.now.way (key_value block.now tables.now key.now (rows_of_combo block.now x.now))
        (key_value block.now tables.now key.now (rows_of_combo block.now y.now)) }
{
    let null = Value::Null;
    let column = ColumnOf {
        alias: key.alias,
        column: key.column,
    };
    let first = cell_of(block, tables, x, column).unwrap_or(&null);
    let second = cell_of(block, tables, y, column).unwrap_or(&null);
    sort_order(first, second, key.way)
}

/// The order of two combinations by the keys of ORDER BY, compared in order.
fn by_keys(block: &Block, tables: &Tables, x: &Combo, y: &Combo) -> Ordering
    requires { IsOrdered block.now tables.now }
    ensures { result ≡ by_keys (key_value block.now tables.now) block.now.order (rows_of_combo block.now x.now)
        (rows_of_combo block.now y.now) }
{
    for key in block.order.as_slice() {
        let order = by_key(block, tables, key, x, y);
        if order != Ordering::Equal {
            return order;
        }
    }
    Ordering::Equal
}

/// The order of two combinations by their rows, alias by alias.
fn by_rows(block: &Block, x: &Combo, y: &Combo) -> Ordering
    requires { length block.now.aliases ≤ 12 }
    ensures { result ≡ slice_cmp nat_cmp (rows_of_combo block.now x.now) (rows_of_combo block.now y.now) }
{
    let aliases = block.aliases.len();
    x.rows[..aliases].cmp(&y.rows[..aliases])
}

/// The order of two combinations in an answer.
pub(crate) fn order_of(block: &Block, tables: &Tables, x: &Combo, y: &Combo) -> Ordering
    requires { IsOrdered block.now tables.now }
    ensures { result ≡ answer_order block.now tables.now (rows_of_combo block.now x.now)
        (rows_of_combo block.now y.now) }
{
    by_keys(block, tables, x, y).then(by_rows(block, x, y))
}
