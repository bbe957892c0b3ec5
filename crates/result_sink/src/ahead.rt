//! Reading ahead: cells are looked at some thirty combinations before they are needed, since the rows of
//! an answer lie anywhere in their tables, and the memory can answer for many of them at once.
//!
//! Nothing rests on what is read. It is a sum that callers keep, since a compiler may leave out a
//! reading whose answer goes unused.

ghost use Rattle.std.specs.Prelude.{◌≤◌, length};
ghost use Rattle.result_sink.specs.Ready.{HasColumn, IsOrdered, IsShown};

use crate::cell::cell_of;
use bag_meaning::Combo;
use sq_expr::{Block, ColumnOf};
use sq_value::{Tables, Value};

/// For how many combinations cells are looked at together.
const AHEAD: usize = 32;

/// Whether a value is a text. This looks at its cell alone.
fn is_text(value: &Value) -> bool {
    match value {
        Value::Text(_) => true,
        _ => false,
    }
}

/// How many bytes a text has, for which what its cell points at is looked at.
fn text_len(value: &Value) -> u64 {
    match value {
        Value::Text(text) => text.as_str().len() as u64,
        _ => 0,
    }
}

/// How many of the combinations have a text in a column: a look at each cell.
fn count_texts(block: &Block, tables: &Tables, combos: &[Combo], column: ColumnOf) -> u64
    requires few { length block.now.aliases ≤ 12 }
    requires column { HasColumn block.now tables.now column }
{
    let mut texts = 0u64;
    for combo in combos {
        if let Some(value) = cell_of(block, tables, combo, column) {
            texts = texts.wrapping_add(u64::from(is_text(value)));
        }
    }
    texts
}

/// The lengths of the combinations' texts in a column: a look at each text.
fn add_lengths(block: &Block, tables: &Tables, combos: &[Combo], column: ColumnOf) -> u64
    requires few { length block.now.aliases ≤ 12 }
    requires column { HasColumn block.now tables.now column }
{
    let mut read = 0u64;
    for combo in combos {
        if let Some(value) = cell_of(block, tables, combo, column) {
            read = read.wrapping_add(text_len(value));
        }
    }
    read
}

/// Looks at a column's cells of all the combinations, and then at their texts. Each look of one round
/// waits for no other, so that the memory answers for many of them at once.
fn look(block: &Block, tables: &Tables, combos: &[Combo], column: ColumnOf) -> u64
    requires few { length block.now.aliases ≤ 12 }
    requires column { HasColumn block.now tables.now column }
{
    if count_texts(block, tables, combos, column) == 0 {
        return 0;
    }
    add_lengths(block, tables, combos, column)
}

/// The combinations from a place on that are looked at together.
fn ahead_of(combos: &[Combo], place: usize) -> &[Combo] {
    let end = place.saturating_add(AHEAD).min(combos.len());
    match combos.get(place..end) {
        Some(next) => next,
        None => &[],
    }
}

/// Looks at the output columns of the combinations from a place on, at each place that is a multiple
/// of the number looked at.
pub(crate) fn read_shown(block: &Block, tables: &Tables, combos: &[Combo], place: usize) -> u64
    requires { IsShown block.now tables.now }
{
    let mut read = 0u64;
    if place % AHEAD == 0 {
        let next = ahead_of(combos, place);
        for column in block.output.as_slice() {
            let shown = ColumnOf {
                alias: column.alias,
                column: column.column,
            };
            read = read.wrapping_add(look(block, tables, next, shown));
        }
    }
    read
}

/// Looks at the keys of ORDER BY of the combinations from a place on, at each place that is a multiple
/// of the number looked at.
pub(crate) fn read_keys(block: &Block, tables: &Tables, combos: &[Combo], place: usize) -> u64
    requires { IsOrdered block.now tables.now }
{
    let mut read = 0u64;
    if place % AHEAD == 0 {
        let next = ahead_of(combos, place);
        for key in block.order.as_slice() {
            let column = ColumnOf {
                alias: key.alias,
                column: key.column,
            };
            read = read.wrapping_add(look(block, tables, next, column));
        }
    }
    read
}

/// Keeps what was read ahead. No clause says what the line is then, since a record begins anew.
pub(crate) fn keep_read(line: &mut Vec<u8>, read: u64) {
    if read == u64::MAX && line.reserve(1).is_err() {
        line.clear();
    }
}
