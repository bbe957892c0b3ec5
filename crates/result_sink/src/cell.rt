//! The value of a column over a combination.

ghost use Rattle.std.specs.Prelude.{◌≡◌, ◌≤◌, length, unwrap_or, IfSome};
ghost use Rattle.std.specs.Option.{option_copied};
ghost use Rattle.sq_value.specs.Relation.{HasKind};
ghost use Rattle.sq_expr.specs.Meaning.{value_in};
ghost use Rattle.sq_expr.specs.Fits.{kind_in};
ghost use Rattle.bag_meaning.specs.Bag.{uses_of};
ghost use Rattle.result_sink.specs.Ready.{HasColumn, rows_of_combo};

use bag_meaning::Combo;
use sq_expr::{Block, ColumnOf};
use sq_value::{Tables, Value};

/// The value of a column of an alias in the combination's row of that alias, if it is a row of the
/// table.
pub fn cell_of<'t>(
    block: &Block,
    tables: &'t Tables,
    combo: &Combo,
    column: ColumnOf,
) -> Option<&'t Value>
    requires few { length block.now.aliases ≤ 12 }
    requires column { HasColumn block.now tables.now column }
    ensures value { unwrap_or (option_copied result) Value.Null
        ≡ value_in tables.now (uses_of block.now) (rows_of_combo block.now combo.now) column }
    ensures kind { IfSome result (λ value. IfSome (kind_in tables.now (uses_of block.now) column)
        (λ kind. HasKind kind value.now)) }
{
    let alias = column.alias as usize;
    let table = tables.get(block.aliases.as_slice()[alias].table);
    let row = combo.rows[alias];
    if row < table.rows() {
        Some(table.value(row, column.column))
    } else {
        None
    }
}
