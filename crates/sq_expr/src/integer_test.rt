//! Whether a column compares so with an integer, by the integer as it was written.
ghost use Rattle.std.specs.Prelude.{◌≡◌, IfSome};
ghost use Rattle.sq_value.specs.Rank.{rank_of, order_between, millionths};
ghost use Rattle.sq_value.specs.declared.value.Value.{Value as Datum};
ghost use Rattle.sq_expr.specs.declared.cond.ColumnOf.{ColumnOf as OfColumn};
ghost use Rattle.sq_expr.specs.declared.cond.Side.TheVariants as sides;
ghost use Rattle.sq_expr.specs.declared.cond.Cond.TheVariants as conds;
ghost use Rattle.sq_expr.specs.Meaning.{value_in, sum_number};
ghost use Rattle.sq_expr.specs.Reading.{IsInRange};
ghost use Rattle.sq_expr.specs.IntegerTest.{integer_rank, IsInteger, IsBeside, IsIntegerTest};
ghost use Rattle.sq_expr.specs.IntegerTest as spec;

use crate::cond::{Chosen, ColumnOf, Cond, Side, Term};
use sq_value::{Cmp, Truth, Value, millionths, truth_of_order};
use std::cmp::Ordering;

/// A comparison of a column with an integer. The column stands first.
#[derive(Clone, Copy)]
pub(crate) struct IntegerTest {
    pub column: ColumnOf,
    pub cmp: Cmp,
    pub number: i64,
}

/// The sides of a comparison.
pub(crate) fn compared(cond: &Cond) -> Option<(&Side, Cmp, &Side)>
    ensures { IfSome result (λ s. cond.now ≡ conds.Compare s.0.now s.1 s.2.now) }
{
    match cond {
        Cond::Compare(left, cmp, right) => Some((left, *cmp, right)),
        _ => None,
    }
}

/// The column that a side is.
pub(crate) fn column_of(side: &Side) -> Option<ColumnOf>
    ensures { IfSome result (λ c. side.now ≡ sides.Column c) }
{
    match side {
        Side::Column(column) => Some(*column),
        _ => None,
    }
}

// The comparison with its sides exchanged.
fn exchanged(cmp: Cmp) -> Cmp
    ensures { result ≡ spec.exchanged cmp }
{
    match cmp {
        Cmp::Eq => Cmp::Eq,
        Cmp::Ne => Cmp::Ne,
        Cmp::Lt => Cmp::Gt,
        Cmp::Le => Cmp::Ge,
        Cmp::Gt => Cmp::Lt,
        Cmp::Ge => Cmp::Le,
    }
}

/// The integer of a sum of one literal.
pub(crate) fn only_integer(terms: &[Term]) -> Option<i64>
    ensures { IfSome result (λ n. (at : OfColumn → Datum) → sum_number at terms.now ≡ Some (millionths n 0)) }
{
    match terms {
        [term] if term.column.is_none() => Some(term.factor),
        _ => None,
    }
}

// The integer that a side is.
fn integer(side: &Side) -> Option<i64>
    ensures { IfSome result (IsInteger side.now) }
{
    match side {
        Side::Sum(terms) => only_integer(terms.as_slice()),
        _ => None,
    }
}

// The test of a side that is a column beside one that is an integer.
fn beside(side: &Side, cmp: Cmp, other: &Side) -> Option<IntegerTest>
    ensures { IfSome result (IsBeside side.now cmp other.now) }
{
    let Some(column) = column_of(side) else {
        return None;
    };
    let Some(number) = integer(other) else {
        return None;
    };
    Some(IntegerTest {
        column,
        cmp,
        number,
    })
}

/// The test that a condition is, where it compares a column with an integer, whichever stands first.
pub(crate) fn integer_test_of(cond: &Cond) -> Option<IntegerTest>
    ensures { IfSome result (IsIntegerTest cond.now) }
{
    let Some((left, cmp, right)) = compared(cond) else {
        return None;
    };
    match beside(left, cmp, right) {
        Some(test) => Some(test),
        None => beside(right, exchanged(cmp), left),
    }
}

// The order of a value and an integer. None where the value is null, and for a text.
fn integer_order(value: &Value, number: i64) -> Option<Ordering>
    ensures { result ≡ order_between (rank_of value.now) (integer_rank number) }
{
    match value {
        Value::Int(own) => Some(own.cmp(&number)),
        Value::Decimal(own) => Some(millionths(own.units, own.scale).cmp(&millionths(number, 0))),
        _ => None,
    }
}

impl IntegerTest {
    // Its truth over chosen rows, in which the column stands.
    pub(crate) fn truth(&self, rows: &Chosen<'_>) -> Truth
        requires { IsInRange rows.now.tables.now rows.now.uses rows.now.rows self.now.column }
        ensures { result ≡ spec.is_so self.now (value_in rows.now.tables.now rows.now.uses rows.now.rows) }
    {
        truth_of_order(
            integer_order(rows.value(self.column), self.number),
            self.cmp,
        )
    }
}
