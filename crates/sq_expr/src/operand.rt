//! The sides of a comparison and the arguments of a predicate, read over chosen rows.
ghost use Rattle.std.specs.Prelude.{◌≡◌, Some, is_none};
ghost use Rattle.std.specs.Option.{option_map};
ghost use Rattle.sq_value.specs.Rank.{Number, Text, rank_of, order_between};
ghost use Rattle.sq_value.specs.Comparison.{truth_of_order};
ghost use Rattle.sq_value.specs.Key.{rank_of_key};
ghost use Rattle.sq_value.specs.Relation.{HasKind};
ghost use Rattle.sq_value.specs.declared.value.ColType.{ColType};
ghost use Rattle.sq_expr.specs.Meaning.{value_in, side_rank, arg_value};
ghost use Rattle.sq_expr.specs.Fits.{Class, FitsSide, FitsArg};
ghost use Rattle.sq_expr.specs.Reading.{IsSeen};

use crate::cond::{Arg, Chosen, Side};
use crate::sum::{number_of, sum};
use sq_value::{Cmp, Key, Truth, Value, compare, key_of, key_order, truth_of_order};
use std::cmp::Ordering;

// What a side is compared by, in the chosen rows, for which nothing is copied. None where it is
// null.
fn side_key<'t>(side: &'t Side, rows: &Chosen<'t>) -> Option<Key<'t>>
    requires { (class : Class) × FitsSide (IsSeen rows.now.tables.now rows.now.uses rows.now.rows) class side.now }
    ensures { let at = value_in rows.now.tables.now rows.now.uses rows.now.rows in
        option_map rank_of_key result ≡ side_rank at side.now }
{
    match side {
        Side::Null => None,
        Side::Text(text) => Some(Key::Text(text.as_str())),
        Side::Column(column) => key_of(rows.value(*column)),
        Side::Sum(terms) => match sum(terms.as_slice(), rows) {
            Some(number) => Some(Key::Number(number)),
            None => None,
        },
    }
}

// Whether a side is null in the chosen rows.
pub fn is_null(side: &Side, rows: &Chosen<'_>) -> bool
    requires { (class : Class) × FitsSide (IsSeen rows.now.tables.now rows.now.uses rows.now.rows) class side.now }
    ensures { result ≡ is_none (side_rank (value_in rows.now.tables.now rows.now.uses rows.now.rows) side.now) }
{
    match side_key(side, rows) {
        None => true,
        Some(_) => false,
    }
}

// The order of two numbers of millionths. None where one is missing.
fn number_order(x: Option<i128>, y: Option<i128>) -> Option<Ordering>
    ensures { result ≡ order_between (option_map (λ n. Number n) x) (option_map (λ n. Number n) y) }
{
    match (x, y) {
        (Some(a), Some(b)) => Some(a.cmp(&b)),
        _ => None,
    }
}

// The order of a value and a number of millionths. None where one is missing, and for a text.
fn order_beside(value: &Value, number: Option<i128>) -> Option<Ordering>
    ensures { result ≡ order_between (rank_of value.now) (option_map (λ n. Number n) number) }
{
    number_order(number_of(value), number)
}

// The order of a value and a text. None where the value is null, and for a number.
fn order_beside_text(value: &Value, text: &str) -> Option<Ordering>
    ensures { result ≡ order_between (rank_of value.now) (Some (Text text.now)) }
{
    match value {
        Value::Text(own) => Some(own.as_str().cmp(text)),
        _ => None,
    }
}

// The truth of a comparison over the chosen rows. Columns and texts are compared where they lie, and
// sums as numbers.
pub fn compare_sides(left: &Side, cmp: Cmp, right: &Side, rows: &Chosen<'_>) -> Truth
    requires { (class : Class) × (FitsSide (IsSeen rows.now.tables.now rows.now.uses rows.now.rows) class left.now
        × FitsSide (IsSeen rows.now.tables.now rows.now.uses rows.now.rows) class right.now) }
    ensures { let at = value_in rows.now.tables.now rows.now.uses rows.now.rows in
        result ≡ truth_of_order (order_between (side_rank at left.now) (side_rank at right.now)) cmp }
{
    match (left, right) {
        (Side::Column(x), Side::Column(y)) => compare(rows.value(*x), rows.value(*y), cmp),
        (Side::Column(x), Side::Text(text)) => {
            truth_of_order(order_beside_text(rows.value(*x), text.as_str()), cmp)
        }
        (Side::Column(x), Side::Sum(terms)) => {
            let number = sum(terms.as_slice(), rows);
            truth_of_order(order_beside(rows.value(*x), number), cmp)
        }
        (Side::Sum(xs), Side::Sum(ys)) => {
            let (x, y) = (sum(xs.as_slice(), rows), sum(ys.as_slice(), rows));
            truth_of_order(number_order(x, y), cmp)
        }
        _ => truth_of_order(key_order(side_key(left, rows), side_key(right, rows)), cmp),
    }
}

/// What an argument of a predicate stands for, in the chosen rows: a literal, or the value of a column that
/// has a row among them.
pub fn argument<'t>(arg: &'t Arg, rows: &Chosen<'t>) -> &'t Value
    requires { (k : ColType) × FitsArg (IsSeen rows.now.tables.now rows.now.uses rows.now.rows) k arg.now }
    ensures value { result.now ≡ arg_value (value_in rows.now.tables.now rows.now.uses rows.now.rows) arg.now }
    ensures kind { (k : ColType)
        → FitsArg (IsSeen rows.now.tables.now rows.now.uses rows.now.rows) k arg.now → HasKind k result.now }
{
    match arg {
        Arg::Literal(value) => value,
        Arg::Column(column) => rows.value(*column),
    }
}
