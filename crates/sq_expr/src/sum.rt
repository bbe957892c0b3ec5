//! Sums over chosen rows, in millionths.
ghost use Rattle.std.specs.Prelude.{◌≡◌, ◌*◌, ◌≤◌, ◌^◌, ◌≤ℤ◌, ◌*ℤ◌, unsigned_abs, pos, neg_ℤ, length, All, IfSome};
ghost use Rattle.sq_value.specs.Rank as spec;
ghost use Rattle.sq_expr.specs.Meaning.{value_in, rank_number, term_number, sum_number};
ghost use Rattle.sq_expr.specs.Fits.{FitsTerm};
ghost use Rattle.sq_expr.specs.Reading.{IsSeen};
ghost use Rattle.sq_expr.specs.declared.cond.Term.{Term};

use crate::cond::{Chosen, Term};
use sq_value::{Value, millionths};

// The number of a value, in millionths. None where it is null or a text.
pub fn number_of(value: &Value) -> Option<i128>
    ensures value { result ≡ rank_number (spec.rank_of value.now) }
    ensures bounded { IfSome result (λ n. unsigned_abs n ≤ 2 ^ 63 * 1000000) }
{
    match value {
        Value::Int(number) => Some(millionths(*number, 0)),
        Value::Decimal(number) => Some(millionths(number.units, number.scale)),
        _ => None,
    }
}

// A factor times a number of millionths, which 128 bits hold with room for eight.
fn product(factor: i64, number: i128) -> i128
    requires factor { unsigned_abs factor ≤ 2147483647 }
    requires number { unsigned_abs number ≤ 2 ^ 63 * 1000000 }
    ensures value { result ≡ factor *ℤ number }
    ensures low { neg_ℤ (pos (2 ^ 114)) ≤ℤ result }
    ensures high { result ≤ℤ pos (2 ^ 114) }
{
    i128::from(factor) * number
}

// A literal of a sum.
fn literal(factor: i64) -> i128
    ensures value { result ≡ spec.millionths factor 0 }
    ensures low { neg_ℤ (pos (2 ^ 114)) ≤ℤ result }
    ensures high { result ≤ℤ pos (2 ^ 114) }
{
    millionths(factor, 0)
}

// A term of a sum: a literal, or a factor times the value of a column. None where that is null.
fn term_number(term: Term, rows: &Chosen<'_>) -> Option<i128>
    requires { FitsTerm (IsSeen rows.now.tables.now rows.now.uses rows.now.rows) term.factor term.column }
    ensures value { let at = value_in rows.now.tables.now rows.now.uses rows.now.rows in
        result ≡ term_number at term.factor term.column }
    ensures low { IfSome result (λ n. neg_ℤ (pos (2 ^ 114)) ≤ℤ n) }
    ensures high { IfSome result (λ n. n ≤ℤ pos (2 ^ 114)) }
{
    let Some(column) = term.column else {
        return Some(literal(term.factor));
    };
    match number_of(rows.value(column)) {
        Some(number) => Some(product(term.factor, number)),
        None => None,
    }
}

// The sum of at most 8 terms, which 128 bits always hold. None where one of them is null.
pub fn sum(terms: &[Term], rows: &Chosen<'_>) -> Option<i128>
    requires few { length terms.now ≤ 8 }
    requires fits { All (λ (t : Term).
        FitsTerm (IsSeen rows.now.tables.now rows.now.uses rows.now.rows) t.factor t.column) terms.now }
    ensures { result ≡ sum_number (value_in rows.now.tables.now rows.now.uses rows.now.rows) terms.now }
{
    let mut sum = 0;
    for term in terms {
        sum += term_number(*term, rows)?;
    }
    Some(sum)
}
