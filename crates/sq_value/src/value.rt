//! Values, the types of columns, and the truth of a comparison.
ghost use Rattle.std.specs.Prelude.{◌≡◌};
ghost use Rattle.sq_value.specs.Rank.{value_order};
ghost use Rattle.sq_value.specs.Comparison.{compared, Comparable};
ghost use Rattle.sq_value.specs.Comparison as spec;

use crate::decimal::Dec;
use crate::key::{key_of, key_order};
use crate::text::SqText;
use std::cmp::Ordering;

/// A value of a cell: SQL's null, an integer, a text or a decimal number. It takes 24 bytes.
#[derive(Debug, Drop)]
pub enum Value {
    Null,
    Int(i64),
    Text(SqText),
    Decimal(Dec),
}

/// The type of a column; each of its values is null or of this type. A DECIMAL column has a scale
/// from 0 to 6, which is that of its values.
#[derive(Clone, Copy, Debug, PartialEq, Eq)]
pub enum ColType {
    Integer,
    Text,
    Decimal(u8),
}

/// SQL-92's three truth values, in the order False, Unknown, True.
#[derive(Clone, Copy, Debug, PartialEq, Eq)]
pub enum Truth {
    False,
    Unknown,
    True,
}

/// The six comparisons.
#[derive(Clone, Copy, Debug, PartialEq, Eq)]
pub enum Cmp {
    Eq,
    Ne,
    Lt,
    Le,
    Gt,
    Ge,
}

/// How one column is sorted: `descending` turns the order of the values that aren't null, and
/// nulls stand where `nulls_first` says.
#[derive(Clone, Copy, Debug, PartialEq, Eq)]
pub struct SortWay {
    /// Whether greater values come first.
    pub descending: bool,
    /// Whether nulls come before all values.
    pub nulls_first: bool,
}

fn is_met(cmp: Cmp, order: Ordering) -> bool
    ensures { result ≡ spec.is_met cmp order }
{
    match cmp {
        Cmp::Eq => order == Ordering::Equal,
        Cmp::Ne => order != Ordering::Equal,
        Cmp::Lt => order == Ordering::Less,
        Cmp::Le => order != Ordering::Greater,
        Cmp::Gt => order == Ordering::Greater,
        Cmp::Ge => order != Ordering::Less,
    }
}

/// True where a test holds, and False where it doesn't.
pub fn two_valued(holds: bool) -> Truth
    ensures { result ≡ spec.two_valued holds }
{
    if holds { Truth::True } else { Truth::False }
}

/// The truth of a comparison of what stands in this order. It is Unknown where there is none, as
/// beside a null.
pub fn truth_of_order(order: Option<Ordering>, cmp: Cmp) -> Truth
    ensures { result ≡ spec.truth_of_order order cmp }
{
    match order {
        None => Truth::Unknown,
        Some(order) => two_valued(is_met(cmp, order)),
    }
}

// The order of two values. Two integers are compared as they are.
fn value_order(x: &Value, y: &Value) -> Option<Ordering>
    ensures { result ≡ value_order x.now y.now }
{
    if let (Value::Int(a), Value::Int(b)) = (x, y) {
        return Some(a.cmp(b));
    }
    key_order(key_of(x), key_of(y))
}

/// The truth of `x cmp y`: Unknown exactly where one of them is null. Numbers compare as numbers,
/// whatever their scales, and texts by their bytes, without padding.
pub fn compare(x: &Value, y: &Value, cmp: Cmp) -> Truth
    requires { Comparable x.now y.now }
    ensures { result ≡ compared x.now y.now cmp }
{
    truth_of_order(value_order(x, y), cmp)
}
