//! When columns are the same.
ghost use Rattle.std.specs.Prelude.{◌≡◌, ◌↔◌, true};
ghost use Rattle.sq_value.specs.Columns as spec;

use crate::table::Column;
use crate::value::ColType;

/// Whether two types are one.
fn is_same_kind(left: ColType, right: ColType) -> bool
    ensures { result ≡ spec.is_same_kind left right }
{
    match (left, right) {
        (ColType::Integer, ColType::Integer) | (ColType::Text, ColType::Text) => true,
        (ColType::Decimal(scale), ColType::Decimal(other)) => scale == other,
        _ => false,
    }
}

/// Whether two columns have the same name and type.
fn is_same_column(left: &Column, right: &Column) -> bool
    ensures { result ≡ spec.is_same_column left.now right.now }
{
    left.name.as_str() == right.name.as_str() && is_same_kind(left.kind, right.kind)
}

/// Whether two lists of columns are the same, in order.
fn are_same(left: &[Column], right: &[Column]) -> bool
    ensures { result ≡ spec.are_same_columns left.now right.now }
{
    if left.len() != right.len() {
        return false;
    }
    for place in 0..left.len() {
        if !is_same_column(&left[place], &right[place]) {
            return false;
        }
    }
    true
}

/// Whether two lists of columns are the same, in order: names byte for byte, and types.
pub fn same_columns(left: &[Column], right: &[Column]) -> bool
    ensures is { result ≡ spec.are_same_columns left.now right.now }
    ensures equal { result ≡ true ↔ left.now ≡ right.now }
{
    are_same(left, right)
}
