//! The order of values in one column, as ORDER BY sorts them.
ghost use Rattle.std.specs.Prelude.{◌≡◌, ◌≢◌, ◌↔◌, true, false};
ghost use Rattle.std.specs.Cmp.{IsTotalOrder};
ghost use Rattle.std.specs.Ordering.{ordering_reverse, is_gt};
ghost use Rattle.sq_value.specs.Comparison.{Comparable, compared, is_met, two_valued};
ghost use Rattle.sq_value.specs.Order.{sorted_by, ascending, descending};
ghost use Rattle.sq_value.specs.Order as spec;

use crate::key::key_of;
use crate::value::{Cmp, SortWay, Truth, Value};
use std::cmp::Ordering;

// The order of two values that aren't null, turned round where it descends.
fn turned(way: SortWay, order: Ordering) -> Ordering
    ensures { result ≡ spec.turned way order }
{
    if way.descending {
        order.reverse()
    } else {
        order
    }
}

// The order of a null beside another value.
fn null_order(way: SortWay) -> Ordering
    ensures { result ≡ spec.null_order way }
{
    if way.nulls_first {
        Ordering::Less
    } else {
        Ordering::Greater
    }
}

/// The order of two values of one column. Nulls are equal to each other, and stand before all
/// other values or behind them, as `way.nulls_first` says. Numbers stand in the order of numbers,
/// whatever their scales, and texts in that of their bytes, turned round where `way.descending`
/// says so.
pub fn sort_order(x: &Value, y: &Value, way: SortWay) -> Ordering
    requires { Comparable x.now y.now }
    ensures { result ≡ sorted_by way x.now y.now }
{
    match (key_of(x), key_of(y)) {
        (None, None) => Ordering::Equal,
        (None, Some(_)) => null_order(way),
        (Some(_), None) => null_order(way).reverse(),
        (Some(a), Some(b)) => turned(way, a.cmp(&b)),
    }
}

/// The laws of [`sort_order`]. It does nothing.
///
/// It is a total preorder: `total`, of which `reversed`, `chained` and `not_greater` are read
/// most. Two values tie exactly where they compare as equal, or are both null: `tie` and
/// `null_tie`. It agrees with [`compare`](crate::compare): `compared`. Nulls stand together, first
/// or last: `nulls_equal`, `nulls_first` and `nulls_last`. Descending turns the order of all other
/// values and moves no null: `turns` and `keeps_nulls`.
pub fn sort_laws()
    ensures total { (way : SortWay) → IsTotalOrder (sorted_by way) }
    ensures reversed { (way : SortWay) (x y : Value) → sorted_by way y x ≡ ordering_reverse (sorted_by way x y) }
    ensures chained { (way : SortWay) (x y z : Value)
        → sorted_by way x y ≡ Ordering.Less → sorted_by way y z ≡ Ordering.Less → sorted_by way x z ≡ Ordering.Less }
    ensures not_greater { (way : SortWay) (x y z : Value)
        → is_gt (sorted_by way x y) ≡ false → is_gt (sorted_by way y z) ≡ false → is_gt (sorted_by way x z) ≡ false }

    ensures tie { (way : SortWay) (x y : Value) → x ≢ Value.Null → y ≢ Value.Null
        → (sorted_by way x y ≡ Ordering.Equal) ↔ (compared x y Cmp.Eq ≡ Truth.True) }
    ensures null_tie { (way : SortWay) (v : Value) → (sorted_by way Value.Null v ≡ Ordering.Equal) ↔ (v ≡ Value.Null) }
    ensures compared { (way : SortWay) (x y : Value) (cmp : Cmp)
        → way.descending ≡ false → Comparable x y → x ≢ Value.Null → y ≢ Value.Null
        → compared x y cmp ≡ two_valued (is_met cmp (sorted_by way x y)) }

    ensures nulls_equal { (way : SortWay) → sorted_by way Value.Null Value.Null ≡ Ordering.Equal }
    ensures nulls_first { (way : SortWay) (v : Value)
        → way.nulls_first ≡ true → v ≢ Value.Null → sorted_by way Value.Null v ≡ Ordering.Less }
    ensures nulls_last { (way : SortWay) (v : Value)
        → way.nulls_first ≡ false → v ≢ Value.Null → sorted_by way Value.Null v ≡ Ordering.Greater }

    ensures turns { (way : SortWay) (x y : Value) → x ≢ Value.Null → y ≢ Value.Null
        → sorted_by (descending way) x y ≡ ordering_reverse (sorted_by (ascending way) x y) }
    ensures keeps_nulls { (way : SortWay) (v : Value)
        → sorted_by (descending way) Value.Null v ≡ sorted_by (ascending way) Value.Null v }
{}
