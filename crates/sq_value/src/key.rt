//! What an index knows a value by.
ghost use Rattle.std.specs.Prelude.{◌≡◌, ◌↔◌, Some, IsTrue, IfSome, MatchOption};
ghost use Rattle.std.specs.Option.{option_map};
ghost use Rattle.sq_value.specs.Rank.{rank_of, rank_cmp, value_order, order_between};
ghost use Rattle.sq_value.specs.Comparison.{Comparable, compared};
ghost use Rattle.sq_value.specs.Key.{rank_of_key, IsKeyOf, IsBounded};

use crate::decimal::millionths;
use crate::value::{Cmp, Truth, Value};
use std::cmp::Ordering;
use std::hash::Hash;

/// What an index knows a value by: a number in millionths or a text, and never a null. It borrows
/// the text. Numbers that are equal have one key, whatever their scales.
#[derive(Clone, Copy, Debug, PartialEq, Eq, PartialOrd, Ord, Hash)]
pub enum Key<'t> {
    Number(i128),
    Text(&'t str),
}

/// The key of a value. None exactly for a null.
pub fn key_of(value: &Value) -> Option<Key<'_>>
    ensures key { MatchOption result (value.now ≡ Value.Null) (IsKeyOf value.now) }
    ensures rank { option_map rank_of_key result ≡ rank_of value.now }
    ensures bounded { IfSome result IsBounded }
{
    match value {
        Value::Null => None,
        Value::Int(number) => Some(Key::Number(millionths(*number, 0))),
        Value::Text(text) => Some(Key::Text(text.as_str())),
        Value::Decimal(number) => Some(Key::Number(millionths(number.units, number.scale))),
    }
}

/// The order of what two keys stand for. None where one is missing, and for a number beside a
/// text.
pub fn key_order(x: Option<Key<'_>>, y: Option<Key<'_>>) -> Option<Ordering>
    ensures { result ≡ order_between (option_map rank_of_key x.entry) (option_map rank_of_key y.entry) }
{
    match (x?, y?) {
        (Key::Number(a), Key::Number(b)) => Some(a.cmp(&b)),
        (Key::Text(a), Key::Text(b)) => Some(a.cmp(b)),
        _ => None,
    }
}

/// The laws of keys. It does nothing.
///
/// Two keys are equal exactly where their values compare as equal: `equal`; then they hold the
/// same: `same`, and hash alike: `alike`. The order of two keys is that of their values, where
/// these may be compared: `ordered`. `cmp` says which order `Ord` has; that it is total, and that
/// `==` is an equivalence, is in the laws of `Ord` and `Eq`.
pub fn key_laws()
    ensures cmp { (x y : Key) → ⟦<Key<'static> as Ord>⟧.cmp x y ≡ rank_cmp (rank_of_key x) (rank_of_key y) }
    ensures same { (x y : Key) → IsTrue (⟦<Key<'static> as PartialEq>⟧.eq x y) ↔ (rank_of_key x ≡ rank_of_key y) }
    ensures equal { (v w : Value) (x y : Key) → IsKeyOf v x → IsKeyOf w y
        → IsTrue (⟦<Key<'static> as PartialEq>⟧.eq x y) ↔ (compared v w Cmp.Eq ≡ Truth.True) }
    ensures ordered { (v w : Value) (x y : Key) → IsKeyOf v x → IsKeyOf w y → Comparable v w
        → value_order v w ≡ Some (⟦<Key<'static> as Ord>⟧.cmp x y) }
    ensures alike { (x y : Key) → rank_of_key x ≡ rank_of_key y
        → ⟦<Key<'static> as Hash>⟧.hash_input x ≡ ⟦<Key<'static> as Hash>⟧.hash_input y }
{}
