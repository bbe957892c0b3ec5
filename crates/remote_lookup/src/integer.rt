//! Which integer a value is.
ghost use Rattle.std.specs.Prelude.{◌≡◌, ◌<ℤ◌, ℤ, pos, ◌*ℤ◌, MatchOption};
ghost use Rattle.sq_value.specs.Rank.{millionths};
ghost use Rattle.remote_lookup.specs.Needed.{IsInteger};

use sq_value::Value;

// A number of units divided by another one, where nothing is left.
fn divided(units: i64, by: i64) -> Option<i64>
    requires { pos 0 <ℤ by }
    ensures { MatchOption result ((k : ℤ) → units ≡ k *ℤ by → ⊥) (λ k. units ≡ k *ℤ by) }
{
    if units % by == 0 {
        Some(units / by)
    } else {
        None
    }
}

// The integer that so many units of a scale equal, if they do.
fn whole(units: i64, scale: u8) -> Option<i64>
    ensures { MatchOption result ((k : ℤ) → millionths units scale ≡ millionths k 0 → ⊥)
        (λ k. millionths units scale ≡ millionths k 0) }
{
    match scale {
        0 => Some(units),
        1 => divided(units, 10),
        2 => divided(units, 100),
        3 => divided(units, 1_000),
        4 => divided(units, 10_000),
        5 => divided(units, 100_000),
        _ => divided(units, 1_000_000),
    }
}

/// The integer that a value is, or that it equals as a decimal number.
pub(crate) fn integer_of(value: &Value) -> Option<i64>
    ensures { MatchOption result ((k : ℤ) → IsInteger k value.now → ⊥) (λ k. IsInteger k value.now) }
{
    match value {
        Value::Int(number) => Some(*number),
        Value::Decimal(number) => whole(number.units, number.scale),
        Value::Null | Value::Text(_) => None,
    }
}
