//! The three truth values' AND, OR and NOT.
ghost use Rattle.std.specs.Prelude.{◌≡◌};
ghost use Rattle.sq_value.specs.Truth.{conjoined, disjoined, negated};

use crate::value::Truth;

/// `x AND y`: the lesser of the two truths.
pub fn and(x: Truth, y: Truth) -> Truth
    ensures { result ≡ conjoined x y }
{
    match (x, y) {
        (Truth::False, _) | (_, Truth::False) => Truth::False,
        (Truth::True, Truth::True) => Truth::True,
        _ => Truth::Unknown,
    }
}

/// `x OR y`: the greater of the two truths.
pub fn or(x: Truth, y: Truth) -> Truth
    ensures { result ≡ disjoined x y }
{
    match (x, y) {
        (Truth::True, _) | (_, Truth::True) => Truth::True,
        (Truth::False, Truth::False) => Truth::False,
        _ => Truth::Unknown,
    }
}

/// `NOT x`: True and False exchanged, and Unknown itself.
pub fn not(x: Truth) -> Truth
    ensures { result ≡ negated x }
{
    match x {
        Truth::False => Truth::True,
        Truth::Unknown => Truth::Unknown,
        Truth::True => Truth::False,
    }
}
