//! The predicates that the program ships.
ghost use Rattle.std.specs.Prelude.{◌≡◌};
ghost use Rattle.fn_registry.specs.Shipped as spec;

use sq_value::{Truth, Value, two_valued};

/// The meaning of the shipped predicates: `divides` is number 0, `same_sign` 1 and `near10` 2.
pub const SHIPPED: u32 = 0;

fn is_divisor(x: i64, y: i64) -> bool
    ensures { result ≡ spec.is_divisor x y }
{
    x != 0 && y.unsigned_abs() % x.unsigned_abs() == 0
}

fn has_same_sign(x: i64, y: i64) -> bool
    ensures { result ≡ spec.has_same_sign x y }
{
    (x < 0) == (y < 0) && (x > 0) == (y > 0)
}

fn is_near(x: i64, y: i64) -> bool
    ensures { result ≡ spec.is_near x y }
{
    let apart = x as i128 - y as i128;
    -10 <= apart && apart <= 10
}

/// `divides(x, y)`: whether x isn't 0 and y is a multiple of it. Unknown where one is null.
pub fn divides(x: &Value, y: &Value) -> Truth
    ensures { result ≡ spec.divides x.now y.now }
{
    match (x, y) {
        (Value::Int(x), Value::Int(y)) => two_valued(is_divisor(*x, *y)),
        _ => Truth::Unknown,
    }
}

/// `same_sign(x, y)`: whether both are negative, both zero or both positive. Unknown where one is
/// null.
pub fn same_sign(x: &Value, y: &Value) -> Truth
    ensures { result ≡ spec.same_sign x.now y.now }
{
    match (x, y) {
        (Value::Int(x), Value::Int(y)) => two_valued(has_same_sign(*x, *y)),
        _ => Truth::Unknown,
    }
}

/// `near10(x, y)`: whether they differ by at most 10. Unknown where one is null.
pub fn near10(x: &Value, y: &Value) -> Truth
    ensures { result ≡ spec.near10 x.now y.now }
{
    match (x, y) {
        (Value::Int(x), Value::Int(y)) => two_valued(is_near(*x, *y)),
        _ => Truth::Unknown,
    }
}
