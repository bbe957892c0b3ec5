//! Decimal numbers, and the millionths in which all numbers are compared.
ghost use Rattle.std.specs.Prelude.{◌≡◌, ℕ, ℤ, ◌*◌, ◌^◌, ◌<◌, ◌≤◌, ◌*ℤ◌, pos, unsigned_abs};
ghost use Rattle.sq_value.specs.Rank as spec;

/// A decimal number: `units` over 10 to the power of `scale`. The scale is from 0 to 6; a greater
/// one counts as 6.
#[derive(Clone, Copy, Debug, PartialEq, Eq)]
pub struct Dec {
    /// The number times 10 to the power of the scale.
    pub units: i64,
    /// How many digits stand behind the point, 0 to 6.
    pub scale: u8,
}

/// Why a text isn't a decimal number of a scale.
#[derive(Clone, Copy, Debug, PartialEq, Eq)]
pub enum DecFault {
    /// The text isn't an optional sign, one or more ASCII digits and, where the scale isn't 0,
    /// maybe a point and one to as many digits as the scale says.
    NotADecimal,
    /// It is, and the number of units isn't within the 64 bits of an `i64`.
    OutOfRange,
}

// Ten to the power of an exponent from 0 to 6.
pub(crate) fn power_of_ten(exponent: u8) -> u32
    requires { exponent ≤ 6 }
    ensures is { result ≡ 10 ^ exponent }
    ensures some { 0 < result }
    ensures small { result ≤ 1000000 }
{
    match exponent {
        0 => 1,
        1 => 10,
        2 => 100,
        3 => 1_000,
        4 => 10_000,
        5 => 100_000,
        _ => 1_000_000,
    }
}

// How many millionths one unit of a scale is.
fn millionths_in(scale: u8) -> u32
    ensures is { result ≡ spec.millionths_in scale }
    ensures small { result ≤ 1000000 }
{
    power_of_ten(6_u8.saturating_sub(scale))
}

/// The number of so many units of a scale, in millionths.
pub fn millionths(units: i64, scale: u8) -> i128
    ensures is { result ≡ spec.millionths units scale }
    ensures small { unsigned_abs result ≤ 2 ^ 63 * 1000000 }
{
    i128::from(units) * i128::from(millionths_in(scale))
}

/// The law of [`millionths`]. It does nothing.
///
/// So many millionths times ten to the power of the scale are a million times the units, for each
/// scale from 0 to 6: a decimal's number is its units over ten to the power of its scale.
pub fn number_law()
    ensures { (units : ℤ) (scale : ℕ) → scale ≤ 6
        → spec.millionths units scale *ℤ pos (10 ^ scale) ≡ units *ℤ pos 1000000 }
{}
