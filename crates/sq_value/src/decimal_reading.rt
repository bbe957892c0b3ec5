//! Decimal numbers read from texts.
ghost use Rattle.std.specs.Prelude.{◌≡◌, ◌+◌, ◌*◌, ◌^◌, ◌<◌, ◌≤◌, ◌&&◌, ◌++◌, length, nat_lt, SomeIff, IfOk, IsTrue};
ghost use Rattle.std.specs.Option.{option_copied};
ghost use Rattle.std.specs.Char.{is_ascii_digit, digit_value};
ghost use Rattle.std.specs.Str.Parse.{starts_with_minus, digits_value, digits_value_after};
ghost use Rattle.sq_value.specs.Numeral.{all_digits, is_i64};
ghost use Rattle.sq_value.specs.Decimal.{before_point, behind_point, decimal_read};
ghost use Rattle.sq_value.specs.Decimal as spec;

use crate::decimal::{Dec, DecFault, power_of_ten};
use crate::integer::{is_digits, without_sign};

fn is_negative(text: &[u8]) -> bool
    ensures { result ≡ starts_with_minus text.now }
{
    match text {
        [b'-', ..] => true,
        _ => false,
    }
}

// What stands before the first point, and behind it where there is one.
fn parts(digits: &[u8]) -> (&[u8], Option<&[u8]>)
    ensures before { result.0.now ≡ before_point digits.now }
    ensures behind { option_copied result.1 ≡ behind_point digits.now }
{
    for (place, byte) in digits.iter().enumerate() {
        if *byte == b'.' {
            return (&digits[..place], Some(&digits[place + 1..]));
        }
    }
    (digits, None)
}

fn is_fraction(digits: Option<&[u8]>, scale: u8) -> bool
    ensures { result ≡ spec.is_fraction scale (option_copied digits.entry) }
{
    match digits {
        None => true,
        Some(digits) => {
            !digits.is_empty() && digits.len() <= scale as usize && is_digits(digits)
        }
    }
}

fn is_whole(digits: &[u8]) -> bool
    ensures { result ≡ (nat_lt 0 (length digits.now) && all_digits digits.now) }
{
    !digits.is_empty() && is_digits(digits)
}

fn is_decimal(scale: u8, whole: &[u8], behind: Option<&[u8]>) -> bool
    ensures { result ≡ spec.is_decimal scale whole.now (option_copied behind.entry) }
{
    is_whole(whole) && is_fraction(behind, scale)
}

// A number with one digit more. None where it has more than 64 bits.
fn value_with(value: u64, digit: u8) -> Option<u64>
    requires { IsTrue (is_ascii_digit digit) }
    ensures { let next = value * 10 + digit_value digit in SomeIff result (next < 2 ^ 64) next }
{
    match value.checked_mul(10) {
        Some(tens) => tens.checked_add(u64::from(digit - b'0')),
        None => None,
    }
}

// The number that digits write when they follow those of `start`. None where it has more than 64 bits.
fn value_after(start: u64, digits: &[u8]) -> Option<u64>
    requires { IsTrue (all_digits digits.now) }
    ensures { let value = digits_value_after 10 start digits.now in SomeIff result (value < 2 ^ 64) value }
{
    let mut value = start;
    for digit in digits {
        match value_with(value, *digit) {
            Some(next) => value = next,
            None => return None,
        }
    }
    Some(value)
}

// The number that two lists of digits write as one. None where it has more than 64 bits.
fn all_digits_value(whole: &[u8], fraction: &[u8]) -> Option<u64>
    requires whole { IsTrue (all_digits whole.now) }
    requires fraction { IsTrue (all_digits fraction.now) }
    ensures { let value = digits_value 10 (whole.now ++ fraction.now) in SomeIff result (value < 2 ^ 64) value }
{
    match value_after(0, whole) {
        Some(number) => value_after(number, fraction),
        None => None,
    }
}

// How many units of a scale the digits before and behind a point write. None where it has more
// than 64 bits.
fn units_written(scale: u8, whole: &[u8], fraction: &[u8]) -> Option<u64>
    requires whole { IsTrue (all_digits whole.now) }
    requires fraction { IsTrue (all_digits fraction.now) }
    requires few { length fraction.now ≤ scale }
    requires scale { scale ≤ 6 }
    ensures { let units = spec.units_written scale whole.now fraction.now in SomeIff result (units < 2 ^ 64) units }
{
    let zeros = u64::from(power_of_ten(scale - fraction.len() as u8));
    match all_digits_value(whole, fraction) {
        Some(number) => number.checked_mul(zeros),
        None => None,
    }
}

// A number with its sign. None where 64 bits don't hold it.
fn with_sign(negative: bool, size: u64) -> Option<i64>
    ensures { let number = spec.with_sign negative size in SomeIff result (IsTrue (is_i64 number)) number }
{
    let number = if negative {
        -i128::from(size)
    } else {
        i128::from(size)
    };
    i64::try_from(number).ok()
}

fn digits_or_none(behind: Option<&[u8]>) -> &[u8]
    ensures { result.now ≡ spec.digits_or_none (option_copied behind.entry) }
{
    match behind {
        Some(digits) => digits,
        None => &[],
    }
}

// The units that a sign and the digits before and behind a point write. None where 64 bits don't
// hold them.
fn units_of(scale: u8, negative: bool, whole: &[u8], fraction: &[u8]) -> Option<i64>
    requires whole { IsTrue (all_digits whole.now) }
    requires fraction { IsTrue (all_digits fraction.now) }
    requires few { length fraction.now ≤ scale }
    requires scale { scale ≤ 6 }
    ensures { let units = spec.with_sign negative (spec.units_written scale whole.now fraction.now) in
        SomeIff result (IsTrue (is_i64 units)) units }
{
    match units_written(scale, whole, fraction) {
        Some(size) => with_sign(negative, size),
        None => None,
    }
}

// The number of a sign and of what stands before and behind a point.
fn decimal_of(
    scale: u8,
    negative: bool,
    whole: &[u8],
    behind: Option<&[u8]>,
) -> Result<Dec, DecFault>
    requires { scale ≤ 6 }
    ensures number { result ≡ spec.decimal_of scale negative whole.now (option_copied behind.entry) }
    ensures scale { IfOk result (λ d. d.scale ≡ scale) }
{
    if !is_decimal(scale, whole, behind) {
        return Err(DecFault::NotADecimal);
    }
    match units_of(scale, negative, whole, digits_or_none(behind)) {
        Some(units) => Ok(Dec { units, scale }),
        None => Err(DecFault::OutOfRange),
    }
}

/// The decimal number of a scale, from 0 to 6, that a text writes: an optional sign, one or more
/// digits and, where the scale isn't 0, maybe a point and one to as many digits as the scale says.
///
/// # Errors
/// `NotADecimal`: the text isn't that.
/// `OutOfRange`: it is, and the number of units is below -9,223,372,036,854,775,808 or above
/// 9,223,372,036,854,775,807.
pub fn read_decimal(text: &str, scale: u8) -> Result<Dec, DecFault>
    requires { scale ≤ 6 }
    ensures number { result ≡ decimal_read scale text.now }
    ensures scale { IfOk result (λ d. d.scale ≡ scale) }
{
    let text = text.as_bytes();
    let (whole, behind) = parts(without_sign(text));
    decimal_of(scale, is_negative(text), whole, behind)
}
