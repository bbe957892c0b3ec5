//! Integers that a field writes in digits alone, read from its bytes at once.
ghost use Rattle.std.specs.Prelude.{◌≡◌, ◌+◌, ◌*◌, ◌<◌, ◌==◌, ◌&&◌, ◌||◌, not, nat_lt, true, pos, Ok, length, slice_index, FitsSigned, IfSome};
ghost use Rattle.std.specs.Int.{w64};
ghost use Rattle.std.specs.Char.{digit_value, is_ascii_digit};
ghost use Rattle.std.specs.Str.Parse.{digits_value};
ghost use Rattle.sq_value.specs.Numeral.{all_digits, number_read};
ghost use Rattle.table_csv.specs.Heading.{is_canonical};

use crate::types::is_digits;

/// How many digits are always a number of 63 bits.
const SHORT: usize = 18;

/// A number with one digit more. None where the byte is no digit or the number has more than 64 bits.
fn value_with(value: u64, digit: u8) -> Option<u64>
    ensures digit { IfSome result (λ _. is_ascii_digit digit ≡ true) }
    ensures value { IfSome result (λ next. next ≡ value * 10 + digit_value digit) }
{
    if !digit.is_ascii_digit() {
        return None;
    }
    match value.checked_mul(10) {
        Some(tens) => tens.checked_add(u64::from(digit - b'0')),
        None => None,
    }
}

/// The number that digits write. None where a byte is no digit or the number has more than 64 bits.
fn value_of(digits: &[u8]) -> Option<u64>
    ensures digits { IfSome result (λ _. all_digits digits.now ≡ true) }
    ensures value { IfSome result (λ number. number ≡ digits_value 10 digits.now) }
{
    let mut value = 0u64;
    for digit in digits {
        match value_with(value, *digit) {
            Some(next) => value = next,
            None => return None,
        }
    }
    Some(value)
}

/// Whether a field has a byte, and begins with no 0 that is followed.
fn begins_plainly(field: &[u8]) -> bool
    ensures { result
        ≡ (nat_lt 0 (length field.now) && ((length field.now == 1) || not (slice_index field.now 0 == 48))) }
{
    !field.is_empty() && (field.len() == 1 || field[0] != b'0')
}

/// A number as a signed one, if it has at most 63 bits.
fn signed(size: u64) -> Option<i64>
    ensures same { IfSome result (λ number. number ≡ pos size) }
    ensures few { IfSome result (λ _. size < 9223372036854775808) }
{
    i64::try_from(size).ok()
}

/// The integer of a field that is its canonical text without a sign. None where it isn't.
pub(crate) fn plain_integer(field: &[u8]) -> Option<i64>
    ensures some { IfSome result (λ _. 0 < length field.now) }
    ensures canonical { IfSome result (λ _. is_canonical field.now ≡ true) }
    ensures number { IfSome result (λ number. number_read field.now ≡ Ok number) }
    ensures fits { IfSome result (λ number. FitsSigned w64 number) }
{
    if !begins_plainly(field) {
        return None;
    }
    match value_of(field) {
        Some(size) => signed(size),
        None => None,
    }
}

/// Whether a field is one of up to 18 digits and the canonical text of an integer. A false answer says
/// nothing.
pub(crate) fn is_short_integer(field: &[u8]) -> bool
    ensures { result ≡ true → is_canonical field.now ≡ true }
{
    if field.len() > SHORT || !begins_plainly(field) {
        return false;
    }
    is_digits(field)
}
