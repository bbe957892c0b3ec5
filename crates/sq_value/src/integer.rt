//! Integers written in decimal digits.
ghost use Rattle.std.specs.Prelude.{◌≡◌};
ghost use Rattle.std.specs.Str.Parse.{without_leading_sign};
ghost use Rattle.sq_value.specs.Numeral.{number_read};
ghost use Rattle.sq_value.specs.Numeral as spec;

/// Why a text isn't an integer.
#[derive(Clone, Copy, Debug, PartialEq, Eq)]
pub enum IntFault {
    /// The text isn't an optional sign and one or more ASCII digits.
    NotANumber,
    /// It is, and the number isn't within the 64 bits of an `i64`.
    OutOfRange,
}

// Whether each byte is an ASCII digit.
pub(crate) fn is_digits(digits: &[u8]) -> bool
    ensures { result ≡ spec.all_digits digits.now }
{
    digits.iter().all(|b| b.is_ascii_digit())
}

// The text behind its sign, if it has one.
pub(crate) fn without_sign(text: &[u8]) -> &[u8]
    ensures { result.now ≡ without_leading_sign text.now }
{
    match text {
        [b'-', rest @ ..] => rest,
        [b'+', rest @ ..] => rest,
        _ => text,
    }
}

fn is_numeral(text: &[u8]) -> bool
    ensures { result ≡ spec.is_numeral text.now }
{
    let digits = without_sign(text);
    !digits.is_empty() && is_digits(digits)
}

/// The integer that a text of an optional sign and decimal digits writes.
///
/// # Errors
/// `NotANumber`: the text isn't an optional `+` or `-` and one or more digits.
/// `OutOfRange`: it is, and the number is below -9,223,372,036,854,775,808 or above
/// 9,223,372,036,854,775,807.
pub fn read_int(text: &str) -> Result<i64, IntFault>
    ensures { result ≡ number_read text.now }
{
    if !is_numeral(text.as_bytes()) {
        return Err(IntFault::NotANumber);
    }
    match text.parse::<i64>() {
        Ok(number) => Ok(number),
        Err(_) => Err(IntFault::OutOfRange),
    }
}
