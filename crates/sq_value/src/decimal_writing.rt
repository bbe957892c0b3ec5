//! Decimal numbers written as texts.
ghost use Rattle.std.specs.Prelude.{◌≡◌, ℕ, ℤ, ◌+◌, ◌<◌, ◌≤◌, [], ◌∷◌, ◌++◌, Ok, OnOk, IsTrue};
ghost use Rattle.std.specs.Fmt.{sign_text, decimal};
ghost use Rattle.sq_value.specs.Decimal.{last_digits, fraction_text, decimal_read, decimal_text};
ghost use Rattle.sq_value.specs.Numeral.{is_i64};

use crate::decimal::{Dec, power_of_ten};
use crate::memory::Memory;

fn push_sign(line: &mut Vec<u8>, negative: bool) -> Result<(), Memory>
    ensures { OnOk result (line.new.items ≡ line.old.items ++ sign_text negative) }
{
    if negative {
        line.push(b'-')?;
    }
    Ok(())
}

fn push_digit(line: &mut Vec<u8>, digit: u64) -> Result<(), Memory>
    requires { digit < 10 }
    ensures { OnOk result (line.new.items ≡ line.old.items ++ (48 + digit) ∷ []) }
{
    line.push(b'0' + digit as u8)?;
    Ok(())
}

// A number's decimal digits, without leading zeros.
fn push_number(line: &mut Vec<u8>, number: u64) -> Result<(), Memory>
    ensures { OnOk result (line.new.items ≡ line.old.items ++ decimal number) }
{
    if number < 10 {
        return push_digit(line, number);
    }
    push_number(line, number / 10)?;
    push_digit(line, number % 10)
}

// The last decimal digits of a number, as many as asked for.
fn push_last_digits(line: &mut Vec<u8>, places: u8, number: u64) -> Result<(), Memory>
    requires { places ≤ 6 }
    ensures { OnOk result (line.new.items ≡ line.old.items ++ last_digits places number) }
{
    if places == 0 {
        return Ok(());
    }
    let rest = places - 1;
    push_digit(line, number / u64::from(power_of_ten(rest)) % 10)?;
    push_last_digits(line, rest, number)
}

fn push_fraction(line: &mut Vec<u8>, scale: u8, size: u64) -> Result<(), Memory>
    requires { scale ≤ 6 }
    ensures { OnOk result (line.new.items ≡ line.old.items ++ fraction_text scale size) }
{
    if scale == 0 {
        return Ok(());
    }
    line.push(b'.')?;
    push_last_digits(line, scale, size)
}

/// Puts the text of a decimal number behind a line: a sign if it is negative, the whole part
/// without leading zeros and, where the scale isn't 0, a point and as many digits as it says. The
/// scale is at most 6.
///
/// # Errors
/// `Memory`: there is no memory for the text. A part of it may stand behind the line.
pub fn push_decimal(line: &mut Vec<u8>, number: Dec) -> Result<(), Memory>
    requires { number.scale ≤ 6 }
    ensures { OnOk result (line.new.items ≡ line.old.items ++ decimal_text number) }
{
    let size = number.units.unsigned_abs();
    push_sign(line, number.units < 0)?;
    push_number(line, size / u64::from(power_of_ten(number.scale)))?;
    push_fraction(line, number.scale, size)
}

/// The law of [`push_decimal`] and [`read_decimal`](crate::read_decimal). It does nothing.
///
/// What writes a decimal number is read as that number again, at its scale.
pub fn written_law()
    ensures { (units : ℤ) (scale : ℕ) → IsTrue (is_i64 units)
        → decimal_read scale (decimal_text record { units = units; scale = scale })
        ≡ Ok record { units = units; scale = scale } }
{}
