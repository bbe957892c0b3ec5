//! Numbers of 128 bits as texts.
ghost use Rattle.std.specs.Prelude.{◌≡◌, ◌<◌, ◌/◌, ◌^◌, ◌+◌, [], ◌∷◌, ◌++◌, OnOk};
ghost use Rattle.std.specs.Fmt.{sign_text, decimal};
ghost use Rattle.sq_value.specs.Decimal.{last_digits, fraction_text, decimal_text};

use itoa::Buffer;
use sq_value::Memory;

/// A number without its last decimal digits, so many of them.
fn without_digits(number: u128, places: u8) -> u128
    ensures { result ≡ number / 10 ^ places }
{
    if places == 0 {
        return number;
    }
    without_digits(number / 10, places - 1)
}

fn push_sign(text: &mut Vec<u8>, negative: bool) -> Result<(), Memory>
    ensures { OnOk result (text.new.items ≡ text.old.items ++ sign_text negative) }
{
    if negative {
        text.push(b'-')?;
    }
    Ok(())
}

fn push_whole(text: &mut Vec<u8>, number: u128) -> Result<(), Memory>
    ensures { OnOk result (text.new.items ≡ text.old.items ++ decimal number) }
{
    text.extend_from_slice(Buffer::new().format(number).as_bytes())?;
    Ok(())
}

fn push_digit(text: &mut Vec<u8>, digit: u128) -> Result<(), Memory>
    requires { digit < 10 }
    ensures { OnOk result (text.new.items ≡ text.old.items ++ (48 + digit) ∷ []) }
{
    text.push(b'0' + digit as u8)?;
    Ok(())
}

/// The last decimal digits of a number, so many of them.
fn push_last_digits(text: &mut Vec<u8>, places: u8, number: u128) -> Result<(), Memory>
    ensures { OnOk result (text.new.items ≡ text.old.items ++ last_digits places number) }
{
    if places == 0 {
        return Ok(());
    }
    let rest = places - 1;
    push_digit(text, without_digits(number, rest) % 10)?;
    push_last_digits(text, rest, number)
}

fn push_fraction(text: &mut Vec<u8>, scale: u8, size: u128) -> Result<(), Memory>
    ensures { OnOk result (text.new.items ≡ text.old.items ++ fraction_text scale size) }
{
    if scale == 0 {
        return Ok(());
    }
    text.push(b'.')?;
    push_last_digits(text, scale, size)
}

/// Puts a number of so many units of a scale after a text: a sign if it is negative, the whole part
/// without leading zeros and, where the scale isn't 0, a point and as many digits as it says.
///
/// # Errors
/// `Memory`: there is no memory for the text. A part of it may be there.
pub(crate) fn push_number(text: &mut Vec<u8>, units: i128, scale: u8) -> Result<(), Memory>
    ensures { OnOk result (text.new.items ≡ text.old.items ++ decimal_text record { units = units; scale = scale }) }
{
    let size = units.unsigned_abs();
    push_sign(text, units < 0)?;
    push_whole(text, without_digits(size, scale))?;
    push_fraction(text, scale, size)
}
