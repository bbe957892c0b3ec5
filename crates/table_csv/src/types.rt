//! The types of columns without marks, from all their fields.
ghost use Rattle.std.specs.Prelude.{◌≡◌, ◌<◌, ◌==◌, ◌&&◌, not, nat_lt, length, slice_index, IsTrue};
ghost use Rattle.std.specs.Str.{is_utf8};
ghost use Rattle.csv.specs.Records.{fields_of};
ghost use Rattle.sq_value.specs.Numeral.{all_digits};
ghost use Rattle.table_csv.specs.Heading as spec;
ghost use Rattle.table_csv.specs.Work.{learned, all_learned};
ghost use Rattle.table_csv.specs.Work as work;

use crate::digits::is_short_integer;
use csv::ByteRecord;
use sq_value::{ColType, read_int};
use std::str;

/// What is known of a column from the fields that were seen.
#[derive(Clone, Copy)]
pub(crate) enum Seen {
    /// Each was empty.
    Nulls,
    /// Each was empty or a canonical integer, and one was.
    Integers,
    /// One was neither.
    Other,
}

/// Whether each byte is an ASCII digit.
pub(crate) fn is_digits(text: &[u8]) -> bool
    ensures { result ≡ all_digits text.now }
{
    text.iter().all(|byte| byte.is_ascii_digit())
}

fn without_minus(text: &[u8]) -> &[u8]
    ensures { result.now ≡ spec.without_minus text.now }
{
    match text {
        [b'-', rest @ ..] => rest,
        _ => text,
    }
}

fn is_zero(text: &[u8]) -> bool
    ensures { result ≡ ((length text.now == 1) && (slice_index text.now 0 == 48)) }
{
    text.len() == 1 && text[0] == b'0'
}

/// Digits that don't begin with 0.
fn is_canonical_digits(digits: &[u8]) -> bool
    ensures { result ≡ (nat_lt 0 (length digits.now) && all_digits digits.now && not (slice_index digits.now 0 == 48)) }
{
    !digits.is_empty() && is_digits(digits) && digits[0] != b'0'
}

/// `0`, or digits that don't begin with 0, perhaps behind a minus.
fn is_canonical_numeral(text: &[u8]) -> bool
    ensures { result ≡ spec.is_canonical_numeral text.now }
{
    is_zero(text) || is_canonical_digits(without_minus(text))
}

/// A canonical numeral of 64 bits, told by its text.
fn is_canonical_text(field: &[u8]) -> bool
    ensures { result ≡ spec.is_canonical field.now }
{
    match str::from_utf8(field) {
        Ok(text) => is_canonical_numeral(field) && read_int(text).is_ok(),
        Err(_) => false,
    }
}

/// A canonical numeral of 64 bits.
fn is_canonical(field: &[u8]) -> bool
    ensures { result ≡ spec.is_canonical field.now }
{
    if is_short_integer(field) {
        return true;
    }
    is_canonical_text(field)
}

/// What is known after one field more.
fn learn(seen: Seen, field: &[u8]) -> Seen
    ensures { result ≡ learned seen field.now }
{
    match seen {
        Seen::Other => Seen::Other,
        Seen::Nulls if field.is_empty() => Seen::Nulls,
        Seen::Integers if field.is_empty() => Seen::Integers,
        _ if is_canonical(field) => Seen::Integers,
        _ => Seen::Other,
    }
}

/// What is known of each column after one record more. A record may be shorter or longer.
pub(crate) fn learn_record(seen: &mut [Seen], row: &ByteRecord)
    ensures { seen.new ≡ all_learned seen.old (fields_of row.now) }
{
    for i in 0..seen.len() {
        if let Some(field) = row.get(i) {
            seen[i] = learn(seen[i], field);
        }
    }
}

/// The type of a column without a mark.
pub(crate) fn type_of(seen: Seen) -> ColType
    ensures { result ≡ work.type_of seen }
{
    match seen {
        Seen::Integers => ColType::Integer,
        _ => ColType::Text,
    }
}
