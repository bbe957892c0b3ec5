//! The content of quoted tokens.

ghost use Rattle.std.specs.Prelude.{◌≡◌, ◌++◌, ◌<◌, ◌≤◌, false, true, length, take, drop, slice_index, IfOk, MatchOption};
ghost use Rattle.std.specs.Str.{IsCharBoundary};
ghost use Rattle.sq_token.specs.Quoted as spec;

use sq_value::{Memory, SqText};
use std::alloc::Global;

// The place behind the first quote, if there is one.
fn past_quote(quote: u8, text: &str) -> Option<usize>
    requires { quote < 128 }
    ensures parts { MatchOption result (spec.undoubled quote false text.now ≡ text.now)
        (λ n. spec.undoubled quote false text.now ≡ take n text.now ++ spec.undoubled quote true (drop n text.now)) }
    ensures cut { MatchOption result (length text.now ≤ length text.now) (λ n. (1 ≤ n) × IsCharBoundary text.now n) }
{
    let bytes = text.as_bytes();
    let mut at = 0;
    while at < bytes.len() {
        if bytes[at] == quote {
            return Some(at + 1);
        }
        at += 1;
    }
    None
}

// The text without one quote at its front.
fn behind_quote(quote: u8, text: &str) -> &str
    requires { quote < 128 }
    ensures value { spec.undoubled quote true text.now ≡ spec.undoubled quote false result.now }
    ensures within { length result.now ≤ length text.now }
{
    let bytes = text.as_bytes();
    if !bytes.is_empty() && bytes[0] == quote {
        &text[1..]
    } else {
        text
    }
}

/// The text with one quote for each two.
///
/// # Errors
/// `Memory`: there is no memory for it.
pub fn undoubled(alloc: Global, quote: u8, text: &str) -> Result<SqText, Memory>
    requires { quote < 128 }
    ensures { IfOk result (λ t. t ≡ spec.undoubled quote false text.now) }
{
    let mut plain = String::new(alloc);
    let mut rest = text;
    while let Some(end) = past_quote(quote, rest) {
        plain.push_str(&rest[..end])?;
        rest = behind_quote(quote, &rest[end..]);
    }
    plain.push_str(rest)?;
    SqText::of(alloc, plain.as_str())
}
