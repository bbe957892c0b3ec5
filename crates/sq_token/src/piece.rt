//! Draws the tokens of a text, one at a time.

ghost use Rattle.std.specs.Prelude.{◌≡◌, ℕ, List, ◌+◌, ◌<◌, ◌≤◌, length, IfSome, ⊤};
ghost use Rattle.sq_token.specs.Form.{IsCut};
ghost use Rattle.sq_token.specs.Longest.{AreTokens};
ghost use Rattle.sq_token.specs.Piece as spec;

use crate::form::{Form, front};

/// The next token of a text: its place, form and length, the text from it on, and the text behind
/// it. What is no token ends a text, so nothing is behind it.
#[derive(Clone, Copy)]
pub struct Drawn<'a> {
    /// Its place, in bytes from 0.
    pub at: u32,
    /// What it is.
    pub form: Form,
    /// Its length in bytes.
    pub length: usize,
    /// The text from it on.
    pub text: &'a str,
    /// The text behind it.
    pub rest: &'a str,
}

/// The first token of a text that begins at the place `at`, behind blanks and comments.
pub fn draw(text: &str, at: u32) -> Option<Drawn<'_>>
    requires { at + length text.now < 4294967295 }
    ensures drawn { spec.IsDrawn at text.entry.now result }
    ensures cut { IfSome result (λ d. IsCut d.form d.text.now d.length) }
    ensures within { IfSome result (λ d. (at ≤ d.at) × (1 ≤ d.length) × (d.length ≤ length d.text.now)
        × (d.at + d.length + length d.rest.now ≤ at + length text.entry.now)) }
{
    let (mut text, mut at) = (text, at);
    while !text.is_empty() {
        let (form, length) = front(text);
        match form {
            Form::Blank => {
                text = &text[length..];
                at += length as u32;
            }
            Form::Bad => {
                let rest = "";
                return Some(Drawn {
                    at,
                    form,
                    length,
                    text,
                    rest,
                });
            }
            _ => {
                let rest = &text[length..];
                return Some(Drawn {
                    at,
                    form,
                    length,
                    text,
                    rest,
                });
            }
        }
    }
    None
}

/// The law of [`draw`] and [`tokens`](crate::tokens). It does nothing.
///
/// A text is a gap, a token, a gap and so on. A gap is blanks and comments. Each token has a form of the
/// grammar, and none that is longer begins what is left. Where none begins it, one byte is the last
/// token, of the form [`Form::Bad`].
pub fn longest_law()
    ensures { (at : ℕ) (text : List ℕ) → AreTokens at text (spec.pieces at text) }
{}
