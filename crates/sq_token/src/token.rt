//! The tokens of a script.

ghost use Rattle.std.specs.Prelude.{◌≡◌, ◌+◌, ◌-◌, ◌<◌, ◌≤◌, length, take, IfOk};
ghost use Rattle.std.specs.Str.{IsCharBoundary};
ghost use Rattle.sq_token.specs.Form.{IsCut};
ghost use Rattle.sq_token.specs.Piece.{piece_of};
ghost use Rattle.sq_token.specs.Quoted.{inside, name_within, text_within};
ghost use Rattle.sq_token.specs.Token as spec;

use crate::form::{APOSTROPHE, Form, QUOTE};
use crate::piece::{Drawn, draw};
use crate::quoted::undoubled;
use sq_value::{Memory, SqText};
use std::alloc::Global;

/// Where a token stands in its text: from the byte `from` up to, and without, the byte `to`.
#[derive(Clone, Copy, Debug, PartialEq, Eq)]
pub struct Span {
    /// Its first byte, from 0.
    pub from: u32,
    /// The byte behind its last.
    pub to: u32,
}

/// What a token is. Words and symbols are told by their slice of the text.
#[derive(Debug, Drop)]
pub enum TokenKind {
    /// An ASCII letter or `_`, then ASCII letters, digits and `_`.
    Word,
    /// A name between double quotes: its content, with one quote for each doubled one.
    Name(SqText),
    /// One or more ASCII digits.
    Number,
    /// A text between single quotes: its content, with one quote for each doubled one.
    Text(SqText),
    /// One of `,` `;` `.` `*` `(` `)` `+` `-` `=` `<>` `!=` `<` `<=` `>` `>=`.
    Symbol,
    /// What is no token, told by its first byte. A quote that nothing closes is one.
    Bad,
}

/// A token, with its place.
#[derive(Debug, Drop)]
pub struct Token {
    /// Its place.
    pub span: Span,
    /// What it is.
    pub kind: TokenKind,
}

// What stands between a quoted token's quotes.
fn inner(text: &str, len: usize) -> &str
    requires long { 2 ≤ len }
    requires within { len ≤ length text.now }
    requires first { IsCharBoundary text.now 1 }
    requires last { IsCharBoundary text.now (len - 1) }
    ensures { result.now ≡ inside (take len text.now) }
{
    &text[1..len - 1]
}

/// The content of a delimited name.
///
/// # Errors
/// `Memory`: there is no memory for it.
#[tactic(auto, unfolding(crate::specs::Quoted::name_within))]
pub fn name_content(alloc: Global, text: &str, len: usize) -> Result<SqText, Memory>
    requires cut { IsCut Form.Delimited text.now len }
    requires within { len ≤ length text.now }
    ensures { IfOk result (λ t. t ≡ name_within (take len text.now)) }
{
    undoubled(alloc, QUOTE, inner(text, len))
}

/// The content of a text.
///
/// # Errors
/// `Memory`: there is no memory for it.
#[tactic(auto, unfolding(crate::specs::Quoted::text_within))]
pub fn text_content(alloc: Global, text: &str, len: usize) -> Result<SqText, Memory>
    requires cut { IsCut Form.Text text.now len }
    requires within { len ≤ length text.now }
    ensures { IfOk result (λ t. t ≡ text_within (take len text.now)) }
{
    undoubled(alloc, APOSTROPHE, inner(text, len))
}

fn kind_of(alloc: Global, drawn: Drawn<'_>) -> Result<TokenKind, Memory>
    requires cut { IsCut drawn.form drawn.text.now drawn.length }
    requires within { drawn.length ≤ length drawn.text.now }
    ensures { IfOk result (λ k. k ≡ spec.kind_of drawn.entry.form (take drawn.entry.length drawn.entry.text.now)) }
{
    match drawn.form {
        Form::Word => Ok(TokenKind::Word),
        Form::Delimited => Ok(TokenKind::Name(name_content(alloc, drawn.text, drawn.length)?)),
        Form::Number => Ok(TokenKind::Number),
        Form::Text => Ok(TokenKind::Text(text_content(alloc, drawn.text, drawn.length)?)),
        Form::Symbol => Ok(TokenKind::Symbol),
        _ => Ok(TokenKind::Bad),
    }
}

fn token_of(alloc: Global, drawn: Drawn<'_>) -> Result<Token, Memory>
    requires cut { IsCut drawn.form drawn.text.now drawn.length }
    requires within { drawn.length ≤ length drawn.text.now }
    requires room { drawn.at + drawn.length < 4294967296 }
    ensures { IfOk result (λ t. t ≡ spec.token_of (piece_of drawn.entry)) }
{
    let span = Span {
        from: drawn.at,
        to: drawn.at + drawn.length as u32,
    };
    let kind = kind_of(alloc, drawn)?;
    Ok(Token { span, kind })
}

/// The tokens of a text of fewer than 4,294,967,295 bytes: from left to right, each the longest that
/// fits, with only blanks (space, tab, LF, CR) and comments (`--` up to the end of the line)
/// between them. What is no token gives one token of kind [`TokenKind::Bad`], and the list ends.
///
/// # Errors
/// `Memory`: there is no memory for the list or for a quoted token's content.
pub fn tokens(alloc: Global, text: &str) -> Result<Vec<Token>, Memory>
    requires { length text.now < 4294967295 }
    ensures list { IfOk result (λ found. found.items ≡ spec.tokens_of text.now) }
    ensures in_order { IfOk result (λ found. spec.InOrder 0 (length text.now) found.items) }
{
    let mut found = Vec::new(alloc);
    let (mut rest, mut at) = (text, 0);
    while let Some(drawn) = draw(rest, at) {
        found.push(token_of(alloc, drawn)?)?;
        at = drawn.at + drawn.length as u32;
        rest = drawn.rest;
    }
    Ok(found)
}
