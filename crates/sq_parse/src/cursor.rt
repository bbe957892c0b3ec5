//! A cursor over the tokens of a script, which draws each as it is reached.

ghost use Rattle.std.specs.Prelude.{◌≡◌, ◌+◌, ◌<◌, ◌≤◌, length, take, IfOk, IfSome, MatchOption, min, ⊤, if◌then◌else◌};
ghost use Rattle.sq_token.specs.Tok as spec;
ghost use Rattle.sq_parse.specs.Cursor as cursor;
ghost use Rattle.sq_token.specs.Mark.{same};
ghost use Rattle.sq_parse.specs.Reading.{Expects};

use crate::stop::Stop;
use sq_token::{Drawn, Form, Mark, draw, mark_of, name_content, text_content};
use sq_value::{Memory, SqText};
use std::alloc::Global;
use std::marker::Model;

/// One more than the greatest number that a script may write.
pub const TOO_LARGE: u64 = 9_223_372_036_854_775_808;

/// The tokens of a script that are left.
#[derive(Drop)]
pub struct Cursor<'a> {
    ahead: Option<Drawn<'a>>,
    mark: Mark,
}

impl<'a> Model for Cursor<'a> {
    ghost use Rattle.std.specs.Prelude.{List};
    ghost use Rattle.sq_token.specs.Tok.{Tok};

    ghost Value = { List Tok };

    ghost use Rattle.sq_parse.specs.Cursor.{left_in, ShowsAhead};

    ghost view = { left_in };

    ghost invariant = { ShowsAhead };
}

fn mark_ahead(ahead: Option<Drawn<'_>>) -> Mark
    requires { IfSome ahead (λ d. d.length ≤ length d.text.now) }
    ensures { result ≡ spec.next (cursor.drawn_toks ahead.entry) }
{
    match ahead {
        None => Mark::End,
        Some(drawn) => mark_of(drawn.form, &drawn.text.as_bytes()[..drawn.length]),
    }
}

// The number that digits write, or `TOO_LARGE` where it isn't below that.
#[tactic(auto, using(crate::proofs::CursorLemmas::capped_step), unfolding(sq_token::specs::Tok::decimal))]
fn number(digits: &[u8]) -> u64
    ensures { result ≡ min (spec.decimal digits.now) TOO_LARGE }
{
    let mut number = 0;
    for digit in digits {
        let more = 10 * u128::from(number) + u128::from(digit.saturating_sub(b'0'));
        number = more.min(u128::from(TOO_LARGE)) as u64;
    }
    number
}

fn content(alloc: Global, drawn: Drawn<'_>) -> Result<SqText, Memory>
    requires { cursor.IsSound drawn }
    ensures { IfOk result (λ t. t ≡ spec.content drawn.entry.form (take drawn.entry.length drawn.entry.text.now)) }
{
    match drawn.form {
        Form::Delimited => name_content(alloc, drawn.text, drawn.length),
        Form::Text => text_content(alloc, drawn.text, drawn.length),
        Form::Bad => SqText::of(alloc, ""),
        _ => SqText::of(alloc, &drawn.text[..drawn.length]),
    }
}

impl<'a> Cursor<'a> {
    /// A cursor over all tokens of a text of fewer than 4,294,967,295 bytes.
    #[tactic(auto, using(crate::proofs::CursorLemmas::drawn_toks_is))]
    pub fn new(text: &'a str) -> Cursor<'a>
        requires { length text.now < 4294967295 }
        ensures { result ≡ spec.toks 0 text.now }
    {
        let ahead = draw(text, 0);
        let mark = mark_ahead(ahead);
        Cursor { ahead, mark }
    }

    /// What the next token is.
    pub fn peek(&self) -> Mark
        ensures { result ≡ spec.next self.now }
    {
        self.mark
    }

    /// Whether the next token is this.
    pub fn sees(&self, mark: Mark) -> bool
        ensures { result ≡ same (spec.next self.now) mark }
    {
        sq_token::same(self.mark, mark)
    }

    /// What the token behind the next one is.
    #[tactic(auto, using(crate::proofs::CursorLemmas::drawn_toks_is))]
    pub fn second(&self) -> Mark
        ensures { result ≡ spec.next (spec.behind self.now) }
    {
        match self.ahead {
            None => Mark::End,
            Some(drawn) => mark_ahead(draw(drawn.rest, drawn.at + drawn.length as u32)),
        }
    }

    /// The place of the next token, and 0 at the end.
    pub fn at(&self) -> u32
        ensures { result ≡ (spec.head self.now).at }
    {
        match self.ahead {
            None => 0,
            Some(drawn) => drawn.at,
        }
    }

    /// The number that the next token writes, or `TOO_LARGE` where it isn't below that.
    pub fn number(&self) -> u64
        ensures { result ≡ min (spec.head self.now).number TOO_LARGE }
    {
        match self.ahead {
            Some(drawn) if matches!(drawn.form, Form::Number) => {
                number(&drawn.text.as_bytes()[..drawn.length])
            }
            _ => 0,
        }
    }

    /// The content of the next token.
    ///
    /// # Errors
    /// `Memory`: there is no memory for it.
    pub fn content(&self, alloc: Global) -> Result<SqText, Memory>
        ensures { IfOk result (λ t. t ≡ (spec.head self.now).text) }
    {
        match self.ahead {
            None => SqText::of(alloc, ""),
            Some(drawn) => content(alloc, drawn),
        }
    }

    /// Goes past the next token, if there is one.
    #[tactic(auto, using(crate::proofs::CursorLemmas::drawn_toks_is))]
    pub fn advance(&mut self)
        ensures { self.new ≡ spec.behind self.old }
    {
        if let Some(drawn) = self.ahead {
            self.ahead = draw(drawn.rest, drawn.at + drawn.length as u32);
            self.mark = mark_ahead(self.ahead);
        }
    }

    /// Goes past the next token where it is this, and tells whether it was.
    pub fn eat(&mut self, mark: Mark) -> bool
        ensures found { result ≡ same (spec.next self.old) mark }
        ensures after { self.new ≡ (if result then spec.behind self.old else self.old) }
    {
        let found = self.sees(mark);
        if found {
            self.advance();
        }
        found
    }

    /// Goes past the next token, which is to be this.
    ///
    /// # Errors
    /// `Syntax`: it isn't.
    pub fn expect(&mut self, mark: Mark) -> Result<(), Stop>
        ensures { Expects mark self.old result self.new }
    {
        if self.sees(mark) {
            self.advance();
            Ok(())
        } else {
            Err(Stop::Syntax)
        }
    }

    /// Whether no token is left.
    pub fn is_done(&self) -> bool
        ensures { result ≡ spec.done self.now }
    {
        match self.ahead {
            None => true,
            Some(_) => false,
        }
    }
}
