//! Route scripts.

ghost use Rattle.std.specs.Prelude.{◌≡◌, ◌==◌, ◌<◌, ◌∷◌, length, position, None, IfSome, false};
ghost use Rattle.std.specs.Option.{option_copied};
ghost use Rattle.route_policy.specs.Script.{is_wanted, script_choice, after_script_choice};
ghost use Rattle.route_policy.specs.Routes.{AreChoices};
ghost use Rattle.route_policy.specs.ScriptLaw.{ScriptLaw};
ghost use Rattle.route_policy.specs.ScriptReading.{script_of, pieces_of, pieces_left, text_pieces};

use crate::class::first_candidate;
use crate::fault::ScriptFault;
use crate::policy::Policy;
use crate::word::{RouteWord, read_word};
use arrayvec::ArrayVec;
use std::marker::Model;
use tuple_span::{Route, Tuple};

/// A policy that follows up to 64 words: the first word that matches a legal route decides, and the
/// first such route is chosen. Where no word matches, the first route of the least class is.
#[derive(Debug, Drop)]
pub struct RouteScript {
    words: ArrayVec<RouteWord, 64>,
    asked: u64,
}

impl Model for RouteScript {
    ghost use Rattle.route_policy.specs.Script.{ScriptState};

    ghost Value = { ScriptState };

    ghost view = { λ s. record { words = s.words.items; asked = s.asked } };
}

/// The place of the first comma.
fn comma_in(bytes: &[u8]) -> Option<usize>
    ensures { result ≡ position (λ byte. byte == 44) bytes.now }
{
    bytes.iter().position(|byte| *byte == b',')
}

/// The bytes before the first comma, and those behind it where there is one.
fn cut(bytes: &[u8]) -> (&[u8], Option<&[u8]>)
    ensures pieces { pieces_of bytes.now ≡ result.0.now ∷ pieces_left (option_copied result.1) }
    ensures shorter { IfSome result.1 (λ rest. length rest.now < length bytes.now) }
{
    match comma_in(bytes) {
        Some(place) => (&bytes[..place], Some(&bytes[place + 1..])),
        None => (bytes, None),
    }
}

/// The bytes of a text, if it isn't empty.
fn bytes_of(text: &str) -> Option<&[u8]>
    ensures { text_pieces text.now ≡ pieces_left (option_copied result) }
{
    if text.is_empty() {
        None
    } else {
        Some(text.as_bytes())
    }
}

impl RouteScript {
    /// Reads the words of a script: `b` for building, `sN` for the selection by conjunct N, `aN`
    /// for the probe of all entries of alias N and `vN` for a probe by conjunct N, with a comma
    /// between each two. N has no leading zero and is below 48, behind `a` below 12. The empty text
    /// has no words.
    ///
    /// # Errors
    /// `BadWord`: one of the leading 64 words isn't of this form; the first one begins at that byte.
    /// `TooLong`: these are in form, and there are more.
    pub fn read(text: &str) -> Result<RouteScript, ScriptFault>
        ensures { result ≡ script_of text.now }
    {
        let mut words = ArrayVec::new();
        let mut at = 0;
        let mut rest = bytes_of(text);
        while let Some(bytes) = rest {
            if words.is_full() {
                return Err(ScriptFault::TooLong);
            }
            let (piece, more) = cut(bytes);
            let Some(word) = read_word(piece) else {
                return Err(ScriptFault::BadWord { at });
            };
            words.push(word);
            at += piece.len() as u32 + 1;
            rest = more;
        }
        Ok(RouteScript { words, asked: 0 })
    }
}

/// The law that a text is read as a script exactly where it is the text of at most 64 words, and
/// then as these words. It does nothing.
pub fn script_law()
    ensures { ScriptLaw }
{}

/// The place of the first route that a word matches.
fn first_match(word: RouteWord, legal: &[Route]) -> Option<usize>
    ensures { result ≡ position (is_wanted word) legal.now }
{
    legal.iter().position(|route| word.is_wanted(route))
}

/// The place of the route that the words decide for.
fn follow(words: &[RouteWord], legal: &[Route]) -> usize
    requires { AreChoices legal.now }
    ensures value { result ≡ script_choice words.now legal.now }
    ensures within { result < length legal.now }
{
    for word in words {
        if let Some(place) = first_match(*word, legal) {
            return place;
        }
    }
    first_candidate(legal)
}

impl Policy for RouteScript {
    ghost asked = { λ s. s.asked };

    ghost calls = { λ _. None };

    ghost may_choose = { λ s _ legal choice now. (choice ≡ script_choice s.words legal)
        × (now ≡ after_script_choice s) };

    ghost may_become = { λ s _ _ now. now ≡ s };

    ghost may_see = { λ s _ now. now ≡ s };

    ghost by_survey = { λ _. false };

    fn choose(&mut self, _tuple: &Tuple, legal: &[Route]) -> usize {
        self.asked = self.asked.saturating_add(1);
        follow(self.words.as_slice(), legal)
    }

    fn returned(&mut self, _route: Route, _count: u64) {}

    fn touched(&mut self, _alias: u8) {}

    fn claims_by_survey(&self) -> bool {
        false
    }

    fn asked(&self) -> u64 {
        self.asked
    }
}
