//! The parser.

ghost use Rattle.std.specs.Prelude.{◌≡◌, ◌≢◌, ◌⊎◌, ◌<◌, length, IfOk, IfErr, MatchResult, Ok, Err};
ghost use Rattle.std.specs.Str.{IsUtf8};
ghost use Rattle.std.specs.Str.Lossy.{utf8_valid_len};
ghost use Rattle.sq_parse.specs.Parse as spec;
ghost use Rattle.sq_parse.specs.Spelling.{Spelled, OneTree};
ghost use Rattle.sq_parse.specs.Fault.{IsFault, OneReading};
ghost use Rattle.sq_parse.specs.declared.tree.Script.{Script};

use crate::cursor::Cursor;
use crate::statement::script;
use crate::stop::Stop;
use crate::tree::Script;
use std::alloc::Global;
use std::str;

/// Why a text is no script. `at` is a byte of the text, or its length.
#[derive(Clone, Copy, Debug, PartialEq, Eq)]
pub enum ParseFault {
    /// The text isn't UTF-8; this is the first byte that belongs to no character.
    NotUtf8 { at: u32 },
    /// No script goes on with this token, or the text ends too early.
    Syntax { at: u32 },
    /// A number above 9,223,372,036,854,775,807, or above 2,147,483,647 beside a `*`.
    NumberTooLarge { at: u32 },
    /// A parenthesis or NOT of a condition, where 64 others are open.
    TooDeep { at: u32 },
    /// The first token of the 65th statement.
    TooManyStatements { at: u32 },
    /// There is no memory for the tree.
    Memory,
}

fn fault_at(stop: Stop, at: u32) -> ParseFault
    ensures { result ≡ spec.fault_at stop at }
{
    match stop {
        Stop::Memory => ParseFault::Memory,
        Stop::Syntax => ParseFault::Syntax { at },
        Stop::NumberTooLarge => ParseFault::NumberTooLarge { at },
        Stop::TooDeep => ParseFault::TooDeep { at },
        Stop::TooManyStatements => ParseFault::TooManyStatements { at },
    }
}

fn place_in(end: usize, tokens: &Cursor<'_>) -> u32
    requires { end < 4294967296 }
    ensures { result ≡ spec.place_in end tokens.now }
{
    if tokens.is_done() {
        end as u32
    } else {
        tokens.at()
    }
}

#[tactic(auto, unfolding(crate::specs::Parse::parsed))]
fn parse_text(alloc: Global, text: &str) -> Result<Script, ParseFault>
    requires { length text.now < 4294967295 }
    ensures { spec.Answers text.now result }
{
    let mut tokens = Cursor::new(text);
    match script(alloc, &mut tokens) {
        Ok(script) => Ok(script),
        Err(stop) => Err(fault_at(stop, place_in(text.len(), &tokens))),
    }
}

/// The script that a text of fewer than 4,294,967,295 bytes spells.
///
/// The time is linear in the text, and nothing but the tree is kept. A name takes some 100 bytes
/// beside its own, in three pieces, so 64 MiB of columns of one letter take about 4.5 GB.
///
/// # Errors
/// `NotUtf8`: exactly where the text isn't UTF-8, at the end of its longest prefix that is. Otherwise
/// the fault with the least place, and at one place the first of [`ParseFault`]'s variants; or
/// `Memory`.
///
/// - `Syntax` is at the first token such that no script begins with the tokens up to and with it, or
///   at the length of a text that begins a script and is none; a script is meant without the limits
///   of the other three.
/// - `NumberTooLarge` is at a number above 9,223,372,036,854,775,807, or above 2,147,483,647 directly
///   before or behind a `*`, whether or not that multiplies.
/// - `TooDeep` is at the parenthesis or NOT of a condition that would be the 65th open one; a NOT is
///   open up to the end of what it denies, and parentheses of IN and of calls don't count.
/// - `TooManyStatements` is at the first token of the 65th statement.
pub fn parse(alloc: Global, text: &[u8]) -> Result<Script, ParseFault>
    requires { length text.now < 4294967295 }
    ensures utf8 { IfOk result (λ s. IsUtf8 text.now) }
    ensures spelled { IfOk result (λ s. Spelled text.now s) }
    ensures every { (s : Script) → IsUtf8 text.now → Spelled text.now s
        → MatchResult result (λ found. found ≡ s) (λ f. f ≡ ParseFault.Memory) }
    ensures fault { IfErr result (λ f. f ≢ ParseFault.Memory → IsFault text.now f) }
    ensures every_fault { (f : ParseFault) → IsFault text.now f
        → MatchResult result (λ s. ⊥) (λ found. (found ≡ f) ⊎ (found ≡ ParseFault.Memory)) }
    ensures not_utf8 { (IsUtf8 text.now → ⊥) → result ≡ Err (ParseFault.NotUtf8 (utf8_valid_len text.now)) }
    ensures stops { IsUtf8 text.now → spec.Answers text.now result }
{
    match str::from_utf8(text) {
        Ok(text) => parse_text(alloc, text),
        Err(error) => Err(ParseFault::NotUtf8 {
            at: error.valid_up_to() as u32,
        }),
    }
}

/// The law that a list of tokens has at most one tree, within the limits or not. It does nothing.
pub fn one_tree()
    ensures { OneTree }
{}

/// The law that each text reads as one thing: as the script that it spells, or as its fault. It
/// does nothing.
pub fn one_reading()
    ensures { OneReading }
{}

/// The laws that what reading from left to right gives is what the grammar says. It does nothing.
///
/// Reading answers a tree exactly where the tokens spell it, `tree`, and of a text of UTF-8 a fault
/// exactly where that is the text's, `fault`.
pub fn as_read()
    ensures tree { spec.TreeIsRead }
    ensures fault { spec.FaultIsRead }
{}
