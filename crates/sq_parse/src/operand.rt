//! Reads operands: nulls, texts and sums.

ghost use Rattle.std.specs.Prelude.{◌≡◌, Ok, IfOk, IfErr, [], ◌∷◌, ◌≤◌};
ghost use Rattle.sq_parse.specs.Grammar.{shipped};
ghost use Rattle.sq_parse.specs.Reading.{Reads, ReadsMore};
ghost use Rattle.sq_token.specs.Mark.{is_sign};
ghost use Rattle.sq_parse.specs.Reading as reading;
ghost use Rattle.sq_parse.specs.Reader as spec;
ghost use Rattle.sq_parse.specs.Tree as tree;
ghost use Rattle.sq_token.specs.Tok.{behind, next, head};

use crate::cursor::Cursor;
use crate::names::column;
use crate::stop::Stop;
use crate::tree::{ColRef, Operand, RawTerm};
use sq_token::{Mark, is_sign, same};
use sqlite_items::Items as List;
use std::alloc::Global;

/// The greatest number beside a `*`.
const NARROW: u64 = 2_147_483_647;
/// The greatest number.
const WIDE: u64 = 9_223_372_036_854_775_807;

// A number of at most this bound.
#[tactic(auto, unfolding(crate::specs::Reader::value_within))]
fn number(tokens: &mut Cursor<'_>, bound: u64) -> Result<i64, Stop>
    requires { bound ≤ 9223372036854775807 }
    ensures { Reads (spec.value_within bound tokens.old) result tokens.new }
{
    if !tokens.sees(Mark::Number) {
        return Err(Stop::Syntax);
    }
    let value = tokens.number();
    if value > bound {
        return Err(Stop::NumberTooLarge);
    }
    tokens.advance();
    Ok(value as i64)
}

// A term that begins with a number.
#[tactic(auto, unfolding(crate::specs::Reader::number_led, crate::specs::Reader::value_within))]
fn number_led(alloc: Global, tokens: &mut Cursor<'_>) -> Result<RawTerm, Stop>
    ensures { Reads (spec.number_led shipped tokens.old) result tokens.new }
{
    let at = tokens.at();
    if !same(tokens.second(), Mark::Star) {
        let number = Some(number(tokens, WIDE)?);
        return Ok(RawTerm {
            at,
            negative: false,
            number,
            column: None,
        });
    }
    let number = Some(number(tokens, NARROW)?);
    tokens.expect(Mark::Star)?;
    let column = Some(column(alloc, tokens)?);
    Ok(RawTerm {
        at,
        negative: false,
        number,
        column,
    })
}

/// The place of a column's first token.
pub fn column_place(column: &ColRef) -> u32
    ensures { result ≡ tree.column_place column.now }
{
    match &column.alias {
        Some(alias) => alias.at,
        None => column.column.at,
    }
}

// A term that begins with a column.
#[tactic(auto, unfolding(crate::specs::Reader::column_led, crate::specs::Reader::value_within))]
fn column_led(alloc: Global, tokens: &mut Cursor<'_>) -> Result<RawTerm, Stop>
    ensures { Reads (spec.column_led shipped tokens.old) result tokens.new }
{
    let column = column(alloc, tokens)?;
    let at = column_place(&column);
    let mut factor = None;
    if tokens.eat(Mark::Star) {
        factor = Some(number(tokens, NARROW)?);
    }
    Ok(RawTerm {
        at,
        negative: false,
        number: factor,
        column: Some(column),
    })
}

#[tactic(auto, unfolding(crate::specs::Reader::term))]
fn term(alloc: Global, tokens: &mut Cursor<'_>) -> Result<RawTerm, Stop>
    ensures { Reads (spec.term shipped tokens.old) result tokens.new }
{
    if tokens.sees(Mark::Number) {
        number_led(alloc, tokens)
    } else {
        column_led(alloc, tokens)
    }
}

#[tactic(auto, unfolding(crate::specs::Reader::signed_term))]
fn signed_term(alloc: Global, tokens: &mut Cursor<'_>) -> Result<RawTerm, Stop>
    ensures { Reads (spec.signed_term shipped tokens.old) result tokens.new }
{
    if !is_sign(tokens.peek()) {
        return Err(Stop::Syntax);
    }
    let negative = tokens.eat(Mark::Minus);
    if !negative {
        tokens.advance();
    }
    let plain = term(alloc, tokens)?;
    Ok(RawTerm { negative, ..plain })
}

// The terms behind those that were found, each with its sign.
fn more_terms(
    alloc: Global,
    tokens: &mut Cursor<'_>,
    mut found: List<RawTerm>,
) -> Result<List<RawTerm>, Stop>
    ensures { ReadsMore found (reading.many is_sign (spec.signed_term shipped) tokens.old) result tokens.new }
{
    'more: while is_sign(tokens.peek()) {
        found.push(signed_term(alloc, tokens)?)?;
    }
    Ok(found)
}

// One term, in room for one: most sums have no other, and a list that grows begins with room for four.
fn only(alloc: Global, term: RawTerm) -> Result<List<RawTerm>, Stop>
    ensures terms { IfOk result (λ terms. terms ≡ term ∷ []) }
    ensures memory { IfErr result (λ s. s ≡ Stop.Memory) }
{
    match Vec::from_array(alloc, [term]) {
        Ok(terms) => Ok(List::from_vec(terms)),
        Err(_) => Err(Stop::Memory),
    }
}

// A sum whose first term, with its sign, was read at a place.
#[tactic(auto, unfolding(crate::specs::Reader::sum_from))]
fn sum_from(
    alloc: Global,
    tokens: &mut Cursor<'_>,
    at: u32,
    first: RawTerm,
) -> Result<Operand, Stop>
    ensures { Reads (spec.sum_from shipped at first tokens.old) result tokens.new }
{
    let terms = more_terms(alloc, tokens, only(alloc, first)?)?;
    Ok(Operand::Sum { at, terms })
}

// A sum: terms with signs between, and before the first where one is written.
#[tactic(auto, unfolding(crate::specs::Reader::sum))]
fn sum(alloc: Global, tokens: &mut Cursor<'_>) -> Result<Operand, Stop>
    ensures { Reads (spec.sum shipped tokens.old) result tokens.new }
{
    if !is_sign(tokens.peek()) {
        let first = term(alloc, tokens)?;
        let at = first.at;
        return sum_from(alloc, tokens, at, first);
    }
    let at = tokens.at();
    let negative = tokens.sees(Mark::Minus);
    tokens.advance();
    let plain = term(alloc, tokens)?;
    sum_from(alloc, tokens, at, RawTerm { negative, ..plain })
}

// A null or a text.
#[tactic(auto, unfolding(crate::specs::Reader::literal))]
fn literal(alloc: Global, tokens: &mut Cursor<'_>) -> Result<Operand, Stop>
    ensures { Reads (spec.literal tokens.old) result tokens.new }
{
    let at = tokens.at();
    if tokens.eat(Mark::Null) {
        return Ok(Operand::Null { at });
    }
    if !tokens.sees(Mark::Text) {
        return Err(Stop::Syntax);
    }
    let text = tokens.content(alloc)?;
    tokens.advance();
    Ok(Operand::Text { at, text })
}

fn is_literal(mark: Mark) -> bool
    ensures { result ≡ spec.is_literal mark }
{
    same(mark, Mark::Null) || same(mark, Mark::Text)
}

/// An operand of a predicate: a null, a text or a sum.
#[tactic(auto, unfolding(crate::specs::Reader::operand))]
pub fn operand(alloc: Global, tokens: &mut Cursor<'_>) -> Result<Operand, Stop>
    ensures { Reads (spec.operand shipped tokens.old) result tokens.new }
{
    if is_literal(tokens.peek()) {
        literal(alloc, tokens)
    } else {
        sum(alloc, tokens)
    }
}

// A number with its sign.
#[tactic(auto, unfolding(crate::specs::Reader::simple_number, crate::specs::Reader::plain_number, crate::specs::Reader::value_within))]
fn simple_number(alloc: Global, tokens: &mut Cursor<'_>) -> Result<Operand, Stop>
    ensures { Reads (spec.simple_number shipped tokens.old) result tokens.new }
{
    let sum_at = tokens.at();
    let negative = tokens.sees(Mark::Minus);
    if is_sign(tokens.peek()) {
        tokens.advance();
    }
    let at = tokens.at();
    let is_starred = same(tokens.second(), Mark::Star);
    let number = Some(number(tokens, if is_starred { NARROW } else { WIDE })?);
    let terms = only(
        alloc,
        RawTerm {
            at,
            negative,
            number,
            column: None,
        },
    )?;
    Ok(Operand::Sum { at: sum_at, terms })
}

// A column alone.
#[tactic(auto, unfolding(crate::specs::Reader::simple_column))]
fn simple_column(alloc: Global, tokens: &mut Cursor<'_>) -> Result<Operand, Stop>
    ensures { Reads (spec.simple_column tokens.old) result tokens.new }
{
    let column = column(alloc, tokens)?;
    let at = column_place(&column);
    let terms = only(
        alloc,
        RawTerm {
            at,
            negative: false,
            number: None,
            column: Some(column),
        },
    )?;
    Ok(Operand::Sum { at, terms })
}

/// An argument of a call: a null, a text, a number or a column.
#[tactic(auto, unfolding(crate::specs::Reader::simple))]
pub fn simple(alloc: Global, tokens: &mut Cursor<'_>) -> Result<Operand, Stop>
    ensures { Reads (spec.simple shipped tokens.old) result tokens.new }
{
    let mark = tokens.peek();
    if is_literal(mark) {
        literal(alloc, tokens)
    } else if is_sign(mark) || same(mark, Mark::Number) {
        simple_number(alloc, tokens)
    } else {
        simple_column(alloc, tokens)
    }
}
