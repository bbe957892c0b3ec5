//! Reads conditions: predicates under AND, OR, NOT, IS and parentheses.

ghost use Rattle.std.specs.Prelude.{◌≡◌};
ghost use Rattle.sq_parse.specs.Grammar.{shipped};
ghost use Rattle.sq_parse.specs.Reading.{Reads, ReadsMore};
ghost use Rattle.sq_token.specs.Mark.{is};
ghost use Rattle.sq_parse.specs.Reading as reading;
ghost use Rattle.sq_parse.specs.Reader as spec;
ghost use Rattle.sq_parse.specs.Tree as tree;

use crate::cursor::Cursor;
use crate::predicate::predicate;
use crate::stop::Stop;
use crate::tree::Tree;
use sq_token::{Mark, same};
use sq_value::Truth;
use sqlite_items::{Boxed, Items as List};
use std::alloc::Global;

fn truth_by(mark: Mark) -> Truth
    ensures { result ≡ tree.truth_by mark }
{
    match mark {
        Mark::True => Truth::True,
        Mark::False => Truth::False,
        _ => Truth::Unknown,
    }
}

// TRUE, FALSE or UNKNOWN.
#[tactic(auto, unfolding(crate::specs::Reader::truth))]
fn truth(tokens: &mut Cursor<'_>) -> Result<Truth, Stop>
    ensures { Reads (spec.truth tokens.old) result tokens.new }
{
    let mark = tokens.peek();
    if same(mark, Mark::True) || same(mark, Mark::False) || same(mark, Mark::Unknown) {
        tokens.advance();
        Ok(truth_by(mark))
    } else {
        Err(Stop::Syntax)
    }
}

// NOT and what it stands before. `depth` more parentheses and NOTs may be open.
#[cycle(condition)]
fn denied(alloc: Global, tokens: &mut Cursor<'_>, depth: u8) -> Result<Tree, Stop>
    ensures { Reads (spec.denied shipped depth tokens.old) result tokens.new }
{
    if depth == 0 {
        return Err(Stop::TooDeep);
    }
    tokens.expect(Mark::Not)?;
    negation(alloc, tokens, depth - 1)
}

// A condition in parentheses.
#[cycle(condition)]
fn nested(alloc: Global, tokens: &mut Cursor<'_>, depth: u8) -> Result<Tree, Stop>
    ensures { Reads (spec.nested shipped depth tokens.old) result tokens.new }
{
    if depth == 0 {
        return Err(Stop::TooDeep);
    }
    tokens.expect(Mark::Open)?;
    let inner = condition(alloc, tokens, depth - 1)?;
    tokens.expect(Mark::Close)?;
    Ok(inner)
}

#[cycle(condition)]
#[tactic(auto, unfolding(crate::specs::Reader::primary_at, crate::specs::Reader::primary))]
fn primary(alloc: Global, tokens: &mut Cursor<'_>, depth: u8) -> Result<Tree, Stop>
    ensures { Reads (spec.primary_at shipped depth tokens.old) result tokens.new }
{
    if tokens.sees(Mark::Open) {
        nested(alloc, tokens, depth)
    } else {
        predicate(alloc, tokens)
    }
}

#[cycle(condition)]
#[tactic(auto, unfolding(crate::specs::Reader::test_at, crate::specs::Reader::truth_test, crate::specs::Reader::primary_at, crate::specs::Reader::truth))]
fn test(alloc: Global, tokens: &mut Cursor<'_>, depth: u8) -> Result<Tree, Stop>
    ensures { Reads (spec.test_at shipped depth tokens.old) result tokens.new }
{
    let tree = primary(alloc, tokens, depth)?;
    if !tokens.eat(Mark::Is) {
        return Ok(tree);
    }
    let negated = tokens.eat(Mark::Not);
    let truth = truth(tokens)?;
    let tree = Boxed::new(alloc, tree)?;
    Ok(Tree::Is {
        tree,
        negated,
        truth,
    })
}

// A part of a conjunction: a test, or NOT and such a part.
#[cycle(condition)]
fn negation(alloc: Global, tokens: &mut Cursor<'_>, depth: u8) -> Result<Tree, Stop>
    ensures { Reads (spec.neg shipped depth tokens.old) result tokens.new }
{
    if !tokens.sees(Mark::Not) {
        return test(alloc, tokens, depth);
    }
    let tree = denied(alloc, tokens, depth)?;
    let tree = Boxed::new(alloc, tree)?;
    Ok(Tree::Not(tree))
}

// The parts behind the first one of a conjunction, put behind it.
#[cycle(condition)]
fn more_negations(
    alloc: Global,
    tokens: &mut Cursor<'_>,
    depth: u8,
    mut found: List<Tree>,
) -> Result<List<Tree>, Stop>
    ensures { ReadsMore found
        (reading.many (is Mark.And) (reading.after Mark.And (spec.neg shipped depth)) tokens.old) result tokens.new }
{
    'more: while tokens.sees(Mark::And) {
        tokens.advance();
        found.push(negation(alloc, tokens, depth)?)?;
    }
    Ok(found)
}

#[cycle(condition)]
fn conjunction(alloc: Global, tokens: &mut Cursor<'_>, depth: u8) -> Result<Tree, Stop>
    ensures { Reads (spec.conjunction_at shipped depth tokens.old) result tokens.new }
{
    let first = negation(alloc, tokens, depth)?;
    if !tokens.sees(Mark::And) {
        return Ok(first);
    }
    let mut parts = List::new(alloc);
    parts.push(first)?;
    let parts = more_negations(alloc, tokens, depth, parts)?;
    Ok(Tree::All(parts))
}

// The parts behind the first one of a disjunction, put behind it.
#[cycle(condition)]
fn more_conjunctions(
    alloc: Global,
    tokens: &mut Cursor<'_>,
    depth: u8,
    mut found: List<Tree>,
) -> Result<List<Tree>, Stop>
    ensures { ReadsMore found
        (reading.many (is Mark.Or) (reading.after Mark.Or (spec.conjunction_at shipped depth)) tokens.old)
        result tokens.new }
{
    'more: while tokens.sees(Mark::Or) {
        tokens.advance();
        found.push(conjunction(alloc, tokens, depth)?)?;
    }
    Ok(found)
}

/// A condition in which at most `depth` parentheses and NOTs are open at once.
#[cycle(condition)]
pub fn condition(alloc: Global, tokens: &mut Cursor<'_>, depth: u8) -> Result<Tree, Stop>
    ensures { Reads (spec.condition shipped depth tokens.old) result tokens.new }
{
    let first = conjunction(alloc, tokens, depth)?;
    if !tokens.sees(Mark::Or) {
        return Ok(first);
    }
    let mut parts = List::new(alloc);
    parts.push(first)?;
    let parts = more_conjunctions(alloc, tokens, depth, parts)?;
    Ok(Tree::Any(parts))
}
