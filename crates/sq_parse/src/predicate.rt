//! Reads predicates.

ghost use Rattle.std.specs.Prelude.{◌≡◌};
ghost use Rattle.sq_parse.specs.Grammar.{shipped};
ghost use Rattle.sq_parse.specs.Reading.{Reads};
ghost use Rattle.sq_parse.specs.Reader as spec;
ghost use Rattle.sq_parse.specs.Tree as tree;

use crate::cursor::Cursor;
use crate::names::name;
use crate::operand::{operand, simple};
use crate::stop::Stop;
use crate::tree::{Operand, Tree};
use sq_token::{Mark, is_comparison, is_name, same};
use sq_value::Cmp;
use sqlite_items::{Boxed, Items as List};
use std::alloc::Global;

// Operands with commas between.
#[tactic(auto, unfolding(crate::specs::Reader::operands))]
fn operands(alloc: Global, tokens: &mut Cursor<'_>) -> Result<List<Operand>, Stop>
    ensures { Reads (spec.operands shipped tokens.old) result tokens.new }
{
    let mut found = List::new(alloc);
    found.push(operand(alloc, tokens)?)?;
    'more: while tokens.sees(Mark::Comma) {
        tokens.advance();
        found.push(operand(alloc, tokens)?)?;
    }
    Ok(found)
}

// Arguments with commas between.
#[tactic(auto, unfolding(crate::specs::Reader::simples))]
fn simples(alloc: Global, tokens: &mut Cursor<'_>) -> Result<List<Operand>, Stop>
    ensures { Reads (spec.simples shipped tokens.old) result tokens.new }
{
    let mut found = List::new(alloc);
    found.push(simple(alloc, tokens)?)?;
    'more: while tokens.sees(Mark::Comma) {
        tokens.advance();
        found.push(simple(alloc, tokens)?)?;
    }
    Ok(found)
}

#[tactic(auto, unfolding(crate::specs::Reader::call))]
fn call(alloc: Global, tokens: &mut Cursor<'_>) -> Result<Tree, Stop>
    ensures { Reads (spec.call shipped tokens.old) result tokens.new }
{
    let function = name(alloc, tokens)?;
    tokens.expect(Mark::Open)?;
    let args = simples(alloc, tokens)?;
    tokens.expect(Mark::Close)?;
    Ok(Tree::Call { function, args })
}

fn begin_of(operand: &Operand) -> u32
    ensures { result ≡ tree.begin_of operand.now }
{
    match operand {
        Operand::Null { at } => *at,
        Operand::Text { at, .. } => *at,
        Operand::Sum { at, .. } => *at,
    }
}

fn comparison_by(mark: Mark) -> Cmp
    ensures { result ≡ tree.comparison_by mark }
{
    match mark {
        Mark::NotEqual => Cmp::Ne,
        Mark::Less => Cmp::Lt,
        Mark::LessOrEqual => Cmp::Le,
        Mark::Greater => Cmp::Gt,
        Mark::GreaterOrEqual => Cmp::Ge,
        _ => Cmp::Eq,
    }
}

#[tactic(auto, unfolding(crate::specs::Reader::comparison))]
fn comparison(alloc: Global, tokens: &mut Cursor<'_>, left: Operand) -> Result<Tree, Stop>
    ensures { Reads (spec.comparison shipped left tokens.old) result tokens.new }
{
    let mark = tokens.peek();
    if !is_comparison(mark) {
        return Err(Stop::Syntax);
    }
    tokens.advance();
    let right = operand(alloc, tokens)?;
    Ok(Tree::Compare {
        at: begin_of(&left),
        left,
        cmp: comparison_by(mark),
        right,
    })
}

#[tactic(auto, unfolding(crate::specs::Reader::null_test))]
fn null_test(tokens: &mut Cursor<'_>, subject: Operand) -> Result<Tree, Stop>
    ensures { Reads (spec.null_test shipped subject tokens.old) result tokens.new }
{
    tokens.expect(Mark::Is)?;
    let negated = tokens.eat(Mark::Not);
    tokens.expect(Mark::Null)?;
    Ok(Tree::IsNull {
        at: begin_of(&subject),
        negated,
        subject,
    })
}

#[tactic(auto, unfolding(crate::specs::Reader::between))]
fn between(
    alloc: Global,
    tokens: &mut Cursor<'_>,
    subject: Operand,
    negated: bool,
) -> Result<Tree, Stop>
    ensures { Reads (spec.between shipped subject negated tokens.old) result tokens.new }
{
    tokens.expect(Mark::Between)?;
    let low = operand(alloc, tokens)?;
    tokens.expect(Mark::And)?;
    let high = operand(alloc, tokens)?;
    let high = Boxed::new(alloc, high)?;
    Ok(Tree::Between {
        at: begin_of(&subject),
        negated,
        subject,
        low,
        high,
    })
}

#[tactic(auto, unfolding(crate::specs::Reader::within))]
fn within(
    alloc: Global,
    tokens: &mut Cursor<'_>,
    subject: Operand,
    negated: bool,
) -> Result<Tree, Stop>
    ensures { Reads (spec.within shipped subject negated tokens.old) result tokens.new }
{
    tokens.expect(Mark::In)?;
    tokens.expect(Mark::Open)?;
    let items = operands(alloc, tokens)?;
    tokens.expect(Mark::Close)?;
    Ok(Tree::Within {
        at: begin_of(&subject),
        negated,
        subject,
        items,
    })
}

#[tactic(auto, unfolding(crate::specs::Reader::ranged))]
fn ranged(alloc: Global, tokens: &mut Cursor<'_>, subject: Operand) -> Result<Tree, Stop>
    ensures { Reads (spec.ranged shipped subject tokens.old) result tokens.new }
{
    let negated = tokens.eat(Mark::Not);
    if tokens.sees(Mark::Between) {
        between(alloc, tokens, subject, negated)
    } else {
        within(alloc, tokens, subject, negated)
    }
}

// What comes behind the subject of a predicate.
#[tactic(auto, unfolding(crate::specs::Reader::behind_subject))]
fn behind_subject(alloc: Global, tokens: &mut Cursor<'_>, subject: Operand) -> Result<Tree, Stop>
    ensures { Reads (spec.behind_subject shipped subject tokens.old) result tokens.new }
{
    if is_comparison(tokens.peek()) {
        comparison(alloc, tokens, subject)
    } else if tokens.sees(Mark::Is) {
        null_test(tokens, subject)
    } else {
        ranged(alloc, tokens, subject)
    }
}

/// A predicate: a call, or an operand and what it is compared with.
#[tactic(auto, unfolding(crate::specs::Reader::predicate))]
pub fn predicate(alloc: Global, tokens: &mut Cursor<'_>) -> Result<Tree, Stop>
    ensures { Reads (spec.predicate shipped tokens.old) result tokens.new }
{
    if is_name(tokens.peek()) && same(tokens.second(), Mark::Open) {
        return call(alloc, tokens);
    }
    let subject = operand(alloc, tokens)?;
    behind_subject(alloc, tokens, subject)
}
