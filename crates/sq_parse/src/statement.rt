//! Reads statements and scripts.

ghost use Rattle.std.specs.Prelude.{◌≡◌, Err};
ghost use Rattle.sq_parse.specs.Grammar.{shipped};
ghost use Rattle.sq_token.specs.Mark as marks;
ghost use Rattle.sq_parse.specs.Reading.{Reads, ReadsMore};
ghost use Rattle.sq_parse.specs.Reading as reading;
ghost use Rattle.sq_parse.specs.Reader as spec;

use crate::condition::condition;
use crate::cursor::Cursor;
use crate::select::{extent, groups, order, select_list, source};
use crate::stop::Stop;
use crate::tree::{Script, Source, Statement, Tree};
use sq_token::{Mark, same};
use sqlite_items::Items as List;
use std::alloc::Global;

/// How many parentheses and NOTs of a condition may be open at once.
const MAX_DEPTH: u8 = 64;
/// How many statements a script may have.
const MAX_STATEMENTS: u8 = 64;
/// The greatest number beside a `*`, which no LIMIT has; but a greater one there is told as too large.
const MAX_FACTOR: u64 = 2_147_483_647;
/// The greatest number of a LIMIT.
const MAX_LIMIT: u64 = 9_223_372_036_854_775_807;

// ON and its condition.
fn joined_by(alloc: Global, tokens: &mut Cursor<'_>) -> Result<Tree, Stop>
    ensures { Reads (reading.after Mark.On (spec.condition shipped 64) tokens.old) result tokens.new }
{
    tokens.expect(Mark::On)?;
    condition(alloc, tokens, MAX_DEPTH)
}

// A source that is joined on a condition.
#[tactic(auto, unfolding(crate::specs::Reader::joined))]
fn joined(alloc: Global, tokens: &mut Cursor<'_>) -> Result<Source, Stop>
    ensures { Reads (spec.joined shipped 64 tokens.old) result tokens.new }
{
    tokens.eat(Mark::Inner);
    tokens.expect(Mark::Join)?;
    let mut found = source(alloc, tokens)?;
    match joined_by(alloc, tokens) {
        Ok(on) => {
            found.on = Some(on);
            Ok(found)
        }
        Err(stop) => Err(stop),
    }
}

// A source behind the first, and how it is joined.
#[tactic(auto, unfolding(crate::specs::Reader::join), using(crate::proofs::Loops::after_is))]
fn join(alloc: Global, tokens: &mut Cursor<'_>) -> Result<Source, Stop>
    ensures { Reads (spec.join shipped 64 tokens.old) result tokens.new }
{
    if tokens.eat(Mark::Comma) {
        return source(alloc, tokens);
    }
    if !tokens.eat(Mark::Cross) {
        return joined(alloc, tokens);
    }
    tokens.expect(Mark::Join)?;
    let found = source(alloc, tokens)?;
    Ok(found)
}

fn begins_join(mark: Mark) -> bool
    ensures { result ≡ spec.begins_join mark }
{
    same(mark, Mark::Comma)
        || same(mark, Mark::Cross)
        || same(mark, Mark::Inner)
        || same(mark, Mark::Join)
}

// The sources behind those that were found.
fn more_joins(
    alloc: Global,
    tokens: &mut Cursor<'_>,
    mut found: List<Source>,
) -> Result<List<Source>, Stop>
    ensures { ReadsMore found (reading.many spec.begins_join (spec.join shipped 64) tokens.old) result tokens.new }
{
    'more: while begins_join(tokens.peek()) {
        found.push(join(alloc, tokens)?)?;
    }
    Ok(found)
}

// All sources of a FROM.
#[tactic(auto, unfolding(crate::specs::Reader::sources))]
fn sources(alloc: Global, tokens: &mut Cursor<'_>) -> Result<List<Source>, Stop>
    ensures { Reads (spec.sources shipped 64 tokens.old) result tokens.new }
{
    let mut found = List::new(alloc);
    found.push(source(alloc, tokens)?)?;
    let found = more_joins(alloc, tokens, found)?;
    Ok(found)
}

// WHERE and its condition, if it is written.
#[tactic(auto, unfolding(crate::specs::Reader::where_condition))]
fn where_condition(alloc: Global, tokens: &mut Cursor<'_>) -> Result<Option<Tree>, Stop>
    ensures { Reads (spec.where_condition shipped 64 tokens.old) result tokens.new }
{
    if !tokens.eat(Mark::Where) {
        return Ok(None);
    }
    let found = condition(alloc, tokens, MAX_DEPTH)?;
    Ok(Some(found))
}

// The number behind LIMIT.
#[tactic(auto, unfolding(crate::specs::Reader::count, crate::specs::Reader::plain_number))]
fn count(tokens: &mut Cursor<'_>) -> Result<u64, Stop>
    ensures { Reads (spec.count shipped tokens.old) result tokens.new }
{
    if !tokens.sees(Mark::Number) {
        return Err(Stop::Syntax);
    }
    let bound = if same(tokens.second(), Mark::Star) {
        MAX_FACTOR
    } else {
        MAX_LIMIT
    };
    let count = tokens.number();
    if count > bound {
        return Err(Stop::NumberTooLarge);
    }
    tokens.advance();
    Ok(count)
}

// LIMIT and its number, if it is written.
#[tactic(auto, unfolding(crate::specs::Reader::limit))]
fn limit(tokens: &mut Cursor<'_>) -> Result<Option<u64>, Stop>
    ensures { Reads (spec.limit shipped tokens.old) result tokens.new }
{
    if !tokens.eat(Mark::Limit) {
        return Ok(None);
    }
    let found = count(tokens)?;
    Ok(Some(found))
}

// A SELECT statement.
#[tactic(auto, unfolding(crate::specs::Reader::statement, crate::specs::Reader::sources))]
fn statement(alloc: Global, tokens: &mut Cursor<'_>) -> Result<Statement, Stop>
    ensures { Reads (spec.statement shipped 64 tokens.old) result tokens.new }
{
    tokens.expect(Mark::Select)?;
    let distinct = extent(tokens);
    let items = select_list(alloc, tokens)?;
    tokens.expect(Mark::From)?;
    let sources = sources(alloc, tokens)?;
    let condition = where_condition(alloc, tokens)?;
    let groups = groups(alloc, tokens)?;
    let order = order(alloc, tokens)?;
    let limit = limit(tokens)?;
    Ok(Statement {
        distinct,
        items,
        sources,
        condition,
        groups,
        order,
        limit,
    })
}

// Why no further statement is read.
fn no_more(tokens: &Cursor<'_>) -> Stop
    ensures { spec.no_more shipped tokens.now ≡ Err (result, tokens.now) }
{
    if tokens.sees(Mark::Select) {
        Stop::TooManyStatements
    } else {
        Stop::Syntax
    }
}

// The statements behind those that were found; a semicolon may end a script.
fn more_statements(
    alloc: Global,
    tokens: &mut Cursor<'_>,
    mut found: List<Statement>,
) -> Result<List<Statement>, Stop>
    ensures { ReadsMore found (spec.statements shipped 64 63 tokens.old) result tokens.new }
{
    let mut left = MAX_STATEMENTS - 1;
    'more: while tokens.sees(Mark::Semicolon) {
        tokens.advance();
        if tokens.is_done() {
            return Ok(found);
        }
        if left == 0 {
            return Err(no_more(tokens));
        }
        found.push(statement(alloc, tokens)?)?;
        left -= 1;
    }
    Ok(found)
}

/// A whole script: 1 to 64 statements, and nothing behind them.
#[tactic(auto, unfolding(crate::specs::Reader::script))]
pub fn script(alloc: Global, tokens: &mut Cursor<'_>) -> Result<Script, Stop>
    ensures { Reads (spec.script shipped 64 63 tokens.old) result tokens.new }
{
    let mut found = List::new(alloc);
    found.push(statement(alloc, tokens)?)?;
    let statements = more_statements(alloc, tokens, found)?;
    if tokens.is_done() {
        Ok(Script { statements })
    } else {
        Err(Stop::Syntax)
    }
}
