//! Conditions written in words, over the table of the tests.
//!
//! An operator stands before its parts: `not eq cid 1` is NOT cid = 1. A sum is one word, as
//! `8*amt+-1*amt`. Columns in small letters are of alias 0, and columns in capitals of alias 1.
//! `eq'` and `lt'` compare texts. What is read fits the tables.
ghost use Rattle.std.specs.Prelude.{◌≡◌, ◌<◌, length, All, IfOk, IfSome};
ghost use Rattle.sq_value.specs.declared.value.ColType.TheVariants as kinds;
ghost use Rattle.sq_expr.specs.Fits.{Numbers, FitsSide, FitsArg, FitsTerm, class_of};
ghost use Rattle.worked_cases.specs.SampleConditions.{IsSample, IsSampleColumn, class_named};
ghost use Rattle.sq_expr.specs.declared.cond.Term.{Term};

use sq_expr::{Arg, ColumnOf, Cond, Side, Term};
use sq_value::{Cmp, ColType, SqText, Tables, Truth, Value, read_int};
use sqlite_items::{Boxed, Items};
use std::alloc::Global;
use std::mem;
use std::test::Fail;

/// The alias and the number of the column that a word names.
fn column_place(word: &str) -> Option<(u8, usize)>
    ensures { IfSome result (λ p. p.0 < 2) }
{
    match word {
        "cid" => Some((0, 0)),
        "amt" => Some((0, 1)),
        "name" => Some((0, 2)),
        "cost" => Some((0, 3)),
        "rate" => Some((0, 4)),
        "top" => Some((0, 5)),
        "CID" => Some((1, 0)),
        "AMT" => Some((1, 1)),
        "NAME" => Some((1, 2)),
        "COST" => Some((1, 3)),
        "RATE" => Some((1, 4)),
        "TOP" => Some((1, 5)),
        _ => None,
    }
}

/// The column that a word names, and its type.
fn column(tables: &Tables, word: &str) -> Option<(ColumnOf, ColType)>
    requires { 0 < length tables.now }
    ensures { IfSome result (λ p. IsSampleColumn tables.now p.0 p.1) }
{
    let (alias, place) = column_place(word)?;
    let kind = tables.get(0).columns().get(place)?.kind;
    let column = place as u32;
    Some((ColumnOf { alias, column }, kind))
}

/// Whether a type is that of texts.
fn is_text(kind: ColType) -> bool
    ensures { class_named result ≡ class_of kind }
{
    match kind {
        ColType::Text => true,
        ColType::Integer | ColType::Decimal(_) => false,
    }
}

/// A term of a sum: an integer, or an integer times a column.
fn term(tables: &Tables, word: &str) -> Option<Term>
    requires { 0 < length tables.now }
    ensures { IfSome result (λ (t : Term). FitsTerm (IsSampleColumn tables.now) t.factor t.column) }
{
    let Some((factor, name)) = word.split_once('*') else {
        let factor = read_int(word).ok()?;
        let column = None;
        return (factor > i64::MIN).then_some(Term { factor, column });
    };
    let factor = read_int(factor).ok()?;
    let (column, kind) = column(tables, name)?;
    if is_text(kind) || factor < -2147483647 || factor > 2147483647 {
        return None;
    }
    let column = Some(column);
    Some(Term { factor, column })
}

/// The terms of a sum.
fn terms(alloc: Global, tables: &Tables, word: &str) -> Result<Vec<Term>, Fail>
    requires { 0 < length tables.now }
    ensures { IfOk result (λ v. All (λ (t : Term). FitsTerm (IsSampleColumn tables.now) t.factor t.column) v.items) }
{
    let mut terms = Vec::new(alloc);
    for part in word.split('+') {
        terms.push(term(tables, part).ok_or("a term")?)?;
    }
    Ok(terms)
}

/// The sum that a word writes.
fn sum(alloc: Global, tables: &Tables, word: &str) -> Result<Side, Fail>
    requires { 0 < length tables.now }
    ensures { IfOk result (λ s. FitsSide (IsSampleColumn tables.now) Numbers s) }
{
    let terms = terms(alloc, tables, word)?;
    if terms.len() == 0 || terms.len() > 8 {
        return Err("1 to 8 terms".into());
    }
    Ok(Side::Sum(Items::from_vec(terms)))
}

/// The side that a word writes, of texts or of numbers.
pub fn operand(alloc: Global, tables: &Tables, word: &str, texts: bool) -> Result<Side, Fail>
    requires { 0 < length tables.now }
    ensures { IfOk result (λ s. FitsSide (IsSampleColumn tables.now) (class_named texts) s) }
{
    if word == "null" {
        return Ok(Side::Null);
    }
    if let Some((column, kind)) = column(tables, word) {
        if is_text(kind) == texts {
            return Ok(Side::Column(column));
        }
    }
    if texts {
        Ok(Side::Text(SqText::of(alloc, word)?))
    } else {
        sum(alloc, tables, word)
    }
}

/// The comparison that a word writes, and whether its sides are texts.
fn comparison(word: &str) -> Option<(Cmp, bool)> {
    match word {
        "eq" => Some((Cmp::Eq, false)),
        "ne" => Some((Cmp::Ne, false)),
        "lt" => Some((Cmp::Lt, false)),
        "le" => Some((Cmp::Le, false)),
        "gt" => Some((Cmp::Gt, false)),
        "ge" => Some((Cmp::Ge, false)),
        "eq'" => Some((Cmp::Eq, true)),
        "lt'" => Some((Cmp::Lt, true)),
        _ => None,
    }
}

fn comparing(
    alloc: Global,
    tables: &Tables,
    how: (Cmp, bool),
    words: &mut Words<'_>,
) -> Result<Cond, Fail>
    requires { 0 < length tables.now }
    ensures { IfOk result (IsSample tables.now) }
{
    let (cmp, texts) = how;
    let left = operand(alloc, tables, words.next(), texts)?;
    let right = operand(alloc, tables, words.next(), texts)?;
    Ok(Cond::Compare(left, cmp, right))
}

fn tested(alloc: Global, tables: &Tables, word: &str) -> Result<Cond, Fail>
    requires { 0 < length tables.now }
    ensures { IfOk result (IsSample tables.now) }
{
    let side = operand(alloc, tables, word, false)?;
    Ok(Cond::IsNull(side))
}

fn argument(tables: &Tables, word: &str) -> Result<Arg, Fail>
    requires { 0 < length tables.now }
    ensures { IfOk result (λ a. FitsArg (IsSampleColumn tables.now) kinds.Integer a) }
{
    if word == "null" {
        return Ok(Arg::Literal(Value::Null));
    }
    match column(tables, word) {
        Some((column, ColType::Integer)) => Ok(Arg::Column(column)),
        _ => Ok(Arg::Literal(Value::Int(read_int(word).ok().ok_or("an argument")?))),
    }
}

fn called(tables: &Tables, words: &mut Words<'_>) -> Result<Cond, Fail>
    requires { 0 < length tables.now }
    ensures { IfOk result (IsSample tables.now) }
{
    let first = argument(tables, words.next())?;
    let second = argument(tables, words.next())?;
    Ok(Cond::Call(0, first, second))
}

fn negation(alloc: Global, _tables: &Tables, part: Cond) -> Result<Cond, Fail>
    requires { IsSample _tables.now part }
    ensures { IfOk result (IsSample _tables.now) }
{
    Ok(Cond::Not(Boxed::new(alloc, part)?))
}

fn question(alloc: Global, _tables: &Tables, part: Cond, named: Truth) -> Result<Cond, Fail>
    requires { IsSample _tables.now part }
    ensures { IfOk result (IsSample _tables.now) }
{
    Ok(Cond::Is(Boxed::new(alloc, part)?, named))
}

fn conjunction(alloc: Global, _tables: &Tables, left: Cond, right: Cond) -> Result<Cond, Fail>
    requires left { IsSample _tables.now left }
    requires right { IsSample _tables.now right }
    ensures { IfOk result (IsSample _tables.now) }
{
    Ok(Cond::All(Items::from_vec(vec![in alloc; left, right]?)))
}

fn disjunction(alloc: Global, _tables: &Tables, left: Cond, right: Cond) -> Result<Cond, Fail>
    requires left { IsSample _tables.now left }
    requires right { IsSample _tables.now right }
    ensures { IfOk result (IsSample _tables.now) }
{
    Ok(Cond::Any(Items::from_vec(vec![in alloc; left, right]?)))
}

fn all_of_none(alloc: Global, _tables: &Tables) -> Cond
    ensures { IsSample _tables.now result }
{
    Cond::All(Items::new(alloc))
}

fn any_of_none(alloc: Global, _tables: &Tables) -> Cond
    ensures { IsSample _tables.now result }
{
    Cond::Any(Items::new(alloc))
}

/// A condition without parts, whose first word is this.
fn simple(alloc: Global, tables: &Tables, word: &str, words: &mut Words<'_>) -> Result<Cond, Fail>
    requires { 0 < length tables.now }
    ensures { IfOk result (IsSample tables.now) }
{
    if let Some(how) = comparison(word) {
        return comparing(alloc, tables, how, words);
    }
    match word {
        "isnull" => tested(alloc, tables, words.next()),
        "below" => called(tables, words),
        "and0" => Ok(all_of_none(alloc, tables)),
        "or0" => Ok(any_of_none(alloc, tables)),
        _ => Err("a condition".into()),
    }
}

/// The truth that a word asks for.
fn truth_named(word: &str) -> Option<Truth> {
    match word {
        "istrue" => Some(Truth::True),
        "isfalse" => Some(Truth::False),
        "isunknown" => Some(Truth::Unknown),
        _ => None,
    }
}

/// The words that aren't read yet.
#[derive(Drop)]
pub struct Words<'t> {
    /// The text behind the words that were read.
    pub rest: &'t str,
}

impl<'t> Words<'t> {
    fn next(&mut self) -> &'t str {
        match self.rest.split_once(' ') {
            Some((word, rest)) => {
                self.rest = rest;
                word
            }
            None => mem::replace(&mut self.rest, ""),
        }
    }
}

/// The condition that the next words write.
pub fn condition(
    alloc: Global,
    tables: &Tables,
    words: &mut Words<'_>,
    depth: u8,
) -> Result<Cond, Fail>
    requires { 0 < length tables.now }
    ensures { IfOk result (IsSample tables.now) }
{
    if depth == 0 {
        return Err("less depth".into());
    }
    let depth = depth - 1;
    let word = words.next();
    if word == "not" {
        return negation(alloc, tables, condition(alloc, tables, words, depth)?);
    }
    if let Some(named) = truth_named(word) {
        return question(
            alloc,
            tables,
            condition(alloc, tables, words, depth)?,
            named,
        );
    }
    if word != "and" && word != "or" {
        return simple(alloc, tables, word, words);
    }
    let left = condition(alloc, tables, words, depth)?;
    let right = condition(alloc, tables, words, depth)?;
    if word == "and" {
        conjunction(alloc, tables, left, right)
    } else {
        disjunction(alloc, tables, left, right)
    }
}
