//! Whether a column equals one of many literals, as IN asks, by literals that are kept in order.
ghost use Rattle.std.specs.Prelude.{◌≡◌, ◌||◌, Option, Some, IsTrue, IfOk, OnOk, IfSome};
ghost use Rattle.std.specs.Option.{option_map};
ghost use Rattle.sq_value.specs.Rank.{Rank, Number, Text, rank_of};
ghost use Rattle.sq_value.specs.Key.{rank_of_key};
ghost use Rattle.sq_value.specs.Truth.{disjoined};
ghost use Rattle.sq_value.specs.declared.value.Value.{Value as Datum};
ghost use Rattle.sq_value.specs.declared.value.Truth.TheVariants as degree;
ghost use Rattle.sq_expr.specs.declared.cond.ColumnOf.{ColumnOf as OfColumn};
ghost use Rattle.sq_expr.specs.declared.cond.Side.TheVariants as sides;
ghost use Rattle.sq_expr.specs.Meaning.{value_in, side_rank};
ghost use Rattle.sq_expr.specs.Reading.{IsInRange};
ghost use Rattle.sq_expr.specs.Membership.{IsEquality, HasColumn, AreLiterals, IsPreparedOf, IsDenied, IsMembership};
ghost use Rattle.sq_expr.specs.Membership as spec;

use crate::cond::{Chosen, ColumnOf, Cond, Side};
use crate::integer_test::{column_of, compared, only_integer};
use sq_value::{Cmp, Key, Memory, Truth, Value, key_of, millionths, not};
use std::alloc::Global;
use std::collections::BTreeSet;

/// The fewest literals that are worth a look-up.
const FEW: usize = 8;

/// Literals that a column is compared with: numbers in millionths, and texts.
#[derive(Drop)]
pub(crate) struct Literals {
    pub numbers: BTreeSet<i128>,
    pub texts: BTreeSet<String>,
    pub has_number: bool,
    pub has_text: bool,
    pub has_null: bool,
}

/// Whether a column equals one of many literals, or none of them where it is negated.
#[derive(Drop)]
pub(crate) struct Membership {
    pub column: ColumnOf,
    pub negated: bool,
    pub literals: Literals,
}

// True where it is found, else Unknown or False.
fn choice(found: bool, unknown: bool) -> Truth
    ensures { result ≡ spec.choice found unknown }
{
    if found {
        Truth::True
    } else if unknown {
        Truth::Unknown
    } else {
        Truth::False
    }
}

// Whether one of two facts holds.
fn either(one: bool, other: bool) -> bool
    ensures { result ≡ (one || other) }
{
    one || other
}

impl Literals {
    // None.
    fn new(alloc: Global) -> Literals
        ensures { (x : Option Rank) → spec.among result x ≡ degree.False }
    {
        Literals {
            numbers: BTreeSet::new(alloc),
            texts: BTreeSet::new(alloc),
            has_number: false,
            has_text: false,
            has_null: false,
        }
    }

    // Adds a number.
    fn add_number(&mut self, number: i128) -> Result<(), Memory>
        ensures { OnOk result ((x : Option Rank) → spec.among self.new x
            ≡ disjoined (spec.among self.old x) (spec.equals x (Some (Number number)))) }
    {
        self.numbers.insert(number)?;
        self.has_number = true;
        Ok(())
    }

    // Adds a text.
    fn add_text(&mut self, alloc: Global, text: &str) -> Result<(), Memory>
        ensures { OnOk result ((x : Option Rank) → spec.among self.new x
            ≡ disjoined (spec.among self.old x) (spec.equals x (Some (Text text.now)))) }
    {
        self.texts.insert(String::from_str(alloc, text)?)?;
        self.has_text = true;
        Ok(())
    }

    // Adds a null.
    fn add_null(&mut self)
        ensures { (x : Option Rank) → spec.among self.new x
            ≡ disjoined (spec.among self.old x) degree.Unknown }
    {
        self.has_null = true;
    }

    // Adds a literal by its key; None is a null.
    fn add(&mut self, alloc: Global, key: Option<Key<'_>>) -> Result<(), Memory>
        ensures { OnOk result ((x : Option Rank) → spec.among self.new x
            ≡ disjoined (spec.among self.old x) (spec.equals x (option_map rank_of_key key.entry))) }
    {
        match key {
            None => {
                self.add_null();
                Ok(())
            }
            Some(Key::Number(number)) => self.add_number(number),
            Some(Key::Text(text)) => self.add_text(alloc, text),
        }
    }

    // Whether a value equals one of them.
    fn truth(&self, value: &Value) -> Truth
        ensures { result ≡ spec.among self.now (rank_of value.now) }
    {
        match key_of(value) {
            None => {
                let any = either(either(self.has_number, self.has_text), self.has_null);
                choice(false, any)
            }
            Some(Key::Number(number)) => {
                let found = self.numbers.contains(&number);
                choice(found, either(self.has_text, self.has_null))
            }
            Some(Key::Text(text)) => {
                let found = self.texts.contains(text);
                choice(found, either(self.has_number, self.has_null))
            }
        }
    }
}

// What a literal is compared by, in a pair of one, which is None for a null. None where the side is no literal.
fn literal(side: &Side) -> Option<Option<Key<'_>>>
    ensures { IfSome result (λ k. (at : OfColumn → Datum)
        → side_rank at side.now ≡ option_map rank_of_key k) }
{
    match side {
        Side::Null => Some(None),
        Side::Text(text) => Some(Some(Key::Text(text.as_str()))),
        Side::Column(_) => None,
        Side::Sum(terms) => match only_integer(terms.as_slice()) {
            Some(number) => Some(Some(Key::Number(millionths(number, 0)))),
            None => None,
        },
    }
}

// Whether a side is the column.
fn is_column(side: &Side, column: ColumnOf) -> bool
    ensures { IsTrue result → side.now ≡ sides.Column column }
{
    match side {
        Side::Column(own) => *own == column,
        _ => false,
    }
}

// The key of a part, where it equates the column with a literal.
fn part_key(part: &Cond, column: ColumnOf) -> Option<Option<Key<'_>>>
    ensures { IfSome result (λ k. IsEquality column part.now (option_map rank_of_key k)) }
{
    let Some((left, cmp, right)) = compared(part) else {
        return None;
    };
    if cmp != Cmp::Eq || !is_column(left, column) {
        return None;
    }
    literal(right)
}

// The column that the first part compares.
fn first_column(parts: &[Cond]) -> Option<ColumnOf>
    ensures { IfSome result (λ c. HasColumn c parts.now) }
{
    let Some(part) = parts.first() else {
        return None;
    };
    let Some((left, _, _)) = compared(part) else {
        return None;
    };
    column_of(left)
}

// The literals of parts each of which equates the column with one.
fn literals_of(alloc: Global, column: ColumnOf, parts: &[Cond]) -> Result<Option<Literals>, Memory>
    ensures { IfOk result (λ o. IfSome o (AreLiterals column parts.now)) }
{
    let mut literals = Literals::new(alloc);
    for part in parts {
        let Some(key) = part_key(part, column) else {
            return Ok(None);
        };
        literals.add(alloc, key)?;
    }
    Ok(Some(literals))
}

// What is prepared of the parts of a disjunction.
fn prepared_of(alloc: Global, negated: bool, parts: &[Cond]) -> Result<Option<Membership>, Memory>
    ensures { IfOk result (λ o. IfSome o (IsPreparedOf negated parts.now)) }
{
    if parts.len() < FEW {
        return Ok(None);
    }
    let Some(column) = first_column(parts) else {
        return Ok(None);
    };
    let found = literals_of(alloc, column, parts)?;
    let Some(literals) = found else {
        return Ok(None);
    };
    Ok(Some(Membership {
        column,
        negated,
        literals,
    }))
}

// What is prepared of a condition that is denied.
fn denied(alloc: Global, part: &Cond) -> Result<Option<Membership>, Memory>
    ensures { IfOk result (λ o. IfSome o (IsDenied part.now)) }
{
    match part {
        Cond::Any(parts) => prepared_of(alloc, true, parts.as_slice()),
        _ => Ok(None),
    }
}

/// What is prepared of a condition, where it asks whether a column equals one of at least eight literals, or none of
/// them.
pub(crate) fn membership_of(alloc: Global, cond: &Cond) -> Result<Option<Membership>, Memory>
    ensures { IfOk result (λ o. IfSome o (IsMembership cond.now)) }
{
    match cond {
        Cond::Any(parts) => prepared_of(alloc, false, parts.as_slice()),
        Cond::Not(part) => denied(alloc, part.get()),
        _ => Ok(None),
    }
}

impl Membership {
    // Its truth over chosen rows, in which the column stands.
    pub(crate) fn truth(&self, rows: &Chosen<'_>) -> Truth
        requires { IsInRange rows.now.tables.now rows.now.uses rows.now.rows self.now.column }
        ensures { result ≡ spec.is_in self.now (value_in rows.now.tables.now rows.now.uses rows.now.rows) }
    {
        let found = self.literals.truth(rows.value(self.column));
        if self.negated { not(found) } else { found }
    }
}
