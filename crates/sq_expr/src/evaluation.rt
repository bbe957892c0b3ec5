//! The truth of a condition, level by level.
ghost use Rattle.std.specs.Prelude.{◌≡◌, All, map, IsSomeAnd};
ghost use Rattle.sq_value.specs.Comparison as spec;
ghost use Rattle.sq_value.specs.Truth.{is_truth};
ghost use Rattle.sq_expr.specs.Meaning.{truth_of, value_in, arg_value, least, greatest};
ghost use Rattle.sq_expr.specs.Fits.{FitsCond, FitsArg, Covers};
ghost use Rattle.sq_expr.specs.Reading.{IsSeen, IsReadyOver};

use crate::cond::{Arg, Chosen, Cond};
use crate::operand::{argument, compare_sides, is_null};
use sq_value::{Predicates, Truth, and, not, or, two_valued};

// IS: whether a truth is the named one.
fn asked(x: Truth, named: Truth) -> Truth
    ensures { result ≡ spec.two_valued (is_truth x named) }
{
    two_valued(x == named)
}

// What a predicate gives of two arguments over the chosen rows.
fn call<F: Predicates>(number: u8, x: &Arg, y: &Arg, rows: &Chosen<'_>, functions: &F) -> Truth
    requires { IsSomeAnd (F.kinds_of functions.now number)
        (λ k. FitsArg (IsSeen rows.now.tables.now rows.now.uses rows.now.rows) k.first x.now
        × FitsArg (IsSeen rows.now.tables.now rows.now.uses rows.now.rows) k.second y.now) }
    ensures { let at = value_in rows.now.tables.now rows.now.uses rows.now.rows in
        result ≡ F.gives number (arg_value at x.now) (arg_value at y.now) }
{
    functions.call(number, argument(x, rows), argument(y, rows))
}

// The least truth of the parts of a conjunction. Behind a part that is False none matters.
#[cycle(evaluation)]
fn least<F: Predicates>(parts: &[Cond], rows: &Chosen<'_>, functions: &F) -> Truth
    requires { All (IsReadyOver (F.kinds_of functions.now) rows.now.tables.now rows.now.uses rows.now.rows) parts.now }
    ensures { let at = value_in rows.now.tables.now rows.now.uses rows.now.rows in
        result ≡ least (map (truth_of F.gives at) parts.now) }
{
    let mut least = Truth::True;
    for part in parts {
        least = and(least, evaluate(part, rows, functions));
        if least == Truth::False {
            return Truth::False;
        }
    }
    least
}

// The greatest truth of the parts of a disjunction. Behind a part that is True none matters.
#[cycle(evaluation)]
fn greatest<F: Predicates>(parts: &[Cond], rows: &Chosen<'_>, functions: &F) -> Truth
    requires { All (IsReadyOver (F.kinds_of functions.now) rows.now.tables.now rows.now.uses rows.now.rows) parts.now }
    ensures { let at = value_in rows.now.tables.now rows.now.uses rows.now.rows in
        result ≡ greatest (map (truth_of F.gives at) parts.now) }
{
    let mut greatest = Truth::False;
    for part in parts {
        greatest = or(greatest, evaluate(part, rows, functions));
        if greatest == Truth::True {
            return Truth::True;
        }
    }
    greatest
}

// The truth of a condition whose columns stand in the chosen rows.
#[cycle(evaluation)]
fn evaluate<F: Predicates>(cond: &Cond, rows: &Chosen<'_>, functions: &F) -> Truth
    requires { IsReadyOver (F.kinds_of functions.now) rows.now.tables.now rows.now.uses rows.now.rows cond.now }
    ensures { result ≡ truth_of F.gives (value_in rows.now.tables.now rows.now.uses rows.now.rows) cond.now }
{
    match cond {
        Cond::Compare(left, cmp, right) => compare_sides(left, *cmp, right, rows),
        Cond::IsNull(side) => two_valued(is_null(side, rows)),
        Cond::Call(number, x, y) => call(*number, x, y, rows, functions),
        Cond::Not(part) => not(evaluate(part.get(), rows, functions)),
        Cond::All(parts) => least(parts.as_slice(), rows, functions),
        Cond::Any(parts) => greatest(parts.as_slice(), rows, functions),
        Cond::Is(part, named) => asked(evaluate(part.get(), rows, functions), *named),
    }
}

impl Cond {
    /// The truth of the condition over one row of each alias, by SQL-92's tables of three truth
    /// values. The condition fits the predicates and the tables that the aliases use; each alias
    /// that occurs in it stands in `rows.span` and has a row. It takes no memory.
    pub fn truth<F: Predicates>(&self, rows: &Chosen<'_>, functions: &F) -> Truth
        requires fits { FitsCond (F.kinds_of functions.now) rows.now.tables.now rows.now.uses self.now }
        requires covered { Covers rows.now.tables.now rows.now.uses rows.now.rows rows.now.span self.now }
        ensures { result ≡ truth_of F.gives (value_in rows.now.tables.now rows.now.uses rows.now.rows) self.now }
    {
        evaluate(self, rows, functions)
    }
}
