//! Bound conditions, and the rows that they are evaluated over.
ghost use Rattle.std.specs.Prelude.{◌≡◌, IfSome};
ghost use Rattle.sq_value.specs.Relation.{HasKind};
ghost use Rattle.sq_expr.specs.Meaning.{value_in};
ghost use Rattle.sq_expr.specs.Fits.{kind_in};
ghost use Rattle.sq_expr.specs.Reading.{IsInRange};
ghost use Rattle.sq_expr.specs.Plain as spec;

use sq_value::{Cmp, SqText, Tables, Truth, Value};
use sqlite_items::{Boxed, Items};

/// A column of an alias.
#[derive(Clone, Copy, Debug, PartialEq, Eq)]
pub struct ColumnOf {
    /// The number of the alias.
    pub alias: u8,
    /// The column's place in the alias's table, from 0.
    pub column: u32,
}

/// A term of a sum: an integer, or an integer factor times an INTEGER or DECIMAL column.
#[derive(Clone, Copy, Debug, PartialEq, Eq)]
pub struct Term {
    /// The integer.
    pub factor: i64,
    /// The column that it multiplies; None where the term is the integer alone.
    pub column: Option<ColumnOf>,
}

/// A side of a comparison.
#[derive(Debug, Drop)]
pub enum Side {
    Null,
    Text(SqText),
    Column(ColumnOf),
    Sum(Items<Term>),
}

/// An argument of a registered predicate.
#[derive(Debug, Drop)]
pub enum Arg {
    Literal(Value),
    Column(ColumnOf),
}

/// A bound condition. `All` is AND and `Any` is OR over the parts, in order; `Is` asks whether
/// the truth of a condition is the named one.
#[derive(Debug, Drop)]
pub enum Cond {
    Compare(Side, Cmp, Side),
    IsNull(Side),
    Call(u8, Arg, Arg),
    Not(Boxed<Cond>),
    All(Items<Cond>),
    Any(Items<Cond>),
    Is(Boxed<Cond>, Truth),
}

/// One row of each alias in `span` (bit a stands for alias a): alias a uses the table
/// `uses[a]` of `tables`, and its row there is `rows[a]`.
#[derive(Clone, Copy, Debug)]
pub struct Chosen<'t> {
    /// The tables.
    pub tables: &'t Tables,
    /// The number of each alias's table, by the alias's number.
    pub uses: [u32; 12],
    /// The row of each alias in that table, by the alias's number.
    pub rows: [u32; 12],
    /// The aliases that have a row, by bits.
    pub span: u16,
}

impl<'t> Chosen<'t> {
    // The value of a column of an alias, in the chosen row of the alias.
    pub(crate) fn value(&self, column: ColumnOf) -> &'t Value
        requires { IsInRange self.now.tables.now self.now.uses self.now.rows column }
        ensures value { result.now ≡ value_in self.now.tables.now self.now.uses self.now.rows column }
        ensures kind { IfSome (kind_in self.now.tables.now self.now.uses column) (λ k. HasKind k result.now) }
    {
        let alias = column.alias as usize;
        let table = self.tables.get(self.uses[alias]);
        table.value(self.rows[alias], column.column)
    }
}

// Whether these are the terms of one integer.
fn is_constant(terms: &[Term]) -> bool
    ensures { result ≡ spec.is_constant terms.now }
{
    match terms {
        [term] => term.column.is_none(),
        _ => false,
    }
}

impl Side {
    /// Whether the side stands for one value or one column, not for a computed one: it is Null, a
    /// text, a column, or a sum of one term without a column.
    pub fn plain(&self) -> bool
        ensures { result ≡ spec.is_plain self.now }
    {
        match self {
            Side::Sum(terms) => is_constant(terms.as_slice()),
            _ => true,
        }
    }
}
