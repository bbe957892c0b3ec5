//! The conjuncts of a block, with what is prepared of them once.
ghost use Rattle.std.specs.Prelude.{◌≡◌, ◌<◌, length, slice_get, Some, IfOk, IfSome};
ghost use Rattle.sq_expr.specs.Meaning.{truth_of, value_in};
ghost use Rattle.sq_expr.specs.Fits.{FitsCond, Covers};
ghost use Rattle.sq_expr.specs.Prepared.{ArePrepared};
ghost use Rattle.sq_expr.specs.declared.block.Conjunct.{Conjunct as Item};

use crate::block::Conjunct;
use crate::cond::Chosen;
use crate::prepared::{Prepared, prepared_of};
use sq_value::{Memory, Predicates, Truth};
use sqlite_items::Items;
use std::alloc::Global;
use std::fmt;
use std::marker::Model;

/// The conjuncts of a block, which contracts see as their list.
///
/// Where one asks whether a column equals one of eight literals or more, as `x IN (1, 2, ..)` does, or none of them,
/// its literals are kept in order. A value is then looked up among them, and not compared with each. Where one compares
/// a column with an integer, the integer is kept as it is.
#[derive(Drop)]
pub struct Conjuncts {
    items: Items<Conjunct>,
    prepared: Vec<Prepared>,
}

impl Model for Conjuncts {
    ghost use Rattle.std.specs.Prelude.{List};
    ghost use Rattle.std.specs.Coded.{codes};
    ghost use Rattle.sq_expr.specs.contracts.cond.Cond as e;
    ghost use Rattle.sq_expr.specs.declared.block.Conjunct.{Conjunct as Item};

    ghost Value = { List Item };

    ghost coded = { Prim.hlevel (codes, e.the_row.coded) };

    ghost use Rattle.sq_expr.specs.Prepared.{ArePrepared};

    ghost view = { λ c. c.items };

    ghost invariant = { λ c. ArePrepared c.items c.prepared.items };
}

/// Shows the conjuncts alone.
impl fmt::Debug for Conjuncts {
    fn fmt<W: fmt::Write>(&self, f: &mut fmt::Formatter<W>) -> fmt::Result {
        f.debug_struct("Conjuncts")
            .field("items", &self.items)
            .finish()
    }
}

// What is prepared of each of these conjuncts.
fn all_prepared(alloc: Global, conjuncts: &[Conjunct]) -> Result<Vec<Prepared>, Memory>
    ensures { IfOk result (λ all. ArePrepared conjuncts.now all.items) }
{
    let mut all = Vec::new(alloc);
    for conjunct in conjuncts {
        all.push(prepared_of(alloc, &conjunct.cond)?)?;
    }
    Ok(all)
}

// What is prepared of the conjunct with this number.
fn prepared_at(all: &[Prepared], number: usize) -> Option<&Prepared>
    ensures { IfSome result (λ x. slice_get all.now number ≡ Some x.now) }
{
    all.get(number)
}

impl Conjuncts {
    /// Prepares the conjuncts of a block.
    ///
    /// # Errors
    /// `Memory`: there is no memory for it.
    pub fn new(alloc: Global, items: Items<Conjunct>) -> Result<Conjuncts, Memory>
        ensures { IfOk result (λ c. c ≡ items) }
    {
        let prepared = all_prepared(alloc, items.as_slice())?;
        Ok(Conjuncts { items, prepared })
    }

    /// The conjuncts.
    pub fn as_slice(&self) -> &[Conjunct]
        ensures { result.now ≡ self.now }
    {
        self.items.as_slice()
    }

    /// How many there are.
    pub fn len(&self) -> usize
        ensures { result ≡ length self.now }
    {
        self.items.len()
    }

    /// The truth of the conjunct with this number over one row of each alias, as that of `Cond::truth`. It takes no
    /// memory.
    pub fn truth<F: Predicates>(&self, number: usize, rows: &Chosen<'_>, functions: &F) -> Truth
        requires there { number < length self.now }
        requires fits { (c : Item) → slice_get self.now number ≡ Some c
            → FitsCond (F.kinds_of functions.now) rows.now.tables.now rows.now.uses c.cond }
        requires covered { (c : Item) → slice_get self.now number ≡ Some c
            → Covers rows.now.tables.now rows.now.uses rows.now.rows rows.now.span c.cond }
        ensures { (c : Item) → slice_get self.now number ≡ Some c
            → result ≡ truth_of F.gives (value_in rows.now.tables.now rows.now.uses rows.now.rows) c.cond }
    {
        let conjunct = &self.items.as_slice()[number];
        match prepared_at(self.prepared.as_slice(), number) {
            Some(Prepared::Membership(membership)) => membership.truth(rows),
            Some(Prepared::IntegerTest(test)) => test.truth(rows),
            _ => conjunct.cond.truth(rows, functions),
        }
    }
}
