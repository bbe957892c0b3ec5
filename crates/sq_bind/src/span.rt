//! The aliases that occur in a condition.

ghost use Rattle.std.specs.Prelude.{◌≡◌, ◌<◌, ◌≤◌, ◌^◌, map, IfOk};
ghost use Rattle.std.specs.List.{list_any};
ghost use Rattle.sq_expr.specs.Fits.{term_aliases, side_aliases, arg_aliases, aliases_of};
ghost use Rattle.sq_bind.specs.Statement as spec;
ghost use Rattle.sq_bind.specs.Statement.{is_among};

use crate::conjunct::Placed;
use sq_expr::{Arg, ColumnOf, Cond, Conjunct, Side, Term};
use sq_value::Memory;
use sqlite_items::Items;
use std::alloc::Global;

fn term_has(column: Option<ColumnOf>, alias: u8) -> bool
    ensures { result ≡ is_among alias (term_aliases column) }
{
    match column {
        Some(column) => column.alias == alias,
        None => false,
    }
}

fn terms_have(terms: &[Term], alias: u8) -> bool
    ensures { result ≡ list_any (λ t. is_among alias (term_aliases t.column)) terms.now }
{
    for term in terms {
        if term_has(term.column, alias) {
            return true;
        }
    }
    false
}

fn side_has(side: &Side, alias: u8) -> bool
    ensures { result ≡ is_among alias (side_aliases side.now) }
{
    match side {
        Side::Null => false,
        Side::Text(_) => false,
        Side::Column(column) => column.alias == alias,
        Side::Sum(terms) => terms_have(terms.as_slice(), alias),
    }
}

fn arg_has(arg: &Arg, alias: u8) -> bool
    ensures { result ≡ is_among alias (arg_aliases arg.now) }
{
    match arg {
        Arg::Literal(_) => false,
        Arg::Column(column) => column.alias == alias,
    }
}

#[cycle(has)]
fn parts_have(parts: &[Cond], alias: u8) -> bool
    ensures { result ≡ list_any (λ part. is_among alias (aliases_of part)) parts.now }
{
    for part in parts {
        if cond_has(part, alias) {
            return true;
        }
    }
    false
}

#[cycle(has)]
fn cond_has(cond: &Cond, alias: u8) -> bool
    ensures { result ≡ is_among alias (aliases_of cond.now) }
{
    match cond {
        Cond::Compare(x, _, y) => side_has(x, alias) || side_has(y, alias),
        Cond::IsNull(x) => side_has(x, alias),
        Cond::Call(_, x, y) => arg_has(x, alias) || arg_has(y, alias),
        Cond::Not(part) => cond_has(part.get(), alias),
        Cond::All(parts) => parts_have(parts.as_slice(), alias),
        Cond::Any(parts) => parts_have(parts.as_slice(), alias),
        Cond::Is(part, _) => cond_has(part.get(), alias),
    }
}

// The bit of an alias that occurs.
fn bit_of(cond: &Cond, alias: u8) -> u16
    requires { alias < 12 }
    ensures bit { result ≡ spec.bit_in (aliases_of cond.now) alias }
    ensures small { result ≤ 2 ^ alias }
{
    if cond_has(cond, alias) { 1 << alias } else { 0 }
}

// The set of the aliases that occur. It looks for each alias in turn.
fn span_of(cond: &Cond) -> u16
    ensures { result ≡ spec.span_of (aliases_of cond.now) }
{
    let mut span = 0;
    for alias in 0..12 {
        span += bit_of(cond, alias);
    }
    span
}

/// The conjuncts of a block, with the sets of the aliases that occur in them.
///
/// # Errors
/// `Memory`: there is no memory for them.
pub fn conjuncts_of(alloc: Global, placed: Vec<Placed>) -> Result<Items<Conjunct>, Memory>
    ensures { IfOk result (λ conjuncts. conjuncts ≡ map spec.placed_conjunct placed.items) }
{
    let mut conjuncts = Items::new(alloc);
    for Placed { at: _, cond } in placed {
        let span = span_of(&cond);
        conjuncts.push(Conjunct { cond, span })?;
    }
    Ok(conjuncts)
}
