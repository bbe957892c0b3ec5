//! What a block asks its remotes by.
ghost use Rattle.std.specs.Prelude.{◌≡◌, ◌⊎◌, ◌++◌, ◌<◌, ◌≤◌, ◌==◌, position, length, Contains, IfOk, IfSome, OnOk, IsTrue, MatchOption, ◌↔◌};
ghost use Rattle.std.specs.Option.{option_to_list};
ghost use Rattle.sq_value.specs.declared.value.Cmp.TheVariants.{Eq as Equal};
ghost use Rattle.sq_expr.specs.declared.cond.Cond.TheVariants.{Compare};
ghost use Rattle.sq_expr.specs.declared.cond.Side.{Side as Other};
ghost use Rattle.remote_lookup.specs.Filled as filled;
ghost use Rattle.remote_lookup.specs.Asks as spec;
ghost use Rattle.remote_lookup.specs.Asks.{AreAsks, IsAskIn};
ghost use Rattle.remote_lookup.specs.declared.asks.Ask.{Ask as Way};

use crate::remote::Remote;
use sq_expr::{Block, ColumnOf, Cond, Side, Term};
use sq_value::{Cmp, Memory};
use std::alloc::Global;

/// What names a key: a literal, or the values of a column.
#[derive(Clone, Copy)]
pub(crate) enum By {
    Literal(i64),
    Column(ColumnOf),
}

/// An equality asks a remote for keys.
#[derive(Clone, Copy)]
pub(crate) struct Ask {
    pub remote: u32,
    pub by: By,
}

// The place of the first remote whose table this is.
fn place_of(remotes: &[Remote], table: u32) -> Option<usize>
    ensures is { result ≡ position (λ remote. remote.table == table) remotes.now }
    ensures within { IfSome result (λ place. place < length remotes.now) }
{
    remotes.iter().position(|remote| remote.table == table)
}

/// The remote whose table this is, where there is one.
pub(crate) fn remote_of(remotes: &[Remote], table: u32) -> Option<u32>
    requires { length remotes.now ≤ 4294967296 }
    ensures { result ≡ filled.remote_of remotes.now table }
{
    match place_of(remotes, table) {
        Some(place) => Some(place as u32),
        None => None,
    }
}

// The remote whose look-up column this is, where there is one.
fn remote_by(block: &Block, remotes: &[Remote], own: ColumnOf) -> Option<u32>
    requires { length remotes.now ≤ 4294967296 }
    ensures { result ≡ spec.remote_by block.now remotes.now own }
{
    let aliases = block.aliases.as_slice();
    let Some(item) = aliases.get(usize::from(own.alias)) else {
        return None;
    };
    let Some(remote) = remote_of(remotes, item.table) else {
        return None;
    };
    let found = &remotes[remote as usize];
    if found.column == own.column {
        Some(remote)
    } else {
        None
    }
}

// The integer that terms stand for, where they are one literal.
fn literal_of(terms: &[Term]) -> Option<By>
    ensures { result ≡ spec.literal_of terms.now }
{
    match terms {
        [term] if term.column.is_none() => Some(By::Literal(term.factor)),
        _ => None,
    }
}

// What a side names keys by, beside a column of an alias.
fn by_of(other: &Side, alias: u8) -> Option<By>
    ensures { result ≡ spec.by_of other.now alias }
{
    match other {
        Side::Column(column) if column.alias != alias => Some(By::Column(*column)),
        Side::Sum(terms) => literal_of(terms.as_slice()),
        _ => None,
    }
}

// How the equality of two sides asks a remote, where the first is a look-up column.
fn ask_by(block: &Block, remotes: &[Remote], own: &Side, other: &Side) -> Option<Ask>
    requires { length remotes.now ≤ 4294967296 }
    ensures { result ≡ spec.ask_by block.now remotes.now own.now other.now }
{
    let Side::Column(column) = own else {
        return None;
    };
    let Some(by) = by_of(other, column.alias) else {
        return None;
    };
    match remote_by(block, remotes, *column) {
        Some(remote) => Some(Ask { remote, by }),
        None => None,
    }
}

// Puts what was found behind the others.
fn push_found(asks: &mut Vec<Ask>, found: Option<Ask>) -> Result<(), Memory>
    ensures { OnOk result (asks.new.items ≡ asks.old.items ++ option_to_list found) }
{
    if let Some(ask) = found {
        asks.push(ask)?;
    }
    Ok(())
}

// Whether a comparison is the equality.
fn is_equality(cmp: Cmp) -> bool
    ensures { IsTrue result ↔ (cmp ≡ Cmp.Eq) }
{
    cmp == Cmp::Eq
}

// The sides of a condition that is an equality.
fn equal_sides(cond: &Cond) -> Option<(&Side, &Side)>
    ensures { MatchOption result ((x y : Other) → cond.now ≡ Compare x Equal y → ⊥)
        (λ sides. cond.now ≡ Compare sides.0.now Equal sides.1.now) }
{
    let Cond::Compare(left, cmp, right) = cond else {
        return None;
    };
    if is_equality(*cmp) {
        Some((left, right))
    } else {
        None
    }
}

// Puts what a condition asks behind the others.
fn push_asks(
    block: &Block,
    remotes: &[Remote],
    cond: &Cond,
    asks: &mut Vec<Ask>,
) -> Result<(), Memory>
    requires { length remotes.now ≤ 4294967296 }
    ensures { OnOk result ((ask : Way) → Contains asks.new.items ask
        ↔ (Contains asks.old.items ask ⊎ IsAskIn block.now remotes.now cond.now ask)) }
{
    let Some((left, right)) = equal_sides(cond) else {
        return Ok(());
    };
    push_found(asks, ask_by(block, remotes, left, right))?;
    push_found(asks, ask_by(block, remotes, right, left))
}

/// All that the conjuncts of a block ask.
///
/// # Errors
/// `Memory`: there is no memory for it.
pub(crate) fn asks_of(alloc: Global, block: &Block, remotes: &[Remote]) -> Result<Vec<Ask>, Memory>
    requires { length remotes.now ≤ 4294967296 }
    ensures { IfOk result (λ asks. AreAsks block.now remotes.now asks.items) }
{
    let mut asks = Vec::new(alloc);
    for conjunct in block.conjuncts.as_slice() {
        push_asks(block, remotes, &conjunct.cond, &mut asks)?;
    }
    Ok(asks)
}
