//! Reach: which aliases are found by scans, and by look-ups that begin with them or with literals.

ghost use Rattle.std.specs.Prelude.{◌≡◌, ◌<◌, ◌≤◌, length, map, not, position, IfOk};
ghost use Rattle.std.specs.List.{list_any};
ghost use Rattle.sq_expr.specs.Plain.{is_constant};
ghost use Rattle.sq_bind.specs.Reached as spec;

use sq_expr::{AliasUse, Block, ColumnOf, Cond, Conjunct, Side, Term};
use sq_value::{Cmp, Memory};
use std::alloc::Global;

fn has(marks: &[bool], alias: u8) -> bool
    ensures { result ≡ spec.has marks.now alias }
{
    match marks.get(usize::from(alias)) {
        Some(mark) => *mark,
        None => false,
    }
}

// A sum of one term without a column.
fn is_literal(terms: &[Term]) -> bool
    ensures { result ≡ is_constant terms.now }
{
    match terms {
        [term] => term.column.is_none(),
        _ => false,
    }
}

// Whether a side is a literal, or a column of another alias that is marked.
fn gives(marks: &[bool], alias: u8, side: &Side) -> bool
    ensures { result ≡ spec.gives marks.now alias side.now }
{
    match side {
        Side::Null => true,
        Side::Text(_) => true,
        Side::Column(column) => column.alias != alias && has(marks, column.alias),
        Side::Sum(terms) => is_literal(terms.as_slice()),
    }
}

// Whether an alias is looked up by a column.
fn looks_up(uses: &[AliasUse], column: ColumnOf) -> bool
    ensures { result ≡ spec.looks_up uses.now column }
{
    match uses.get(usize::from(column.alias)) {
        Some(alias) => is_column(column.column, alias.access.look_up),
        None => false,
    }
}

fn is_column(column: u32, look_up: Option<u32>) -> bool
    ensures { result ≡ spec.is_column column look_up }
{
    match look_up {
        Some(place) => place == column,
        None => false,
    }
}

fn leads(uses: &[AliasUse], marks: &[bool], own: ColumnOf, other: &Side) -> bool
    ensures { result ≡ spec.leads uses.now marks.now own other.now }
{
    looks_up(uses, own) && gives(marks, own.alias, other)
}

fn put_mark(uses: &[AliasUse], own: ColumnOf, other: &Side, marks: &mut [bool])
    requires { length marks.old ≡ length uses.now }
    ensures { marks.new ≡ spec.with_column uses.now own other.now marks.old }
{
    if leads(uses, marks, own, other) {
        marks[usize::from(own.alias)] = true;
    }
}

// Marks the alias of one side, where the other leads to it.
fn mark_own(uses: &[AliasUse], own: &Side, other: &Side, marks: &mut [bool])
    requires { length marks.old ≡ length uses.now }
    ensures { marks.new ≡ spec.with_own uses.now own.now other.now marks.old }
{
    match own {
        Side::Null => {}
        Side::Text(_) => {}
        Side::Column(column) => put_mark(uses, *column, other, marks),
        Side::Sum(_) => {}
    }
}

fn mark_compared(uses: &[AliasUse], x: &Side, cmp: Cmp, y: &Side, marks: &mut [bool])
    requires { length marks.old ≡ length uses.now }
    ensures { marks.new ≡ spec.with_compared uses.now x.now cmp y.now marks.old }
{
    if cmp == Cmp::Eq {
        mark_own(uses, x, y, marks);
        mark_own(uses, y, x, marks);
    }
}

// Marks the alias that a conjunct leads to.
fn mark_cond(uses: &[AliasUse], cond: &Cond, marks: &mut [bool])
    requires { length marks.old ≡ length uses.now }
    ensures { marks.new ≡ spec.with_cond uses.now cond.now marks.old }
{
    match cond {
        Cond::Compare(x, cmp, y) => mark_compared(uses, x, *cmp, y, marks),
        Cond::IsNull(_) => {}
        Cond::Call(_, _, _) => {}
        Cond::Not(_) => {}
        Cond::All(_) => {}
        Cond::Any(_) => {}
        Cond::Is(_, _) => {}
    }
}

// One round over all conjuncts.
fn mark_all(uses: &[AliasUse], conjuncts: &[Conjunct], marks: &mut [bool])
    requires { length marks.old ≡ length uses.now }
    ensures { marks.new ≡ spec.spread uses.now conjuncts.now marks.old }
{
    for conjunct in conjuncts {
        mark_cond(uses, &conjunct.cond, marks);
    }
}

fn scanned(alloc: Global, uses: &[AliasUse]) -> Result<Vec<bool>, Memory>
    ensures { IfOk result (λ marks. marks.items ≡ map spec.is_scanned uses.now) }
{
    let mut marks = Vec::new(alloc);
    for alias in uses {
        marks.push(alias.access.scan)?;
    }
    Ok(marks)
}

// The aliases that are reached from those that are scanned, in as many rounds as there are aliases:
// a round that marks none is followed by none that does.
fn reached(alloc: Global, uses: &[AliasUse], conjuncts: &[Conjunct]) -> Result<Vec<bool>, Memory>
    ensures { IfOk result (λ marks. marks.items ≡ spec.reached uses.now conjuncts.now) }
{
    let mut marks = scanned(alloc, uses)?;
    for _round in 0..uses.len() {
        mark_all(uses, conjuncts, marks.as_mut_slice());
    }
    Ok(marks)
}

fn is_any_scanned(uses: &[AliasUse]) -> bool
    ensures { result ≡ list_any spec.is_scanned uses.now }
{
    for alias in uses {
        if alias.access.scan {
            return true;
        }
    }
    false
}

fn first_without(marks: &[bool]) -> Option<usize>
    ensures { result ≡ position not marks.now }
{
    marks.iter().position(|mark| !*mark)
}

/// The first alias of a block that isn't reached.
///
/// # Errors
/// `Memory`: there is no memory for a mark for each alias.
pub fn first_unreached(alloc: Global, block: &Block) -> Result<Option<u8>, Memory>
    requires { length block.now.aliases ≤ 12 }
    ensures { IfOk result (λ alias. alias ≡ spec.first_unreached block.now) }
{
    let uses = block.aliases.as_slice();
    if !is_any_scanned(uses) {
        return Ok(Some(0));
    }
    let marks = reached(alloc, uses, block.conjuncts.as_slice())?;
    match first_without(marks.as_slice()) {
        Some(alias) => Ok(Some(alias as u8)),
        None => Ok(None),
    }
}
