//! Binding: the block of a statement, with its shape where it has one, or the first fault of the first round
//! that has one.

ghost use Rattle.std.specs.Prelude.{◌≡◌, ◌≢◌, ◌⊎◌, ◌≤◌, ℕ, [], None, Some, true, false, length, map, IfOk, IfErr, MatchResult};
ghost use Rattle.sq_expr.specs.Fits.{IsFit};
ghost use Rattle.sq_expr.specs.Reach.{IsReachable};
ghost use Rattle.sq_expr.specs.Shapes.{FitsShape};
ghost use Rattle.sq_expr.specs.declared.block.Block.{Block};
ghost use Rattle.sq_parse.specs.Shaped.{is_shaped};
ghost use Rattle.sq_bind.specs.Condition.{calling};
ghost use Rattle.sq_bind.specs.Fault.{first_of};
ghost use Rattle.sq_bind.specs.Found.{matches_with};
ghost use Rattle.sq_bind.specs.Ordered.{HoldsCells};
ghost use Rattle.sq_bind.specs.Reached.{first_unreached};
ghost use Rattle.sq_bind.specs.Seen.{seen};
ghost use Rattle.sq_bind.specs.Settled.{IsSettledShape};
ghost use Rattle.sq_bind.specs.Statement as spec;
ghost use Rattle.sq_bind.specs.Statement.{faults_among, plain_block};
ghost use Rattle.sq_bind.specs.Given.{IsParsed, AreAccesses, over};
ghost use Rattle.sq_bind.specs.Answer.{IsBound, IsBoundShape, IsBindFault, OneFault, NoneBeside, NoneBesideShape, SomeAnswer, SomeShape};
ghost use Rattle.sq_bind.specs.Told.{IsAnswer, IsPlainOf};
ghost use Rattle.sq_bind.specs.declared.fault.BindFault.{BindFault};
ghost use Rattle.sq_bind.specs.declared.shaped.Shaped.{Shaped};

use crate::alias::aliases_of;
use crate::block::{matches_of, rest_fault, shape_of};
use crate::columns::{Grouping, ShownCells};
use crate::fault::BindFault;
use crate::group::grouping_of;
use crate::order::Sortable;
use crate::output::{Meanings, meanings_of};
use crate::part::{placed_of, places_of};
use crate::plain::plain_of;
use crate::reach::first_unreached;
use crate::select::cells_of;
use crate::shaped::Shaped;
use crate::source::{from_fault, tables_of};
use crate::visible::SeenAlias;
use catalogue::Catalogue;
use sq_expr::{Access, Block};
use sq_parse::{Statement, is_grouped};
use sq_value::{Memory, Predicates};
use std::alloc::Global;

// The first fault of the second round, where the columns of GROUP BY are known, and the cells with what
// their names mean.
fn fault_of<F: Predicates>(
    alloc: Global,
    functions: &F,
    aliases: &[SeenAlias<'_>],
    statement: &Statement,
    names: &Meanings,
    keys: &Grouping,
    cells: &ShownCells,
) -> Result<Option<BindFault>, Memory>
    requires seen { length statement.now.sources ≤ length aliases.now }
    requires keys { keys.now ≡ spec.grouping_of (map seen aliases.now) statement.now.groups }
    requires cells { cells.now ≡ spec.cells_of (map seen aliases.now) statement.now.items }
    requires names { HoldsCells names.now.entries cells.now }
    ensures { let calls = calling (F.number_of functions.now) (F.kinds_of functions.now) in
        IfOk result (λ fault. fault ≡ first_of (faults_among calls (map seen aliases.now) statement.now)) }
{
    let places = places_of(alloc, statement)?;
    let by = Sortable {
        distinct: statement.distinct,
        grouped: is_grouped(statement),
        keys,
        cells,
    };
    rest_fault(
        alloc,
        functions,
        aliases,
        statement,
        names,
        by,
        places.as_slice(),
    )
}

// The matches and the shape of a statement without a fault in FROM, or the first fault of the rest.
fn shaped_or_fault<F: Predicates>(
    alloc: Global,
    functions: &F,
    accesses: &[Access],
    found: &[Option<u32>],
    aliases: &[SeenAlias<'_>],
    statement: &Statement,
) -> Result<Shaped, BindFault>
    requires { length statement.now.sources ≤ length aliases.now }
    ensures block { let calls = calling (F.number_of functions.now) (F.kinds_of functions.now) in
        IfOk result (λ made. made.block ≡ matches_with accesses.now found.now (map seen aliases.now)
        (spec.placed_in calls (map seen aliases.now) statement.now)) }
    ensures shape { IfOk result (λ made. made.shape ≡ spec.shape_in (map seen aliases.now) statement.now) }
    ensures faultless { let calls = calling (F.number_of functions.now) (F.kinds_of functions.now) in
        IfOk result (λ made. first_of (faults_among calls (map seen aliases.now) statement.now) ≡ None) }
    ensures fault { let calls = calling (F.number_of functions.now) (F.kinds_of functions.now) in
        IfErr result (λ f. (f ≡ BindFault.Memory)
        ⊎ (first_of (faults_among calls (map seen aliases.now) statement.now) ≡ Some f)) }
{
    let cells = cells_of(alloc, aliases, &statement.items)?;
    let keys = grouping_of(alloc, aliases, statement.groups.as_slice())?;
    let keys = Grouping::of(alloc, keys)?;
    let cells = ShownCells::of(alloc, cells)?;
    let names = meanings_of(alloc, cells.cells())?;
    let fault = fault_of(alloc, functions, aliases, statement, &names, &keys, &cells)?;
    if let Some(fault) = fault {
        return Err(fault);
    }
    let shape = shape_of(
        alloc,
        aliases,
        statement,
        &names,
        keys.into_columns(),
        cells.into_cells(),
    )?;
    let placed = placed_of(alloc, functions, aliases, statement)?;
    let block = matches_of(alloc, accesses, found, aliases, placed)?;
    Ok(Shaped { block, shape })
}

// A statement whose aliases are all reached, or the first that isn't.
fn reached_shape(alloc: Global, shaped: Shaped) -> Result<Shaped, BindFault>
    requires { length shaped.block.aliases ≤ 12 }
    ensures same { IfOk result (λ found. found ≡ shaped) }
    ensures reached { IfOk result (λ found. first_unreached shaped.block ≡ None) }
    ensures fault { IfErr result (λ f. (f ≡ BindFault.Memory)
        ⊎ ((alias : ℕ) × ((f ≡ BindFault.Unreachable alias) × (first_unreached shaped.block ≡ Some alias)))) }
{
    match first_unreached(alloc, &shaped.block)? {
        Some(alias) => Err(BindFault::Unreachable { alias }),
        None => Ok(shaped),
    }
}

// The matches and the shape of a statement, or its fault.
fn answer<F: Predicates>(
    alloc: Global,
    statement: &Statement,
    catalogue: &Catalogue,
    accesses: &[Access],
    functions: &F,
) -> Result<Shaped, BindFault>
    requires parsed { IsParsed statement.now }
    requires reached { AreAccesses catalogue.now.tables accesses.now }
    ensures answer { let calls = calling (F.number_of functions.now) (F.kinds_of functions.now) in
        IsAnswer (over catalogue.now accesses.now calls) statement.now result }
    ensures plain_fits { IfOk result (λ made.
        IsFit (F.kinds_of functions.now) catalogue.now.tables (plain_block made.block made.shape)) }
    ensures fits { IfOk result (λ made. IsFit (F.kinds_of functions.now) catalogue.now.tables made.block) }
    ensures shape_fits { IfOk result (λ made. FitsShape catalogue.now.tables made.block made.shape) }
{
    let sources = statement.sources.as_slice();
    let found = tables_of(alloc, catalogue, sources)?;
    let fault = from_fault(alloc, sources, found.as_slice())?;
    if let Some(first) = fault {
        return Err(first);
    }
    let aliases = aliases_of(alloc, catalogue.tables(), sources, found.as_slice())?;
    let shaped = shaped_or_fault(
        alloc,
        functions,
        accesses,
        found.as_slice(),
        aliases.as_slice(),
        statement,
    )?;
    reached_shape(alloc, shaped)
}

fn plain_or_memory(alloc: Global, shaped: Shaped) -> Result<Block, BindFault>
    ensures { MatchResult result (λ block. block ≡ plain_block shaped.block shaped.shape) (λ f. f ≡ BindFault.Memory) }
{
    let block = plain_of(alloc, shaped)?;
    Ok(block)
}

// The block of a statement that isn't shaped, or its fault.
fn plain_answer(alloc: Global, made: Result<Shaped, BindFault>) -> Result<Block, BindFault>
    ensures { IsPlainOf made result }
{
    match made {
        Ok(shaped) => plain_or_memory(alloc, shaped),
        Err(fault) => Err(fault),
    }
}

/// The block that a statement of a script stands for, where it has no fault: its aliases with their
/// tables and accesses, its conjuncts, its output columns and its sort keys. The statement has no set
/// function, GROUP BY, DISTINCT or LIMIT: [`bind_shape`] takes those. The table with the
/// number n has the access at place n, a scan or a look-up by a column that it has; and the tables
/// that a name may mean are told apart but for the case of ASCII letters.
///
/// The rules are those of SQL-92 (ISO/IEC 9075:1992) on the scope of names and the types of operands.
/// The time goes with the length of the statement times the number of columns that are seen.
///
/// # Errors
/// `Memory`, or the fault of the first of these rounds that has one. Within the first two it is the
/// one with the least place, and at one place the first of [`BindFault`]'s variants.
///
/// 1. FROM: `UnknownTable`, `RepeatedAlias`, `TooManyAliases`.
/// 2. The select list, the conditions of ON and of WHERE, and ORDER BY: the others but the last four.
/// 3. `Unreachable`: the first alias that neither a scan nor look-ups reach. All aliases that are
///    scanned are reached, and so is one whose look-up column is compared by `=`, in a conjunct of its
///    own, with a literal or with a column of another alias that is reached. Where no alias is
///    scanned none is reached.
pub fn bind<F: Predicates>(
    alloc: Global,
    statement: &Statement,
    catalogue: &Catalogue,
    accesses: &[Access],
    functions: &F,
) -> Result<Block, BindFault>
    requires parsed { IsParsed statement.now }
    requires plain { is_shaped statement.now ≡ false }
    requires reached { AreAccesses catalogue.now.tables accesses.now }
    ensures bound { let calls = calling (F.number_of functions.now) (F.kinds_of functions.now) in
        IfOk result (IsBound (over catalogue.now accesses.now calls) statement.now) }
    ensures every_bound { let calls = calling (F.number_of functions.now) (F.kinds_of functions.now) in
        (block : Block) → IsBound (over catalogue.now accesses.now calls) statement.now block
        → MatchResult result (λ found. found ≡ block) (λ f. f ≡ BindFault.Memory) }
    ensures fits { IfOk result (IsFit (F.kinds_of functions.now) catalogue.now.tables) }
    ensures reachable { IfOk result IsReachable }
    ensures fault { let calls = calling (F.number_of functions.now) (F.kinds_of functions.now) in
        IfErr result (λ f. f ≢ BindFault.Memory → IsBindFault (over catalogue.now accesses.now calls) statement.now f) }
    ensures every_fault { let calls = calling (F.number_of functions.now) (F.kinds_of functions.now) in
        (f : BindFault) → IsBindFault (over catalogue.now accesses.now calls) statement.now f
        → MatchResult result (λ block. ⊥) (λ found. (found ≡ f) ⊎ (found ≡ BindFault.Memory)) }
{
    let made = answer(alloc, statement, catalogue, accesses, functions);
    plain_answer(alloc, made)
}

/// What a statement with a set function, GROUP BY, DISTINCT or LIMIT stands for, where it has no fault: the
/// block of its matches, which has one output column (the first of the first alias) and no order, and the
/// shape, which says what is made of the matches. The accesses and the tables are as for [`bind`].
///
/// The rules are those of SQL-92 on grouped tables and DISTINCT. A name of ORDER BY is first a cell's; cells
/// of one name that show the same column by the same set function are one.
/// The time goes with the length of the statement times the number of columns that are seen, and with that
/// of the select list and ORDER BY times the logarithm of the number of cells.
///
/// # Errors
/// As those of [`bind`], and in the second round:
///
/// - `TypeMismatch` at a TEXT column that is summed;
/// - `NotGrouped` at a column of the select list or of ORDER BY that is none of GROUP BY, where the statement
///   is grouped; for `*` at the first table's name, for `name.*` at the name. A name of ORDER BY that is a
///   cell's is right. A column of GROUP BY with a fault groups nothing;
/// - `NotSelected` at a column of ORDER BY that no cell shows, where the statement has DISTINCT. There
///   `NotGrouped` isn't told.
pub fn bind_shape<F: Predicates>(
    alloc: Global,
    statement: &Statement,
    catalogue: &Catalogue,
    accesses: &[Access],
    functions: &F,
) -> Result<Shaped, BindFault>
    requires parsed { IsParsed statement.now }
    requires shaped { is_shaped statement.now ≡ true }
    requires reached { AreAccesses catalogue.now.tables accesses.now }
    ensures bound { let calls = calling (F.number_of functions.now) (F.kinds_of functions.now) in
        IfOk result (IsBoundShape (over catalogue.now accesses.now calls) statement.now) }
    ensures every_bound { let calls = calling (F.number_of functions.now) (F.kinds_of functions.now) in
        (shaped : Shaped) → IsBoundShape (over catalogue.now accesses.now calls) statement.now shaped
        → MatchResult result (λ found. found ≡ shaped) (λ f. f ≡ BindFault.Memory) }
    ensures fits { IfOk result (λ made. IsFit (F.kinds_of functions.now) catalogue.now.tables made.block) }
    ensures shape_fits { IfOk result (λ made. FitsShape catalogue.now.tables made.block made.shape) }
    ensures settled { IfOk result (λ made. IsSettledShape made.shape) }
    ensures reachable { IfOk result (λ made. IsReachable made.block) }
    ensures unordered { IfOk result (λ made. made.block.order ≡ []) }
    ensures fault { let calls = calling (F.number_of functions.now) (F.kinds_of functions.now) in
        IfErr result (λ f. f ≢ BindFault.Memory → IsBindFault (over catalogue.now accesses.now calls) statement.now f) }
    ensures every_fault { let calls = calling (F.number_of functions.now) (F.kinds_of functions.now) in
        (f : BindFault) → IsBindFault (over catalogue.now accesses.now calls) statement.now f
        → MatchResult result (λ made. ⊥) (λ found. (found ≡ f) ⊎ (found ≡ BindFault.Memory)) }
{
    answer(alloc, statement, catalogue, accesses, functions)
}

/// The law that a statement has one answer. It does nothing.
///
/// Whatever the tables, the accesses and the predicates, it has at most one fault, `fault`; none beside a
/// block, `apart`, nor beside a block and a shape, `shape_apart`; and, if it has a source, one of the two,
/// `some` and `some_shape`.
pub fn one_answer()
    ensures fault { OneFault }
    ensures apart { NoneBeside }
    ensures shape_apart { NoneBesideShape }
    ensures some { SomeAnswer }
    ensures some_shape { SomeShape }
{}
