//! The second round, and the matches and the shape of a statement without a fault in it.

ghost use Rattle.std.specs.Prelude.{◌≡◌, ◌≤◌, length, map, IfOk};
ghost use Rattle.sq_bind.specs.Fault.{first_of};
ghost use Rattle.sq_bind.specs.Condition.{calling};
ghost use Rattle.sq_bind.specs.Statement as spec;
ghost use Rattle.sq_bind.specs.Found.{matches_with};
ghost use Rattle.sq_bind.specs.Ordered.{HoldsCells};
ghost use Rattle.sq_bind.specs.Seen.{seen, sorting, places_in};

use crate::alias::uses_of;
use crate::conjunct::Placed;
use crate::fault::{BindFault, sooner};
use crate::group::{grouped_fault, groups_fault};
use crate::order::{Sortable, keys_fault, order_of};
use crate::output::Meanings;
use crate::part::{extra_fault, parts_fault};
use crate::select::{selected_fault, spelled};
use crate::span::conjuncts_of;
use crate::visible::SeenAlias;
use sq_expr::{Access, Block, Cell, ColumnOf, Conjuncts, OutCol, Shape};
use sq_parse::{Statement, is_grouped};
use sq_value::{Memory, Predicates, SqText};
use sqlite_items::Items;
use std::alloc::Global;

/// The first fault of the select list, the conditions, GROUP BY and ORDER BY, with what the names of the
/// cells mean, what may be sorted by and the places of the conjuncts.
///
/// # Errors
/// `Memory`: there is no memory for a name of ORDER BY, or for the cells of a grouped statement.
pub fn rest_fault<F: Predicates>(
    alloc: Global,
    functions: &F,
    aliases: &[SeenAlias<'_>],
    statement: &Statement,
    names: &Meanings,
    by: Sortable<'_>,
    places: &[u32],
) -> Result<Option<BindFault>, Memory>
    requires seen { length statement.now.sources ≤ length aliases.now }
    requires by { sorting by ≡ spec.sorting_of (map seen aliases.now) statement.now }
    requires names { HoldsCells names.now.entries by.cells.now }
    requires places { let calls = calling (F.number_of functions.now) (F.kinds_of functions.now) in
        places.now ≡ places_in (spec.placed_in calls (map seen aliases.now) statement.now) }
    ensures { let calls = calling (F.number_of functions.now) (F.kinds_of functions.now) in
        IfOk result (λ fault. fault ≡ first_of (spec.faults_among calls (map seen aliases.now) statement.now)) }
{
    let selected = selected_fault(aliases, &statement.items);
    let conditions = parts_fault(functions, aliases, statement);
    let groups = groups_fault(aliases, statement.groups.as_slice());
    let grouped = grouped_fault(alloc, aliases, by.keys, statement)?;
    let order = keys_fault(alloc, aliases, names, by, statement.order.as_slice())?;
    let shape = sooner(groups, sooner(grouped, order));
    let rest = sooner(conditions, sooner(extra_fault(places), shape));
    Ok(sooner(selected, rest))
}

// The one output column of a statement's matches: the first column of the first alias.
fn first_output(alloc: Global, aliases: &[SeenAlias<'_>]) -> Result<OutCol, Memory>
    ensures { IfOk result (λ column. column ≡ spec.first_output (map seen aliases.now)) }
{
    let first = ColumnOf {
        alias: 0,
        column: 0,
    };
    let name = SqText::of(alloc, spelled(aliases, first))?;
    Ok(OutCol {
        alias: 0,
        column: 0,
        name,
    })
}

/// The matches of these aliases and conjuncts.
///
/// # Errors
/// `Memory`: there is no memory for them.
pub fn matches_of(
    alloc: Global,
    accesses: &[Access],
    found: &[Option<u32>],
    aliases: &[SeenAlias<'_>],
    placed: Vec<Placed>,
) -> Result<Block, Memory>
    ensures { IfOk result (λ block.
        block ≡ matches_with accesses.now found.now (map seen aliases.now) placed.items) }
{
    let conjuncts = Conjuncts::new(alloc, conjuncts_of(alloc, placed)?)?;
    let mut output = Items::new(alloc);
    output.push(first_output(alloc, aliases)?)?;
    let aliases = uses_of(alloc, accesses, found)?;
    Ok(Block {
        aliases,
        conjuncts,
        output,
        order: Items::new(alloc),
    })
}

/// What is made of the matches, by the columns of GROUP BY and the cells, whose names mean this.
///
/// # Errors
/// `Memory`: there is no memory for the sort keys.
#[tactic(auto, unfolding(crate::specs::Statement::shape_in))]
pub fn shape_of(
    alloc: Global,
    aliases: &[SeenAlias<'_>],
    statement: &Statement,
    names: &Meanings,
    keys: Vec<ColumnOf>,
    cells: Vec<Cell>,
) -> Result<Shape, Memory>
    requires keys { keys.items ≡ spec.grouping_of (map seen aliases.now) statement.now.groups }
    requires cells { cells.items ≡ spec.cells_of (map seen aliases.now) statement.now.items }
    requires names { HoldsCells names.now.entries cells.items }
    ensures { IfOk result (λ shape. shape ≡ spec.shape_in (map seen aliases.now) statement.now) }
{
    let order = order_of(alloc, aliases, names, statement.order.as_slice())?;
    Ok(Shape {
        grouped: is_grouped(statement),
        keys: Items::from_vec(keys),
        cells: Items::from_vec(cells),
        order,
        distinct: statement.distinct,
        limit: statement.limit,
    })
}
