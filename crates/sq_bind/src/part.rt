//! The conditions of a statement: each of ON sees its own source and those to its left, and WHERE
//! sees all.

ghost use Rattle.std.specs.Prelude.{◌≡◌, ◌≤◌, ◌++◌, List, length, map, IfOk, OnOk};
ghost use Rattle.std.specs.List.{flat_map};
ghost use Rattle.sq_bind.specs.Fault.{first_of};
ghost use Rattle.sq_bind.specs.Condition.{Calls, calling, conjunct_faults};
ghost use Rattle.sq_bind.specs.Visible.{Alias};
ghost use Rattle.sq_bind.specs.Statement as spec;
ghost use Rattle.sq_bind.specs.Statement.{part_conjuncts, part_faults};
ghost use Rattle.sq_bind.specs.Seen.{seen, places_in};
ghost use Rattle.sq_bind.specs.declared.conjunct.Placed.{Placed};

use crate::condition::tree_fault;
use crate::conjunct::{Placed, push_conjuncts, push_places};
use crate::fault::{BindFault, sooner};
use crate::visible::SeenAlias;
use sq_parse::{Source, Statement, Tree};
use sq_value::{Memory, Predicates};
use std::alloc::Global;

fn push_part<F: Predicates>(
    alloc: Global,
    functions: &F,
    aliases: &[SeenAlias<'_>],
    condition: &Option<Tree>,
    placed: &mut Vec<Placed>,
) -> Result<(), Memory>
    ensures { let calls = calling (F.number_of functions.now) (F.kinds_of functions.now) in
        OnOk result (placed.new.items ≡ placed.old.items
        ++ flat_map (part_conjuncts calls) (spec.part_seeing (map seen aliases.now) condition.now)) }
{
    match condition {
        Some(tree) => push_conjuncts(alloc, functions, aliases, tree, placed),
        None => Ok(()),
    }
}

fn push_joins<F: Predicates>(
    alloc: Global,
    functions: &F,
    aliases: &[SeenAlias<'_>],
    sources: &[Source],
    placed: &mut Vec<Placed>,
) -> Result<(), Memory>
    requires { length sources.now ≤ length aliases.now }
    ensures { let calls = calling (F.number_of functions.now) (F.kinds_of functions.now) in
        OnOk result (placed.new.items ≡ placed.old.items
        ++ flat_map (part_conjuncts calls) (spec.joins_from (map seen aliases.now) 0 sources.now)) }
{
    for (index, source) in sources.iter().enumerate() {
        push_part(alloc, functions, &aliases[..index + 1], &source.on, placed)?;
    }
    Ok(())
}

/// The conjuncts of a statement, with their places: those of the ON conditions, and then of WHERE.
///
/// # Errors
/// `Memory`: there is no memory for them.
#[tactic(auto, unfolding(crate::specs::Statement::placed_in, crate::specs::Statement::parts_of))]
pub fn placed_of<F: Predicates>(
    alloc: Global,
    functions: &F,
    aliases: &[SeenAlias<'_>],
    statement: &Statement,
) -> Result<Vec<Placed>, Memory>
    requires { length statement.now.sources ≤ length aliases.now }
    ensures { let calls = calling (F.number_of functions.now) (F.kinds_of functions.now) in
        IfOk result (λ placed. placed.items ≡ spec.placed_in calls (map seen aliases.now) statement.now) }
{
    let mut placed = Vec::new(alloc);
    push_joins(
        alloc,
        functions,
        aliases,
        statement.sources.as_slice(),
        &mut placed,
    )?;
    push_part(alloc, functions, aliases, &statement.condition, &mut placed)?;
    Ok(placed)
}

fn part_fault<F: Predicates>(
    functions: &F,
    aliases: &[SeenAlias<'_>],
    condition: &Option<Tree>,
) -> Option<BindFault>
    ensures { let calls = calling (F.number_of functions.now) (F.kinds_of functions.now) in
        result ≡ first_of (flat_map (part_faults calls) (spec.part_seeing (map seen aliases.now) condition.now)) }
{
    match condition {
        Some(tree) => tree_fault(functions, aliases, tree),
        None => None,
    }
}

fn joins_fault<F: Predicates>(
    functions: &F,
    aliases: &[SeenAlias<'_>],
    sources: &[Source],
) -> Option<BindFault>
    requires { length sources.now ≤ length aliases.now }
    ensures { let calls = calling (F.number_of functions.now) (F.kinds_of functions.now) in
        result ≡ first_of (flat_map (part_faults calls) (spec.joins_from (map seen aliases.now) 0 sources.now)) }
{
    let mut fault = None;
    for (index, source) in sources.iter().enumerate() {
        fault = sooner(
            fault,
            part_fault(functions, &aliases[..index + 1], &source.on),
        );
    }
    fault
}

/// The first fault of the conditions of a statement.
#[tactic(auto, unfolding(crate::specs::Statement::parts_of))]
pub fn parts_fault<F: Predicates>(
    functions: &F,
    aliases: &[SeenAlias<'_>],
    statement: &Statement,
) -> Option<BindFault>
    requires { length statement.now.sources ≤ length aliases.now }
    ensures { let calls = calling (F.number_of functions.now) (F.kinds_of functions.now) in
        result ≡ first_of (flat_map (part_faults calls) (spec.parts_of (map seen aliases.now) statement.now)) }
{
    sooner(
        joins_fault(functions, aliases, statement.sources.as_slice()),
        part_fault(functions, aliases, &statement.condition),
    )
}

fn push_seen_places(condition: &Option<Tree>, places: &mut Vec<u32>) -> Result<(), Memory>
    ensures { (calls : Calls) (aliases : List Alias) → OnOk result (places.new.items
        ≡ places.old.items ++ places_in (flat_map (part_conjuncts calls) (spec.part_seeing aliases condition.now))) }
{
    match condition {
        Some(tree) => push_places(tree, places),
        None => Ok(()),
    }
}

fn push_join_places(sources: &[Source], places: &mut Vec<u32>) -> Result<(), Memory>
    ensures { (calls : Calls) (aliases : List Alias) → OnOk result (places.new.items
        ≡ places.old.items ++ places_in (flat_map (part_conjuncts calls) (spec.joins_from aliases 0 sources.now))) }
{
    for source in sources {
        push_seen_places(&source.on, places)?;
    }
    Ok(())
}

/// The places of a statement's conjuncts. They are known before its conditions are bound, which takes
/// more room than the statement itself where a side has too many terms.
///
/// # Errors
/// `Memory`: there is no memory for them.
pub fn places_of(alloc: Global, statement: &Statement) -> Result<Vec<u32>, Memory>
    ensures { (calls : Calls) (aliases : List Alias)
        → IfOk result (λ places. places.items ≡ places_in (spec.placed_in calls aliases statement.now)) }
{
    let mut places = Vec::new(alloc);
    push_join_places(statement.sources.as_slice(), &mut places)?;
    push_seen_places(&statement.condition, &mut places)?;
    Ok(places)
}

/// The fault of the 49th conjunct, where the conjuncts have these places.
pub fn extra_fault(places: &[u32]) -> Option<BindFault>
    ensures { (placed : List Placed) → places.now ≡ places_in placed → result ≡ first_of (conjunct_faults placed) }
{
    match places.get(48) {
        Some(at) => Some(BindFault::TooManyConjuncts { at: *at }),
        None => None,
    }
}
