//! The conjuncts of conditions, with their places.

ghost use Rattle.std.specs.Prelude.{◌≡◌, List, [], ◌∷◌, ◌++◌, map, OnOk};
ghost use Rattle.std.specs.List.{flat_map};
ghost use Rattle.sq_bind.specs.Condition as spec;
ghost use Rattle.sq_bind.specs.Condition.{Calls, calling, split_of, whole_in, conjuncts_in};
ghost use Rattle.sq_parse.specs.declared.tree.Tree.TheVariants as parsed;
ghost use Rattle.sq_bind.specs.Visible.{Alias};
ghost use Rattle.sq_bind.specs.Seen.{seen, places_in, between_places};

use crate::visible::SeenAlias;
use crate::whole::{bounds_of, whole_of};
use sq_expr::Cond;
use sq_parse::{Operand, Tree};
use sq_value::{Memory, Predicates};
use std::alloc::Global;

/// A condition, and the place of its first operand or function name.
#[derive(Debug, Drop)]
pub struct Placed {
    /// The place of its first operand or function name, in bytes from 0.
    pub at: u32,
    /// The condition.
    pub cond: Cond,
}

#[cycle(places)]
fn first_place(parts: &[Tree]) -> u32
    ensures { (calls : Calls) (aliases : List Alias) → result ≡ spec.first_at (map (split_of calls aliases) parts.now) }
{
    match parts {
        [] => 0,
        [part, ..] => place_of(part),
    }
}

// The place of the first operand or function name of a condition.
#[cycle(places)]
fn place_of(tree: &Tree) -> u32
    ensures { (calls : Calls) (aliases : List Alias) → result ≡ (split_of calls aliases tree.now).at }
{
    match tree {
        Tree::Compare {
            at,
            left: _,
            cmp: _,
            right: _,
        } => *at,
        Tree::Between {
            at,
            negated: _,
            subject: _,
            low: _,
            high: _,
        } => *at,
        Tree::Within {
            at,
            negated: _,
            subject: _,
            items: _,
        } => *at,
        Tree::IsNull {
            at,
            negated: _,
            subject: _,
        } => *at,
        Tree::Call { function, args: _ } => function.at,
        Tree::Not(part) => place_of(part.get()),
        Tree::All(parts) => first_place(parts.as_slice()),
        Tree::Any(parts) => first_place(parts.as_slice()),
        Tree::Is {
            tree,
            negated: _,
            truth: _,
        } => place_of(tree.get()),
    }
}

// Puts a condition that isn't split behind the others.
fn push_whole<F: Predicates>(
    alloc: Global,
    functions: &F,
    aliases: &[SeenAlias<'_>],
    tree: &Tree,
    placed: &mut Vec<Placed>,
) -> Result<(), Memory>
    ensures { let calls = calling (F.number_of functions.now) (F.kinds_of functions.now) in
        OnOk result (placed.new.items ≡ placed.old.items
        ++ record {
          at = (split_of calls (map seen aliases.now) tree.now).at;
          cond = whole_in calls (map seen aliases.now) tree.now;
        } ∷ []) }
{
    let at = place_of(tree);
    let cond = whole_of(alloc, functions, aliases, tree)?;
    placed.push(Placed { at, cond })?;
    Ok(())
}

// The bounds of a BETWEEN, which stand at its place.
fn push_bounds(
    alloc: Global,
    aliases: &[SeenAlias<'_>],
    at: u32,
    subject: &Operand,
    low: &Operand,
    high: &Operand,
    placed: &mut Vec<Placed>,
) -> Result<(), Memory>
    ensures { OnOk result (placed.new.items ≡ placed.old.items
        ++ record { at = at; cond = spec.at_least (map seen aliases.now) subject.now low.now }
        ∷ record { at = at; cond = spec.at_most (map seen aliases.now) subject.now high.now } ∷ []) }
{
    let (at_least, at_most) = bounds_of(alloc, aliases, subject, low, high)?;
    placed.push(Placed { at, cond: at_least })?;
    placed.push(Placed { at, cond: at_most })?;
    Ok(())
}

// A BETWEEN is two conjuncts at its own place, and one where it is denied.
fn push_between<F: Predicates>(
    alloc: Global,
    functions: &F,
    aliases: &[SeenAlias<'_>],
    tree: &Tree,
    between: (u32, bool, &Operand, &Operand, &Operand),
    placed: &mut Vec<Placed>,
) -> Result<(), Memory>
    requires { tree.now ≡ parsed.Between between.0 between.1 between.2.now between.3.now between.4.now }
    ensures { let calls = calling (F.number_of functions.now) (F.kinds_of functions.now) in
        OnOk result (placed.new.items ≡ placed.old.items ++ conjuncts_in calls (map seen aliases.now) tree.now) }
{
    let (at, is_negated, subject, low, high) = between;
    if is_negated {
        push_whole(alloc, functions, aliases, tree, placed)
    } else {
        push_bounds(alloc, aliases, at, subject, low, high, placed)
    }
}

#[cycle(push)]
fn push_parts<F: Predicates>(
    alloc: Global,
    functions: &F,
    aliases: &[SeenAlias<'_>],
    parts: &[Tree],
    placed: &mut Vec<Placed>,
) -> Result<(), Memory>
    ensures { let calls = calling (F.number_of functions.now) (F.kinds_of functions.now) in
        OnOk result (placed.new.items
        ≡ placed.old.items ++ flat_map (conjuncts_in calls (map seen aliases.now)) parts.now) }
{
    for part in parts {
        push_conjuncts(alloc, functions, aliases, part, placed)?;
    }
    Ok(())
}

/// Puts the conjuncts of a condition behind the others: it is split at its topmost ANDs.
///
/// # Errors
/// `Memory`: there is no memory for them. Some of them may stand behind the others then.
#[cycle(push)]
pub fn push_conjuncts<F: Predicates>(
    alloc: Global,
    functions: &F,
    aliases: &[SeenAlias<'_>],
    tree: &Tree,
    placed: &mut Vec<Placed>,
) -> Result<(), Memory>
    ensures { let calls = calling (F.number_of functions.now) (F.kinds_of functions.now) in
        OnOk result (placed.new.items ≡ placed.old.items ++ conjuncts_in calls (map seen aliases.now) tree.now) }
{
    match tree {
        Tree::Between {
            at,
            negated,
            subject,
            low,
            high,
        } => {
            let between = (*at, *negated, subject, low, high.get());
            push_between(alloc, functions, aliases, tree, between, placed)
        }
        Tree::All(parts) => push_parts(alloc, functions, aliases, parts.as_slice(), placed),
        Tree::Compare {
            at: _,
            left: _,
            cmp: _,
            right: _,
        } => push_whole(alloc, functions, aliases, tree, placed),
        Tree::Within {
            at: _,
            negated: _,
            subject: _,
            items: _,
        } => push_whole(alloc, functions, aliases, tree, placed),
        Tree::IsNull {
            at: _,
            negated: _,
            subject: _,
        } => push_whole(alloc, functions, aliases, tree, placed),
        Tree::Call {
            function: _,
            args: _,
        } => push_whole(alloc, functions, aliases, tree, placed),
        Tree::Not(_) => push_whole(alloc, functions, aliases, tree, placed),
        Tree::Any(_) => push_whole(alloc, functions, aliases, tree, placed),
        Tree::Is {
            tree: _,
            negated: _,
            truth: _,
        } => push_whole(alloc, functions, aliases, tree, placed),
    }
}

// Puts the place of a condition that isn't split behind the others.
fn push_whole_place(tree: &Tree, places: &mut Vec<u32>) -> Result<(), Memory>
    ensures { (calls : Calls) (aliases : List Alias)
        → OnOk result (places.new.items ≡ places.old.items ++ (split_of calls aliases tree.now).at ∷ []) }
{
    places.push(place_of(tree))?;
    Ok(())
}

// Puts the places of a BETWEEN behind the others: two, and one where it is denied.
fn push_between_places(at: u32, is_negated: bool, places: &mut Vec<u32>) -> Result<(), Memory>
    ensures { OnOk result (places.new.items ≡ places.old.items ++ between_places at is_negated) }
{
    places.push(at)?;
    if !is_negated {
        places.push(at)?;
    }
    Ok(())
}

#[cycle(mark)]
fn push_all_places(parts: &[Tree], places: &mut Vec<u32>) -> Result<(), Memory>
    ensures { (calls : Calls) (aliases : List Alias) → OnOk result (places.new.items
        ≡ places.old.items ++ places_in (flat_map (conjuncts_in calls aliases) parts.now)) }
{
    for part in parts {
        push_places(part, places)?;
    }
    Ok(())
}

/// Puts the places of the conjuncts of a condition behind the others.
///
/// # Errors
/// `Memory`: there is no memory for them. Some of them may stand behind the others then.
#[cycle(mark)]
pub fn push_places(tree: &Tree, places: &mut Vec<u32>) -> Result<(), Memory>
    ensures { (calls : Calls) (aliases : List Alias) → OnOk result (places.new.items
        ≡ places.old.items ++ places_in (conjuncts_in calls aliases tree.now)) }
{
    match tree {
        Tree::Between {
            at,
            negated,
            subject: _,
            low: _,
            high: _,
        } => push_between_places(*at, *negated, places),
        Tree::All(parts) => push_all_places(parts.as_slice(), places),
        Tree::Compare {
            at: _,
            left: _,
            cmp: _,
            right: _,
        } => push_whole_place(tree, places),
        Tree::Within {
            at: _,
            negated: _,
            subject: _,
            items: _,
        } => push_whole_place(tree, places),
        Tree::IsNull {
            at: _,
            negated: _,
            subject: _,
        } => push_whole_place(tree, places),
        Tree::Call {
            function: _,
            args: _,
        } => push_whole_place(tree, places),
        Tree::Not(_) => push_whole_place(tree, places),
        Tree::Any(_) => push_whole_place(tree, places),
        Tree::Is {
            tree: _,
            negated: _,
            truth: _,
        } => push_whole_place(tree, places),
    }
}
