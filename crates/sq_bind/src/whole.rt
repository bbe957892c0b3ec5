//! What conditions bind to: one condition for a tree.

ghost use Rattle.std.specs.Prelude.{◌≡◌, [], ◌∷◌, map, IfOk};
ghost use Rattle.sq_bind.specs.Operand.{side_of};
ghost use Rattle.sq_expr.specs.declared.cond.Cond.TheVariants as cond;
ghost use Rattle.sq_bind.specs.Condition as spec;
ghost use Rattle.sq_bind.specs.Condition.{calling, whole_in};
ghost use Rattle.sq_bind.specs.Seen.{seen};

use crate::operand::{arg_of, side_of, with_room};
use crate::visible::SeenAlias;
use sq_expr::Cond;
use sq_parse::{Name, Operand, Tree};
use sq_value::{Cmp, Memory, Predicates, Truth};
use sqlite_items::{Boxed, Items};
use std::alloc::Global;

fn compare_of(
    alloc: Global,
    aliases: &[SeenAlias<'_>],
    left: &Operand,
    cmp: Cmp,
    right: &Operand,
) -> Result<Cond, Memory>
    ensures { IfOk result (λ c. c ≡ cond.Compare (side_of (map seen aliases.now) left.now) cmp
        (side_of (map seen aliases.now) right.now)) }
{
    let left = side_of(alloc, aliases, left)?;
    let right = side_of(alloc, aliases, right)?;
    Ok(Cond::Compare(left, cmp, right))
}

fn negated(alloc: Global, part: Cond) -> Result<Cond, Memory>
    ensures { IfOk result (λ c. c ≡ cond.Not part) }
{
    Ok(Cond::Not(Boxed::new(alloc, part)?))
}

// NOT of a condition, where the text says so.
fn negated_if(alloc: Global, is_negated: bool, part: Cond) -> Result<Cond, Memory>
    ensures { IfOk result (λ c. c ≡ spec.negated_if is_negated part) }
{
    if is_negated {
        negated(alloc, part)
    } else {
        Ok(part)
    }
}

/// The two bounds of a BETWEEN.
///
/// # Errors
/// `Memory`: there is no memory for them.
pub fn bounds_of(
    alloc: Global,
    aliases: &[SeenAlias<'_>],
    subject: &Operand,
    low: &Operand,
    high: &Operand,
) -> Result<(Cond, Cond), Memory>
    ensures { IfOk result (λ c. (c.0 ≡ spec.at_least (map seen aliases.now) subject.now low.now)
        × (c.1 ≡ spec.at_most (map seen aliases.now) subject.now high.now)) }
{
    let at_least = compare_of(alloc, aliases, subject, Cmp::Ge, low)?;
    let at_most = compare_of(alloc, aliases, subject, Cmp::Le, high)?;
    Ok((at_least, at_most))
}

fn all_of_two(alloc: Global, first: Cond, second: Cond) -> Result<Cond, Memory>
    ensures { IfOk result (λ c. c ≡ cond.All (first ∷ second ∷ [])) }
{
    let mut parts = Items::new(alloc);
    parts.push(first)?;
    parts.push(second)?;
    Ok(Cond::All(parts))
}

fn between_of(
    alloc: Global,
    aliases: &[SeenAlias<'_>],
    subject: &Operand,
    low: &Operand,
    high: &Operand,
) -> Result<Cond, Memory>
    ensures { IfOk result (λ c. c ≡ cond.All (spec.at_least (map seen aliases.now) subject.now low.now
        ∷ spec.at_most (map seen aliases.now) subject.now high.now ∷ [])) }
{
    let (at_least, at_most) = bounds_of(alloc, aliases, subject, low, high)?;
    all_of_two(alloc, at_least, at_most)
}

fn equalities_of(
    alloc: Global,
    aliases: &[SeenAlias<'_>],
    subject: &Operand,
    items: &[Operand],
) -> Result<Items<Cond>, Memory>
    ensures { IfOk result (λ all. all ≡ map (spec.equal_to (map seen aliases.now) subject.now) items.now) }
{
    let mut all = with_room(alloc, items.len())?;
    for item in items {
        all.push(compare_of(alloc, aliases, subject, Cmp::Eq, item)?)?;
    }
    Ok(all)
}

// x = a OR x = b, for x IN (a, b); x IN (a) is x = a.
fn within_of(
    alloc: Global,
    aliases: &[SeenAlias<'_>],
    subject: &Operand,
    items: &[Operand],
) -> Result<Cond, Memory>
    ensures { IfOk result (λ c. c ≡ spec.any_equal (map (spec.equal_to (map seen aliases.now) subject.now) items.now)) }
{
    match items {
        [item] => compare_of(alloc, aliases, subject, Cmp::Eq, item),
        _ => Ok(Cond::Any(equalities_of(alloc, aliases, subject, items)?)),
    }
}

fn nothing(alloc: Global) -> Cond
    ensures { result ≡ cond.Any [] }
{
    Cond::Any(Items::new(alloc))
}

fn call_of<F: Predicates>(
    alloc: Global,
    functions: &F,
    aliases: &[SeenAlias<'_>],
    function: &Name,
    args: &[Operand],
) -> Result<Cond, Memory>
    ensures { IfOk result (λ c.
        c ≡ spec.call_of (map seen aliases.now) (F.number_of functions.now function.now.text) args.now) }
{
    let Some(number) = functions.find(function.text.as_str()) else {
        return Ok(nothing(alloc));
    };
    match args {
        [x, y, ..] => {
            let x = arg_of(alloc, aliases, x)?;
            let y = arg_of(alloc, aliases, y)?;
            Ok(Cond::Call(number, x, y))
        }
        _ => Ok(nothing(alloc)),
    }
}

fn between_whole(
    alloc: Global,
    aliases: &[SeenAlias<'_>],
    is_negated: bool,
    subject: &Operand,
    low: &Operand,
    high: &Operand,
) -> Result<Cond, Memory>
    ensures { IfOk result (λ c. c ≡ spec.negated_if is_negated
        (cond.All (spec.at_least (map seen aliases.now) subject.now low.now
        ∷ spec.at_most (map seen aliases.now) subject.now high.now ∷ []))) }
{
    let both = between_of(alloc, aliases, subject, low, high)?;
    negated_if(alloc, is_negated, both)
}

fn within_whole(
    alloc: Global,
    aliases: &[SeenAlias<'_>],
    is_negated: bool,
    subject: &Operand,
    items: &[Operand],
) -> Result<Cond, Memory>
    ensures { IfOk result (λ c. c ≡ spec.negated_if is_negated
        (spec.any_equal (map (spec.equal_to (map seen aliases.now) subject.now) items.now))) }
{
    let any = within_of(alloc, aliases, subject, items)?;
    negated_if(alloc, is_negated, any)
}

fn null_whole(
    alloc: Global,
    aliases: &[SeenAlias<'_>],
    is_negated: bool,
    subject: &Operand,
) -> Result<Cond, Memory>
    ensures { IfOk result (λ c.
        c ≡ spec.negated_if is_negated (cond.IsNull (side_of (map seen aliases.now) subject.now))) }
{
    let side = side_of(alloc, aliases, subject)?;
    negated_if(alloc, is_negated, Cond::IsNull(side))
}

fn is_of(alloc: Global, is_negated: bool, part: Cond, truth: Truth) -> Result<Cond, Memory>
    ensures { IfOk result (λ c. c ≡ spec.negated_if is_negated (cond.Is part truth)) }
{
    let part = Boxed::new(alloc, part)?;
    negated_if(alloc, is_negated, Cond::Is(part, truth))
}

#[cycle(wholes)]
fn wholes_of<F: Predicates>(
    alloc: Global,
    functions: &F,
    aliases: &[SeenAlias<'_>],
    parts: &[Tree],
) -> Result<Items<Cond>, Memory>
    ensures { let calls = calling (F.number_of functions.now) (F.kinds_of functions.now) in
        IfOk result (λ all. all ≡ map (whole_in calls (map seen aliases.now)) parts.now) }
{
    let mut all = with_room(alloc, parts.len())?;
    for part in parts {
        all.push(whole_of(alloc, functions, aliases, part)?)?;
    }
    Ok(all)
}

#[cycle(wholes)]
fn all_whole<F: Predicates>(
    alloc: Global,
    functions: &F,
    aliases: &[SeenAlias<'_>],
    parts: &[Tree],
) -> Result<Cond, Memory>
    ensures { let calls = calling (F.number_of functions.now) (F.kinds_of functions.now) in
        IfOk result (λ c. c ≡ cond.All (map (whole_in calls (map seen aliases.now)) parts.now)) }
{
    Ok(Cond::All(wholes_of(alloc, functions, aliases, parts)?))
}

#[cycle(wholes)]
fn any_whole<F: Predicates>(
    alloc: Global,
    functions: &F,
    aliases: &[SeenAlias<'_>],
    parts: &[Tree],
) -> Result<Cond, Memory>
    ensures { let calls = calling (F.number_of functions.now) (F.kinds_of functions.now) in
        IfOk result (λ c. c ≡ cond.Any (map (whole_in calls (map seen aliases.now)) parts.now)) }
{
    Ok(Cond::Any(wholes_of(alloc, functions, aliases, parts)?))
}

#[cycle(wholes)]
fn not_whole<F: Predicates>(
    alloc: Global,
    functions: &F,
    aliases: &[SeenAlias<'_>],
    part: &Tree,
) -> Result<Cond, Memory>
    ensures { let calls = calling (F.number_of functions.now) (F.kinds_of functions.now) in
        IfOk result (λ c. c ≡ cond.Not (whole_in calls (map seen aliases.now) part.now)) }
{
    let whole = whole_of(alloc, functions, aliases, part)?;
    negated(alloc, whole)
}

#[cycle(wholes)]
fn is_whole<F: Predicates>(
    alloc: Global,
    functions: &F,
    aliases: &[SeenAlias<'_>],
    is_negated: bool,
    part: &Tree,
    truth: Truth,
) -> Result<Cond, Memory>
    ensures { let calls = calling (F.number_of functions.now) (F.kinds_of functions.now) in
        IfOk result (λ c.
        c ≡ spec.negated_if is_negated (cond.Is (whole_in calls (map seen aliases.now) part.now) truth)) }
{
    let whole = whole_of(alloc, functions, aliases, part)?;
    is_of(alloc, is_negated, whole, truth)
}

/// What a tree binds to as one condition.
///
/// # Errors
/// `Memory`: there is no memory for it.
#[cycle(wholes)]
pub fn whole_of<F: Predicates>(
    alloc: Global,
    functions: &F,
    aliases: &[SeenAlias<'_>],
    tree: &Tree,
) -> Result<Cond, Memory>
    ensures { let calls = calling (F.number_of functions.now) (F.kinds_of functions.now) in
        IfOk result (λ c. c ≡ whole_in calls (map seen aliases.now) tree.now) }
{
    match tree {
        Tree::Compare {
            at: _,
            left,
            cmp,
            right,
        } => compare_of(alloc, aliases, left, *cmp, right),
        Tree::Between {
            at: _,
            negated,
            subject,
            low,
            high,
        } => between_whole(alloc, aliases, *negated, subject, low, high.get()),
        Tree::Within {
            at: _,
            negated,
            subject,
            items,
        } => within_whole(alloc, aliases, *negated, subject, items.as_slice()),
        Tree::IsNull {
            at: _,
            negated,
            subject,
        } => null_whole(alloc, aliases, *negated, subject),
        Tree::Call { function, args } => call_of(
            alloc,
            functions,
            aliases,
            function,
            args.as_slice(),
        ),
        Tree::Not(part) => not_whole(alloc, functions, aliases, part.get()),
        Tree::All(parts) => all_whole(alloc, functions, aliases, parts.as_slice()),
        Tree::Any(parts) => any_whole(alloc, functions, aliases, parts.as_slice()),
        Tree::Is {
            tree,
            negated,
            truth,
        } => is_whole(alloc, functions, aliases, *negated, tree.get(), *truth),
    }
}
