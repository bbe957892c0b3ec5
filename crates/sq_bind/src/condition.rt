//! Conditions: their faults.

ghost use Rattle.std.specs.Prelude.{◌≡◌, List, [], ◌∷◌, map, IfOk};
ghost use Rattle.std.specs.List.{flat_map};
ghost use Rattle.sq_parse.specs.Tree as tree;
ghost use Rattle.sq_bind.specs.Fault.{first_of};
ghost use Rattle.sq_bind.specs.Operand.{operand_faults, compared_faults, side_of};
ghost use Rattle.sq_expr.specs.declared.cond.Cond.TheVariants as cond;
ghost use Rattle.sq_bind.specs.Condition as spec;
ghost use Rattle.sq_bind.specs.Condition.{calling, tree_faults};
ghost use Rattle.sq_bind.specs.Visible.{Alias, meant};
ghost use Rattle.sq_bind.specs.Seen.{seen};

use crate::fault::{BindFault, sooner};
use crate::operand::{Compared, alone, operand_fault};
use crate::visible::{SeenAlias, resolve};
use sq_parse::{ColRef, Name, Operand, Tree};
use sq_value::{ColType, Kinds, Predicates};

// The place of an operand's first token.
fn begin_of(operand: &Operand) -> u32
    ensures { result ≡ tree.begin_of operand.now }
{
    match operand {
        Operand::Null { at } => *at,
        Operand::Text { at, text: _ } => *at,
        Operand::Sum { at, terms: _ } => *at,
    }
}

fn is_kind(x: ColType, y: ColType) -> bool
    ensures { result ≡ spec.is_kind x y }
{
    x == y
}

fn column_fits(aliases: &[SeenAlias<'_>], kind: ColType, column: &ColRef) -> bool
    ensures { result ≡ spec.column_fits kind (meant (map seen aliases.now) column.now) }
{
    match resolve(aliases, column) {
        Ok(found) => is_kind(found.kind, kind),
        Err(_) => true,
    }
}

// Whether an operand may be an argument of a type. NULL may be of each, and a number is INTEGER.
fn arg_fits(aliases: &[SeenAlias<'_>], kind: ColType, operand: &Operand) -> bool
    ensures { result ≡ spec.arg_fits (map seen aliases.now) kind operand.now }
{
    match operand {
        Operand::Null { at: _ } => true,
        Operand::Text { at: _, text: _ } => is_kind(ColType::Text, kind),
        Operand::Sum { at, terms } => match alone(*at, terms.as_slice()) {
            Some(column) => column_fits(aliases, kind, column),
            None => is_kind(ColType::Integer, kind),
        },
    }
}

// An argument that isn't of its type. One with a fault of its own fits each type.
#[tactic(auto, using(crate::proofs::ConditionLemmas::fits_where_faulty, crate::proofs::ConditionLemmas::fits_where_faultless))]
fn arg_fault(aliases: &[SeenAlias<'_>], kind: ColType, operand: &Operand) -> Option<BindFault>
    ensures { result ≡ first_of (spec.arg_faults (map seen aliases.now) kind operand.now) }
{
    match operand_fault(aliases, operand) {
        Some(_) => None,
        None => mismatch(arg_fits(aliases, kind, operand), begin_of(operand)),
    }
}

fn mismatch(fits: bool, at: u32) -> Option<BindFault>
    ensures { result ≡ first_of (spec.mismatched [] fits at) }
{
    if fits {
        None
    } else {
        Some(BindFault::TypeMismatch { at })
    }
}

// A call has exactly two arguments.
fn count_fault(at: u32, args: &[Operand]) -> Option<BindFault>
    ensures { result ≡ first_of (spec.count_faults at args.now) }
{
    match args {
        [_, _] => None,
        _ => Some(BindFault::WrongArguments { at }),
    }
}

#[tactic(auto, using(crate::proofs::FaultLemmas::two_firsts))]
fn kind_fault(aliases: &[SeenAlias<'_>], kinds: Kinds, args: &[Operand]) -> Option<BindFault>
    ensures { result ≡ first_of (spec.kind_faults (map seen aliases.now) kinds args.now) }
{
    match args {
        [x, y] => sooner(
            arg_fault(aliases, kinds.first, x),
            arg_fault(aliases, kinds.second, y),
        ),
        _ => None,
    }
}

fn function_fault<F: Predicates>(
    functions: &F,
    aliases: &[SeenAlias<'_>],
    function: &Name,
    args: &[Operand],
) -> Option<BindFault>
    ensures { let calls = calling (F.number_of functions.now) (F.kinds_of functions.now) in
        result ≡ first_of (spec.call_faults calls (map seen aliases.now) function.now.at
        (calls.number function.now.text) args.now) }
{
    match functions.find(function.text.as_str()) {
        Some(number) => kind_fault(aliases, functions.kinds(number), args),
        None => Some(BindFault::UnknownFunction { at: function.at }),
    }
}

#[tactic(auto, using(crate::proofs::FaultLemmas::next_fault, crate::proofs::FaultLemmas::sooner_none))]
fn args_fault(aliases: &[SeenAlias<'_>], args: &[Operand]) -> Option<BindFault>
    ensures { result ≡ first_of (flat_map (operand_faults (map seen aliases.now)) args.now) }
{
    let mut fault = None;
    for arg in args {
        fault = sooner(fault, operand_fault(aliases, arg));
    }
    fault
}

#[tactic(auto, using(crate::proofs::FaultLemmas::two_firsts))]
fn call_fault<F: Predicates>(
    functions: &F,
    aliases: &[SeenAlias<'_>],
    function: &Name,
    args: &[Operand],
) -> Option<BindFault>
    ensures { let calls = calling (F.number_of functions.now) (F.kinds_of functions.now) in
        result ≡ first_of (spec.faults_of_call calls (map seen aliases.now) function.now args.now) }
{
    let named = function_fault(functions, aliases, function, args);
    let counted = count_fault(function.at, args);
    sooner(named, sooner(counted, args_fault(aliases, args)))
}

#[tactic(auto, using(crate::proofs::ConditionLemmas::compared_first))]
fn compare_fault(
    aliases: &[SeenAlias<'_>],
    at: u32,
    left: &Operand,
    right: &Operand,
) -> Option<BindFault>
    ensures { result ≡ first_of (compared_faults (map seen aliases.now) at (left.now ∷ right.now ∷ [])) }
{
    Compared::one(aliases, left)
        .and(Compared::one(aliases, right))
        .fault_at(at)
}

#[tactic(auto, using(crate::proofs::ConditionLemmas::compared_first))]
fn between_fault(
    aliases: &[SeenAlias<'_>],
    at: u32,
    subject: &Operand,
    low: &Operand,
    high: &Operand,
) -> Option<BindFault>
    ensures { result ≡ first_of (compared_faults (map seen aliases.now) at (subject.now ∷ low.now ∷ high.now ∷ [])) }
{
    Compared::one(aliases, subject)
        .and(Compared::one(aliases, low).and(Compared::one(aliases, high)))
        .fault_at(at)
}

#[tactic(auto, using(crate::proofs::ConditionLemmas::compared_first))]
fn within_fault(
    aliases: &[SeenAlias<'_>],
    at: u32,
    subject: &Operand,
    items: &[Operand],
) -> Option<BindFault>
    ensures { result ≡ first_of (compared_faults (map seen aliases.now) at (subject.now ∷ items.now)) }
{
    Compared::one(aliases, subject)
        .and(Compared::many(aliases, items))
        .fault_at(at)
}

#[cycle(faults)]
#[tactic(auto, using(crate::proofs::FaultLemmas::next_fault, crate::proofs::FaultLemmas::sooner_none))]
fn parts_fault<F: Predicates>(
    functions: &F,
    aliases: &[SeenAlias<'_>],
    parts: &[Tree],
) -> Option<BindFault>
    ensures { let calls = calling (F.number_of functions.now) (F.kinds_of functions.now) in
        result ≡ first_of (flat_map (tree_faults calls (map seen aliases.now)) parts.now) }
{
    let mut fault = None;
    for part in parts {
        fault = sooner(fault, tree_fault(functions, aliases, part));
    }
    fault
}

/// The first fault of a condition, for those who see these aliases.
#[cycle(faults)]
pub fn tree_fault<F: Predicates>(
    functions: &F,
    aliases: &[SeenAlias<'_>],
    tree: &Tree,
) -> Option<BindFault>
    ensures { let calls = calling (F.number_of functions.now) (F.kinds_of functions.now) in
        result ≡ first_of (tree_faults calls (map seen aliases.now) tree.now) }
{
    match tree {
        Tree::Compare {
            at,
            left,
            cmp: _,
            right,
        } => compare_fault(aliases, *at, left, right),
        Tree::Between {
            at,
            negated: _,
            subject,
            low,
            high,
        } => between_fault(aliases, *at, subject, low, high.get()),
        Tree::Within {
            at,
            negated: _,
            subject,
            items,
        } => within_fault(aliases, *at, subject, items.as_slice()),
        Tree::IsNull {
            at: _,
            negated: _,
            subject,
        } => operand_fault(aliases, subject),
        Tree::Call { function, args } => call_fault(functions, aliases, function, args.as_slice()),
        Tree::Not(part) => tree_fault(functions, aliases, part.get()),
        Tree::All(parts) => parts_fault(functions, aliases, parts.as_slice()),
        Tree::Any(parts) => parts_fault(functions, aliases, parts.as_slice()),
        Tree::Is {
            tree,
            negated: _,
            truth: _,
        } => tree_fault(functions, aliases, tree.get()),
    }
}
