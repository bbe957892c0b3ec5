//! Operands of conditions: their faults, their classes, and the sides and arguments that they bind to.

ghost use Rattle.std.specs.Prelude.{◌≡◌, [], ◌∷◌, map, IfOk, slice_get};
ghost use Rattle.std.specs.List.{flat_map};
ghost use Rattle.std.specs.Option.{option_map};
ghost use Rattle.sq_bind.specs.Fault.{first_of};
ghost use Rattle.sq_bind.specs.Visible.{meant};
ghost use Rattle.sq_bind.specs.Operand as spec;
ghost use Rattle.sq_bind.specs.Seen.{seen};
ghost use Rattle.sq_bind.specs.Compared as compared;
ghost use Rattle.sq_expr.specs.Fits.{class_of};

use crate::fault::{BindFault, sooner};
use crate::visible::{Resolved, SeenAlias, resolve};
use sq_expr::{Arg, ColumnOf, Side, Term};
use sq_parse::{ColRef, Operand, RawTerm, column_place};
use sq_value::{ColType, Memory, SqText, Value};
use sqlite_items::Items;
use std::alloc::Global;

/// What may be compared with each other: numbers, or texts.
#[derive(Clone, Copy, Debug, PartialEq, Eq)]
pub enum Class {
    Number,
    Text,
}

fn class_of(kind: ColType) -> Class
    ensures { compared.class_seen result ≡ class_of kind }
{
    match kind {
        ColType::Integer => Class::Number,
        ColType::Text => Class::Text,
        ColType::Decimal(_) => Class::Number,
    }
}

/// The column of a sum that is one column without a sign or a factor. A sum with a sign begins before
/// its first term.
pub fn alone(at: u32, terms: &[RawTerm]) -> Option<&ColRef>
    ensures { option_map (λ c. c.now) result ≡ spec.alone at terms.now }
{
    let [term] = terms else {
        return None;
    };
    if term.at != at || term.number.is_some() {
        return None;
    }
    term.column.as_ref()
}

/// The fault of a column, where it has one.
pub fn column_fault(aliases: &[SeenAlias<'_>], column: &ColRef) -> Option<BindFault>
    ensures { result ≡ first_of (spec.column_faults (meant (map seen aliases.now) column.now)) }
{
    match resolve(aliases, column) {
        Ok(_) => None,
        Err(fault) => Some(fault),
    }
}

/// The fault of a column in a sum, which is no text.
pub fn number_fault(at: u32, resolved: Result<Resolved, BindFault>) -> Option<BindFault>
    ensures { result ≡ first_of (spec.number_faults at resolved) }
{
    match resolved {
        Ok(found) => match class_of(found.kind) {
            Class::Number => None,
            Class::Text => Some(BindFault::TypeMismatch { at }),
        },
        Err(fault) => Some(fault),
    }
}

fn term_fault(aliases: &[SeenAlias<'_>], term: &RawTerm) -> Option<BindFault>
    ensures { result ≡ first_of (spec.term_faults (map seen aliases.now) term.now.column) }
{
    match &term.column {
        Some(column) => number_fault(column_place(column), resolve(aliases, column)),
        None => None,
    }
}

#[tactic(auto, using(crate::proofs::OperandLemmas::next_term, crate::proofs::FaultLemmas::sooner_none))]
fn terms_fault(aliases: &[SeenAlias<'_>], terms: &[RawTerm]) -> Option<BindFault>
    ensures { result ≡ first_of (compared.terms_faults (map seen aliases.now) terms.now) }
{
    let mut fault = None;
    for term in terms {
        fault = sooner(fault, term_fault(aliases, term));
    }
    fault
}

fn ninth_fault(terms: &[RawTerm]) -> Option<BindFault>
    ensures { result ≡ first_of (spec.ninth_faults (slice_get terms.now 8)) }
{
    match terms.get(8) {
        Some(term) => Some(BindFault::TooManyTerms { at: term.at }),
        None => None,
    }
}

#[tactic(auto, using(crate::proofs::OperandLemmas::sum_first))]
fn sum_fault(aliases: &[SeenAlias<'_>], at: u32, terms: &[RawTerm]) -> Option<BindFault>
    ensures { result ≡ first_of (spec.sum_faults (map seen aliases.now) terms.now (spec.alone at terms.now)) }
{
    match alone(at, terms) {
        Some(column) => column_fault(aliases, column),
        None => sooner(terms_fault(aliases, terms), ninth_fault(terms)),
    }
}

/// The first fault inside an operand.
#[tactic(auto, unfolding(crate::specs::Operand::operand_faults))]
pub fn operand_fault(aliases: &[SeenAlias<'_>], operand: &Operand) -> Option<BindFault>
    ensures { result ≡ first_of (spec.operand_faults (map seen aliases.now) operand.now) }
{
    match operand {
        Operand::Null { at: _ } => None,
        Operand::Text { at: _, text: _ } => None,
        Operand::Sum { at, terms } => sum_fault(aliases, *at, terms.as_slice()),
    }
}

fn column_class(aliases: &[SeenAlias<'_>], column: &ColRef) -> Option<Class>
    ensures { option_map compared.class_seen result ≡ spec.column_class (meant (map seen aliases.now) column.now) }
{
    match resolve(aliases, column) {
        Ok(found) => Some(class_of(found.kind)),
        Err(_) => None,
    }
}

fn sum_class(aliases: &[SeenAlias<'_>], column: Option<&ColRef>) -> Option<Class>
    ensures { option_map compared.class_seen result
        ≡ spec.sum_class (map seen aliases.now) (option_map (λ c. c.now) column.entry) }
{
    match column {
        Some(column) => column_class(aliases, column),
        None => Some(Class::Number),
    }
}

fn form_class(aliases: &[SeenAlias<'_>], operand: &Operand) -> Option<Class>
    ensures { option_map compared.class_seen result ≡ spec.form_class (map seen aliases.now) operand.now }
{
    match operand {
        Operand::Null { at: _ } => None,
        Operand::Text { at: _, text: _ } => Some(Class::Text),
        Operand::Sum { at, terms } => sum_class(aliases, alone(*at, terms.as_slice())),
    }
}

// The class of an operand with this fault or none. An operand with a fault fits each class.
#[tactic(auto, unfolding(crate::specs::Operand::operand_class), using(crate::proofs::OperandLemmas::faulty, crate::proofs::OperandLemmas::faultless))]
fn operand_class(
    aliases: &[SeenAlias<'_>],
    operand: &Operand,
    fault: Option<BindFault>,
) -> Option<Class>
    requires { fault ≡ first_of (spec.operand_faults (map seen aliases.now) operand.now) }
    ensures { option_map compared.class_seen result ≡ spec.operand_class (map seen aliases.now) operand.now }
{
    match fault {
        Some(_) => None,
        None => form_class(aliases, operand),
    }
}

/// Operands that are compared with each other: their first fault, and whether there are numbers and texts
/// among them.
#[derive(Clone, Copy, Debug)]
pub struct Compared {
    fault: Option<BindFault>,
    numbers: bool,
    texts: bool,
}

impl Compared {
    /// One operand.
    pub fn one(aliases: &[SeenAlias<'_>], operand: &Operand) -> Compared
        ensures { result ≡ compared.compared (map seen aliases.now) (operand.now ∷ []) }
    {
        let fault = operand_fault(aliases, operand);
        let class = operand_class(aliases, operand, fault);
        Compared {
            fault,
            numbers: class == Some(Class::Number),
            texts: class == Some(Class::Text),
        }
    }

    /// These operands and, behind them, others.
    pub fn and(self, other: Compared) -> Compared
        ensures { result ≡ compared.joined self other }
    {
        Compared {
            fault: sooner(self.fault, other.fault),
            numbers: self.numbers || other.numbers,
            texts: self.texts || other.texts,
        }
    }

    /// The operands of a list.
    #[tactic(auto, using(crate::proofs::OperandLemmas::next_operand, crate::proofs::OperandLemmas::joined_none))]
    pub fn many(aliases: &[SeenAlias<'_>], operands: &[Operand]) -> Compared
        ensures { result ≡ compared.compared (map seen aliases.now) operands.now }
    {
        let mut all = Compared {
            fault: None,
            numbers: false,
            texts: false,
        };
        for operand in operands {
            all = all.and(Compared::one(aliases, operand));
        }
        all
    }

    /// The first fault of a comparison at a place: one of the operands', or that they are of both classes.
    pub fn fault_at(self, at: u32) -> Option<BindFault>
        ensures { result ≡ compared.fault_at at self }
    {
        if self.numbers && self.texts {
            sooner(self.fault, Some(BindFault::TypeMismatch { at }))
        } else {
            self.fault
        }
    }
}

// What a column is bound to, where it has no fault.
fn column_of(aliases: &[SeenAlias<'_>], column: &ColRef) -> ColumnOf
    ensures { result ≡ spec.found_column (meant (map seen aliases.now) column.now) }
{
    match resolve(aliases, column) {
        Ok(found) => found.column,
        Err(_) => ColumnOf {
            alias: 0,
            column: 0,
        },
    }
}

// A number with a minus in front. Numbers of a script aren't negative, so each has an opposite.
fn minus(number: i64) -> i64
    ensures { result ≡ spec.minus number }
{
    if number == i64::MIN {
        i64::MAX
    } else {
        -number
    }
}

// A number behind its sign. A column without a factor has the factor 1.
fn factor_of(term: &RawTerm) -> i64
    ensures { result ≡ spec.factor_of term.now }
{
    let number = term.number.unwrap_or(1);
    if term.negative { minus(number) } else { number }
}

fn term_of(aliases: &[SeenAlias<'_>], term: &RawTerm) -> Term
    ensures { result ≡ spec.term_of (map seen aliases.now) term.now }
{
    let column = match &term.column {
        Some(column) => Some(column_of(aliases, column)),
        None => None,
    };
    Term {
        factor: factor_of(term),
        column,
    }
}

/// An empty list with room for so many items. A list that grows has up to twice the room that it needs.
///
/// # Errors
/// `Memory`: there is no memory for them.
pub fn with_room<T>(alloc: Global, count: usize) -> Result<Items<T>, Memory>
    ensures { IfOk result (λ items. items ≡ []) }
{
    Ok(Items::from_vec(Vec::with_capacity(alloc, count)?))
}

fn terms_of(
    alloc: Global,
    aliases: &[SeenAlias<'_>],
    terms: &[RawTerm],
) -> Result<Items<Term>, Memory>
    ensures { IfOk result (λ all. all ≡ map (spec.term_of (map seen aliases.now)) terms.now) }
{
    let mut all = with_room(alloc, terms.len())?;
    for term in terms {
        all.push(term_of(aliases, term))?;
    }
    Ok(all)
}

/// The side of a comparison that an operand binds to, where it has no fault.
///
/// # Errors
/// `Memory`: there is no memory for it.
#[tactic(auto, unfolding(crate::specs::Operand::side_of))]
pub fn side_of(alloc: Global, aliases: &[SeenAlias<'_>], operand: &Operand) -> Result<Side, Memory>
    ensures { IfOk result (λ side. side ≡ spec.side_of (map seen aliases.now) operand.now) }
{
    match operand {
        Operand::Null { at: _ } => Ok(Side::Null),
        Operand::Text { at: _, text } => Ok(Side::Text(SqText::of(alloc, text.as_str())?)),
        Operand::Sum { at, terms } => match alone(*at, terms.as_slice()) {
            Some(column) => Ok(Side::Column(column_of(aliases, column))),
            None => Ok(Side::Sum(terms_of(alloc, aliases, terms.as_slice())?)),
        },
    }
}

// The number of the first term.
fn literal_of(terms: &[RawTerm]) -> i64
    ensures { result ≡ spec.literal_of terms.now }
{
    match terms {
        [] => 0,
        [term, ..] => factor_of(term),
    }
}

fn number_arg(number: i64) -> Arg
    ensures { result ≡ spec.number_arg number }
{
    Arg::Literal(Value::Int(number))
}

/// The argument of a predicate that an operand binds to, where it has no fault.
///
/// # Errors
/// `Memory`: there is no memory for it.
#[tactic(auto, unfolding(crate::specs::Operand::arg_of))]
pub fn arg_of(alloc: Global, aliases: &[SeenAlias<'_>], operand: &Operand) -> Result<Arg, Memory>
    ensures { IfOk result (λ arg. arg ≡ spec.arg_of (map seen aliases.now) operand.now) }
{
    match operand {
        Operand::Null { at: _ } => Ok(Arg::Literal(Value::Null)),
        Operand::Text { at: _, text } => Ok(Arg::Literal(Value::Text(SqText::of(
            alloc,
            text.as_str(),
        )?))),
        Operand::Sum { at, terms } => match alone(*at, terms.as_slice()) {
            Some(column) => Ok(Arg::Column(column_of(aliases, column))),
            None => Ok(number_arg(literal_of(terms.as_slice()))),
        },
    }
}
