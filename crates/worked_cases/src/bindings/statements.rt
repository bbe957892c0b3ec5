//! Statements and what binding says of them. A case is a line: what is wanted, a bar, and what is asked.

ghost use Rattle.std.specs.Prelude.{◌≡◌, ◌<◌, length, All, true, false};
ghost use Rattle.sq_parse.specs.Shaped.{is_shaped};
ghost use Rattle.sq_bind.specs.Given.{IsParsed, AreAccesses};

use crate::bindings::sample::{Sample, catalogue};
use crate::bindings::shown::{push_block, push_shape};
use case_kit::{are_ways_of, ways_of_words};
use catalogue::Catalogue;
use sq_bind::{BindFault, Shaped, bind, bind_shape};
use sq_expr::{Access, Block};
use sq_parse::{Statement, is_shaped, parse};
use std::alloc::{AllocError, Global};
use std::test::Fail;

mod blocks;
mod faults;
mod shapes;

/// Cases that have the accesses and the front of their texts in common.
#[derive(Clone, Copy)]
pub struct Group {
    /// The accesses of the tables.
    pub accesses: &'static str,
    /// What each text begins with.
    pub front: &'static str,
    /// The cases, a line each.
    pub cases: &'static str,
}

/// What is asked of a statement that has a block.
#[derive(Clone, Copy)]
enum Asked {
    /// `block` or `shape`, and the number of conjuncts.
    Length,
    /// The block, whole, with the shape where there is one.
    Block,
}

// Puts a fault and its place behind a text.
fn push_fault(text: &mut String, fault: BindFault) -> Result<(), AllocError> {
    let (name, at) = match fault {
        BindFault::UnknownTable { at } => ("UnknownTable", at),
        BindFault::RepeatedAlias { at } => ("RepeatedAlias", at),
        BindFault::UnknownAlias { at } => ("UnknownAlias", at),
        BindFault::UnknownColumn { at } => ("UnknownColumn", at),
        BindFault::AmbiguousColumn { at } => ("AmbiguousColumn", at),
        BindFault::TypeMismatch { at } => ("TypeMismatch", at),
        BindFault::UnknownFunction { at } => ("UnknownFunction", at),
        BindFault::WrongArguments { at } => ("WrongArguments", at),
        BindFault::TooManyAliases { at } => ("TooManyAliases", at),
        BindFault::TooManyConjuncts { at } => ("TooManyConjuncts", at),
        BindFault::TooManyTerms { at } => ("TooManyTerms", at),
        BindFault::NotGrouped { at } => ("NotGrouped", at),
        BindFault::NotSelected { at } => ("NotSelected", at),
        BindFault::Unreachable { alias } => ("Unreachable", u32::from(alias)),
        BindFault::Memory => ("Memory", 0),
    };
    write!(text, "{name} {at}")
}

fn push_plain(text: &mut String, asked: Asked, block: &Block) -> Result<(), AllocError> {
    match asked {
        Asked::Length => write!(text, "block {}", block.conjuncts.len()),
        Asked::Block => push_block(text, block),
    }
}

fn push_shaped(text: &mut String, asked: Asked, shaped: &Shaped) -> Result<(), AllocError> {
    match asked {
        Asked::Length => write!(text, "shape {}", shaped.block.conjuncts.len()),
        Asked::Block => push_shape(text, shaped),
    }
}

// Puts what is said of a statement behind a text.
fn push_statement(
    text: &mut String,
    asked: Asked,
    catalogue: &Catalogue,
    accesses: &[Access],
    statement: &Statement,
) -> Result<(), AllocError>
    requires parsed { IsParsed statement.now }
    requires reached { AreAccesses catalogue.now.tables accesses.now }
{
    let alloc = *text.allocator();
    if is_shaped(statement) {
        match bind_shape(alloc, statement, catalogue, accesses, &Sample) {
            Ok(shaped) => push_shaped(text, asked, &shaped),
            Err(fault) => push_fault(text, fault),
        }
    } else {
        match bind(alloc, statement, catalogue, accesses, &Sample) {
            Ok(block) => push_plain(text, asked, &block),
            Err(fault) => push_fault(text, fault),
        }
    }
}

// Puts what is said of all statements behind a text.
fn push_statements(
    text: &mut String,
    asked: Asked,
    catalogue: &Catalogue,
    accesses: &[Access],
    statements: &[Statement],
) -> Result<(), AllocError>
    requires parsed { All IsParsed statements.now }
    requires reached { AreAccesses catalogue.now.tables accesses.now }
{
    for statement in statements {
        text.push_str(if text.is_empty() { "" } else { "; " })?;
        push_statement(text, asked, catalogue, accesses, statement)?;
    }
    Ok(())
}

// What is said of a text.
fn script_text(
    alloc: Global,
    asked: Asked,
    catalogue: &Catalogue,
    accesses: &[Access],
    text: &[u8],
) -> Result<String, Fail>
    requires short { length text.now < 4294967295 }
    requires reached { AreAccesses catalogue.now.tables accesses.now }
{
    let mut told = String::new(alloc);
    match parse(alloc, text) {
        Ok(script) => {
            let statements = script.statements.as_slice();
            push_statements(&mut told, asked, catalogue, accesses, statements)?;
        }
        Err(fault) => write!(told, "{fault:?}")?,
    }
    Ok(told)
}

// A front, and where more is written, a piece so often and an end.
fn text_of(alloc: Global, front: &str, case: &str) -> Result<String, Fail> {
    let mut parts = case.split('|');
    let mut text = String::from_str(alloc, front)?;
    text.push_str(parts.next().unwrap_or(""))?;
    let piece = parts.next().unwrap_or("");
    let times: u8 = parts.next().unwrap_or("").parse().unwrap_or(0);
    for _ in 0..times {
        text.push_str(piece)?;
    }
    text.push_str(parts.next().unwrap_or(""))?;
    Ok(text)
}

// The first of these cases that isn't right, with what is said of it, or nothing.
fn wrong_case(
    alloc: Global,
    asked: Asked,
    catalogue: &Catalogue,
    accesses: &[Access],
    group: &Group,
) -> Result<String, Fail>
    requires reached { AreAccesses catalogue.now.tables accesses.now }
{
    for line in group.cases.lines() {
        let (want, case) = line.split_once(" | ").unwrap_or(("no bar", ""));
        let text = text_of(alloc, group.front, case)?;
        if text.len() > 99999 {
            return Ok(String::from_str(alloc, "too long")?);
        }
        let told = script_text(alloc, asked, catalogue, accesses, text.as_bytes())?;
        if told.as_str() != want {
            return Ok(format!(in alloc; "{line}: {told}")?);
        }
    }
    Ok(String::new(alloc))
}

fn wrong_of(
    alloc: Global,
    asked: Asked,
    catalogue: &Catalogue,
    group: &Group,
) -> Result<String, Fail> {
    let accesses = ways_of_words(alloc, group.accesses)?;
    if !are_ways_of(catalogue.tables(), accesses.as_slice()) {
        return Ok(String::from_str(alloc, "no accesses")?);
    }
    wrong_case(alloc, asked, catalogue, accesses.as_slice(), group)
}

// Whether all cases of these groups are right. The first that isn't is printed.
fn are_right(
    rt: HostRuntime,
    asked: Asked,
    catalogue: &Catalogue,
    groups: &[Group],
) -> Result<bool, Fail> {
    for group in groups {
        let wrong = wrong_of(rt.alloc(), asked, catalogue, group)?;
        if !wrong.is_empty() {
            println!(rt; "{wrong}")?;
            return Ok(false);
        }
    }
    Ok(true)
}

#[test]
fn statements_are_bound(rt: HostRuntime) -> Result<(), Fail> {
    let catalogue = catalogue(rt.alloc())?;
    assert!(rt; are_right(rt, Asked::Length, &catalogue, &faults::groups())?);
    assert!(rt; are_right(rt, Asked::Block, &catalogue, &blocks::groups())?);
    assert!(rt; are_right(rt, Asked::Length, &catalogue, &shapes::groups())?);
    assert!(rt; are_right(rt, Asked::Block, &catalogue, &shapes::whole())?);
    Ok(())
}

// A statement with so many cells, whose names are one word to the hash of the library's maps, sorted by the last.
fn names_of_one_word(alloc: Global, count: u32) -> Result<String, Fail> {
    let mut text = String::from_str(alloc, "SELECT x AS last")?;
    for number in 0..count {
        let number = 10_000_000 + u64::from(number);
        write!(
            text,
            ", x AS \"auamwgvwmouqottq( 2oah_({number}0123456789abcdef\""
        )?;
    }
    text.push_str(" FROM n ORDER BY last")?;
    Ok(text)
}

// What binding says of it.
fn names_text(alloc: Global, catalogue: &Catalogue, count: u32) -> Result<String, Fail> {
    let accesses = ways_of_words(alloc, "s s s s s s s s s s s s")?;
    if !are_ways_of(catalogue.tables(), accesses.as_slice()) {
        return Ok(String::from_str(alloc, "no accesses")?);
    }
    let text = names_of_one_word(alloc, count)?;
    if text.len() > 9_999_999 {
        return Ok(String::from_str(alloc, "too long")?);
    }
    script_text(
        alloc,
        Asked::Length,
        catalogue,
        accesses.as_slice(),
        text.as_bytes(),
    )
}

#[test]
fn many_names_are_bound(rt: HostRuntime) -> Result<(), Fail> {
    let catalogue = catalogue(rt.alloc())?;
    let told = names_text(rt.alloc(), &catalogue, 20_000)?;
    assert_eq!(rt; told.as_str(), "block 0");
    Ok(())
}
