//! Blocks from the text of a statement.
ghost use Rattle.std.specs.Prelude.{◌≡◌, Some, false, slice_get, IfOk, IfSome};
ghost use Rattle.sq_parse.specs.Shaped.{is_shaped};
ghost use Rattle.sq_expr.specs.Fits.{IsFit};
ghost use Rattle.sq_expr.specs.Reach.{IsReachable};
ghost use Rattle.sq_parse.specs.Spelling.{Spelled};
ghost use Rattle.sq_bind.specs.Answer.{IsBound};
ghost use Rattle.sq_bind.specs.Condition.{calling};
ghost use Rattle.sq_bind.specs.Given.{IsParsed, AreAccesses, over};
ghost use Rattle.case_kit.specs.Blocks.{IsBlockOf};

use crate::ways::{are_ways_of, ways_of_words};
use catalogue::Catalogue;
use sq_bind::{BindFault, bind};
use sq_expr::{Access, Block};
use sq_parse::{ParseFault, Script, Statement, is_shaped, parse};
use sq_value::{Memory, Predicates};
use std::alloc::Global;

// The script of a text, if it spells one.
fn script_of(alloc: Global, text: &str) -> Result<Option<Script>, Memory>
    ensures { IfOk result (λ script. IfSome script (Spelled text.now)) }
{
    if text.len() >= u32::MAX as usize {
        return Err(Memory);
    }
    match parse(alloc, text.as_bytes()) {
        Ok(script) => Ok(Some(script)),
        Err(ParseFault::Memory) => Err(Memory),
        Err(_) => Ok(None),
    }
}

// The block of a statement, if it has one.
fn bound<F: Predicates>(
    alloc: Global,
    catalogue: &Catalogue,
    accesses: &[Access],
    statement: &Statement,
    functions: &F,
) -> Result<Option<Block>, Memory>
    requires parsed { IsParsed statement.now }
    requires plain { is_shaped statement.now ≡ false }
    requires reached { AreAccesses catalogue.now.tables accesses.now }
    ensures bound { let calls = calling (F.number_of functions.now) (F.kinds_of functions.now) in
        IfOk result (λ block. IfSome block (IsBound (over catalogue.now accesses.now calls) statement.now)) }
    ensures fits { IfOk result (λ block. IfSome block (IsFit (F.kinds_of functions.now) catalogue.now.tables)) }
    ensures reachable { IfOk result (λ block. IfSome block IsReachable) }
{
    match bind(alloc, statement, catalogue, accesses, functions) {
        Ok(block) => Ok(Some(block)),
        Err(BindFault::Memory) => Err(Memory),
        Err(_) => Ok(None),
    }
}

/// The block of a text's first statement, where it is bound with these ways of the tables: words with a blank between.
/// None where there is no such block, as for a statement with set functions, GROUP BY, DISTINCT or LIMIT.
///
/// # Errors
/// There is no memory for it.
pub fn block_of_case<F: Predicates>(
    alloc: Global,
    catalogue: &Catalogue,
    ways: &str,
    text: &str,
    functions: &F,
) -> Result<Option<Block>, Memory>
    ensures is { let calls = calling (F.number_of functions.now) (F.kinds_of functions.now) in
        IfOk result (λ block. IfSome block (IsBlockOf catalogue.now calls ways.now text.now)) }
    ensures fits { IfOk result (λ block. IfSome block (IsFit (F.kinds_of functions.now) catalogue.now.tables)) }
    ensures reachable { IfOk result (λ block. IfSome block IsReachable) }
{
    let accesses = ways_of_words(alloc, ways)?;
    let accesses = accesses.as_slice();
    if !are_ways_of(catalogue.tables(), accesses) {
        return Ok(None);
    }
    let Some(script) = script_of(alloc, text)? else {
        return Ok(None);
    };
    let Some(statement) = script.statements.as_slice().first() else {
        return Ok(None);
    };
    if is_shaped(statement) {
        return Ok(None);
    }
    bound(alloc, catalogue, accesses, statement, functions)
}
