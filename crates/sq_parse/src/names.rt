//! Reads names and columns.

ghost use Rattle.sq_parse.specs.Reading.{Reads};
ghost use Rattle.sq_parse.specs.Reader as spec;

use crate::cursor::Cursor;
use crate::stop::Stop;
use crate::tree::{ColRef, Name};
use sq_token::{Mark, is_name};
use std::alloc::Global;

/// A name.
#[tactic(auto, unfolding(crate::specs::Reader::name))]
pub fn name(alloc: Global, tokens: &mut Cursor<'_>) -> Result<Name, Stop>
    ensures { Reads (spec.name tokens.old) result tokens.new }
{
    if !is_name(tokens.peek()) {
        return Err(Stop::Syntax);
    }
    let at = tokens.at();
    let text = tokens.content(alloc)?;
    tokens.advance();
    Ok(Name { text, at })
}

/// A column: a name, or two with a dot between.
#[tactic(auto, unfolding(crate::specs::Reader::column))]
pub fn column(alloc: Global, tokens: &mut Cursor<'_>) -> Result<ColRef, Stop>
    ensures { Reads (spec.column tokens.old) result tokens.new }
{
    let first = name(alloc, tokens)?;
    if !tokens.eat(Mark::Dot) {
        return Ok(ColRef {
            alias: None,
            column: first,
        });
    }
    let column = name(alloc, tokens)?;
    Ok(ColRef {
        alias: Some(first),
        column,
    })
}
