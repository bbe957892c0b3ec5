//! Blocks from text, which fit their tables and are reachable.

ghost use Rattle.std.specs.Prelude.{IfOk, IfSome};
ghost use Rattle.engine_cases.specs.Given.{IsGiven};

use case_kit::block_of_case;
use catalogue::Catalogue;
use sq_expr::Block;
use sq_value::{Memory, NoPredicates};
use std::alloc::Global;

/// The block of the first statement of a text over tables that are reached in these ways, if it has one.
///
/// # Errors
/// There is no memory for it.
pub fn block_of(
    alloc: Global,
    catalogue: &Catalogue,
    ways: &str,
    text: &str,
) -> Result<Option<Block>, Memory>
    ensures { IfOk result (λ block. IfSome block (IsGiven catalogue.now.tables)) }
{
    block_of_case(alloc, catalogue, ways, text, &NoPredicates)
}
