//! Statements that run together: their blocks, apart from what is made of their matches.

ghost use Rattle.std.specs.Prelude.{◌≡◌, IfOk, length, map};
ghost use Rattle.run_base.specs.declared.bound.Bound.{Bound as TheBound};
ghost use Rattle.run_answers.specs.Joint.{bounds_of};
ghost use Rattle.run_answers.specs.Together.{blocks_in};

use run_base::Bound;
use sq_expr::{Block, Shape};
use sq_value::Memory;
use sqlite_items::Items;
use std::alloc::Global;

/// Statements in order: the block of each, and with groups, DISTINCT or LIMIT what is made of its matches.
#[derive(Drop)]
pub(crate) struct Statements {
    pub blocks: Vec<Block>,
    pub shapes: Vec<Option<Shape>>,
}

/// Takes bound statements apart.
///
/// # Errors
/// There is no memory for the lists.
#[tactic(auto, using(crate::proofs::TogetherLemmas::joined_is))]
pub(crate) fn apart(alloc: Global, mut bounds: Items<Bound>) -> Result<Statements, Memory>
    ensures blocks { IfOk result (λ s. s.blocks.items ≡ blocks_in bounds) }
    ensures shapes { IfOk result (λ s. s.shapes.items ≡ map (λ (b : TheBound). b.shape) bounds) }
    ensures bounds { IfOk result (λ s. bounds_of s ≡ bounds) }
    ensures even { IfOk result (λ s. length s.shapes.items ≡ length s.blocks.items) }
{
    let mut blocks = Vec::new(alloc);
    let mut shapes = Vec::new(alloc);
    while let Some(bound) = bounds.pop() {
        let Bound { block, shape } = bound;
        blocks.push(block)?;
        shapes.push(shape)?;
    }
    blocks.reverse();
    shapes.reverse();
    Ok(Statements { blocks, shapes })
}
