//! The statements of a run.

use sq_expr::{Block, Shape};

/// A bound statement: the block whose matches its answer is made of, and with groups, DISTINCT or LIMIT
/// what is made of them.
#[derive(Drop)]
pub struct Bound {
    /// The block of its matches.
    pub block: Block,
    /// What is made of the matches by groups, DISTINCT or LIMIT; None where each match is a row of the answer.
    pub shape: Option<Shape>,
}
