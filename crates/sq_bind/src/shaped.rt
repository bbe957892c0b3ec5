//! What a shaped statement binds to.

use sq_expr::{Block, Shape};

/// A shaped statement: the block of its matches, and what is made of them.
#[derive(Debug, Drop)]
pub struct Shaped {
    /// The block of its matches.
    pub block: Block,
    /// What is made of the matches.
    pub shape: Shape,
}
