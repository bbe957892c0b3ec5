//! Bound conditions and query blocks: what binding makes of a statement, and what the engine runs.
//!
//! Aliases, conjuncts, rows and columns count from 0. The lists and boxes inside these types are
//! seen by contracts as what they hold, so that a definition can build a block.
#![tactic(auto)]

mod block;
mod cond;
mod conjuncts;
mod evaluation;
mod integer_test;
mod membership;
mod operand;
mod prepared;
mod shape;
mod sum;

pub use block::{Access, AliasUse, Block, Conjunct, OrderKey, OutCol};
pub use cond::{Arg, Chosen, ColumnOf, Cond, Side, Term};
pub use conjuncts::Conjuncts;
pub use operand::argument;
pub use shape::{AggKind, Cell, Shape, ShapeOrder, SortOn};
