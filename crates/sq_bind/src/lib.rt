//! Binding: from the names of a statement to the columns of tables.
#![tactic(auto)]

mod alias;
mod binding;
mod block;
mod columns;
mod condition;
mod conjunct;
mod fault;
mod group;
mod names;
mod operand;
mod order;
mod output;
mod part;
mod plain;
mod reach;
mod select;
mod shaped;
mod source;
mod span;
mod visible;
mod whole;

pub use binding::{bind, bind_shape, one_answer};
pub use fault::BindFault;
pub use shaped::Shaped;
