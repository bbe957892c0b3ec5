//! The grammar and the parser of scripts, whose tokens are sq_token's.
#![tactic(auto)]

mod condition;
mod cursor;
mod names;
mod operand;
mod parser;
mod predicate;
mod select;
mod shaped;
mod statement;
mod stop;
mod tree;

pub use operand::column_place;
pub use parser::{ParseFault, as_read, one_reading, one_tree, parse};
pub use shaped::{is_grouped, is_shaped};
pub use sq_token::{Span, Token, TokenKind, tokens};
pub use tree::{
    ColRef, Item, Items, Name, Operand, OrderItem, RawTerm, Script, Source, Statement, Tree,
};
