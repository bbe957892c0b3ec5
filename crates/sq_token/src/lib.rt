//! The tokens of scripts, and what each is to the grammar.
#![tactic(auto)]

mod form;
mod mark;
mod piece;
mod quoted;
mod token;

pub use form::Form;
pub use mark::{Mark, is_agg, is_comparison, is_name, is_reckoned, is_sign, mark_of, same};
pub use piece::{Drawn, draw, longest_law};
pub use token::{Span, Token, TokenKind, name_content, text_content, tokens};
