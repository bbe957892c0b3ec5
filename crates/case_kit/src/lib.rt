//! What cases are written with: small tables from text, the ways to reach them from words, blocks from the text of a
//! statement, and lists as text.
//!
//! Only the crates of cases stand on it.
#![tactic(auto)]

mod blocks;
mod counted;
mod fault;
mod listing;
mod tables;
mod ways;

pub use blocks::block_of_case;
pub use counted::Counted;
pub use fault::CaseFault;
pub use listing::push_listed;
pub use tables::catalogue_of_lines;
pub use ways::{are_ways_of, ways_of_words};
