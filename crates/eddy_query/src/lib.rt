//! A query that can be run: a block, with the tables and the predicates that it fits.
//!
//! Whoever makes one shows once that the block fits and is reachable. Whoever runs it asks for nothing more.
#![tactic(auto)]

mod fitting;

pub use fitting::Fitting;
