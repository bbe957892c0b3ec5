//! The meaning of a query block: the product of its tables, the bag of its matches, the answer
//! and its text, and the credit of a match to the latest of its parts to be built.
//!
//! The definitions stand in specs/. [`plain`] is their own program, by nested loops, with which
//! the engine's ways are compared.
#![tactic(auto)]

mod combo;
mod laws;
mod nested;

pub use combo::{Built, Combo};
pub use laws::{answer_laws, bag_law, credit_law};
pub use nested::{plain, uses_of};
