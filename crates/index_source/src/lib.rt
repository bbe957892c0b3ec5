//! Look-ups: the rows of a table that have a key in a column.
//!
//! A look-up is the access module that brings the rows of a key in (Raman, Deshpande and
//! Hellerstein 2003).
#![tactic(auto)]

mod laws;
mod lookup;

pub use laws::lookup_law;
pub use lookup::Lookup;
