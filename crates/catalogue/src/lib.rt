//! The catalogue: the tables of a run under their names, which are told apart but for the case of
//! ASCII letters.
#![tactic(auto)]

mod catalogue;
mod fault;
mod names;

pub use catalogue::Catalogue;
pub use fault::CatalogueFault;
