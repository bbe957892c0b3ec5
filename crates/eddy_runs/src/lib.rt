//! Runs: the core as a state and its steps, runs of it, what they are told and answer, and what
//! stands at their end.
//!
//! The definitions stand in specs/, and the promises as contracts of functions that do nothing.
//! (Avnur and Hellerstein 2000; Raman, Deshpande and Hellerstein 2003.)
#![tactic(auto)]

mod event;
mod laws;

pub use event::Event;
pub use laws::{run_laws, work_laws};
