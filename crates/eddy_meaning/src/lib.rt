//! What a tuple owes: the words for tuples, routes and build logs, and the laws of one routing.
//!
//! Every law speaks of one build log and one tuple, whatever made them: the core uses it with its
//! log after a step, and a worker with each log that completes what it has seen. The definitions
//! stand in specs/, and the promises as contracts of functions that do nothing.
//! (Avnur and Hellerstein 2000; Raman, Deshpande and Hellerstein 2003.)
#![tactic(auto)]

mod entry;
mod laws;
mod literal;

pub use entry::Entry;
pub use laws::{module_laws, owed_laws, route_laws, shared_laws};
pub use literal::is_literal;
