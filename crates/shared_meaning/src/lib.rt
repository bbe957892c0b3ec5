//! Shared runs: one log of rows of tables for several blocks, when a worker of such a run is settled for each block,
//! and what the run must answer.
//!
//! The definitions stand in specs/, and the promises as contracts of functions that do nothing.
#![tactic(auto)]

mod built;
mod laws;

pub use built::TableBuilt;
pub use laws::{act_laws, found_laws, number_laws, place_laws};
