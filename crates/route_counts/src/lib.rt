//! A policy that counts, in ten parts of a run, what each route was given and what came of it.
#![tactic(auto)]

mod counter;
mod lane;

pub use counter::Counter;
pub use lane::{LANES, Lane, PARTS, lane_of, meaning_of};
