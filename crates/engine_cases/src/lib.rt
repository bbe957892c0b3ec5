//! The engines and their modules on cases worked out by hand: this crate holds tests alone.
//!
//! Tables and statements are lines of text, which are read and bound as the program does it.
#![tactic(auto)]

#[cfg(test)]
mod cached;
#[cfg(test)]
mod cases;
#[cfg(test)]
mod claims;
#[cfg(test)]
mod compared;
#[cfg(test)]
mod core_lines;
#[cfg(test)]
mod core_runs;
#[cfg(test)]
mod crews;
#[cfg(test)]
mod events;
#[cfg(test)]
mod given;
#[cfg(test)]
mod modules;
#[cfg(test)]
mod recorders;
#[cfg(test)]
mod sample;
#[cfg(test)]
mod shared;
#[cfg(test)]
mod shown;
#[cfg(test)]
mod single_calls;
#[cfg(test)]
mod tuples;
#[cfg(test)]
mod wanting;
#[cfg(test)]
mod worker_cached;
#[cfg(test)]
mod workers;
