//! The tables of the demo.
#![tactic(auto)]

mod tables;

pub use tables::demo;
