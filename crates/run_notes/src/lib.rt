//! The line that says on the notes why a run was refused.
#![tactic(auto)]

mod noting;

pub use noting::put_note;
