//! Answers over remotes: before each statement is run its needed keys are loaded.
#![tactic(auto)]

mod exchanging;
mod halting;
mod statements;

pub use halting::Halt;
pub use statements::put_statements;
