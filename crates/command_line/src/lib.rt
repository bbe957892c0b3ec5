//! The words of the command line: what they ask for, where they are in form.
//!
//! Which options there are and how a word is told from an option's value is what `clap` says of a
//! simple command. [`read_command`] adds the conditions on the texts that it gives.
#![tactic(auto)]

mod accesses;
mod command;
mod fault;
mod matching;
mod program;
mod reading;
mod remotes;
mod settings;
mod tables;

pub use command::{AccessWord, Command, PolicyName, Query, RemoteWord, TableWord, Task};
pub use fault::WordsFault;
pub use reading::read_command;
