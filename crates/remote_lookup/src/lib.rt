//! Remote look-ups: tables of which only the rows of needed keys are loaded.
#![tactic(auto)]

mod asked;
mod asking;
mod asks;
mod integer;
mod key_file;
mod key_set;
mod key_tables;
mod laws;
mod loading;
mod own;
mod query;
mod remote;
mod rounds;

pub use laws::{file_law, filling_law, needed_law, rounds_law, thinning_law};
pub use loading::load_needed;
pub use remote::{KeyFault, Loaded, Remote, RemoteFault, RemoteKey};
