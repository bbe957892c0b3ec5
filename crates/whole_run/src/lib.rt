//! The whole run: from the words of the command line to the bytes of the answers, an exit status, and the line of a
//! refusal. The program only hands over the system's words, files and streams.
#![tactic(auto)]

mod asking;
mod host;
mod planning;
pub mod program;
pub mod run;
mod shipping;

pub use asking::{Request, asked};
pub use host::Host;
pub use planning::plan_for;
pub use shipping::program_as_shipped;
