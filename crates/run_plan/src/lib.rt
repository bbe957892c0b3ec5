//! The plan of a run: what a script over its tables, or the demo, is prepared to, or the status of the
//! first refusal.
#![tactic(auto)]

mod accesses;
mod demoing;
mod loading;
mod opening;
mod plan;
mod preparing;
mod refusing;
mod status;

pub use demoing::prepare_demo;
pub use plan::Plan;
pub use preparing::prepare;
pub use refusing::remote_status;
pub use status::{FileOf, LimitOf, Stage, Status};
