//! What workers of a board do alike, whatever they route: each works in a thread of its own, a gate sees its turns,
//! and the entries of closed modules come to a log.
#![tactic(auto)]

mod gate;
mod hand;
mod job;
mod join;
mod logged;

pub use gate::{Gate, Moment, NoGate, Watch, Watched};
pub use hand::Hand;
pub use job::{Job, do_all};
pub use join::do_hands;
pub use logged::place_all;
