//! Turns of state modules and of a shared pool, a clock and scan cursors, which several threads share.
//!
//! Threads share a [`Board`] by reference, and each has a [`Seat`] of its own. A seat takes a module
//! out and gives it back, so that one seat has it at a time. While it has it, it draws stamps from
//! the clock for the rows that it enters. It claims rows of the cursors without any turn.
//!
//! What contracts say of a seat is what it knows, its view: `view` and `IsSeatOf` of `specs/Boards`.
#![tactic(auto)]

mod board;
mod claims;
mod deal;
mod kept;
mod lot;
mod making;
mod moves;
mod pool;
mod pool_steps;
mod pool_turns;
mod seat;
mod steps;
mod stock;
mod turns;
mod view;
mod waiting;

pub use board::{Board, Closed, MakeRefused};
pub use kept::Kept;
pub use pool::{Move, Pool, PoolRefused, Stamped};
pub use seat::Seat;
pub use view::{Hold, PoolHold, SeatView};
