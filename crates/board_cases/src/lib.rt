//! How a caller works a board of `turn_board`: a small module and item, and the turns of a worker over them.
//!
//! The functions of `sample` show the forms that a caller's contracts take.
#![tactic(auto)]

mod sample;

pub use sample::{Rows, Ticket, board_of, drain, drain_all, enter, look, pass};
