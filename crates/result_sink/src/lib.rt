//! The answer of a block in its order, and its text as CSV.
#![tactic(auto)]

mod ahead;
mod arranging;
mod blocks;
mod cell;
mod comparing;
mod counting;
mod fault;
mod field;
mod halving;
mod making;
mod ordering;
mod prefix;
mod record;
mod sorting;
mod spreading;
mod writing;

pub use cell::cell_of;
pub use fault::WriteFault;
pub use field::push_field;
pub use ordering::{in_order, order_law, ordered_by, par_in_order, rises};
pub use record::{finish_record, push_separator};
pub use spreading::{par_write_answer, put_all};
pub use writing::{put_line, write_answer};
