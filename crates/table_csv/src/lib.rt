//! Tables read from CSV files, as people write them.
#![tactic(auto)]

mod columns;
mod digits;
mod fault;
mod fields;
mod front;
mod heading;
mod marks;
mod once;
mod reading;
mod records;
mod rows;
mod types;

pub use fault::TableFault;
pub use reading::read_table;
