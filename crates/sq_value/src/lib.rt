//! Values, truth and tables: what every other crate of the engine speaks of.
//!
//! A value is a null, a 64-bit integer, a text or a decimal number. Two values compare under SQL's
//! three truth values. A table is a list of rows over typed columns.
#![tactic(auto)]

mod columns;
mod decimal;
mod decimal_reading;
mod decimal_writing;
mod integer;
mod key;
mod logic;
mod memory;
mod name;
mod order;
mod predicate;
mod table;
mod tables;
mod text;
mod value;

pub use columns::same_columns;
pub use decimal::{Dec, DecFault, millionths, number_law};
pub use decimal_reading::read_decimal;
pub use decimal_writing::{push_decimal, written_law};
pub use integer::{IntFault, read_int};
pub use key::{Key, key_laws, key_of, key_order};
pub use logic::{and, not, or};
pub use memory::Memory;
pub use name::{name_law, same_name};
pub use order::{sort_laws, sort_order};
pub use predicate::{Kinds, NoPredicates, Predicates};
pub use table::{Column, Table};
pub use tables::Tables;
pub use text::SqText;
pub use value::{Cmp, ColType, SortWay, Truth, Value, compare, truth_of_order, two_valued};
