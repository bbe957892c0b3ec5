//! A table for the eye: its columns and what they hold, its rows in aligned columns, and its rows as JSON.
#![tactic(auto)]

mod alignment;
mod columns;
mod json;
mod values;

pub use alignment::aligned;
pub use columns::push_columns;
pub use json::as_json;
