//! Statements worked out by hand, for the binding of names.
//!
//! Cases are lines of text. Each is what is wanted, a bar, and what is asked.

mod sample;
mod shown;
mod statements;
