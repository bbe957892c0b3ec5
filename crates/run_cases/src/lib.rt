//! Whole runs, from words and files to bytes and statuses, on worked cases: this crate holds tests alone.
//!
//! A case is a line of text: the words, the script, what fails, and what comes of it.
#![tactic(auto)]

#[cfg(test)]
mod codes;
#[cfg(test)]
mod shipped;
#[cfg(test)]
mod whole;
