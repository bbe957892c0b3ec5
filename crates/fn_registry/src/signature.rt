//! What is known of a registered predicate.

use sq_value::{Kinds, SqText};

/// A predicate's name, its number, and the types of its two arguments.
#[derive(Debug, Drop)]
pub struct Signature {
    /// The name that statements call it by.
    pub name: SqText,
    /// Its number, which conditions hold.
    pub number: u8,
    /// The types of its two arguments.
    pub kinds: Kinds,
}
