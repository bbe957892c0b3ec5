//! The calls of a policy, as a recorder keeps them.

use arrayvec::ArrayVec;
use tuple_span::{Route, Tuple};

/// A call that was made of a policy.
#[derive(Debug, Drop)]
pub enum PolicyCall {
    /// For a tuple, among its legal routes, the one at a place was chosen.
    Chose {
        tuple: Tuple,
        legal: ArrayVec<Route, 128>,
        choice: usize,
    },
    /// It was told that so many tuples came of a route.
    Returned {
        route: Route,
        count: u64,
    },
}
