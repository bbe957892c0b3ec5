//! What the plan and the answers of a run share: the world that it sees, and the statements that it
//! runs.
#![tactic(auto)]

mod bound;
mod laws;
mod outputs;

pub use bound::Bound;
pub use laws::exchange_law;
pub use outputs::Outputs;
