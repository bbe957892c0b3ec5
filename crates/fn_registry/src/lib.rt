//! Registered predicates: named callables that queries may call, each with the meaning that it was
//! proved to answer.
#![tactic(auto)]

mod adding;
mod calling;
mod fault;
mod functions;
mod registered;
mod shipped;
mod shipped_functions;
mod signature;

pub use fault::AddFault;
pub use functions::Functions;
pub use registered::{Registered, Stored};
pub use shipped::{SHIPPED, divides, near10, same_sign};
pub use shipped_functions::ShippedFunctions;
pub use signature::Signature;
