//! The registered predicates of a program.
use crate::registered::Registered;

/// Registered predicates, in the order in which they were added. Each answers the meaning of its
/// number among those of M.
#[derive(Drop)]
pub struct Functions<const M: u32> {
    pub(crate) items: Vec<Registered<M>>,
}
