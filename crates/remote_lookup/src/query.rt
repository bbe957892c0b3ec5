//! What is asked, of whom.
use crate::asks::Ask;
use crate::remote::Remote;
use sq_expr::Block;
use sq_value::{Predicates, Tables};

/// A block over tables and remotes, with its predicates and what it asks the remotes by.
#[derive(Drop)]
pub(crate) struct Query<'t, P: Predicates> {
    pub block: &'t Block,
    pub tables: &'t Tables,
    pub remotes: &'t [Remote],
    pub functions: &'t P,
    pub asks: Vec<Ask>,
}
