//! A cache of the answers of registered predicates.
//!
//! A predicate gives one truth of two values, always the same, so an answer may be kept and given again. The cache
//! keeps the latest used answers about integers and nulls, up to a fixed number of them.
#![tactic(auto)]

mod cache;
mod call_key;
mod laws;
mod store;

pub use cache::Cache;
pub use call_key::CallKey;
pub use laws::cache_laws;
