//! Selections: whether a conjunct is True of a tuple, and what then comes of it.
//!
//! A tuple goes on with the conjunct done where it is True, and is dropped where it is False or Unknown, as SQL-92's
//! WHERE has it. (Avnur and Hellerstein 2000.)
#![tactic(auto)]

mod selection;

pub use selection::{apply, apply_cached};
