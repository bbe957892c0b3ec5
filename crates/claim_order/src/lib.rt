//! In which order the rows of scanned aliases are claimed.
//!
//! A row of an alias that is claimed before another alias has any entry dies at its first probe there. So only the rows
//! of the alias that is claimed last make tuples on the way: it drives the run, as the probe side of a hash join does.
//! [`survey`] looks at some rows of each table and says which alias is to drive, and in what order the others come
//! before it. [`Claims`] is what a run asks for the next alias.
#![tactic(auto)]

mod claims;
mod cost;
mod driver;
mod equality;
mod listing;
mod own;
mod sample;
mod sets;
mod surveying;

pub use claims::{AnyClaims, Claims, ClaimsInOrder, ClaimsInTurn};
pub use listing::{rows_scanned, rows_together};
pub use own::fails_own;
pub use surveying::{claims_for, order_for, survey};
