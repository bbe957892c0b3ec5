//! Workers: what each knows of a shared log, when it is settled, what it claimed and fetched, and
//! what stands at the close of all.
//!
//! The definitions stand in specs/, and the promises as contracts of functions that do nothing.
//! (Avnur and Hellerstein 2000; Raman, Deshpande and Hellerstein 2003.)
#![tactic(auto)]

mod laws;

pub use laws::{close_laws, sharing_laws};
