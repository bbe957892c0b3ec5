//! The calls that a policy tells of routings: two for each, the choice and what came back.
//!
//! The definitions stand in specs/, and lemmas of them in proofs/. There is no code.
#![tactic(auto)]
