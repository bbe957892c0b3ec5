//! Cases worked out by hand, for the public calls of the crates below: this crate holds tests alone.
//!
//! Cases are lines of text. Each is what is wanted, a bar, and what is asked.
#![tactic(auto)]

#[cfg(test)]
mod answers;
#[cfg(test)]
mod bags;
#[cfg(test)]
mod bindings;
#[cfg(test)]
mod boards;
#[cfg(test)]
mod caches;
#[cfg(test)]
mod catalogues;
#[cfg(test)]
mod commands;
#[cfg(test)]
mod conditions;
#[cfg(test)]
mod demos;
#[cfg(test)]
mod folders;
#[cfg(test)]
mod given;
#[cfg(test)]
mod groups;
#[cfg(test)]
mod indexes;
#[cfg(test)]
mod lookups;
#[cfg(test)]
mod notes;
#[cfg(test)]
mod policies;
#[cfg(test)]
mod predicates;
#[cfg(test)]
mod remotes;
#[cfg(test)]
mod scripts;
#[cfg(test)]
mod streams;
#[cfg(test)]
mod tables;
#[cfg(test)]
mod tuples;
#[cfg(test)]
mod values;
