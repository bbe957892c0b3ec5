//! Policies: what an eddy asks where each of its tuples goes next.
//!
//! A [`Policy`] is shown a tuple with its legal routes and chooses one, and it is told how many
//! tuples came back. [`Lottery`], [`Pressure`] and [`Greedy`] learn from that (Avnur and Hellerstein 2000),
//! [`RouteScript`] follows given words, [`AnyPolicy`] is one of these four, and a [`Recorder`]
//! keeps the calls that are made of the policy that it holds.
#![tactic(auto)]

mod any_policy;
mod call;
mod cheapest;
mod class;
mod count;
mod fault;
mod greedy;
mod lottery;
mod policy;
mod pressure;
mod recorder;
mod script;
mod word;

pub use any_policy::AnyPolicy;
pub use call::PolicyCall;
pub use fault::ScriptFault;
pub use greedy::Greedy;
pub use lottery::Lottery;
pub use policy::Policy;
pub use pressure::Pressure;
pub use recorder::Recorder;
pub use script::{RouteScript, script_law};
