//! The answers of a run: runs the statements of a plan, and puts their answers, or the demo's summary, and
//! their lines of counts.
#![tactic(auto)]

mod answering;
mod apart;
mod counting;
mod engine;
mod finding;
mod settings;
mod stopping;
mod tallying;
mod together;
mod writing;

pub use answering::{put_answers, put_numbered};
pub use counting::put_summary;
pub use engine::Engine;
pub use settings::Settings;
pub use stopping::Stop;
pub use together::{put_answers_together, put_summary_together};
