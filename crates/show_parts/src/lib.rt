//! What the companion program shows: the columns of tables, answers in aligned columns or as JSON, and pictures of the
//! eddy at work.
#![tactic(auto)]

mod answers;
mod explaining;
mod planning;
mod predicates;
mod refusal;
mod running;
mod showing;
mod tables;
mod words;

pub use predicates::show_shipped;
pub use refusal::Refusal;
pub use showing::Shown;
pub use words::{Asked, What, read_words};
