//! A picture of one run of the eddy: what each route was given and what came of it, in ten parts of
//! the run, as text and as SVG.
#![tactic(auto)]

mod condition;
mod figures;
mod labels;
mod svg;
mod text;

pub use figures::{Figures, Row, figures_of, percent};
pub use labels::Scope;
pub use svg::{push_svg, svg_file};
pub use text::text_of;
