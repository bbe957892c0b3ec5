//! What is shown of what words ask for.

ghost use Rattle.std.specs.Prelude.{◌≡◌};
ghost use Rattle.fn_registry.specs.ShippedSignatures.{shipped_signatures};
ghost use Rattle.fn_registry.specs.Signatures.{signatures};

use crate::answers::shown_answer;
use crate::explaining::explain;
use crate::refusal::Refusal;
use crate::tables::table_lines;
use crate::words::{Asked, What};
use fn_registry::ShippedFunctions;
use outside::{Folder, Sink};
use std::alloc::Global;

/// What is shown: a text, and pictures as SVG.
#[derive(Drop)]
pub struct Shown {
    /// The text.
    pub text: String,
    /// The pictures, where a file for them is given.
    pub svg: Option<String>,
}

// A text alone.
fn text_alone(text: String) -> Shown {
    Shown { text, svg: None }
}

// What words ask for, with the predicates of eddyql.
pub(crate) fn show<F: Folder, N: Sink>(
    alloc: Global,
    asked: Asked<'_>,
    functions: &ShippedFunctions,
    folder: &mut F,
    notes: &mut N,
) -> Result<Shown, Refusal>
    requires { signatures functions.now.0 ≡ shipped_signatures }
{
    let words = asked.words;
    match asked.what {
        What::Tables => table_lines(alloc, words, functions, folder, notes).map(text_alone),
        What::Aligned => {
            shown_answer(alloc, false, words, functions, folder, notes).map(text_alone)
        }
        What::Json => shown_answer(alloc, true, words, functions, folder, notes).map(text_alone),
        What::Pictures => explain(alloc, words, asked.svg.is_some(), functions, folder, notes),
    }
}
