//! `show WORDS`: an answer, which is a table again, in aligned columns or as JSON.

use crate::planning::{command_of, plan_of, query_in};
use crate::refusal::Refusal;
use outside::{Folder, Sink};
use sq_value::Predicates;
use std::alloc::Global;
use table_view::{aligned, as_json};

/// The first table that some words name, in aligned columns or as JSON. Where the script or a table is refused the
/// notes say why.
///
/// # Errors
/// The words aren't of the form; the script or a table is refused; or there is no memory.
pub(crate) fn shown_answer<F: Folder, N: Sink, P: Predicates>(
    alloc: Global,
    json: bool,
    words: &[String],
    functions: &P,
    folder: &mut F,
    notes: &mut N,
) -> Result<String, Refusal> {
    let command = command_of(alloc, words)?;
    let Some(query) = query_in(&command) else {
        return Err(Refusal::Words);
    };
    let plan = plan_of(alloc, query, functions, folder, notes)?;
    let tables = plan.catalogue.tables();
    if tables.len() == 0 {
        return Err(Refusal::Words);
    }
    let table = tables.get(0);
    if json {
        return Ok(as_json(alloc, table)?);
    }
    Ok(aligned(alloc, table)?)
}
