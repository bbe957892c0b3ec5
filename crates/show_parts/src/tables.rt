//! `tables WORDS`: what the columns of tables are read as, and what they hold.

use crate::planning::{command_of, plan_of, query_in};
use crate::refusal::Refusal;
use command_line::TableWord;
use outside::{Folder, Sink};
use sq_value::{Predicates, Tables};
use std::alloc::Global;
use table_view::push_columns;

// The lines of tables, each under its name.
fn lines_of(alloc: Global, tables: &Tables, names: &[TableWord]) -> Result<String, Refusal> {
    let mut text = String::new(alloc);
    for place in 0..tables.len() {
        let name = match names.get(place as usize) {
            Some(it) => it.name.as_str(),
            None => "?",
        };
        push_columns(alloc, &mut text, name, tables.get(place))?;
    }
    Ok(text)
}

/// The lines of the tables that some words name, which are those of the program eddyql, without its demo and its
/// remotes. Where the script or a table is refused the notes say why.
///
/// # Errors
/// The words aren't of the form; the script or a table is refused; or there is no memory.
pub(crate) fn table_lines<F: Folder, N: Sink, P: Predicates>(
    alloc: Global,
    words: &[String],
    functions: &P,
    folder: &mut F,
    notes: &mut N,
) -> Result<String, Refusal> {
    let command = command_of(alloc, words)?;
    let Some(query) = query_in(&command) else {
        return Err(Refusal::Words);
    };
    let plan = plan_of(alloc, query, functions, folder, notes)?;
    lines_of(alloc, plan.catalogue.tables(), query.tables.as_slice())
}
