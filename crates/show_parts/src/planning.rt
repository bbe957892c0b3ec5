//! What words ask for, and its plan: the script is parsed, the tables are loaded, and the statements are bound, as the
//! program eddyql does it.

ghost use Rattle.std.specs.Prelude.{All, IfOk, IfSome};
ghost use Rattle.command_line.specs.Within.{IsQuery, IsTask, IsWithin};
ghost use Rattle.run_base.specs.Runnable.{IsRunnable};

use crate::refusal::Refusal;
use command_line::{Command, Query, Task, WordsFault, read_command};
use outside::{Folder, Sink};
use run_notes::put_note;
use run_plan::{Plan, prepare};
use sq_value::Predicates;
use std::alloc::Global;

/// The command that some words are.
///
/// # Errors
/// The words aren't of the form, or there is no memory.
pub(crate) fn command_of(alloc: Global, words: &[String]) -> Result<Command, Refusal>
    ensures { IfOk result IsWithin }
{
    match read_command(alloc, words) {
        Ok(command) => Ok(command),
        Err(WordsFault::OutOfForm) => Err(Refusal::Words),
        Err(WordsFault::Memory) => Err(Refusal::Memory),
    }
}

/// The query of a command, if it isn't the demo.
pub(crate) fn query_in(command: &Command) -> Option<&Query>
    requires { IsTask command.now.task }
    ensures { IfSome result (λ query. IsQuery query.now) }
{
    match &command.task {
        Task::Query(query) => Some(query),
        Task::Demo { rows: _ } => None,
    }
}

/// The plan of a query without remotes. Where the script or a table is refused the notes say why.
///
/// # Errors
/// The query has remotes; the script or a table is refused; or there is no memory.
pub(crate) fn plan_of<F: Folder, N: Sink, P: Predicates>(
    alloc: Global,
    query: &Query,
    functions: &P,
    folder: &mut F,
    notes: &mut N,
) -> Result<Plan, Refusal>
    requires { IsQuery query.now }
    ensures { IfOk result (λ plan.
        All (IsRunnable (P.kinds_of functions.now) plan.catalogue.tables) plan.statements) }
{
    if !query.remotes.is_empty() {
        return Err(Refusal::Words);
    }
    match prepare(alloc, query, folder, functions) {
        Ok(plan) => Ok(plan),
        Err(status) => {
            let tables = query.tables.as_slice();
            let remotes = query.remotes.as_slice();
            Err(Refusal::Noted(put_note(alloc, tables, remotes, status, notes)))
        }
    }
}
