//! What the words of the command line ask for.

ghost use Rattle.std.specs.Prelude.{◌≡◌, ◌⊎◌, Some, None, true, map, IfOk, IfErr};
ghost use Rattle.std.specs.String.{string_bytes};
ghost use Rattle.command_line.specs.Within.{IsTask, HasScansAlone};
ghost use Rattle.run_answers.specs.Settings.{AreSettings};
ghost use Rattle.whole_run.specs.Asked as spec;

use command_line::{Command, RemoteWord, TableWord, Task, WordsFault, read_command};
use run_answers::Settings;
use run_plan::Status;
use std::alloc::Global;

/// What the words ask for: a script over tables or the demo, and how its statements are run.
#[derive(Debug, Drop)]
pub struct Request {
    /// A script over tables, or the demo.
    pub task: Task,
    /// How its statements are run.
    pub settings: Settings,
}

impl Request {
    /// The tables of the words: the demo has none.
    pub fn tables(&self) -> &[TableWord]
        ensures { result.now ≡ spec.tables_in self.now.task }
    {
        match &self.task {
            Task::Query(query) => query.tables.as_slice(),
            Task::Demo { rows: _ } => &[],
        }
    }

    /// The remotes of the words: the demo has none.
    pub fn remotes(&self) -> &[RemoteWord]
        ensures { result.now ≡ spec.remotes_in self.now.task }
    {
        match &self.task {
            Task::Query(query) => query.remotes.as_slice(),
            Task::Demo { rows: _ } => &[],
        }
    }
}

// What a command asks for.
fn request_of(command: Command) -> Request
    ensures { result ≡ spec.request_of command }
{
    let Command {
        workers,
        policy,
        seed,
        route,
        cache,
        tally,
        shared,
        task,
    } = command;
    let settings = Settings {
        workers,
        policy,
        seed,
        route,
        cache,
        tally,
        shared,
    };
    Request { task, settings }
}

/// What the words ask for.
///
/// # Errors
/// `Usage`: exactly where the words aren't in form; or `Memory`.
pub fn asked(alloc: Global, words: &[String]) -> Result<Request, Status>
    ensures ok { IfOk result (λ a. spec.asked (map string_bytes words.now) ≡ Some a) }
    ensures task { IfOk result (λ a. IsTask a.task) }
    ensures settings { IfOk result (λ a. AreSettings a.settings) }
    ensures shared { IfOk result (λ a. a.settings.shared ≡ true → HasScansAlone a.task) }
    ensures refused { IfErr result (λ s. (s ≡ Status.Memory)
        ⊎ ((s ≡ Status.Usage) × (spec.asked (map string_bytes words.now) ≡ None))) }
{
    match read_command(alloc, words) {
        Ok(command) => Ok(request_of(command)),
        Err(WordsFault::OutOfForm) => Err(Status::Usage),
        Err(WordsFault::Memory) => Err(Status::Memory),
    }
}
