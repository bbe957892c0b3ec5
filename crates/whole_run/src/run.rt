//! The top call: from words, files and an output to a status.

ghost use Rattle.std.specs.Prelude.{◌≡◌, ◌≢◌, ◌∷◌, [], ℕ, true, List, Some, All, map};
ghost use Rattle.std.specs.String.{string_bytes};
ghost use Rattle.outside.specs.Faults.{NeverFalls};
ghost use Rattle.command_line.specs.Within.{IsTask, HasScansAlone};
ghost use Rattle.run_base.specs.Runnable.{IsRunnable};
ghost use Rattle.remote_answers.specs.Answered.{AnsweredTo};
ghost use Rattle.run_base.specs.Seen.{folder_seen, world_seen};
ghost use Rattle.run_plan.specs.Open.{HasRemotes};
ghost use Rattle.run_plan.specs.Prepared.{predicates};
ghost use Rattle.run_notes.specs.Note.{NotesOf, names_of};
ghost use Rattle.run_answers.specs.Answering.{Answers};
ghost use Rattle.run_answers.specs.Settings.{AreSettings};
ghost use Rattle.run_answers.specs.Tally.{IsTally};
ghost use Rattle.run_answers.specs.Together.{IsBundleTally, IsSharedTally, blocks_in, in_bundles, bundles_of};
ghost use Rattle.shared_eddy.specs.Sharing.{CanShare};
ghost use Rattle.whole_run.specs.Asked.{loads_none, are_fileless};
ghost use Rattle.whole_run.specs.Asked as asking;
ghost use Rattle.whole_run.specs.Ending as ending;
ghost use Rattle.whole_run.specs.Ending.{Finished, Ran, RanAlone, RanOver};
ghost use Rattle.whole_run.specs.Headline.{Headline};
ghost use Rattle.whole_run.specs.Outcome.{OneOutcome, items_of, task_text};

use crate::asking::{Request, asked};
use crate::host::Host;
use crate::planning::plan_for;
use command_line::{RemoteWord, TableWord, Task};
use eddy_worker::Gate;
use outside::{Folder, Sink};
use remote_answers::{Halt, put_statements};
use run_answers::{
    Engine, Stop, put_answers, put_answers_together, put_summary, put_summary_together,
};
use run_base::Outputs;
use run_notes::put_note;
use run_plan::{Plan, Status, remote_status};
use sq_value::Predicates;
use std::alloc::Global;
use std::sync::Wait;
use std::thread::Threads;

// How a run ended but for its note: by a status, or by a fault of the notes, to which nothing more is
// put.
#[derive(Clone, Copy, Debug, PartialEq, Eq)]
pub enum End {
    By(Status),
    ByNotes,
}

// Runs the statements of a plan one after another, and puts their answers, or the demo's summary, and their lines of
// counts.
fn put_each<O: Sink, N: Sink, P: Predicates + Sync, G: Gate, R: Threads + Wait + Sync>(
    engine: &Engine<'_, P, G, R>,
    task: &Task,
    plan: &Plan,
    outputs: &mut Outputs<O, N>,
) -> Result<(), Stop>
    requires run { All (IsRunnable (P.kinds_of engine.now.functions.now) plan.now.catalogue.tables)
        plan.now.statements }
    requires settings { AreSettings engine.now.settings.now }
    ensures { Answers engine.now.settings.now.tally
        (IsTally engine.now.settings.now.cache P.gives) 1 (items_of plan.now)
        (task_text task.now P.gives) outputs.old outputs.new result }
{
    let statements = plan.statements.as_slice();
    let tables = plan.catalogue.tables();
    match task {
        Task::Query(_) => put_answers(engine, statements, tables, outputs),
        Task::Demo { rows: _ } => put_summary(engine, statements, tables, outputs),
    }
}

// Runs the statements of a plan together, and puts their answers, or the demo's summary, and their one line of counts.
fn put_together<O: Sink, N: Sink, P: Predicates + Sync, G: Gate, R: Threads + Wait + Sync>(
    engine: &Engine<'_, P, G, R>,
    task: &Task,
    plan: Plan,
    outputs: &mut Outputs<O, N>,
) -> Result<(), Stop>
    requires run { All (IsRunnable (P.kinds_of engine.now.functions.now) plan.catalogue.tables) plan.statements }
    requires shared { CanShare (blocks_in plan.statements) plan.catalogue.tables }
    requires settings { AreSettings engine.now.settings.now }
    ensures { Answers engine.now.settings.now.tally (IsSharedTally P.gives) 1 (items_of plan ∷ [])
        (λ bundles. task_text task.now P.gives (in_bundles bundles)) outputs.old outputs.new result }
{
    let Plan {
        statements,
        catalogue,
        remotes: _,
    } = plan;
    let tables = catalogue.tables();
    match task {
        Task::Query(_) => put_answers_together(engine, statements, tables, outputs),
        Task::Demo { rows: _ } => put_summary_together(engine, statements, tables, outputs),
    }
}

// Runs a plan, and puts its answers, or the demo's summary, and its lines of counts.
fn put_task<O: Sink, N: Sink, P: Predicates + Sync, G: Gate, R: Threads + Wait + Sync>(
    engine: &Engine<'_, P, G, R>,
    task: &Task,
    plan: Plan,
    outputs: &mut Outputs<O, N>,
) -> Result<(), Stop>
    requires run { All (IsRunnable (P.kinds_of engine.now.functions.now) plan.catalogue.tables) plan.statements }
    requires shared { engine.now.settings.now.shared ≡ true
        → CanShare (blocks_in plan.statements) plan.catalogue.tables }
    requires settings { AreSettings engine.now.settings.now }
    ensures { let shared = engine.now.settings.now.shared in
        Answers engine.now.settings.now.tally (IsBundleTally shared engine.now.settings.now.cache P.gives) 1
        (bundles_of shared (items_of plan)) (λ bundles. task_text task.now P.gives (in_bundles bundles))
        outputs.old outputs.new result }
{
    if engine.settings.shared {
        return put_together(engine, task, plan, outputs);
    }
    put_each(engine, task, &plan, outputs)
}

// How a run ends by its answers.
fn end_with(answered: Result<(), Stop>) -> End
    ensures { result ≡ ending.end_with answered }
{
    match answered {
        Ok(()) => End::By(Status::Done),
        Err(Stop::Output) => End::By(Status::Write),
        Err(Stop::Notes) => End::ByNotes,
        Err(Stop::Memory) => End::By(Status::Memory),
    }
}

// Runs a plan without remotes, and says how that ended.
fn run_alone<O: Sink, N: Sink, P: Predicates + Sync, G: Gate, R: Threads + Wait + Sync>(
    engine: &Engine<'_, P, G, R>,
    task: &Task,
    plan: Plan,
    outputs: &mut Outputs<O, N>,
) -> End
    requires run { All (IsRunnable (P.kinds_of engine.now.functions.now) plan.catalogue.tables) plan.statements }
    requires shared { engine.now.settings.now.shared ≡ true
        → CanShare (blocks_in plan.statements) plan.catalogue.tables }
    requires settings { AreSettings engine.now.settings.now }
    ensures { RanAlone engine.now.settings.now P.gives task.now plan outputs.old outputs.new result }
{
    end_with(put_task(engine, task, plan, outputs))
}

// Runs the statements of a plan with remotes one after another: before each its needed keys are loaded.
fn put_over<F: Folder, O: Sink, N: Sink, P: Predicates + Sync, G: Gate, R: Threads + Wait + Sync>(
    engine: &Engine<'_, P, G, R>,
    plan: Plan,
    folder: &mut F,
    outputs: &mut Outputs<O, N>,
) -> Result<(), Halt>
    requires run { All (IsRunnable (P.kinds_of engine.now.functions.now) plan.catalogue.tables) plan.statements }
    requires remotes { HasRemotes plan }
    requires settings { AreSettings engine.now.settings.now }
    ensures keeps { F.holds folder.new ≡ F.holds folder.old }
    ensures counts { NeverFalls (F.faults folder.old) (F.faults folder.new) }
    ensures answered { AnsweredTo engine.now.settings.now P.gives plan.catalogue.tables plan.remotes plan.statements
        (folder_seen (F.holds folder.old) (F.faults folder.old))
        (folder_seen (F.holds folder.new) (F.faults folder.new)) outputs.old outputs.new result }
{
    let Plan {
        statements,
        mut catalogue,
        remotes,
    } = plan;
    let bounds = statements.as_slice();
    put_statements(
        engine,
        bounds,
        &mut catalogue,
        remotes.as_slice(),
        folder,
        outputs,
    )
}

// Runs a plan with remotes, and says how that ended.
fn run_over<F: Folder, O: Sink, N: Sink, P: Predicates + Sync, G: Gate, R: Threads + Wait + Sync>(
    engine: &Engine<'_, P, G, R>,
    plan: Plan,
    folder: &mut F,
    outputs: &mut Outputs<O, N>,
) -> End
    requires run { All (IsRunnable (P.kinds_of engine.now.functions.now) plan.catalogue.tables) plan.statements }
    requires remotes { HasRemotes plan }
    requires settings { AreSettings engine.now.settings.now }
    ensures keeps { F.holds folder.new ≡ F.holds folder.old }
    ensures counts { NeverFalls (F.faults folder.old) (F.faults folder.new) }
    ensures over { RanOver engine.now.settings.now P.gives plan
        (folder_seen (F.holds folder.old) (F.faults folder.old))
        (folder_seen (F.holds folder.new) (F.faults folder.new)) outputs.old outputs.new result }
{
    match put_over(engine, plan, folder, outputs) {
        Ok(()) => end_with(Ok(())),
        Err(Halt::Refused(fault)) => End::By(remote_status(fault)),
        Err(Halt::Stopped(stop)) => end_with(Err(stop)),
    }
}

// Runs a plan.
fn run_any<F: Folder, O: Sink, N: Sink, P: Predicates + Sync, G: Gate, R: Threads + Wait + Sync>(
    engine: &Engine<'_, P, G, R>,
    task: &Task,
    plan: Plan,
    folder: &mut F,
    outputs: &mut Outputs<O, N>,
) -> End
    requires run { All (IsRunnable (P.kinds_of engine.now.functions.now) plan.catalogue.tables) plan.statements }
    requires remotes { HasRemotes plan }
    requires shared { engine.now.settings.now.shared ≡ true
        → CanShare (blocks_in plan.statements) plan.catalogue.tables }
    requires settings { AreSettings engine.now.settings.now }
    ensures keeps { F.holds folder.new ≡ F.holds folder.old }
    ensures counts { NeverFalls (F.faults folder.old) (F.faults folder.new) }
    ensures alone { plan.remotes ≡ [] → folder.new ≡ folder.old }
    ensures ran { plan.remotes ≡ []
        → RanAlone engine.now.settings.now P.gives task.now plan outputs.old outputs.new result }
    ensures over { plan.remotes ≢ [] → RanOver engine.now.settings.now P.gives plan
        (folder_seen (F.holds folder.old) (F.faults folder.old))
        (folder_seen (F.holds folder.new) (F.faults folder.new)) outputs.old outputs.new result }
{
    if plan.remotes.is_empty() {
        return run_alone(engine, task, plan, outputs);
    }
    run_over(engine, plan, folder, outputs)
}

// Runs what the words ask for.
fn run_query<F: Folder, O: Sink, N: Sink, P: Predicates + Sync, G: Gate, R: Threads + Wait + Sync>(
    host: &Host<'_, G, R>,
    functions: &P,
    request: &Request,
    folder: &mut F,
    outputs: &mut Outputs<O, N>,
) -> End
    requires task { IsTask request.now.task }
    requires settings { AreSettings request.now.settings }
    requires shared { request.now.settings.shared ≡ true → HasScansAlone request.now.task }
    ensures ran { let p = predicates (P.number_of functions.now) (P.kinds_of functions.now) P.gives in
        (words : List (List ℕ)) → asking.asked words ≡ Some request.now
        → Ran p words (world_seen (F.holds folder.old) (F.faults folder.old) outputs.old)
        (world_seen (F.holds folder.new) (F.faults folder.new) outputs.new) result }
    ensures untouched { loads_none request.now.task ≡ true → folder.new ≡ folder.old }
{
    match plan_for(host.alloc, request, folder, functions) {
        Ok(plan) => {
            let engine = Engine {
                rt: host.rt,
                alloc: host.alloc,
                settings: &request.settings,
                functions,
                gate: host.gate,
            };
            run_any(&engine, &request.task, plan, folder, outputs)
        }
        Err(refusal) => End::By(refusal),
    }
}

/// Says on the notes why a run over these tables and remotes was refused.
pub fn note<O: Sink, N: Sink>(
    alloc: Global,
    tables: &[TableWord],
    remotes: &[RemoteWord],
    status: Status,
    outputs: &mut Outputs<O, N>,
) -> Status
    ensures out { outputs.new.out ≡ outputs.old.out }
    ensures notes { NotesOf (names_of tables.now remotes.now) outputs.old.notes outputs.new.notes status result }
{
    put_note(alloc, tables, remotes, status, &mut outputs.notes)
}

// Runs what the words ask for, and says on the notes why it was refused.
fn run_noted<F: Folder, O: Sink, N: Sink, P: Predicates + Sync, G: Gate, R: Threads + Wait + Sync>(
    host: &Host<'_, G, R>,
    functions: &P,
    request: &Request,
    folder: &mut F,
    outputs: &mut Outputs<O, N>,
) -> Status
    requires task { IsTask request.now.task }
    requires settings { AreSettings request.now.settings }
    requires shared { request.now.settings.shared ≡ true → HasScansAlone request.now.task }
    ensures finished { let p = predicates (P.number_of functions.now) (P.kinds_of functions.now) P.gives in
        (words : List (List ℕ)) → asking.asked words ≡ Some request.now
        → Finished p words (world_seen (F.holds folder.old) (F.faults folder.old) outputs.old)
        (world_seen (F.holds folder.new) (F.faults folder.new) outputs.new) result }
    ensures untouched { loads_none request.now.task ≡ true → folder.new ≡ folder.old }
{
    match run_query(host, functions, request, folder, outputs) {
        End::By(status) => note(
            host.alloc,
            request.tables(),
            request.remotes(),
            status,
            outputs,
        ),
        End::ByNotes => Status::Write,
    }
}

// Runs the words.
fn run_words<F: Folder, O: Sink, N: Sink, P: Predicates + Sync, G: Gate, R: Threads + Wait + Sync>(
    host: &Host<'_, G, R>,
    functions: &P,
    words: &[String],
    folder: &mut F,
    outputs: &mut Outputs<O, N>,
) -> Status
    ensures finished { let p = predicates (P.number_of functions.now) (P.kinds_of functions.now) P.gives in
        Finished p (map string_bytes words.now) (world_seen (F.holds folder.old) (F.faults folder.old) outputs.old)
        (world_seen (F.holds folder.new) (F.faults folder.new) outputs.new) result }
    ensures untouched { are_fileless (map string_bytes words.now) ≡ true → folder.new ≡ folder.old }
{
    match asked(host.alloc, words) {
        Ok(request) => run_noted(host, functions, &request, folder, outputs),
        Err(refusal) => note(host.alloc, &[], &[], refusal, outputs),
    }
}

/// Runs a script: the top call, which does all that the program does.
///
/// The words don't hold the program's own name. In this order they are read, the script is loaded and
/// parsed, each table and then each remote's heading is loaded and read, the columns of the accesses are found, and all
/// statements are bound; then each statement is run, and its answer is written to the output: its matches in order,
/// or with groups, DISTINCT or LIMIT the lines that are made of them. The first refusal ends the run,
/// and one line on the notes says why. One that comes before the first statement leaves the output as it was.
///
/// `Done` has written exactly the text of the outcome of these words and predicates over what was given
/// of the words' files, which is what the folder holds, where it tells that. Any refusal but a fault of
/// the folder or the output, or want of memory, is that outcome's, and has written exactly the text
/// before it. Want of memory may come at any point, and leaves a front of the text.
///
/// With remotes the files of a statement's needed keys are loaded before it is run, over the tables with their rows.
/// Where its keys are refused, or a key's file isn't read, the answers before it are written, and nothing else.
///
/// With `--shared` all statements run together, in one eddy over one module for each table, before the first answer is
/// written. With `--tally` a line of counts is put to the notes behind each answer, or one behind all of these. A fault
/// there ends the run as `Write`, and nothing is put behind it.
///
/// Where the words ask for several workers or a shared run, each worker runs in a thread of its own, waits for turns,
/// and calls the gate in them. A large answer is put in order and written by as many threads as there are workers. With
/// one worker and no shared run no thread starts, no turn is waited for, and the gate isn't called.
pub fn run<F: Folder, O: Sink, N: Sink, P: Predicates + Sync, G: Gate, R: Threads + Wait + Sync>(
    host: &Host<'_, G, R>,
    functions: &P,
    words: &[String],
    folder: &mut F,
    outputs: &mut Outputs<O, N>,
) -> Status
    // All that a run promises, in one: specs/Headline has it, a promise a field.
    ensures headline { let p = predicates (P.number_of functions.now) (P.kinds_of functions.now) P.gives in
        Headline p (map string_bytes words.now) folder.old folder.new
        (world_seen (F.holds folder.old) (F.faults folder.old) outputs.old)
        (world_seen (F.holds folder.new) (F.faults folder.new) outputs.new) result }
{
    run_words(host, functions, words, folder, outputs)
}

/// The law that words over what is given have one outcome, whatever the predicates. It does nothing.
pub fn one_outcome()
    ensures { OneOutcome }
{}
