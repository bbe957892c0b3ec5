//! Runs statements over tables and remotes: the needed keys of each are loaded before it is run.

ghost use Rattle.std.specs.Prelude.{◌≡◌, All};
ghost use Rattle.outside.specs.Faults.{NeverFalls};
ghost use Rattle.run_base.specs.Runnable.{IsRunnable};
ghost use Rattle.run_base.specs.Seen.{folder_seen};
ghost use Rattle.run_base.specs.Items.{item_over};
ghost use Rattle.remote_lookup.specs.Filled as filled;
ghost use Rattle.remote_lookup.specs.Loaded.{FitRemotes};
ghost use Rattle.run_answers.specs.Answering.{AnswersOne};
ghost use Rattle.run_answers.specs.Settings.{AreSettings};
ghost use Rattle.run_answers.specs.Tally.{IsTally};
ghost use Rattle.run_answers.specs.Text.{numbered_text};
ghost use Rattle.remote_answers.specs.Answered.{AnsweredTo, StatementTo};
ghost use Rattle.remote_answers.specs.Exchanged.{HaveColumns, HaveTables};

use crate::exchanging::exchange;
use crate::halting::Halt;
use catalogue::Catalogue;
use eddy_worker::Gate;
use outside::{Folder, Sink};
use remote_lookup::{Loaded, Remote, load_needed};
use run_answers::{Engine, Stop, put_numbered};
use run_base::{Bound, Outputs};
use sq_value::{Predicates, Table};
use std::sync::Wait;
use std::thread::Threads;

// Runs a statement over these tables in the places of those of remotes.
fn put_over<O: Sink, N: Sink, P: Predicates + Sync, G: Gate, R: Threads + Wait + Sync>(
    engine: &Engine<'_, P, G, R>,
    number: usize,
    bound: &Bound,
    catalogue: &mut Catalogue,
    remotes: &[Remote],
    mut tables: Vec<Table>,
    outputs: &mut Outputs<O, N>,
) -> Result<(), Stop>
    requires runs { IsRunnable (P.kinds_of engine.now.functions.now) catalogue.old.tables bound.now }
    requires places { HaveTables catalogue.old.tables remotes.now }
    requires columns { HaveColumns catalogue.old.tables remotes.now tables.items }
    requires settings { AreSettings engine.now.settings.now }
    ensures catalogue { catalogue.new ≡ catalogue.old }
    ensures put { let item = item_over (filled.exchanged catalogue.old.tables remotes.now tables.items) bound.now in
        AnswersOne engine.now.settings.now.tally (IsTally engine.now.settings.now.cache P.gives) number item
        (numbered_text P.gives number item) outputs.old outputs.new result }
{
    exchange(catalogue, remotes, &mut tables);
    let put = put_numbered(engine, number, bound, catalogue.tables(), outputs);
    exchange(catalogue, remotes, &mut tables);
    put
}

// Loads the needed keys of the statement with this number, which counts from 1, and puts its answer and its line.
fn put_statement<
    F: Folder,
    O: Sink,
    N: Sink,
    P: Predicates + Sync,
    G: Gate,
    R: Threads + Wait + Sync,
>(
    engine: &Engine<'_, P, G, R>,
    number: usize,
    bound: &Bound,
    catalogue: &mut Catalogue,
    remotes: &[Remote],
    folder: &mut F,
    outputs: &mut Outputs<O, N>,
) -> Result<(), Halt>
    requires runs { IsRunnable (P.kinds_of engine.now.functions.now) catalogue.old.tables bound.now }
    requires remotes { FitRemotes bound.now.block catalogue.old.tables remotes.now }
    requires settings { AreSettings engine.now.settings.now }
    ensures catalogue { catalogue.new ≡ catalogue.old }
    ensures keeps { F.holds folder.new ≡ F.holds folder.old }
    ensures counts { NeverFalls (F.faults folder.old) (F.faults folder.new) }
    ensures answered { StatementTo engine.now.settings.now P.gives catalogue.old.tables remotes.now number bound.now
        (folder_seen (F.holds folder.old) (F.faults folder.old))
        (folder_seen (F.holds folder.new) (F.faults folder.new)) outputs.old outputs.new result }
{
    let functions = engine.functions;
    let tables = catalogue.tables();
    match load_needed(
        engine.alloc,
        &bound.block,
        tables,
        remotes,
        functions,
        folder,
    ) {
        Ok(Loaded { tables, .. }) => {
            match put_over(engine, number, bound, catalogue, remotes, tables, outputs) {
                Ok(()) => Ok(()),
                Err(stop) => Err(Halt::Stopped(stop)),
            }
        }
        Err(fault) => Err(Halt::Refused(fault)),
    }
}

/// Runs statements over the tables of a catalogue and its remotes, whose tables there have no rows. Before each
/// statement its needed keys are loaded. Its answer is written, after the first one with an empty line before it,
/// and its line of counts is put, where that is wanted. The catalogue is as it was.
///
/// # Errors
/// `Refused`: the keys of a statement were refused, a key's file wasn't read and the folder's count of faults rose,
/// or there was no memory for them. The answers before it are written, whole, and nothing after them. `Stopped`: as
/// `put_answers` has it.
pub fn put_statements<
    F: Folder,
    O: Sink,
    N: Sink,
    P: Predicates + Sync,
    G: Gate,
    R: Threads + Wait + Sync,
>(
    engine: &Engine<'_, P, G, R>,
    bounds: &[Bound],
    catalogue: &mut Catalogue,
    remotes: &[Remote],
    folder: &mut F,
    outputs: &mut Outputs<O, N>,
) -> Result<(), Halt>
    requires run { All (IsRunnable (P.kinds_of engine.now.functions.now) catalogue.old.tables) bounds.now }
    requires remotes { All (λ b. FitRemotes b.block catalogue.old.tables remotes.now) bounds.now }
    requires settings { AreSettings engine.now.settings.now }
    ensures catalogue { catalogue.new ≡ catalogue.old }
    ensures keeps { F.holds folder.new ≡ F.holds folder.old }
    ensures counts { NeverFalls (F.faults folder.old) (F.faults folder.new) }
    ensures answered { AnsweredTo engine.now.settings.now P.gives catalogue.old.tables remotes.now bounds.now
        (folder_seen (F.holds folder.old) (F.faults folder.old))
        (folder_seen (F.holds folder.new) (F.faults folder.new)) outputs.old outputs.new result }
{
    for (index, bound) in bounds.iter().enumerate() {
        let number = 1 + index;
        put_statement(engine, number, bound, catalogue, remotes, folder, outputs)?;
    }
    Ok(())
}
