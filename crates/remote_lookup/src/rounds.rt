//! Loads the keys that are asked for, round by round.
ghost use Rattle.std.specs.Prelude.{◌≡◌, ◌+◌, ◌<◌, ◌≤◌, ◌==◌, [], ◌∷◌, false, true, None, Ok, All, length, filter, map, slice_get, IfOk, IfErr, IfSome, OnOk};
ghost use Rattle.outside.specs.Faults.{NeverFalls};
ghost use Rattle.remote_lookup.specs.Asked.{AreFresh, Grows};
ghost use Rattle.remote_lookup.specs.Asking.{IsQuery, IsAskedBehind, AreSpare};
ghost use Rattle.remote_lookup.specs.KeyFiles.{table_columns};
ghost use Rattle.remote_lookup.specs.Loaded.{IsRemote, MayRefuse};
ghost use Rattle.remote_lookup.specs.Reading.{IsRefused, MayStop, MayStopIn};
ghost use Rattle.remote_lookup.specs.Rounds.{AreOrdered, lists_key};
ghost use Rattle.remote_lookup.specs.Working.{AreFound, FirstFaultIs, HasCome, HaveLoaded, IsWork, Means, OverKeys, empty_of, crowded_with, known};

use crate::asked::Asked;
use crate::asking::ask_spare;
use crate::key_file::{empty_table, load_file};
use crate::key_tables::KeyTables;
use crate::query::Query;
use crate::remote::{RemoteFault, RemoteKey};
use outside::Folder;
use sq_value::{Memory, Predicates, Table, Tables};
use std::alloc::Global;

/// The most keys of a remote at a round's start, and the most rows of a remote.
const MOST_KEYS: u32 = 10_000;

const MOST_ROWS: u32 = 4_000_000;

/// How many keys and rows of a remote are loaded.
#[derive(Clone, Copy)]
pub(crate) struct Tally {
    pub keys: u32,
    pub rows: u32,
}

/// What is asked for and loaded so far: for each remote a tally, and a spare table with its columns.
#[derive(Drop)]
pub(crate) struct Work {
    pub asked: Asked,
    pub loaded: KeyTables,
    pub tallies: Vec<Tally>,
    pub spare: Tables,
}

// How many of these keys are of a remote.
fn keys_of(fresh: &[RemoteKey], remote: u32) -> usize
    ensures { result ≡ length (filter (λ key. key.remote == remote) fresh.now) }
{
    fresh.iter().filter(|key| key.remote == remote).count()
}

// The first remote of which there are more than 10,000 keys together with these fresh ones.
fn crowded(tallies: &[Tally], fresh: &[RemoteKey]) -> Option<u32>
    requires few { length tallies.now < 4294967296 }
    requires few_keys { All (λ tally. tally.keys ≤ 10000) tallies.now }
    ensures { result ≡ crowded_with tallies.now fresh.now }
{
    for remote in 0..tallies.len() as u32 {
        let left = MOST_KEYS - tallies[remote as usize].keys;
        if keys_of(fresh, remote) > left as usize {
            return Some(remote);
        }
    }
    None
}

// Counts a key and its rows, unless these are too many.
fn count(tally: &mut Tally, remote: u32, rows: u32) -> Result<(), RemoteFault>
    requires few_keys { tally.old.keys < 10000 }
    requires few_rows { tally.old.rows ≤ 4000000 }
    ensures counted { OnOk result (tally.new ≡ record { keys = tally.old.keys + 1; rows = tally.old.rows + rows }) }
    ensures few { OnOk result (tally.old.rows + rows ≤ 4000000) }
    ensures over { IfErr result (λ fault. (fault ≡ RemoteFault.TooManyRows remote)
        × (4000000 < tally.old.rows + rows)) }
{
    if rows > MOST_ROWS - tally.rows {
        return Err(RemoteFault::TooManyRows { remote });
    }
    tally.keys += 1;
    tally.rows += rows;
    Ok(())
}

// Asks for what the rows of a key's table name, and gives the table back. It lies among the spare ones meanwhile.
fn ask_file<P: Predicates>(
    query: &Query<'_, P>,
    spare: &mut Tables,
    at: RemoteKey,
    table: Table,
    asked: &mut Asked,
) -> Result<Table, Memory>
    requires query { IsQuery (P.kinds_of query.now.functions.now) query.now.block.now query.now.tables.now
        query.now.remotes.now query.now.asks.items }
    requires spare { AreSpare query.now.tables.now query.now.remotes.now spare.old }
    requires there { at.remote < length query.now.remotes.now }
    requires columns { IfSome (slice_get query.now.remotes.now at.remote)
        (λ remote. table.columns ≡ table_columns query.now.tables.now remote.table) }
    ensures table { IfOk result (λ back. back ≡ table) }
    ensures spare { OnOk result (AreSpare query.now.tables.now query.now.remotes.now spare.new) }
    ensures asked { OnOk result (Grows (IsAskedBehind P.gives query.now.block.now query.now.remotes.now at.remote
        table.rows
        query.now.asks.items) asked.old asked.new) }
{
    let own = spare.set(at.remote, table);
    ask_spare(query, spare, at.remote, asked)?;
    Ok(spare.set(at.remote, own))
}

// Loads a key, counts its rows, and asks for what they name.
fn load_key<P: Predicates, F: Folder>(
    alloc: Global,
    query: &Query<'_, P>,
    at: RemoteKey,
    work: &mut Work,
    folder: &mut F,
) -> Result<(), RemoteFault>
    requires query { IsQuery (P.kinds_of query.now.functions.now) query.now.block.now query.now.tables.now
        query.now.remotes.now query.now.asks.items }
    requires work { IsWork query.now.tables.now query.now.remotes.now work.old }
    requires there { at.remote < length query.now.remotes.now }
    requires new { lists_key (known work.old.loaded) at.remote at.key ≡ false }
    requires few { IfSome (slice_get work.old.tallies.items at.remote) (λ tally. tally.keys < 10000) }
    ensures keeps { F.holds folder.new ≡ F.holds folder.old }
    ensures counts { NeverFalls (F.faults folder.old) (F.faults folder.new) }
    ensures kept { OnOk result (F.faults folder.new ≡ F.faults folder.old) }
    ensures loaded { OnOk result (HaveLoaded P.gives query.now.block.now query.now.tables.now query.now.remotes.now
        (F.holds folder.old) (at ∷ []) work.old work.new) }
    ensures stopped { IfErr result (λ fault. AreFound query.now.tables.now query.now.remotes.now
        (F.holds folder.old) work.old.loaded
        → MayStop (F.faults folder.old) (F.faults folder.new)
        (FirstFaultIs query.now.tables.now query.now.remotes.now (F.holds folder.old) work.old.loaded) at fault) }
    ensures refused { IfErr result (IsRefused (length query.now.remotes.now) (F.faults folder.old)
        (F.faults folder.new)) }
{
    let remote = &query.remotes[at.remote as usize];
    let columns = query.tables.get(remote.table).columns();
    let table = load_file(alloc, remote, columns, at, folder)?;
    count(
        &mut work.tallies[at.remote as usize],
        at.remote,
        table.rows(),
    )?;
    let table = ask_file(query, &mut work.spare, at, table, &mut work.asked)?;
    Ok(work.loaded.insert(at, table)?)
}

// Loads the keys of a round, in order.
fn load_round<P: Predicates, F: Folder>(
    alloc: Global,
    query: &Query<'_, P>,
    fresh: &[RemoteKey],
    work: &mut Work,
    folder: &mut F,
) -> Result<(), RemoteFault>
    requires query { IsQuery (P.kinds_of query.now.functions.now) query.now.block.now query.now.tables.now
        query.now.remotes.now query.now.asks.items }
    requires work { IsWork query.now.tables.now query.now.remotes.now work.old }
    requires ordered { AreOrdered fresh.now }
    requires new { All (λ key. lists_key (known work.old.loaded) key.remote key.key ≡ false) fresh.now }
    requires asked { All (λ key. lists_key work.old.asked.all key.remote key.key ≡ true) fresh.now }
    requires few { crowded_with work.old.tallies.items fresh.now ≡ None }
    ensures keeps { F.holds folder.new ≡ F.holds folder.old }
    ensures counts { NeverFalls (F.faults folder.old) (F.faults folder.new) }
    ensures kept { OnOk result (F.faults folder.new ≡ F.faults folder.old) }
    ensures loaded { OnOk result (HaveLoaded P.gives query.now.block.now query.now.tables.now query.now.remotes.now
        (F.holds folder.old) fresh.now work.old work.new) }
    ensures stopped { IfErr result (λ fault. AreFound query.now.tables.now query.now.remotes.now
        (F.holds folder.old) work.old.loaded
        → MayStopIn (F.faults folder.old) (F.faults folder.new)
        (FirstFaultIs query.now.tables.now query.now.remotes.now (F.holds folder.old) work.old.loaded)
        fresh.now fault) }
    ensures refused { IfErr result (IsRefused (length query.now.remotes.now) (F.faults folder.old)
        (F.faults folder.new)) }
{
    for at in fresh {
        load_key(alloc, query, *at, work, folder)?;
    }
    Ok(())
}

/// Loads what is asked for, in rounds, until nothing is fresh.
///
/// # Errors
/// The first refusal.
pub(crate) fn load_rounds<P: Predicates, F: Folder>(
    alloc: Global,
    query: &Query<'_, P>,
    work: &mut Work,
    folder: &mut F,
) -> Result<(), RemoteFault>
    requires query { IsQuery (P.kinds_of query.now.functions.now) query.now.block.now query.now.tables.now
        query.now.remotes.now query.now.asks.items }
    requires work { IsWork query.now.tables.now query.now.remotes.now work.old }
    requires few { length query.now.remotes.now < 4294967296 }
    requires begun { work.old.loaded ≡ [] }
    requires fresh { AreFresh [] work.old.asked.all work.old.asked.fresh }
    ensures keeps { F.holds folder.new ≡ F.holds folder.old }
    ensures counts { NeverFalls (F.faults folder.old) (F.faults folder.new) }
    ensures kept { OnOk result (F.faults folder.new ≡ F.faults folder.old) }
    ensures work { OnOk result (IsWork query.now.tables.now query.now.remotes.now work.new) }
    ensures comes { OnOk result (Means P.gives query.now.block.now query.now.tables.now query.now.remotes.now work.old
        → HasCome P.gives query.now.block.now query.now.tables.now query.now.remotes.now work.new) }
    ensures found { OnOk result (AreFound query.now.tables.now query.now.remotes.now (F.holds folder.old)
        work.new.loaded) }
    ensures may { IfErr result (λ fault.
        Means P.gives query.now.block.now query.now.tables.now query.now.remotes.now work.old
        → OverKeys query.now.remotes.now (F.holds folder.old) (λ found. MayRefuse P.gives query.now.block.now
        query.now.tables.now query.now.remotes.now found fault)) }
    ensures refused { IfErr result (IsRefused (length query.now.remotes.now) (F.faults folder.old)
        (F.faults folder.new)) }
{
    while !work.asked.fresh.is_empty() {
        // For the proof alone.
        let _count = work.loaded.len();
        let fresh = work.asked.take_fresh(alloc)?;
        if let Some(remote) = crowded(work.tallies.as_slice(), fresh.as_slice()) {
            return Err(RemoteFault::TooManyKeys { remote });
        }
        load_round(alloc, query, fresh.as_slice(), work, folder)?;
    }
    Ok(())
}

/// For each remote a table with its columns, and no rows.
///
/// # Errors
/// `Memory`: there is no memory for them.
pub(crate) fn empty_tables<P: Predicates>(
    alloc: Global,
    query: &Query<'_, P>,
) -> Result<Vec<Table>, Memory>
    requires { All (IsRemote query.now.tables.now) query.now.remotes.now }
    ensures { IfOk result (λ tables. tables.items ≡ map (empty_of query.now.tables.now) query.now.remotes.now) }
{
    let mut tables = Vec::with_capacity(alloc, query.remotes.len())?;
    for remote in query.remotes {
        tables.push(empty_table(alloc, query.tables.get(remote.table).columns())?)?;
    }
    Ok(tables)
}

// The spare tables of the remotes.
fn spare_tables<P: Predicates>(alloc: Global, query: &Query<'_, P>) -> Result<Tables, Memory>
    requires few { length query.now.remotes.now ≤ 4294967295 }
    requires remotes { All (IsRemote query.now.tables.now) query.now.remotes.now }
    ensures { IfOk result (λ tables. tables ≡ map (empty_of query.now.tables.now) query.now.remotes.now) }
{
    let mut spare = Tables::new(alloc);
    for remote in query.remotes {
        let columns = query.tables.get(remote.table).columns();
        spare.push(empty_table(alloc, columns)?)?;
    }
    Ok(spare)
}

/// What there is before anything is asked for.
///
/// # Errors
/// `Memory`: there is no memory for it.
pub(crate) fn begun<P: Predicates>(alloc: Global, query: &Query<'_, P>) -> Result<Work, Memory>
    requires few { length query.now.remotes.now ≤ 4294967295 }
    requires remotes { All (IsRemote query.now.tables.now) query.now.remotes.now }
    ensures work { IfOk result (IsWork query.now.tables.now query.now.remotes.now) }
    ensures asked { IfOk result (λ work. work.asked ≡ record { all = []; fresh = [] }) }
    ensures loaded { IfOk result (λ work. work.loaded ≡ []) }
{
    Ok(Work {
        asked: Asked::new(alloc),
        loaded: KeyTables::new(alloc),
        tallies: vec![in alloc; Tally { keys: 0, rows: 0 }; query.remotes.len()]?,
        spare: spare_tables(alloc, query)?,
    })
}
