//! Whether remotes fit a block, as `load_needed` asks.
ghost use Rattle.std.specs.Prelude.{◌≡◌, ◌≢◌, ◌<◌, ◌==◌, All, AllPairs, IfSome, length, position, true};
ghost use Rattle.remote_lookup.specs.Loaded.{FitRemotes, IsRemote};
ghost use Rattle.remote_lookup.specs.Needed.{AreRemotes};
ghost use Rattle.worked_cases.specs.FitRemotes.{IsIntegerOf, IsReached};

use remote_lookup::Remote;
use sq_expr::{AliasUse, Block};
use sq_value::{ColType, Table, Tables};

// Whether a column of a table is INTEGER.
fn is_integer(table: &Table, column: u32) -> bool
    ensures { result ≡ true → IsIntegerOf table.now column }
{
    match table.columns().get(column as usize) {
        Some(found) => matches!(found.kind, ColType::Integer),
        None => false,
    }
}

// Whether a remote's table is there and empty, and its look-up column is INTEGER.
fn is_remote(tables: &Tables, remote: &Remote) -> bool
    ensures { result ≡ true → IsRemote tables.now remote.now }
{
    if remote.table >= tables.len() {
        return false;
    }
    let table = tables.get(remote.table);
    table.rows() == 0 && is_integer(table, remote.column)
}

// Whether all these remotes are.
fn are_remotes(tables: &Tables, remotes: &[Remote]) -> bool
    ensures { result ≡ true → All (IsRemote tables.now) remotes.now }
{
    for remote in remotes {
        if !is_remote(tables, remote) {
            return false;
        }
    }
    true
}

// The place of the first remote whose table this is.
fn place_of(remotes: &[Remote], table: u32) -> Option<usize>
    ensures is { result ≡ position (λ remote. remote.table == table) remotes.now }
    ensures within { IfSome result (λ place. place < length remotes.now) }
{
    remotes.iter().position(|remote| remote.table == table)
}

// Whether each remote is the first one with its table.
fn are_different(remotes: &[Remote]) -> bool
    ensures { result ≡ true → AllPairs (λ one other. one.table ≢ other.table) remotes.now }
{
    for place in 0..remotes.len() {
        if place_of(remotes, remotes[place].table) != Some(place) {
            return false;
        }
    }
    true
}

// Whether an alias of a remote has a look-up in its column alone.
fn is_reached(remotes: &[Remote], item: AliasUse) -> bool
    ensures { result ≡ true → IsReached remotes.now item }
{
    match place_of(remotes, item.table) {
        Some(place) => !item.access.scan && item.access.look_up == Some(remotes[place].column),
        None => true,
    }
}

// Whether all aliases are.
fn are_reached(block: &Block, remotes: &[Remote]) -> bool
    ensures { result ≡ true → AreRemotes block.now remotes.now }
{
    for item in block.aliases.as_slice() {
        if !is_reached(remotes, *item) {
            return false;
        }
    }
    true
}

/// Whether remotes fit a block over tables.
pub(crate) fn fit(block: &Block, tables: &Tables, remotes: &[Remote]) -> bool
    ensures { result ≡ true → FitRemotes block.now tables.now remotes.now }
{
    are_different(remotes) && are_remotes(tables, remotes) && are_reached(block, remotes)
}
