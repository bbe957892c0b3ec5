//! How each table is reached: a remote's by its look-up alone, and any other by a scan, or as an
//! access of the words says.

ghost use Rattle.std.specs.Prelude.{◌≡◌, ◌<◌, ◌≤◌, Ok, Err, IfOk, IfErr, All, length, slice_get, option_map};
ghost use Rattle.command_line.specs.Within.{IsAccess};
ghost use Rattle.sq_bind.specs.Given.{AreAccesses};
ghost use Rattle.remote_lookup.specs.Filled as filled;
ghost use Rattle.run_plan.specs.Accesses as spec;
ghost use Rattle.run_plan.specs.Naming.{counts};
ghost use Rattle.run_plan.specs.Open.{AreOpen, AreReached};
ghost use Rattle.run_plan.specs.Doing.{Refuses};
ghost use Rattle.run_plan.specs.Steps.{ComesTo};

use crate::status::Status;
use command_line::AccessWord;
use remote_lookup::Remote;
use sq_expr::Access;
use sq_value::{Column, Memory, Tables, same_name};
use std::alloc::Global;

/// The place of the column of this name.
pub(crate) fn column_named(columns: &[Column], name: &str) -> Option<usize>
    ensures { result ≡ spec.place_of_column columns.now name.now }
{
    columns
        .iter()
        .position(|column| same_name(column.name.as_str(), name))
}

// The place of the column that an access names, where its table has it.
fn column_asked(tables: &Tables, asked: &AccessWord) -> Option<u32>
    requires { asked.now.table < length tables.now }
    ensures { result ≡ spec.column_asked tables.now asked.now }
{
    let columns = tables.get(asked.table).columns();
    match column_named(columns, asked.column.as_str()) {
        Some(place) => Some(place as u32),
        None => None,
    }
}

// The first access whose table lacks its column; accesses count from 1.
fn first_lacking(tables: &Tables, asked: &[AccessWord]) -> Option<u32>
    requires few { length asked.now ≤ 16 }
    requires within { All (IsAccess (length tables.now)) asked.now }
    ensures { result ≡ spec.first_lacking tables.now 1 asked.now }
{
    for (index, access) in asked.iter().enumerate() {
        match column_asked(tables, access) {
            Some(_) => {}
            None => return Some(index as u32 + 1),
        }
    }
    None
}

// How a table is reached that isn't a remote's.
fn access_to(tables: &Tables, asked: &[AccessWord], table: u32) -> Access
    requires { All (IsAccess (length tables.now)) asked.now }
    ensures { result ≡ spec.access_to tables.now asked.now table }
{
    for access in asked {
        if access.table == table {
            return Access {
                scan: access.scan,
                look_up: column_asked(tables, access),
            };
        }
    }
    Access {
        scan: true,
        look_up: None,
    }
}

// The place of the remote that has this table.
fn remote_of(remotes: &[Remote], table: u32) -> Option<usize>
    ensures { result ≡ filled.remote_of remotes.now table }
{
    remotes.iter().position(|remote| remote.table == table)
}

// The column of the remote at a place that looks its rows up.
fn column_at(remotes: &[Remote], place: usize) -> Option<u32>
    ensures { result ≡ option_map (λ r. r.column) (slice_get remotes.now place) }
{
    match remotes.get(place) {
        Some(remote) => Some(remote.column),
        None => None,
    }
}

// The column that a table is looked up by alone, where it is a remote's.
fn remote_column(remotes: &[Remote], table: u32) -> Option<u32>
    ensures { result ≡ option_map (λ r. r.column) (spec.remote_at remotes.now table) }
{
    match remote_of(remotes, table) {
        Some(place) => column_at(remotes, place),
        None => None,
    }
}

// How a table is reached.
fn reach_to(tables: &Tables, asked: &[AccessWord], remotes: &[Remote], table: u32) -> Access
    requires { All (IsAccess (length tables.now)) asked.now }
    ensures { result ≡ spec.reach_to tables.now asked.now remotes.now table }
{
    match remote_column(remotes, table) {
        Some(column) => Access {
            scan: false,
            look_up: Some(column),
        },
        None => access_to(tables, asked, table),
    }
}

// How each table is reached.
fn accesses_to(
    alloc: Global,
    tables: &Tables,
    asked: &[AccessWord],
    remotes: &[Remote],
) -> Result<Vec<Access>, Memory>
    requires { All (IsAccess (length tables.now)) asked.now }
    ensures { IfOk result (λ accesses. accesses.items ≡ spec.accesses_to tables.now asked.now remotes.now) }
{
    let mut accesses = Vec::new(alloc);
    for table in 0..tables.len() {
        accesses.push(reach_to(tables, asked, remotes, table))?;
    }
    Ok(accesses)
}

/// How each table is reached, by the accesses that the words ask for, and by the look-up of each remote.
///
/// # Errors
/// `NoColumn`: the first access that names a column which its table lacks; or `Memory`.
pub fn read_accesses(
    alloc: Global,
    tables: &Tables,
    asked: &[AccessWord],
    remotes: &[Remote],
) -> Result<Vec<Access>, Status>
    requires few { length asked.now ≤ 16 }
    requires within { All (IsAccess (length tables.now)) asked.now }
    requires opened { AreOpen tables.now remotes.now }
    ensures ok { IfOk result (λ accesses.
        ComesTo (spec.accesses_read tables.now asked.now remotes.now) (Ok accesses.items)) }
    ensures fit { IfOk result (λ accesses. AreAccesses tables.now accesses.items) }
    ensures reached { IfOk result (λ accesses. AreReached remotes.now accesses.items) }
    ensures refused { IfErr result (λ s.
        Refuses (counts 0 (length asked.now) 0)
        (ComesTo (spec.accesses_read tables.now asked.now remotes.now) (Err s)) s) }
{
    match first_lacking(tables, asked) {
        Some(access) => Err(Status::NoColumn { access }),
        None => match accesses_to(alloc, tables, asked, remotes) {
            Ok(accesses) => Ok(accesses),
            Err(_) => Err(Status::Memory),
        },
    }
}
