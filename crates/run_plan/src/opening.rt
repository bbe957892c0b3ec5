//! Opens the remotes of the words: loads their heading files, and puts their tables behind the others.

ghost use Rattle.std.specs.Prelude.{◌≡◌, ◌<◌, ◌≤◌, ◌+◌, [], Some, Ok, Err, IfOk, IfErr, OnOk, length};
ghost use Rattle.std.specs.String.{string_bytes};
ghost use Rattle.table_csv.specs.TableFile.{table_of_bytes};
ghost use Rattle.run_base.specs.Seen.{folder_seen};
ghost use Rattle.run_plan.specs.Doing.{Went, Stopped, Refuses};
ghost use Rattle.run_plan.specs.Given.{AreHeadingsGiven, IsFileGiven, heading_name};
ghost use Rattle.run_plan.specs.Headings as spec;
ghost use Rattle.run_plan.specs.Headings.{opened_as, with_remote, heading_read, remotes_opened};
ghost use Rattle.run_plan.specs.Loaded.{AddsRemote};
ghost use Rattle.run_plan.specs.Naming.{counts};
ghost use Rattle.run_plan.specs.Prepared.{ReachedHeading};
ghost use Rattle.run_plan.specs.Open.{AreOpen};
ghost use Rattle.run_plan.specs.Steps.{ComesTo, or_refuse};
ghost use Rattle.run_plan.specs.declared.status.FileOf.TheVariants as file_of;
ghost use Rattle.run_plan.specs.declared.status.Status.TheVariants as status_of;

use crate::accesses::column_named;
use crate::loading::load;
use crate::status::{FileOf, Status};
use catalogue::Catalogue;
use command_line::RemoteWord;
use outside::Folder;
use remote_lookup::Remote;
use sq_value::{ColType, Column, Memory, SqText, Table};
use sqlite_items::Items;
use std::alloc::{AllocError, Global};
use table_csv::{TableFault, read_table};

/// What a heading file gives: the table of its remote, which has no rows, and the place of the column
/// that the remote is looked up by.
#[derive(Drop)]
pub struct Heading {
    /// The table of the remote, which has no rows.
    pub table: Table,
    /// The place of the key column, from 0.
    pub column: u32,
}

// Whether the column at a place is INTEGER.
fn is_integer(columns: &[Column], place: usize) -> bool
    ensures { result ≡ spec.is_integer_type (spec.kind_of_column columns.now place) }
{
    match columns.get(place) {
        Some(column) => column.kind == ColType::Integer,
        None => false,
    }
}

// The place of the column of this name, where it is INTEGER.
fn integer_named(columns: &[Column], name: &str) -> Option<usize>
    ensures { result ≡ spec.integer_named columns.now name.now }
{
    match column_named(columns, name) {
        Some(place) if is_integer(columns, place) => Some(place),
        _ => None,
    }
}

// The heading that a table is for a remote which is looked up by the column of this name.
fn heading_of(table: Table, name: &str) -> Option<Heading>
    ensures { result ≡ spec.heading_of name.now table }
{
    if table.rows() > 0 {
        return None;
    }
    match integer_named(table.columns(), name) {
        Some(place) => Some(Heading {
            table,
            column: place as u32,
        }),
        None => None,
    }
}

// The heading of a file's bytes.
fn heading_in(alloc: Global, bytes: &[u8], name: &str, number: u32) -> Result<Heading, Status>
    ensures ok { IfOk result (λ heading. spec.heading_in name.now (table_of_bytes bytes.now) ≡ Some heading) }
    ensures is { IfOk result spec.IsHeadingOf }
    ensures refused { IfErr result (λ s.
        Refuses (counts 0 0 (number + 1)) (ComesTo (or_refuse (status_of.BadHeading number)
        (spec.heading_in name.now (table_of_bytes bytes.now)))
        (Err s)) s) }
{
    match read_table(alloc, bytes) {
        Ok(table) => match heading_of(table, name) {
            Some(heading) => Ok(heading),
            None => Err(Status::BadHeading { remote: number }),
        },
        Err(TableFault::Memory) => Err(Status::Memory),
        Err(_) => Err(Status::BadHeading { remote: number }),
    }
}

// The name of a heading file.
fn heading_name(alloc: Global, prefix: &str) -> Result<String, AllocError>
    ensures { IfOk result (λ name. string_bytes name ≡ heading_name prefix.now) }
{
    format!(in alloc; "{prefix}heading.csv")
}

// Loads and reads the heading of a remote.
fn load_heading<F: Folder>(
    alloc: Global,
    folder: &mut F,
    word: &RemoteWord,
    number: u32,
) -> Result<Heading, Status>
    ensures went { IfOk result (λ heading.
        Went (folder_seen (F.holds folder.old) (F.faults folder.old))
        (folder_seen (F.holds folder.new) (F.faults folder.new))
        (IsFileGiven (heading_name word.now.prefix)) (λ found. ComesTo (heading_read number found word.now)
        (Ok heading))) }
    ensures is { IfOk result spec.IsHeadingOf }
    ensures stopped { IfErr result (λ s.
        Stopped (counts 0 0 (number + 1)) (folder_seen (F.holds folder.old) (F.faults folder.old))
        (folder_seen (F.holds folder.new) (F.faults folder.new))
        (IsFileGiven (heading_name word.now.prefix)) (λ found. ComesTo (heading_read number found word.now) (Err s))
        (λ found f. f ≡ file_of.Heading number) s) }
{
    let Ok(name) = heading_name(alloc, word.prefix.as_str()) else {
        return Err(Status::Memory);
    };
    let bytes = load(alloc, folder, name.as_str(), FileOf::Heading(number))?;
    heading_in(alloc, bytes.as_slice(), word.column.as_str(), number)
}

// Puts the table of a remote behind the others, and the remote. The names differ, so only memory may be wanting there.
fn push_remote(
    alloc: Global,
    word: &RemoteWord,
    heading: Heading,
    catalogue: &mut Catalogue,
    remotes: &mut Items<Remote>,
) -> Result<(), Memory>
    requires room { length catalogue.old.tables < 4294967295 }
    requires heading { spec.IsHeadingOf heading }
    ensures added { OnOk result (opened_as catalogue.new remotes.new
        ≡ with_remote (opened_as catalogue.old remotes.old) word.now heading) }
{
    let prefix = SqText::of(alloc, word.prefix.as_str())?;
    let Heading { table, column } = heading;
    let number = catalogue.tables().len();
    let Ok(_) = catalogue.add(word.name.as_str(), table) else {
        return Err(Memory);
    };
    remotes.push(Remote {
        table: number,
        column,
        prefix,
    })?;
    Ok(())
}

// Opens a remote behind the others.
fn open_remote<F: Folder>(
    alloc: Global,
    folder: &mut F,
    word: &RemoteWord,
    number: u32,
    catalogue: &mut Catalogue,
    remotes: &mut Items<Remote>,
) -> Result<(), Status>
    requires { length catalogue.old.tables < 4294967295 }
    ensures added { OnOk result
        (AddsRemote (folder_seen (F.holds folder.old) (F.faults folder.old))
        (folder_seen (F.holds folder.new) (F.faults folder.new))
        number word.now (opened_as catalogue.old remotes.old) (opened_as catalogue.new remotes.new)) }
    ensures stopped { IfErr result (λ s.
        Stopped (counts 0 0 (number + 1)) (folder_seen (F.holds folder.old) (F.faults folder.old))
        (folder_seen (F.holds folder.new) (F.faults folder.new))
        (IsFileGiven (heading_name word.now.prefix)) (λ found. ComesTo (heading_read number found word.now) (Err s))
        (λ found f. f ≡ file_of.Heading number) s) }
{
    let heading = load_heading(alloc, folder, word, number)?;
    match push_remote(alloc, word, heading, catalogue, remotes) {
        Ok(()) => Ok(()),
        Err(_) => Err(Status::Memory),
    }
}

/// Opens the remotes of the words, in order, up to the first refusal: their tables are put behind the
/// others, without rows.
///
/// # Errors
/// `NotFound`, `Read`, `BadHeading`, or `Limit` of a heading file; or `Memory`.
pub fn open_remotes<F: Folder>(
    alloc: Global,
    folder: &mut F,
    words: &[RemoteWord],
    catalogue: &mut Catalogue,
) -> Result<Items<Remote>, Status>
    requires few { length words.now ≤ 4 }
    requires tables { length catalogue.old.tables ≤ 16 }
    ensures went { IfOk result (λ remotes.
        Went (folder_seen (F.holds folder.old) (F.faults folder.old))
        (folder_seen (F.holds folder.new) (F.faults folder.new))
        (AreHeadingsGiven words.now) (λ founds. ComesTo (remotes_opened 0 founds (opened_as catalogue.old []) words.now)
        (Ok (opened_as catalogue.new remotes)))) }
    ensures stopped { IfErr result (λ s.
        Stopped (counts 0 0 (length words.now)) (folder_seen (F.holds folder.old) (F.faults folder.old))
        (folder_seen (F.holds folder.new) (F.faults folder.new))
        (AreHeadingsGiven words.now) (λ founds. ComesTo
        (remotes_opened 0 founds (opened_as catalogue.old []) words.now) (Err s))
        (λ founds. ReachedHeading founds (opened_as catalogue.old []) words.now) s) }
    ensures count { OnOk result
        (length catalogue.new.tables ≡ length catalogue.old.tables + length words.now) }
    ensures opened { IfOk result (AreOpen catalogue.new.tables) }
{
    let mut remotes = Items::new(alloc);
    for (index, word) in words.iter().enumerate() {
        open_remote(alloc, folder, word, index as u32, catalogue, &mut remotes)?;
    }
    Ok(remotes)
}
