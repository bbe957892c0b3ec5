//! Loads the files that the words name, and reads the tables.

ghost use Rattle.std.specs.Prelude.{◌≡◌, ◌<◌, ◌≤◌, ◌+◌, List, Some, Ok, Err, IfOk, IfErr, OnOk, length};
ghost use Rattle.table_csv.specs.TableFile.{table_of_bytes};
ghost use Rattle.run_plan.specs.Doing.{Went, Stopped, Refuses};
ghost use Rattle.run_plan.specs.Faults as faults;
ghost use Rattle.run_plan.specs.Given.{IsFileGiven, AreFilesGiven};
ghost use Rattle.run_plan.specs.Files.{file_read, table_read, catalogue_read};
ghost use Rattle.run_plan.specs.Naming.{counts, counts_to};
ghost use Rattle.run_plan.specs.Loaded as loaded;
ghost use Rattle.run_plan.specs.Loaded.{AddsTable};
ghost use Rattle.run_plan.specs.Prepared.{ReachedTable};
ghost use Rattle.run_base.specs.Seen.{folder_seen};
ghost use Rattle.run_plan.specs.Stage.{Before, phase_of_file};
ghost use Rattle.run_plan.specs.Steps.{ComesTo, or_fault};
ghost use Rattle.run_plan.specs.declared.status.FileOf.TheVariants as file_of;

use crate::refusing::table_status;
use crate::status::{FileOf, LimitOf, Status};
use catalogue::Catalogue;
use command_line::TableWord;
use outside::{Folder, LoadFault};
use sq_value::Table;
use std::alloc::Global;
use table_csv::read_table;

/// The most bytes that a file may have.
const MOST_BYTES: usize = 67_108_864;

// The status of a load that failed.
fn load_status(fault: LoadFault, file: FileOf) -> Status
    ensures { result ≡ loaded.load_status file fault }
{
    match fault {
        LoadFault::Absent => Status::NotFound { file },
        LoadFault::Failed => Status::Read { file },
        LoadFault::Memory => Status::Memory,
    }
}

/// Loads a file of at most 67,108,864 bytes, which isn't a key's. One more is asked for.
///
/// # Errors
/// `NotFound`, `Read`, or `Limit` of the file; or `Memory`.
pub fn load<F: Folder>(
    alloc: Global,
    folder: &mut F,
    name: &str,
    file: FileOf,
) -> Result<Vec<u8>, Status>
    requires { phase_of_file file ≡ Before }
    ensures went { IfOk result (λ bytes.
        Went (folder_seen (F.holds folder.old) (F.faults folder.old))
        (folder_seen (F.holds folder.new) (F.faults folder.new))
        (IsFileGiven name.now) (λ found. ComesTo (file_read file found) (Ok bytes.items))) }
    ensures short { IfOk result (λ bytes. length bytes.items ≤ 67108864) }
    ensures stopped { IfErr result (λ s.
        Stopped (counts_to file) (folder_seen (F.holds folder.old) (F.faults folder.old))
        (folder_seen (F.holds folder.new) (F.faults folder.new))
        (IsFileGiven name.now) (λ found. ComesTo (file_read file found) (Err s)) (λ found f. f ≡ file) s) }
{
    match folder.load(alloc, name, MOST_BYTES + 1) {
        Ok(bytes) => {
            if bytes.len() > MOST_BYTES {
                return Err(Status::Limit {
                    of: LimitOf::File { file },
                });
            }
            Ok(bytes)
        }
        Err(fault) => Err(load_status(fault, file)),
    }
}

// The table of a file's bytes. A reader of records takes 67 kB of the stack. They aren't its caller's, below whom a
// script is parsed.
#[inline(never)]
fn table_of(alloc: Global, bytes: &[u8], number: u32) -> Result<Table, Status>
    ensures ok { IfOk result (λ table. table_of_bytes bytes.now ≡ Ok table) }
    ensures refused { IfErr result (λ s.
        Refuses (counts (number + 1) 0 0)
        (ComesTo (or_fault (faults.table_status number) (table_of_bytes bytes.now)) (Err s)) s) }
{
    match read_table(alloc, bytes) {
        Ok(table) => Ok(table),
        Err(fault) => Err(table_status(number, fault)),
    }
}

// Loads and reads the table of a file.
fn load_table<F: Folder>(
    alloc: Global,
    folder: &mut F,
    name: &str,
    number: u32,
) -> Result<Table, Status>
    ensures went { IfOk result (λ table.
        Went (folder_seen (F.holds folder.old) (F.faults folder.old))
        (folder_seen (F.holds folder.new) (F.faults folder.new))
        (IsFileGiven name.now) (λ found. ComesTo (table_read number found) (Ok table))) }
    ensures stopped { IfErr result (λ s.
        Stopped (counts (number + 1) 0 0) (folder_seen (F.holds folder.old) (F.faults folder.old))
        (folder_seen (F.holds folder.new) (F.faults folder.new))
        (IsFileGiven name.now) (λ found. ComesTo (table_read number found) (Err s))
        (λ found f. f ≡ file_of.Table number) s) }
{
    let bytes = load(alloc, folder, name, FileOf::Table(number))?;
    table_of(alloc, bytes.as_slice(), number)
}

// Puts the table of a word behind the others. The names differ, so only memory may be wanting there.
fn push_table<F: Folder>(
    alloc: Global,
    folder: &mut F,
    word: &TableWord,
    number: u32,
    catalogue: &mut Catalogue,
) -> Result<(), Status>
    requires { length catalogue.old.tables < 4294967295 }
    ensures added { OnOk result
        (AddsTable (folder_seen (F.holds folder.old) (F.faults folder.old))
        (folder_seen (F.holds folder.new) (F.faults folder.new))
        number word.now catalogue.old catalogue.new) }
    ensures stopped { IfErr result (λ s.
        Stopped (counts (number + 1) 0 0) (folder_seen (F.holds folder.old) (F.faults folder.old))
        (folder_seen (F.holds folder.new) (F.faults folder.new))
        (IsFileGiven word.now.file) (λ found. ComesTo (table_read number found) (Err s))
        (λ found f. f ≡ file_of.Table number) s) }
{
    let table = load_table(alloc, folder, word.file.as_str(), number)?;
    match catalogue.add(word.name.as_str(), table) {
        Ok(_) => Ok(()),
        Err(_) => Err(Status::Memory),
    }
}

/// Loads and reads the tables of the words, in order, up to the first refusal.
///
/// # Errors
/// `NotFound`, `Read`, `BadTable`, or `Limit` of a table or its file; or `Memory`.
pub fn load_tables<F: Folder>(
    alloc: Global,
    folder: &mut F,
    words: &[TableWord],
) -> Result<Catalogue, Status>
    requires { length words.now ≤ 16 }
    ensures went { IfOk result (λ catalogue.
        Went (folder_seen (F.holds folder.old) (F.faults folder.old))
        (folder_seen (F.holds folder.new) (F.faults folder.new))
        (AreFilesGiven words.now) (λ founds. ComesTo (catalogue_read founds words.now) (Ok catalogue))) }
    ensures count { IfOk result (λ catalogue. length catalogue.tables ≡ length words.now) }
    ensures stopped { IfErr result (λ s.
        Stopped (counts (length words.now) 0 0) (folder_seen (F.holds folder.old) (F.faults folder.old))
        (folder_seen (F.holds folder.new) (F.faults folder.new))
        (AreFilesGiven words.now) (λ founds. ComesTo (catalogue_read founds words.now) (Err s)) ReachedTable s) }
{
    let mut catalogue = Catalogue::new(alloc);
    for (index, word) in words.iter().enumerate() {
        push_table(alloc, folder, word, index as u32, &mut catalogue)?;
    }
    Ok(catalogue)
}
