//! Small tables from text: a table a line.
ghost use Rattle.std.specs.Prelude.{◌≡◌, None, Some, Ok, map, IfOk, IfErr, OnOk};
ghost use Rattle.std.specs.List.{before_first, after_first};
ghost use Rattle.std.specs.Str.Lines.{lines};
ghost use Rattle.catalogue.specs.Named.{NamedTables};
ghost use Rattle.case_kit.specs.Tables.{is_blank, file_in, with_line, with_lines, tables_in};

use crate::fault::CaseFault;
use catalogue::{Catalogue, CatalogueFault};
use sq_value::Memory;
use std::alloc::{AllocError, Global};
use table_csv::{TableFault, read_table};

// The name of a line's table.
fn name_in(line: &str) -> &str
    ensures { result.now ≡ before_first is_blank line.now }
{
    match line.split_once(' ') {
        Some((name, _)) => name,
        None => line,
    }
}

// The lines of its file, which have a slash between.
fn rest_in(line: &str) -> &str
    ensures { result.now ≡ after_first is_blank line.now }
{
    match line.split_once(' ') {
        Some((_, rest)) => rest,
        None => "",
    }
}

// The bytes of a file, whose lines have a slash between.
fn file_of(alloc: Global, text: &str) -> Result<Vec<u8>, AllocError>
    ensures { IfOk result (λ file. file.items ≡ file_in text.now) }
{
    let mut file = Vec::new(alloc);
    for byte in text.as_bytes() {
        file.push(if *byte == b'/' { b'\n' } else { *byte })?;
    }
    Ok(file)
}

// Adds the table of a line.
fn push_line(alloc: Global, catalogue: &mut Catalogue, line: &str) -> Result<(), CaseFault>
    ensures ok { OnOk result (with_line catalogue.old line.now ≡ Some catalogue.new) }
    ensures fault { result ≡ Err CaseFault.OutOfForm → with_line catalogue.old line.now ≡ None }
{
    let file = file_of(alloc, rest_in(line))?;
    let table = match read_table(alloc, file.as_slice()) {
        Ok(table) => table,
        Err(TableFault::Memory) => return Err(CaseFault::Memory),
        Err(_) => return Err(CaseFault::OutOfForm),
    };
    if catalogue.tables().len() == u32::MAX {
        return Err(CaseFault::Memory);
    }
    match catalogue.add(name_in(line), table) {
        Ok(_place) => Ok(()),
        Err(CatalogueFault::RepeatedTable) => Err(CaseFault::OutOfForm),
        Err(CatalogueFault::Memory) => Err(CaseFault::Memory),
    }
}

// The lines of a text.
fn lines_of(alloc: Global, text: &str) -> Result<Vec<&str>, AllocError>
    ensures { IfOk result (λ found. map (λ line. line.now) found.items ≡ lines text.now) }
{
    text.lines().collect(alloc)
}

/// The catalogue of tables. Each is a line: its name, a blank, and the lines of its file with a slash between each two.
///
/// # Errors
/// - `OutOfForm`: a line says no table, or one whose name an earlier line has.
/// - `Memory`: there is no memory for the tables.
pub fn catalogue_of_lines(alloc: Global, text: &str) -> Result<Catalogue, CaseFault>
    ensures ok { IfOk result (λ catalogue. tables_in text.now ≡ Some catalogue) }
    ensures fault { result ≡ Err CaseFault.OutOfForm → tables_in text.now ≡ None }
{
    let mut catalogue = Catalogue::new(alloc);
    let lines = lines_of(alloc, text)?;
    for line in &lines {
        match push_line(alloc, &mut catalogue, line) {
            Ok(()) => {}
            Err(fault) => return Err(fault),
        }
    }
    Ok(catalogue)
}
