//! What a case is given: a folder, remotes, and what is answered as text.
use crate::remotes::fit::fit;
use case_kit::{block_of_case, catalogue_of_lines};
use outside::MemoryFolder;
use remote_lookup::{Loaded, Remote, RemoteFault, load_needed};
use sq_value::{NoPredicates, SqText, Table, Value};
use std::alloc::{AllocError, Global};
use std::test::Fail;

/// A folder of these files: words of a name, `=` and the file's lines with a slash between each two.
pub(crate) fn folder_of(alloc: Global, files: &str) -> Result<MemoryFolder, Fail> {
    let mut folder = MemoryFolder::new(alloc);
    for file in files.split(' ') {
        if let Some((name, lines)) = file.split_once('=') {
            let text = lines.replace(alloc, "/", "\n")?;
            folder.keep(name, text.as_bytes())?;
        }
    }
    Ok(folder)
}

/// The remotes of words `TABLE.COLUMN=PREFIX`, by numbers of one digit.
pub(crate) fn remotes_of(alloc: Global, words: &str) -> Result<Vec<Remote>, Fail> {
    let mut remotes = Vec::new(alloc);
    for word in words.split(' ') {
        let bytes = word.as_bytes();
        if bytes.len() >= 4 && bytes[0].is_ascii_digit() && bytes[2].is_ascii_digit() {
            let (_, prefix) = word.split_once('=').unwrap_or(("", ""));
            remotes.push(Remote {
                table: u32::from(bytes[0] - b'0'),
                column: u32::from(bytes[2] - b'0'),
                prefix: SqText::of(alloc, prefix)?,
            })?;
        }
    }
    Ok(remotes)
}

// Puts a value behind a text.
fn push_value(text: &mut String, value: &Value) -> Result<(), AllocError> {
    match value {
        Value::Null => Ok(()),
        Value::Int(number) => write!(text, "{number}"),
        Value::Text(own) => text.push_str(own.as_str()),
        Value::Decimal(number) => write!(text, "{}e-{}", number.units, number.scale),
    }
}

// Puts the rows of a table behind a text.
fn push_rows(text: &mut String, table: &Table) -> Result<(), AllocError> {
    for row in 0..table.rows() {
        text.push_str("/")?;
        for column in 0..table.columns().len() as u32 {
            text.push_str(if column > 0 { "," } else { "" })?;
            push_value(text, table.value(row, column))?;
        }
    }
    Ok(())
}

// Puts the keys and the rows of each table behind a text.
fn push_loaded(text: &mut String, loaded: &Loaded) -> Result<(), AllocError> {
    for key in &loaded.keys {
        write!(text, "{}:{} ", key.remote, key.key)?;
    }
    for table in &loaded.tables {
        text.push_str("|")?;
        push_rows(text, table)?;
    }
    Ok(())
}

/// What was answered: the keys, and the rows of each table; or the refusal.
pub(crate) fn told(
    alloc: Global,
    answer: &Result<Loaded, RemoteFault>,
) -> Result<String, AllocError> {
    let mut text = String::new(alloc);
    match answer {
        Ok(loaded) => push_loaded(&mut text, loaded)?,
        Err(fault) => write!(text, "{fault:?}")?,
    }
    Ok(text)
}

/// What is loaded for a statement over tables, which are lines. The ways and the remotes are words. None where there is
/// no such block, or the remotes don't fit it.
pub(crate) fn loaded_in(
    alloc: Global,
    tables: &str,
    ways: &str,
    words: &str,
    text: &str,
    folder: &mut MemoryFolder,
) -> Result<Option<Result<Loaded, RemoteFault>>, Fail> {
    let catalogue = catalogue_of_lines(alloc, tables)?;
    let remotes = remotes_of(alloc, words)?;
    let Some(block) = block_of_case(alloc, &catalogue, ways, text, &NoPredicates)? else {
        return Ok(None);
    };
    let tables = catalogue.tables();
    let remotes = remotes.as_slice();
    if !fit(&block, tables, remotes) {
        return Ok(None);
    }
    Ok(Some(load_needed(alloc, &block, tables, remotes, &NoPredicates, folder)))
}
