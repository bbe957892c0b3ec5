//! The words that name tables.

ghost use Rattle.std.specs.Prelude.{◌≡◌, ◌<◌, ◌≤◌, length, map, position, IfOk};
ghost use Rattle.std.specs.List.{list_all, list_any};
ghost use Rattle.command_line.specs.Answers.{Reads};
ghost use Rattle.command_line.specs.Tables.{table_of_word};
ghost use Rattle.command_line.specs.Tables as spec;

use crate::command::TableWord;
use crate::fault::WordsFault;
use sq_value::{Memory, SqText, same_name};
use sqlite_items::Items;
use std::alloc::Global;

/// The most tables, and remotes with them.
pub(crate) const MAX_TABLES: usize = 16;

/// The most bytes of a table's name, or a remote's.
pub(crate) const MAX_NAME_BYTES: usize = 64;

fn begins_identifier(byte: u8) -> bool
    ensures { result ≡ spec.begins_identifier byte }
{
    byte.is_ascii_alphabetic() || byte == b'_'
}

fn follows_in_identifier(byte: u8) -> bool
    ensures { result ≡ spec.follows_in_identifier byte }
{
    begins_identifier(byte) || byte.is_ascii_digit()
}

fn all_follow(text: &[u8]) -> bool
    ensures { result ≡ list_all spec.follows_in_identifier text.now }
{
    text.iter().all(|byte| follows_in_identifier(*byte))
}

pub(crate) fn is_identifier(text: &[u8]) -> bool
    ensures { result ≡ spec.is_identifier text.now }
{
    match text {
        [first, rest @ ..] => begins_identifier(*first) && all_follow(rest),
        [] => false,
    }
}

/// The text before the first `=`, or all where there is none.
pub(crate) fn name_in(word: &str) -> &str
    ensures { result.now ≡ (table_of_word word.now).name }
{
    match word.split_once('=') {
        Some((name, _)) => name,
        None => word,
    }
}

/// The text behind the first `=`, or none where there is none.
pub(crate) fn file_in(word: &str) -> &str
    ensures { result.now ≡ (table_of_word word.now).file }
{
    match word.split_once('=') {
        Some((_, file)) => file,
        None => "",
    }
}

fn split_word(alloc: Global, word: &str) -> Result<TableWord, Memory>
    ensures { IfOk result (λ table. table ≡ table_of_word word.now) }
{
    let name = SqText::of(alloc, name_in(word))?;
    let file = SqText::of(alloc, file_in(word))?;
    Ok(TableWord { name, file })
}

fn split_words(alloc: Global, words: &[&str]) -> Result<Vec<TableWord>, Memory>
    ensures { IfOk result (λ tables. tables.items ≡ map table_of_word (map (λ w. w.now) words.now)) }
{
    let mut tables = Vec::new(alloc);
    for word in words {
        tables.push(split_word(alloc, word)?)?;
    }
    Ok(tables)
}

fn is_named_file(table: &TableWord) -> bool
    ensures { result ≡ spec.is_named_file table.now }
{
    let name = table.name.as_str();
    is_identifier(name.as_bytes())
        && name.len() <= MAX_NAME_BYTES
        && !table.file.as_str().is_empty()
}

fn are_named_files(tables: &[TableWord]) -> bool
    ensures { result ≡ list_all spec.is_named_file tables.now }
{
    tables.iter().all(|table| is_named_file(table))
}

fn has_name(table: &TableWord, name: &str) -> bool
    ensures { result ≡ spec.has_name name.now table.now }
{
    same_name(table.name.as_str(), name)
}

pub(crate) fn is_named(tables: &[TableWord], name: &str) -> bool
    ensures { result ≡ list_any (spec.has_name name.now) tables.now }
{
    tables.iter().any(|table| has_name(table, name))
}

fn names_differ(tables: &[TableWord]) -> bool
    ensures { result ≡ spec.names_differ tables.now }
{
    match tables {
        [table, others @ ..] => !is_named(others, table.name.as_str()) && names_differ(others),
        [] => true,
    }
}

/// The place of the table with this name.
pub fn place_of(tables: &[TableWord], name: &str) -> Option<usize>
    ensures { result ≡ position (spec.has_name name.now) tables.now }
{
    tables.iter().position(|table| has_name(table, name))
}

/// The tables that 1 to 16 words name, each a regular identifier of 1 to 64 bytes, `=`, and a
/// file's name that isn't empty. No two of the identifiers are the same but for the case of ASCII
/// letters.
///
/// # Errors
/// `OutOfForm`: the words aren't of this form.
/// `Memory`: there is no memory for the tables.
pub fn tables_of(alloc: Global, words: &[&str]) -> Result<Items<TableWord>, WordsFault>
    ensures { Reads (spec.tables_of (map (λ w. w.now) words.now)) result }
{
    if words.is_empty() || words.len() > MAX_TABLES {
        return Err(WordsFault::OutOfForm);
    }
    let tables = split_words(alloc, words)?;
    if are_named_files(&tables) && names_differ(&tables) {
        Ok(Items::from_vec(tables))
    } else {
        Err(WordsFault::OutOfForm)
    }
}
