//! The text of `--remote`.

ghost use Rattle.std.specs.Prelude.{◌≡◌, ◌≤◌, length, map, option_map, IfOk};
ghost use Rattle.std.specs.List.{list_all, list_any, slice_split};
ghost use Rattle.command_line.specs.Accesses.{is_comma};
ghost use Rattle.command_line.specs.Answers.{Reads};
ghost use Rattle.command_line.specs.Remotes as spec;

use crate::accesses::{before_dot, behind_dot, cut};
use crate::command::{RemoteWord, TableWord};
use crate::fault::WordsFault;
use crate::tables::{MAX_NAME_BYTES, MAX_TABLES, file_in, is_identifier, is_named, name_in};
use sq_value::{Memory, SqText, same_name};
use sqlite_items::Items;
use std::alloc::Global;

/// The most remotes.
const MAX_REMOTES: usize = 4;

/// The remote that an item asks for.
fn remote_of_item(alloc: Global, item: &str) -> Result<RemoteWord, Memory>
    ensures { IfOk result (λ remote. remote ≡ spec.remote_of_item item.now) }
{
    let rest = behind_dot(item);
    let name = SqText::of(alloc, before_dot(item))?;
    let column = SqText::of(alloc, name_in(rest))?;
    let prefix = SqText::of(alloc, file_in(rest))?;
    Ok(RemoteWord {
        name,
        column,
        prefix,
    })
}

/// The remotes that the items of a text ask for.
fn split_items(alloc: Global, text: &str) -> Result<Vec<RemoteWord>, Memory>
    ensures { IfOk result (λ remotes. remotes.items ≡ map spec.remote_of_item (slice_split is_comma text.now)) }
{
    let mut remotes = Vec::new(alloc);
    let mut left = Some(text);
    while let Some(items) = left {
        let (item, rest) = cut(items);
        remotes.push(remote_of_item(alloc, item)?)?;
        left = rest;
    }
    Ok(remotes)
}

fn is_remote(remote: &RemoteWord) -> bool
    ensures { result ≡ spec.is_remote remote.now }
{
    let name = remote.name.as_str();
    is_identifier(name.as_bytes())
        && name.len() <= MAX_NAME_BYTES
        && !remote.column.as_str().is_empty()
        && !remote.prefix.as_str().is_empty()
}

fn are_remotes(remotes: &[RemoteWord]) -> bool
    ensures { result ≡ list_all spec.is_remote remotes.now }
{
    remotes.iter().all(|remote| is_remote(remote))
}

fn is_called(remote: &RemoteWord, name: &str) -> bool
    ensures { result ≡ spec.is_called name.now remote.now }
{
    same_name(remote.name.as_str(), name)
}

fn is_one_called(remotes: &[RemoteWord], name: &str) -> bool
    ensures { result ≡ list_any (spec.is_called name.now) remotes.now }
{
    remotes.iter().any(|remote| is_called(remote, name))
}

/// Whether a name is that of no table and of none of these remotes.
fn is_new(tables: &[TableWord], remotes: &[RemoteWord], name: &str) -> bool
    ensures { result ≡ spec.is_new tables.now remotes.now name.now }
{
    !is_named(tables, name) && !is_one_called(remotes, name)
}

fn remotes_differ(tables: &[TableWord], remotes: &[RemoteWord]) -> bool
    ensures { result ≡ spec.remotes_differ tables.now remotes.now }
{
    match remotes {
        [remote, others @ ..] => {
            is_new(tables, others, remote.name.as_str()) && remotes_differ(tables, others)
        }
        [] => true,
    }
}

/// The remotes that `--remote` asks for, beside 1 to 16 tables. Each of its 1 to 4 items is a
/// regular identifier of 1 to 64 bytes, `.`, a column's name, `=` and a prefix of files' names, with
/// a comma between each two; neither the column's name nor the prefix is empty. No two identifiers
/// of tables and remotes are the same but for the case of ASCII letters, and there are at most 16
/// of both together.
///
/// # Errors
/// `OutOfForm`: the text isn't of this form.
/// `Memory`: there is no memory for the remotes.
pub fn remotes_of(
    alloc: Global,
    tables: &[TableWord],
    text: Option<&str>,
) -> Result<Items<RemoteWord>, WordsFault>
    requires { length tables.now ≤ 16 }
    ensures { Reads (spec.remotes_of tables.now (option_map (λ t. t.now) text.entry)) result }
{
    let Some(text) = text else {
        return Ok(Items::from_vec(Vec::new(alloc)));
    };
    let remotes = split_items(alloc, text)?;
    if remotes.len() <= MAX_REMOTES
        && tables.len() + remotes.len() <= MAX_TABLES
        && are_remotes(&remotes)
        && remotes_differ(tables, &remotes)
    {
        Ok(Items::from_vec(remotes))
    } else {
        Err(WordsFault::OutOfForm)
    }
}
