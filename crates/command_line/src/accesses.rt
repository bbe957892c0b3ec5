//! The texts of `--index` and `--lookup`.

ghost use Rattle.std.specs.Prelude.{◌≡◌, ◌<◌, ◌≤◌, ℕ, List, ◌∷◌, true, length, option_map, Some, None, OnOk, IfErr, IfSome};
ghost use Rattle.std.specs.List.{list_any, before_first, after_first, slice_split};
ghost use Rattle.command_line.specs.Answers.{Reads, with_items};
ghost use Rattle.command_line.specs.Accesses as spec;

use crate::command::{AccessWord, TableWord};
use crate::fault::WordsFault;
use crate::tables::place_of;
use sq_value::SqText;
use sqlite_items::Items;
use std::alloc::Global;

/// The text before the first `.`, or all where there is none.
pub(crate) fn before_dot(item: &str) -> &str
    ensures { result.now ≡ before_first spec.is_dot item.now }
{
    match item.split_once('.') {
        Some((table, _)) => table,
        None => item,
    }
}

/// The text behind the first `.`, or none where there is none.
pub(crate) fn behind_dot(item: &str) -> &str
    ensures { result.now ≡ after_first spec.is_dot item.now }
{
    match item.split_once('.') {
        Some((_, column)) => column,
        None => "",
    }
}

/// The access that an item asks for.
fn access_of(
    alloc: Global,
    tables: &[TableWord],
    scan: bool,
    item: &str,
) -> Result<AccessWord, WordsFault>
    requires { length tables.now ≤ 16 }
    ensures { Reads (spec.access_of tables.now scan item.now) result }
{
    let Some(table) = place_of(tables, before_dot(item)) else {
        return Err(WordsFault::OutOfForm);
    };
    let column = behind_dot(item);
    if column.is_empty() {
        return Err(WordsFault::OutOfForm);
    }
    let column = SqText::of(alloc, column)?;
    Ok(AccessWord {
        table: table as u32,
        column,
        scan,
    })
}

/// Whether a table has an access.
fn has_access(accesses: &[AccessWord], table: u32) -> bool
    ensures { result ≡ list_any (spec.is_of_table table) accesses.now }
{
    accesses.iter().any(|access| access.table == table)
}

/// Puts the access that an item asks for behind others.
fn push_access(
    alloc: Global,
    accesses: &mut Vec<AccessWord>,
    tables: &[TableWord],
    scan: bool,
    item: &str,
) -> Result<(), WordsFault>
    requires few { length tables.now ≤ 16 }
    requires differ { spec.tables_differ accesses.old.items ≡ true }
    ensures pushed { OnOk result ((items : List (List ℕ)) → with_items tables.now scan accesses.old.items
        (item.now ∷ items) ≡ with_items tables.now scan accesses.new.items items) }
    ensures differ { OnOk result (spec.tables_differ accesses.new.items ≡ true) }
    ensures refused { IfErr result (λ e. e ≡ WordsFault.OutOfForm → (items : List (List ℕ))
        → with_items tables.now scan accesses.old.items (item.now ∷ items) ≡ None) }
{
    let access = access_of(alloc, tables, scan, item)?;
    if has_access(accesses, access.table) {
        return Err(WordsFault::OutOfForm);
    }
    accesses.push(access)?;
    Ok(())
}

/// A text before its first comma, and the text behind it where there is one.
pub(crate) fn cut(text: &str) -> (&str, Option<&str>)
    ensures items { slice_split spec.is_comma text.now ≡ result.0.now ∷ spec.items_in (option_map (λ t. t.now)
        result.1) }
    ensures shorter { IfSome result.1 (λ rest. length rest.now < length text.now) }
{
    match text.split_once(',') {
        Some((item, rest)) => (item, Some(rest)),
        None => (text, None),
    }
}

/// Puts the accesses that an option asks for behind others.
fn push_items(
    alloc: Global,
    accesses: &mut Vec<AccessWord>,
    tables: &[TableWord],
    scan: bool,
    text: Option<&str>,
) -> Result<(), WordsFault>
    requires few { length tables.now ≤ 16 }
    requires differ { spec.tables_differ accesses.old.items ≡ true }
    ensures pushed { OnOk result (with_items tables.now scan accesses.old.items (spec.items_in (option_map
        (λ t. t.now) text.entry)) ≡ Some accesses.new.items) }
    ensures differ { OnOk result (spec.tables_differ accesses.new.items ≡ true) }
    ensures refused { IfErr result (λ e. e ≡ WordsFault.OutOfForm → with_items tables.now scan accesses.old.items
        (spec.items_in (option_map (λ t. t.now) text.entry)) ≡ None) }
{
    let mut left = text;
    while let Some(items) = left {
        let (item, rest) = cut(items);
        push_access(alloc, accesses, tables, scan, item)?;
        left = rest;
    }
    Ok(())
}

/// The accesses that `--index` and `--lookup` ask for, in this order, by the tables of the words.
/// Each item of a text is a table's name, `.` and a column's name, with a comma between each two.
///
/// # Errors
/// `OutOfForm`: a text isn't of this form, or a table stands in two items.
/// `Memory`: there is no memory for the accesses.
pub fn accesses_of(
    alloc: Global,
    tables: &[TableWord],
    index: Option<&str>,
    lookup: Option<&str>,
) -> Result<Items<AccessWord>, WordsFault>
    requires { length tables.now ≤ 16 }
    ensures { Reads (spec.accesses_of tables.now (option_map (λ t. t.now) index.entry) (option_map (λ t. t.now)
        lookup.entry)) result }
{
    let mut accesses = Vec::new(alloc);
    push_items(alloc, &mut accesses, tables, true, index)?;
    push_items(alloc, &mut accesses, tables, false, lookup)?;
    Ok(Items::from_vec(accesses))
}
