//! The ways to reach tables from words.
ghost use Rattle.std.specs.Prelude.{◌≡◌, ◌<◌, length, map, true, slice_get, IsSome, IfSome, IfOk};
ghost use Rattle.std.specs.List.{slice_split};
ghost use Rattle.sq_expr.specs.Fits.{FitsAlias, column_kind};
ghost use Rattle.sq_bind.specs.Given.{AreAccesses};
ghost use Rattle.case_kit.specs.Tables.{is_blank};
ghost use Rattle.case_kit.specs.Ways.{column_in, way_of, ways_in};

use sq_expr::Access;
use sq_value::{Memory, Table, Tables};
use std::alloc::{AllocError, Global};

// The number of a column, by its digit.
fn column_of(word: &[u8]) -> Option<u32>
    ensures { result ≡ column_in word.now }
{
    match word {
        [digit] if digit.is_ascii_digit() => Some(u32::from(*digit - b'0')),
        _ => None,
    }
}

// How a table is reached.
fn access_of(word: &str) -> Access
    ensures { result ≡ way_of word.now }
{
    match word.as_bytes() {
        [b's', column @ ..] => Access {
            scan: true,
            look_up: column_of(column),
        },
        column => Access {
            scan: false,
            look_up: column_of(column),
        },
    }
}

// The words of a text.
fn words_of(alloc: Global, text: &str) -> Result<Vec<&str>, AllocError>
    ensures { IfOk result (λ words. map (λ word. word.now) words.items ≡ slice_split is_blank text.now) }
{
    text.split(' ').collect(alloc)
}

/// How each table is reached, by words with a blank between: `s` is a scan, a digit a look-up in that column, and `s1`
/// both.
///
/// # Errors
/// There is no memory for them.
pub fn ways_of_words(alloc: Global, text: &str) -> Result<Vec<Access>, Memory>
    ensures { IfOk result (λ ways. ways.items ≡ ways_in text.now) }
{
    let words = words_of(alloc, text)?;
    let mut ways = Vec::new(alloc);
    for word in &words {
        ways.push(access_of(word))?;
    }
    Ok(ways)
}

// Whether a table has a column of this number.
fn is_there(table: &Table, column: u32) -> bool
    ensures { result ≡ true → IsSome (slice_get table.now.columns column) }
{
    (column as usize) < table.columns().len()
}

fn has_column(tables: &Tables, table: u32, column: Option<u32>) -> bool
    requires { table < length tables.now }
    ensures { result ≡ true → IfSome column (λ column. IsSome (column_kind tables.now table column)) }
{
    match column {
        Some(column) => is_there(tables.get(table), column),
        None => true,
    }
}

// Whether a table has the access.
fn fits(tables: &Tables, table: u32, access: &Access) -> bool
    requires { table < length tables.now }
    ensures { result ≡ true → FitsAlias tables.now record { table = table; access = access.now } }
{
    (access.scan || access.look_up.is_some()) && has_column(tables, table, access.look_up)
}

/// Whether each table has its access.
pub fn are_ways_of(tables: &Tables, accesses: &[Access]) -> bool
    ensures { result ≡ true → AreAccesses tables.now accesses.now }
{
    if accesses.len() != tables.len() as usize {
        return false;
    }
    for (table, access) in accesses.iter().enumerate() {
        if !fits(tables, table as u32, access) {
            return false;
        }
    }
    true
}
