//! The aliases of FROM: their names and tables, and how the tables are reached.

ghost use Rattle.std.specs.Prelude.{◌≡◌, ◌<◌, ◌≤◌, length, map, Some, IsSomeAnd, IfOk, All, unwrap_or, slice_get};
ghost use Rattle.sq_bind.specs.Statement as spec;
ghost use Rattle.sq_bind.specs.Statement.{Scope};
ghost use Rattle.sq_bind.specs.Found.{IsFound, used_at};
ghost use Rattle.sq_bind.specs.Seen.{seen};

use crate::visible::SeenAlias;
use sq_expr::{Access, AliasUse};
use sq_parse::Source;
use sq_value::{Memory, Table, Tables};
use sqlite_items::Items;
use std::alloc::Global;

// The same table, of which it is known that it has a column.
fn with_columns(table: &Table) -> &Table
    ensures same { result.now ≡ table.now }
    ensures some { 0 < length result.now.columns }
{
    // For the proof alone.
    let _columns = table.columns();
    table
}

fn table_at(tables: &Tables, found: Option<u32>) -> &Table
    requires { IsSomeAnd found (λ table. table < length tables.now) }
    ensures table { slice_get tables.now (unwrap_or found 0) ≡ Some result.now }
    ensures some { 0 < length result.now.columns }
{
    match found {
        Some(table) => with_columns(tables.get(table)),
        None => unreachable!(),
    }
}

/// The aliases of FROM, whose tables have these places.
///
/// # Errors
/// `Memory`: there is no memory for them.
pub fn aliases_of<'a>(
    alloc: Global,
    tables: &'a Tables,
    sources: &'a [Source],
    found: &[Option<u32>],
) -> Result<Vec<SeenAlias<'a>>, Memory>
    requires few { length sources.now ≤ 12 }
    requires one_each { length found.now ≡ length sources.now }
    requires there { All (λ one. IsSomeAnd one (λ table. table < length tables.now)) found.now }
    ensures some { IfOk result (λ aliases. All (λ a. 0 < length (seen a).columns) aliases.items) }
    ensures aliases { (scope : Scope) → scope.tables ≡ tables.now → IsFound scope sources.now found.now
        → IfOk result (λ aliases. map seen aliases.items ≡ spec.aliases_from scope 0 sources.now) }
{
    let mut aliases = Vec::new(alloc);
    for (index, source) in sources.iter().enumerate() {
        aliases.push(SeenAlias {
            number: index as u8,
            name: source.alias.text.as_str(),
            table: table_at(tables, found[index]),
        })?;
    }
    Ok(aliases)
}

fn access_of(accesses: &[Access], table: u32) -> AliasUse
    ensures { result ≡ spec.used accesses.now table }
{
    let access = match accesses.get(table as usize) {
        Some(access) => *access,
        None => Access {
            scan: true,
            look_up: None,
        },
    };
    AliasUse { table, access }
}

/// The tables of the aliases, which have these places, and how they are reached.
///
/// # Errors
/// `Memory`: there is no memory for them.
pub fn uses_of(
    alloc: Global,
    accesses: &[Access],
    found: &[Option<u32>],
) -> Result<Items<AliasUse>, Memory>
    ensures { IfOk result (λ uses. uses ≡ map (used_at accesses.now) found.now) }
{
    let mut uses = Items::new(alloc);
    for table in found {
        uses.push(access_of(accesses, table.unwrap_or(0)))?;
    }
    Ok(uses)
}
