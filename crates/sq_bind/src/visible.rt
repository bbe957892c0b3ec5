//! The aliases that a part of a statement sees, and what a column's name means there.

ghost use Rattle.std.specs.Prelude.{◌≡◌, ◌≤◌, length, map};
ghost use Rattle.std.specs.List.{flat_map};
ghost use Rattle.std.specs.Option.{option_map};
ghost use Rattle.sq_parse.specs.Tree as tree;
ghost use Rattle.sq_bind.specs.Visible as spec;
ghost use Rattle.sq_bind.specs.Visible.{named, named_at, called};
ghost use Rattle.sq_bind.specs.Seen as found;
ghost use Rattle.sq_bind.specs.Seen.{seen, tally, both};

use crate::fault::BindFault;
use sq_expr::ColumnOf;
use sq_parse::{ColRef, column_place};
use sq_value::{ColType, Column, Table, same_name};

/// An alias that a part of a statement sees: its number, its name and its table.
#[derive(Clone, Copy, Debug)]
pub struct SeenAlias<'t> {
    /// Its number, from 0.
    pub number: u8,
    /// Its name.
    pub name: &'t str,
    /// Its table.
    pub table: &'t Table,
}

/// A column that a name means, and its type.
#[derive(Clone, Copy, Debug)]
pub struct Resolved {
    /// The column.
    pub column: ColumnOf,
    /// The type of its values.
    pub kind: ColType,
}

// The columns of a name: none, one, or more.
#[derive(Clone, Copy)]
enum Found {
    None,
    One(Resolved),
    More,
}

impl Found {
    fn and(self, other: Found) -> Found
        ensures { result ≡ both self other }
    {
        match (self, other) {
            (Found::None, other) => other,
            (found, Found::None) => found,
            _ => Found::More,
        }
    }

    // The only one.
    fn only(self, at: u32) -> Result<Resolved, BindFault>
        ensures { result ≡ found.only_of at self }
    {
        match self {
            Found::None => Err(BindFault::UnknownColumn { at }),
            Found::One(meant) => Ok(meant),
            Found::More => Err(BindFault::AmbiguousColumn { at }),
        }
    }
}

// A column of an alias, where it has the name.
fn found_at(alias: u8, index: u32, column: &Column, name: &str) -> Found
    ensures { result ≡ tally (named_at alias index name.now column.now) }
{
    if same_name(column.name.as_str(), name) {
        Found::One(Resolved {
            column: ColumnOf {
                alias,
                column: index,
            },
            kind: column.kind,
        })
    } else {
        Found::None
    }
}

// Those of an alias's columns that have a name.
#[tactic(auto, using(crate::proofs::VisibleLemmas::next_column, crate::proofs::VisibleLemmas::no_column))]
fn found_among(alias: u8, columns: &[Column], name: &str) -> Found
    requires { length columns.now ≤ 64 }
    ensures { result ≡ tally (spec.named_from alias 0 name.now columns.now) }
{
    let mut found = Found::None;
    for (index, column) in columns.iter().enumerate() {
        found = found.and(found_at(alias, index as u32, column, name));
    }
    found
}

// The columns of an alias that have a name.
fn found_in(alias: &SeenAlias<'_>, name: &str) -> Found
    ensures { result ≡ tally (named name.now (seen alias.now)) }
{
    found_among(alias.number, alias.table.columns(), name)
}

// The columns of all aliases that have a name.
#[tactic(auto, using(crate::proofs::VisibleLemmas::next_alias, crate::proofs::VisibleLemmas::both_none))]
fn found_anywhere(aliases: &[SeenAlias<'_>], name: &str) -> Found
    ensures { result ≡ tally (flat_map (named name.now) (map seen aliases.now)) }
{
    let mut found = Found::None;
    for alias in aliases {
        found = found.and(found_in(alias, name));
    }
    found
}

/// The alias that has a name.
pub fn called<'a, 't>(aliases: &'a [SeenAlias<'t>], name: &str) -> Option<&'a SeenAlias<'t>>
    ensures { option_map (λ a. seen a.now) result ≡ called name.now (map seen aliases.now) }
{
    for alias in aliases {
        if same_name(alias.name, name) {
            return Some(alias);
        }
    }
    None
}

fn meant_in(
    aliases: &[SeenAlias<'_>],
    at: u32,
    alias: &str,
    name: &str,
) -> Result<Resolved, BindFault>
    ensures { result ≡ spec.meant_in at name.now (called alias.now (map seen aliases.now)) }
{
    match called(aliases, alias) {
        Some(alias) => found_in(alias, name).only(at),
        None => Err(BindFault::UnknownAlias { at }),
    }
}

/// What a column means to those who see these aliases.
///
/// # Errors
/// At the column's first token. `UnknownAlias`: no alias has the name in front of it.
/// `UnknownColumn`: that alias, or with no alias in front each one, lacks the column.
/// `AmbiguousColumn`: two or more aliases have it.
#[tactic(auto, unfolding(crate::specs::Visible::meant))]
pub fn resolve(aliases: &[SeenAlias<'_>], column: &ColRef) -> Result<Resolved, BindFault>
    ensures { result ≡ spec.meant (map seen aliases.now) column.now }
{
    let at = column_place(column);
    let name = column.column.text.as_str();
    match &column.alias {
        Some(alias) => meant_in(aliases, at, alias.text.as_str(), name),
        None => found_anywhere(aliases, name).only(at),
    }
}
