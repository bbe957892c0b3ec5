//! FROM: the tables that a statement names, its aliases, and the faults of the first round.

ghost use Rattle.std.specs.Prelude.{◌≡◌, ◌<◌, List, [], length, map, IfOk, IfSome, All, slice_get};
ghost use Rattle.std.specs.List.{list_any};
ghost use Rattle.sq_value.specs.Name.{is_same_name};
ghost use Rattle.catalogue.specs.Named.{place_of_table};
ghost use Rattle.sq_parse.specs.declared.tree.Source.{Source};
ghost use Rattle.sq_bind.specs.Fault.{first_of};
ghost use Rattle.sq_bind.specs.Statement as spec;
ghost use Rattle.sq_bind.specs.Statement.{Scope};
ghost use Rattle.sq_bind.specs.Found.{IsFound};

use crate::fault::{BindFault, sooner};
use crate::names::put_alias;
use catalogue::Catalogue;
use sq_parse::{Name, Source};
use sq_value::Memory;
use std::alloc::Global;
use std::collections::BTreeSet;

/// The place of each source's table, where the catalogue has it.
///
/// # Errors
/// `Memory`: there is no memory for them.
pub fn tables_of(
    alloc: Global,
    catalogue: &Catalogue,
    sources: &[Source],
) -> Result<Vec<Option<u32>>, Memory>
    ensures found { IfOk result (λ tables.
        tables.items ≡ map (λ s. place_of_table catalogue.now s.table.text) sources.now) }
    ensures within { IfOk result (λ tables.
        All (λ one. IfSome one (λ table. table < length catalogue.now.tables)) tables.items) }
{
    let mut tables = Vec::new(alloc);
    for source in sources {
        tables.push(catalogue.find(source.table.text.as_str())?)?;
    }
    Ok(tables)
}

fn table_fault(at: u32, table: Option<u32>) -> Option<BindFault>
    ensures { result ≡ first_of (spec.table_faults at table) }
{
    match table {
        Some(_) => None,
        None => Some(BindFault::UnknownTable { at }),
    }
}

// An alias of the same name as one before it.
fn alias_fault(repeated: bool, alias: &Name) -> Option<BindFault>
    ensures { (before : List Source) → repeated ≡ list_any (λ s. is_same_name s.alias.text alias.now.text) before
        → result ≡ first_of (spec.alias_faults before alias.now) }
{
    if repeated {
        Some(BindFault::RepeatedAlias { at: alias.at })
    } else {
        None
    }
}

// A table that isn't there, or an alias that is there already.
#[tactic(auto, using(crate::proofs::FaultLemmas::two_firsts))]
fn source_fault(repeated: bool, source: &Source, table: Option<u32>) -> Option<BindFault>
    ensures { (scope : Scope) (before : List Source) → table ≡ scope.table source.now.table.text
        → repeated ≡ list_any (λ s. is_same_name s.alias.text source.now.alias.text) before
        → result ≡ first_of (spec.source_faults scope before source.now) }
{
    sooner(
        table_fault(source.table.at, table),
        alias_fault(repeated, &source.alias),
    )
}

fn sources_fault(
    alloc: Global,
    sources: &[Source],
    tables: &[Option<u32>],
) -> Result<Option<BindFault>, Memory>
    requires { length tables.now ≡ length sources.now }
    ensures { (scope : Scope) → IsFound scope sources.now tables.now
        → IfOk result (λ fault. fault ≡ first_of (spec.sources_faults scope [] sources.now)) }
{
    let mut names = BTreeSet::new(alloc);
    let mut fault = None;
    for (index, source) in sources.iter().enumerate() {
        let repeated = put_alias(alloc, &mut names, &source.alias)?;
        fault = sooner(fault, source_fault(repeated, source, tables[index]));
    }
    Ok(fault)
}

fn thirteenth_fault(sources: &[Source]) -> Option<BindFault>
    ensures { result ≡ first_of (spec.thirteenth_faults (slice_get sources.now 12)) }
{
    match sources.get(12) {
        Some(source) => Some(BindFault::TooManyAliases {
            at: source.table.at,
        }),
        None => None,
    }
}

/// The first fault of FROM, whose tables have these places.
///
/// # Errors
/// `Memory`: there is no memory for the names of the aliases.
#[tactic(auto, using(crate::proofs::SourceLemmas::from_first))]
pub fn from_fault(
    alloc: Global,
    sources: &[Source],
    tables: &[Option<u32>],
) -> Result<Option<BindFault>, Memory>
    requires { length tables.now ≡ length sources.now }
    ensures { (scope : Scope) → IsFound scope sources.now tables.now
        → IfOk result (λ fault. fault ≡ first_of (spec.from_faults scope sources.now)) }
{
    let fault = sources_fault(alloc, sources, tables)?;
    Ok(sooner(fault, thirteenth_fault(sources)))
}
