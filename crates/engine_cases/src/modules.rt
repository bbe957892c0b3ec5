//! State modules of blocks, filled and probed.

ghost use Rattle.std.specs.Prelude.{◌≡◌, ◌<◌, true, length, All, IfOk};
ghost use Rattle.tuple_span.specs.declared.route.Route.TheVariants.{Probe};
ghost use Rattle.eddy_meaning.specs.Faithful.{IsSound};
ghost use Rattle.eddy_meaning.specs.Route.{IsLegal};
ghost use Rattle.eddy_meaning.specs.declared.entry.Entry.{Entry as Entered};
ghost use Rattle.engine_cases.specs.Given.{IsGiven, IsModuleOf};

use crate::tuples::is_row;
use eddy_meaning::Entry;
use sq_expr::Block;
use sq_value::{Memory, NoPredicates, Tables};
use std::alloc::Global;
use stem_module::Stem;
use tuple_span::{Tuple, Via};

// Whether a stamp is above those of all entries.
fn is_later(entries: &[Entry], stamp: u64) -> bool
    ensures { result ≡ true → All (λ (e : Entered). e.stamp < stamp) entries.now }
{
    entries.iter().all(|entry| entry.stamp < stamp)
}

/// Enters a row at a stamp, if that can be.
pub fn enter(
    block: &Block,
    tables: &Tables,
    alias: u8,
    stem: &mut Stem<'_, NoPredicates>,
    entry: Entry,
) -> bool
    requires given { IsGiven tables.now block.now }
    requires of { IsModuleOf block.now tables.now alias stem.old }
    ensures { IsModuleOf block.now tables.now alias stem.new }
{
    if !is_row(block, tables, alias, entry.row) || stem.has(entry.row) {
        return false;
    }
    if !is_later(stem.entries(), entry.stamp) {
        return false;
    }
    stem.build(entry.row, entry.stamp);
    true
}

/// What comes of a legal probe.
///
/// # Errors
/// `Memory`: there is no memory for it, or the tuple has 255 hops.
pub fn probed(
    alloc: Global,
    block: &Block,
    tables: &Tables,
    alias: u8,
    stem: &mut Stem<'_, NoPredicates>,
    tuple: &Tuple,
    via: Via,
) -> Result<Vec<Tuple>, Memory>
    requires of { IsModuleOf block.now tables.now alias stem.old }
    requires sound { IsSound block.now tables.now tuple.now }
    requires legal { IsLegal block.now tuple.now (Probe alias via) }
    ensures { stem.new ≡ stem.old }
{
    // For the proof alone.
    let _block = block;
    let _tables = tables;
    let _alias = alias;
    if tuple.hops() >= 255 {
        return Err(Memory);
    }
    stem.probe(alloc, tuple, via)
}
