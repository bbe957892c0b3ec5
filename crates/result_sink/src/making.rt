//! The records' text made in several threads: texts in order, each that of a part of the combinations.

ghost use Rattle.std.specs.Prelude.{◌≡◌, IfOk};
ghost use Rattle.std.specs.List.{flat_map};
ghost use Rattle.std.specs.Thread.{IsSync};
ghost use Rattle.result_sink.specs.Ready.{IsShown, record_text};

use crate::ahead::{keep_read, read_shown};
use crate::halving::front_of;
use crate::record::record_line;
use bag_meaning::Combo;
use sq_expr::Block;
use sq_value::{Memory, Tables};
use std::alloc::Global;
use std::thread::{Threads, join};

/// The text of the records of combinations. Each is made in one buffer, and put behind the others.
fn text_of(
    alloc: Global,
    block: &Block,
    tables: &Tables,
    combos: &[Combo],
) -> Result<Vec<u8>, Memory>
    requires { IsShown block.now tables.now }
    ensures { IfOk result (λ text. text.items ≡ flat_map (record_text block.now tables.now) combos.now) }
{
    let mut line = Vec::new(alloc);
    let mut text = Vec::new(alloc);
    let mut place = 0usize;
    for combo in combos {
        keep_read(&mut line, read_shown(block, tables, combos, place));
        place = place.wrapping_add(1);
        record_line(&mut line, block, tables, combo)?;
        text.extend_from_slice(line.as_slice())?;
    }
    Ok(text)
}

/// The text of the records of combinations, in one list.
fn one_text(
    alloc: Global,
    block: &Block,
    tables: &Tables,
    combos: &[Combo],
) -> Result<Vec<Vec<u8>>, Memory>
    requires { IsShown block.now tables.now }
    ensures { IfOk result (λ texts. flat_map (λ text. text.items) texts.items
        ≡ flat_map (record_text block.now tables.now) combos.now) }
{
    let mut texts = Vec::new(alloc);
    texts.push(text_of(alloc, block, tables, combos)?)?;
    Ok(texts)
}

/// The text of the records of combinations, in as many parts as there are threads. Each part is made in
/// a thread of its own where one can be made.
///
/// # Errors
/// `Memory`: there is no memory for a text.
#[cycle(texts)]
pub(crate) fn texts_of<R: Threads + Sync>(
    rt: &R,
    alloc: Global,
    threads: usize,
    block: &Block,
    tables: &Tables,
    combos: &[Combo],
) -> Result<Vec<Vec<u8>>, Memory>
    requires { IsShown block.now tables.now }
    ensures { IfOk result (λ texts. flat_map (λ text. text.items) texts.items
        ≡ flat_map (record_text block.now tables.now) combos.now) }
{
    if threads < 2 {
        return one_text(alloc, block, tables, combos);
    }
    let low = threads / 2;
    let high = threads - low;
    let (front, back) = combos.split_at(front_of(combos.len(), low, threads));
    let first = || -> Result<Vec<Vec<u8>>, Memory>
        requires { IsSync R.row × IsShown block.now tables.now }
        ensures { IfOk result (λ texts. flat_map (λ text. text.items) texts.items
            ≡ flat_map (record_text block.entry.now tables.entry.now) front.entry.now) }
    { texts_of(rt, alloc, low, block, tables, front) };
    let second = || -> Result<Vec<Vec<u8>>, Memory>
        requires { IsSync R.row × IsShown block.now tables.now }
        ensures { IfOk result (λ texts. flat_map (λ text. text.items) texts.items
            ≡ flat_map (record_text block.entry.now tables.entry.now) back.entry.now) }
    { texts_of(rt, alloc, high, block, tables, back) };
    let (ours, theirs) = join(rt, first, second);
    let mut texts = ours?;
    let mut more = theirs?;
    texts.append(&mut more)?;
    Ok(texts)
}
