//! The records of a large answer in blocks: whole records until 64 KiB are full, and one put for each block.

ghost use Rattle.std.specs.Prelude.{◌≡◌, ◌<◌, ◌≤◌, ◌++◌, List, IfOk, length, take};
ghost use Rattle.std.specs.List.{flat_map};
ghost use Rattle.result_sink.specs.Ready.{IsShown, record_text};
ghost use Rattle.result_sink.specs.Wrote.{Wrote};

use crate::ahead::{keep_read, read_shown};
use crate::fault::WriteFault;
use crate::record::record_line;
use crate::writing::put_line;
use bag_meaning::Combo;
use outside::Sink;
use sq_expr::Block;
use sq_value::{Memory, Tables};
use std::alloc::Global;

/// A block has at most so many bytes, but for a single record that is longer.
const FULL: usize = 65_536;

/// Makes a text the records of the first combinations, at least one and as many as fit into a block, and gives how
/// many they are. The record of the next one may be left in the line.
///
/// # Errors
/// There is no memory for a record or the text.
fn fill(
    text: &mut Vec<u8>,
    line: &mut Vec<u8>,
    block: &Block,
    tables: &Tables,
    combos: &[Combo],
) -> Result<usize, Memory>
    requires shown { IsShown block.now tables.now }
    requires some { 0 < length combos.now }
    ensures some { IfOk result (λ many. (0 < many) × (many ≤ length combos.now)) }
    ensures text { IfOk result (λ many. text.new.items
        ≡ flat_map (record_text block.now tables.now) (take many combos.now)) }
{
    text.clear();
    for (many, combo) in combos.iter().enumerate() {
        keep_read(line, read_shown(block, tables, combos, many));
        record_line(line, block, tables, combo)?;
        if many > 0 && text.len().saturating_add(line.len()) > FULL {
            return Ok(many);
        }
        text.extend_from_slice(line.as_slice())?;
    }
    Ok(combos.len())
}

/// Puts a block of the records of the first combinations, and gives those that are left.
fn put_block<'c, O: Sink>(
    text: &mut Vec<u8>,
    line: &mut Vec<u8>,
    block: &Block,
    tables: &Tables,
    combos: &'c [Combo],
    out: &mut O,
) -> Result<&'c [Combo], WriteFault>
    requires shown { IsShown block.now tables.now }
    requires some { 0 < length combos.now }
    ensures fewer { IfOk result (λ rest. length rest.now < length combos.now) }
    ensures wrote { (some : List Combo) × (more : List Combo) × (combos.now ≡ some ++ more)
        × IfOk result (λ rest. rest.now ≡ more) × Wrote (flat_map (record_text block.now tables.now) some)
        (O.written out.old) (O.written out.new) (O.faults out.old) (O.faults out.new) result }
{
    let Ok(many) = fill(text, line, block, tables, combos) else {
        return Err(WriteFault::Memory);
    };
    let (_, rest) = combos.split_at(many);
    put_line(text.as_slice(), out)?;
    Ok(rest)
}

/// A put for each block of the records of combinations, in order. A block is held until it is put.
pub(crate) fn put_blocks<O: Sink>(
    alloc: Global,
    line: &mut Vec<u8>,
    block: &Block,
    tables: &Tables,
    combos: &[Combo],
    out: &mut O,
) -> Result<(), WriteFault>
    requires { IsShown block.now tables.now }
    ensures wrote { Wrote (flat_map (record_text block.now tables.now) combos.now)
        (O.written out.old) (O.written out.new) (O.faults out.old) (O.faults out.new) result }
{
    let mut text = Vec::new(alloc);
    let mut rest = combos;
    while !rest.is_empty() {
        rest = put_block(&mut text, line, block, tables, rest, out)?;
    }
    Ok(())
}
