//! Writes an answer as CSV: the heading, and a record for each combination.

ghost use Rattle.std.specs.Prelude.{◌≡◌, Err, OnErr, map};
ghost use Rattle.std.specs.List.{flat_map};
ghost use Rattle.csv.specs.Writing.{default_writer, row_text};
ghost use Rattle.bag_meaning.specs.Answer.{heading_fields, answer_text};
ghost use Rattle.result_sink.specs.Ready.{IsShown, rows_of_combo, record_text};
ghost use Rattle.result_sink.specs.Wrote.{Wrote};

use crate::ahead::{keep_read, read_shown};
use crate::blocks::put_blocks;
use crate::fault::WriteFault;
use crate::halving::MANY;
use crate::record::{heading_line, record_line};
use bag_meaning::Combo;
use outside::Sink;
use sq_expr::Block;
use sq_value::Tables;
use std::alloc::Global;

/// One put of a line.
pub fn put_line<O: Sink>(line: &[u8], out: &mut O) -> Result<(), WriteFault>
    ensures wrote { Wrote line.now
        (O.written out.old) (O.written out.new) (O.faults out.old) (O.faults out.new) result }
    ensures only { OnErr result (result ≡ Err WriteFault.Failed) }
{
    match out.put(line) {
        Ok(()) => Ok(()),
        Err(_) => Err(WriteFault::Failed),
    }
}

/// One put of the heading.
pub(crate) fn put_heading<O: Sink>(
    line: &mut Vec<u8>,
    block: &Block,
    out: &mut O,
) -> Result<(), WriteFault>
    ensures wrote { Wrote (row_text default_writer (heading_fields block.now))
        (O.written out.old) (O.written out.new) (O.faults out.old) (O.faults out.new) result }
{
    match heading_line(line, block) {
        Ok(()) => put_line(line, out),
        Err(_) => Err(WriteFault::Memory),
    }
}

/// One put of the record of a combination.
fn put_record<O: Sink>(
    line: &mut Vec<u8>,
    block: &Block,
    tables: &Tables,
    combo: &Combo,
    out: &mut O,
) -> Result<(), WriteFault>
    requires { IsShown block.now tables.now }
    ensures wrote { Wrote (record_text block.now tables.now combo.now)
        (O.written out.old) (O.written out.new) (O.faults out.old) (O.faults out.new) result }
{
    match record_line(line, block, tables, combo) {
        Ok(()) => put_line(line, out),
        Err(_) => Err(WriteFault::Memory),
    }
}

/// A put for each combination, in order.
fn put_records<O: Sink>(
    line: &mut Vec<u8>,
    block: &Block,
    tables: &Tables,
    combos: &[Combo],
    out: &mut O,
) -> Result<(), WriteFault>
    requires { IsShown block.now tables.now }
    ensures wrote { Wrote (flat_map (record_text block.now tables.now) combos.now)
        (O.written out.old) (O.written out.new) (O.faults out.old) (O.faults out.new) result }
{
    let mut place = 0usize;
    for combo in combos {
        keep_read(line, read_shown(block, tables, combos, place));
        place = place.wrapping_add(1);
        put_record(line, block, tables, combo, out)?;
    }
    Ok(())
}

/// The records of combinations, in order: a put for each; where there are more than 4,096, a put for each block of up
/// to 64 KiB.
fn put_lines<O: Sink>(
    alloc: Global,
    line: &mut Vec<u8>,
    block: &Block,
    tables: &Tables,
    combos: &[Combo],
    out: &mut O,
) -> Result<(), WriteFault>
    requires { IsShown block.now tables.now }
    ensures wrote { Wrote (flat_map (record_text block.now tables.now) combos.now)
        (O.written out.old) (O.written out.new) (O.faults out.old) (O.faults out.new) result }
{
    if combos.len() > MANY {
        return put_blocks(alloc, line, block, tables, combos, out);
    }
    put_records(line, block, tables, combos, out)
}

/// Writes an answer: the heading, and a record for each combination, in the given order. Each
/// record is one put; where there are more than 4,096, each block of up to 64 KiB of whole records is one.
///
/// The block has at most 12 aliases, and its output columns are there. A row that isn't there is
/// one of nulls.
///
/// # Errors
/// `Failed`: the output's count of faults rose. `Memory`: there is no memory for a record, and not all of
/// the text was written. After either, a front of the answer's text was written.
pub fn write_answer<O: Sink>(
    alloc: Global,
    block: &Block,
    tables: &Tables,
    combos: &[Combo],
    out: &mut O,
) -> Result<(), WriteFault>
    requires { IsShown block.now tables.now }
    ensures wrote { Wrote (answer_text block.now tables.now (map (rows_of_combo block.now) combos.now))
        (O.written out.old) (O.written out.new) (O.faults out.old) (O.faults out.new) result }
{
    let mut line = Vec::new(alloc);
    put_heading(&mut line, block, out)?;
    put_lines(alloc, &mut line, block, tables, combos, out)
}
