//! Writes an answer as CSV, with its records made in several threads.

ghost use Rattle.std.specs.Prelude.{◌≡◌, ◌<◌, Err, OnErr, length, map};
ghost use Rattle.std.specs.List.{flat_map};
ghost use Rattle.bag_meaning.specs.Answer.{answer_text};
ghost use Rattle.result_sink.specs.Ready.{IsShown, rows_of_combo, record_text};
ghost use Rattle.result_sink.specs.Wrote.{Wrote};

use crate::fault::WriteFault;
use crate::halving::MANY;
use crate::making::texts_of;
use crate::writing::{put_heading, put_line, write_answer};
use bag_meaning::Combo;
use outside::Sink;
use sq_expr::Block;
use sq_value::Tables;
use std::alloc::Global;
use std::thread::Threads;

/// How many records are made before they are put, by all threads together. Their text is held at once.
const WINDOW: usize = 65_536;

/// A put for each text, in order.
fn put_texts<O: Sink>(texts: &[Vec<u8>], out: &mut O) -> Result<(), WriteFault>
    ensures wrote { Wrote (flat_map (λ text. text.items) texts.now)
        (O.written out.old) (O.written out.new) (O.faults out.old) (O.faults out.new) result }
    ensures only { OnErr result (result ≡ Err WriteFault.Failed) }
{
    for text in texts {
        put_line(text.as_slice(), out)?;
    }
    Ok(())
}

/// The records of some combinations, in as many puts as there are threads.
fn put_some<O: Sink, R: Threads + Sync>(
    rt: &R,
    alloc: Global,
    threads: usize,
    block: &Block,
    tables: &Tables,
    combos: &[Combo],
    out: &mut O,
) -> Result<(), WriteFault>
    requires shown { IsShown block.now tables.now }
    requires some { 0 < length combos.now }
    ensures wrote { Wrote (flat_map (record_text block.now tables.now) combos.now)
        (O.written out.old) (O.written out.new) (O.faults out.old) (O.faults out.new) result }
{
    match texts_of(rt, alloc, threads, block, tables, combos) {
        Ok(texts) => put_texts(texts.as_slice(), out),
        Err(_) => Err(WriteFault::Memory),
    }
}

/// Puts the records of combinations, in order, each made by one of so many threads.
///
/// # Errors
/// - `Failed`: a put of the sink failed.
/// - `Memory`: there is no memory for it.
pub fn put_all<O: Sink, R: Threads + Sync>(
    rt: &R,
    alloc: Global,
    threads: usize,
    block: &Block,
    tables: &Tables,
    combos: &[Combo],
    out: &mut O,
) -> Result<(), WriteFault>
    requires { IsShown block.now tables.now }
    ensures wrote { Wrote (flat_map (record_text block.now tables.now) combos.now)
        (O.written out.old) (O.written out.new) (O.faults out.old) (O.faults out.new) result }
{
    let mut rest = combos;
    while !rest.is_empty() {
        let (some, more) = rest.split_at(WINDOW.min(rest.len()));
        put_some(rt, alloc, threads, block, tables, some, out)?;
        rest = more;
    }
    Ok(())
}

/// Writes an answer as `write_answer` does, but makes the records of a large one in up to so many
/// threads, 65,536 at a time. Their texts are held until they are put, each in one put for every thread.
///
/// # Errors
/// `Failed`: the output's count of faults rose. `Memory`: there is no memory for a record or for the texts, and
/// not all of the text was written. After either, a front of the answer's text was written.
pub fn par_write_answer<O: Sink, R: Threads + Sync>(
    rt: &R,
    alloc: Global,
    threads: usize,
    block: &Block,
    tables: &Tables,
    combos: &[Combo],
    out: &mut O,
) -> Result<(), WriteFault>
    requires { IsShown block.now tables.now }
    ensures wrote { Wrote (answer_text block.now tables.now (map (rows_of_combo block.now) combos.now))
        (O.written out.old) (O.written out.new) (O.faults out.old) (O.faults out.new) result }
{
    if threads < 2 || combos.len() < MANY {
        return write_answer(alloc, block, tables, combos, out);
    }
    put_heading(&mut Vec::new(alloc), block, out)?;
    put_all(rt, alloc, threads, block, tables, combos, out)
}
