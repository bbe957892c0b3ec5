//! Writes the answer of a statement by its matches: its rows in order, or with groups, DISTINCT or LIMIT the lines that
//! are made of them.

ghost use Rattle.std.specs.Prelude.{◌≡◌, ◌∷◌, [], Err, IfOk, OnErr, map};
ghost use Rattle.sq_expr.specs.Fits.{IsFit};
ghost use Rattle.bag_meaning.specs.Answer.{answer, answer_text};
ghost use Rattle.bag_meaning.specs.Bag.{bag};
ghost use Rattle.eddy_runs.specs.Complete.{IsBagOf};
ghost use Rattle.group_sink.specs.Lines.{lines_of, lines_text};
ghost use Rattle.group_sink.specs.declared.line.Line.{Line as TheLine};
ghost use Rattle.result_sink.specs.Ready.{rows_of_combo};
ghost use Rattle.run_base.specs.Items.{item_over};
ghost use Rattle.run_base.specs.Runnable.{IsRunnable, IsShapeFor};
ghost use Rattle.run_base.specs.Seen.{sink_seen};
ghost use Rattle.run_answers.specs.Text.{bound_as, item_text};
ghost use Rattle.run_answers.specs.Wrote.{Put, Wrote};

use crate::engine::Engine;
use crate::stopping::{Stop, stopped};
use bag_meaning::Combo;
use group_sink::{Line, report, write_report};
use outside::Sink;
use result_sink::{par_in_order, par_write_answer};
use sq_expr::{Block, Shape};
use sq_value::{Memory, Predicates, Tables};
use std::thread::Threads;

/// A statement, by its block and its shape, if it has one, and the tables that it is run over.
#[derive(Clone, Copy)]
pub(crate) struct Statement<'t> {
    pub block: &'t Block,
    pub shape: &'t Option<Shape>,
    pub tables: &'t Tables,
}

// The matches of a statement without a shape, in the order of its answer.
fn rows_in_order<P: Predicates, G, R: Threads + Sync>(
    engine: &Engine<'_, P, G, R>,
    block: &Block,
    tables: &Tables,
    combos: Vec<Combo>,
) -> Result<Vec<Combo>, Memory>
    requires fits { IsFit (P.kinds_of engine.now.functions.now) tables.now block.now }
    requires found { IsBagOf P.gives block.now tables.now combos.items }
    ensures { IfOk result (λ sorted. map (rows_of_combo block.now) sorted.items ≡ answer P.gives block.now tables.now) }
{
    let threads = engine.settings.workers as usize;
    par_in_order(engine.rt, threads, block, tables, combos)
}

// Writes the rows of an answer by its matches, in order, by as many threads as there are workers.
fn write_rows<O: Sink, P: Predicates, G, R: Threads + Sync>(
    engine: &Engine<'_, P, G, R>,
    block: &Block,
    tables: &Tables,
    combos: Vec<Combo>,
    out: &mut O,
) -> Result<(), Stop>
    requires fits { IsFit (P.kinds_of engine.now.functions.now) tables.now block.now }
    requires found { IsBagOf P.gives block.now tables.now combos.items }
    ensures { Put (answer_text block.now tables.now (answer P.gives block.now tables.now))
        (sink_seen out.old (O.written out.old) (O.faults out.old))
        (sink_seen out.new (O.written out.new) (O.faults out.new)) result }
{
    let rt = engine.rt;
    let alloc = engine.alloc;
    let threads = engine.settings.workers as usize;
    let Ok(combos) = rows_in_order(engine, block, tables, combos) else {
        return Err(Stop::Memory);
    };
    let combos = combos.as_slice();
    let written = par_write_answer(rt, alloc, threads, block, tables, combos, out);
    stopped(written)
}

// What a shape makes of the matches of a statement.
fn lines_made<P: Predicates, G, R>(
    engine: &Engine<'_, P, G, R>,
    block: &Block,
    shape: &Shape,
    tables: &Tables,
    combos: &[Combo],
) -> Result<Vec<Line>, Memory>
    requires fits { IsFit (P.kinds_of engine.now.functions.now) tables.now block.now }
    requires shaped { IsShapeFor tables.now block.now shape.now }
    requires found { IsBagOf P.gives block.now tables.now combos.now }
    ensures { IfOk result (λ lines. map (λ (line : TheLine). line.cells) lines.items
        ≡ lines_of block.now tables.now shape.now (bag P.gives block.now tables.now)) }
{
    report(engine.alloc, block, shape, tables, combos)
}

// Writes the lines that a shape makes of the matches of a statement.
fn write_lines<O: Sink, P: Predicates, G, R>(
    engine: &Engine<'_, P, G, R>,
    statement: &Statement<'_>,
    shape: &Shape,
    combos: &[Combo],
    out: &mut O,
) -> Result<(), Stop>
    requires fits { IsFit (P.kinds_of engine.now.functions.now) statement.now.tables.now statement.now.block.now }
    requires shaped { IsShapeFor statement.now.tables.now statement.now.block.now shape.now }
    requires found { IsBagOf P.gives statement.now.block.now statement.now.tables.now combos.now }
    ensures { Put (lines_text shape.now (lines_of statement.now.block.now statement.now.tables.now shape.now
        (bag P.gives statement.now.block.now statement.now.tables.now)))
        (sink_seen out.old (O.written out.old) (O.faults out.old))
        (sink_seen out.new (O.written out.new) (O.faults out.new)) result }
{
    let block = statement.block;
    let tables = statement.tables;
    let Ok(lines) = lines_made(engine, block, shape, tables, combos) else {
        return Err(Stop::Memory);
    };
    let written = write_report(engine.alloc, shape, lines.as_slice(), out);
    stopped(written)
}

/// Writes the text of a statement's answer by its matches: its rows, or the lines that its shape makes of them.
///
/// # Errors
/// `Output`: the output's count of faults rose. `Memory`: there is no memory for the order, a record or the lines, and
/// not all of the text was written. After either, a front of it was.
pub(crate) fn write_text<O: Sink, P: Predicates, G, R: Threads + Sync>(
    engine: &Engine<'_, P, G, R>,
    statement: &Statement<'_>,
    combos: Vec<Combo>,
    out: &mut O,
) -> Result<(), Stop>
    requires runs { IsRunnable (P.kinds_of engine.now.functions.now) statement.now.tables.now
        (bound_as statement.now.block.now statement.now.shape.now) }
    requires found { IsBagOf P.gives statement.now.block.now statement.now.tables.now combos.items }
    ensures { Put (item_text P.gives (item_over statement.now.tables.now
        (bound_as statement.now.block.now statement.now.shape.now)))
        (sink_seen out.old (O.written out.old) (O.faults out.old))
        (sink_seen out.new (O.written out.new) (O.faults out.new)) result }
{
    match statement.shape {
        None => write_rows(engine, statement.block, statement.tables, combos, out),
        Some(shape) => write_lines(engine, statement, shape, combos.as_slice(), out),
    }
}

/// The empty line before an answer: one put.
///
/// # Errors
/// `Output`: the output's count of faults rose.
pub(crate) fn put_empty_line<O: Sink>(out: &mut O) -> Result<(), Stop>
    ensures wrote { Wrote (sink_seen out.old (O.written out.old) (O.faults out.old))
        (sink_seen out.new (O.written out.new) (O.faults out.new)) (10 ∷ []) result }
    ensures output { OnErr result (result ≡ Err Stop.Output) }
{
    match out.put(b"\n") {
        Ok(()) => Ok(()),
        Err(_) => Err(Stop::Output),
    }
}
