//! Writes lines as CSV: the heading, and a record for each line.
ghost use Rattle.std.specs.Prelude.{◌≡◌, ◌++◌, List, ℕ, OnOk, map};
ghost use Rattle.std.specs.List.{flat_map};
ghost use Rattle.csv.specs.Writing.{default_writer, field_text, row_text};
ghost use Rattle.sq_value.specs.Decimal.{decimal_text};
ghost use Rattle.result_sink.specs.Wrote.{Wrote};
ghost use Rattle.group_sink.specs.Lines.{lines_text, out_text};
ghost use Rattle.group_sink.specs.Texts.{heading_text, line_text};
ghost use Rattle.group_sink.specs.declared.line.Line.{Line as TheLine};

use crate::line::{Line, Out};
use crate::number::push_number;
use outside::Sink;
use result_sink::{WriteFault, finish_record, push_field, push_separator, put_line};
use sq_expr::Shape;
use sq_value::Memory;
use std::alloc::Global;

/// Puts the field of a number after a line. The number's text is made beside it.
fn push_units(line: &mut Vec<u8>, text: &mut Vec<u8>, units: i128, scale: u8) -> Result<(), Memory>
    ensures { OnOk result (line.new.items
        ≡ line.old.items ++ field_text default_writer (decimal_text record { units = units; scale = scale })) }
{
    text.clear();
    push_number(text, units, scale)?;
    push_field(line, text.as_slice())
}

/// Puts the field of a cell after a line. A null is an empty field.
fn push_out(line: &mut Vec<u8>, text: &mut Vec<u8>, out: &Out) -> Result<(), Memory>
    ensures { OnOk result (line.new.items ≡ line.old.items ++ field_text default_writer (out_text out.now)) }
{
    match out {
        Out::Null => Ok(()),
        Out::Number { units, scale } => push_units(line, text, *units, *scale),
        Out::Text(text) => push_field(line, text.as_str().as_bytes()),
    }
}

/// Makes a line the heading: the names of the cells.
fn heading_line(line: &mut Vec<u8>, shape: &Shape) -> Result<(), Memory>
    ensures { OnOk result (line.new.items ≡ heading_text shape.now) }
{
    line.clear();
    for (index, cell) in shape.cells.as_slice().iter().enumerate() {
        push_separator(line, index)?;
        push_field(line, cell.name.as_str().as_bytes())?;
    }
    finish_record(line)
}

/// Makes a line the record of the cells that are shown.
fn record_line(line: &mut Vec<u8>, text: &mut Vec<u8>, shown: &Line) -> Result<(), Memory>
    ensures { OnOk result (line.new.items ≡ line_text shown.now) }
{
    line.clear();
    for (index, cell) in shown.cells.as_slice().iter().enumerate() {
        push_separator(line, index)?;
        push_out(line, text, cell)?;
    }
    finish_record(line)
}

/// One put of the heading.
fn put_heading<O: Sink>(line: &mut Vec<u8>, shape: &Shape, out: &mut O) -> Result<(), WriteFault>
    ensures wrote { Wrote (heading_text shape.now)
        (O.written out.old) (O.written out.new) (O.faults out.old) (O.faults out.new) result }
{
    match heading_line(line, shape) {
        Ok(()) => put_line(line, out),
        Err(_) => Err(WriteFault::Memory),
    }
}

/// One put of the record of a line.
fn put_record<O: Sink>(
    line: &mut Vec<u8>,
    text: &mut Vec<u8>,
    shown: &Line,
    out: &mut O,
) -> Result<(), WriteFault>
    ensures wrote { Wrote (line_text shown.now)
        (O.written out.old) (O.written out.new) (O.faults out.old) (O.faults out.new) result }
{
    match record_line(line, text, shown) {
        Ok(()) => put_line(line, out),
        Err(_) => Err(WriteFault::Memory),
    }
}

/// A put for each line, in order.
fn put_records<O: Sink>(
    alloc: Global,
    line: &mut Vec<u8>,
    lines: &[Line],
    out: &mut O,
) -> Result<(), WriteFault>
    ensures wrote { Wrote (flat_map line_text lines.now)
        (O.written out.old) (O.written out.new) (O.faults out.old) (O.faults out.new) result }
{
    let mut text = Vec::new(alloc);
    for shown in lines {
        put_record(line, &mut text, shown, out)?;
    }
    Ok(())
}

/// Writes lines: the heading of the cells' names, and a record for each line, in the given order. Each
/// record is one put, and each is made in one buffer.
///
/// # Errors
/// `Failed`: the output's count of faults rose. `Memory`: there is no memory for a record, and not all of
/// the text was written. After either, a front of the text was written.
pub fn write_report<O: Sink>(
    alloc: Global,
    shape: &Shape,
    lines: &[Line],
    out: &mut O,
) -> Result<(), WriteFault>
    ensures wrote { Wrote (lines_text shape.now (map (λ (line : TheLine). line.cells) lines.now))
        (O.written out.old) (O.written out.new) (O.faults out.old) (O.faults out.new) result }
{
    let mut line = Vec::new(alloc);
    put_heading(&mut line, shape, out)?;
    put_records(alloc, &mut line, lines, out)
}
