//! The lines of an answer's text.

ghost use Rattle.std.specs.Prelude.{◌≡◌, List, ℕ, ◌++◌, OnOk};
ghost use Rattle.csv.specs.Writing as csv_text;
ghost use Rattle.csv.specs.Writing.{default_writer, row_text};
ghost use Rattle.bag_meaning.specs.Answer.{heading_fields};
ghost use Rattle.result_sink.specs.Ready.{IsShown, record_text};

use crate::cell::cell_of;
use crate::field::{push_cell, push_field};
use bag_meaning::Combo;
use sq_expr::{Block, ColumnOf};
use sq_value::{Memory, Tables};

/// Puts what stands before the field with this index behind a line.
pub fn push_separator(line: &mut Vec<u8>, index: usize) -> Result<(), Memory>
    ensures { OnOk result (line.new.items ≡ line.old.items ++ csv_text.next_sep default_writer index) }
{
    if index == 0 {
        return Ok(());
    }
    line.push(b',')?;
    Ok(())
}

/// Ends a record. One that shows no byte gets two quotes, which stand for its empty field.
#[tactic(auto, using(crate::proofs::TextLemmas::row_ends))]
pub fn finish_record(line: &mut Vec<u8>) -> Result<(), Memory>
    ensures { OnOk result ((fields : List (List ℕ)) → line.old.items ≡ csv_text.row_body default_writer fields
        → line.new.items ≡ row_text default_writer fields) }
{
    if line.is_empty() {
        line.extend_from_slice(b"\"\"\n")?;
        return Ok(());
    }
    line.push(b'\n')?;
    Ok(())
}

/// Makes a line the heading: the names of the output columns.
pub(crate) fn heading_line(line: &mut Vec<u8>, block: &Block) -> Result<(), Memory>
    ensures { OnOk result (line.new.items ≡ row_text default_writer (heading_fields block.now)) }
{
    line.clear();
    for (index, column) in block.output.as_slice().iter().enumerate() {
        push_separator(line, index)?;
        push_field(line, column.name.as_str().as_bytes())?;
    }
    finish_record(line)
}

/// Makes a line the record of a combination: the values of the output columns.
pub(crate) fn record_line(
    line: &mut Vec<u8>,
    block: &Block,
    tables: &Tables,
    combo: &Combo,
) -> Result<(), Memory>
    requires { IsShown block.now tables.now }
    ensures { OnOk result (line.new.items ≡ record_text block.now tables.now combo.now) }
{
    line.clear();
    for (index, column) in block.output.as_slice().iter().enumerate() {
        push_separator(line, index)?;
        let shown = ColumnOf {
            alias: column.alias,
            column: column.column,
        };
        push_cell(line, cell_of(block, tables, combo, shown))?;
    }
    finish_record(line)
}
