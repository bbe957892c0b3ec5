//! Answers whose order and text were worked out by hand, over one small table.
ghost use Rattle.std.specs.Prelude.{◌≡◌, ◌≤◌, [], IfOk, IfSome};
ghost use Rattle.sq_value.specs.Relation.{IsRow, HasKind};
ghost use Rattle.sq_value.specs.declared.value.ColType.TheVariants as kind;
ghost use Rattle.worked_cases.specs.Ready.{IsReady, answer_columns};

use crate::given::{combo, falling};
use bag_meaning::Combo;
use case_kit::block_of_case;
use catalogue::{Catalogue, CatalogueFault};
use outside::{MemorySink, Sink, SureSink};
use result_sink::{WriteFault, in_order, ordered_by, put_all, put_line, write_answer};
use sq_expr::Block;
use sq_value::{ColType, Column, Dec, Memory, NoPredicates, SqText, Table, Value};
use std::alloc::Global;
use std::process::Abort;
use std::test::Fail;
use std::thread::Threads;

/// A row of the table: n, t, and the units of d and e.
type Given = (Option<i64>, &'static str, Option<i64>, Option<i64>);

const ROWS: [Given; 6] = [
    (Some(1), "b", Some(5), None),
    (None, "a,b", Some(-5), Some(-1)),
    (Some(i64::MIN), "say \"a\"", Some(100), Some(12_000)),
    (Some(i64::MAX), "", None, Some(0)),
    (Some(1), "two\nlines\r", Some(5), Some(123_456)),
    (None, "a", Some(-1_234), Some(i64::MAX)),
];

/// The order of two aliases of the table, a bar, and the rows of alias 0 in this order.
const ORDERS: &str = "\
| 012345
ORDER BY a.n | 204315
ORDER BY a.n NULLS FIRST | 152043
ORDER BY a.n DESC NULLS LAST | 304215
ORDER BY a.n DESC NULLS FIRST | 153042
ORDER BY a.t | 351024
ORDER BY a.d | 510423
ORDER BY a.d DESC NULLS LAST, a.e DESC NULLS FIRST | 204153
ORDER BY b.e NULLS FIRST, a.n DESC NULLS LAST, a.n | 215304";

/// The combinations that are put in order.
const UNORDERED: [(u32, u32); 6] = [(5, 0), (4, 1), (3, 1), (2, 0), (1, 0), (0, 1)];

/// A statement and combinations, and the text of their answer: its heading, and its records.
const WRITTEN: &str =
    "SELECT a.n AS x, a.t AS x, a.d AS x, a.e AS x, b.e AS \"y,\"\"z\"\"\" FROM t a, t b";

const PAIRS: [(u32, u32); 6] = [(5, 0), (4, 1), (3, 2), (2, 0), (1, 0), (0, 3)];

const HEADING: &str = "x,x,x,x,\"y,\"\"z\"\"\"\n";

const RECORDS: &str = "\
,a,-12.34,922337203685477.5807,\n1,\"two\nlines\r\",0.05,12.3456,-0.0001\n\
9223372036854775807,,,0.0000,1.2000\n-9223372036854775808,\"say \"\"a\"\"\",1.00,1.2000,\n\
,\"a,b\",-0.05,-0.0001,\n1,b,0.05,,0.0000\n";

fn column(alloc: Global, name: &str, kind: ColType) -> Result<Column, Memory>
    ensures { IfOk result (λ c. c ≡ record { name = name.now; kind = kind }) }
{
    let name = SqText::of(alloc, name)?;
    Ok(Column { name, kind })
}

fn integer(number: Option<i64>) -> Value
    ensures { HasKind kind.Integer result }
{
    match number {
        Some(number) => Value::Int(number),
        None => Value::Null,
    }
}

fn decimal(units: Option<i64>, scale: u8) -> Value
    requires { scale ≤ 6 }
    ensures { HasKind (kind.Decimal scale) result }
{
    match units {
        Some(units) => Value::Decimal(Dec { units, scale }),
        None => Value::Null,
    }
}

fn row(alloc: Global, given: Given) -> Result<Vec<Value>, Memory>
    ensures { IfOk result (λ values. IsRow answer_columns values.items) }
{
    let (number, text, two, four) = given;
    let text = Value::Text(SqText::of(alloc, text)?);
    Ok(vec![in alloc; integer(number), text, decimal(two, 2), decimal(four, 4)]?)
}

fn empty_table(alloc: Global) -> Result<Table, Memory>
    ensures { IfOk result (λ table. table ≡ record { columns = answer_columns; rows = [] }) }
{
    let columns = vec![in alloc;
        column(alloc, "n", ColType::Integer)?,
        column(alloc, "t", ColType::Text)?,
        column(alloc, "d", ColType::Decimal(2))?,
        column(alloc, "e", ColType::Decimal(4))?,
    ]?;
    Table::new(alloc, columns)
}

/// The table: n INTEGER, t TEXT, d DECIMAL(2), e DECIMAL(4), with six rows.
fn sample_table(alloc: Global) -> Result<Table, Memory> {
    let mut table = empty_table(alloc)?;
    for given in ROWS {
        if table.rows() < 1000 {
            table.push_row(row(alloc, given)?)?;
        }
    }
    Ok(table)
}

/// The catalogue of this table, t.
fn sample_catalogue(alloc: Global) -> Result<Catalogue, CatalogueFault> {
    let table = sample_table(alloc)?;
    let mut catalogue = Catalogue::new(alloc);
    catalogue.add("t", table)?;
    Ok(catalogue)
}

/// The block of a statement.
#[tactic(auto, using(crate::proofs::ReadyLemmas::fit_ready))]
fn block_of(alloc: Global, catalogue: &Catalogue, text: &str) -> Result<Option<Block>, Memory>
    ensures { IfOk result (λ block. IfSome block (IsReady catalogue.now.tables)) }
{
    block_of_case(alloc, catalogue, "s", text, &NoPredicates)
}

/// Whether the rows of alias 0 of some combinations are these digits.
fn are_rows(combos: &[Combo], digits: &str) -> bool {
    let digits = digits.as_bytes();
    for (place, combo) in combos.iter().enumerate() {
        if digits.get(place).map(|digit| u32::from(*digit))
            != Some(combo.rows[0].wrapping_add(48))
        {
            return false;
        }
    }
    combos.len() == digits.len()
}

/// Whether six combinations that arrive with falling rows of alias 0 are put in order, by one thread and by several.
#[tactic(auto, using(crate::proofs::ReadyLemmas::some_apart))]
fn are_ordered<R: Threads + Sync>(
    rt: &R,
    alloc: Global,
    catalogue: &Catalogue,
    block: &Block,
    digits: &str,
) -> Result<bool, Fail>
    requires ready { IsReady catalogue.now.tables block.now }
{
    let tables = catalogue.tables();
    let sorted = in_order(block, tables, falling(alloc, &UNORDERED)?)?;
    let mut right = are_rows(sorted.as_slice(), digits);
    for threads in [1, 2, 3, 5, 16] {
        let again = falling(alloc, &UNORDERED)?;
        let sorted = ordered_by(rt, threads, block, tables, again)?;
        right &= are_rows(sorted.as_slice(), digits);
    }
    Ok(right)
}

#[test]
fn answers_are_ordered(rt: HostRuntime) -> Result<(), Fail> {
    let alloc = rt.alloc();
    let catalogue = sample_catalogue(alloc)?;
    for case in ORDERS.lines() {
        let (order, digits) = case.split_once("| ").unwrap_or(("", ""));
        let text = format!(in alloc; "SELECT a.n FROM t a, t b {order}")?;
        let right = match block_of(alloc, &catalogue, text.as_str())? {
            Some(block) => are_ordered(&rt, alloc, &catalogue, &block, digits)?,
            None => false,
        };
        assert!(rt; right, "{case}");
    }
    Ok(())
}

/// Whether the text of an answer is written by one thread, and its records by several.
fn are_written<R: Threads + Sync>(
    rt: &R,
    alloc: Global,
    catalogue: &Catalogue,
    block: &Block,
) -> Result<bool, Fail>
    requires ready { IsReady catalogue.now.tables block.now }
{
    let tables = catalogue.tables();
    let combos = falling(alloc, &PAIRS)?;
    let mut out = SureSink::with_room(alloc, 1000)?;
    write_answer(alloc, block, tables, combos.as_slice(), &mut out)?;
    let text = format!(in alloc; "{HEADING}{RECORDS}")?;
    let mut right = out.written() == text.as_bytes();
    for threads in [1, 2, 3, 5, 16] {
        let mut out = SureSink::with_room(alloc, 1000)?;
        put_line(HEADING.as_bytes(), &mut out)?;
        put_all(
            rt,
            alloc,
            threads,
            block,
            tables,
            combos.as_slice(),
            &mut out,
        )?;
        right &= out.written() == text.as_bytes();
    }
    Ok(right)
}

/// Whether an answer whose fourth put fails ends there, and leaves a sink that takes more.
fn ends_at_a_fault(alloc: Global, catalogue: &Catalogue, block: &Block) -> Result<bool, Fail>
    requires ready { IsReady catalogue.now.tables block.now }
{
    let combos = falling(alloc, &[(5, 0), (3, 0), (0, 0)])?;
    let mut out = MemorySink::with_room(alloc, 100)?;
    out.fail_at(4, 1)?;
    let fault = write_answer(
        alloc,
        block,
        catalogue.tables(),
        combos.as_slice(),
        &mut out,
    )
    .err();
    Ok(
        fault == Some(WriteFault::Failed)
            && out.written() == "x\na\n\"\"\nb".as_bytes()
            && out.faults() == 1
            && out.put(b"!") == Ok(()),
    )
}

/// So many combinations whose rows aren't in the table.
fn rowless(alloc: Global, many: u32) -> Result<Vec<Combo>, Memory> {
    let mut combos = Vec::with_capacity(alloc, many as usize)?;
    for row in 0..many {
        combos.push(combo(row.saturating_add(1_000), 0))?;
    }
    Ok(combos)
}

/// How many bytes are taken of so many such records, where the third put fails.
fn taken_of(alloc: Global, catalogue: &Catalogue, block: &Block, many: u32) -> Result<usize, Fail>
    requires ready { IsReady catalogue.now.tables block.now }
{
    let combos = rowless(alloc, many)?;
    let mut out = MemorySink::with_room(alloc, 200_000)?;
    out.fail_at(3, 0)?;
    // (what it answers is not asked for here)
    let _fault = write_answer(
        alloc,
        block,
        catalogue.tables(),
        combos.as_slice(),
        &mut out,
    );
    Ok(out.written().len())
}

#[test]
fn answers_are_written(rt: HostRuntime) -> Result<(), Fail> {
    let alloc = rt.alloc();
    let catalogue = sample_catalogue(alloc)?;
    let right = match block_of(alloc, &catalogue, WRITTEN)? {
        Some(block) => are_written(&rt, alloc, &catalogue, &block)?,
        None => false,
    };
    assert!(rt; right);
    let right = match block_of(alloc, &catalogue, "SELECT a.t AS x FROM t a, t b")? {
        Some(block) => ends_at_a_fault(alloc, &catalogue, &block)?,
        None => false,
    };
    assert!(rt; right);
    Ok(())
}

/// Whether what is taken of so many records is what was worked out.
fn are_taken(alloc: Global, catalogue: &Catalogue, block: &Block) -> Result<bool, Fail>
    requires ready { IsReady catalogue.now.tables block.now }
{
    Ok(
        taken_of(alloc, catalogue, block, 4_096)? == 15
            && taken_of(alloc, catalogue, block, 4_097)? == 10 + 5 * 4_097
            && taken_of(alloc, catalogue, block, 20_000)? == 10 + 5 * 13_107,
    )
}

/// Records of five nulls are five bytes each, so that 13,107 of them are a block: the third put is the second block's.
#[test]
fn large_answers_are_put_in_blocks(rt: HostRuntime) -> Result<(), Fail> {
    let alloc = rt.alloc();
    let catalogue = sample_catalogue(alloc)?;
    let text = "SELECT a.n AS x, a.t AS x, a.d AS x, a.e AS x, a.e AS x FROM t a, t b";
    let right = match block_of(alloc, &catalogue, text)? {
        Some(block) => are_taken(alloc, &catalogue, &block)?,
        None => false,
    };
    assert!(rt; right);
    Ok(())
}
