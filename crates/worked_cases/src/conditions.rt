//! The truth of conditions, worked out by hand over two rows of a table: alias 0 has the last one,
//! and alias 1 the first one.
ghost use Rattle.std.specs.Prelude.{◌≡◌, ◌<◌, length, IfOk};
ghost use Rattle.sq_value.specs.Relation.{IsHeading, IsRow};
ghost use Rattle.sq_value.specs.declared.value.Value.TheVariants as value;
ghost use Rattle.worked_cases.specs.SampleConditions.{sample_columns};
ghost use Rattle.sq_expr.specs.Fits.{FitsCond, Covers};

mod written;

use sq_expr::{Chosen, Cond};
use sq_value::{
    Cmp, ColType, Column, Dec, Kinds, Memory, Predicates, SqText, Table, Tables, Truth, Value,
    compare,
};
use std::alloc::Global;
use std::test::Fail;
use written::{Words, condition, operand};

/// A condition, and its truth: T, U or F.
const CASES: &str = "\
not eq cid 1|U
or eq cid 1 eq amt 9|T
not istrue eq cid 1|T
not or eq amt 5 eq amt null|U
or eq amt 9 eq amt null|T
eq 8*amt+-1*amt 63|T
eq null amt|U
eq amt cid|U
eq 1*cid+1 1|U
ne null amt|U
ne amt cid|U
ne 1*cid+1 1|U
lt null amt|U
lt amt cid|U
lt 1*cid+1 1|U
le null amt|U
le amt cid|U
le 1*cid+1 1|U
gt null amt|U
gt amt cid|U
gt 1*cid+1 1|U
ge null amt|U
ge amt cid|U
ge 1*cid+1 1|U
and eq amt 9 eq amt 9|T
and eq amt 9 eq cid 1|U
and eq amt 9 eq amt 5|F
and eq cid 1 eq amt 9|U
and eq cid 1 eq cid 1|U
and eq cid 1 eq amt 5|F
and eq amt 5 eq amt 9|F
and eq amt 5 eq cid 1|F
and eq amt 5 eq amt 5|F
or eq amt 9 eq amt 9|T
or eq amt 9 eq cid 1|T
or eq amt 9 eq amt 5|T
or eq cid 1 eq amt 9|T
or eq cid 1 eq cid 1|U
or eq cid 1 eq amt 5|U
or eq amt 5 eq amt 9|T
or eq amt 5 eq cid 1|U
or eq amt 5 eq amt 5|F
not eq amt 9|F
not eq amt 5|T
and0|T
or0|F
istrue eq amt 9|T
istrue eq cid 1|F
isfalse eq amt 5|T
isfalse eq cid 1|F
isunknown eq cid 1|T
isunknown eq amt 9|F
isnull cid|T
isnull amt|F
isnull null|T
isnull 1+1*cid|T
isnull 3|F
eq amt 8|F
ne amt 9|F
ne amt 8|T
lt amt 10|T
lt amt 9|F
le amt 9|T
le amt 8|F
gt amt 8|T
gt amt 9|F
ge amt 9|T
ge amt 10|F
lt AMT amt|T
lt CID amt|F
eq cid CID|U
eq' NAME ab|T
lt' NAME b|T
lt' NAME a|F
eq' name NAME|U
below AMT amt|T
below 9 amt|F
below cid amt|U
below null amt|U
eq CID 9223372036854775807|T
eq 1+1*AMT -9223372036854775807|T
gt 1+1*CID CID|T
lt -1+1*AMT AMT|T
eq 1*CID+1*AMT -1|T
eq -9223372036854775807+1*CID 0|T
gt 2147483647*CID+2147483647*CID+2147483647*CID+2147483647*CID+2147483647*CID+2147483647*CID\
+2147483647*CID+2147483647*CID 0|T
lt 2147483647*AMT+2147483647*AMT+2147483647*AMT+2147483647*AMT+2147483647*AMT+2147483647*AMT\
+2147483647*AMT+2147483647*AMT 0|T
eq COST RATE|T
ne COST RATE|F
eq 1*COST+-1*RATE 0|T
eq 4*cost -1|T
eq 4*cost 0|F
eq 4*cost -2|F
lt cost amt|T
lt amt cost|F
ge COST 1|T
gt COST 2|F
eq 2*COST 3|T
eq 2*RATE+-1 2|T
eq cost rate|U
lt rate 1|U
eq rate null|U
isnull rate|T
isnull cost|F
isnull 1*cost+1*rate|T
eq TOP CID|T
eq top AMT|T
lt top cost|T
gt TOP COST|T
eq 1*TOP+1*top -1|T
gt 2147483647*TOP+2147483647*TOP+2147483647*TOP+2147483647*TOP+2147483647*TOP+2147483647*TOP\
+2147483647*TOP+2147483647*TOP 0|T
lt 2147483647*top+2147483647*top+2147483647*top+2147483647*top+2147483647*top+2147483647*top\
+2147483647*top+2147483647*top 0|T
eq 2147483647*TOP+2147483647*TOP+2147483647*TOP+2147483647*TOP+-2147483647*TOP+-2147483647*TOP\
+-2147483647*TOP+-2147483647*TOP 0|T
eq 2147483647*top+2147483647*top+2147483647*top+2147483647*top+-2147483647*top+-2147483647*top\
+-2147483647*top+-2147483647*top 0|T
lt 2147483647*COST+2147483647*COST+2147483647*COST+2147483647*COST+2147483647*COST+2147483647*COST\
+2147483647*COST+2147483647*COST 9223372036854775807|T
eq 1000000*COST+1 1500001|T
eq 1*cost 0|F";

/// One predicate, number 0: whether an integer is below another.
struct Below;

impl Predicates for Below {
    ghost use Rattle.std.specs.Prelude.{None};
    ghost use Rattle.sq_value.specs.Comparison.{compared};
    ghost use Rattle.sq_value.specs.declared.value.Cmp.TheVariants as cmp;
    ghost use Rattle.worked_cases.specs.SampleConditions.{sample_kinds};

    ghost gives = { λ number x y. compared x y cmp.Lt };

    ghost kinds_of = { λ s number. sample_kinds number };

    ghost number_of = { λ s name. None };

    fn find(&self, _name: &str) -> Option<u8> {
        None
    }

    fn kinds(&self, _number: u8) -> Kinds {
        Kinds {
            first: ColType::Integer,
            second: ColType::Integer,
        }
    }

    fn call(&self, _number: u8, x: &Value, y: &Value) -> Truth {
        compare(x, y, Cmp::Lt)
    }
}

fn column_named(alloc: Global, name: &str, kind: ColType) -> Result<Column, Memory>
    ensures { IfOk result (λ c. c ≡ record { name = name.now; kind = kind }) }
{
    let name = SqText::of(alloc, name)?;
    Ok(Column { name, kind })
}

fn heading(alloc: Global) -> Result<Vec<Column>, Memory>
    ensures shape { IfOk result (λ v. IsHeading v.items) }
    ensures list { IfOk result (λ v. v.items ≡ sample_columns) }
{
    let cid = column_named(alloc, "cid", ColType::Integer)?;
    let amt = column_named(alloc, "amt", ColType::Integer)?;
    let name = column_named(alloc, "name", ColType::Text)?;
    let cost = column_named(alloc, "cost", ColType::Decimal(2))?;
    let rate = column_named(alloc, "rate", ColType::Decimal(3))?;
    let top = column_named(alloc, "top", ColType::Decimal(0))?;
    Ok(vec![in alloc; cid, amt, name, cost, rate, top]?)
}

fn decimal(units: i64, scale: u8) -> Value
    ensures { result ≡ value.Decimal record { units = units; scale = scale } }
{
    Value::Decimal(Dec { units, scale })
}

/// The greatest integer, the least one, ab, 1.50, 1.500 and the greatest DECIMAL of scale 0.
fn first_row(alloc: Global) -> Result<Vec<Value>, Memory>
    ensures { IfOk result (λ v. IsRow (sample_columns) v.items) }
{
    let (most, least) = (Value::Int(i64::MAX), Value::Int(i64::MIN));
    let name = Value::Text(SqText::of(alloc, "ab")?);
    let (cost, rate, top) = (decimal(150, 2), decimal(1500, 3), decimal(i64::MAX, 0));
    Ok(vec![in alloc; most, least, name, cost, rate, top]?)
}

/// Null, 9, null, -0.25, null and the least DECIMAL of scale 0.
fn second_row(alloc: Global) -> Result<Vec<Value>, Memory>
    ensures { IfOk result (λ v. IsRow (sample_columns) v.items) }
{
    let (cost, top) = (decimal(-25, 2), decimal(i64::MIN, 0));
    let nine = Value::Int(9);
    Ok(vec![in alloc; Value::Null, nine, Value::Null, cost, Value::Null, top]?)
}

/// A table of these two rows.
fn samples(alloc: Global) -> Result<Tables, Memory>
    ensures { IfOk result (λ t. 0 < length t) }
{
    let mut table = Table::new(alloc, heading(alloc)?)?;
    table.push_row(first_row(alloc)?)?;
    table.push_row(second_row(alloc)?)?;
    let mut tables = Tables::new(alloc);
    tables.push(table)?;
    Ok(tables)
}

/// Takes what threads may share and hand to each other.
fn crosses_threads<T: Send + Sync>(_value: &T) {}

/// The truth of a condition, whatever the predicates.
fn truth<F: Predicates>(cond: &Cond, rows: &Chosen<'_>, functions: &F) -> Truth
    requires fits { FitsCond (F.kinds_of functions.now) rows.now.tables.now rows.now.uses cond.now }
    requires covered { Covers rows.now.tables.now rows.now.uses rows.now.rows rows.now.span cond.now }
{
    crosses_threads(cond);
    cond.truth(rows, functions)
}

/// The truth of the condition that a text writes.
fn truth_of(alloc: Global, tables: &Tables, text: &str) -> Result<Truth, Fail> {
    if tables.len() == 0 || tables.get(0).rows() < 2 {
        return Err("a table of two rows".into());
    }
    let cond = condition(alloc, tables, &mut Words { rest: text }, 9)?;
    let mut rows = [0; 12];
    rows[0] = 1;
    let chosen = Chosen {
        tables,
        uses: [0; 12],
        rows,
        span: 3,
    };
    Ok(truth(&cond, &chosen, &Below))
}

fn letter(truth: Truth) -> &'static str {
    match truth {
        Truth::False => "F",
        Truth::Unknown => "U",
        Truth::True => "T",
    }
}

#[test]
fn conditions_have_their_truths(rt: HostRuntime) -> Result<(), Fail> {
    let alloc = rt.alloc();
    let tables = samples(alloc)?;
    for case in CASES.lines() {
        let (text, wanted) = case.split_once('|').ok_or("a truth")?;
        let truth = truth_of(alloc, &tables, text)?;
        assert_eq!(rt; letter(truth), wanted, "{text}");
    }
    Ok(())
}

/// Sides of comparisons, a text with a sign before it, and which are plain.
const SIDES: &str = "\
null|plain
amt|plain
cost|plain
3|plain
1*amt|a sum
1+2|a sum
'ab|plain";

/// Whether the side of a comparison that a case writes is plain where the case says so.
fn is_as_told(alloc: Global, tables: &Tables, case: &str) -> Result<bool, Fail>
    requires { 0 < length tables.now }
{
    let (word, wanted) = case.split_once('|').ok_or("plain or not")?;
    let text = word.strip_prefix('\'');
    let side = operand(alloc, tables, text.unwrap_or(word), text.is_some())?;
    Ok(side.plain() == (wanted == "plain"))
}

#[test]
fn sides_are_plain(rt: HostRuntime) -> Result<(), Fail> {
    let tables = samples(rt.alloc())?;
    for case in SIDES.lines() {
        assert!(rt; is_as_told(rt.alloc(), &tables, case)?, "{case}");
    }
    Ok(())
}
