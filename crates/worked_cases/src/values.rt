//! The answers of single calls, worked out by hand.
//!
//! A case is a line: a call, its two arguments and its answer, with `|` between them. A value is
//! written `null`, `'text`, or as units and a scale, as `150/2` for 1.50; an integer has no scale.
ghost use Rattle.std.specs.Prelude.{◌≡◌, ℕ, List, [], ◌∷◌, Option, Some, None, IfOk, IsTrue, codes, if◌then◌else◌, ◌==◌};
ghost use Rattle.sq_value.specs.declared.value.ColType.TheVariants as kind;
ghost use Rattle.sq_value.specs.Comparison.{Comparable};

use sq_value::{
    Cmp, ColType, Column, Dec, DecFault, IntFault, Key, Kinds, Memory, NoPredicates, Predicates,
    SortWay, SqText, Table, Tables, Truth, Value, and, compare, key_of, not, or, push_decimal,
    read_decimal, read_int, same_name, sort_order,
};
use std::alloc::Global;
use std::cmp::Ordering;
use std::hash::{DefaultHasher, Hash, Hasher};
use std::test::Fail;

const CASES: &str = "\
compare|2|10|=F <>T <T <=T >F >=F
compare|10|10|=T <>F <F <=T >F >=T
compare|2|-9223372036854775808|=F <>T <F <=F >T >=T
compare|null|2|=U <>U <U <=U >U >=U
compare|2|null|=U <>U <U <=U >U >=U
compare|null|null|=U <>U <U <=U >U >=U
compare|null|150/2|=U <>U <U <=U >U >=U
compare|'a|null|=U <>U <U <=U >U >=U
compare|'a|'b|=F <>T <T <=T >F >=F
compare|'A|'a|=F <>T <T <=T >F >=F
compare|'Z|'a|=F <>T <T <=T >F >=F
compare|'a|'a |=F <>T <T <=T >F >=F
compare|'|'A|=F <>T <T <=T >F >=F
compare|'é|'z|=F <>T <F <=F >T >=T
compare|'a|'a|=T <>F <F <=T >F >=T
compare|'|'|=T <>F <F <=T >F >=T
compare|150/2|1500/3|=T <>F <F <=T >F >=T
compare|15/1|1500000/6|=T <>F <F <=T >F >=T
compare|150/2|1501/3|=F <>T <T <=T >F >=F
compare|-25/2|-2/1|=F <>T <T <=T >F >=F
compare|1|1/0|=T <>F <F <=T >F >=T
compare|1|10/1|=T <>F <F <=T >F >=T
compare|1|100/2|=T <>F <F <=T >F >=T
compare|1|1000/3|=T <>F <F <=T >F >=T
compare|1|10000/4|=T <>F <F <=T >F >=T
compare|1|100000/5|=T <>F <F <=T >F >=T
compare|1|1000000/6|=T <>F <F <=T >F >=T
compare|1000001/6|1|=F <>T <F <=F >T >=T
compare|9223372036854775807|9223372036854775807/6|=F <>T <F <=F >T >=T
compare|9223372036854775807|9223372036854775807/0|=T <>F <F <=T >F >=T
first, ascending|null|null|=
first, ascending|null|1|<
first, ascending|1|null|>
first, ascending|-2|1|<
first, ascending|'b|'a|>
first, ascending|'a|'ab|<
last, ascending|null|null|=
last, ascending|null|1|>
last, ascending|1|null|<
last, ascending|-2|1|<
last, ascending|'b|'a|>
last, ascending|'a|'ab|<
first, descending|null|null|=
first, descending|null|1|<
first, descending|1|null|>
first, descending|-2|1|>
first, descending|'b|'a|<
first, descending|'a|'ab|>
last, descending|null|null|=
last, descending|null|1|>
last, descending|1|null|<
last, descending|-2|1|>
last, descending|'b|'a|<
last, descending|'a|'ab|>
last, ascending|1|10/1|=
last, ascending|100/2|10/1|=
last, descending|1|100/2|=
last, ascending|-25/2|0|<
last, descending|-25/2|15/1|>
last, ascending|10/2|null|<
keys|null|1|none
keys|1|null|none
keys|2|10|<
keys|-1|0|<
keys|7|7|=
keys|'b|'aa|>
keys|'a|'aa|<
keys|'é|'z|>
keys|'né|'né|=
keys|9|'1|<
keys|1|10/1|=
keys|100/2|1|=
keys|15/1|150/2|=
keys|15/1|151/2|<
keys|9223372036854775807|9223372036854775807/6|>
key|-5||number -5000000
key|-25/2||number -250000
key|-9223372036854775808||number -9223372036854775808000000
key|'né||text né
key|null||none
and|T|T|T
and|T|U|U
and|T|F|F
and|U|T|U
and|U|U|U
and|U|F|F
and|F|T|F
and|F|U|F
and|F|F|F
or|T|T|T
or|T|U|T
or|T|F|T
or|U|T|T
or|U|U|U
or|U|F|U
or|F|T|T
or|F|U|U
or|F|F|F
not|T||F
not|U||U
not|F||T
integer|0||0
integer|+7||7
integer|-0||0
integer|01||1
integer|-12||-12
integer|9223372036854775807||9223372036854775807
integer|-9223372036854775808||-9223372036854775808
integer|9223372036854775808||out of range
integer|-9223372036854775809||out of range
integer|99999999999999999999999||out of range
integer|0000000000000000000000001||1
integer|||not a number
integer|-||not a number
integer|+||not a number
integer|1a||not a number
integer|99999999999999999999a||not a number
integer| 1||not a number
integer|+-1||not a number
integer|1_000||not a number
integer|٣||not a number
decimal|1|0|1/0
decimal|1|1|10/1
decimal|1|2|100/2
decimal|1|3|1000/3
decimal|1|4|10000/4
decimal|1|5|100000/5
decimal|1|6|1000000/6
decimal|1.5|1|15/1
decimal|1.5|2|150/2
decimal|10.05|2|1005/2
decimal|0.123456|6|123456/6
decimal|-0.25|2|-25/2
decimal|+1|2|100/2
decimal|-0|2|0/2
decimal|007.10|2|710/2
decimal|0000000000000000000000001.5|1|15/1
decimal|1.234|2|not a decimal
decimal|1.0|0|not a decimal
decimal|1.|0|not a decimal
decimal|.5|2|not a decimal
decimal|5.|2|not a decimal
decimal|.|2|not a decimal
decimal|-.5|2|not a decimal
decimal|1.2.3|3|not a decimal
decimal|1.-2|3|not a decimal
decimal|1,5|2|not a decimal
decimal|1e3|2|not a decimal
decimal||2|not a decimal
decimal|-|2|not a decimal
decimal| 1|2|not a decimal
decimal|1 |2|not a decimal
decimal|1. 5|2|not a decimal
decimal|+-1|2|not a decimal
decimal|٣|0|not a decimal
decimal|9223372036854775807|0|9223372036854775807/0
decimal|-9223372036854775808|0|-9223372036854775808/0
decimal|9223372036854775808|0|out of range
decimal|9223372036854775807|6|out of range
decimal|9223372036854.775807|6|9223372036854775807/6
decimal|-9223372036854.775808|6|-9223372036854775808/6
decimal|9223372036854.775808|6|out of range
decimal|-9223372036854.775809|6|out of range
decimal|9223372036855|6|out of range
decimal|18446744073709551616|0|out of range
decimal|99999999999999999999999999999999999999999|2|out of range
decimal|99999999999999999999999999999999999999999x|2|not a decimal
written|150/2||1.50
written|-25/2||-0.25
written|0/0||0
written|0/3||0.000
written|7/0||7
written|-7/0||-7
written|1000005/6||1.000005
written|5/6||0.000005
written|1000/2||10.00
written|123456789/1||12345678.9
written|12345/4||1.2345
written|12345/5||0.12345
written|9223372036854775807/6||9223372036854.775807
written|-9223372036854775808/6||-9223372036854.775808
written|-9223372036854775808/0||-9223372036854775808
name|name|NAME|same
name|a_1|A_1|same
name|||same
name|É|É|same
name|É|é|other
name|a|b|other
name|a|ab|other
name|@|`|other
name|[|{|other";

/// The number of a word in units and a scale.
fn decimal_in(word: &str) -> Result<Dec, Fail> {
    let (units, scale) = word.split_once('/').ok_or("a scale")?;
    let units = read_int(units).ok().ok_or("units")?;
    let scale = read_int(scale).ok().ok_or("a scale")?;
    let scale = u8::try_from(scale).ok().ok_or("a small scale")?;
    Ok(Dec { units, scale })
}

/// The value that a word writes.
fn value_in(alloc: Global, word: &str) -> Result<Value, Fail> {
    if word == "null" {
        return Ok(Value::Null);
    }
    if let Some(text) = word.strip_prefix('\'') {
        return Ok(Value::Text(SqText::of(alloc, text)?));
    }
    if let Ok(number) = read_int(word) {
        return Ok(Value::Int(number));
    }
    Ok(Value::Decimal(decimal_in(word)?))
}

/// Whether two values may be compared.
fn is_comparable(x: &Value, y: &Value) -> bool
    ensures { IsTrue result → Comparable x.now y.now }
{
    match (x, y) {
        (Value::Null, _) => true,
        (Value::Int(_) | Value::Decimal(_), Value::Null) => true,
        (Value::Int(_) | Value::Decimal(_), Value::Int(_) | Value::Decimal(_)) => true,
        (Value::Text(_), Value::Null | Value::Text(_)) => true,
        _ => false,
    }
}

fn letter(truth: Truth) -> &'static str {
    match truth {
        Truth::False => "F",
        Truth::Unknown => "U",
        Truth::True => "T",
    }
}

fn truth_in(word: &str) -> Truth {
    match word {
        "T" => Truth::True,
        "U" => Truth::Unknown,
        _ => Truth::False,
    }
}

fn sign(order: Ordering) -> &'static str {
    match order {
        Ordering::Less => "<",
        Ordering::Equal => "=",
        Ordering::Greater => ">",
    }
}

/// The truths of x = y, x <> y, x < y, x <= y, x > y and x >= y.
fn truths(alloc: Global, x: &Value, y: &Value) -> Result<String, Fail> {
    if !is_comparable(x, y) {
        return Err("what may be compared".into());
    }
    let eq = letter(compare(x, y, Cmp::Eq));
    let ne = letter(compare(x, y, Cmp::Ne));
    let lt = letter(compare(x, y, Cmp::Lt));
    let le = letter(compare(x, y, Cmp::Le));
    let gt = letter(compare(x, y, Cmp::Gt));
    let ge = letter(compare(x, y, Cmp::Ge));
    Ok(format!(in alloc; "={eq} <>{ne} <{lt} <={le} >{gt} >={ge}")?)
}

fn sorted(x: &Value, y: &Value, nulls_first: bool, descending: bool) -> Result<&'static str, Fail> {
    if !is_comparable(x, y) {
        return Err("what may be compared".into());
    }
    let way = SortWay {
        descending,
        nulls_first,
    };
    Ok(sign(sort_order(x, y, way)))
}

/// The hash of a value, by the standard library's hasher.
fn hash_of<T: Hash>(value: &T) -> u64 {
    let mut state = DefaultHasher::new();
    value.hash(&mut state);
    state.finish()
}

/// The order of two values, through `Ord` alone.
fn ordered<T: Ord>(x: &T, y: &T) -> Ordering {
    x.cmp(y)
}

/// The order of two keys, where their equality and their hashes agree with it.
fn keys(x: Key<'_>, y: Key<'_>) -> &'static str {
    let order = ordered(&x, &y);
    if (x == y) != (order == Ordering::Equal) || (x == y && hash_of(&x) != hash_of(&y)) {
        return "torn";
    }
    sign(order)
}

fn key(alloc: Global, value: &Value) -> Result<String, Fail> {
    match key_of(value) {
        None => Ok(String::from_str(alloc, "none")?),
        Some(Key::Number(number)) => Ok(format!(in alloc; "number {number}")?),
        Some(Key::Text(text)) => Ok(format!(in alloc; "text {text}")?),
    }
}

fn integer(alloc: Global, text: &str) -> Result<String, Fail> {
    match read_int(text) {
        Ok(number) => Ok(format!(in alloc; "{number}")?),
        Err(IntFault::NotANumber) => Ok(String::from_str(alloc, "not a number")?),
        Err(IntFault::OutOfRange) => Ok(String::from_str(alloc, "out of range")?),
    }
}

fn decimal(alloc: Global, text: &str, scale: &str) -> Result<String, Fail> {
    let scale = read_int(scale).ok().ok_or("a scale")?;
    if !(0..=6).contains(&scale) {
        return Err("a scale from 0 to 6".into());
    }
    match read_decimal(text, scale as u8) {
        Ok(number) => Ok(format!(in alloc; "{}/{}", number.units, number.scale)?),
        Err(DecFault::NotADecimal) => Ok(String::from_str(alloc, "not a decimal")?),
        Err(DecFault::OutOfRange) => Ok(String::from_str(alloc, "out of range")?),
    }
}

fn written(alloc: Global, word: &str) -> Result<String, Fail> {
    let number = decimal_in(word)?;
    if number.scale > 6 {
        return Err("a scale from 0 to 6".into());
    }
    let mut line = Vec::new(alloc);
    push_decimal(&mut line, number)?;
    Ok(String::from_utf8(line).ok().ok_or("a text")?)
}

/// The answer to a call on two values.
fn of_values(alloc: Global, call: &str, x: &Value, y: &Value) -> Result<String, Fail> {
    let word = match call {
        "compare" => return truths(alloc, x, y),
        "first, ascending" => sorted(x, y, true, false)?,
        "first, descending" => sorted(x, y, true, true)?,
        "last, ascending" => sorted(x, y, false, false)?,
        "last, descending" => sorted(x, y, false, true)?,
        _ => match (key_of(x), key_of(y)) {
            (Some(x), Some(y)) => keys(x, y),
            _ => "none",
        },
    };
    Ok(String::from_str(alloc, word)?)
}

/// The answer to a call on words.
fn of_words(alloc: Global, call: &str, x: &str, y: &str) -> Result<String, Fail> {
    let word = match call {
        "key" => return key(alloc, &value_in(alloc, x)?),
        "integer" => return integer(alloc, x),
        "decimal" => return decimal(alloc, x, y),
        "written" => return written(alloc, x),
        "and" => letter(and(truth_in(x), truth_in(y))),
        "or" => letter(or(truth_in(x), truth_in(y))),
        "not" => letter(not(truth_in(x))),
        "name" => { if same_name(x, y) { "same" } else { "other" } }
        _ => return of_values(alloc, call, &value_in(alloc, x)?, &value_in(alloc, y)?),
    };
    Ok(String::from_str(alloc, word)?)
}

#[test]
fn calls_have_their_answers(rt: HostRuntime) -> Result<(), Fail> {
    for case in CASES.lines() {
        let (call, rest) = case.split_once('|').ok_or("a call")?;
        let (x, rest) = rest.split_once('|').ok_or("an argument")?;
        let (y, wanted) = rest.split_once('|').ok_or("an answer")?;
        let answer = of_words(rt.alloc(), call, x, y)?;
        assert_eq!(rt; answer.as_str(), wanted, "{case}");
    }
    Ok(())
}

#[test]
fn want_of_memory_has_a_text(rt: HostRuntime) -> Result<(), Fail> {
    assert_eq!(rt;
        format!(in rt.alloc(); "{Memory}")?.as_str(),
        "out of memory"
    );
    Ok(())
}

/// Takes what threads may share and hand to each other.
fn crosses_threads<T: Send + Sync>(_value: &T) {}

/// Whether a text is kept as it is.
fn is_kept(alloc: Global, text: &str) -> Result<bool, Memory> {
    Ok(SqText::of(alloc, text)?.as_str() == text)
}

/// A table of one column, a INTEGER, without rows.
fn without_rows(alloc: Global) -> Result<Table, Memory>
    ensures { IfOk result (λ t. t ≡ record {
      columns = record { name = codes "a"; kind = kind.Integer } ∷ [];
      rows = [];
    }) }
{
    let name = SqText::of(alloc, "a")?;
    let kind = ColType::Integer;
    Table::new(alloc, vec![in alloc; Column { name, kind }]?)
}

/// Whether tables keep this one, and cross threads.
fn tables_keep(alloc: Global, table: Table, rows: u32) -> Result<bool, Memory> {
    let mut tables = Tables::new(alloc);
    let were_none = tables.len() == 0;
    tables.push(table)?;
    crosses_threads(&tables);
    Ok(were_none && tables.len() == 1 && tables.get(0).rows() == rows)
}

/// Whether a table keeps a row that is pushed and one that is appended, and tables keep the table.
fn rows_are_kept(alloc: Global) -> Result<bool, Memory> {
    let mut table = without_rows(alloc)?;
    let were_none = table.rows() == 0 && table.columns().len() == 1;
    table.push_row(vec![in alloc; Value::Int(1)]?)?;
    let first = table.rows() == 1 && matches!(table.value(0, 0), Value::Int(1));
    table.reserve(2)?;
    let mut row = vec![in alloc; Value::Int(2)]?;
    table.append_row(&mut row)?;
    let second = row.is_empty() && matches!(table.value(1, 0), Value::Int(2));
    Ok(were_none && first && second && tables_keep(alloc, table, 2)?)
}

#[test]
fn tables_keep_what_they_are_given(rt: HostRuntime) -> Result<(), Fail> {
    for text in ["", "twenty-four bytes are it", "twenty-five bytes are not"] {
        assert!(rt; is_kept(rt.alloc(), text)?, "{text}");
    }
    assert!(rt; rows_are_kept(rt.alloc())?);
    crosses_threads(&Key::Number(1));
    Ok(())
}

/// One predicate, `same`, number 0: whether two integers are equal.
#[derive(Debug, Drop)]
struct Same;

impl Predicates for Same {
    ghost use Rattle.sq_value.specs.declared.value.ColType.TheVariants as kind;
    ghost use Rattle.sq_value.specs.declared.value.Cmp.TheVariants as cmp;
    ghost use Rattle.sq_value.specs.Comparison.{compared};
    ghost use Rattle.sq_value.specs.Name.{is_same_name};

    ghost gives = { λ number x y. compared x y cmp.Eq };

    ghost kinds_of = { λ s number.
        if number == 0 then Some record { first = kind.Integer; second = kind.Integer } else None };

    ghost number_of = { λ s name. if is_same_name name (codes "same") then Some 0 else None };

    fn find(&self, name: &str) -> Option<u8> {
        same_name(name, "same").then_some(0)
    }

    fn kinds(&self, _number: u8) -> Kinds {
        Kinds {
            first: ColType::Integer,
            second: ColType::Integer,
        }
    }

    fn call(&self, _number: u8, x: &Value, y: &Value) -> Truth {
        compare(x, y, Cmp::Eq)
    }
}

/// What a predicate of a name gives of two integers, through the trait alone.
fn given<F: Predicates>(functions: &F, name: &str, x: i64, y: i64) -> Option<Truth> {
    let number = functions.find(name)?;
    let kinds = functions.kinds(number);
    if kinds.first == ColType::Integer && kinds.second == ColType::Integer {
        Some(functions.call(number, &Value::Int(x), &Value::Int(y)))
    } else {
        None
    }
}

#[test]
fn predicates_are_found_and_called(rt: HostRuntime) {
    assert_eq!(rt; given(&Same, "SAME", 3, 3), Some(Truth::True));
    assert_eq!(rt; given(&Same, "same", 3, 4), Some(Truth::False));
    assert_eq!(rt; given(&Same, "sam", 3, 3), None);
    assert_eq!(rt; given(&NoPredicates, "same", 3, 3), None);
    assert_eq!(rt; NoPredicates.kinds(0).first, ColType::Integer);
    assert_eq!(rt;
        NoPredicates.call(0, &Value::Null, &Value::Null),
        Truth::Unknown
    );
}
