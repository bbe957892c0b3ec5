//! A list of calls, and what is told after it: how often the cache gave a kept answer, how often its predicates were
//! called, and how many answers it keeps.
//!
//! A case is a line: the room, the calls, and what is told, with `|` between them. `f` and `g` are predicates of two
//! integers, `h` of a text and an integer, `d` of a decimal and an integer; `-` is a null.
ghost use Rattle.std.specs.Prelude.{◌≡◌, ◌≤◌, ◌==◌, cond, IfOk};
ghost use Rattle.sq_value.specs.Relation.{HasKind};
ghost use Rattle.sq_value.specs.declared.value.ColType.TheVariants as kind;

use predicate_cache::Cache;
use sq_value::{ColType, Dec, Kinds, Predicates, SqText, Truth, Value};
use std::alloc::Global;
use std::sync::atomic::{AtomicU64, Ordering};
use std::test::Fail;

const CASES: &str = "\
2|f1,2 f2,2 f1,2 f1,2|hits 2 calls 2 kept 2
1|f1,2 f2,2 f1,2 f1,2|hits 1 calls 3 kept 1
0|f1,2 f1,2 f1,2|hits 0 calls 3 kept 0
2|f1,2 f2,2 f1,2 f3,2 f1,2 f2,2|hits 2 calls 4 kept 2
3|f1,2 f2,2 f3,2 f1,2 f4,2 f1,2 f3,2 f2,2|hits 3 calls 5 kept 3
4|f1,2 g1,2 f1,2 g1,2|hits 2 calls 2 kept 2
4|f1,2 f2,1 f1,2 f2,1|hits 2 calls 2 kept 2
4|f-,2 f-,2 f0,2 f2,- f2,- f-,2 f-,- f-,-|hits 4 calls 4 kept 4
4|h1,2 h1,2 f1,2 h1,2 h-,2 h-,2|hits 1 calls 5 kept 2
4|d1,2 d1,2 f1,2 d-,2 d-,2|hits 1 calls 4 kept 2
4096|f-9223372036854775808,9223372036854775807 f-9223372036854775808,9223372036854775807|hits 1 calls 1 kept 1";

// Predicates that count their calls. Each is True of all.
#[derive(Drop)]
struct Counted {
    calls: AtomicU64,
}

impl Predicates for Counted {
    ghost use Rattle.std.specs.Prelude.{◌==◌, cond, Some, None};
    ghost use Rattle.sq_value.specs.declared.value.Truth.TheVariants as truth;
    ghost use Rattle.sq_value.specs.declared.value.ColType.TheVariants as kind;

    ghost gives = { λ number x y. truth.True };

    ghost kinds_of = { λ s number. Some (record {
      first = cond (number == 2) kind.Text (cond (number == 3) (kind.Decimal 1) kind.Integer);
      second = kind.Integer;
    }) };

    ghost number_of = { λ s name. None };

    fn find(&self, _name: &str) -> Option<u8> {
        None
    }

    fn kinds(&self, number: u8) -> Kinds {
        Kinds {
            first: first_kind(number),
            second: ColType::Integer,
        }
    }

    fn call(&self, _number: u8, _x: &Value, _y: &Value) -> Truth {
        self.calls.fetch_add(1, Ordering::SeqCst);
        Truth::True
    }
}

// The type of the first argument of a predicate.
fn first_kind(number: u8) -> ColType
    ensures { result ≡ cond (number == 2) kind.Text (cond (number == 3) (kind.Decimal 1) kind.Integer) }
{
    match number {
        2 => ColType::Text,
        3 => ColType::Decimal(1),
        _ => ColType::Integer,
    }
}

// An integer, or a null where the text is none.
fn integer(text: &str) -> Value
    ensures { HasKind kind.Integer result }
{
    match text.parse::<i64>() {
        Ok(number) => Value::Int(number),
        Err(_) => Value::Null,
    }
}

// A text, or a null.
fn text_value(alloc: Global, text: &str) -> Result<Value, Fail>
    ensures { IfOk result (HasKind kind.Text) }
{
    if text == "-" {
        return Ok(Value::Null);
    }
    Ok(Value::Text(SqText::of(alloc, text)?))
}

// A decimal number of one digit behind the point, or a null.
fn tenth(text: &str) -> Value
    ensures { HasKind (kind.Decimal 1) result }
{
    match text.parse::<i64>() {
        Ok(units) => Value::Decimal(Dec { units, scale: 1 }),
        Err(_) => Value::Null,
    }
}

// Makes the call of a word.
fn make_call(alloc: Global, cache: &mut Cache<'_, Counted>, word: &str) -> Result<(), Fail> {
    let (first, second) = word.split_once(",").unwrap_or(("", ""));
    let y = integer(second);
    if let Some(x) = first.strip_prefix("f") {
        let _ = cache.call(0, &integer(x), &y);
    }
    if let Some(x) = first.strip_prefix("g") {
        let _ = cache.call(1, &integer(x), &y);
    }
    if let Some(x) = first.strip_prefix("h") {
        let _ = cache.call(2, &text_value(alloc, x)?, &y);
    }
    if let Some(x) = first.strip_prefix("d") {
        let _ = cache.call(3, &tenth(x), &y);
    }
    Ok(())
}

// What is told after the calls of a line, by a cache of this room.
fn told(alloc: Global, room: u32, calls: &str) -> Result<String, Fail>
    requires few { room ≤ 4096 }
{
    let functions = Counted {
        calls: AtomicU64::new(0),
    };
    let mut cache = Cache::new(alloc, &functions, room)?;
    for word in calls.split(" ") {
        make_call(alloc, &mut cache, word)?;
    }
    let (hits, kept) = (cache.hits(), cache.len());
    let called = cache.functions().calls.load(Ordering::SeqCst);
    Ok(format!(in alloc; "hits {hits} calls {called} kept {kept}")?)
}

#[test]
fn kept_answers_are_given_again(rt: HostRuntime) -> Result<(), Fail> {
    for line in CASES.lines() {
        let (room, rest) = line.split_once("|").unwrap_or(("", ""));
        let (calls, want) = rest.split_once("|").unwrap_or(("", "no bar"));
        let room = room.parse::<u32>().unwrap_or(0).min(4096);
        let told = told(rt.alloc(), room, calls)?;
        assert_eq!(rt; told.as_str(), want);
    }
    Ok(())
}

// A cache without room takes no memory.
#[test]
fn without_room_each_call_asks(rt: HostRuntime) -> Result<(), Fail> {
    let functions = Counted {
        calls: AtomicU64::new(0),
    };
    let mut cache = Cache::none(&functions);
    make_call(rt.alloc(), &mut cache, "f1,2")?;
    make_call(rt.alloc(), &mut cache, "f1,2")?;
    assert_eq!(rt; functions.calls.load(Ordering::SeqCst), 2);
    Ok(())
}
