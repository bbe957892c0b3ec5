//! Runs that show what answers: the eddy, and under the policy and the seed of the words.

ghost use Rattle.std.specs.Prelude.{All};
ghost use Rattle.run_base.specs.Runnable.{IsRunnable};

use super::*;
use bag_meaning::Built;
use eddy_core::{Answered, run_one};
use eddy_query::Fitting;
use result_sink::{in_order, write_answer};
use route_policy::Lottery;
use run_base::Bound;
use sq_value::{ColType, Kinds, Predicates, Tables, Truth, Value};
use std::sync::atomic::{AtomicU64, Ordering};
use whole_run::{asked, plan_for};

// A predicate of two integers, which has any name and is True of all, and counts its calls.
#[derive(Drop)]
struct Counted {
    calls: AtomicU64,
}

impl Predicates for Counted {
    ghost use Rattle.std.specs.Prelude.{Some};
    ghost use Rattle.sq_value.specs.declared.value.Truth.TheVariants as truth;
    ghost use Rattle.sq_value.specs.declared.value.ColType.TheVariants as kind;

    ghost gives = { λ number x y. truth.True };

    ghost kinds_of = { λ s number. Some (record { first = kind.Integer; second = kind.Integer }) };

    ghost number_of = { λ s name. Some 0 };

    fn find(&self, _name: &str) -> Option<u8> {
        Some(0)
    }

    fn kinds(&self, _number: u8) -> Kinds {
        Kinds {
            first: ColType::Integer,
            second: ColType::Integer,
        }
    }

    fn call(&self, _number: u8, _x: &Value, _y: &Value) -> Truth {
        self.calls.fetch_add(1, Ordering::SeqCst);
        Truth::True
    }
}

// How often a run calls a predicate of two aliases, each of three rows, where it writes the three pairs of equal ones.
fn calls_under<R: Threads + Wait + Sync>(
    rt: &R,
    alloc: Global,
    route: &str,
) -> Result<Option<u64>, Fail> {
    let texts = format!(in alloc; "! --policy script --route {route} q n=n")?;
    let words = words_of(alloc, texts.as_str())?;
    let mut folder = folder_of(
        alloc,
        b"SELECT a.x FROM n a, n b WHERE seen(a.x, b.x) AND a.x = b.x",
    )?;
    let functions = Counted {
        calls: AtomicU64::new(0),
    };
    let host = Host {
        rt,
        alloc,
        gate: &NoGate,
    };
    let mut outputs = Outputs {
        out: MemorySink::with_room(alloc, 99)?,
        notes: MemorySink::with_room(alloc, 99)?,
    };
    // (what it answers is not asked for here)
    let _status = run(&host, &functions, &words, &mut folder, &mut outputs);
    let is_written = outputs.out.written() == b"x\n1\n2\n3\n".as_slice();
    Ok(is_written.then_some(functions.calls.load(Ordering::SeqCst)))
}

// One worker is an eddy. Under a route script that probes by the equality it calls the predicate once for each of the
// three pairs that this finds, and not for each of nine, as nested loops would.
#[test]
fn one_worker_is_an_eddy(rt: HostRuntime) -> Result<(), Fail> {
    assert_eq!(rt; calls_under(&rt, rt.alloc(), "v1")?, Some(3));
    Ok(())
}

const TIED: &str = "SELECT name, amt FROM cust c, ord o WHERE c.id = o.cid ORDER BY amt DESC";

// What is written of the matches that a run finds, put in order.
#[tactic(auto, using(run_answers::proofs::AnswerLemmas::apart_found, run_answers::proofs::AnswerLemmas::shown_fit, run_answers::proofs::AnswerLemmas::ordered_fit))]
fn written_of<P: Predicates>(
    alloc: Global,
    bound: &Bound,
    tables: &Tables,
    functions: &P,
) -> Result<SureSink, Fail>
    requires { IsRunnable (P.kinds_of functions.now) tables.now bound.now }
{
    let mut lottery = Lottery::new(1);
    let query = Fitting::new(&bound.block, tables, functions);
    let answered = run_one(alloc, &query, &mut lottery)?;
    let combos = in_order(&bound.block, tables, answered.combos)?;
    let mut out = SureSink::with_room(alloc, 99)?;
    write_answer(alloc, &bound.block, tables, &combos, &mut out)?;
    Ok(out)
}

// A tie keeps the order of the product, also where the matches are ordered and written one call after another.
#[test]
fn matches_in_order_are_the_answer(rt: HostRuntime) -> Result<(), Fail> {
    let alloc = rt.alloc();
    let words = words_of(alloc, "cust ord")?;
    let mut folder = folder_of(alloc, TIED.as_bytes())?;
    let Ok(request) = asked(alloc, &words) else {
        assert_eq!(rt; "no request", "a request");
        return Ok(());
    };
    let Ok(plan) = plan_for(alloc, &request, &mut folder, &NoPredicates) else {
        assert_eq!(rt; "no plan", "a plan");
        return Ok(());
    };
    for bound in plan.statements.as_slice() {
        let out = written_of(alloc, bound, plan.catalogue.tables(), &NoPredicates)?;
        assert!(rt; out.written() == b"name,amt\nAda,7\nAda,5\nBob,5\n".as_slice());
    }
    Ok(())
}

const CHOICES: &str = "SELECT x FROM n, ord WHERE x = cid AND x > 2 AND amt > 5";

// The rows of an alias that were built.
fn built_of(built: &[Built], alias: u8) -> usize {
    built.iter().filter(|row| row.alias == alias).count()
}

// The line of counts of the run of the statement with this number, which is over two aliases.
fn line_of(alloc: Global, number: usize, answered: &Answered<'_>) -> Result<String, Fail> {
    let built = answered.built.as_slice();
    let first = built_of(built, 0);
    let second = built_of(built, 1);
    let hops = answered.most_hops;
    let looked = answered.looked.len();
    Ok(format!(in alloc; "query {number}: built {first},{second} hops {hops} looked {looked}\n")?)
}

// The line of counts of a statement that is run by one worker under a lottery of this seed.
fn line_under<P: Predicates>(
    alloc: Global,
    number: usize,
    bound: &Bound,
    tables: &Tables,
    functions: &P,
    seed: u64,
) -> Result<String, Fail>
    requires { IsRunnable (P.kinds_of functions.now) tables.now bound.now }
{
    let mut lottery = Lottery::new(seed);
    let query = Fitting::new(&bound.block, tables, functions);
    let answered = run_one(alloc, &query, &mut lottery)?;
    line_of(alloc, number, &answered)
}

// The lines of counts of statements under this seed.
fn lines_under<P: Predicates>(
    alloc: Global,
    bounds: &[Bound],
    tables: &Tables,
    functions: &P,
    seed: u64,
) -> Result<String, Fail>
    requires { All (IsRunnable (P.kinds_of functions.now) tables.now) bounds.now }
{
    let mut lines = String::new(alloc);
    for (index, bound) in bounds.iter().enumerate() {
        let line = line_under(alloc, index + 1, bound, tables, functions, seed)?;
        lines.push_str(line.as_str())?;
    }
    Ok(lines)
}

// The lines of counts of what the words ask for, under a lottery of this seed.
fn lines_due(alloc: Global, texts: &str, seed: u64) -> Result<String, Fail> {
    let words = words_of(alloc, texts)?;
    let mut folder = folder_of(alloc, CHOICES.as_bytes())?;
    let Ok(request) = asked(alloc, &words) else {
        return Ok(String::new(alloc));
    };
    let Ok(plan) = plan_for(alloc, &request, &mut folder, &NoPredicates) else {
        return Ok(String::new(alloc));
    };
    let bounds = plan.statements.as_slice();
    lines_under(alloc, bounds, plan.catalogue.tables(), &NoPredicates, seed)
}

// What is noted by a run of these words.
fn noted_by<R: Threads + Wait + Sync>(
    rt: &R,
    alloc: Global,
    texts: &str,
) -> Result<MemorySink, Fail> {
    let words = words_of(alloc, texts)?;
    let mut folder = folder_of(alloc, CHOICES.as_bytes())?;
    let host = Host {
        rt,
        alloc,
        gate: &NoGate,
    };
    let mut outputs = Outputs {
        out: MemorySink::with_room(alloc, 99)?,
        notes: MemorySink::with_room(alloc, 99)?,
    };
    // (what it answers is not asked for here)
    let _status = run(&host, &NoPredicates, &words, &mut folder, &mut outputs);
    Ok(outputs.notes)
}

// Whether a run under this seed has the counts of `run_one` under its lottery, which differ from those under another.
fn has_seed<R: Threads + Wait + Sync>(
    rt: &R,
    alloc: Global,
    seed: u64,
    other: u64,
) -> Result<bool, Fail> {
    let texts = format!(in alloc; "! --tally --lookup ord.cid --seed {seed} q n=n ord=ord")?;
    let due = lines_due(alloc, texts.as_str(), seed)?;
    let apart = lines_due(alloc, texts.as_str(), other)?;
    let notes = noted_by(rt, alloc, texts.as_str())?;
    Ok(notes.written() == due.as_bytes() && due.as_str() != apart.as_str())
}

// The seed of the words is the lottery's: the counts of a join with a look-up depend on it.
#[test]
fn the_seed_is_that_of_the_words(rt: HostRuntime) -> Result<(), Fail> {
    assert!(rt; has_seed(&rt, rt.alloc(), 7, 8)?);
    assert!(rt; has_seed(&rt, rt.alloc(), 8, 9)?);
    assert!(rt; has_seed(&rt, rt.alloc(), 10, 11)?);
    Ok(())
}
