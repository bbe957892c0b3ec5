//! Runs with several workers.

use super::*;
use eddy_worker::{Gate, Moment};
use std::sync::atomic::{AtomicU64, Ordering};
use std::thread;

// The words of a policy, one a line.
const POLICIES: &str = "\
--seed 1
--policy pressure
--policy script --route v0
--policy script --route a0,a1
";

// Two joins: the words behind the policy's, the most hops, the script, and what is written.
const JOINS: &str = "\
q cust=cust ord=ord | 4 | SELECT name, amt FROM cust c, ord o WHERE c.id = o.cid ORDER BY amt DESC | name,amt/Ada,7/Ad\
    a,5/Bob,5/\n\
q ord=ord | 5 | SELECT o.oid FROM ord o, ord p WHERE o.cid = p.cid AND o.oid <= p.oid | oid/10/10/11/12/\n\
";

// The hops that a line of counts tells, where it is one.
fn hops_in(line: &[u8]) -> Option<u32> {
    let text = str::from_utf8(line).ok()?;
    text.split(' ').nth(5)?.parse().ok()
}

// Whether a run with a line of counts is done, writes just this, and tells at most so many hops.
fn answers<R: Threads + Wait + Sync>(
    rt: &R,
    alloc: Global,
    texts: &str,
    most: u32,
    script: &str,
    written: &str,
) -> Result<bool, Fail> {
    let words = words_of(alloc, texts)?;
    let mut folder = folder_of(alloc, script.as_bytes())?;
    let out = MemorySink::with_room(alloc, 99)?;
    let notes = MemorySink::with_room(alloc, 99)?;
    let host = Host {
        rt,
        alloc,
        gate: &NoGate,
    };
    let mut outputs = Outputs { out, notes };
    let status = run(&host, &NoPredicates, &words, &mut folder, &mut outputs);
    let written = bytes_of(alloc, written)?;
    Ok(
        status == Status::Done
            && outputs.out.written() == written.as_slice()
            && hops_in(outputs.notes.written()).is_some_and(|hops| hops <= most),
    )
}

// Whether a join is answered so with this policy and so many workers.
fn is_joined<R: Threads + Wait + Sync>(
    rt: &R,
    alloc: Global,
    join: &str,
    policy: &str,
    workers: u32,
) -> Result<bool, Fail> {
    let mut parts = join.split(" | ");
    let names = parts.next().unwrap_or("");
    let texts = format!(in alloc; "! --tally --workers {workers} {policy} {names}")?;
    let most = parts.next().unwrap_or("").parse().unwrap_or(0);
    let script = parts.next().unwrap_or("");
    answers(
        rt,
        alloc,
        texts.as_str(),
        most,
        script,
        parts.next().unwrap_or(""),
    )
}

#[test]
fn workers_write_the_same(rt: HostRuntime) -> Result<(), Fail> {
    for join in JOINS.lines() {
        for policy in POLICIES.lines() {
            for workers in [1, 2, 8] {
                if !is_joined(&rt, rt.alloc(), join, policy, workers)? {
                    assert_eq!(rt; join, policy);
                }
            }
        }
    }
    Ok(())
}

// Whether a run with this gate is done and writes just this.
fn writes<G: Gate, R: Threads + Wait + Sync>(
    rt: &R,
    alloc: Global,
    texts: &str,
    script: &str,
    written: &str,
    gate: &G,
) -> Result<bool, Fail> {
    let words = words_of(alloc, texts)?;
    let mut folder = folder_of(alloc, script.as_bytes())?;
    let out = MemorySink::with_room(alloc, 99)?;
    let notes = MemorySink::with_room(alloc, 99)?;
    let host = Host { rt, alloc, gate };
    let mut outputs = Outputs { out, notes };
    let status = run(&host, &NoPredicates, &words, &mut folder, &mut outputs);
    let written = bytes_of(alloc, written)?;
    Ok(
        status == Status::Done
            && outputs.out.written() == written.as_slice()
            && outputs.notes.written().is_empty(),
    )
}

// A gate that counts turns of modules.
#[derive(Drop)]
struct Counting {
    turns: AtomicU64,
}

impl Gate for Counting {
    fn at(&self, _worker: u32, moment: Moment) {
        if matches!(moment, Moment::Holding(_)) {
            self.turns.fetch_add(1, Ordering::SeqCst);
        }
    }
}

// How many turns of modules a run takes that is done and writes just this.
fn turns_of<R: Threads + Wait + Sync>(
    rt: &R,
    alloc: Global,
    texts: &str,
    script: &str,
    written: &str,
) -> Result<Option<u64>, Fail> {
    let gate = Counting {
        turns: AtomicU64::new(0),
    };
    let is_written = writes(rt, alloc, texts, script, written, &gate)?;
    Ok(is_written.then_some(gate.turns.load(Ordering::SeqCst)))
}

// The demo writes the same by one worker, which takes no turn, and by eight. Under the script `v0` each
// of seven rows of a join is built in a turn, and probes in one.
#[test]
fn workers_take_turns(rt: HostRuntime) -> Result<(), Fail> {
    let demo = "query,rows/q1,2000/q2,1000/q3,10800/";
    assert_eq!(rt;
        turns_of(&rt, rt.alloc(), "! --demo 20000", "", demo)?,
        Some(0)
    );
    assert!(rt; turns_of(&rt, rt.alloc(), "! --demo 20000 --workers 8", "", demo)? > Some(0));
    let words = "! --workers 2 --policy script --route v0 q cust=cust ord=ord";
    let join = "SELECT name, amt FROM cust c, ord o WHERE c.id = o.cid";
    assert_eq!(rt;
        turns_of(&rt, rt.alloc(), words, join, "name,amt/Ada,5/Ada,7/Bob,5/")?,
        Some(14)
    );
    Ok(())
}

// In a shared run of a join of a table with itself and of a second statement over it, each row is built in one turn,
// and probes once for each alias of the join. One statement after another takes more turns, since a row is then built
// for each alias.
#[test]
fn shared_runs_take_turns(rt: HostRuntime) -> Result<(), Fail> {
    let words = "! --shared --workers 2 --policy script --route v0 q n=n";
    let script =
        "SELECT a.x, b.x FROM n a, n b WHERE a.x = b.x; SELECT x FROM n WHERE x > 1 ORDER BY x";
    assert_eq!(rt;
        turns_of(&rt, rt.alloc(), words, script, "x,x/1,1/2,2/3,3//x/2/3/")?,
        Some(9)
    );
    Ok(())
}

// A gate at which workers 0 and 1 meet: each waits in its first turn of the module of its own number
// until the other is in such a turn, or for 50,000,000 rounds. How many waited in vain is counted.
#[derive(Drop)]
struct Meeting {
    first: AtomicU64,
    second: AtomicU64,
    late: AtomicU64,
}

impl Meeting {
    // Tells that one is there, and waits for the other, where it wasn't there before.
    fn meet(&self, one: &AtomicU64, other: &AtomicU64) {
        if one.swap(1, Ordering::SeqCst) == 1 {
            return;
        }
        for _ in 0..50_000_000_u32 {
            if other.load(Ordering::SeqCst) == 1 {
                return;
            }
            thread::yield_now();
        }
        self.late.fetch_add(1, Ordering::SeqCst);
    }
}

impl Gate for Meeting {
    fn at(&self, worker: u32, moment: Moment) {
        if worker == 0 && moment == Moment::Holding(0) {
            self.meet(&self.first, &self.second);
        }
        if worker == 1 && moment == Moment::Holding(1) {
            self.meet(&self.second, &self.first);
        }
    }
}

// Two workers are in turns at the same time. Where one ran after the other, or both under one lock,
// one would wait in vain.
#[test]
fn workers_meet(rt: HostRuntime) -> Result<(), Fail> {
    let gate = Meeting {
        first: AtomicU64::new(0),
        second: AtomicU64::new(0),
        late: AtomicU64::new(0),
    };
    let written = "x/1/1/1/2/2/2/3/3/3/";
    assert!(rt;
        writes(
            &rt,
            rt.alloc(),
            "! --workers 2 q n=n",
            "SELECT a.x FROM n a, n b",
            written,
            &gate
        )?
    );
    assert_eq!(rt; gate.late.load(Ordering::SeqCst), 0);
    assert_eq!(rt; gate.first.load(Ordering::SeqCst), 1);
    assert_eq!(rt; gate.second.load(Ordering::SeqCst), 1);
    Ok(())
}

// The numbers below 100 as a table's file.
fn numbers_below_100(alloc: Global) -> Result<String, Fail> {
    let mut text = String::from_str(alloc, "x\n")?;
    for x in 0..100 {
        text.push_str(format!(in alloc; "{x}\n")?.as_str())?;
    }
    Ok(text)
}

// Puts a record behind a text, once for each number that can be added to this one with a sum below 100.
fn push_records_of(text: &mut String, record: &str, number: u32) -> Result<(), Fail> {
    for _sum in number..100 {
        text.push_str(record)?;
    }
    Ok(())
}

// The heading, and a record of the first of each two numbers whose sum is below 100: 5,050 records.
fn sums_below_100(alloc: Global) -> Result<String, Fail> {
    let mut text = String::from_str(alloc, "x\n")?;
    for x in 0..100 {
        let record = format!(in alloc; "{x}\n")?;
        push_records_of(&mut text, record.as_str(), x)?;
    }
    Ok(text)
}

// Whether a run over the numbers below 100, which are the table `z`, by so many workers is done, writes
// just this, and notes nothing.
fn writes_of_numbers<R: Threads + Wait + Sync>(
    rt: &R,
    alloc: Global,
    workers: u32,
    script: &str,
    written: &str,
) -> Result<bool, Fail> {
    let texts = format!(in alloc; "! --workers {workers} q z=z")?;
    let words = words_of(alloc, texts.as_str())?;
    let mut folder = MemoryFolder::new(alloc);
    folder.keep("q", script.as_bytes())?;
    folder.keep("z", numbers_below_100(alloc)?.as_bytes())?;
    let out = MemorySink::with_room(alloc, 20_000)?;
    let notes = MemorySink::with_room(alloc, 99)?;
    let host = Host {
        rt,
        alloc,
        gate: &NoGate,
    };
    let mut outputs = Outputs { out, notes };
    let status = run(&host, &NoPredicates, &words, &mut folder, &mut outputs);
    Ok(
        status == Status::Done
            && outputs.out.written() == written.as_bytes()
            && outputs.notes.written().is_empty(),
    )
}

// A join of three by a sum, of which tuples lie in the pool, writes the same by any number of workers.
#[test]
fn workers_write_all_sums(rt: HostRuntime) -> Result<(), Fail> {
    let sums = sums_below_100(rt.alloc())?;
    assert_eq!(rt; sums.as_str().lines().count(), 5051);
    let script = "SELECT a.x FROM z a, z b, z c WHERE a.x + b.x = c.x";
    for workers in [1, 2, 8] {
        if !writes_of_numbers(&rt, rt.alloc(), workers, script, sums.as_str())? {
            assert_eq!(rt; workers, 0);
        }
    }
    Ok(())
}
