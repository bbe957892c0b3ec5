//! Scripts that call the shipped predicates, over memory. What is expected was worked out by hand.

use eddy_worker::NoGate;
use outside::{MemoryFolder, MemorySink};
use run_base::Outputs;
use std::alloc::Global;
use std::process::ExitCode;
use std::sync::Wait;
use std::test::Fail;
use std::thread::Threads;
use whole_run::{Host, program_as_shipped};

// The script, the exit code, and what is written, or else noted. A slash stands for the end of a line.
const CASES: &str = "\
SELECT a.x, b.x FROM n a, n b WHERE divides(a.x, b.x)|0|x,x/1,1/1,2/1,3/2,2/3,3/
SELECT a.x, b.x FROM n a, n b WHERE DIVIDES(a.x, b.x) AND a.x < b.x|0|x,x/1,2/1,3/
SELECT a.x, b.x FROM n a, n b WHERE divide(a.x, b.x)|3|statement 1: unknown function at byte 36/
SELECT a.x, b.x FROM n a, n b WHERE divides(a.x)|3|statement 1: wrong arguments at byte 36/
SELECT id FROM cust WHERE divides(name, id)|3|statement 1: type mismatch at byte 34/
SELECT oid FROM ord WHERE near10(cid, oid)|0|oid/10/11/12/
SELECT oid FROM ord WHERE NOT near10(cid, oid)|0|oid/
SELECT oid FROM ord WHERE (near10(cid, oid)) IS UNKNOWN|0|oid/13/
SELECT oid FROM ord WHERE near10(NULL, oid) IS UNKNOWN|0|oid/10/11/12/13/
SELECT oid FROM ord WHERE near10(oid, 22)|0|oid/12/13/
SELECT x FROM n WHERE NOT divides(0, x)|0|x/1/2/3/
SELECT x FROM n WHERE divides(x, 0)|0|x/1/2/3/
SELECT x FROM n WHERE divides(-2, x)|0|x/2/
SELECT x FROM n WHERE same_sign(x, -1)|0|x/
SELECT x FROM n WHERE same_sign(2, x)|0|x/1/2/3/
SELECT x, y FROM ends WHERE near10(x, y)|0|x,y/9223372036854775807,9223372036854775797/
SELECT x, y FROM ends WHERE divides(x, y)|0|x,y/-1,-9223372036854775808/
SELECT x, y FROM ends WHERE same_sign(x, y)|0|x,y/9223372036854775807,9223372036854775797/-1,-9223372036854775808/
";

// Options, and what is noted where the script is `COUNTED_SCRIPT`. The rows of `w` come one after another, each through
// before the next.
const COUNTED: &str = "\
--tally|query 1: built 4 hops 3 looked 0/
--tally --cache 0|query 1: built 4 hops 3 looked 0/
--tally --cache 2|query 1: built 4 hops 3 looked 0 hits 2/
--tally --cache 1|query 1: built 4 hops 3 looked 0 hits 1/
--tally --cache 4096 --policy pressure|query 1: built 4 hops 3 looked 0 hits 2/
--tally --cache 1 --policy pressure|query 1: built 4 hops 3 looked 0 hits 1/
--cache 2 --workers 8|
";

const COUNTED_SCRIPT: &str = "SELECT x FROM w WHERE divides(x, 2)";

// Joins with a cache: the options, the script, and what is written, whatever the policy and the number of workers.
const JOINED: &str = "\
--cache 3|SELECT a.x, b.x FROM n a, n b WHERE divides(a.x, b.x)|x,x/1,1/1,2/1,3/2,2/3,3/
--cache 2 --index ord.cid|SELECT name FROM cust, ord WHERE id = cid AND divides(cid, 2)|name/Ada/Ada/Bob/
--cache 2 --lookup ord.cid|SELECT name FROM cust, ord WHERE id = cid AND divides(cid, 2)|name/Ada/Ada/Bob/
";

fn folder_of(alloc: Global, script: &str) -> Result<MemoryFolder, Fail> {
    let mut folder = MemoryFolder::new(alloc);
    folder.keep("q", script.as_bytes())?;
    folder.keep("n", b"x\n1\n2\n3\n")?;
    folder.keep("w", b"x\n1\n2\n1\n1\n")?;
    folder.keep("cust", b"id,name\n1,Ada\n2,Bob\n3,\n")?;
    folder.keep("ord", b"oid,cid,amt\n10,1,5\n11,1,7\n12,2,5\n13,,9\n")?;
    folder.keep(
        "ends",
        b"x,y\n9223372036854775807,9223372036854775797\n-9223372036854775808,9223372036854775807\n\
        -1,-9223372036854775808\n",
    )?;
    Ok(folder)
}

// Whether a script ends with this code under these options, having written and noted these texts.
fn ends_so<R: Threads + Wait + Sync>(
    rt: &R,
    alloc: Global,
    options: &str,
    script: &str,
    code: &str,
    written: &str,
    noted: &str,
) -> Result<bool, Fail> {
    let mut words = Vec::new(alloc);
    let line = format!(in alloc; "eddyql {options} q n=n w=w cust=cust ord=ord ends=ends")?;
    for word in line.as_str().split(' ') {
        words.push(String::from_str(alloc, word)?)?;
    }
    let mut folder = folder_of(alloc, script)?;
    let out = MemorySink::with_room(alloc, 999)?;
    let notes = MemorySink::with_room(alloc, 999)?;
    let host = Host {
        rt,
        alloc,
        gate: &NoGate,
    };
    let mut outputs = Outputs { out, notes };
    let ended = program_as_shipped(&host, &words, &mut folder, &mut outputs);
    let written = written.replace(alloc, "/", "\n")?;
    let noted = noted.replace(alloc, "/", "\n")?;
    Ok(
        ended == ExitCode::from(code.parse().unwrap_or(u8::MAX))
            && outputs.out.written() == written.as_bytes()
            && outputs.notes.written() == noted.as_bytes(),
    )
}

#[test]
fn calls_in_scripts(rt: HostRuntime) -> Result<(), Fail> {
    for case in CASES.lines() {
        let mut fields = case.split('|');
        let script = fields.next().unwrap_or("");
        let code = fields.next().unwrap_or("");
        let told = fields.next().unwrap_or("");
        let (written, noted) = if code == "0" { (told, "") } else { ("", told) };
        for options in ["--workers 1", "--workers 3"] {
            if !ends_so(&rt, rt.alloc(), options, script, code, written, noted)? {
                assert_eq!(rt; case, options);
            }
        }
    }
    Ok(())
}

#[test]
fn counts_hits(rt: HostRuntime) -> Result<(), Fail> {
    for case in COUNTED.lines() {
        let (options, noted) = case.split_once('|').unwrap_or(("", ""));
        let written = "x/1/2/1/1/";
        if !ends_so(
            &rt,
            rt.alloc(),
            options,
            COUNTED_SCRIPT,
            "0",
            written,
            noted,
        )? {
            assert_eq!(rt; case, "as worked out");
        }
    }
    Ok(())
}

// Whether a join is written so under a policy, by any number of workers.
fn is_joined<R: Threads + Wait + Sync>(
    rt: &R,
    alloc: Global,
    case: &str,
    policy: &str,
) -> Result<bool, Fail> {
    let mut fields = case.split('|');
    let given = fields.next().unwrap_or("");
    let script = fields.next().unwrap_or("");
    let written = fields.next().unwrap_or("");
    for workers in ["1", "2", "8"] {
        let options = format!(in alloc; "{given} {policy} --workers {workers}")?;
        if !ends_so(rt, alloc, options.as_str(), script, "0", written, "")? {
            return Ok(false);
        }
    }
    Ok(true)
}

#[test]
fn joins_with_a_cache(rt: HostRuntime) -> Result<(), Fail> {
    for case in JOINED.lines() {
        for policy in ["--seed 1", "--policy pressure"] {
            if !is_joined(&rt, rt.alloc(), case, policy)? {
                assert_eq!(rt; case, policy);
            }
        }
    }
    Ok(())
}

// The hits that a line of counts ends with.
fn hits_in(line: &[u8]) -> Option<u64> {
    let text = str::from_utf8(line).ok()?;
    let (_counts, hits) = text.trim_end().split_once(" hits ")?;
    hits.parse().ok()
}

// The hits of a run by two workers with a cache each, over 300 rows of three numbers.
fn hits_of_two<R: Threads + Wait + Sync>(rt: &R, alloc: Global) -> Result<Option<u64>, Fail> {
    let mut table = String::from_str(alloc, "x\n")?;
    for row in 0..300_u32 {
        let x = row % 3 + 1;
        table.push_str(format!(in alloc; "{x}\n")?.as_str())?;
    }
    let mut folder = MemoryFolder::new(alloc);
    folder.keep("q", b"SELECT x FROM z WHERE divides(x, 6)")?;
    folder.keep("z", table.as_bytes())?;
    let mut words = Vec::new(alloc);
    for word in "eddyql --workers 2 --cache 3 --tally q z=z".split(' ') {
        words.push(String::from_str(alloc, word)?)?;
    }
    let out = MemorySink::with_room(alloc, 999)?;
    let notes = MemorySink::with_room(alloc, 999)?;
    let host = Host {
        rt,
        alloc,
        gate: &NoGate,
    };
    let mut outputs = Outputs { out, notes };
    // (what it answers is not asked for here)
    let _ended = program_as_shipped(&host, &words, &mut folder, &mut outputs);
    Ok(hits_in(outputs.notes.written()))
}

#[test]
fn workers_hit(rt: HostRuntime) -> Result<(), Fail> {
    assert!(rt; hits_of_two(&rt, rt.alloc())? > Some(0));
    Ok(())
}
