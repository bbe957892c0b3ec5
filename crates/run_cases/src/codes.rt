//! The codes that the program ends with, over folders and outputs in memory; and runs of a size at
//! which a bound on memory or depth would show.

use eddy_worker::NoGate;
use outside::{MemoryFolder, MemorySink};
use run_base::Outputs;
use sq_value::NoPredicates;
use std::alloc::Global;
use std::process::ExitCode;
use std::sync::Wait;
use std::test::Fail;
use std::thread::Threads;
use whole_run::Host;
use whole_run::program::program;

// The words behind the name, with blanks between them; the load and the put that fail, where there is
// one; and the code. The second line has sixteen tables.
const CASES: &str = "\
q t=1 u=2|0|0|0
q a=1 b=1 c=1 d=1 e=1 f=1 g=1 h=1 i=1 j=1 k=1 l=1 m=1 n=1 t=1 u=2|0|0|0
q a=1 b=1 c=1 d=1 e=1 f=1 g=1 h=1 i=1 j=1 k=1 l=1 m=1 n=1 t=1 u=9|0|0|5
q|0|0|2
q t=1 u=2 u=2|0|0|2
1 t=1 u=2|0|0|3
q t=2 u=1|0|0|3
q t=1 u=3|0|0|4
--index t.z q t=1 u=2|0|0|4
9 t=1 u=2|0|0|5
q t=1 u=2|2|0|5
q t=1 u=2|0|1|6
deep t=1|0|0|7
";

const QUERY: &[u8] = b"SELECT * FROM t, u WHERE t.c = u.d";

fn words_of(alloc: Global, text: &str) -> Result<Vec<String>, Fail> {
    let mut words = Vec::new(alloc);
    words.push(String::from_str(alloc, "eddyql")?)?;
    for word in text.split(' ') {
        words.push(String::from_str(alloc, word)?)?;
    }
    Ok(words)
}

// Some bytes, and others as many times.
fn repeated(alloc: Global, first: &[u8], times: u32, part: &[u8]) -> Result<Vec<u8>, Fail> {
    let mut bytes = Vec::new(alloc);
    bytes.extend_from_slice(first)?;
    for _ in 0..times {
        bytes.extend_from_slice(part)?;
    }
    Ok(bytes)
}

fn folder_of(alloc: Global, script: &[u8], first: &[u8]) -> Result<MemoryFolder, Fail> {
    let mut folder = MemoryFolder::new(alloc);
    folder.keep("q", script)?;
    folder.keep("1", first)?;
    folder.keep("2", b"d\n1\n")?;
    folder.keep("3", b"c,d\n1\n")?;
    let deep = repeated(alloc, b"SELECT c FROM t WHERE ", 65, b"(")?;
    folder.keep("deep", &deep)?;
    Ok(folder)
}

fn number_of(text: &str) -> u8 {
    text.parse().unwrap_or(u8::MAX)
}

#[test]
fn ends_with_codes(rt: HostRuntime) -> Result<(), Fail> {
    for line in CASES.lines() {
        let mut fields = line.split('|');
        let words = words_of(rt.alloc(), fields.next().unwrap_or(""))?;
        let mut folder = folder_of(rt.alloc(), QUERY, b"c\n1\n")?;
        folder.fail_at(u64::from(number_of(fields.next().unwrap_or(""))))?;
        let mut out = MemorySink::with_room(rt.alloc(), 99)?;
        out.fail_at(u64::from(number_of(fields.next().unwrap_or(""))), 0)?;
        let notes = MemorySink::with_room(rt.alloc(), 99)?;
        let host = Host {
            rt: &rt,
            alloc: rt.alloc(),
            gate: &NoGate,
        };
        let mut outputs = Outputs { out, notes };
        let code = program(&host, &NoPredicates, &words, &mut folder, &mut outputs);
        assert!(rt; code == ExitCode::from(number_of(fields.next().unwrap_or(""))));
    }
    Ok(())
}

// How many bytes a run over these files writes, where it ends with this code.
fn written_by<R: Threads + Wait + Sync>(
    rt: &R,
    alloc: Global,
    texts: &str,
    script: &[u8],
    first: &[u8],
    code: u8,
) -> Result<usize, Fail> {
    let words = words_of(alloc, texts)?;
    let mut folder = folder_of(alloc, script, first)?;
    let out = MemorySink::with_room(alloc, 99999)?;
    let notes = MemorySink::with_room(alloc, 99)?;
    let host = Host {
        rt,
        alloc,
        gate: &NoGate,
    };
    let mut outputs = Outputs { out, notes };
    let ended = program(&host, &NoPredicates, &words, &mut folder, &mut outputs);
    if ended == ExitCode::from(code) {
        Ok(outputs.out.written().len())
    } else {
        Ok(usize::MAX)
    }
}

// 5,000 rows that match, and a heading of four bytes; 64 statements over 16 tables of 64 columns, each
// answer of a heading of two bytes and a row of two, with an empty line between two; and 48 conjuncts
// nested 64 deep.
#[test]
fn of_a_size(rt: HostRuntime) -> Result<(), Fail> {
    let alloc = rt.alloc();
    let long = repeated(alloc, b"c\n", 5000, b"1\n")?;
    assert_eq!(rt;
        written_by(&rt, alloc, "q t=1 u=2", QUERY, &long, 0)?,
        20004
    );
    let mut wide = repeated(alloc, b"c", 63, b",")?;
    wide.extend_from_slice(repeated(alloc, b"\n1", 63, b",1")?.as_slice())?;
    let statements = repeated(alloc, b"SELECT c FROM t", 63, b";SELECT c FROM t")?;
    let sixteen = "q a=1 b=1 c=1 d=1 e=1 f=1 g=1 h=1 i=1 j=1 k=1 l=1 m=1 n=1 t=1 u=1";
    assert_eq!(rt;
        written_by(&rt, alloc, sixteen, &statements, &wide, 0)?,
        64 * 4 + 63
    );
    let mut nested = repeated(alloc, b"SELECT c FROM t WHERE ", 47, b"c = 1 AND ")?;
    nested.extend_from_slice(repeated(alloc, b"", 64, b"(")?.as_slice())?;
    nested.extend_from_slice(repeated(alloc, b"c = 1", 64, b")")?.as_slice())?;
    assert_eq!(rt; written_by(&rt, alloc, "q t=1", &nested, b"c\n1\n", 0)?, 4);
    Ok(())
}
