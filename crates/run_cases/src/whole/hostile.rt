//! Hostile use: faults of files and outputs at each place, and bad scripts and tables. What is expected was worked out
//! by hand.

use super::*;

// The words behind which each case is run. None of them changes how a run ends, or what it writes.
const SETTINGS: &str = "\
--workers 1
--workers 4
--policy pressure --cache 2
";

// Faults at each load and each put, and what isn't a script or a table.
const HOSTILE: &str = "\
cust ord | SELECT name, amt FROM cust c, ord o WHERE c.id = o.cid ORDER BY amt DESC | put 1 2 | 6 Write | na | write \
    fault/\n\
cust ord | SELECT name, amt FROM cust c, ord o WHERE c.id = o.cid ORDER BY amt DESC | put 2 2 | 6 Write | name,amt/A\
    d | write fault/\n\
cust ord | SELECT name, amt FROM cust c, ord o WHERE c.id = o.cid ORDER BY amt DESC | put 3 2 | 6 Write | name,amt/Ad\
    a,7/Ad | write fault/\n\
cust ord | SELECT name, amt FROM cust c, ord o WHERE c.id = o.cid ORDER BY amt DESC | put 4 2 | 6 Write | name,amt/Ad\
    a,7/Ada,5/Bo | write fault/\n\
cust ord | SELECT name, amt FROM cust c, ord o WHERE c.id = o.cid ORDER BY amt DESC | put 5 2 | 0 Done | name,amt/Ada\
    ,7/Ada,5/Bob,5/ | \n\
cust ord | SELECT name, amt FROM cust c, ord o WHERE c.id = o.cid | load 1 | 5 Read { file: Script } |  | read fault\
    : script/\n\
cust ord | SELECT name, amt FROM cust c, ord o WHERE c.id = o.cid | load 2 | 5 Read { file: Table(0) } |  | read faul\
    t: table cust/\n\
cust ord | SELECT name, amt FROM cust c, ord o WHERE c.id = o.cid | load 3 | 5 Read { file: Table(1) } |  | read faul\
    t: table ord/\n\
cust ord | SELECT name, amt FROM cust c, ord o WHERE c.id = o.cid | load 4 | 0 Done | name,amt/Ada,5/Ada,7/Bob,\
    5/ | \n\
t | SELECT FROM t | noted 1 0 | 3 Script { fault: Syntax { at: 7 } } |  | \n\
n | ~ |  | 3 Script { fault: NotUtf8 { at: 0 } } |  | script: not UTF-8 at byte 0/\n\
n | SELECT x FROM n WHERE 'a |  | 3 Script { fault: Syntax { at: 22 } } |  | script: syntax at byte 22/\n\
n | SELECT x FROM n WHERE x = 1 -- |  | 0 Done | x/1/ | \n\
n | SELECT x FROM n;SELECT x FROM n;SELECT x FROM n;SELECT x FROM n;SELECT x FROM n;SELECT x FROM n;SELECT x FROM n;S\
    ELECT x FROM n;SELECT x FROM n;SELECT x FROM n;SELECT x FROM n;SELECT x FROM n;SELECT x FROM n;SELECT x FROM n;SE\
    LECT x FROM n;SELECT x FROM n;SELECT x FROM n;SELECT x FROM n;SELECT x FROM n;SELECT x FROM n;SELECT x FROM n;SEL\
    ECT x FROM n;SELECT x FROM n;SELECT x FROM n;SELECT x FROM n;SELECT x FROM n;SELECT x FROM n;SELECT x FROM n;SELE\
    CT x FROM n;SELECT x FROM n;SELECT x FROM n;SELECT x FROM n;SELECT x FROM n;SELECT x FROM n;SELECT x FROM n;SELEC\
    T x FROM n;SELECT x FROM n;SELECT x FROM n;SELECT x FROM n;SELECT x FROM n;SELECT x FROM n;SELECT x FROM n;SELEC\
    T x FROM n;SELECT x FROM n;SELECT x FROM n;SELECT x FROM n;SELECT x FROM n;SELECT x FROM n;SELECT x FROM n;SELEC\
    T x FROM n;SELECT x FROM n;SELECT x FROM n;SELECT x FROM n;SELECT x FROM n;SELECT x FROM n;SELECT x FROM n;SELEC\
    T x FROM n;SELECT x FROM n;SELECT x FROM n;SELECT x FROM n;SELECT x FROM n;SELECT x FROM n;SELECT x FROM n;SELEC\
    T x FROM n;SELECT x FROM n; |  | 7 Limit { of: Parse { fault: TooManyStatements { at: 1024 } } } |  | limit: stat\
    ements at byte 1024/\n\
wide | SELECT x FROM n |  | 7 Limit { of: Table { table: 0, fault: TooManyColumns } } |  | limit: columns of table \
    wide/\n\
odd | SELECT x FROM n |  | 4 BadTable { table: 0, fault: NotUtf8 { rec: 0, field: 1 } } |  | table odd: record 0 fiel\
    d 1 is not UTF-8/\n\
large | SELECT x FROM large |  | 4 BadTable { table: 0, fault: BadInteger { rec: 1, field: 1 } } |  | table large: re\
    cord 1 field 1 is not an integer/\n\
cut | SELECT x FROM cut |  | 0 Done | x/1/ | \n\
";

// A case behind more words.
fn case_behind(alloc: Global, words: &str, line: &str) -> Result<String, Fail> {
    Ok(format!(in alloc; "{words} {line}")?)
}

#[test]
fn hostile_runs_end_as_they_must(rt: HostRuntime) -> Result<(), Fail> {
    for line in HOSTILE.lines() {
        for words in SETTINGS.lines() {
            let case = case_behind(rt.alloc(), words, line)?;
            if !told(&rt, rt.alloc(), case_of(case.as_str()))? {
                assert_eq!(rt; line, words);
            }
        }
    }
    Ok(())
}

// Scripts, each with its tables, and how many of its proper fronts are statements. Of the first these end behind
// `p.id`, `2`, `20`, `200`, `not null`, `o.total`, `desc` and `who`, and with the blank behind four of these. Of the
// last, `L` to `LIMI` are an alias.
const FRONTS: &str = "\
12 | people orders | -- big spenders/select p.name as who, o.total from people p join orders o on o.person = p.id whe\
    re o.total between 50 and 200 and p.city is not null order by o.total desc, who;\n\
12 | n m | SELECT DISTINCT n.*, n.x AS count FROM n JOIN m ON n.x = m.x ORDER BY count DESC NULLS LAST LIMIT 10;\n\
7 | t=xyz | select count(*) k, SUM(t.x), min ( y ) AS sum from t group by t.z, y order by k limit 3\n\
9 | n sum=most | SELECT max, COUNT(max) FROM sum WHERE min IN (1, 2) GROUP BY max; SELECT MAX(x) FROM n LIMIT 0\n\
";

// The exit status of a script. A run that is refused and has written something has none.
fn code_of<R: Threads + Wait + Sync>(
    rt: &R,
    alloc: Global,
    words: &[String],
    script: &[u8],
) -> Result<Option<u8>, Fail> {
    let mut folder = folder_of(alloc, script)?;
    let host = Host {
        rt,
        alloc,
        gate: &NoGate,
    };
    let mut outputs = Outputs {
        out: MemorySink::with_room(alloc, 99)?,
        notes: MemorySink::with_room(alloc, 99)?,
    };
    let code = run(&host, &NoPredicates, words, &mut folder, &mut outputs).code();
    Ok((code == 0 || outputs.out.written().is_empty()).then_some(code))
}

// How many proper fronts of a script are answered, where all others are refused as it stands, with nothing written.
fn answered_fronts<R: Threads + Wait + Sync>(
    rt: &R,
    alloc: Global,
    names: &str,
    script: &[u8],
) -> Result<Option<usize>, Fail> {
    let words = words_of(alloc, names)?;
    let mut answered = 0_usize;
    for end in 0..script.len() {
        match code_of(rt, alloc, &words, script.get(..end).unwrap_or(&[]))? {
            Some(0) => answered = answered.saturating_add(1),
            Some(3) => {}
            _ => return Ok(None),
        }
    }
    Ok(Some(answered))
}

// A front of a script, byte by byte, is answered or refused. One that cuts a word ends with another word, which may be
// a name.
#[test]
fn fronts_of_scripts(rt: HostRuntime) -> Result<(), Fail> {
    for line in FRONTS.lines() {
        let mut parts = line.split(" | ");
        let due = parts.next().unwrap_or("").parse().ok();
        let names = parts.next().unwrap_or("");
        let script = bytes_of(rt.alloc(), parts.next().unwrap_or(""))?;
        let answered = answered_fronts(&rt, rt.alloc(), names, &script)?;
        assert_eq!(rt; answered, due, "{line}");
    }
    Ok(())
}
