//! Whole runs over memory. What is expected was worked out by hand.
//!
//! A case is a line of fields with bars between: the words, the script, what fails, the exit status and
//! the status, what is written, and the note. A slash stands for the end of a line. A word of a name
//! alone is a table of that name in the file of that name, behind the script's file `q`; words that
//! begin with `!` stand as they are.

use eddy_worker::NoGate;
use outside::{Folder, MemoryFolder, MemorySink, SureFolder, SureSink};
use run_base::Outputs;
use run_plan::Status;
use sq_value::NoPredicates;
use std::alloc::Global;
use std::sync::Wait;
use std::test::Fail;
use std::thread::Threads;
use whole_run::Host;
use whole_run::run::run;

// The files, each its name and its text. A `^` stands for a carriage return, and a `~` for a byte that
// is no character.
const FILES: &str = "\
cust | id,name/1,Ada/2,Bob/3,/\n\
ord | oid,cid,amt/10,1,5/11,1,7/12,2,5/13,,9/\n\
n | x/1/2/3/\n\
t | x/1/1/\n\
e | x:int/\n\
m | x/9223372036854775807/\n\
huge | x/9223372036854775807/9223372036854775807/\n\
short | x,y/1/\n\
letters | x:int/1/a/\n\
bytes | x/1/~/\n\
cents | x:dec2/1.234/\n\
twice | x,X/\n\
v | v/\"a,\"\"b\"\"\"/\n\
one | x/1/\n\
people | \u{feff}id,name,city^/1,\"Ng, Ada\",Oslo^/2,Bob,^/\n\
orders | oid,person,total/7,1,120/8,2,80/9,1,35/\n\
p | sku,cost:dec2/1,1.5/2,10/3,-0.25/4,/\n\
r | rate:dec3/1.500/10.000/\n\
wide | a1,a2,a3,a4,a5,a6,a7,a8,a9,a10,a11,a12,a13,a14,a15,a16,a17,a18,a19,a20,a21,a22,a23,a24,a25,a26,a27,a28,a29,a30\
    ,a31,a32,a33,a34,a35,a36,a37,a38,a39,a40,a41,a42,a43,a44,a45,a46,a47,a48,a49,a50,a51,a52,a53,a54,a55,a56,a57,a58,\
    a59,a60,a61,a62,a63,a64,a65/\n\
nothing | \n\
odd | ~\n\
large | x:int/9223372036854775808/\n\
cut | x/1\n\
xyz | x,y,z/1,2,3/\n\
most | max,min/1,2/\n\
";

const SPENDERS: &str =
    "-- big spenders\nselect p.name as who, o.total from people p join orders o on o.person = p.id \
    where o.total between 50 and 200 and p.city is not null order by o.total desc, who;";

// Answers. A fourth load would fail in the one with two tables: each file is loaded once.
const DONE: &str = "\
cust ord | SELECT name, amt FROM cust c, ord o WHERE c.id = o.cid |  | 0 Done | name,amt/Ada,5/Ada,7/Bob,5/ | \n\
cust ord | SELECT name, amt FROM cust c, ord o WHERE c.id = o.cid ORDER BY amt DESC |  | 0 Done | name,amt/Ada,7/A\
    da,5/Bob,5/ | \n\
t | SELECT a.x FROM t a, t b |  | 0 Done | x/1/1/1/1/ | \n\
n | SELECT a.x AS p, b.x AS q FROM n a, n b WHERE a.x < b.x |  | 0 Done | p,q/1,2/1,3/2,3/ | \n\
e n | SELECT * FROM e, n |  | 0 Done | x,x/ | \n\
ord | SELECT o.oid FROM ord o, ord p WHERE o.cid = p.cid AND o.oid <= p.oid |  | 0 Done | oid/10/10/11/12/ | \n\
ord | SELECT oid FROM ord WHERE NOT cid = 1 |  | 0 Done | oid/12/ | \n\
ord | SELECT oid FROM ord WHERE (cid = 1) IS UNKNOWN |  | 0 Done | oid/13/ | \n\
ord | SELECT oid FROM ord WHERE amt NOT IN (5, NULL) |  | 0 Done | oid/ | \n\
ord | SELECT oid FROM ord ORDER BY cid DESC |  | 0 Done | oid/13/12/10/11/ | \n\
ord | SELECT oid FROM ord ORDER BY cid DESC NULLS LAST |  | 0 Done | oid/12/10/11/13/ | \n\
m | SELECT x FROM m WHERE x + 1 > x |  | 0 Done | x/9223372036854775807/ | \n\
--policy pressure --seed 7 --route v0 cust ord | SELECT name, amt FROM cust c, ord o WHERE c.id = o.cid |  | 0 Don\
    e | name,amt/Ada,5/Ada,7/Bob,5/ | \n\
n | SELECT x FROM n; SELECT x FROM n; |  | 0 Done | x/1/2/3//x/1/2/3/ | \n\
n one e | SELECT x FROM e; SELECT x FROM one; SELECT x FROM n WHERE x = 2 |  | 0 Done | x//x/1//x/2/ | \n\
n | SELECT x FROM n WHERE ((((((((((((((((((((((((((((((((((((((((((((((((((((((((((((((((x = 1)))))))))))))))))))\
    ))))))))))))))))))))))))))))))))))))))))))))) |  | 0 Done | x/1/ | \n\
v | SELECT v FROM v |  | 0 Done | v/\"a,\"\"b\"\"\"/ | \n\
cust | SELECT name FROM cust WHERE id = 3 |  | 0 Done | name/\"\"/ | \n\
one | SELECT a.x FROM one a, one b, one c, one d, one e, one f, one g, one h, one i, one j, one k, one l |  | 0 Do\
    ne | x/1/ | \n\
p r | SELECT sku, cost, rate FROM p, r WHERE cost = rate |  | 0 Done | sku,cost,rate/1,1.50,1.500/2,10.00,10.000/ \
    | \n\
p | SELECT sku, cost FROM p WHERE cost >= sku |  | 0 Done | sku,cost/1,1.50/2,10.00/ | \n\
p | SELECT sku FROM p WHERE 4 * cost = -1 |  | 0 Done | sku/3/ | \n\
cust ord | SELECT name, amt FROM cust c, ord o WHERE c.id = o.cid | load 4 | 0 Done | name,amt/Ada,5/Ada,7/Bob,5/ | \n\
p | SELECT cost FROM p ORDER BY cost |  | 0 Done | cost/-0.25/1.50/10.00/\"\"/ | \n\
";

// Answers with a line of counts for each, and faults of the notes at such a line.
const TALLIED: &str = "\
! --tally q cust=cust ord=ord | SELECT name, amt FROM cust c, ord o WHERE c.id = o.cid ORDER BY amt DESC |  | 0 Do\
    ne | name,amt/Ada,7/Ada,5/Bob,5/ | query 1: built 3,4 hops 3 looked 0/\n\
! --tally --policy pressure q cust=cust ord=ord | SELECT name, amt FROM cust c, ord o WHERE c.id = o.cid ORDER BY \
    amt DESC |  | 0 Done | name,amt/Ada,7/Ada,5/Bob,5/ | query 1: built 3,4 hops 3 looked 0/\n\
! --tally --policy script --route b,v0 q cust=cust ord=ord | SELECT name, amt FROM cust c, ord o WHERE c.id = o.ci\
    d ORDER BY amt DESC |  | 0 Done | name,amt/Ada,7/Ada,5/Bob,5/ | query 1: built 3,4 hops 3 looked 0/\n\
! --tally q ord=ord | SELECT o.oid FROM ord o, ord p WHERE o.cid = p.cid AND o.oid <= p.oid |  | 0 Done | oid/10/1\
    0/11/12/ | query 1: built 4,4 hops 4 looked 0/\n\
! --tally --policy script --route s0 q n=n | SELECT x FROM n; SELECT x FROM n WHERE x = 2 |  | 0 Done | x/1/2/3//x\
    /2/ | query 1: built 3 hops 2 looked 0/query 2: built 1 hops 3 looked 0/\n\
! --tally --policy script --route b q n=n | SELECT x FROM n WHERE x = 2 |  | 0 Done | x/2/ | query 1: built 3 hops \
    3 looked 0/\n\
! --tally --policy script --route v0 q cust=cust ord=ord | SELECT name, amt FROM cust c, ord o WHERE c.id = o.cid ORD\
    ER BY amt DESC |  | 0 Done | name,amt/Ada,7/Ada,5/Bob,5/ | query 1: built 3,4 hops 3 looked 0/\n\
! --tally --policy script --route a0,a1 q cust=cust ord=ord | SELECT name, amt FROM cust c, ord o WHERE c.id = o.cid \
    ORDER BY amt DESC |  | 0 Done | name,amt/Ada,7/Ada,5/Bob,5/ | query 1: built 3,4 hops 4 looked 0/\n\
! --tally --policy script --route v0 q ord=ord | SELECT o.oid FROM ord o, ord p WHERE o.cid = p.cid AND o.oid <= p.oi\
    d |  | 0 Done | oid/10/10/11/12/ | query 1: built 4,4 hops 4 looked 0/\n\
! --tally --policy script --route a0,a1 q ord=ord | SELECT o.oid FROM ord o, ord p WHERE o.cid = p.cid AND o.oid <= p\
    .oid |  | 0 Done | oid/10/10/11/12/ | query 1: built 4,4 hops 5 looked 0/\n\
! --tally --policy pressure q ord=ord | SELECT o.oid FROM ord o, ord p WHERE o.cid = p.cid AND o.oid <= p.oid |  | 0 \
    Done | oid/10/10/11/12/ | query 1: built 4,4 hops 4 looked 0/\n\
! --tally --policy script --route b q people=people orders=orders | -- big spenders/select p.name as who, o.total f\
    rom people p join orders o on o.person = p.id where o.total between 50 and 200 and p.city is not null order by o\
    .total desc, who; |  | 0 Done | who,total/\"Ng, Ada\",120/ | query 1: built 2,3 hops 6 looked 0/\n\
! --tally q cust=cust ord=ord | SELECT name, amt FROM cust c, ord o WHERE c.id = o.cid ORDER BY amt DESC | note 3 \
    | 6 Write | name,amt/Ada,7/Ada,5/Bob,5/ | que\n\
! --tally q n=n | SELECT x FROM n; SELECT x FROM n | note 45 | 6 Write | x/1/2/3//x/1/2/3/ | query 1: built 3 hops \
    2 looked 0/query 2: bui\n\
! --tally q n=n | SELECT x FROM n; SELECT x FROM n | put 5 0 | 6 Write | x/1/2/3/ | query 1: built 3 hops 2 looked \
    0/write fault/\n\
! --tally q n=n | SELECT x FROM n; SELECT y FROM n |  | 3 Bind { statement: 2, fault: UnknownColumn { at: 24 } } |  \
    | statement 2: unknown column at byte 24/\n\
";

// Answers over tables with a look-up.
const LOOKED_UP: &str = "\
--index ord.cid cust ord | SELECT name, amt FROM cust c, ord o WHERE c.id = o.cid |  | 0 Done | name,amt/Ada,5/Ada\
    ,7/Bob,5/ | \n\
--lookup ord.cid cust ord | SELECT name, amt FROM cust c, ord o WHERE c.id = o.cid |  | 0 Done | name,amt/Ada,5/Ad\
    a,7/Bob,5/ | \n\
! --lookup ord.cid --tally q cust=cust ord=ord | SELECT name, amt FROM cust c, ord o WHERE c.id = o.cid |  | 0 Done \
    | name,amt/Ada,5/Ada,7/Bob,5/ | query 1: built 3,3 hops 3 looked 3/\n\
! --lookup ord.cid --tally --workers 4 q cust=cust ord=ord | SELECT name, amt FROM cust c, ord o WHERE c.id = o.cid |  \
    | 0 Done | name,amt/Ada,5/Ada,7/Bob,5/ | query 1: built 3,3 hops 3 looked 3/\n\
";

// The demo, whose summary tells the number of rows of each answer.
const DEMO: &str = "\
! --demo 1000 |  |  | 0 Done | query,rows/q1,100/q2,50/q3,540/ | \n\
! --demo 1000 --policy pressure --seed 18446744073709551615 |  |  | 0 Done | query,rows/q1,100/q2,50/q3,540/ | \n\
! --demo 20000 --seed 7 |  |  | 0 Done | query,rows/q1,2000/q2,1000/q3,10800/ | \n\
! --demo 20000 --seed 999 |  |  | 0 Done | query,rows/q1,2000/q2,1000/q3,10800/ | \n\
! --demo 1 |  |  | 0 Done | query,rows/q1,0/q2,1/q3,0/ | \n\
! --demo 1 --tally --policy script --route b |  |  | 0 Done | query,rows/q1,0/q2,1/q3,0/ | query 1: built 1,1 hops 4 \
    looked 0/query 2: built 1,1,1 hops 5 looked 0/query 3: built 1,1 hops 4 looked 0/\n\
! --demo 1 --tally --policy script --route b |  | note 40 | 6 Write | query,rows/q1,0/q2,1/ | query 1: built 1,1 hop\
    s 4 looked 0/query\n\
! --demo 1 --tally --policy script --route b |  | put 3 0 | 6 Write | query,rows/q1,0/ | query 1: built 1,1 hops 4 lo\
    oked 0/write fault/\n\
! --demo 1 |  | put 1 4 | 6 Write | quer | write fault/\n\
! --demo 1 |  | put 3 0 | 6 Write | query,rows/q1,0/ | write fault/\n\
";

// Refusals, each with its note.
const REFUSED: &str = "\
! |  |  | 2 Usage |  | usage: eddyql [OPTIONS] SCRIPT NAME=FILE.. or eddyql [OPTIONS] --demo ROWS/\n\
! --workers 0 q n=n | SELECT x FROM n |  | 2 Usage |  | usage: eddyql [OPTIONS] SCRIPT NAME=FILE.. or eddyql [OPTI\
    ONS] --demo ROWS/\n\
! --workers 17 q n=n | SELECT x FROM n |  | 2 Usage |  | usage: eddyql [OPTIONS] SCRIPT NAME=FILE.. or eddyql [OPTI\
    ONS] --demo ROWS/\n\
! --demo 0 |  |  | 2 Usage |  | usage: eddyql [OPTIONS] SCRIPT NAME=FILE.. or eddyql [OPTIONS] --demo ROWS/\n\
! q n=n N=n | SELECT x FROM n |  | 2 Usage |  | usage: eddyql [OPTIONS] SCRIPT NAME=FILE.. or eddyql [OPTIONS] --d\
    emo ROWS/\n\
! --index z.x q n=n | SELECT x FROM n |  | 2 Usage |  | usage: eddyql [OPTIONS] SCRIPT NAME=FILE.. or eddyql [OPTI\
    ONS] --demo ROWS/\n\
! --cache 4097 q n=n | SELECT x FROM n |  | 2 Usage |  | usage: eddyql [OPTIONS] SCRIPT NAME=FILE.. or eddyql [OPTI\
    ONS] --demo ROWS/\n\
! --seed 18446744073709551616 q n=n | SELECT x FROM n |  | 2 Usage |  | usage: eddyql [OPTIONS] SCRIPT NAME=FILE.\
    . or eddyql [OPTIONS] --demo ROWS/\n\
t | SELECT FROM t |  | 3 Script { fault: Syntax { at: 7 } } |  | script: syntax at byte 7/\n\
n | SELECT x FROM n WHERE NOT x = 1 = 1 |  | 3 Script { fault: Syntax { at: 32 } } |  | script: syntax at byte 32/\n\
n |  |  | 3 Script { fault: Syntax { at: 0 } } |  | script: syntax at byte 0/\n\
n | SELECT x FROM n ~ |  | 3 Script { fault: NotUtf8 { at: 16 } } |  | script: not UTF-8 at byte 16/\n\
n | SELECT x FROM n WHERE x < 9223372036854775808 |  | 3 Script { fault: NumberTooLarge { at: 26 } } |  | script: \
    number too large at byte 26/\n\
n | SELECT x FROM n WHERE (((((((((((((((((((((((((((((((((((((((((((((((((((((((((((((((((x = 1 |  | 7 Limit { of\
    : Parse { fault: TooDeep { at: 86 } } } |  | limit: depth at byte 86/\n\
n | SELECT x FROM n; SELECT y FROM n |  | 3 Bind { statement: 2, fault: UnknownColumn { at: 24 } } |  | statement \
    2: unknown column at byte 24/\n\
n | SELECT x FROM nn |  | 3 Bind { statement: 1, fault: UnknownTable { at: 14 } } |  | statement 1: unknown table \
    at byte 14/\n\
n | SELECT x FROM n a, n A |  | 3 Bind { statement: 1, fault: RepeatedAlias { at: 21 } } |  | statement 1: repeate\
    d alias at byte 21/\n\
n | SELECT b.x FROM n a |  | 3 Bind { statement: 1, fault: UnknownAlias { at: 7 } } |  | statement 1: unknown alia\
    s at byte 7/\n\
cust | SELECT id FROM cust a, cust b |  | 3 Bind { statement: 1, fault: AmbiguousColumn { at: 7 } } |  | statemen\
    t 1: ambiguous column at byte 7/\n\
cust | SELECT name FROM cust WHERE name = 1 |  | 3 Bind { statement: 1, fault: TypeMismatch { at: 28 } } |  | stat\
    ement 1: type mismatch at byte 28/\n\
n | SELECT a.x, b.x FROM n a, n b WHERE divide(a.x, b.x) |  | 3 Bind { statement: 1, fault: UnknownFunction { at: \
    36 } } |  | statement 1: unknown function at byte 36/\n\
n | SELECT x FROM n WHERE x+x+x+x+x+x+x+x+x>0 |  | 7 Limit { of: Bind { statement: 1, fault: TooManyTerms { at: 3\
    8 } } } |  | limit: terms at byte 38/\n\
one | SELECT a.x FROM one a, one b, one c, one d, one e, one f, one g, one h, one i, one j, one k, one l, one m \
    |  | 7 Limit { of: Bind { statement: 1, fault: TooManyAliases { at: 100 } } } |  | limit: aliases at byte 100/\n\
--lookup ord.cid ord | SELECT * FROM ord |  | 3 Bind { statement: 1, fault: Unreachable { alias: 0 } } |  | statem\
    ent 1: alias 1 is unreachable/\n\
--lookup ord.cid ord | SELECT oid FROM ord WHERE cid = 1 |  | 3 Bind { statement: 1, fault: Unreachable { alias: \
    0 } } |  | statement 1: alias 1 is unreachable/\n\
--lookup ord.cid ord | SELECT o.oid FROM ord o, ord p WHERE o.cid = p.cid |  | 3 Bind { statement: 1, fault: Unrea\
    chable { alias: 0 } } |  | statement 1: alias 1 is unreachable/\n\
n short | SELECT x FROM n |  | 4 BadTable { table: 1, fault: Unequal { rec: 1 } } |  | table short: record 1 is un\
    equal/\n\
nothing | SELECT x FROM n |  | 4 BadTable { table: 0, fault: NoHeading } |  | table nothing: no heading/\n\
letters | SELECT x FROM n |  | 4 BadTable { table: 0, fault: BadInteger { rec: 2, field: 1 } } |  | table letters\
    : record 2 field 1 is not an integer/\n\
bytes | SELECT x FROM n |  | 4 BadTable { table: 0, fault: NotUtf8 { rec: 2, field: 1 } } |  | table bytes: recor\
    d 2 field 1 is not UTF-8/\n\
cents | SELECT x FROM n |  | 4 BadTable { table: 0, fault: BadDecimal { rec: 1, field: 1 } } |  | table cents: rec\
    ord 1 field 1 is not a decimal/\n\
twice | SELECT x FROM n |  | 4 BadTable { table: 0, fault: RepeatedColumn { field: 2 } } |  | table twice: field \
    2 repeats a column/\n\
wide | SELECT x FROM n |  | 7 Limit { of: Table { table: 0, fault: TooManyColumns } } |  | limit: columns of table wi\
    de/\n\
--index n.y n | SELECT x FROM n |  | 4 NoColumn { access: 1 } |  | access 1: no such column/\n\
--index n.X --lookup t.z n t | SELECT x FROM n |  | 4 NoColumn { access: 2 } |  | access 2: no such column/\n\
! absent n=n | SELECT x FROM n |  | 5 NotFound { file: Script } |  | not found: script/\n\
cust Ord=absent | SELECT name, amt FROM cust c, ord o WHERE c.id = o.cid |  | 5 NotFound { file: Table(1) } |  | n\
    ot found: table Ord/\n\
cust ord | SELECT name, amt FROM cust c, ord o WHERE c.id = o.cid | load 1 | 5 Read { file: Script } |  | read fau\
    lt: script/\n\
cust ord | SELECT name, amt FROM cust c, ord o WHERE c.id = o.cid | load 3 | 5 Read { file: Table(1) } |  | read f\
    ault: table ord/\n\
cust ord | SELECT name, amt FROM cust c, ord o WHERE c.id = o.cid | put 1 0 | 6 Write |  | write fault/\n\
cust ord | SELECT name, amt FROM cust c, ord o WHERE c.id = o.cid | put 2 3 | 6 Write | name,amt/Ada | write fault\
    /\n\
n | SELECT x FROM n; SELECT x FROM n | put 5 0 | 6 Write | x/1/2/3/ | write fault/\n\
n | SELECT x FROM n; SELECT x FROM n | room 9 | 6 Write | x/1/2/3// | write fault/\n\
n | SELECT x FROM n; SELECT x FROM n | room 10 | 6 Write | x/1/2/3//x | write fault/\n\
n | SELECT x FROM n; SELECT x FROM n | note 4 | 0 Done | x/1/2/3//x/1/2/3/ | \n\
t | SELECT FROM t | note 4 | 3 Script { fault: Syntax { at: 7 } } |  | scri\n\
";

// A text as bytes, with the signs of a case undone.
fn bytes_of(alloc: Global, text: &str) -> Result<Vec<u8>, Fail> {
    let mut bytes = Vec::new(alloc);
    for byte in text.as_bytes() {
        bytes.push(match byte {
            b'/' => b'\n',
            b'^' => b'\r',
            b'~' => 0xFF,
            other => *other,
        })?;
    }
    Ok(bytes)
}

// Puts the word of a case behind the others.
fn push_word(alloc: Global, words: &mut Vec<String>, text: &str) -> Result<(), Fail> {
    let is_named = text.contains('=') || text.starts_with('-');
    let is_text = words
        .last()
        .is_some_and(|word| word.as_str().starts_with("--"));
    words.push(if is_named || is_text {
        String::from_str(alloc, text)?
    } else {
        format!(in alloc; "{text}={text}")?
    })?;
    Ok(())
}

fn words_of(alloc: Global, texts: &str) -> Result<Vec<String>, Fail> {
    let mut words = Vec::new(alloc);
    if let Some(given) = texts.strip_prefix('!') {
        for text in given.split_ascii_whitespace() {
            words.push(String::from_str(alloc, text)?)?;
        }
        return Ok(words);
    }
    words.push(String::from_str(alloc, "q")?)?;
    for text in texts.split(' ') {
        push_word(alloc, &mut words, text)?;
    }
    Ok(words)
}

// The fields of a case.
#[derive(Clone, Copy)]
struct Case<'a> {
    words: &'a str,
    script: &'a str,
    fault: &'a str,
    status: &'a str,
    written: &'a str,
    note: &'a str,
}

fn case_of(line: &str) -> Case<'_> {
    let mut parts = line.split(" | ");
    Case {
        words: parts.next().unwrap_or(""),
        script: parts.next().unwrap_or(""),
        fault: parts.next().unwrap_or(""),
        status: parts.next().unwrap_or(""),
        written: parts.next().unwrap_or(""),
        note: parts.next().unwrap_or(""),
    }
}

// The number behind a word of a fault, at this place behind it.
fn number(fault: &str, word: &str, place: usize) -> Option<usize> {
    let mut parts = fault.split(' ');
    if parts.next() != Some(word) {
        return None;
    }
    parts.nth(place)?.parse().ok()
}

// The script as the file `q`, and all files.
fn folder_of(alloc: Global, script: &[u8]) -> Result<MemoryFolder, Fail> {
    let mut folder = MemoryFolder::new(alloc);
    folder.keep("q", script)?;
    for line in FILES.lines().chain(remotes::REMOTE_FILES.lines()) {
        let mut parts = line.split(" | ");
        let name = parts.next().unwrap_or("");
        let bytes = bytes_of(alloc, parts.next().unwrap_or(""))?;
        folder.keep(name, bytes.as_slice())?;
    }
    Ok(folder)
}

// A sink whose room, and the put at which it fails after some bytes, are behind these words of a fault.
fn sink_of(alloc: Global, fault: &str, room: &str, put: &str) -> Result<MemorySink, Fail> {
    let mut sink = MemorySink::with_room(alloc, number(fault, room, 0).unwrap_or(999))?;
    if let Some(call) = number(fault, put, 0) {
        sink.fail_at(call as u64, number(fault, put, 1).unwrap_or(0))?;
    }
    Ok(sink)
}

// How a run ends, and what is written and noted.
fn told<R: Threads + Wait + Sync>(rt: &R, alloc: Global, case: Case<'_>) -> Result<bool, Fail> {
    let words = words_of(alloc, case.words)?;
    let script = bytes_of(alloc, case.script)?;
    let mut folder = folder_of(alloc, script.as_slice())?;
    if let Some(load) = number(case.fault, "load", 0) {
        folder.fail_at(load as u64)?;
    }
    let out = sink_of(alloc, case.fault, "room", "put")?;
    let notes = sink_of(alloc, case.fault, "note", "noted")?;
    let host = Host {
        rt,
        alloc,
        gate: &NoGate,
    };
    let mut outputs = Outputs { out, notes };
    let status = run(&host, &NoPredicates, &words, &mut folder, &mut outputs);
    let told = format!(in alloc; "{} {status:?}", status.code())?;
    let written = bytes_of(alloc, case.written)?;
    let note = bytes_of(alloc, case.note)?;
    Ok(
        told.as_str() == case.status
            && outputs.out.written() == written.as_slice()
            && outputs.notes.written() == note.as_slice(),
    )
}

#[test]
fn runs_end_as_they_must(rt: HostRuntime) -> Result<(), Fail> {
    for cases in [
        DONE,
        TALLIED,
        REFUSED,
        LOOKED_UP,
        DEMO,
        shaped::SHAPED,
        shared::SHARED,
        remotes::REMOTE,
        remotes::REFUSED_REMOTE,
    ] {
        for line in cases.lines() {
            if !told(&rt, rt.alloc(), case_of(line))? {
                assert_eq!(rt; line, "");
            }
        }
    }
    assert_eq!(rt; Status::Memory.code(), 9);
    Ok(())
}

// Whether a run ends so, with this note, and writes nothing but where it is done.
fn ended_in<F: Folder, R: Threads + Wait + Sync>(
    rt: &R,
    alloc: Global,
    texts: &str,
    folder: &mut F,
    told: &str,
    note: &str,
) -> Result<bool, Fail> {
    let words = words_of(alloc, texts)?;
    let out = MemorySink::with_room(alloc, 99)?;
    let notes = MemorySink::with_room(alloc, 99)?;
    let host = Host {
        rt,
        alloc,
        gate: &NoGate,
    };
    let mut outputs = Outputs { out, notes };
    let status = run(&host, &NoPredicates, &words, folder, &mut outputs);
    let said = format!(in alloc; "{status:?}")?;
    Ok(
        said.as_str() == told
            && outputs.notes.written() == note.as_bytes()
            && outputs.out.written().is_empty() == (status != Status::Done),
    )
}

// The same of a script over the files.
fn ended<R: Threads + Wait + Sync>(
    rt: &R,
    alloc: Global,
    texts: &str,
    script: &[u8],
    told: &str,
    note: &str,
) -> Result<bool, Fail> {
    let mut folder = folder_of(alloc, script)?;
    ended_in(rt, alloc, texts, &mut folder, told, note)
}

// A script of 200 kB before its words, as comment lines or as blanks, or in a text of its condition.
#[test]
fn long_scripts(rt: HostRuntime) -> Result<(), Fail> {
    let alloc = rt.alloc();
    let mut comments = Vec::new(alloc);
    for _ in 0..10_000 {
        comments.extend_from_slice(b"-- a comment line..\n")?;
    }
    comments.extend_from_slice(b"SELECT x FROM n")?;
    let mut blanks = vec![in alloc; b' '; 200_000]?;
    blanks.extend_from_slice(b"SELECT x FROM n")?;
    let mut text = Vec::new(alloc);
    text.extend_from_slice(b"SELECT v FROM v WHERE v < '")?;
    text.extend_from_slice(&vec![in alloc; b'w'; 200_000]?)?;
    text.extend_from_slice(b"'")?;
    assert!(rt; ended(&rt, alloc, "n", &comments, "Done", "")?);
    assert!(rt; ended(&rt, alloc, "n", &blanks, "Done", "")?);
    assert!(rt; ended(&rt, alloc, "v", &text, "Done", "")?);
    Ok(())
}

// A table as people write it, and a script of several lines.
#[test]
fn as_people_write_it(rt: HostRuntime) -> Result<(), Fail> {
    let alloc = rt.alloc();
    let words = words_of(alloc, "people orders")?;
    let mut folder = folder_of(alloc, SPENDERS.as_bytes())?;
    let out = SureSink::with_room(alloc, 99)?;
    let notes = SureSink::with_room(alloc, 99)?;
    let host = Host {
        rt: &rt,
        alloc,
        gate: &NoGate,
    };
    let mut outputs = Outputs { out, notes };
    let status = run(&host, &NoPredicates, &words, &mut folder, &mut outputs);
    assert_eq!(rt; status, Status::Done);
    assert!(rt; outputs.out.written() == b"who,total\n\"Ng, Ada\",120\n".as_slice());
    assert!(rt; outputs.notes.written().is_empty());
    Ok(())
}

// A folder and a sink that are sure: the sink keeps what fits, and refuses nothing.
#[test]
fn sure_folder_and_sink(rt: HostRuntime) -> Result<(), Fail> {
    let alloc = rt.alloc();
    let words = words_of(alloc, "n")?;
    let mut folder = SureFolder::new(alloc);
    folder.keep("q", b"SELECT x FROM n")?;
    folder.keep("n", b"x\n1\n2\n")?;
    let out = SureSink::with_room(alloc, 3)?;
    let notes = SureSink::with_room(alloc, 99)?;
    let host = Host {
        rt: &rt,
        alloc,
        gate: &NoGate,
    };
    let mut outputs = Outputs { out, notes };
    let status = run(&host, &NoPredicates, &words, &mut folder, &mut outputs);
    assert_eq!(rt; status, Status::Done);
    assert!(rt; outputs.out.written() == b"x\n1".as_slice());
    Ok(())
}

mod engine;
mod headings;
mod hostile;
mod limits;
mod remotes;
mod shaped;
mod shared;
mod workers;
