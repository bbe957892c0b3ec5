//! The cases: lines of text.
use crate::remotes::given::{folder_of, loaded_in, told};
use std::test::Fail;

/// The tables: customers, visits and calls (both remotes), and numbers.
const TABLES: &str = "\
cust id:int,name:text/1,Ada/2,Bob/3,
visit who:int,day:int
call day:int,from:int
dec d:dec2/1.00/2.50/7.00";

/// Each case: the ways, the remotes, the files, which call fails, the statement, and what is answered.
const CASES: &str = "\
s 0 0 s | 1.0=v/ | v/1.csv=who:int,day:int/1,4/1,9 v/3.csv=who:int,day:int/3,2 | 0 | SELECT name, day FROM \
cust, visit WHERE id = who | 0:1 0:2 0:3 |/1,4/1,9/3,2\n\
s 0 0 s | 1.0=v/ | v/1.csv=who:int,day:int/1,4/1,9 v/3.csv=who:int,day:int/3,2 | 0 | SELECT name, day FROM \
cust, visit WHERE id = who AND id > 1 | 0:2 0:3 |/3,2\n\
s 0 0 s | 1.0=v/ | v/1.csv=who:int,day:int/1,4/1,9 v/3.csv=who:int,day:int/3,2 | 2 | SELECT name, day FROM \
cust, visit WHERE id = who | Read { at: RemoteKey { remote: 0, key: 2 } }\n\
s 0 0 s | 1.0=v/ | v/1.csv=who:int,day:int/2,4/1,9 | 0 | SELECT name, day FROM cust, visit WHERE id = who | \
BadFile { at: RemoteKey { remote: 0, key: 1 }, why: OtherKey { rec: 1 } }\n\
s 0 0 s | 1.0=v/ | v/1.csv=who:int,day:int/1,4/,9 | 0 | SELECT name, day FROM cust, visit WHERE id = who | \
BadFile { at: RemoteKey { remote: 0, key: 1 }, why: OtherKey { rec: 2 } }\n\
s 0 0 s | 1.0=v/ | v/2.csv=who:int,days:int/2,4 | 0 | SELECT name, day FROM cust, visit WHERE id = who | \
BadFile { at: RemoteKey { remote: 0, key: 2 }, why: Columns }\n\
s 0 0 s | 1.0=v/ 2.0=c/ | v/1.csv=who:int,day:int/1,4/1,9 v/3.csv=who:int,day:int/3,2 \
c/4.csv=day:int,from:int/4,7 c/2.csv=day:int,from:int/2,8/2,1 | 0 | SELECT name FROM cust, visit v, call c \
WHERE id = who AND c.day = v.day | 0:1 0:2 0:3 1:2 1:4 1:9 |/1,4/1,9/3,2|/2,8/2,1/4,7\n\
s 0 0 s | 1.0=v/ | v/1.csv=who:int,day:int/1,4 v/7.csv=who:int,day:int/7,2 | 0 | SELECT d FROM dec, visit WHERE \
d = who | 0:1 0:7 |/1,4/7,2\n\
s 0 0 s | 1.0=v/ | v/5.csv=who:int,day:int/5,4 v/-5.csv=who:int,day:int/-5,1 | 0 | SELECT name FROM cust, visit \
WHERE who = 5 AND id = day | 0:5 |/5,4\n\
s 0 0 s | 1.0=v/ | v/-5.csv=who:int,day:int/-5,1 | 0 | SELECT name FROM cust, visit WHERE who = -5 AND id = \
day | 0:-5 |/-5,1\n\
s 0 0 s | 1.0=v/ | v/1.csv=who:int,day:int/1,2 v/2.csv=who:int,day:int/2,3/2,1 v/3.csv=who:int,day:int/3,3 | \
0 | SELECT a.day FROM cust, visit a, visit b WHERE id = a.who AND id = 1 AND b.who = a.day | 0:1 0:2 0:3 \
|/1,2/2,3/2,1/3,3";

// What comes of a case.
fn answered(rt: HostRuntime, case: &str) -> Result<bool, Fail> {
    let alloc = rt.alloc();
    let mut parts = case.split(" | ");
    let ways = parts.next().unwrap_or("");
    let words = parts.next().unwrap_or("");
    let files = parts.next().unwrap_or("");
    let fails = parts.next().unwrap_or("");
    let text = parts.next().unwrap_or("");
    let expected = parts.next().unwrap_or("");
    let mut folder = folder_of(alloc, files)?;
    folder.fail_at(fails.parse::<u64>().unwrap_or(0))?;
    let Some(answer) = loaded_in(alloc, TABLES, ways, words, text, &mut folder)? else {
        return Ok(false);
    };
    let answer = told(alloc, &answer)?;
    if answer.as_str() != expected {
        println!(rt; "{text}: {answer}, not {expected}")?;
    }
    Ok(answer.as_str() == expected)
}

// Whether each of these cases, which are lines, is answered as expected.
fn all_answered(rt: HostRuntime, cases: &str) -> Result<bool, Fail> {
    let mut all = true;
    for case in cases.lines() {
        if !answered(rt, case)? {
            all = false;
        }
    }
    Ok(all)
}

#[test]
fn needed_keys_are_loaded(rt: HostRuntime) -> Result<(), Fail> {
    assert!(rt; all_answered(rt, CASES)?);
    Ok(())
}
