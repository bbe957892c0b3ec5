//! Plans over remotes: their heading files are loaded behind the tables.
//!
//! A case is a line of fields with bars between: the words behind the script's file `q`, the script, what
//! fails, and what comes: the number of statements and each remote's table and column, or the status.

use super::*;
use command_line::{Task, read_command};
use run_plan::{Plan, prepare};

const PLANNED: &str = "\
cust=cust --remote visit.who=v/ | SELECT name, day FROM cust, visit WHERE id = who |  | 1 statements 1:0
cust=cust --remote visit.WHO=w/ | SELECT name, day FROM cust, VISIT WHERE id = who |  | 1 statements 1:1
cust=cust n=n --remote a.who=v/,b.who=w/ | SELECT name FROM cust; SELECT x FROM n |  | 2 statements 2:0 3:1
cust=cust --remote a.who=v/,b.who=v/ | SELECT name FROM cust, a, b WHERE id = a.who AND a.day = b.who |  | 1 stateme\
    nts 1:0 2:0
cust=cust --remote visit.who=v/ | SELECT day FROM visit WHERE who = 1 |  | Bind { statement: 1, fault: Unreachable {\
    \x20alias: 0 } }
cust=cust --remote visit.who=v/ | SELECT day FROM cust, visit WHERE id < who |  | Bind { statement: 1, fault: Unreac\
    hable { alias: 1 } }
cust=cust --remote visit.day2=v/ | SELECT name FROM cust |  | BadHeading { remote: 0 }
cust=cust --remote visit.who=full/ | SELECT name FROM cust |  | BadHeading { remote: 0 }
cust=cust --remote visit.who=text/ | SELECT name FROM cust |  | BadHeading { remote: 0 }
cust=cust --remote visit.who=cents/ | SELECT name FROM cust |  | BadHeading { remote: 0 }
cust=cust --remote visit.who=empty/ | SELECT name FROM cust |  | BadHeading { remote: 0 }
cust=cust --remote visit.who=twice/ | SELECT name FROM cust |  | BadHeading { remote: 0 }
cust=cust --remote a.who=v/,b.day2=v/ | SELECT name FROM cust |  | BadHeading { remote: 1 }
cust=cust --remote visit.who=absent/ | SELECT name FROM cust |  | NotFound { file: Heading(0) }
cust=cust --remote a.who=v/,b.who=absent/ | SELECT name FROM nobody |  | NotFound { file: Heading(1) }
cust=cust --remote visit.who=v/ | SELECT name FROM cust | load 3 | Read { file: Heading(0) }
cust=cust t=short --remote visit.who=absent/ | SELECT name FROM cust |  | BadTable { table: 1, fault: Unequal { rec:\
    \x201 } }
cust=cust --index cust.none --remote visit.who=absent/ | SELECT name FROM cust |  | NotFound { file: Heading(0) }
cust=cust --index cust.none --remote visit.who=v/ | SELECT name FROM nobody |  | NoColumn { access: 1 }
";

// The statements and the remotes of a plan, written out.
fn shown(alloc: Global, plan: &Plan) -> Result<String, Fail> {
    let mut text = format!(in alloc; "{} statements", plan.statements.len())?;
    for remote in plan.remotes.as_slice() {
        let part = format!(in alloc; " {}:{}", remote.table, remote.column)?;
        text.push_str(part.as_str())?;
    }
    Ok(text)
}

// What a script over a folder with these headings comes to.
fn planned(alloc: Global, case: Case<'_>) -> Result<String, Fail> {
    let line = format!(in alloc; "! q {}", case.words)?;
    let words = words_of(alloc, line.as_str())?;
    let Ok(command) = read_command(alloc, &words) else {
        return Err("words in form".into());
    };
    let Task::Query(query) = &command.task else {
        return Err("a script".into());
    };
    let mut folder = folder_of(alloc, case.script.as_bytes())?;
    if let Some(load) = number(case.fault, "load", 0) {
        folder.fail_at(load as u64)?;
    }
    match prepare(alloc, query, &mut folder, &NoPredicates) {
        Ok(plan) => shown(alloc, &plan),
        Err(status) => Ok(format!(in alloc; "{status:?}")?),
    }
}

#[test]
fn headings_are_loaded_behind_the_tables(rt: HostRuntime) -> Result<(), Fail> {
    for line in PLANNED.lines() {
        let case = case_of(line);
        assert_eq!(rt; planned(rt.alloc(), case)?.as_str(), case.status, "{line}");
    }
    Ok(())
}
