//! Word lists and what they ask for, worked out by hand from the form of the command line.

use command_line::{Command, PolicyName, Task, WordsFault, read_command};
use std::alloc::Global;
use std::test::Fail;

// The command of words with a space between each two; `_` stands for an empty word.
fn command_of(alloc: Global, line: &str) -> Result<Result<Command, WordsFault>, Fail> {
    let mut words = Vec::new(alloc);
    for word in line.split(' ') {
        let text = if word == "_" { "" } else { word };
        words.push(String::from_str(alloc, text)?)?;
    }
    Ok(read_command(alloc, &words))
}

// Lines that are in form, among them names of 64 bytes, 16 tables and remotes, and 4 remotes, and lines that
// aren't, with 65, 17 and 5.
const IN_FORM: &str = "\
q n=f
_ n=f
q a=f b=f
q a=1 b=1 c=1 d=1 e=1 f=1 g=1 h=1 i=1 j=1 k=1 l=1 m=1 n=1 o=1 p=1
q abcdefghijklmnopqrstuvwxyzabcdefghijklmnopqrstuvwxyzabcdefghijkl=f
q _n1=f
q n=a=b
q n==
q select=f FROM=g
--workers 1 q n=f
--workers 16 q n=f
--workers=00000000000000000016 q n=f
q n=f --workers 2
--policy lottery q n=f
--policy pressure q n=f
--policy greedy q n=f
--policy=script q n=f
--seed 0 q n=f
--seed 7 q n=f
--seed 18446744073709551615 q n=f
--route b,s47,a11,v0 q n=f
--route= q n=f
--route _ q n=f
--cache 0 q n=f
--cache 4096 q n=f
--cache=00000000000000000007 q n=f
--index n.c q n=f
--index N.c q n=f
--index n.c.d q n=f
--index n.c,m.d q n=f m=g
--index n.c --lookup m.d q n=f m=g
--remote v.who=v/ q n=f
--remote=v.who=v/,w.x.y=a=b q n=f
--remote v.c==p q n=f
--remote a.c=p,b.c=p,c.c=p,d.c=p q n=f
--remote v.c=p --lookup n.c q n=f
--remote abcdefghijklmnopqrstuvwxyzabcdefghijklmnopqrstuvwxyzabcdefghijkl.c=p q n=f
--remote w.c=p,x.c=p,y.c=p,z.c=p q a=1 b=1 c=1 d=1 e=1 f=1 g=1 h=1 i=1 j=1 k=1 l=1
--tally q n=f
q --tally n=f
q n=f --tally
-- q n=f
--tally -- q n=f
q n=f --
q -- n=f
-- --tally n=f
--demo 1
--demo 100000
--demo=00000000000000000001
--demo 5 --workers 3 --policy pressure --seed 2 --route b --cache 9 --tally
--shared q n=f
q n=f --shared --tally --workers 2 --policy greedy
--shared --cache 0 q n=f m=g
--demo 7 --shared --tally
--demo 7 --cache 0 --shared";

const OUT_OF_FORM: &str = "\
_
q
q a=1 b=1 c=1 d=1 e=1 f=1 g=1 h=1 i=1 j=1 k=1 l=1 m=1 n=1 o=1 p=1 r=1
q abcdefghijklmnopqrstuvwxyzabcdefghijklmnopqrstuvwxyzabcdefghijklm=f
q n=
q =f
q n
q _
q 1n=f
q n-m=f
q n=f N=g
q m=f n=f m=g
--workers 0 q n=f
--workers 17 q n=f
--workers +2 q n=f
--workers -2 q n=f
--workers _ q n=f
--workers= q n=f
--workers 2x q n=f
--workers 000000000000000000016 q n=f
--workers 2 --workers 2 q n=f
q n=f --workers
--workers --tally q n=f
--policy Lottery q n=f
--policy _ q n=f
--policy random q n=f
--seed 18446744073709551616 q n=f
--seed 99999999999999999999 q n=f
--seed -1 q n=f
--seed 1 --seed 1 q n=f
--route b,q q n=f
--route b, q n=f
--route s48 q n=f
--cache 4097 q n=f
--cache 000000000000000000007 q n=f
--cache -1 q n=f
--cache _ q n=f
--cache 1 --cache 1 q n=f
q n=f --cache
--index z.x q n=f
--index n q n=f
--index n. q n=f
--index .c q n=f
--index _ q n=f
--index= q n=f
--index n.c, q n=f
--index n.c,,m.d q n=f m=g
--index n.c,n.d q n=f
--index n.c,N.d q n=f
--index n.c --lookup n.d q n=f
--index n.c --index m.d q n=f m=g
--remote _ q n=f
--remote= q n=f
--remote v q n=f
--remote v. q n=f
--remote v.c q n=f
--remote v=p q n=f
--remote v.=p q n=f
--remote v.c= q n=f
--remote .c=p q n=f
--remote 1v.c=p q n=f
--remote N.c=p q n=f
--remote v.c=p,V.d=q q n=f
--remote v.c=p, q n=f
--remote v.c=p,,w.c=p q n=f
--remote a.c=p,b.c=p,c.c=p,d.c=p,e.c=p q n=f
--remote x.c=p,y.c=p q a=1 b=1 c=1 d=1 e=1 f=1 g=1 h=1 i=1 j=1 k=1 l=1 m=1 n=1 o=1
--remote v.c=p --remote w.c=p q n=f
--remote v.c=p --lookup v.c q n=f
--remote abcdefghijklmnopqrstuvwxyzabcdefghijklmnopqrstuvwxyzabcdefghijklm.c=p q n=f
--demo 5 --remote v.c=p
q n=f --remote
--tally --tally q n=f
--shared --shared q n=f
--shared=true q n=f
--shared --index n.c q n=f
--shared --lookup n.c q n=f
q n=f --remote v.c=p --shared
--shared --cache 1 q n=f
--demo 7 --shared --cache 4096
-- --shared q n=f
--tally=true q n=f
--other q n=f
-t q n=f
--help
q n=f --version
-- --tally q n=f
--demo 0
--demo 100001
--demo 5 q
--demo 5 --index n.c
--demo 5 q n=f";

#[test]
fn tells_words_in_form(rt: HostRuntime) -> Result<(), Fail> {
    for line in IN_FORM.lines() {
        assert!(rt; command_of(rt.alloc(), line)?.is_ok(), "{line}");
    }
    for line in OUT_OF_FORM.lines() {
        let fault = command_of(rt.alloc(), line)?.err();
        assert!(rt; fault == Some(WordsFault::OutOfForm), "{line}");
    }
    let none: [String; 0] = [];
    assert!(rt; read_command(rt.alloc(), &none).err() == Some(WordsFault::OutOfForm));
    Ok(())
}

#[test]
fn reads_every_option(rt: HostRuntime) -> Result<(), Fail> {
    let line = "--lookup m.d,k.x --policy script q --seed 9 n=f --workers 4 M=g=h --route v0,b \
                --tally k=l --index N.c.e --cache 3 --remote r.a.b=p=,S.c=t/";
    let Ok(command) = command_of(rt.alloc(), line)? else {
        return Err(Fail::new("not as given"));
    };
    assert!(rt; command.workers == 4 && command.seed == 9 && command.tally);
    assert_eq!(rt; command.cache, 3);
    assert!(rt; command.policy == PolicyName::Script && command.route.as_str() == "v0,b");
    let Task::Query(query) = &command.task else {
        return Err(Fail::new("not as given"));
    };
    assert_eq!(rt; query.script.as_str(), "q");
    let tables = [("n", "f"), ("M", "g=h"), ("k", "l")];
    assert_eq!(rt; query.tables.len(), tables.len());
    for (table, (name, file)) in query.tables.as_slice().iter().zip(tables) {
        assert!(rt; table.name.as_str() == name && table.file.as_str() == file);
    }
    let accesses = [(0, "c.e", true), (1, "d", false), (2, "x", false)];
    assert_eq!(rt; query.accesses.len(), accesses.len());
    for (access, (table, column, scan)) in query.accesses.as_slice().iter().zip(accesses) {
        assert!(rt; access.table == table && access.column.as_str() == column);
        assert_eq!(rt; access.scan, scan);
    }
    let remotes = [("r", "a.b", "p="), ("S", "c", "t/")];
    assert_eq!(rt; query.remotes.len(), remotes.len());
    for (remote, (name, column, prefix)) in query.remotes.as_slice().iter().zip(remotes) {
        assert!(rt; remote.name.as_str() == name && remote.column.as_str() == column);
        assert_eq!(rt; remote.prefix.as_str(), prefix);
    }
    Ok(())
}

#[test]
fn leaves_what_is_not_given(rt: HostRuntime) -> Result<(), Fail> {
    let Ok(command) = command_of(rt.alloc(), "--demo 1000")? else {
        return Err(Fail::new("not as given"));
    };
    assert!(rt; command.workers == 1 && command.seed == 1 && !command.tally && !command.shared);
    assert_eq!(rt; command.cache, 0);
    assert!(rt; command.policy == PolicyName::Lottery && command.route.as_str() == "");
    assert!(rt; matches!(&command.task, Task::Demo { rows: 1000 }));
    Ok(())
}

#[test]
fn reads_the_flag_of_queries_that_run_together(rt: HostRuntime) -> Result<(), Fail> {
    for (line, shared) in [
        ("q n=f --shared --cache 0", true),
        ("q n=f --cache 0", false),
        ("--demo 7 --shared", true),
    ] {
        let Ok(command) = command_of(rt.alloc(), line)? else {
            return Err(Fail::new("not as given"));
        };
        assert!(rt; command.shared == shared, "{line}");
    }
    Ok(())
}
