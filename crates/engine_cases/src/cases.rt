//! Legal routes, selections and probes worked out by hand. A case is a line: what is wanted, a bar, and a tuple.

ghost use Rattle.std.specs.Prelude.{◌≡◌, ℕ, ◌<◌, length, Contains};
ghost use Rattle.tuple_span.specs.declared.route.Route.{Route as Way};
ghost use Rattle.eddy_meaning.specs.Faithful.{IsSound};
ghost use Rattle.eddy_meaning.specs.Route.{IsLegal};
ghost use Rattle.engine_cases.specs.Given.{IsGiven, IsModuleOf};

use crate::given::block_of;
use crate::modules::{enter, probed};
use crate::shown::{routes_text, tuple_text, tuples_text, via_text};
use crate::tuples::{selected, tuple_of};
use case_kit::{catalogue_of_lines, push_listed};
use eddy_meaning::Entry;
use routing_rules::{hop_bound, routes};
use sq_expr::Block;
use sq_value::{NoPredicates, Tables};
use std::alloc::Global;
use std::test::Fail;
use stem_module::Stem;
use tuple_span::{Route, Tuple};

/// The tables: a name, and the lines of a file.
const TABLES: &str = "\
cust id,name/1,Ada/2,Bob/3,
ord oid,cid,amt/10,1,5/11,1,7/12,2,5/13,,9
n x/1/2/3";

/// What is asked of a tuple.
#[derive(Clone, Copy)]
enum Asked {
    /// Its legal routes.
    Routes,
    /// What comes of each legal selection.
    Selections,
    /// What comes of each legal probe of the group's module.
    Probes,
}

/// A statement, how each table is reached, the most hops of its block, and cases. The module of an alias has the
/// entries of `builds`: rows with their stamps.
#[derive(Clone, Copy)]
struct Group {
    query: &'static str,
    accesses: &'static str,
    bound: u32,
    alias: u8,
    builds: &'static [(u32, u64)],
    asked: Asked,
    cases: &'static str,
}

/// Two aliases and an equality; with a range beside it; and with a look-up in place of a scan.
const JOIN: &str = "SELECT name, amt FROM cust c, ord o WHERE c.id = o.cid";

const PAIRS: &str = "SELECT o.oid FROM ord o, ord p WHERE o.cid = p.cid AND o.oid <= p.oid";

const RISING: &str = "SELECT a.x AS p, b.x AS q FROM n a, n b WHERE a.x < b.x";

const ALL_KINDS: &str =
    "SELECT o.oid FROM ord o, cust c, n a WHERE 1 = 1 AND 2 >= c.id AND c.id = o.cid AND \
    c.name = 'Ada' AND o.cid <> c.id AND o.cid + 1 = c.id AND NOT o.amt = c.id AND NULL = c.id AND c.id = c.id";

/// A band; the same with its sides exchanged; and two lower ends, which are none.
const BAND: &str = "SELECT b.x FROM n a, n b, n c WHERE b.x BETWEEN a.x AND c.x";

const TURNED: &str = "SELECT o.oid FROM ord o, ord p, n a WHERE o.cid <= a.x AND p.cid > a.x";

const LOWER: &str = "SELECT b.x FROM n a, n b, n c WHERE b.x >= a.x AND c.x < b.x";

/// A comparison with a number, and with a text, beside a join.
const NUMBERED: &str = "SELECT o.oid FROM ord o, cust c WHERE c.id = o.cid AND o.cid = 1";

const NAMED: &str = "SELECT o.oid FROM ord o, cust c WHERE c.id = o.cid AND c.name = 'Bob'";

fn groups() -> [Group; 16] {
    [
        Group {
            query: JOIN,
            accesses: "s s s",
            bound: 4,
            alias: 0,
            builds: &[],
            asked: Asked::Routes,
            cases: "\
build 0 | 0:0
build 1 | 1:3
probe 1 all, probe 1 equal 0 | 0:0 @0
probe 0 all, probe 0 equal 0 | 1:2 @3
select 0 | 0:0 @5 1:0
none | 0:0 @5 1:0 +0",
        },
        Group {
            query: PAIRS,
            accesses: "s s s",
            bound: 5,
            alias: 0,
            builds: &[],
            asked: Asked::Routes,
            cases: "\
build 0 | 0:0
build 1 | 1:3
probe 1 all, probe 1 equal 0, probe 1 range 1 | 0:0 @0
probe 0 all, probe 0 equal 0, probe 0 range 1 | 1:3 @2
select 0, select 1 | 0:0 @4 1:1
select 1 | 0:0 @4 1:1 +0
select 0 | 1:1 @4 0:0 +1
none | 0:0 @4 1:1 +1 +0",
        },
        Group {
            query: JOIN,
            accesses: "s 1 s",
            bound: 4,
            alias: 0,
            builds: &[],
            asked: Asked::Routes,
            cases: "\
build 0 | 0:2
build 1 | 1:2
probe 1 equal 0 | 0:0 @0
probe 0 all, probe 0 equal 0 | 1:2 @3
select 0 | 0:0 @1 1:0
none | 0:0 @1 1:0 +0",
        },
        Group {
            query: JOIN,
            accesses: "s s1 s",
            bound: 4,
            alias: 0,
            builds: &[],
            asked: Asked::Routes,
            cases: "probe 1 all, probe 1 equal 0 | 0:0 @0",
        },
        Group {
            query: ALL_KINDS,
            accesses: "s s s",
            bound: 13,
            alias: 0,
            builds: &[],
            asked: Asked::Routes,
            cases: "\
select 0, build 0 | 0:0
select 0, select 1, select 3, select 7, select 8, build 1 | 1:0
select 0, probe 1 all, probe 1 range 1, probe 1 equal 2, probe 1 literal 3, probe 1 literal 7, probe 2 all | 0:0 @0
probe 0 all, probe 0 equal 2, probe 2 all | 1:0 @9 +8 +7 +3 +1 +0
select 0, probe 0 all, probe 1 all, probe 1 range 1, probe 1 literal 3, probe 1 literal 7 | 2:2 @9",
        },
        Group {
            query: BAND,
            accesses: "s s s",
            bound: 6,
            alias: 0,
            builds: &[],
            asked: Asked::Routes,
            cases: "\
probe 1 all, probe 1 range 0, probe 2 all | 0:0 @0
probe 0 all, probe 0 range 0, probe 2 all, probe 2 range 1 | 1:0 @0
probe 1 all, probe 1 range 0, probe 1 range 1, probe 1 band 0 | 0:0 @3 2:1
select 0, select 1 | 0:0 @3 2:1 1:0
none | 0:0 @3 2:1 1:0 +0 +1",
        },
        Group {
            query: TURNED,
            accesses: "s s s",
            bound: 6,
            alias: 0,
            builds: &[],
            asked: Asked::Routes,
            cases: "probe 2 all, probe 2 range 0, probe 2 range 1, probe 2 band 0 | 0:0 @3 1:1",
        },
        Group {
            query: LOWER,
            accesses: "s s s",
            bound: 6,
            alias: 0,
            builds: &[],
            asked: Asked::Routes,
            cases: "probe 1 all, probe 1 range 0, probe 1 range 1 | 0:0 @3 2:1",
        },
        Group {
            query: JOIN,
            accesses: "s s s",
            bound: 4,
            alias: 0,
            builds: &[],
            asked: Asked::Selections,
            cases: "\
none | 0:0 @5
0:0 1:0 @5 +0 hops 3 | 0:0 @5 1:0
0:1 1:2 @7 +0 hops 3 | 1:2 @7 0:1
0 dropped | 0:0 @5 1:2
0 dropped | 0:2 @6 1:3",
        },
        Group {
            query: PAIRS,
            accesses: "s s s",
            bound: 5,
            alias: 0,
            builds: &[],
            asked: Asked::Selections,
            cases: "\
0:1 1:0 @5 +0 hops 3; 1 dropped | 0:1 @5 1:0
0 dropped; 0:1 1:2 @5 +1 hops 3 | 0:1 @5 1:2
0 dropped; 0:3 1:3 @8 +1 hops 3 | 1:3 @8 0:3
0:0 1:1 @1 +0 +1 hops 3 | 0:0 @1 1:1 +0",
        },
        Group {
            query: RISING,
            accesses: "s s s",
            bound: 4,
            alias: 1,
            builds: &[(0, 0), (1, 2)],
            asked: Asked::Probes,
            cases: "\
all 0:0 1:0 @1 hops 3; range 0 none | 0:0 @1
all 0:0 1:0 @2 hops 3; range 0 none | 0:0 @2
all 0:0 1:0 @3 hops 3, 0:0 1:1 @3 hops 3; range 0 0:0 1:1 @3 +0 hops 3 | 0:0 @3
all none; range 0 none | 0:2 @0",
        },
        Group {
            query: BAND,
            accesses: "s s s",
            bound: 6,
            alias: 1,
            builds: &[(0, 0), (1, 2), (2, 4)],
            asked: Asked::Probes,
            cases: "\
all 0:0 1:0 2:1 @5 hops 3, 0:0 1:1 2:1 @5 hops 3, 0:0 1:2 2:1 @5 hops 3; \
range 0 0:0 1:0 2:1 @5 +0 hops 3, 0:0 1:1 2:1 @5 +0 hops 3, 0:0 1:2 2:1 @5 +0 hops 3; \
range 1 0:0 1:0 2:1 @5 +1 hops 3, 0:0 1:1 2:1 @5 +1 hops 3; \
band 0 0:0 1:0 2:1 @5 +0 +1 hops 3, 0:0 1:1 2:1 @5 +0 +1 hops 3 | 0:0 @5 2:1
all 0:1 1:0 2:1 @2 hops 3; range 0 none; range 1 0:1 1:0 2:1 @2 +1 hops 3; band 0 none | 0:1 @2 2:1
all 0:1 1:0 2:1 @3 hops 3, 0:1 1:1 2:1 @3 hops 3; range 0 0:1 1:1 2:1 @3 +0 hops 3; \
range 1 0:1 1:0 2:1 @3 +1 hops 3, 0:1 1:1 2:1 @3 +1 hops 3; band 0 0:1 1:1 2:1 @3 +0 +1 hops 3 | 0:1 @3 2:1",
        },
        Group {
            query: TURNED,
            accesses: "s s s",
            bound: 6,
            alias: 2,
            builds: &[(0, 0), (1, 2)],
            asked: Asked::Probes,
            cases: "\
all 0:0 1:2 2:0 @5 hops 3, 0:0 1:2 2:1 @5 hops 3; range 0 0:0 1:2 2:0 @5 +0 hops 3, 0:0 1:2 2:1 @5 +0 hops 3; \
range 1 0:0 1:2 2:0 @5 +1 hops 3; band 0 0:0 1:2 2:0 @5 +0 +1 hops 3 | 0:0 @5 1:2
all 0:0 1:3 2:0 @5 hops 3, 0:0 1:3 2:1 @5 hops 3; range 0 0:0 1:3 2:0 @5 +0 hops 3, 0:0 1:3 2:1 @5 +0 hops 3; \
range 1 none; band 0 none | 0:0 @5 1:3
all 0:3 1:2 2:0 @5 hops 3, 0:3 1:2 2:1 @5 hops 3; range 0 none; \
range 1 0:3 1:2 2:0 @5 +1 hops 3; band 0 none | 0:3 @5 1:2",
        },
        Group {
            query: JOIN,
            accesses: "s s s",
            bound: 4,
            alias: 1,
            builds: &[(3, 1), (1, 2), (2, 4), (0, 6)],
            asked: Asked::Probes,
            cases: "\
all 0:0 1:3 @3 hops 3, 0:0 1:1 @3 hops 3; equal 0 0:0 1:1 @3 +0 hops 3 | 0:0 @3
all 0:1 1:3 @5 hops 3, 0:1 1:1 @5 hops 3, 0:1 1:2 @5 hops 3; equal 0 0:1 1:2 @5 +0 hops 3 | 0:1 @5
all 0:2 1:3 @2 hops 3; equal 0 none | 0:2 @2",
        },
        Group {
            query: NUMBERED,
            accesses: "s s s",
            bound: 5,
            alias: 0,
            builds: &[(3, 1), (1, 2), (2, 4), (0, 6)],
            asked: Asked::Probes,
            cases: "\
all 0:3 1:0 @7 hops 3, 0:1 1:0 @7 hops 3, 0:2 1:0 @7 hops 3, 0:0 1:0 @7 hops 3; \
equal 0 0:1 1:0 @7 +0 hops 3, 0:0 1:0 @7 +0 hops 3; \
literal 1 0:1 1:0 @7 +1 hops 3, 0:0 1:0 @7 +1 hops 3 | 1:0 @7
all 0:3 1:1 @5 hops 3, 0:1 1:1 @5 hops 3, 0:2 1:1 @5 hops 3; equal 0 0:2 1:1 @5 +0 hops 3; \
literal 1 0:1 1:1 @5 +1 hops 3 | 1:1 @5",
        },
        Group {
            query: NAMED,
            accesses: "s s s",
            bound: 5,
            alias: 1,
            builds: &[(0, 0), (1, 2), (2, 3)],
            asked: Asked::Probes,
            cases: "\
all 0:2 1:0 @5 hops 3, 0:2 1:1 @5 hops 3, 0:2 1:2 @5 hops 3; equal 0 0:2 1:1 @5 +0 hops 3; \
literal 1 0:2 1:1 @5 +1 hops 3 | 0:2 @5
all 0:0 1:0 @2 hops 3; equal 0 0:0 1:0 @2 +0 hops 3; literal 1 none | 0:0 @2",
        },
    ]
}

fn routes_answer(alloc: Global, legal: &[Route]) -> Result<String, Fail> {
    if legal.is_empty() {
        return Ok(String::from_str(alloc, "none")?);
    }
    routes_text(alloc, legal)
}

// What comes of the selection by a conjunct.
fn selection_text(
    alloc: Global,
    block: &Block,
    tables: &Tables,
    tuple: &Tuple,
    conjunct: u8,
) -> Result<String, Fail>
    requires given { IsGiven tables.now block.now }
    requires sound { IsSound block.now tables.now tuple.now }
{
    match selected(block, tables, tuple, conjunct) {
        Some(next) => tuple_text(alloc, &next),
        None => Ok(format!(in alloc; "{conjunct} dropped")?),
    }
}

// What comes of each legal selection.
fn selections_answer(
    alloc: Global,
    block: &Block,
    tables: &Tables,
    tuple: &Tuple,
    legal: &[Route],
) -> Result<String, Fail>
    requires given { IsGiven tables.now block.now }
    requires sound { IsSound block.now tables.now tuple.now }
{
    let mut text = String::new(alloc);
    for route in legal {
        if let Route::Select(conjunct) = *route {
            let part = selection_text(alloc, block, tables, tuple, conjunct)?;
            push_listed(&mut text, "; ", part.as_str())?;
        }
    }
    if text.is_empty() {
        Ok(String::from_str(alloc, "none")?)
    } else {
        Ok(text)
    }
}

// What comes of a route, where it is a probe of the alias's module.
fn probe_text(
    alloc: Global,
    block: &Block,
    tables: &Tables,
    alias: u8,
    stem: &mut Stem<'_, NoPredicates>,
    tuple: &Tuple,
    route: Route,
) -> Result<String, Fail>
    requires of { IsModuleOf block.now tables.now alias stem.old }
    requires sound { IsSound block.now tables.now tuple.now }
    requires legal { IsLegal block.now tuple.now route }
    ensures { IsModuleOf block.now tables.now alias stem.new }
{
    match route {
        Route::Probe { alias: at, via } if at == alias => {
            let found = probed(alloc, block, tables, alias, stem, tuple, via)?;
            let via = via_text(alloc, via)?;
            let found = tuples_text(alloc, found.as_slice())?;
            Ok(format!(in alloc; "{via} {found}")?)
        }
        _ => Ok(String::new(alloc)),
    }
}

// What comes of each of these routes that is a probe of the alias's module.
fn probes_answer(
    alloc: Global,
    block: &Block,
    tables: &Tables,
    alias: u8,
    stem: &mut Stem<'_, NoPredicates>,
    tuple: &Tuple,
    legal: &[Route],
) -> Result<String, Fail>
    requires of { IsModuleOf block.now tables.now alias stem.old }
    requires sound { IsSound block.now tables.now tuple.now }
    requires legal { (route : Way) → Contains legal.now route → IsLegal block.now tuple.now route }
    ensures { IsModuleOf block.now tables.now alias stem.new }
{
    let mut text = String::new(alloc);
    for route in legal {
        let part = probe_text(alloc, block, tables, alias, stem, tuple, *route)?;
        if !part.is_empty() {
            push_listed(&mut text, "; ", part.as_str())?;
        }
    }
    Ok(text)
}

// What is asked of a tuple.
fn answer(
    alloc: Global,
    block: &Block,
    tables: &Tables,
    group: &Group,
    stem: &mut Stem<'_, NoPredicates>,
    text: &str,
) -> Result<String, Fail>
    requires given { IsGiven tables.now block.now }
    requires of { IsModuleOf block.now tables.now group.now.alias stem.old }
    ensures { IsModuleOf block.now tables.now group.now.alias stem.new }
{
    let Some(tuple) = tuple_of(block, tables, text) else {
        return Ok(String::from_str(alloc, "no tuple")?);
    };
    let legal = routes(block, &tuple);
    let legal = legal.as_slice();
    match group.asked {
        Asked::Routes => routes_answer(alloc, legal),
        Asked::Selections => selections_answer(alloc, block, tables, &tuple, legal),
        Asked::Probes => probes_answer(alloc, block, tables, group.alias, stem, &tuple, legal),
    }
}

// The first case that isn't right, with what is said of it, or nothing.
fn wrong_case(
    alloc: Global,
    block: &Block,
    tables: &Tables,
    group: &Group,
    stem: &mut Stem<'_, NoPredicates>,
) -> Result<String, Fail>
    requires given { IsGiven tables.now block.now }
    requires of { IsModuleOf block.now tables.now group.now.alias stem.old }
    ensures { IsModuleOf block.now tables.now group.now.alias stem.new }
{
    for line in group.cases.lines() {
        let (want, case) = line.split_once(" | ").unwrap_or(("no bar", ""));
        let told = answer(alloc, block, tables, group, stem, case)?;
        if told.as_str() != want {
            return Ok(format!(in alloc; "{line}: {told}")?);
        }
    }
    Ok(String::new(alloc))
}

// Enters the builds of a group, as far as that can be.
fn enter_all(
    block: &Block,
    tables: &Tables,
    group: &Group,
    stem: &mut Stem<'_, NoPredicates>,
) -> bool
    requires given { IsGiven tables.now block.now }
    requires of { IsModuleOf block.now tables.now group.now.alias stem.old }
    ensures { IsModuleOf block.now tables.now group.now.alias stem.new }
{
    for build in group.builds {
        let (row, stamp) = *build;
        if !enter(block, tables, group.alias, stem, Entry { row, stamp }) {
            return false;
        }
    }
    true
}

// The first case of a group over its block that isn't right.
fn wrong_over(alloc: Global, block: &Block, tables: &Tables, group: &Group) -> Result<String, Fail>
    requires given { IsGiven tables.now block.now }
{
    if usize::from(group.alias) >= block.aliases.len() || hop_bound(block) != group.bound {
        return Ok(String::from_str(alloc, "another block")?);
    }
    let mut stem = Stem::new(alloc, block, tables, &NoPredicates, group.alias)?;
    if !enter_all(block, tables, group, &mut stem) {
        return Ok(String::from_str(alloc, "a build that can't be")?);
    }
    wrong_case(alloc, block, tables, group, &mut stem)
}

fn wrong_of(alloc: Global, group: &Group) -> Result<String, Fail> {
    let catalogue = catalogue_of_lines(alloc, TABLES)?;
    let Some(block) = block_of(alloc, &catalogue, group.accesses, group.query)? else {
        return Ok(String::from_str(alloc, "no block")?);
    };
    wrong_over(alloc, &block, catalogue.tables(), group)
}

#[test]
fn routes_and_what_comes_of_them(rt: HostRuntime) -> Result<(), Fail> {
    for group in groups() {
        let wrong = wrong_of(rt.alloc(), &group)?;
        assert_eq!(rt; wrong.as_str(), "");
    }
    Ok(())
}
