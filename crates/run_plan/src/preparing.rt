//! From what the words ask for to the plan of a run: the script is parsed, the tables are read, the
//! accesses' columns are found, and all statements are bound.

ghost use Rattle.std.specs.Prelude.{◌≡◌, ◌<◌, ◌≤◌, ◌+◌, true, Ok, Err, IfOk, IfErr, All, length};
ghost use Rattle.command_line.specs.Within.{IsAccess, IsQuery};
ghost use Rattle.sq_bind.specs.Condition.{calling};
ghost use Rattle.sq_parse.specs.Shaped as shapes;
ghost use Rattle.sq_bind.specs.Given.{IsParsed, AreAccesses, over};
ghost use Rattle.run_base.specs.Runnable.{IsRunnable};
ghost use Rattle.run_plan.specs.Doing.{Went, Stopped, Refuses, IsParsedScript};
ghost use Rattle.run_plan.specs.Given.{AreOpenedGiven, IsFileGiven, IsGiven};
ghost use Rattle.run_plan.specs.Headings as headings;
ghost use Rattle.run_plan.specs.Naming.{counts, word_counts, zero_counts};
ghost use Rattle.run_plan.specs.Open.{AreOpen, HasRemotes};
ghost use Rattle.run_plan.specs.Prepared as spec;
ghost use Rattle.run_plan.specs.Prepared.{predicates};
ghost use Rattle.run_base.specs.Seen.{folder_seen};
ghost use Rattle.run_plan.specs.Steps.{ComesTo};
ghost use Rattle.run_plan.specs.declared.status.FileOf.TheVariants as file_of;

use crate::accesses::read_accesses;
use crate::loading::{load, load_tables};
use crate::opening::open_remotes;
use crate::plan::Plan;
use crate::refusing::{bind_status, script_status};
use crate::status::{FileOf, Status};
use catalogue::Catalogue;
use command_line::{AccessWord, Query};
use outside::Folder;
use remote_lookup::Remote;
use run_base::Bound;
use sq_bind::{bind, bind_shape};
use sq_expr::Access;
use sq_parse::{Script, Statement, is_shaped, parse};
use sq_value::Predicates;
use sqlite_items::Items;
use std::alloc::Global;

/// The script that a text of at most 67,108,864 bytes spells.
///
/// # Errors
/// The text's fault, or `Memory`.
pub fn parse_script(alloc: Global, text: &[u8]) -> Result<Script, Status>
    requires { length text.now ≤ 67108864 }
    ensures ok { IfOk result (λ script. spec.IsSpelled text.now (Ok script)) }
    ensures parsed { IfOk result IsParsedScript }
    ensures refused { IfErr result (λ s. Refuses zero_counts (spec.IsSpelled text.now (Err s)) s) }
{
    match parse(alloc, text) {
        Ok(script) => Ok(script),
        Err(fault) => Err(script_status(fault)),
    }
}

// Loads and parses the script.
fn read_script<F: Folder>(alloc: Global, folder: &mut F, name: &str) -> Result<Script, Status>
    ensures went { IfOk result (λ script.
        Went (folder_seen (F.holds folder.old) (F.faults folder.old))
        (folder_seen (F.holds folder.new) (F.faults folder.new))
        (IsFileGiven name.now) (λ found. spec.IsScript found (Ok script))) }
    ensures parsed { IfOk result IsParsedScript }
    ensures stopped { IfErr result (λ s.
        Stopped zero_counts (folder_seen (F.holds folder.old) (F.faults folder.old))
        (folder_seen (F.holds folder.new) (F.faults folder.new))
        (IsFileGiven name.now) (λ found. spec.IsScript found (Err s)) (λ found f. f ≡ file_of.Script) s) }
{
    let text = load(alloc, folder, name, FileOf::Script)?;
    parse_script(alloc, text.as_slice())
}

// The statement with this number, which counts from 1 and has groups, DISTINCT or LIMIT, bound.
fn bind_shaped<P: Predicates>(
    alloc: Global,
    number: u32,
    statement: &Statement,
    catalogue: &Catalogue,
    accesses: &[Access],
    functions: &P,
) -> Result<Bound, Status>
    requires parsed { IsParsed statement.now }
    requires shaped { shapes.is_shaped statement.now ≡ true }
    requires reached { AreAccesses catalogue.now.tables accesses.now }
    ensures ok { let calls = calling (P.number_of functions.now) (P.kinds_of functions.now) in
        IfOk result (λ bound. spec.IsBoundTo (over catalogue.now accesses.now calls) number statement.now (Ok bound)) }
    ensures runs { IfOk result (IsRunnable (P.kinds_of functions.now) catalogue.now.tables) }
    ensures refused { let calls = calling (P.number_of functions.now) (P.kinds_of functions.now) in
        IfErr result (λ s.
        Refuses zero_counts (spec.IsBoundTo (over catalogue.now accesses.now calls) number statement.now (Err s)) s) }
{
    match bind_shape(alloc, statement, catalogue, accesses, functions) {
        Ok(shaped) => Ok(Bound {
            block: shaped.block,
            shape: Some(shaped.shape),
        }),
        Err(fault) => Err(bind_status(number, fault)),
    }
}

// The statement with this number, which counts from 1, bound.
fn bind_one<P: Predicates>(
    alloc: Global,
    number: u32,
    statement: &Statement,
    catalogue: &Catalogue,
    accesses: &[Access],
    functions: &P,
) -> Result<Bound, Status>
    requires parsed { IsParsed statement.now }
    requires reached { AreAccesses catalogue.now.tables accesses.now }
    ensures ok { let calls = calling (P.number_of functions.now) (P.kinds_of functions.now) in
        IfOk result (λ bound. spec.IsBoundTo (over catalogue.now accesses.now calls) number statement.now (Ok bound)) }
    ensures runs { IfOk result (IsRunnable (P.kinds_of functions.now) catalogue.now.tables) }
    ensures refused { let calls = calling (P.number_of functions.now) (P.kinds_of functions.now) in
        IfErr result (λ s.
        Refuses zero_counts (spec.IsBoundTo (over catalogue.now accesses.now calls) number statement.now (Err s)) s) }
{
    if is_shaped(statement) {
        return bind_shaped(alloc, number, statement, catalogue, accesses, functions);
    }
    match bind(alloc, statement, catalogue, accesses, functions) {
        Ok(block) => Ok(Bound { block, shape: None }),
        Err(fault) => Err(bind_status(number, fault)),
    }
}

// The statements of a script, bound, in order.
fn bind_all<P: Predicates>(
    alloc: Global,
    script: &Script,
    catalogue: &Catalogue,
    accesses: &[Access],
    functions: &P,
) -> Result<Items<Bound>, Status>
    requires parsed { IsParsedScript script.now }
    requires reached { AreAccesses catalogue.now.tables accesses.now }
    ensures ok { let calls = calling (P.number_of functions.now) (P.kinds_of functions.now) in
        IfOk result (λ bounds.
        spec.AreBoundTo (over catalogue.now accesses.now calls) 1 script.now.statements (Ok bounds)) }
    ensures run { IfOk result (All (IsRunnable (P.kinds_of functions.now) catalogue.now.tables)) }
    ensures refused { let calls = calling (P.number_of functions.now) (P.kinds_of functions.now) in
        IfErr result (λ s.
        Refuses zero_counts
        (spec.AreBoundTo (over catalogue.now accesses.now calls) 1 script.now.statements (Err s)) s) }
{
    let statements = script.statements.as_slice();
    let mut bounds = Items::new(alloc);
    for (index, statement) in statements.iter().enumerate() {
        let number = index as u32 + 1;
        let bound = bind_one(alloc, number, statement, catalogue, accesses, functions)?;
        let Ok(()) = bounds.push(bound) else {
            return Err(Status::Memory);
        };
    }
    Ok(bounds)
}

/// The plan of a script over the tables of a catalogue and its remotes, which are reached by these
/// accesses.
///
/// # Errors
/// The first refusal: an access's table lacks its column, or a statement can't be bound; or `Memory`.
pub fn bind_over<P: Predicates>(
    alloc: Global,
    asked: &[AccessWord],
    script: &Script,
    catalogue: Catalogue,
    remotes: Items<Remote>,
    functions: &P,
) -> Result<Plan, Status>
    requires few { length asked.now ≤ 16 }
    requires within { All (IsAccess (length catalogue.tables)) asked.now }
    requires parsed { IsParsedScript script.now }
    requires opened { AreOpen catalogue.tables remotes }
    ensures ok { let p = predicates (P.number_of functions.now) (P.kinds_of functions.now) P.gives in
        IfOk result (λ plan.
        spec.IsBoundPlan p asked.now script.now (headings.opened_as catalogue remotes) (Ok plan)) }
    ensures run { IfOk result (λ plan.
        All (IsRunnable (P.kinds_of functions.now) plan.catalogue.tables) plan.statements) }
    ensures remotes { IfOk result HasRemotes }
    ensures refused { let p = predicates (P.number_of functions.now) (P.kinds_of functions.now) P.gives in
        IfErr result (λ s. Refuses (counts 0 (length asked.now) 0)
        (spec.IsBoundPlan p asked.now script.now (headings.opened_as catalogue remotes) (Err s)) s) }
{
    let accesses = read_accesses(alloc, catalogue.tables(), asked, remotes.as_slice())?;
    let statements = bind_all(alloc, script, &catalogue, accesses.as_slice(), functions)?;
    Ok(Plan {
        statements,
        catalogue,
        remotes,
    })
}

// The tables that were read, with those of the remotes behind them.
fn load_all<F: Folder>(
    alloc: Global,
    folder: &mut F,
    query: &Query,
) -> Result<(Catalogue, Items<Remote>), Status>
    requires { IsQuery query.now }
    ensures went { IfOk result (λ o.
        Went (folder_seen (F.holds folder.old) (F.faults folder.old))
        (folder_seen (F.holds folder.new) (F.faults folder.new))
        (AreOpenedGiven query.now) (λ given. ComesTo (spec.all_read given query.now)
        (Ok (headings.opened_as o.0 o.1)))) }
    ensures count { IfOk result (λ o. length query.now.tables ≤ length o.0.tables) }
    ensures opened { IfOk result (λ o. AreOpen o.0.tables o.1) }
    ensures stopped { IfErr result (λ s.
        Stopped (word_counts query.now) (folder_seen (F.holds folder.old) (F.faults folder.old))
        (folder_seen (F.holds folder.new) (F.faults folder.new))
        (AreOpenedGiven query.now) (λ given. ComesTo (spec.all_read given query.now) (Err s))
        (spec.ReachedTables query.now) s) }
{
    let mut catalogue = load_tables(alloc, folder, query.tables.as_slice())?;
    let remotes = open_remotes(alloc, folder, query.remotes.as_slice(), &mut catalogue)?;
    Ok((catalogue, remotes))
}

// The plan of a script over the tables that were read.
fn plan_over<P: Predicates>(
    alloc: Global,
    query: &Query,
    script: &Script,
    opened: (Catalogue, Items<Remote>),
    functions: &P,
) -> Result<Plan, Status>
    requires asked { IsQuery query.now }
    requires parsed { IsParsedScript script.now }
    requires count { length query.now.tables ≤ length opened.0.tables }
    requires opened { AreOpen opened.0.tables opened.1 }
    ensures ok { let p = predicates (P.number_of functions.now) (P.kinds_of functions.now) P.gives in
        IfOk result (λ plan.
        spec.IsBoundPlan p query.now.accesses script.now (headings.opened_as opened.0 opened.1) (Ok plan)) }
    ensures run { IfOk result (λ plan.
        All (IsRunnable (P.kinds_of functions.now) plan.catalogue.tables) plan.statements) }
    ensures remotes { IfOk result HasRemotes }
    ensures refused { let p = predicates (P.number_of functions.now) (P.kinds_of functions.now) P.gives in
        IfErr result (λ s. Refuses (word_counts query.now)
        (spec.IsBoundPlan p query.now.accesses script.now (headings.opened_as opened.0 opened.1) (Err s)) s) }
{
    let (catalogue, remotes) = opened;
    bind_over(
        alloc,
        query.accesses.as_slice(),
        script,
        catalogue,
        remotes,
        functions,
    )
}

/// The plan of a script over tables: what a run runs.
///
/// # Errors
/// The first refusal, in this order: the script isn't there or can't be read, is too long, or isn't a
/// script; each table isn't there or can't be read, or isn't a table; each remote's heading file isn't
/// there or can't be read, or isn't a heading; an access's table lacks its column; a statement can't be
/// bound. Want of memory may come at any point.
pub fn prepare<F: Folder, P: Predicates>(
    alloc: Global,
    query: &Query,
    folder: &mut F,
    functions: &P,
) -> Result<Plan, Status>
    requires { IsQuery query.now }
    ensures went { let p = predicates (P.number_of functions.now) (P.kinds_of functions.now) P.gives in
        IfOk result (λ plan.
        Went (folder_seen (F.holds folder.old) (F.faults folder.old))
        (folder_seen (F.holds folder.new) (F.faults folder.new))
        (IsGiven query.now) (λ given. spec.IsPlan p query.now given (Ok plan))) }
    ensures run { IfOk result (λ plan.
        All (IsRunnable (P.kinds_of functions.now) plan.catalogue.tables) plan.statements) }
    ensures remotes { IfOk result HasRemotes }
    ensures stopped { let p = predicates (P.number_of functions.now) (P.kinds_of functions.now) P.gives in
        IfErr result (λ s.
        Stopped (word_counts query.now) (folder_seen (F.holds folder.old) (F.faults folder.old))
        (folder_seen (F.holds folder.new) (F.faults folder.new))
        (IsGiven query.now) (λ given. spec.IsPlan p query.now given (Err s)) (spec.Reached query.now) s) }
{
    let script = read_script(alloc, folder, query.script.as_str())?;
    let opened = load_all(alloc, folder, query)?;
    plan_over(alloc, query, &script, opened, functions)
}
