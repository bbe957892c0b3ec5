//! The demo: the plan of its queries over its tables.

ghost use Rattle.std.specs.Prelude.{◌≡◌, ◌≤◌, ◌%◌, [], Ok, Err, IfOk, IfErr, All, length};
ghost use Rattle.command_line.specs.Within.{IsDemo};
ghost use Rattle.run_base.specs.Runnable.{IsRunnable};
ghost use Rattle.demo_tables.specs.Demo as tables;
ghost use Rattle.run_plan.specs.DemoScript as demo_spec;
ghost use Rattle.run_plan.specs.Doing.{Refuses, IsParsedScript};
ghost use Rattle.run_plan.specs.Headings.{opened_as};
ghost use Rattle.run_plan.specs.Naming.{zero_counts};
ghost use Rattle.run_plan.specs.Open.{HasRemotes};
ghost use Rattle.run_plan.specs.Prepared as spec;
ghost use Rattle.run_plan.specs.Prepared.{predicates};

use crate::plan::Plan;
use crate::preparing::{bind_over, parse_script};
use crate::status::Status;
use demo_tables::demo;
use sq_parse::Script;
use sq_value::Predicates;
use sqlite_items::Items;
use std::alloc::Global;

// The three queries, as one script.
#[tactic(auto, unfolding(crate::specs::DemoScript::demo_script))]
fn queries() -> &'static str
    ensures script { result.now ≡ demo_spec.demo_script }
    ensures short { length result.now ≤ 67108864 }
{
    "SELECT p.id, s.qty FROM part p, sale s WHERE p.id = s.part AND p.kind = 3 ORDER BY p.id; \
    SELECT p.id, s.qty, t.held FROM sale s, part p, stock t \
    WHERE s.part = p.id AND t.part = p.id AND t.held < 5; \
    SELECT s.qty FROM part p, sale s WHERE p.id = s.part AND 10 * p.kind < s.qty"
}

// The plan of a script over the demo's tables.
fn plan_demo<P: Predicates>(
    alloc: Global,
    rows: u32,
    seed: u64,
    script: &Script,
    functions: &P,
) -> Result<Plan, Status>
    requires rows { IsDemo rows }
    requires parsed { IsParsedScript script.now }
    ensures ok { let p = predicates (P.number_of functions.now) (P.kinds_of functions.now) P.gives in
        IfOk result (λ plan.
        spec.IsBoundPlan p [] script.now (opened_as (tables.demo rows (seed % 1000)) []) (Ok plan)) }
    ensures run { IfOk result (λ plan.
        All (IsRunnable (P.kinds_of functions.now) plan.catalogue.tables) plan.statements) }
    ensures remotes { IfOk result HasRemotes }
    ensures refused { let p = predicates (P.number_of functions.now) (P.kinds_of functions.now) P.gives in
        IfErr result (λ s.
        Refuses zero_counts
        (spec.IsBoundPlan p [] script.now (opened_as (tables.demo rows (seed % 1000)) []) (Err s)) s) }
{
    match demo(alloc, rows, seed) {
        Ok(catalogue) => bind_over(alloc, &[], script, catalogue, Items::new(alloc), functions),
        Err(_) => Err(Status::Memory),
    }
}

/// The plan of the demo, with so many rows a table. It has one whatever the rows, the seed and the predicates: its
/// script is one, and each of its statements binds and can be reached (`planned`).
///
/// # Errors
/// `Memory`: there is no memory for it.
pub fn prepare_demo<P: Predicates>(
    alloc: Global,
    rows: u32,
    seed: u64,
    functions: &P,
) -> Result<Plan, Status>
    requires { IsDemo rows }
    ensures ok { let p = predicates (P.number_of functions.now) (P.kinds_of functions.now) P.gives in
        IfOk result (λ plan. spec.IsDemoPlan p rows seed (Ok plan)) }
    ensures run { IfOk result (λ plan.
        All (IsRunnable (P.kinds_of functions.now) plan.catalogue.tables) plan.statements) }
    ensures remotes { IfOk result HasRemotes }
    ensures refused { let p = predicates (P.number_of functions.now) (P.kinds_of functions.now) P.gives in
        IfErr result (λ s. Refuses zero_counts (spec.IsDemoPlan p rows seed (Err s)) s) }
    ensures planned { let p = predicates (P.number_of functions.now) (P.kinds_of functions.now) P.gives in
        spec.HasDemoPlan p rows seed }
    ensures memory { IfErr result (λ s. s ≡ Status.Memory) }
{
    match parse_script(alloc, queries().as_bytes()) {
        Ok(script) => plan_demo(alloc, rows, seed, &script, functions),
        Err(refusal) => Err(refusal),
    }
}
