//! What the policies of two workers are told.

ghost use Rattle.std.specs.Prelude.{◌≡◌, IfOk, length};

use crate::core_runs::in_turn;
use crate::crews::told_of;
use case_kit::{block_of_case, catalogue_of_lines};
use eddy_query::Fitting;
use eddy_worker::{NoGate, run_many};
use route_policy::{Recorder, RouteScript};
use sq_value::NoPredicates;
use std::alloc::Global;
use std::sync::Wait;
use std::test::Fail;
use std::thread::Threads;

/// The tables.
const TABLES: &str = "\
cust id:int,name:text/1,Ada/2,Bob/3,
ord oid:int,cid:int,amt:int/10,1,5/11,1,7/12,2,5/13,,9";

/// A join by an equality. Each of the seven rows is built, and then probes.
const ORDERS: &str = "SELECT name, amt FROM cust c, ord o WHERE c.id = o.cid ORDER BY amt DESC";

// A recorder of the script `v0`, with room for 100 calls.
fn recorder(alloc: Global) -> Result<Recorder<RouteScript>, Fail> {
    Ok(Recorder::new(alloc, RouteScript::read("v0")?, 100)?)
}

// Two of them.
fn recorders(alloc: Global) -> Result<Vec<Recorder<RouteScript>>, Fail>
    ensures { IfOk result (λ r. length r.items ≡ 2) }
{
    let mut both = Vec::new(alloc);
    both.push(recorder(alloc)?)?;
    both.push(recorder(alloc)?)?;
    Ok(both)
}

// How many calls all of them kept, if each one's are choices and returns in turn.
fn calls_of(policies: &[Recorder<RouteScript>]) -> Option<usize> {
    let mut count: usize = 0;
    for policy in policies {
        let calls = in_turn(policy.calls());
        if calls % 2 == 1 || calls != policy.calls().len() {
            return None;
        }
        count = count.saturating_add(calls);
    }
    Some(count)
}

// What two workers answer, as text, and how many recorders come back with how many calls.
fn told_by_two<R: Threads + Wait + Sync>(
    rt: &R,
    alloc: Global,
    query: &Fitting<'_, NoPredicates>,
) -> Result<String, Fail> {
    let policies = recorders(alloc)?;
    let many = run_many(rt, alloc, query, policies, &NoGate)?;
    let told = told_of(alloc, &many.answered)?;
    let (back, calls) = (many.policies.len(), calls_of(many.policies.as_slice()));
    Ok(format!(in alloc; "{told} by {back} of {calls:?}")?)
}

#[test]
fn two_recorders_keep_each_choice_and_return(rt: HostRuntime) -> Result<(), Fail> {
    let alloc = rt.alloc();
    let catalogue = catalogue_of_lines(alloc, TABLES)?;
    if let Some(block) = block_of_case(alloc, &catalogue, "s s", ORDERS, &NoPredicates)? {
        let query = Fitting::new(&block, catalogue.tables(), &NoPredicates);
        let told = told_by_two(&rt, alloc, &query)?;
        assert_eq!(rt; told.as_str(), "7 0 0,0 0,1 1,2 by 2 of Some(28)");
        return Ok(());
    }
    assert_eq!(rt; "no block", "a block");
    Ok(())
}
