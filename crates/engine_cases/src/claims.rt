//! In which order aliases are claimed: as claims choose, and when a survey says it.

use case_kit::{block_of_case, catalogue_of_lines};
use claim_order::{AnyClaims, Claims, ClaimsInOrder, ClaimsInTurn, claims_for};
use eddy_query::Fitting;
use sq_value::NoPredicates;
use std::alloc::Global;
use std::test::Fail;

#[test]
fn claims_choose_as_worked_out(rt: HostRuntime) -> Result<(), Fail> {
    let mut turns = ClaimsInTurn::new();
    for (left, alias) in [(5, 0), (5, 2), (5, 0), (4, 2), (2050, 11), (2050, 1)] {
        assert_eq!(rt; turns.next(left), alias);
    }
    let mut order = Vec::new(rt.alloc());
    order.push(2)?;
    order.push(0)?;
    let mut listed = ClaimsInOrder::new(order);
    for (left, alias) in [(7, 2), (7, 2), (3, 0), (3, 0), (2, 1), (2048, 11)] {
        assert_eq!(rt; listed.next(left), alias);
    }
    Ok(())
}

// Whether the claims of a statement go by a survey where it is asked for, or not: over a table `a` of so many rows, and
// `b` of two.
fn is_surveyed(alloc: Global, rows: u32, text: &str, asked: bool) -> Result<bool, Fail> {
    let mut lines = String::new(alloc);
    lines.push_str("b y:int/1/2\na x:int")?;
    for _ in 0..rows {
        lines.push_str("/7")?;
    }
    let catalogue = catalogue_of_lines(alloc, lines.as_str())?;
    let Some(block) = block_of_case(alloc, &catalogue, "s s", text, &NoPredicates)? else {
        return Ok(false);
    };
    let query = Fitting::new(&block, catalogue.tables(), &NoPredicates);
    let claims = claims_for(alloc, &query, asked)?;
    Ok(matches!(claims, AnyClaims::InOrder(_)))
}

#[test]
fn surveys_are_of_many_rows(rt: HostRuntime) -> Result<(), Fail> {
    for (rows, text, asked, surveyed) in [
        (4096, "SELECT x FROM a", true, false),
        (4097, "SELECT x FROM a", true, true),
        (4097, "SELECT x FROM a", false, false),
        (4094, "SELECT x FROM a, b", true, false),
        (4095, "SELECT x FROM a, b", true, true),
        (2100, "SELECT o.x FROM a o, a p", true, false),
        (4096, "SELECT o.x FROM a o, a p", true, false),
        (4097, "SELECT o.x FROM a o, a p", true, true),
    ] {
        let said = is_surveyed(rt.alloc(), rows, text, asked)?;
        assert_eq!(rt; said, surveyed, "of {rows} rows by {text}");
    }
    Ok(())
}
