//! What is prepared of a conjunct, once a statement.
ghost use Rattle.std.specs.Prelude.{IfOk};
ghost use Rattle.sq_expr.specs.Prepared.{IsPrepared};

use crate::cond::Cond;
use crate::integer_test::{IntegerTest, integer_test_of};
use crate::membership::{Membership, membership_of};
use sq_value::Memory;
use std::alloc::Global;

/// What is prepared of a conjunct.
#[derive(Drop)]
pub(crate) enum Prepared {
    Nothing,
    Membership(Membership),
    IntegerTest(IntegerTest),
}

/// What is prepared of a condition.
pub(crate) fn prepared_of(alloc: Global, cond: &Cond) -> Result<Prepared, Memory>
    ensures { IfOk result (IsPrepared cond.now) }
{
    if let Some(test) = integer_test_of(cond) {
        return Ok(Prepared::IntegerTest(test));
    }
    match membership_of(alloc, cond)? {
        Some(membership) => Ok(Prepared::Membership(membership)),
        None => Ok(Prepared::Nothing),
    }
}
