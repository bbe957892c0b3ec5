//! A policy that keeps its calls.

ghost use Rattle.std.specs.Prelude.{◌≡◌, IfOk, IsTrue};
ghost use Rattle.route_policy.specs.Calls.{chose, returned};
ghost use Rattle.route_policy.specs.Recorder.{fresh_recording, recorded, told_calls};

use crate::call::PolicyCall;
use crate::policy::Policy;
use arrayvec::ArrayVec;
use sq_value::Memory;
use std::alloc::Global;
use std::marker::Model;
use tuple_span::{Route, Tuple};

/// A policy that answers as the one that it holds, and keeps the first calls that are made of it.
///
/// It tells its calls while it has room for them, and nothing after that.
#[derive(Debug, Drop)]
pub struct Recorder<P: Policy> {
    inner: P,
    kept: Vec<PolicyCall>,
    room: u32,
    whole: bool,
}

impl<P: Policy> Model for Recorder<P> {
    ghost use Rattle.std.specs.Prelude.{◌≤◌, vec_len, vec_capacity};
    ghost use Rattle.route_policy.specs.Recorder.{Recording};

    ghost Value = { Recording P };

    ghost view = { λ r. record { inner = r.inner; kept = r.kept.items; room = r.room; whole = r.whole } };

    ghost invariant = { λ r. r.room ≤ vec_capacity r.kept };
}

impl<P: Policy> Recorder<P> {
    /// A recorder that keeps at most `room` calls, and none yet.
    ///
    /// # Errors
    /// `Memory`: there is no memory for so many.
    pub fn new(alloc: Global, inner: P, room: u32) -> Result<Recorder<P>, Memory>
        ensures { IfOk result (λ recorder. recorder ≡ fresh_recording inner room) }
    {
        let kept = Vec::with_capacity(alloc, room as usize)?;
        Ok(Recorder {
            inner,
            kept,
            room,
            whole: true,
        })
    }

    /// The calls that it kept: the first ones that were made of it.
    pub fn calls(&self) -> &[PolicyCall]
        ensures { result.now ≡ self.now.kept }
    {
        &self.kept
    }

    /// Keeps a call where there is room.
    fn record_call(&mut self, call: PolicyCall)
        ensures { self.new ≡ recorded self.old self.old.inner call }
    {
        if self.kept.len() < self.room as usize {
            self.kept.push(call).unwrap();
        } else {
            self.whole = false;
        }
    }
}

impl<P: Policy> Policy for Recorder<P> {
    ghost asked = { λ r. P.asked r.inner };

    ghost calls = { told_calls };

    ghost may_choose = { λ r tuple legal choice now. P.may_choose r.inner tuple legal choice now.inner
        × (now ≡ recorded r now.inner (chose tuple legal choice)) };

    ghost may_become = { λ r route count now. P.may_become r.inner route count now.inner
        × (now ≡ recorded r now.inner (returned route count)) };

    ghost may_see = { λ r alias now. P.may_see r.inner alias now.inner × (now ≡ record r { inner = now.inner }) };

    ghost by_survey = { λ r. P.by_survey r.inner };

    fn choose(&mut self, tuple: &Tuple, legal: &[Route]) -> usize {
        let choice = self.inner.choose(tuple, legal);
        self.record_call(PolicyCall::Chose {
            tuple: *tuple,
            legal: ArrayVec::try_from(legal).unwrap(),
            choice,
        });
        choice
    }

    fn returned(&mut self, route: Route, count: u64) {
        self.inner.returned(route, count);
        self.record_call(PolicyCall::Returned { route, count });
    }

    fn touched(&mut self, alias: u8) {
        self.inner.touched(alias);
    }

    fn claims_by_survey(&self) -> bool {
        self.inner.claims_by_survey()
    }

    fn asked(&self) -> u64 {
        self.inner.asked()
    }
}
