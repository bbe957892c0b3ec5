//! Back pressure.

ghost use Rattle.std.specs.Prelude.{◌≡◌, None, slice_index, ◌<◌, length, false};
ghost use Rattle.route_policy.specs.Pressure.{fresh_pressure, load_of, pressure_choice, after_pressure_choice, after_pressure_return, halved, loaded};
ghost use Rattle.route_policy.specs.Routes.{route_class, module_of};

use crate::cheapest::{Rank, Ranks, cheapest};
use crate::class::{module_of, route_class};
use crate::count::{ends_round, next_round};
use crate::policy::Policy;
use std::marker::Model;
use tuple_span::{Route, Tuple};

/// Back pressure (Avnur and Hellerstein 2000): each module has a load, which rises by one where its
/// route is chosen and by what comes back, and the route to the least loaded module is chosen, the
/// first of equals.
///
/// Only routes of the least class that is present are chosen. After every 256th choice the loads
/// are halved.
#[derive(Debug, Drop)]
pub struct Pressure {
    loads: [u64; 60],
    round: u8,
    asked: u64,
}

impl Model for Pressure {
    ghost use Rattle.route_policy.specs.Pressure.{PressureState};

    ghost Value = { PressureState };

    ghost view = { λ s. record { loads = s.loads; round = s.round; asked = s.asked } };
}

impl Ranks for Pressure {
    ghost class = { λ _ route. route_class route };

    ghost cost = { λ s route. load_of s.loads route };

    fn rank(&self, route: &Route) -> Rank {
        Rank {
            class: route_class(route),
            cost: self.loads[module_of(route)],
        }
    }
}

/// Loads a module with so much more, as far as a u64 counts.
fn load(loads: &mut [u64; 60], number: usize, more: u64)
    requires { number < 60 }
    ensures { loads.new ≡ loaded loads.old number more }
{
    loads[number] = loads[number].saturating_add(more);
}

/// Halves each load.
fn halve(loads: &mut [u64; 60])
    ensures { loads.new ≡ halved loads.old }
{
    for load in loads.iter_mut() {
        *load /= 2;
    }
}

impl Pressure {
    /// Back pressure without a load.
    pub fn new() -> Pressure
        ensures { result ≡ fresh_pressure }
    {
        Pressure {
            loads: [0; 60],
            round: 0,
            asked: 0,
        }
    }
}

impl Policy for Pressure {
    ghost asked = { λ s. s.asked };

    ghost calls = { λ _. None };

    ghost may_choose = { λ s _ legal choice now. (choice ≡ pressure_choice s.loads legal)
        × (now ≡ after_pressure_choice s legal) };

    ghost may_become = { λ s route count now. now ≡ after_pressure_return s route count };

    ghost may_see = { λ s _ now. now ≡ s };

    ghost by_survey = { λ _. false };

    fn choose(&mut self, _tuple: &Tuple, legal: &[Route]) -> usize {
        let choice = cheapest(self, legal);
        load(&mut self.loads, module_of(&legal[choice]), 1);
        if ends_round(self.round) {
            halve(&mut self.loads);
        }
        self.round = next_round(self.round);
        self.asked = self.asked.saturating_add(1);
        choice
    }

    fn returned(&mut self, route: Route, count: u64) {
        load(&mut self.loads, module_of(&route), count.min(1000));
    }

    fn touched(&mut self, _alias: u8) {}

    fn claims_by_survey(&self) -> bool {
        false
    }

    fn asked(&self) -> u64 {
        self.asked
    }
}
