//! One of the four policies.

ghost use Rattle.std.specs.Prelude.{◌≡◌, None, slice_index};

use crate::greedy::Greedy;
use crate::lottery::Lottery;
use crate::policy::Policy;
use crate::pressure::Pressure;
use crate::script::RouteScript;
use tuple_span::{Route, Tuple};

/// One of the four policies.
#[derive(Debug, Drop)]
pub enum AnyPolicy {
    Lottery(Lottery),
    Pressure(Pressure),
    Script(RouteScript),
    Greedy(Greedy),
}

impl Policy for AnyPolicy {
    ghost use Rattle.route_policy.specs.AnyPolicy.{asked_of, choice_of, after_choice, after_return, after_touch, is_by_survey};

    ghost asked = { asked_of };

    ghost calls = { λ _. None };

    ghost may_choose = { λ s _ legal choice now. (choice ≡ choice_of s legal) × (now ≡ after_choice s legal) };

    ghost may_become = { λ s route count now. now ≡ after_return s route count };

    ghost may_see = { λ s alias now. now ≡ after_touch s alias };

    ghost by_survey = { is_by_survey };

    fn choose(&mut self, tuple: &Tuple, legal: &[Route]) -> usize {
        match self {
            AnyPolicy::Lottery(lottery) => lottery.choose(tuple, legal),
            AnyPolicy::Pressure(pressure) => pressure.choose(tuple, legal),
            AnyPolicy::Script(script) => script.choose(tuple, legal),
            AnyPolicy::Greedy(greedy) => greedy.choose(tuple, legal),
        }
    }

    fn returned(&mut self, route: Route, count: u64) {
        match self {
            AnyPolicy::Lottery(lottery) => lottery.returned(route, count),
            AnyPolicy::Pressure(pressure) => pressure.returned(route, count),
            AnyPolicy::Script(script) => script.returned(route, count),
            AnyPolicy::Greedy(greedy) => greedy.returned(route, count),
        }
    }

    fn touched(&mut self, alias: u8) {
        match self {
            AnyPolicy::Lottery(lottery) => lottery.touched(alias),
            AnyPolicy::Pressure(pressure) => pressure.touched(alias),
            AnyPolicy::Script(script) => script.touched(alias),
            AnyPolicy::Greedy(greedy) => greedy.touched(alias),
        }
    }

    fn claims_by_survey(&self) -> bool {
        match self {
            AnyPolicy::Lottery(lottery) => lottery.claims_by_survey(),
            AnyPolicy::Pressure(pressure) => pressure.claims_by_survey(),
            AnyPolicy::Script(script) => script.claims_by_survey(),
            AnyPolicy::Greedy(greedy) => greedy.claims_by_survey(),
        }
    }

    fn asked(&self) -> u64 {
        match self {
            AnyPolicy::Lottery(lottery) => lottery.asked(),
            AnyPolicy::Pressure(pressure) => pressure.asked(),
            AnyPolicy::Script(script) => script.asked(),
            AnyPolicy::Greedy(greedy) => greedy.asked(),
        }
    }
}
