//! The first of the routes of the least class that cost the least.

ghost use Rattle.std.specs.Prelude.{◌≡◌, ◌&&◌, ◌||◌, ◌==◌, nat_lt, ◌<◌, ℕ, length};
ghost use Rattle.tuple_span.specs.declared.route.Route.{Route as TheRoute};
ghost use Rattle.route_policy.specs.Cheapest.{cheapest};
ghost use Rattle.route_policy.specs.Routes.{AreChoices, IsRoute};

use tuple_span::Route;

/// What a route is compared by: its class, and then its cost.
#[derive(Clone, Copy)]
pub(crate) struct Rank {
    pub(crate) class: u8,
    pub(crate) cost: u64,
}

impl Rank {
    /// Whether it is of a lesser class than another, or of a lesser cost in the same class.
    fn is_before(self, other: Rank) -> bool
        ensures { result ≡ (nat_lt self.class other.class
            || ((self.class == other.class) && nat_lt self.cost other.cost)) }
    {
        self.class < other.class || (self.class == other.class && self.cost < other.cost)
    }
}

/// What says the class of a route, and what it costs.
pub(crate) trait Ranks {
    ghost class: { Self → TheRoute → ℕ };

    ghost cost: { Self → TheRoute → ℕ };

    /// The rank of a route.
    fn rank(&self, route: &Route) -> Rank
        requires { IsRoute route.now }
        ensures class { result.class ≡ class self.now route.now }
        ensures cost { result.cost ≡ cost self.now route.now };
}

/// The place of the first route that no other is before.
pub(crate) fn cheapest<R: Ranks>(ranks: &R, legal: &[Route]) -> usize
    requires { AreChoices legal.now }
    ensures value { result ≡ cheapest (R.class ranks.now) (R.cost ranks.now) legal.now }
    ensures within { result < length legal.now }
{
    let mut best = 0;
    let mut rank = ranks.rank(&legal[0]);
    for place in 1..legal.len() {
        let other = ranks.rank(&legal[place]);
        if other.is_before(rank) {
            best = place;
            rank = other;
        }
    }
    best
}
