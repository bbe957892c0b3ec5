//! The classes of routes, and the modules that they lead to.

ghost use Rattle.std.specs.Prelude.{◌≡◌, ◌<◌, ◌≤◌, length, All, Any};
ghost use Rattle.route_policy.specs.Routes.{route_class, class_of_probe, module_of, AreChoices, IsRoute, first_candidate};

use tuple_span::{Route, Via};

/// How many modules there are: 48 selections and 12 state modules.
pub(crate) const MODULES: usize = 60;

/// The class of a route: 1 where at most what meets a condition comes, 5 where all comes.
pub(crate) fn route_class(route: &Route) -> u8
    ensures { result ≡ route_class route.now }
{
    match route {
        Route::Select(_) | Route::Build { .. } => 1,
        Route::Probe { via, .. } => class_of_probe(via),
    }
}

/// The class of a probe.
fn class_of_probe(via: &Via) -> u8
    ensures { result ≡ class_of_probe via.now }
{
    match via {
        Via::Equal(_) => 1,
        Via::Literal(_) => 2,
        Via::Band(_) => 3,
        Via::Range(_) => 4,
        Via::All => 5,
    }
}

/// The number of the module that a route leads to.
pub(crate) fn module_of(route: &Route) -> usize
    requires { IsRoute route.now }
    ensures value { result ≡ module_of route.now }
    ensures below { result < 60 }
{
    match route {
        Route::Select(conjunct) => usize::from(*conjunct),
        Route::Build { alias } | Route::Probe { alias, .. } => 48 + usize::from(*alias),
    }
}

/// The place of the first route of the least class.
pub(crate) fn first_candidate(legal: &[Route]) -> usize
    requires { AreChoices legal.now }
    ensures value { result ≡ first_candidate legal.now }
    ensures within { result < length legal.now }
{
    let mut best = 0;
    for place in 1..legal.len() {
        if route_class(&legal[place]) < route_class(&legal[best]) {
            best = place;
        }
    }
    best
}
