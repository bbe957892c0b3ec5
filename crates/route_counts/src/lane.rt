//! Lanes: a number for each route that a policy may be told of.

ghost use Rattle.std.specs.Prelude.{◌≡◌, ◌<◌, ◌+◌, ◌*◌, ◌^◌};
ghost use Rattle.route_policy.specs.Routes.{IsRoute};
ghost use Rattle.route_counts.specs.Lanes as spec;

use tuple_span::{Route, Via};

/// How many lanes there are: 48 selections, 12 builds, and of each of 12 aliases 193 probes.
pub const LANES: usize = 2376;

/// In how many parts a run is counted.
pub const PARTS: usize = 10;

/// What a lane is: its route is this one.
#[derive(Clone, Copy, Debug, PartialEq, Eq)]
pub enum Lane {
    /// The selection by a conjunct.
    Select(usize),
    /// The build of an alias.
    Build(usize),
    /// The probe of all entries of an alias.
    All(usize),
    /// The probe of an alias by an equality, a conjunct, with a column.
    Equal(usize, usize),
    /// The probe of an alias by an equality, a conjunct, with a literal.
    Literal(usize, usize),
    /// The probe of an alias by a conjunct of another comparison.
    Range(usize, usize),
    /// The probe of an alias by a band, a conjunct and the one after it.
    Band(usize, usize),
}

// The number of a way to probe, among those of its alias.
fn via_number(via: Via) -> usize
    requires { spec.IsVia via }
    ensures value { result ≡ spec.via_number via }
    ensures below { result < 193 }
{
    match via {
        Via::All => 0,
        Via::Equal(conjunct) => 1 + usize::from(conjunct),
        Via::Literal(conjunct) => 49 + usize::from(conjunct),
        Via::Range(conjunct) => 97 + usize::from(conjunct),
        Via::Band(conjunct) => 145 + usize::from(conjunct),
    }
}

/// The lane of a route.
pub fn lane_of(route: Route) -> usize
    requires { IsRoute route }
    ensures value { result ≡ spec.lane_of route }
    ensures below { result < 2376 }
{
    match route {
        Route::Select(conjunct) => usize::from(conjunct),
        Route::Build { alias } => 48 + usize::from(alias),
        Route::Probe { alias, via } => 60 + 193 * usize::from(alias) + via_number(via),
    }
}

// The probe with a number among those of its alias.
fn probe_of(alias: usize, number: usize) -> Lane
    requires { alias < 2 ^ 32 }
    ensures { spec.lane_number result ≡ 60 + 193 * alias + number }
{
    if number == 0 {
        Lane::All(alias)
    } else if number < 49 {
        Lane::Equal(alias, number - 1)
    } else if number < 97 {
        Lane::Literal(alias, number - 49)
    } else if number < 145 {
        Lane::Range(alias, number - 97)
    } else {
        Lane::Band(alias, number - 145)
    }
}

/// What the lane with a number is.
pub fn meaning_of(lane: usize) -> Lane
    requires { lane < 2376 }
    ensures { spec.lane_number result ≡ lane }
{
    if lane < 48 {
        Lane::Select(lane)
    } else if lane < 60 {
        Lane::Build(lane - 48)
    } else {
        probe_of((lane - 60) / 193, (lane - 60) % 193)
    }
}
