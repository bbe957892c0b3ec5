//! The words of a route script.

ghost use Rattle.std.specs.Prelude.{◌≡◌, ◌+◌, ◌*◌, ◌<◌, ◌≤◌, length, IfSome};
ghost use Rattle.route_policy.specs.Script.{is_wanted, goes_by, goes_by_band};
ghost use Rattle.route_policy.specs.ScriptReading.{digits_number, lettered, read_word};

use tuple_span::{Route, Via};

/// A word of a route script: which routes it matches.
#[derive(Clone, Copy, Debug, PartialEq, Eq)]
pub enum RouteWord {
    /// The building of a tuple.
    Build,
    /// The selection by a conjunct.
    Select(u8),
    /// The probe of all entries of an alias.
    All(u8),
    /// A probe by a conjunct alone.
    By(u8),
    /// A probe by a band that begins with a conjunct.
    Band(u8),
}

impl Default for RouteWord {
    fn default() -> RouteWord {
        RouteWord::Build
    }
}

impl RouteWord {
    /// Whether it matches a route.
    pub(crate) fn is_wanted(&self, route: &Route) -> bool
        ensures { result ≡ is_wanted self.now route.now }
    {
        match (self, route) {
            (RouteWord::Build, Route::Build { .. }) => true,
            (RouteWord::Select(conjunct), Route::Select(other)) => conjunct == other,
            (
                RouteWord::All(alias),
                Route::Probe {
                    alias: other,
                    via: Via::All,
                },
            ) => alias == other,
            (RouteWord::By(conjunct), Route::Probe { via, .. }) => goes_by(*conjunct, via),
            (RouteWord::Band(conjunct), Route::Probe { via, .. }) => goes_by_band(*conjunct, via),
            _ => false,
        }
    }
}

/// Whether a probe goes by this conjunct alone.
fn goes_by(conjunct: u8, via: &Via) -> bool
    ensures { result ≡ goes_by conjunct via.now }
{
    match via {
        Via::Equal(other) | Via::Literal(other) | Via::Range(other) => conjunct == *other,
        Via::All | Via::Band(_) => false,
    }
}

/// Whether a probe goes by a band that begins with this conjunct.
fn goes_by_band(conjunct: u8, via: &Via) -> bool
    ensures { result ≡ goes_by_band conjunct via.now }
{
    match via {
        Via::Band(other) => conjunct == *other,
        Via::All | Via::Equal(_) | Via::Literal(_) | Via::Range(_) => false,
    }
}

/// The number below a limit that these bytes are in decimal digits, without a leading zero.
fn digits_number(limit: u8, digits: &[u8]) -> Option<u8>
    ensures value { result ≡ digits_number limit digits.now }
    ensures short { IfSome result (λ _. length digits.now ≤ 2) }
{
    let number = match digits {
        [last @ b'0'..=b'9'] => last - b'0',
        [first @ b'1'..=b'9', last @ b'0'..=b'9'] => 10 * (first - b'0') + (last - b'0'),
        _ => return None,
    };
    if number < limit { Some(number) } else { None }
}

/// The word that these bytes are.
pub(crate) fn read_word(bytes: &[u8]) -> Option<RouteWord>
    ensures value { result ≡ read_word bytes.now }
    ensures short { IfSome result (λ _. length bytes.now ≤ 3) }
{
    match bytes {
        [b'b'] => Some(RouteWord::Build),
        [b's', digits @ ..] => Some(RouteWord::Select(digits_number(48, digits)?)),
        [b'a', digits @ ..] => Some(RouteWord::All(digits_number(12, digits)?)),
        [b'v', digits @ ..] => Some(RouteWord::By(digits_number(48, digits)?)),
        [b'w', digits @ ..] => Some(RouteWord::Band(digits_number(48, digits)?)),
        _ => None,
    }
}
