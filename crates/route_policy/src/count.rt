//! The rounds of 256 choices.

ghost use Rattle.std.specs.Prelude.{◌≡◌};
ghost use Rattle.route_policy.specs.Counts.{ends_round, next_round};

/// The choices of a round that are made before its last one.
const LAST: u8 = 255;

/// Whether a choice is the 256th of its round, with so many made before it.
pub(crate) fn ends_round(made: u8) -> bool
    ensures { result ≡ ends_round made }
{
    made == LAST
}

/// The choices of the round that are made after it.
pub(crate) fn next_round(made: u8) -> u8
    ensures { result ≡ next_round made }
{
    if ends_round(made) { 0 } else { made + 1 }
}
