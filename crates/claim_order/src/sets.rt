//! Sets of aliases: bit a stands for alias a.
ghost use Rattle.std.specs.Prelude.{◌≡◌, ◌<◌, ◌↔◌, IsTrue, IsBitSet};
ghost use Rattle.claim_order.specs.Claiming.{IsFirstFrom, IsNextInTurn};

/// The set of one alias; none where there can be no such alias.
pub(crate) fn only(alias: u8) -> u16 {
    if alias < 12 { 1 << alias } else { 0 }
}

/// Whether a set has an alias.
pub(crate) fn has(set: u16, alias: u8) -> bool
    requires { alias < 12 }
    ensures { IsTrue result ↔ IsBitSet set alias }
{
    set >> alias & 1 == 1
}

/// Whether a set has an alias, which may be any number.
pub(crate) fn contains(set: u16, alias: u8) -> bool {
    set & only(alias) != 0
}

/// The first alias of a set that has one.
pub(crate) fn first_of(set: u16) -> u8
    requires some { 0 < set }
    requires few { set < 4096 }
    ensures first { IsFirstFrom 0 set result }
    ensures below { result < 12 }
{
    set.trailing_zeros() as u8
}

/// The first alias of a set from one on, and its first where there is none.
pub(crate) fn first_from(set: u16, from: u8) -> u8
    requires some { 0 < set }
    requires few { set < 4096 }
    ensures next { IsNextInTurn from set result }
    ensures below { result < 12 }
{
    for alias in from..12 {
        if has(set, alias) {
            return alias;
        }
    }
    first_of(set)
}
