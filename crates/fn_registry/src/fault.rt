//! Why a predicate wasn't added.
ghost use Rattle.std.specs.Prelude.{◌≡◌};
ghost use Rattle.fn_registry.specs.declared.fault.AddFault.TheVariants as variants;

use std::alloc::AllocFailed;
use std::error::Error;
use std::fmt;

/// Why a predicate wasn't added.
#[derive(Clone, Copy, Debug, PartialEq, Eq)]
pub enum AddFault {
    /// A predicate of that name or of that number is there.
    RepeatedName,
    /// 32 predicates are there.
    Full,
    /// There is no memory for its place.
    Memory,
}

impl fmt::Display for AddFault {
    fn fmt<W: fmt::Write>(&self, f: &mut fmt::Formatter<W>) -> fmt::Result {
        f.write_str(match self {
            AddFault::RepeatedName => "a predicate of that name or number is there",
            AddFault::Full => "32 predicates are there",
            AddFault::Memory => "out of memory",
        })
    }
}

impl Error for AddFault {}

impl<T: Drop> From<AllocFailed<T>> for AddFault {
    ghost from_gives = { λ _ given. given ≡ variants.Memory };

    fn from(_error: AllocFailed<T>) -> AddFault {
        AddFault::Memory
    }
}
