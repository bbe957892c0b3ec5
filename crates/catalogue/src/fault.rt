//! Why a table wasn't added.
ghost use Rattle.std.specs.Prelude.{◌≡◌};
ghost use Rattle.catalogue.specs.declared.fault.CatalogueFault.TheVariants as variants;

use sq_value::Memory;
use std::alloc::AllocError;
use std::error::Error;
use std::fmt;

/// Why a table wasn't added to a catalogue.
#[derive(Clone, Copy, Debug, PartialEq, Eq)]
pub enum CatalogueFault {
    /// The catalogue has a table of that name.
    RepeatedTable,
    /// There is no memory for the table's name or its place.
    Memory,
}

impl fmt::Display for CatalogueFault {
    fn fmt<W: fmt::Write>(&self, f: &mut fmt::Formatter<W>) -> fmt::Result {
        f.write_str(match self {
            CatalogueFault::RepeatedTable => "a table of that name is there",
            CatalogueFault::Memory => "out of memory",
        })
    }
}

impl Error for CatalogueFault {}

impl From<Memory> for CatalogueFault {
    ghost from_gives = { λ _ given. given ≡ variants.Memory };

    fn from(_error: Memory) -> CatalogueFault {
        CatalogueFault::Memory
    }
}

impl From<AllocError> for CatalogueFault {
    ghost from_gives = { λ _ given. given ≡ variants.Memory };

    fn from(_error: AllocError) -> CatalogueFault {
        CatalogueFault::Memory
    }
}
