//! Why the text of a case gives no tables.
ghost use Rattle.std.specs.Prelude.{◌≡◌};
ghost use Rattle.case_kit.specs.declared.fault.CaseFault.TheVariants as variants;

use sq_value::Memory;
use std::alloc::AllocError;

/// Why the text of a case gives no tables.
#[derive(Clone, Copy, Debug)]
pub enum CaseFault {
    /// A line says no table, or one whose name an earlier line has.
    OutOfForm,
    /// There is no memory for the tables.
    Memory,
}

impl From<Memory> for CaseFault {
    ghost from_gives = { λ _ given. given ≡ variants.Memory };

    fn from(_error: Memory) -> CaseFault {
        CaseFault::Memory
    }
}

impl From<AllocError> for CaseFault {
    ghost from_gives = { λ _ given. given ≡ variants.Memory };

    fn from(_error: AllocError) -> CaseFault {
        CaseFault::Memory
    }
}
