//! Why a load gave no bytes, and why a put took less than its piece.
ghost use Rattle.std.specs.Prelude.{◌≡◌};
ghost use Rattle.outside.specs.declared.fault.LoadFault.TheVariants as variants;

use sq_value::Memory;
use std::alloc::AllocError;
use std::error::Error;
use std::fmt;

/// Why a load gave no bytes.
#[derive(Clone, Copy, Debug, PartialEq, Eq)]
pub enum LoadFault {
    /// The folder tells what it holds, and holds no file of that name.
    Absent,
    /// Reading failed, and the folder counted a fault.
    Failed,
    /// There is no memory for the bytes.
    Memory,
}

impl fmt::Display for LoadFault {
    fn fmt<W: fmt::Write>(&self, f: &mut fmt::Formatter<W>) -> fmt::Result {
        f.write_str(match self {
            LoadFault::Absent => "no such file",
            LoadFault::Failed => "reading failed",
            LoadFault::Memory => "out of memory",
        })
    }
}

impl Error for LoadFault {}

impl From<Memory> for LoadFault {
    ghost from_gives = { λ _ given. given ≡ variants.Memory };

    fn from(_error: Memory) -> LoadFault {
        LoadFault::Memory
    }
}

impl From<AllocError> for LoadFault {
    ghost from_gives = { λ _ given. given ≡ variants.Memory };

    fn from(_error: AllocError) -> LoadFault {
        LoadFault::Memory
    }
}

/// Why a put took less than its piece.
#[derive(Clone, Copy, Debug, PartialEq, Eq)]
pub enum PutFault {
    /// Writing failed, and the sink counted a fault. It took a front of the piece.
    Failed,
}

impl fmt::Display for PutFault {
    fn fmt<W: fmt::Write>(&self, f: &mut fmt::Formatter<W>) -> fmt::Result {
        f.write_str("writing failed")
    }
}

impl Error for PutFault {}
