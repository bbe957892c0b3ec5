//! Why nothing is shown.

ghost use Rattle.std.specs.Prelude.{◌≡◌};
ghost use Rattle.show_parts.specs.Code as spec;

use run_plan::Status;
use sq_value::Memory;
use std::alloc::{AllocError, AllocFailed};

/// Why nothing is shown.
#[derive(Clone, Copy, Debug)]
pub enum Refusal {
    /// The words aren't of the form.
    Words,
    /// A script or a table is refused, as the program refuses it, and the notes say why.
    Noted(Status),
    /// There is no memory for it.
    Memory,
    /// The output, or the file of the picture, didn't take what was written.
    Output,
}

impl Refusal {
    /// The exit status: the program's for the same cause.
    pub fn code(self) -> u8
        ensures { result ≡ spec.refusal_code self }
    {
        match self {
            Refusal::Words => 2,
            Refusal::Noted(status) => status.code(),
            Refusal::Memory => 9,
            Refusal::Output => 6,
        }
    }
}

impl From<Memory> for Refusal {
    fn from(_error: Memory) -> Refusal {
        Refusal::Memory
    }
}

impl From<AllocError> for Refusal {
    fn from(_error: AllocError) -> Refusal {
        Refusal::Memory
    }
}

impl<T: Drop> From<AllocFailed<T>> for Refusal {
    fn from(_error: AllocFailed<T>) -> Refusal {
        Refusal::Memory
    }
}
