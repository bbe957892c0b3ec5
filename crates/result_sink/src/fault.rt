//! Why an answer wasn't written whole.

use std::error::Error;
use std::fmt;

/// Why an answer wasn't written whole.
#[derive(Clone, Copy, Debug, PartialEq, Eq)]
pub enum WriteFault {
    /// The output failed: its count of faults rose.
    Failed,
    /// There is no memory for a record.
    Memory,
}

impl fmt::Display for WriteFault {
    fn fmt<W: fmt::Write>(&self, f: &mut fmt::Formatter<W>) -> fmt::Result {
        f.write_str(match self {
            WriteFault::Failed => "writing failed",
            WriteFault::Memory => "out of memory",
        })
    }
}

impl Error for WriteFault {}
