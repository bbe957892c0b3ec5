//! Why a run stops at its answers.

ghost use Rattle.std.specs.Prelude.{◌≡◌, ◌≢◌, Err};
ghost use Rattle.run_answers.specs.Wrote.{of_output};

use result_sink::WriteFault;

/// Why answers and their lines of counts weren't put, whole.
#[derive(Clone, Copy, Debug, PartialEq, Eq)]
pub enum Stop {
    /// The output didn't take what was put.
    Output,
    /// The notes didn't take a line of counts.
    Notes,
    /// Want of memory.
    Memory,
}

/// How a step stops that wrote a text so.
pub(crate) fn stopped(written: Result<(), WriteFault>) -> Result<(), Stop>
    ensures is { of_output result ≡ written }
    ensures silent { result ≢ Err Stop.Notes }
{
    match written {
        Ok(()) => Ok(()),
        Err(WriteFault::Failed) => Err(Stop::Output),
        Err(WriteFault::Memory) => Err(Stop::Memory),
    }
}
