//! Which call comes next, where calls count from 1.
ghost use Rattle.std.specs.Prelude.{◌≡◌, ◌+◌, ◌==◌};

/// Whether this is the number of the next call, behind so many calls: calls count from 1.
pub(crate) fn is_next(call: u64, made: u64) -> bool
    ensures { result ≡ (call == made + 1) }
{
    call > made && call - made == 1
}
