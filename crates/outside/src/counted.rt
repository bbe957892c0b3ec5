//! The calls of the system, each of which is counted where it fails.
ghost use Rattle.std.specs.Prelude.{◌≡◌, None, OnErr, IfOk, is_err, if◌then◌else◌};
ghost use Rattle.outside.specs.Faults.{raised};

use std::io;

/// What a call of the system gave, or None where it failed. That is counted.
pub(crate) fn counted<T>(outcome: io::Result<T>, faults: &mut u64) -> Option<T>
    ensures some { IfOk outcome (λ value. result ≡ Some value) }
    ensures none { OnErr outcome (result ≡ None) }
    ensures counts { faults.new ≡ (if is_err outcome then raised faults.old else faults.old) }
{
    match outcome {
        Ok(value) => Some(value),
        Err(_) => {
            *faults = faults.saturating_add(1);
            None
        }
    }
}
