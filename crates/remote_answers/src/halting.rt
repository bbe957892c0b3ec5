//! Why a run stops at statements over remotes.

use remote_lookup::RemoteFault;
use run_answers::Stop;

/// Why the answers of statements over remotes weren't put, whole.
#[derive(Clone, Copy, Debug, PartialEq, Eq)]
pub enum Halt {
    /// The needed keys of a statement were refused, or weren't loaded, before it was run.
    Refused(RemoteFault),
    /// A statement was run, and its answer or its line of counts wasn't put, whole.
    Stopped(Stop),
}
