//! Where a run writes to: a clause sees of it what it shows.

use outside::Sink;
use std::marker::Model;

/// The output, for answers, and the notes, for lines of counts and refusals.
#[derive(Drop)]
pub struct Outputs<O: Sink, N: Sink> {
    /// The output: answers alone.
    pub out: O,
    /// The notes: lines of counts, and of refusals.
    pub notes: N,
}

impl<O: Sink, N: Sink> Model for Outputs<O, N> {
    ghost use Rattle.run_base.specs.Seen.{sink_seen};
    ghost use Rattle.run_base.specs.Seen as seen;

    ghost Value = { seen.Outputs O N };

    ghost view = { λ a. record {
      out = sink_seen a.out (O.written a.out) (O.faults a.out);
      notes = sink_seen a.notes (N.written a.notes) (N.faults a.notes);
    } };
}
