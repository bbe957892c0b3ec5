//! A stream of the system as a sink.
ghost use Rattle.std.specs.Prelude.{◌≡◌, None, OnOk, OnErr};
ghost use Rattle.std.specs.Io.KnownBytes.{Appends};
ghost use Rattle.outside.specs.Faults.{NeverFalls, RoseOrFull, shown, shown-bounded};
ghost use Rattle.outside.specs.Real.{over_stream};
ghost use Rattle.outside.specs.Streams.{TakesPrefix};
ghost use Rattle.outside.specs.Told.{Adds, AddsFront};

use crate::fault::PutFault;
use crate::putting::put_whole;
use crate::sink::Sink;
use std::io::Write;
use std::marker::Model;

/// A stream of the system. As a sink it tells nothing of what it took. Seen as what the stream holds,
/// where the stream tells that, and the count of faults.
#[derive(Drop)]
pub struct RealSink<W: Write> {
    stream: W,
    faults: u64,
}

impl<W: Write> Model for RealSink<W> {
    ghost use Rattle.outside.specs.Real.{RealState};

    ghost Value = { RealState };

    ghost view = { λ s. record { contents = W.contents s.stream; faults = s.faults } };
}

impl<W: Write> RealSink<W> {
    /// A sink over a stream, as that of the standard output.
    pub fn new(stream: W) -> RealSink<W>
        ensures { result ≡ over_stream (W.contents stream) }
    {
        RealSink { stream, faults: 0 }
    }

    /// How many writes and flushes failed.
    pub fn faults(&self) -> u64
        ensures { result ≡ self.now.faults }
    {
        self.faults
    }
}

impl<W: Write> Sink for RealSink<W> {
    ghost written = { λ _. None };

    ghost faults = { λ s. shown s.faults };

    ghost bounded = { λ s. shown-bounded s.faults };

    /// Writes the piece, with one call of the system where that takes it whole, and flushes.
    fn put(&mut self, piece: &[u8]) -> Result<(), PutFault>
        ensures counts { NeverFalls (shown self.old.faults) (shown self.new.faults) }
        ensures ok { OnOk result (Adds None None piece.now) }
        ensures failed { OnErr result (RoseOrFull (shown self.old.faults) (shown self.new.faults)) }
        ensures front { OnErr result (AddsFront None None piece.now) }
        ensures kept { OnOk result (self.new.faults ≡ self.old.faults) }
        ensures whole { OnOk result (Appends self.old.contents self.new.contents piece.now) }
        ensures taken { OnErr result (TakesPrefix piece.now self.old.contents self.new.contents) }
    {
        put_whole(&mut self.stream, piece, &mut self.faults)
    }
}
