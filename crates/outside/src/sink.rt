//! What text is put into: the trait of sinks.
ghost use Rattle.std.specs.Prelude.{◌≡◌, ℕ, ◌<◌, ◌^◌, List, Option, OnOk, OnErr};
ghost use Rattle.outside.specs.Faults.{NeverFalls, RoseOrFull};
ghost use Rattle.outside.specs.Told.{Adds, AddsFront};

use crate::fault::PutFault;

/// What text is put into.
///
/// It tells what it took, where that is known, and counts its faults in a number that begins at 0,
/// never falls, and stays at 18,446,744,073,709,551,615, its greatest. A put that took its piece
/// leaves the count as it was.
pub trait Sink {
    ghost written: { Self → Option (List ℕ) };

    ghost faults: { Self → ℕ };

    /// Adds a piece behind what was written.
    ///
    /// # Errors
    /// `Failed`: writing failed, and the count of faults rose. A front of the piece was added.
    fn put(&mut self, piece: &[u8]) -> Result<(), PutFault>
        ensures counts { NeverFalls (faults self.old) (faults self.new) }
        ensures ok { OnOk result (Adds (written self.old) (written self.new) piece.now) }
        ensures failed { OnErr result (RoseOrFull (faults self.old) (faults self.new)) }
        ensures front { OnErr result (AddsFront (written self.old) (written self.new) piece.now) }
        ensures kept { OnOk result (faults self.new ≡ faults self.old) };

    ghost bounded: { (sink : Self) → faults sink < 2 ^ 64 };
}
