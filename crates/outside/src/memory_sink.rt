//! A sink in memory of a fixed room, with faults where they are chosen.
ghost use Rattle.std.specs.Prelude.{◌≡◌, ◌∷◌, ◌+◌, ◌==◌, Some, not, is_ok, find, option_map, IfOk, OnOk, OnErr};
ghost use Rattle.outside.specs.Chosen.{failing_put, empty_sink, put_fails, after_put};
ghost use Rattle.outside.specs.Faults.{NeverFalls, RoseOrFull, shown, shown-bounded};
ghost use Rattle.outside.specs.Told.{Adds, AddsFront};

use crate::fault::PutFault;
use crate::kept::keep_first;
use crate::next::is_next;
use crate::sink::Sink;
use sq_value::Memory;
use std::alloc::Global;
use std::marker::Model;

/// A put that is to fail, by its number from 1, and the bytes that it takes before.
#[derive(Clone, Copy)]
struct FailingPut {
    put: u64,
    taken: usize,
}

impl Model for FailingPut {
    ghost use Rattle.outside.specs.Chosen.{ChosenPut, failing_put};

    ghost Value = { ChosenPut };

    ghost view = { λ s. failing_put s.put s.taken };

    ghost inverse = { λ s. record { put = s.put; taken = s.taken } };
}

/// A sink in memory of a fixed room, with faults where they are chosen. Seen as what it took, the
/// room that is left, the puts that are chosen to fail, the last one chosen first, the puts made and
/// the faults counted.
#[derive(Drop)]
pub struct MemorySink {
    written: Vec<u8>,
    room: usize,
    chosen: Vec<FailingPut>,
    puts: u64,
    faults: u64,
}

impl Model for MemorySink {
    ghost use Rattle.std.specs.Prelude.{◌+◌, ◌≤◌, vec_len, vec_capacity};
    ghost use Rattle.outside.specs.Chosen.{SinkState};

    ghost Value = { SinkState };

    ghost view = { λ s. record {
      written = s.written.items;
      room = s.room;
      chosen = s.chosen.items;
      puts = s.puts;
      faults = s.faults;
    } };

    ghost invariant = { λ s. vec_len s.written + s.room ≤ vec_capacity s.written };
}

/// The bytes that the put behind `made` puts takes, where it is one of the chosen.
fn choice_at(chosen: &[FailingPut], made: u64) -> Option<usize>
    ensures { result ≡ option_map (λ c. c.taken) (find (λ c. c.put == made + 1) chosen.now) }
{
    for failing in chosen {
        if is_next(failing.put, made) {
            return Some(failing.taken);
        }
    }
    None
}

impl MemorySink {
    /// A sink that takes at most `bytes` bytes, and has taken none.
    ///
    /// # Errors
    /// `Memory`: there is no memory for them.
    pub fn with_room(alloc: Global, bytes: usize) -> Result<MemorySink, Memory>
        ensures { IfOk result (λ sink. sink ≡ empty_sink bytes) }
    {
        Ok(MemorySink {
            written: Vec::with_capacity(alloc, bytes)?,
            room: bytes,
            chosen: Vec::new(alloc),
            puts: 0,
            faults: 0,
        })
    }

    /// Makes the put with this number fail; puts count from 1. It takes the first `taken` bytes of
    /// its piece, or as many as there are and fit.
    ///
    /// # Errors
    /// `Memory`: there is no memory for the choice. The sink is unchanged.
    pub fn fail_at(&mut self, call: u64, taken: usize) -> Result<(), Memory>
        ensures ok { OnOk result (self.new ≡ record self.old { chosen = failing_put call taken ∷ self.old.chosen }) }
        ensures err { OnErr result (self.new ≡ self.old) }
    {
        self.chosen.insert(0, FailingPut { put: call, taken })?;
        Ok(())
    }

    /// The bytes that were taken.
    pub fn written(&self) -> &[u8]
        ensures { result.now ≡ self.now.written }
    {
        &self.written
    }

    /// How many puts failed.
    pub fn faults(&self) -> u64
        ensures { result ≡ self.now.faults }
    {
        self.faults
    }

    /// Takes a front of the piece, and answers whether the put is to fail.
    fn take_front(&mut self, piece: &[u8]) -> bool
        ensures after { self.new ≡ after_put self.old piece.now }
        ensures fails { result ≡ put_fails self.old piece.now }
        ensures counts { NeverFalls self.old.faults self.new.faults }
    {
        let choice = choice_at(&self.chosen, self.puts);
        let fails = choice.is_some() || self.room < piece.len();
        let count = choice
            .unwrap_or(piece.len())
            .min(piece.len())
            .min(self.room);
        keep_first(&mut self.written, piece, count);
        self.room -= count;
        self.puts = self.puts.saturating_add(1);
        if fails {
            self.faults = self.faults.saturating_add(1);
        }
        fails
    }
}

impl Sink for MemorySink {
    ghost written = { λ s. Some s.written };

    ghost faults = { λ s. shown s.faults };

    ghost bounded = { λ s. shown-bounded s.faults };

    fn put(&mut self, piece: &[u8]) -> Result<(), PutFault>
        ensures counts { NeverFalls self.old.faults self.new.faults }
        ensures ok { OnOk result (Adds (Some self.old.written) (Some self.new.written) piece.now) }
        ensures failed { OnErr result (RoseOrFull self.old.faults self.new.faults) }
        ensures front { OnErr result (AddsFront (Some self.old.written) (Some self.new.written) piece.now) }
        ensures kept { OnOk result (self.new.faults ≡ self.old.faults) }
        ensures after { self.new ≡ after_put self.old piece.now }
        ensures fails { is_ok result ≡ not (put_fails self.old piece.now) }
    {
        if self.take_front(piece) {
            return Err(PutFault::Failed);
        }
        Ok(())
    }
}
