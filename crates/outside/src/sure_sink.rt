//! A sink in memory that takes every piece whole.
ghost use Rattle.std.specs.Prelude.{◌≡◌, OnOk, IfOk, IsOk};
ghost use Rattle.outside.specs.Told.{Adds};
ghost use Rattle.outside.specs.Sure.{empty_sink, after_piece, told};
ghost use Rattle.outside.specs.Faults.{shown-bounded};

use crate::fault::PutFault;
use crate::kept::keep_first;
use crate::sink::Sink;
use sq_value::Memory;
use std::alloc::Global;
use std::marker::Model;

/// A sink that takes every piece whole. It keeps the first bytes, as many as it has room for, and
/// tells what was written while all of it has fitted.
#[derive(Drop)]
pub struct SureSink {
    kept: Vec<u8>,
    room: usize,
    fitted: bool,
}

impl Model for SureSink {
    ghost use Rattle.std.specs.Prelude.{◌+◌, ◌≤◌, vec_len, vec_capacity};
    ghost use Rattle.outside.specs.Sure.{SureState};

    ghost Value = { SureState };

    ghost view = { λ s. record { kept = s.kept.items; room = s.room; fitted = s.fitted } };

    ghost invariant = { λ s. vec_len s.kept + s.room ≤ vec_capacity s.kept };
}

impl SureSink {
    /// A sink that keeps at most `bytes` bytes, and has taken none.
    ///
    /// # Errors
    /// `Memory`: there is no memory for them.
    pub fn with_room(alloc: Global, bytes: usize) -> Result<SureSink, Memory>
        ensures { IfOk result (λ sink. sink ≡ empty_sink bytes) }
    {
        Ok(SureSink {
            kept: Vec::with_capacity(alloc, bytes)?,
            room: bytes,
            fitted: true,
        })
    }

    /// The bytes that are kept: the first of those that were put.
    pub fn written(&self) -> &[u8]
        ensures { result.now ≡ self.now.kept }
    {
        &self.kept
    }
}

impl Sink for SureSink {
    ghost written = { told };

    ghost faults = { λ _. 0 };

    ghost bounded = { λ _. shown-bounded 0 };

    fn put(&mut self, piece: &[u8]) -> Result<(), PutFault>
        ensures ok { OnOk result (Adds (told self.old) (told self.new) piece.now) }
        ensures taken { IsOk result }
        ensures after { self.new ≡ after_piece self.old piece.now }
    {
        let count = piece.len().min(self.room);
        keep_first(&mut self.kept, piece, count);
        self.fitted = self.fitted && piece.len() <= self.room;
        self.room -= count;
        Ok(())
    }
}
