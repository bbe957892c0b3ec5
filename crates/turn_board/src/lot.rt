//! What lies in a slot of the board.
ghost use Rattle.std.specs.Prelude.{◌≡◌};

use crate::pool::{Pool, Stamped};
use std::marker::Model;
use std::mem;

/// A module, the pool, or nothing where a seat has it out.
pub enum Lot<K, T: Stamped + Copy> {
    Out,
    OfModule(K),
    OfPool(Pool<T>),
}

/// A slot of the board. Seen as what lies in it.
///
/// Whoever has a turn writes the lot, and nothing else of its slot. With 64 bytes on each side nothing else that is
/// written lies on the lot's lines of the processor's memory: else two seats that have the turns of two modules would
/// take these lines from each other.
#[repr(C)]
pub struct Slot<K, T: Stamped + Copy> {
    before: [u64; 8],
    lot: Lot<K, T>,
    behind: [u64; 8],
}

impl<K, T: Stamped + Copy> Model for Slot<K, T> {
    ghost use Rattle.turn_board.specs.declared.lot.Lot.{Lot as Lies};

    ghost Value = { Lies K T };

    ghost view = { λ h. h.lot };
}

impl<K, T: Stamped + Copy> Slot<K, T> {
    // A slot in which this lies.
    pub(crate) fn new(lot: Lot<K, T>) -> Slot<K, T>
        ensures { result ≡ lot }
    {
        Slot {
            before: [0; 8],
            lot,
            behind: [0; 8],
        }
    }

    // Puts this in, in place of what lay here. That.
    pub(crate) fn change(&mut self, lot: Lot<K, T>) -> Lot<K, T>
        ensures before { result ≡ self.old }
        ensures after { self.new ≡ lot }
    {
        mem::replace(&mut self.lot, lot)
    }

    // What lies here.
    pub(crate) fn into_lot(self) -> Lot<K, T>
        ensures { result ≡ self }
    {
        let Slot {
            before: _,
            lot,
            behind: _,
        } = self;
        lot
    }
}
