//! A seat: the right to take turns, to draw and to claim.

use crate::lot::Slot;
use crate::pool::Stamped;
use crate::view::SeatView;
use std::collections::LinkedList;

pub(crate) type Token<K, T> = atomic_table::Seat<Slot<K, T>, LinkedList<SeatView<K, T>>>;

/// A seat of a board. It can't be copied or dropped, so that all are there when the board is closed.
pub struct Seat<K, T: Stamped + Copy> {
    pub(crate) token: Token<K, T>,
    pub(crate) dry: [bool; 16],
    // One more than the last stamp of the module that it has out, or the top of the pool.
    pub(crate) bound: u64,
    // Whose turn it took last: a module's, or the pool's. It means nothing.
    pub(crate) last: u32,
}
