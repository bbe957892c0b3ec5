//! A worker.

use turn_board::{Kept, Seat, Stamped};

/// A worker: its number and its seat, its policy, what it has in hand, and whether it came to its
/// end. There was no memory else.
#[repr(C)]
pub struct Hand<K: Kept, T: Stamped + Copy, P, O> {
    /// Its number, from 0.
    pub number: u32,
    /// Its seat of the board.
    pub seat: Seat<K, T>,
    /// The policy that it asks.
    pub policy: P,
    /// What it has in hand.
    pub work: O,
    /// Whether it came to its end; there was no memory else.
    pub ended: bool,
    /// Nothing: no worker writes where the next one reads.
    pub apart: [u64; 16],
}
