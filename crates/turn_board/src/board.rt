//! The board, and what it gives back.
ghost use Rattle.std.specs.Prelude.{◌≡◌, ◌+◌, ◌*◌, ◌<◌, ◌≤◌, length, vec_len, vec_capacity};

use crate::kept::Kept;
use crate::lot::Slot;
use crate::pool::{Pool, Stamped};
use crate::view::{Law, SeatView, Terms};
use atomic_table::Table;
use std::alloc::Global;
use std::collections::LinkedList;
use std::sync::atomic::AtomicU64;

pub(crate) type Rows<K, T> = Table<
    Slot<K, T>,
    LinkedList<SeatView<K, T>>,
    Terms<K, T>,
    Law,
    Global,
>;

/// Modules and a pool that take turns, a clock and cursors.
pub struct Board<K: Kept, T: Stamped + Copy> {
    pub(crate) table: Rows<K, T>,
    pub(crate) lengths: Vec<u32>,
    // Sixteen words for each turn: how many seats wait for it, and what tells them that one went on to another.
    pub(crate) waiting: Vec<AtomicU64>,
    pub(crate) spare: Vec<K>,
    pub(crate) modules: u32,
    pub(crate) seats: u32,
    ghost told: { table.shared.key.lengths.value.items ≡ lengths.items },
    ghost words: { table.shared.table_id.words ≡ 32 + 8 * modules },
    ghost slots: { table.shared.table_id.slots ≡ modules + 1 },
    ghost few: { vec_len lengths ≤ 16 },
    ghost crew: { table.shared.key.seats ≡ seats },
    ghost manned: { 0 < seats },
    ghost deep: { length table.shared.key.opening.value.items ≡ modules },
    ghost wait: { vec_len waiting ≡ 16 * (modules + 1) },
    ghost room: { (vec_len spare ≡ 0) × (modules ≤ vec_capacity spare) },
}

/// There was no memory. The modules and the pool come back.
#[derive(Drop)]
pub struct MakeRefused<K, T: Stamped + Copy> {
    /// The modules that were handed in.
    pub modules: Vec<K>,
    /// The pool that was handed in.
    pub pool: Pool<T>,
}

/// What a closed board had: its modules and its pool, and how many stamps were drawn.
#[derive(Drop)]
pub struct Closed<K, T: Stamped + Copy> {
    /// The modules, as the last turns left them.
    pub modules: Vec<K>,
    /// The pool, as the last turn left it.
    pub pool: Pool<T>,
    /// How many stamps were drawn.
    pub drawn: u64,
}
