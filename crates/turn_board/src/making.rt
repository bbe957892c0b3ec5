//! How a board is made and closed.
ghost use Rattle.std.specs.Prelude.{◌≡◌, ◌+◌, ◌*◌, ◌<◌, ◌≤◌, ℕ, [], length, vec_len, vec_capacity, All, IfOk, IfErr, map, replicate, Some};
ghost use Rattle.turn_board.specs.Boards.{IsSeatOf, IsIdle, IsClosing, view, lengths_of, modules_of, seats_of};
ghost use Rattle.turn_board.specs.Sums.{Each};
ghost use Rattle.turn_board.specs.Views.{seats_from};

use crate::board::{Board, Closed, MakeRefused};
use crate::deal::{deal, gather};
use crate::kept::Kept;
use crate::lot::Slot;
use crate::moves::{move_in, move_out, refill};
use crate::pool::{Pool, Stamped};
use crate::seat::Seat;
use crate::view::Terms;
use atomic_table::{Refused, Table};
use std::alloc::{AllocError, Global};
use std::snapshot::Snapshot;
use std::sync::atomic::AtomicU64;

// All that a board takes from memory, but for its table.
struct Room<K: Kept, T: Stamped + Copy> {
    words: Vec<u64>,
    lengths: Vec<u32>,
    waiting: Vec<AtomicU64>,
    slots: Vec<Slot<K, T>>,
    seats: Vec<Seat<K, T>>,
}

// So many counts at 0.
fn no_one_waits(alloc: Global, words: usize) -> Result<Vec<AtomicU64>, AllocError>
    ensures { IfOk result (λ v. vec_len v ≡ words) }
{
    let mut waiting = Vec::with_capacity(alloc, words)?;
    for _k in 0..words {
        waiting.push_reserved(AtomicU64::new(0));
    }
    Ok(waiting)
}

fn rooms<K: Kept, T: Stamped + Copy>(
    alloc: Global,
    modules: usize,
    lengths: &[u32],
    seats: u32,
) -> Result<Room<K, T>, AllocError>
    requires { modules ≤ 16 }
    ensures words { IfOk result (λ r. r.words.items ≡ replicate (32 + 8 * modules) 0) }
    ensures lengths { IfOk result (λ r. r.lengths.items ≡ lengths.now) }
    ensures waiting { IfOk result (λ r. vec_len r.waiting ≡ 16 * (modules + 1)) }
    ensures slots { IfOk result (λ r. (r.slots.items ≡ []) × (vec_len r.slots ≡ 0)
        × (modules + 1 ≤ vec_capacity r.slots)) }
    ensures seats { IfOk result (λ r. (r.seats.items ≡ []) × (vec_len r.seats ≡ 0) × (seats ≤ vec_capacity r.seats)) }
{
    let words = Vec::from_elem(alloc, 0u64, 32 + 8 * modules)?;
    let lengths = lengths.to_vec(alloc)?;
    let waiting = no_one_waits(alloc, 16 * (modules + 1))?;
    let slots = Vec::with_capacity(alloc, modules + 1)?;
    let Ok(seats) = Vec::with_capacity(alloc, seats as usize) else {
        slots.destroy_empty();
        return Err(AllocError);
    };
    Ok(Room {
        words,
        lengths,
        waiting,
        slots,
        seats,
    })
}

impl<K: Kept, T: Stamped + Copy> Board<K, T> {
    /// A board for these modules and this pool, with a cursor for each length, and its seats.
    ///
    /// # Errors
    /// There is no memory. The modules and the pool come back.
    pub fn make(
        alloc: Global,
        mut modules: Vec<K>,
        pool: Pool<T>,
        lengths: &[u32],
        seats: u32,
    ) -> Result<(Board<K, T>, Vec<Seat<K, T>>), MakeRefused<K, T>>
        requires modules { (0 < vec_len modules) × (vec_len modules ≤ 16) }
        requires lengths { length lengths.now ≤ 16 }
        requires seats { (0 < seats) × (seats ≤ 17) }
        requires empty { All (λ y. (K.history y ≡ []) × (K.marks y ≡ [])) modules.items }
        requires still { pool.moves ≡ [] }
        ensures board { IfOk result (λ r. (lengths_of r.0 ≡ lengths.now) × (seats_of r.0 ≡ seats)
            × (modules_of r.0 ≡ vec_len modules)) }
        ensures seats { IfOk result (λ r. All (λ s. IsSeatOf r.0 s × IsIdle s) r.1.items) }
        ensures views { IfOk result (λ r. map (λ s. view s) r.1.items
            ≡ seats_from lengths.now modules.items (Some pool) 0 seats) }
        ensures count { IfOk result (λ r. (vec_len r.1 ≡ seats) × (seats ≤ vec_capacity r.1)) }
        ensures refused { IfErr result (λ r. (r.modules.items ≡ modules.items) × (r.pool ≡ pool)) }
    {
        let Ok(room) = rooms(alloc, modules.len(), lengths, seats) else {
            return Err(MakeRefused { modules, pool });
        };
        let Room {
            words,
            lengths,
            waiting,
            mut slots,
            seats: list,
        } = room;
        let count = modules.len() as u32;
        let terms = Terms {
            lengths: Snapshot::of(&lengths),
            opening: Snapshot::of(&modules),
            pool: Snapshot::of(&pool),
            seats: u64::from(seats),
        };
        move_in(&mut modules, pool, &mut slots);
        match Table::new(alloc, words.as_slice(), slots, &terms) {
            Ok((table, first)) => {
                let board = Board {
                    table,
                    lengths,
                    waiting,
                    spare: modules,
                    modules: count,
                    seats,
                };
                let list = deal(&board, first, list);
                Ok((board, list))
            }
            Err(Refused { slots }) => {
                list.destroy_empty();
                let pool = move_out(&mut modules, slots);
                Err(MakeRefused { modules, pool })
            }
        }
    }

    /// Ends the board. It takes no memory.
    pub fn close(self, seats: Vec<Seat<K, T>>) -> Closed<K, T>
        requires all { vec_len seats ≡ seats_of self }
        requires seats { All (λ s. IsSeatOf self s × IsIdle s) seats.items }
        ensures closing { IsClosing K.history K.extends K.marks T.same_plan (lengths_of self) result.drawn
            (map (λ s. view s) seats.items) result.modules.items result.pool }
        ensures count { vec_len result.modules ≡ modules_of self }
    {
        let Board {
            table,
            lengths: _,
            waiting: _,
            spare,
            modules: count,
            seats: _,
        } = self;
        let token = gather(&table, seats);
        let mut closed = table.close_with(token);
        let drawn = closed.word(0);
        let (modules, pool) = refill(&mut closed, spare, count as usize);
        closed.free();
        Closed {
            modules,
            pool,
            drawn,
        }
    }
}
