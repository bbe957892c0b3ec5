//! Modules and the pool move between their own places and the board's slots, in order and without
//! taking memory.
ghost use Rattle.std.specs.Prelude.{◌≡◌, ◌≤◌, ◌<◌, ◌+◌, ◌++◌, ◌∷◌, ℕ, map, vec_len, vec_capacity, [], List, slice_index_or, false};
ghost use Rattle.std.specs.Slots.{slots_items, slots_filled, slots_len, IsFull};
ghost use mathlib.Core.Option.{some};
ghost use lib.ListN.{get_elem?};
ghost use Rattle.turn_board.specs.Pools.{PoolState};

use crate::lot::{Lot, Slot};
use crate::pool::{Pool, Stamped};
use std::alloc::Global;

// Moves all of them into the slots, which have room, and the pool behind them.
pub(crate) fn move_in<K, T: Stamped + Copy>(
    modules: &mut Vec<K>,
    pool: Pool<T>,
    slots: &mut Vec<Slot<K, T>>,
)
    requires empty { slots.old.items ≡ [] }
    requires room { vec_len modules.old + 1 ≤ vec_capacity slots.old }
    requires none { vec_len slots.old ≡ 0 }
    ensures slots { slots.new.items ≡ map Lot.OfModule modules.old.items ++ Lot.OfPool pool ∷ [] }
    ensures modules { (modules.new.items ≡ []) × (vec_len modules.new ≡ 0)
        × (vec_capacity modules.new ≡ vec_capacity modules.old) }
{
    while let Some(module) = modules.pop() {
        slots.push_reserved(Slot::new(Lot::OfModule(module)));
    }
    slots.reverse();
    slots.push_reserved(Slot::new(Lot::OfPool(pool)));
}

// Moves all of them back.
pub(crate) fn move_out<K, T: Stamped + Copy>(
    modules: &mut Vec<K>,
    mut slots: Vec<Slot<K, T>>,
) -> Pool<T>
    requires slots { (were : List K) × (pool : PoolState T)
        × (slots.items ≡ map Lot.OfModule were ++ Lot.OfPool pool ∷ []) }
    requires empty { (modules.old.items ≡ []) × (vec_len modules.old ≡ 0) }
    requires room { vec_len slots ≤ vec_capacity modules.old + 1 }
    ensures { map Lot.OfModule modules.new.items ++ Lot.OfPool result ∷ [] ≡ slots.items }
{
    let Some(slot) = slots.pop() else {
        unreachable!()
    };
    let last = slot.into_lot();
    let Lot::OfPool(pool) = last else {
        unreachable!()
    };
    slots.reverse();
    while let Some(slot) = slots.pop() {
        let lot = slot.into_lot();
        let Lot::OfModule(module) = lot else {
            unreachable!()
        };
        modules.push_reserved(module);
    }
    slots.destroy_empty();
    pool
}

// The modules, in order, in the list that they came from, and the pool.
pub(crate) fn refill<K, T: Stamped + Copy>(
    closed: &mut atomic_table::Closed<Slot<K, T>, Global>,
    mut modules: Vec<K>,
    count: usize,
) -> (Vec<K>, Pool<T>)
    requires full { IsFull closed.old.slots }
    requires count { slots_len closed.old.slots ≡ count + 1 }
    requires modules { (m : ℕ) → m < count → (k : K)
        × (get_elem? (slots_items closed.old.slots) m ≡ some (Lot.OfModule k)) }
    requires pool { (p : PoolState T) × (get_elem? (slots_items closed.old.slots) count ≡ some (Lot.OfPool p)) }
    requires room { (vec_len modules ≡ 0) × (count ≤ vec_capacity modules) }
    ensures modules { (m : ℕ) (k : K) → m < count → get_elem? (slots_items closed.old.slots) m ≡ some (Lot.OfModule k)
        → get_elem? result.0.items m ≡ some k }
    ensures pool { get_elem? (slots_items closed.old.slots) count ≡ some (Lot.OfPool result.1) }
    ensures count { vec_len result.0 ≡ count }
    ensures emptied { (k : ℕ) → k < slots_len closed.new.slots → slice_index_or (slots_filled closed.new.slots) k false
        ≡ false }
{
    for i in 0..count {
        let slot = closed.take(i);
        let lot = slot.into_lot();
        let Lot::OfModule(module) = lot else {
            unreachable!()
        };
        modules.push_reserved(module);
    }
    let slot = closed.take(count);
    let last = slot.into_lot();
    let Lot::OfPool(pool) = last else {
        unreachable!()
    };
    (modules, pool)
}
