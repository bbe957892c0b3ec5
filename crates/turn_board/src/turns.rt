//! A module's turn: it is taken out, stamps are drawn for it, and it is given back.
ghost use Rattle.std.specs.Prelude.{◌≡◌, ◌+◌, ◌<◌, ◌≤◌, ◌++◌, ℕ, List, [], ◌∷◌, slice_index, Some, None};
ghost use Rattle.turn_board.specs.Tokens.{IsOne, view_at};
ghost use Rattle.turn_board.specs.declared.view.Hold.{Hold};
ghost use Rattle.turn_board.specs.Boards.{IsSeatOf, IsIdle, IsBusy, Completes, view, modules_of};
ghost use Rattle.turn_board.specs.Plays.{drew, took, noted, marked, gave, Sees};
ghost use Rattle.turn_board.specs.Sums.{Each};
ghost use Rattle.turn_board.specs.Views.{row_entered, unended, debts};

use crate::board::Board;
use crate::kept::Kept;
use crate::lot::Lot;
use crate::pool::Stamped;
use crate::seat::{Seat, Token};
use crate::steps::stamp_for;
use std::marker::Brand;
use std::sync::Wait;

impl<K: Kept, T: Stamped + Copy> Board<K, T> {
    /// Waits for the turn of a module, and takes it out.
    pub fn take<R: Wait>(&self, rt: &R, seat: &mut Seat<K, T>, slot: u32) -> K
        requires seat { IsSeatOf self.now seat.old }
        requires idle { IsIdle seat.old }
        requires slot { slot < modules_of self.now }
        ensures seat { IsSeatOf self.now seat.new }
        ensures busy { IsBusy K.history K.extends slot result [] seat.new }
        ensures view { (bound : ℕ) × (view seat.new ≡ took (view seat.old) slot bound result)
            × Each (λ e. e.1 < bound) (K.history result) }
        ensures completes { (family : List K) → Completes K.history K.extends family (view seat.new)
            → Completes K.history K.extends family (view seat.old) }
        ensures sees { Sees K.history K.extends slot (view seat.old) result }
    {
        self.go_on(seat.last, slot);
        seat.last = slot;
        seat.bound = self.take_turn(rt, &mut seat.token, slot);
        self.take_out(&mut seat.token, slot)
    }

    // Waits until the seat has the turn, and answers the module's bound.
    fn take_turn<R: Wait>(&self, rt: &R, token: &mut Token<K, T>, slot: u32) -> u64
        requires board { token.old.table_id ≡ self.now.table.shared.table_id }
        requires one { IsOne token.old }
        requires idle { (token.old.me.1 ≡ []) × ((view_at token.old).hold ≡ None) }
        requires slot { slot < self.now.modules }
        ensures board { token.new.table_id ≡ token.old.table_id }
        ensures small { result < 288230376151711744 }
        ensures took { (y : K) × (token.new.me ≡ (
          took (view_at token.old) slot result y ∷ [],
          (slot, Lot.OfModule y)
              ∷ [],
        )) × Sees K.history K.extends slot (view_at token.old) y × Each (λ e. e.1 < result) (K.history y) }
    {
        for _ in rt.forever() {
            let found = self.await_free(rt, slot);
            if self.take_as(token, slot, found) == found {
                return found / 2 / 32;
            }
        }
        unreachable!()
    }

    /// Draws a stamp for a row of the module that the seat has out.
    pub fn stamp(&self, seat: &mut Seat<K, T>, slot: u32, row: u32) -> u64
        requires seat { IsSeatOf self.now seat.old }
        requires slot { slot < modules_of self.now }
        requires busy { (y : K) × (since : List (ℕ × ℕ)) × IsBusy K.history K.extends slot y since seat.old
            × (row_entered row (K.history y ++ since) ≡ 0) }
        ensures seat { IsSeatOf self.now seat.new }
        ensures busy { (y : K) (since : List (ℕ × ℕ)) → IsBusy K.history K.extends slot y since seat.old
            → IsBusy K.history K.extends slot y (since ++ (row, result) ∷ []) seat.new }
        ensures drew { view seat.new ≡ drew (view seat.old) row result }
        ensures completes { (family : List K) → Completes K.history K.extends family (view seat.new)
            → Completes K.history K.extends family (view seat.old) }
        ensures above { ((view seat.old).reach ≤ result)
            × ((h : Hold K) → (view seat.old).hold ≡ Some h → h.bound ≤ result) }
    {
        // For the proof alone.
        let _slot = slot;
        let stamp = stamp_for::<K, T, Brand>(self, &mut seat.token, row);
        seat.bound = stamp + 1;
        stamp
    }

    /// Gives the module and its turn back.
    pub fn give(&self, seat: &mut Seat<K, T>, slot: u32, value: K)
        requires seat { IsSeatOf self.now seat.old }
        requires slot { slot < modules_of self.now }
        requires busy { (y : K) × (since : List (ℕ × ℕ)) × IsBusy K.history K.extends slot y since seat.old
            × K.extends y value × (K.history value ≡ K.history y ++ since)
            × (unended (K.marks y) ≤ slice_index (view seat.old).owed slot + unended (K.marks value)) }
        requires thrifty { debts (marked K.marks (noted (view seat.old) value) value) ≤ 1 }
        ensures seat { IsSeatOf self.now seat.new }
        ensures idle { IsIdle seat.new }
        ensures gave { view seat.new ≡ gave (marked K.marks (noted (view seat.old) value) value) }
        ensures completes { (family : List K) → Completes K.history K.extends family (view seat.new)
            → Completes K.history K.extends family (view seat.old) }
    {
        let count = value.entered() as u64;
        let marks = value.marked();
        let open_keys = value.unended();
        self.put_in(&mut seat.token, slot, value);
        self.note_as(&mut seat.token, slot, count);
        self.mark_as(&mut seat.token, slot, marks);
        self.give_as(&mut seat.token, slot, open_keys, seat.bound);
        seat.bound = 0;
        self.wake(slot);
    }
}
