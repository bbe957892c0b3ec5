//! The pool's turn: it is taken out, and given back.
ghost use Rattle.std.specs.Prelude.{◌≡◌, ◌<◌, ◌≤◌, ℕ, List, [], ◌∷◌, Some, None, true, length, drop};
ghost use Rattle.turn_board.specs.Tokens.{IsOne, view_at};
ghost use Rattle.turn_board.specs.Boards.{IsSeatOf, IsIdle, IsPooling, Completes, view};
ghost use Rattle.turn_board.specs.Pools.{PoolState, IsLaterPool};
ghost use Rattle.turn_board.specs.PoolPlays.{took_pool, learnt, raised, noted_pool, gave_pool};
ghost use Rattle.turn_board.specs.Sums.{Each};

use crate::board::Board;
use crate::kept::Kept;
use crate::lot::Lot;
use crate::pool::{Pool, Stamped};
use crate::seat::{Seat, Token};
use std::sync::Wait;

impl<K: Kept, T: Stamped + Copy> Board<K, T> {
    /// Waits for the pool's turn, and takes the pool out. The seat learns all stamps that ever
    /// entered it.
    pub fn take_pool<R: Wait>(&self, rt: &R, seat: &mut Seat<K, T>) -> Pool<T>
        requires seat { IsSeatOf self.now seat.old }
        requires idle { IsIdle seat.old }
        ensures seat { IsSeatOf self.now seat.new }
        ensures pooling { IsPooling T.stamp result seat.new }
        ensures later { (x : PoolState T) → (view seat.old).pool_saw ≡ Some x → IsLaterPool T.same_plan x result }
        ensures view { (top : ℕ) × (view seat.new ≡ learnt (took_pool (view seat.old) top result) top) }
        ensures completes { (family : List K) → Completes K.history K.extends family (view seat.new)
            → Completes K.history K.extends family (view seat.old) }
        ensures learnt { Each (λ v. v.put ≡ true → T.stamp v.item < (view seat.new).reach) result.moves }
    {
        self.go_on(seat.last, self.modules);
        seat.last = self.modules;
        self.take_pool_turn(rt, &mut seat.token);
        seat.bound = self.learn_as(&mut seat.token);
        self.take_pool_out(&mut seat.token)
    }

    // Waits until the seat has the pool's turn.
    fn take_pool_turn<R: Wait>(&self, rt: &R, token: &mut Token<K, T>)
        requires board { token.old.table_id ≡ self.now.table.shared.table_id }
        requires one { IsOne token.old }
        requires idle { (token.old.me.1 ≡ []) × ((view_at token.old).pooling ≡ None) }
        requires sized { length (view_at token.old).saw ≡ self.now.modules }
        ensures board { token.new.table_id ≡ token.old.table_id }
        ensures took { (y : PoolState T) × (top : ℕ)
            × (token.new.me ≡ (took_pool (view_at token.old) top y ∷ [], (self.now.modules, Lot.OfPool y) ∷ []))
            × ((x : PoolState T) → (view_at token.old).pool_saw ≡ Some x → IsLaterPool T.same_plan x y)
            × Each (λ v. v.put ≡ true → T.stamp v.item < top) y.moves }
    {
        for _ in rt.forever() {
            self.await_free(rt, self.modules);
            if self.take_pool_as(token) == 0 {
                return;
            }
        }
        unreachable!()
    }

    /// Gives the pool and its turn back.
    pub fn give_pool(&self, seat: &mut Seat<K, T>, pool: Pool<T>)
        requires seat { IsSeatOf self.now seat.old }
        requires pooling { (y : PoolState T) × IsPooling T.stamp y seat.old × IsLaterPool T.same_plan y pool
            × Each (λ v. v.put ≡ true → T.stamp v.item < (view seat.old).reach) (drop (length y.moves) pool.moves) }
        ensures seat { IsSeatOf self.now seat.new }
        ensures idle { IsIdle seat.new }
        ensures gave { view seat.new ≡ gave_pool (noted_pool (view seat.old) pool) }
        ensures completes { (family : List K) → Completes K.history K.extends family (view seat.new)
            → Completes K.history K.extends family (view seat.old) }
    {
        let count = pool.moves().len() as u64;
        let top = pool.top(seat.bound);
        self.put_pool_in(&mut seat.token, pool);
        self.raise_as(&mut seat.token, top);
        self.note_pool_as(&mut seat.token, count);
        self.give_pool_as(&mut seat.token);
        seat.bound = 0;
        self.wake(self.modules);
    }
}
