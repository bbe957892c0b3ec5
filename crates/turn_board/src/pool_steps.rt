//! The single steps of the pool's turn.
ghost use Rattle.std.specs.Prelude.{◌≡◌, ◌≢◌, ◌<◌, ◌≤◌, ◌++◌, ℕ, [], ◌∷◌, length, Some, None, true, false};
ghost use Rattle.turn_board.specs.declared.view.PoolHold.{PoolHold};
ghost use Rattle.turn_board.specs.Pools.{PoolState, IsLaterPool};
ghost use Rattle.turn_board.specs.PoolPlays.{took_pool, learnt, raised, noted_pool, gave_pool};
ghost use Rattle.turn_board.specs.Sums.{Each};
ghost use Rattle.turn_board.specs.Tokens.{IsOne, view_at};

use crate::board::Board;
use crate::kept::Kept;
use crate::lot::Lot;
use crate::pool::{Pool, Stamped};
use crate::seat::Token;
use crate::view::{GivingPool, Learning, NotingPool, Raising, TakingPool};

/// The turn's word of the first module. That of the pool lies behind the last one's.
const TURNS: usize = 24;

impl<K: Kept, T: Stamped + Copy> Board<K, T> {
    // One step on the pool's turn word. Where it was 0, the seat has the turn.
    pub(crate) fn take_pool_as(&self, token: &mut Token<K, T>) -> u64
        requires board { token.old.table_id ≡ self.now.table.shared.table_id }
        requires one { IsOne token.old }
        requires idle { (token.old.me.1 ≡ []) × ((view_at token.old).pooling ≡ None) }
        requires sized { length (view_at token.old).saw ≡ self.now.modules }
        ensures board { (token.new.table_id ≡ token.old.table_id) × (token.new.id ≡ token.old.id) }
        ensures failed { result ≢ 0 → token.new.me ≡ token.old.me }
        ensures took { result ≡ 0 → (y : PoolState T) × (top : ℕ)
            × (token.new.me ≡ (took_pool (view_at token.old) top y ∷ [], (self.now.modules, Lot.OfPool y) ∷ []))
            × ((x : PoolState T) → (view_at token.old).pool_saw ≡ Some x → IsLaterPool T.same_plan x y)
            × Each (λ v. v.put ≡ true → T.stamp v.item < top) y.moves }
    {
        let word = TURNS + 8 * self.modules as usize;
        self.table
            .shared
            .compare_exchange::<TakingPool>(token, word, 0, 1)
    }

    // The pool out of its slot, which the seat has taken.
    pub(crate) fn take_pool_out(&self, token: &mut Token<K, T>) -> Pool<T>
        requires board { token.old.table_id ≡ self.now.table.shared.table_id }
        requires out { (y : PoolState T) × (token.old.me.1 ≡ (self.now.modules, Lot.OfPool y) ∷ []) }
        ensures board { token.new.table_id ≡ token.old.table_id }
        ensures value { token.old.me.1 ≡ (self.now.modules, Lot.OfPool result) ∷ [] }
        ensures out { token.new.me ≡ (token.old.me.0, (self.now.modules, Lot.Out) ∷ []) }
    {
        let place = token.slot_mut(&self.table.shared, self.modules as usize);
        let lot = place.change(Lot::Out);
        let Lot::OfPool(pool) = lot else {
            unreachable!()
        };
        pool
    }

    // The pool into its slot again.
    pub(crate) fn put_pool_in(&self, token: &mut Token<K, T>, pool: Pool<T>)
        requires board { token.old.table_id ≡ self.now.table.shared.table_id }
        requires out { token.old.me.1 ≡ (self.now.modules, Lot.Out) ∷ [] }
        ensures board { token.new.table_id ≡ token.old.table_id }
        ensures put { token.new.me ≡ (token.old.me.0, (self.now.modules, Lot.OfPool pool) ∷ []) }
    {
        let empty = token.slot_mut(&self.table.shared, self.modules as usize);
        let lot = empty.change(Lot::OfPool(pool));
        let Lot::Out = lot else { unreachable!() };
    }

    // A look at the pool's top under its turn: the seat learns all stamps below it.
    pub(crate) fn learn_as(&self, token: &mut Token<K, T>) -> u64
        requires board { token.old.table_id ≡ self.now.table.shared.table_id }
        requires one { IsOne token.old }
        requires hold { (h : PoolHold T) × ((view_at token.old).pooling ≡ Some h) }
        ensures board { (token.new.table_id ≡ token.old.table_id) × (token.new.id ≡ token.old.id) }
        ensures learnt { (h : PoolHold T) → (view_at token.old).pooling ≡ Some h → (result ≡ h.top)
            × (result ≤ 68719476736) × (token.new.me ≡ (learnt (view_at token.old) result ∷ [], token.old.me.1)) }
    {
        let word = TURNS + 2 + 8 * self.modules as usize;
        self.table.shared.load::<Learning>(token, word)
    }

    // The pool's top becomes this one, which is none that the seat hasn't learnt or drawn.
    pub(crate) fn raise_as(&self, token: &mut Token<K, T>, top: u64)
        requires board { token.old.table_id ≡ self.now.table.shared.table_id }
        requires one { IsOne token.old }
        requires hold { (h : PoolHold T) × ((view_at token.old).pooling ≡ Some h) × (h.top ≤ top)
            × (top ≤ (view_at token.old).reach) }
        ensures board { (token.new.table_id ≡ token.old.table_id) × (token.new.id ≡ token.old.id) }
        ensures raised { token.new.me ≡ (raised (view_at token.old) top ∷ [], token.old.me.1) }
    {
        let word = TURNS + 2 + 8 * self.modules as usize;
        self.table.shared.store::<Raising>(token, word, top)
    }

    // One step on the word that counts the pool's moves.
    pub(crate) fn note_pool_as(&self, token: &mut Token<K, T>, count: u64)
        requires board { token.old.table_id ≡ self.now.table.shared.table_id }
        requires hold { (h : PoolHold T) × (z : PoolState T)
            × (token.old.me ≡ (view_at token.old ∷ [], (self.now.modules, Lot.OfPool z) ∷ []))
            × ((view_at token.old).pooling ≡ Some h) × (h.noted ≡ false) × IsLaterPool T.same_plan h.taken z
            × Each (λ v. v.put ≡ true → T.stamp v.item < h.top) z.moves × (count ≡ length z.moves) }
        ensures board { (token.new.table_id ≡ token.old.table_id) × (token.new.id ≡ token.old.id) }
        ensures noted { (z : PoolState T) → token.old.me.1 ≡ (self.now.modules, Lot.OfPool z) ∷ [] → token.new.me
            ≡ (noted_pool (view_at token.old) z ∷ [], token.old.me.1) }
    {
        let word = TURNS + 1 + 8 * self.modules as usize;
        self.table.shared.store::<NotingPool>(token, word, count)
    }

    // One step on the pool's turn word, after the note.
    pub(crate) fn give_pool_as(&self, token: &mut Token<K, T>)
        requires board { token.old.table_id ≡ self.now.table.shared.table_id }
        requires hold { (h : PoolHold T) × (z : PoolState T)
            × (token.old.me ≡ (view_at token.old ∷ [], (self.now.modules, Lot.OfPool z) ∷ []))
            × ((view_at token.old).pooling ≡ Some h) × (h.noted ≡ true) × ((view_at token.old).pool_saw ≡ Some z) }
        ensures board { (token.new.table_id ≡ token.old.table_id) × (token.new.id ≡ token.old.id) }
        ensures gave { token.new.me ≡ (gave_pool (view_at token.old) ∷ [], []) }
    {
        let word = TURNS + 8 * self.modules as usize;
        self.table.shared.store::<GivingPool>(token, word, 0)
    }
}
