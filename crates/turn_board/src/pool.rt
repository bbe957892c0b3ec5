//! A pool of items that the seats share: the list of all its puts and takes.
ghost use Rattle.std.specs.Prelude.{◌≡◌, ◌+◌, ◌-◌, ◌<◌, ◌≤◌, ◌++◌, ◌∷◌, ℕ, [], length, max, All, IfOk, IfErr, true, false};
ghost use Rattle.std.specs.List.Sorted.{IsPermutation};
ghost use Rattle.turn_board.specs.Pools.{left_in, put_items, puts_in, taken_items, takes_in, top_of, TakeTheLast};

use crate::stock::Stock;
use std::alloc::{AllocError, Global};
use std::marker::Model;

/// The most items that lie in a pool at a time.
pub const ROOM: usize = 256;

/// What can lie in a pool: it stands for a stamp, and for a plan.
pub trait Stamped {
    // Its stamp.
    ghost stamp: { Self → ℕ };

    // The two are of one plan.
    ghost same_plan: { Self → Self → Type 0 };

    /// Its stamp.
    fn stamp_of(&self) -> u64
        ensures { result ≡ stamp self.now };

    ghost same: { (x : Self) → same_plan x x };

    ghost further: { (x y z : Self) → same_plan x y → same_plan y z → same_plan x z };

    ghost back: { (x y : Self) → same_plan x y → same_plan y x };
}

/// One move of a pool: an item that was put in, or taken out.
#[derive(Clone, Copy, Debug)]
pub struct Move<T> {
    /// The item.
    pub item: T,
    /// Whether it was put in; else it was taken out.
    pub put: bool,
}

/// Why a pool did not change.
#[derive(Clone, Copy, Debug, PartialEq, Eq)]
pub enum PoolRefused {
    /// It holds as many items as it may.
    Full,
    /// It holds none.
    Empty,
}

/// A pool of items. Seen as its sample, its moves and how many puts are left.
///
/// Each item of its moves has the plan of its sample, which is no move itself.
#[derive(Drop)]
pub struct Pool<T: Stamped + Copy> {
    // Behind a box, so that a lot is short: whoever has a module writes all of its lot.
    stock: Box<Stock<T>>,
}

impl<T: Stamped + Copy> Model for Pool<T> {
    ghost use Rattle.turn_board.specs.Pools.{PoolState};

    ghost Value = { PoolState T };

    ghost view = { λ p. p.stock.value };
}

impl<T: Stamped + Copy> Pool<T> {
    /// A pool without items, with room for so many puts.
    ///
    /// # Errors
    /// There is no memory for the moves.
    pub fn new(alloc: Global, sample: T, puts: u32) -> Result<Pool<T>, AllocError>
        ensures { IfOk result (λ pool. pool ≡ record { sample = sample; moves = []; puts_left = puts }) }
    {
        let stock = Stock::new(alloc, sample, puts)?;
        let stock = Box::new(alloc, stock)?;
        Ok(Pool { stock })
    }

    /// Puts an item in.
    ///
    /// # Errors
    /// `Full`: the pool holds 256 items.
    pub fn put(&mut self, item: T) -> Result<(), PoolRefused>
        requires left { 0 < self.old.puts_left }
        requires plan { T.same_plan item self.old.sample }
        ensures put { IfOk result (λ _. self.new ≡ record self.old {
          moves = self.old.moves
              ++ record { item = item; put = true } ∷ [];
          puts_left = self.old.puts_left - 1;
        }) }
        ensures room { IfOk result (λ _. length (left_in self.old.moves) < 256) }
        ensures full { IfErr result (λ e. (e ≡ PoolRefused.Full) × (self.new ≡ self.old)
            × (length (left_in self.old.moves) ≡ 256)) }
    {
        self.stock.put(item)
    }

    /// Takes out the item that was put last among those not taken.
    ///
    /// # Errors
    /// `Empty`: the pool holds none.
    pub fn take(&mut self) -> Result<T, PoolRefused>
        ensures taken { IfOk result (λ item. self.new
            ≡ record self.old { moves = self.old.moves ++ record { item = item; put = false } ∷ [] }) }
        ensures last { IfOk result (λ item. left_in self.old.moves ≡ left_in self.new.moves ++ item ∷ []) }
        ensures empty { IfErr result (λ e. (e ≡ PoolRefused.Empty) × (self.new ≡ self.old)
            × (left_in self.old.moves ≡ [])) }
    {
        self.stock.take()
    }

    /// How many items it holds: the puts less the takings.
    pub fn len(&self) -> u32
        ensures items { result ≡ length (left_in self.now.moves) }
        ensures counted { result + takes_in self.now.moves ≡ puts_in self.now.moves }
        ensures few { result ≤ 256 }
    {
        self.stock.len()
    }

    /// For how many puts it has room.
    pub fn puts_left(&self) -> u32
        ensures { result ≡ self.now.puts_left }
    {
        self.stock.puts_left()
    }

    /// All its moves, in order.
    pub fn moves(&self) -> &[Move<T>]
        ensures moves { result.now ≡ self.now.moves }
        ensures settled { IsPermutation (put_items self.now.moves)
            (taken_items self.now.moves ++ left_in self.now.moves) }
        ensures plans { All (λ v. T.same_plan v.item self.now.sample) self.now.moves }
        ensures in_order { TakeTheLast [] self.now.moves }
    {
        self.stock.moves()
    }

    // One more than the greatest stamp that was put, or the floor where that is more.
    pub(crate) fn top(&self, floor: u64) -> u64
        requires { top_of T.stamp self.now.moves < 18446744073709551616 }
        ensures { result ≡ max floor (top_of T.stamp self.now.moves) }
    {
        self.stock.top(floor)
    }
}
