//! What lies behind a pool's box: its items and its moves.
ghost use Rattle.std.specs.Prelude.{◌≡◌, ◌+◌, ◌-◌, ◌<◌, ◌≤◌, ◌++◌, ◌∷◌, [], length, max, All, IfOk, IfErr, true, false};
ghost use Rattle.std.specs.List.Sorted.{IsPermutation};
ghost use Rattle.turn_board.specs.Pools.{above, left_in, put_items, puts_in, taken_items, takes_in, top_of, TakeTheLast};

use crate::pool::{Move, PoolRefused, ROOM, Stamped};
use std::alloc::{AllocError, Global};
use std::marker::Model;

/// The items and moves of a pool. Seen as its sample, its moves and how many puts are left.
#[derive(Drop)]
pub(crate) struct Stock<T: Stamped + Copy> {
    sample: T,
    moves: Vec<Move<T>>,
    // The items that were put and not taken, the last one last.
    items: Vec<T>,
    puts_left: u32,
    // The greatest stamp that was put.
    greatest: Option<u64>,
}

impl<T: Stamped + Copy> Model for Stock<T> {
    ghost use Rattle.turn_board.specs.Pools.{PoolState};

    ghost Value = { PoolState T };

    ghost use Rattle.turn_board.specs.PoolFields.{IsPool};

    ghost view = { λ p. record { sample = p.sample; moves = p.moves.items; puts_left = p.puts_left } };

    ghost invariant = { IsPool T.same_plan T.stamp };
}

impl<T: Stamped + Copy> Stock<T> {
    /// A stock without items, with room for so many puts.
    ///
    /// # Errors
    /// There is no memory for the moves.
    pub(crate) fn new(alloc: Global, sample: T, puts: u32) -> Result<Stock<T>, AllocError>
        ensures { IfOk result (λ stock. stock ≡ record { sample = sample; moves = []; puts_left = puts }) }
    {
        let moves = Vec::with_capacity(alloc, 2 * puts as usize)?;
        let items = Vec::with_capacity(alloc, ROOM)?;
        Ok(Stock {
            sample,
            moves,
            items,
            puts_left: puts,
            greatest: None,
        })
    }

    /// Puts an item in.
    ///
    /// # Errors
    /// `Full`: there are 256 items.
    pub(crate) fn put(&mut self, item: T) -> Result<(), PoolRefused>
        requires left { 0 < self.old.puts_left }
        requires plan { T.same_plan item self.old.sample }
        ensures put { IfOk result (λ _. self.new ≡ record self.old {
          moves = self.old.moves
              ++ record { item = item; put = true } ∷ [];
          puts_left = self.old.puts_left - 1;
        }) }
        ensures room { IfOk result (λ _. length (left_in self.old.moves) < 256) }
        ensures full { IfErr result (λ e. (e ≡ PoolRefused.Full) × (self.new ≡ self.old)
            × (length (left_in self.old.moves) ≡ 256)) }
    {
        if self.items.len() == ROOM {
            return Err(PoolRefused::Full);
        }
        let stamp = item.stamp_of();
        self.moves.push_reserved(Move { item, put: true });
        self.items.push_reserved(item);
        self.puts_left -= 1;
        self.greatest = Some(greater(self.greatest, stamp));
        Ok(())
    }

    /// Takes out the item that was put last among those not taken.
    ///
    /// # Errors
    /// `Empty`: the pool holds none.
    pub(crate) fn take(&mut self) -> Result<T, PoolRefused>
        ensures taken { IfOk result (λ item. self.new
            ≡ record self.old { moves = self.old.moves ++ record { item = item; put = false } ∷ [] }) }
        ensures last { IfOk result (λ item. left_in self.old.moves ≡ left_in self.new.moves ++ item ∷ []) }
        ensures empty { IfErr result (λ e. (e ≡ PoolRefused.Empty) × (self.new ≡ self.old)
            × (left_in self.old.moves ≡ [])) }
    {
        let Some(item) = self.items.pop() else {
            return Err(PoolRefused::Empty);
        };
        self.moves.push_reserved(Move { item, put: false });
        Ok(item)
    }

    /// How many items it holds: the puts less the takings.
    pub(crate) fn len(&self) -> u32
        ensures items { result ≡ length (left_in self.now.moves) }
        ensures counted { result + takes_in self.now.moves ≡ puts_in self.now.moves }
        ensures few { result ≤ 256 }
    {
        self.items.len() as u32
    }

    /// For how many puts it has room.
    pub(crate) fn puts_left(&self) -> u32
        ensures { result ≡ self.now.puts_left }
    {
        self.puts_left
    }

    /// All its moves, in order.
    pub(crate) fn moves(&self) -> &[Move<T>]
        ensures moves { result.now ≡ self.now.moves }
        ensures settled { IsPermutation (put_items self.now.moves)
            (taken_items self.now.moves ++ left_in self.now.moves) }
        ensures plans { All (λ v. T.same_plan v.item self.now.sample) self.now.moves }
        ensures in_order { TakeTheLast [] self.now.moves }
    {
        self.moves.as_slice()
    }

    // One more than the greatest stamp that was put, or the floor where that is more.
    pub(crate) fn top(&self, floor: u64) -> u64
        requires { top_of T.stamp self.now.moves < 18446744073709551616 }
        ensures { result ≡ max floor (top_of T.stamp self.now.moves) }
    {
        match self.greatest {
            None => floor,
            Some(stamp) => floor.max(stamp + 1),
        }
    }
}

// The greater of two stamps, of which there may be one alone.
fn greater(old: Option<u64>, new: u64) -> u64
    ensures { result + 1 ≡ max (new + 1) (above old) }
{
    match old {
        None => new,
        Some(old) => old.max(new),
    }
}
