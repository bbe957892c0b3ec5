//! What a seat knows, and what each step tells it. No value of these types is made but `Terms`.
ghost use Rattle.std.specs.Prelude.{ℕ};

use crate::kept::Kept;
use crate::lot::Slot;
use crate::pool::{Move, Pool, Stamped};
use atomic_table::{Join, Play, Split, TableRule};
use std::collections::LinkedList;
use std::marker::{Brand, PhantomData};
use std::snapshot::Snapshot;

/// The turn that a seat holds: of which module, with the bound and the state that it found.
pub struct Hold<K> {
    /// The number of the module.
    pub slot: u64,
    /// One more than the last stamp of the module, what was drawn since included.
    pub bound: u64,
    /// The state of the module that the seat found.
    pub taken: K,
    /// What was drawn since, rows with their stamps.
    pub since: LinkedList<(u64, u64)>,
    /// Whether the seat has noted the state that it leaves.
    pub noted: bool,
    /// Whether the seat has told the marks that it made.
    pub marked: bool,
}

/// The pool's turn that a seat holds: with the pool that it found.
pub struct PoolHold<T: Stamped + Copy> {
    /// The pool that the seat found.
    pub taken: Pool<T>,
    /// One more than the greatest stamp that ever entered the pool, as the board's word has it.
    pub top: u64,
    /// Whether the seat has noted the state that it leaves.
    pub noted: bool,
}

/// The view of one seat.
pub struct SeatView<K, T: Stamped + Copy> {
    /// Its place in the list that `make` gave.
    pub number: u64,
    /// The lengths of the cursors.
    pub lengths: LinkedList<u32>,
    /// The turn of a module that it holds.
    pub hold: Option<Hold<K>>,
    /// Its draws: module, row and stamp.
    pub draws: LinkedList<(u64, u64, u64)>,
    /// Its claims: cursor and row.
    pub claims: LinkedList<(u64, u64)>,
    /// The cursors that answered it None.
    pub dry: LinkedList<u64>,
    /// What it saw of each module when it last gave the turn back.
    pub saw: LinkedList<K>,
    /// For each module one more than the greatest stamp drawn or learnt by then, or 0.
    pub tops: LinkedList<u64>,
    /// The marks that it made: module and place.
    pub made: LinkedList<(u64, u64)>,
    /// For each module how many keys it owes there.
    pub owed: LinkedList<u64>,
    /// One more than the greatest stamp that it drew or learnt, or 0.
    pub reach: u64,
    /// The pool's turn that it holds.
    pub pooling: Option<PoolHold<T>>,
    /// What it saw of the pool when it last gave that back.
    pub pool_saw: Option<Pool<T>>,
    /// Its moves of the pool, each with its place there.
    pub moves: LinkedList<(u64, Move<T>)>,
}

/// What a board is told when it is made.
pub struct Terms<K, T: Stamped + Copy> {
    /// The lengths of the cursors.
    pub lengths: Snapshot<Vec<u32>>,
    /// The modules at the beginning.
    pub opening: Snapshot<Vec<K>>,
    /// The pool at the beginning.
    pub pool: Snapshot<Pool<T>>,
    /// The number of seats.
    pub seats: u64,
}

impl<K, T: Stamped + Copy> Drop for Terms<K, T> {
    fn drop(self) {
        let Self {
            lengths: _,
            opening: _,
            pool: _,
            seats: _,
        } = self;
    }
}

/// The rule of the board: what holds between any two steps.
pub struct Law;

impl<K: Kept, T: Stamped + Copy> TableRule<Slot<K, T>, LinkedList<SeatView<K, T>>, Terms<K, T>>
    for Law {
    ghost use Rattle.std.specs.Prelude.{Some};
    ghost use Rattle.turn_board.specs.Rule.{IsBoard};
    ghost use Rattle.turn_board.specs.Views.{seats_from};

    ghost holds = { IsBoard K.history K.extends K.marks T.same_plan T.stamp };

    ghost first = { λ key. seats_from key.lengths.value.items key.opening.value.items
        (Some key.pool.value) 0 key.seats };
}

/// Which row a draw is for.
pub trait DrawFor {
    ghost of_row: { ℕ };
}

impl DrawFor for Brand {
    ghost of_row = { 0 };
}

pub(crate) struct Drawing<D> {
    of: PhantomData<D>,
}

impl<K: Kept, T: Stamped + Copy, D: DrawFor> Play<Slot<K, T>, LinkedList<SeatView<K, T>>>
    for Drawing<D> {
    ghost use Rattle.turn_board.specs.Plays.{Draws};

    ghost then = { Draws D.of_row };
}

pub(crate) struct Claiming;

impl<K: Kept, T: Stamped + Copy> Play<Slot<K, T>, LinkedList<SeatView<K, T>>> for Claiming {
    ghost use Rattle.turn_board.specs.Plays.{Claims};

    ghost then = { Claims };
}

pub(crate) struct Taking;

impl<K: Kept, T: Stamped + Copy> Play<Slot<K, T>, LinkedList<SeatView<K, T>>> for Taking {
    ghost use Rattle.turn_board.specs.Plays.{Takes};

    ghost then = { Takes K.history K.extends };
}

pub(crate) struct Noting;

impl<K: Kept, T: Stamped + Copy> Play<Slot<K, T>, LinkedList<SeatView<K, T>>> for Noting {
    ghost use Rattle.turn_board.specs.Plays.{Notes};

    ghost then = { Notes };
}

pub(crate) struct Marking;

impl<K: Kept, T: Stamped + Copy> Play<Slot<K, T>, LinkedList<SeatView<K, T>>> for Marking {
    ghost use Rattle.turn_board.specs.Plays.{Marks};

    ghost then = { Marks K.marks };
}

pub(crate) struct FindingNoted;

impl<K: Kept, T: Stamped + Copy> Play<Slot<K, T>, LinkedList<SeatView<K, T>>> for FindingNoted {
    ghost use Rattle.turn_board.specs.Plays.{FindsNoted};

    ghost then = { FindsNoted K.history };
}

pub(crate) struct FindingMarked;

impl<K: Kept, T: Stamped + Copy> Play<Slot<K, T>, LinkedList<SeatView<K, T>>> for FindingMarked {
    ghost use Rattle.turn_board.specs.Plays.{FindsMarked};

    ghost then = { FindsMarked K.marks };
}

pub(crate) struct Giving;

impl<K: Kept, T: Stamped + Copy> Play<Slot<K, T>, LinkedList<SeatView<K, T>>> for Giving {
    ghost use Rattle.turn_board.specs.Plays.{Gives};

    ghost then = { Gives };
}

pub(crate) struct TakingPool;

impl<K: Kept, T: Stamped + Copy> Play<Slot<K, T>, LinkedList<SeatView<K, T>>> for TakingPool {
    ghost use Rattle.turn_board.specs.PoolPlays.{TakesPool};

    ghost then = { TakesPool T.same_plan T.stamp };
}

pub(crate) struct Learning;

impl<K: Kept, T: Stamped + Copy> Play<Slot<K, T>, LinkedList<SeatView<K, T>>> for Learning {
    ghost use Rattle.turn_board.specs.PoolPlays.{Learns};

    ghost then = { Learns };
}

pub(crate) struct Raising;

impl<K: Kept, T: Stamped + Copy> Play<Slot<K, T>, LinkedList<SeatView<K, T>>> for Raising {
    ghost use Rattle.turn_board.specs.PoolPlays.{Raises};

    ghost then = { Raises };
}

pub(crate) struct NotingPool;

impl<K: Kept, T: Stamped + Copy> Play<Slot<K, T>, LinkedList<SeatView<K, T>>> for NotingPool {
    ghost use Rattle.turn_board.specs.PoolPlays.{NotesPool};

    ghost then = { NotesPool };
}

pub(crate) struct GivingPool;

impl<K: Kept, T: Stamped + Copy> Play<Slot<K, T>, LinkedList<SeatView<K, T>>> for GivingPool {
    ghost use Rattle.turn_board.specs.PoolPlays.{GivesPool};

    ghost then = { GivesPool };
}

pub(crate) struct Apart;

impl<K: Kept, T: Stamped + Copy> Split<LinkedList<SeatView<K, T>>> for Apart {
    ghost use Rattle.turn_board.specs.Plays.{behind_first, first_alone};

    ghost left = { λ v. behind_first v };

    ghost right = { λ v. first_alone v };
}

pub(crate) struct Together;

impl<K: Kept, T: Stamped + Copy> Join<LinkedList<SeatView<K, T>>> for Together {
    ghost use Rattle.std.specs.Prelude.{[], ◌++◌};

    ghost both = { λ v w. v ++ w };

    ghost spent = { [] };
}
