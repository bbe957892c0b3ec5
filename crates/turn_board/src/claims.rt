//! Rows of the scan cursors.
ghost use Rattle.std.specs.Prelude.{◌≡◌, ◌<◌, ◌⊎◌, List, length, slice_index, IfSome, IfNone};
ghost use Rattle.turn_board.specs.Boards.{IsSeatOf, IsIdle, Completes, view, lengths_of};
ghost use Rattle.turn_board.specs.Plays.{got_row, got_none};
ghost use Rattle.turn_board.specs.Views.{dried};

use crate::board::Board;
use crate::kept::Kept;
use crate::pool::Stamped;
use crate::seat::Seat;
use crate::steps::CURSORS;

impl<K: Kept, T: Stamped + Copy> Board<K, T> {
    /// Claims the next row of a cursor. None where it stands at its length or past it, or where this
    /// seat was answered None for it before.
    pub fn claim(&self, seat: &mut Seat<K, T>, cursor: u32) -> Option<u32>
        requires seat { IsSeatOf self.now seat.old }
        requires cursor { cursor < length (lengths_of self.now) }
        ensures seat { IsSeatOf self.now seat.new }
        ensures idle { IsIdle seat.old → IsIdle seat.new }
        ensures completes { (family : List K) → Completes K.history K.extends family (view seat.new)
            → Completes K.history K.extends family (view seat.old) }
        ensures row { IfSome result (λ row. (row < slice_index (lengths_of self.now) cursor)
            × (dried cursor (view seat.old).dry ≡ 0) × (view seat.new ≡ got_row (view seat.old) cursor row)) }
        ensures none { IfNone result (((dried cursor (view seat.old).dry ≡ 0)
            × (view seat.new ≡ got_none (view seat.old) cursor))
            ⊎ ((0 < dried cursor (view seat.old).dry) × (view seat.new ≡ view seat.old))) }
    {
        let at = cursor as usize;
        if seat.dry[at] {
            return None;
        }
        let found = self.claim_as(&mut seat.token, cursor);
        if found < self.lengths[at] as u64 {
            Some(found as u32)
        } else {
            seat.dry[at] = true;
            None
        }
    }

    /// Whether any seat has asked a cursor for a row so far. It is a look that tells no seat anything, so no clause
    /// says more.
    pub fn is_begun(&self, cursor: u32) -> bool
        requires cursor { cursor < length (lengths_of self.now) }
    {
        self.table.shared.peek(CURSORS + cursor as usize) != 0
    }
}
