//! Seats that leave the first token one after another, and that come together in one again.
ghost use Rattle.std.specs.Prelude.{◌≡◌, ◌<◌, ◌≤◌, ℕ, [], length, vec_len, vec_capacity, map, replicate, Some, false};
ghost use Rattle.turn_board.specs.Boards.{IsSeatOf, IsIdle, view};
ghost use Rattle.turn_board.specs.Sums.{Each};
ghost use Rattle.turn_board.specs.Tokens.{IsOne};
ghost use Rattle.turn_board.specs.Views.{seats_from};

use crate::board::{Board, Rows};
use crate::kept::Kept;
use crate::pool::Stamped;
use crate::seat::{Seat, Token};
use crate::view::{Apart, Together};

fn new_seat<K: Kept, T: Stamped + Copy>(token: Token<K, T>) -> Seat<K, T>
    ensures token { result.token ≡ token }
    ensures fields { (result.dry ≡ replicate 16 false) × (result.bound ≡ 0) }
{
    Seat {
        token,
        dry: [false; 16],
        bound: 0,
        last: 0,
    }
}

// Splits the seats off the first token, in order.
pub(crate) fn deal<K: Kept, T: Stamped + Copy>(
    board: &Board<K, T>,
    mut first: Token<K, T>,
    mut list: Vec<Seat<K, T>>,
) -> Vec<Seat<K, T>>
    requires some { 0 < board.now.seats }
    requires board { first.table_id ≡ board.now.table.shared.table_id }
    requires views { first.me ≡ (
      seats_from board.now.lengths.items board.now.table.shared.key.opening.value.items
          (Some board.now.table.shared.key.pool.value) 0 board.now.seats,
      [],
    ) }
    requires list { (list.items ≡ []) × (vec_len list ≡ 0) × (board.now.seats ≤ vec_capacity list) }
    ensures seats { Each (λ s. IsSeatOf board.now s × IsIdle s) result.items }
    ensures views { map (λ s. view s) result.items
        ≡ seats_from board.now.lengths.items board.now.table.shared.key.opening.value.items
        (Some board.now.table.shared.key.pool.value) 0 board.now.seats }
    ensures count { (vec_len result ≡ board.now.seats) × (board.now.seats ≤ vec_capacity result) }
{
    for _k in 0..board.seats - 1 {
        let token = board.table.shared.split_seat::<Apart>(&mut first);
        list.push_reserved(new_seat(token));
    }
    list.push_reserved(new_seat(first));
    list
}

// All seats in one token, in order.
pub(crate) fn gather<K: Kept, T: Stamped + Copy>(
    board: &Rows<K, T>,
    mut seats: Vec<Seat<K, T>>,
) -> Token<K, T>
    requires some { 0 < vec_len seats }
    requires words { 0 < board.now.shared.table_id.words }
    requires seats { Each (λ s. (s.token.table_id ≡ board.now.shared.table_id) × IsOne s.token
        × (s.token.me.1 ≡ [])) seats.items }
    ensures board { result.table_id ≡ board.now.shared.table_id }
    ensures views { result.me ≡ (map (λ s. view s) seats.items, []) }
{
    let Some(last) = seats.pop() else {
        unreachable!()
    };
    let Seat {
        token: mut all,
        dry: _,
        bound: _,
        last: _,
    } = last;
    while let Some(seat) = seats.pop() {
        let Seat {
            mut token,
            dry: _,
            bound: _,
            last: _,
        } = seat;
        board.shared.join_seat::<Together>(&mut token, all);
        all = token;
    }
    seats.destroy_empty();
    all
}
