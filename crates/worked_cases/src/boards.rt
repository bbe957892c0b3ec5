//! Boards that one thread works, and boards that several do.
ghost use Rattle.std.specs.Prelude.{◌≡◌, ◌<◌, ◌≤◌, [], length, All, vec_len, vec_capacity, IfOk};
ghost use Rattle.turn_board.specs.Boards.{IsSeatOf, IsIdle, lengths_of, modules_of, seats_of};

use board_cases::{Rows, Ticket, board_of, drain_all, enter, look};
use std::alloc::{AllocError, Global};
use std::sync::Wait;
use std::test::Fail;
use turn_board::{Board, Closed, Pool, PoolRefused, Seat};

const SAMPLE: Ticket = Ticket { plan: 7, stamp: 0 };

// Whether each row below `rows` stands in the last module once, and none else. It is taken off.
fn has_each_once(
    alloc: Global,
    closed: &mut Closed<Rows, Ticket>,
    rows: usize,
) -> Result<bool, AllocError> {
    let Some(module) = closed.modules.pop() else {
        return Ok(false);
    };
    let mut seen = Vec::from_elem(alloc, false, rows)?;
    for entry in module.entries.iter() {
        let Some(flag) = seen.get_mut(entry.0 as usize) else {
            return Ok(false);
        };
        if *flag {
            return Ok(false);
        }
        *flag = true;
    }
    Ok(module.entries.len() == rows)
}

// The seat at a place enters the row in module 0.
fn enter_by<R: Wait>(
    rt: &R,
    board: &Board<Rows, Ticket>,
    seats: &mut [Seat<Rows, Ticket>],
    at: usize,
    row: u32,
) -> bool
    requires slot { 0 < modules_of board.now }
    requires seats { (at < length seats.old) × All (λ s. IsSeatOf board.now s × IsIdle s) seats.old }
    ensures seats { (length seats.new ≡ length seats.old) × All (λ s. IsSeatOf board.now s × IsIdle s) seats.new }
{
    enter(rt, board, &mut seats[at], 0, row)
}

// The seat at a place claims a row of cursor 0.
fn claim_by(board: &Board<Rows, Ticket>, seats: &mut [Seat<Rows, Ticket>], at: usize) -> Option<u32>
    requires cursor { 0 < length (lengths_of board.now) }
    requires seats { (at < length seats.old) × All (λ s. IsSeatOf board.now s × IsIdle s) seats.old }
    ensures seats { (length seats.new ≡ length seats.old) × All (λ s. IsSeatOf board.now s × IsIdle s) seats.new }
{
    board.claim(&mut seats[at], 0)
}

// The seat at a place looks into the pool.
fn look_by<R: Wait>(
    rt: &R,
    board: &Board<Rows, Ticket>,
    seats: &mut [Seat<Rows, Ticket>],
    at: usize,
) -> u32
    requires seats { (at < length seats.old) × All (λ s. IsSeatOf board.now s × IsIdle s) seats.old }
    ensures seats { (length seats.new ≡ length seats.old) × All (λ s. IsSeatOf board.now s × IsIdle s) seats.new }
{
    look(rt, board, &mut seats[at])
}

#[test]
fn two_seats_take_turns(rt: HostRuntime) -> Result<(), Fail> {
    let (board, mut seats) = board_of(rt.alloc(), 1, 0, &[2], 2)?;
    let list = seats.as_mut_slice();
    assert!(rt; enter_by(&rt, &board, list, 0, 1));
    assert!(rt; !enter_by(&rt, &board, list, 1, 1));
    assert!(rt; enter_by(&rt, &board, list, 1, 0));
    let claims = [
        claim_by(&board, list, 0),
        claim_by(&board, list, 1),
        claim_by(&board, list, 0),
        claim_by(&board, list, 0),
        claim_by(&board, list, 1),
    ];
    assert_eq!(rt; claims, [Some(0), Some(1), None, None, None]);
    assert_eq!(rt; look_by(&rt, &board, list, 1), 0);
    let closed = board.close(seats);
    assert_eq!(rt; closed.drawn, 2);
    assert_eq!(rt;
        closed.modules[0].entries.as_slice(),
        [(1, 0), (0, 1)].as_slice()
    );
    Ok(())
}

#[test]
fn one_seat_claims_and_draws(rt: HostRuntime) -> Result<(), Fail> {
    let (board, mut seats) = board_of(rt.alloc(), 1, 0, &[3], 1)?;
    let list = seats.as_mut_slice();
    let claims = [
        claim_by(&board, list, 0),
        claim_by(&board, list, 0),
        claim_by(&board, list, 0),
        claim_by(&board, list, 0),
    ];
    assert_eq!(rt; claims, [Some(0), Some(1), Some(2), None]);
    assert!(rt; enter_by(&rt, &board, list, 0, 0));
    let closed = board.close(seats);
    assert_eq!(rt; closed.modules[0].entries.as_slice(), [(0, 0)].as_slice());
    Ok(())
}

#[test]
fn two_threads_claim_each_row_once(rt: HostRuntime) -> Result<(), Fail> {
    let (board, mut seats) = board_of(rt.alloc(), 2, 0, &[500, 300], 2)?;
    drain_all(&rt, &board, seats.as_mut_slice(), 2, 0);
    drain_all(&rt, &board, seats.as_mut_slice(), 2, 1);
    let mut closed = board.close(seats);
    assert_eq!(rt; closed.drawn, 800);
    assert!(rt; has_each_once(rt.alloc(), &mut closed, 300)?);
    assert!(rt; has_each_once(rt.alloc(), &mut closed, 500)?);
    Ok(())
}

#[test]
fn four_threads_enter_ten_thousand_rows(rt: HostRuntime) -> Result<(), Fail> {
    let (board, mut seats) = board_of(rt.alloc(), 1, 0, &[10_000], 4)?;
    drain_all(&rt, &board, seats.as_mut_slice(), 4, 0);
    let mut closed = board.close(seats);
    assert_eq!(rt; closed.drawn, 10_000);
    assert!(rt; has_each_once(rt.alloc(), &mut closed, 10_000)?);
    Ok(())
}

// Puts items until the pool refuses one or has no room for more, and answers how many it took.
fn fill(pool: &mut Pool<Ticket>) -> u32
    requires { pool.old.sample.plan ≡ 7 }
    ensures { pool.new.sample.plan ≡ 7 }
{
    let room = pool.puts_left();
    for stamp in 0..room {
        let item = Ticket {
            plan: 7,
            stamp: u64::from(stamp),
        };
        if pool.put(item).is_err() {
            return stamp;
        }
    }
    room
}

#[test]
fn a_pool_holds_256_items(rt: HostRuntime) -> Result<(), Fail> {
    let mut pool = Pool::new(rt.alloc(), SAMPLE, 300)?;
    assert_eq!(rt; fill(&mut pool), 256);
    assert_eq!(rt;
        (pool.len(), pool.puts_left(), pool.moves().len()),
        (256, 44, 256)
    );
    for stamp in 0..256 {
        let Ok(item) = pool.take() else {
            panic!(rt; "an item is missing")
        };
        assert_eq!(rt; item.stamp, 255 - stamp);
    }
    assert_eq!(rt; pool.take().err(), Some(PoolRefused::Empty));
    assert_eq!(rt;
        (pool.len(), pool.puts_left(), pool.moves().len()),
        (0, 44, 512)
    );
    Ok(())
}
