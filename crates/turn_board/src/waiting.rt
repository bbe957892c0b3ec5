//! Waiting for a turn: a little while awake, and then asleep.
ghost use Rattle.std.specs.Prelude.{◌≡◌, ◌≤◌, ◌%◌, IfSome};

use crate::board::Board;
use crate::kept::Kept;
use crate::pool::Stamped;
use std::hint::spin_loop;
use std::sync::Wait;
use std::sync::atomic::{AtomicU64, Ordering};

/// How often a seat looks again before it sleeps: for some tens of microseconds at least, since a turn is mostly over
/// in less than one, and to sleep and be woken takes longer.
const LOOKS: u32 = 32;

/// How long a seat pauses at most between two looks, in the processor's shortest waits. Whoever looks again at once
/// takes the turn's word from the processor that has the turn, and the turn itself between two acts of one worker,
/// which finds near what it had before (Anderson 1990).
const PAUSES: u32 = 512;

impl<K: Kept, T: Stamped + Copy> Board<K, T> {
    // How many seats sleep until a turn's word is another.
    fn asleep(&self, slot: u32) -> &AtomicU64
        requires slot { slot ≤ self.now.modules }
    {
        &self.waiting[16 * slot as usize]
    }

    // How many seats wait for a turn awake.
    fn awake(&self, slot: u32) -> &AtomicU64
        requires slot { slot ≤ self.now.modules }
    {
        &self.waiting[16 * slot as usize + 1]
    }

    // How often a seat went on from this turn to another one while some waited awake. It lies 64 bytes behind the
    // counts, which are read at each turn.
    fn left(&self, slot: u32) -> &AtomicU64
        requires slot { slot ≤ self.now.modules }
    {
        &self.waiting[16 * slot as usize + 8]
    }

    /// Goes on from one turn to the next: where that is another, those that wait for the first one awake learn of it.
    /// They read nothing else that whoever has the turn writes: so they take no line of the processor's memory from it
    /// between its acts.
    pub(crate) fn go_on(&self, last: u32, next: u32) {
        if last != next && last <= self.modules && self.awake(last).load(Ordering::SeqCst) != 0 {
            self.left(last).fetch_add(1, Ordering::SeqCst);
        }
    }

    // Waits until a turn is free, and answers its word.
    pub(crate) fn await_free<R: Wait>(&self, rt: &R, slot: u32) -> u64
        requires slot { slot ≤ self.now.modules }
        ensures { result % 2 ≡ 0 }
    {
        let found = self.table.shared.peek(24 + 8 * slot as usize);
        if found % 2 == 0 {
            return found;
        }
        match self.watch(slot) {
            Some(found) => found,
            None => self.doze(rt, slot),
        }
    }

    // Waits awake until the turn is free, for a while. Its word, if it was.
    fn watch(&self, slot: u32) -> Option<u64>
        requires slot { slot ≤ self.now.modules }
        ensures { IfSome result (λ found. found % 2 ≡ 0) }
    {
        self.awake(slot).fetch_add(1, Ordering::SeqCst);
        let free = self.look(slot);
        self.awake(slot).fetch_sub(1, Ordering::SeqCst);
        free
    }

    // Looks until the turn is free, some times. Its word, if it was.
    fn look(&self, slot: u32) -> Option<u64>
        requires slot { slot ≤ self.now.modules }
        ensures { IfSome result (λ found. found % 2 ≡ 0) }
    {
        for _ in 0..LOOKS {
            let left = self.left(slot).load(Ordering::SeqCst);
            let found = self.table.shared.peek(24 + 8 * slot as usize);
            if found % 2 == 0 {
                return Some(found);
            }
            self.pause(slot, left);
        }
        None
    }

    // Pauses until a seat has gone on from the turn since it was left so often, or for a while.
    fn pause(&self, slot: u32, left: u64)
        requires slot { slot ≤ self.now.modules }
    {
        for _ in 0..PAUSES {
            if self.left(slot).load(Ordering::SeqCst) != left {
                return;
            }
            spin_loop();
        }
    }

    // Sleeps until the turn is free, and answers its word.
    fn doze<R: Wait>(&self, rt: &R, slot: u32) -> u64
        requires slot { slot ≤ self.now.modules }
        ensures { result % 2 ≡ 0 }
    {
        for _ in rt.forever() {
            let found = self.table.shared.peek(24 + 8 * slot as usize);
            if found % 2 == 0 {
                return found;
            }
            self.sleep(rt, slot, found);
        }
        unreachable!()
    }

    // Sleeps until the turn's word is another.
    fn sleep<R: Wait>(&self, rt: &R, slot: u32, found: u64)
        requires slot { slot ≤ self.now.modules }
    {
        self.asleep(slot).fetch_add(1, Ordering::SeqCst);
        self.table
            .shared
            .park(rt, 24 + 8 * slot as usize, (found & 0xffff_ffff) as u32);
        self.asleep(slot).fetch_sub(1, Ordering::SeqCst);
    }

    // Wakes one of those that sleep until a turn is free, if there are any.
    pub(crate) fn wake(&self, slot: u32)
        requires slot { slot ≤ self.now.modules }
    {
        if self.asleep(slot).load(Ordering::SeqCst) != 0 {
            self.table.shared.wake_one(24 + 8 * slot as usize);
        }
    }
}
