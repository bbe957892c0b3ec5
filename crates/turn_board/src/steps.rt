//! The single steps of a module's turn, on the clock and on a cursor.
ghost use Rattle.std.specs.Prelude.{◌≡◌, ◌≢◌, ◌+◌, ◌*◌, ◌/◌, ◌%◌, ◌<◌, ◌≤◌, ◌++◌, ℕ, [], ◌∷◌, length, slice_index, Some, true, false};
ghost use mathlib.Core.Option.{some};
ghost use lib.ListN.{get_elem?};
ghost use Rattle.turn_board.specs.declared.view.Hold.{Hold};
ghost use Rattle.turn_board.specs.Plays.{drew, took, noted, marked, marked_by, gave, got_row, got_none, slot_of, Sees};
ghost use Rattle.turn_board.specs.Sums.{Each, total};
ghost use Rattle.turn_board.specs.Tokens.{IsOne, view_at};
ghost use Rattle.turn_board.specs.Views.{dried, row_entered, unended, debts};

use crate::board::Board;
use crate::kept::Kept;
use crate::lot::Lot;
use crate::pool::Stamped;
use crate::seat::Token;
use crate::view::{
    Claiming, DrawFor, Drawing, FindingMarked, FindingNoted, Giving, Marking, Noting, Taking,
};

/// The first cursor's word.
pub(crate) const CURSORS: usize = 8;

/// The turn's word of the first module. The next ones lie each eight words on, so that the words of
/// one turn lie side by side and apart from those of others.
const TURNS: usize = 24;

impl<K: Kept, T: Stamped + Copy> Board<K, T> {
    // One step on a turn word. Where it was `found`, a free one, the seat has the turn.
    pub(crate) fn take_as(&self, token: &mut Token<K, T>, slot: u32, found: u64) -> u64
        requires board { token.old.table_id ≡ self.now.table.shared.table_id }
        requires one { IsOne token.old }
        requires idle { (token.old.me.1 ≡ []) × ((view_at token.old).hold ≡ None) }
        requires slot { slot < self.now.modules }
        requires found { found % 2 ≡ 0 }
        ensures board { (token.new.table_id ≡ token.old.table_id) × (token.new.id ≡ token.old.id) }
        ensures failed { result ≢ found → token.new.me ≡ token.old.me }
        ensures took { result ≡ found → (y : K) ×
            (token.new.me ≡ (took (view_at token.old) slot (found / 2 / 32) y ∷ [], (slot, Lot.OfModule y) ∷ []))
            × Sees K.history K.extends slot (view_at token.old) y × Each (λ e. e.1 < found / 2 / 32) (K.history y) }
    {
        let word = TURNS + 8 * slot as usize;
        self.table
            .shared
            .compare_exchange::<Taking>(token, word, found, found + 1)
    }

    // The module out of the slot that the seat has taken.
    pub(crate) fn take_out(&self, token: &mut Token<K, T>, slot: u32) -> K
        requires board { token.old.table_id ≡ self.now.table.shared.table_id }
        requires out { (y : K) × (token.old.me.1 ≡ (slot, Lot.OfModule y) ∷ []) }
        ensures board { token.new.table_id ≡ token.old.table_id }
        ensures value { token.old.me.1 ≡ (slot, Lot.OfModule result) ∷ [] }
        ensures out { token.new.me ≡ (token.old.me.0, (slot, Lot.Out) ∷ []) }
    {
        let place = token.slot_mut(&self.table.shared, slot as usize);
        let lot = place.change(Lot::Out);
        let Lot::OfModule(module) = lot else {
            unreachable!()
        };
        module
    }

    // The module into its slot again.
    pub(crate) fn put_in(&self, token: &mut Token<K, T>, slot: u32, value: K)
        requires board { token.old.table_id ≡ self.now.table.shared.table_id }
        requires out { token.old.me.1 ≡ (slot, Lot.Out) ∷ [] }
        ensures board { token.new.table_id ≡ token.old.table_id }
        ensures put { token.new.me ≡ (token.old.me.0, (slot, Lot.OfModule value) ∷ []) }
    {
        let empty = token.slot_mut(&self.table.shared, slot as usize);
        let lot = empty.change(Lot::OfModule(value));
        let Lot::Out = lot else { unreachable!() };
    }

    // One step on the clock.
    pub(crate) fn stamp_as<D: DrawFor>(&self, token: &mut Token<K, T>) -> u64
        requires board { token.old.table_id ≡ self.now.table.shared.table_id }
        requires one { IsOne token.old }
        requires hold { (h : Hold K) × ((view_at token.old).hold ≡ Some h) × (h.noted ≡ false)
            × (h.slot < self.now.modules) × (row_entered D.of_row (K.history h.taken ++ h.since) ≡ 0) }
        requires row { D.of_row < 4294967296 }
        ensures board { (token.new.table_id ≡ token.old.table_id) × (token.new.id ≡ token.old.id) }
        ensures drew { token.new.me ≡ (drew (view_at token.old) D.of_row result ∷ [], token.old.me.1) }
        ensures above { ((view_at token.old).reach ≤ result) × (result ≤ 68719476736)
            × ((h : Hold K) → (view_at token.old).hold ≡ Some h → h.bound ≤ result) }
    {
        self.table.shared.fetch_add::<Drawing<D>>(token, 0, 1)
    }

    // One look at an entry word. Where the count stands there already, that notes the state in the slot: a look is no
    // write, which would wait until all that was written before has reached the cache.
    fn find_noted(&self, token: &mut Token<K, T>, slot: u32, count: u64) -> u64
        requires board { token.old.table_id ≡ self.now.table.shared.table_id }
        requires slot { slot < self.now.modules }
        requires hold { (h : Hold K) × (z : K) × (token.old.me ≡ (view_at token.old ∷ [], (slot, Lot.OfModule z) ∷ []))
            × ((view_at token.old).hold ≡ Some h) × (h.noted ≡ false) × (h.slot ≡ slot) × K.extends h.taken z
            × (K.history z ≡ K.history h.taken ++ h.since) × (count ≡ length (K.history z)) }
        ensures board { (token.new.table_id ≡ token.old.table_id) × (token.new.id ≡ token.old.id) }
        ensures noted { result ≡ count → (z : K) → token.old.me.1 ≡ (slot, Lot.OfModule z) ∷ []
            → (token.new.me ≡ (noted (view_at token.old) z ∷ [], token.old.me.1))
            × (slot_of (view_at token.old).hold ≡ slot → get_elem? (noted (view_at token.old) z).saw slot
            ≡ some z) }
        ensures other { result ≢ count → token.new.me ≡ token.old.me }
    {
        // For the proof alone.
        let _count = count;
        let word = TURNS + 1 + 8 * slot as usize;
        self.table.shared.load::<FindingNoted>(token, word)
    }

    // One step on an entry word.
    fn write_noted(&self, token: &mut Token<K, T>, slot: u32, count: u64)
        requires board { token.old.table_id ≡ self.now.table.shared.table_id }
        requires slot { slot < self.now.modules }
        requires hold { (h : Hold K) × (z : K) × (token.old.me ≡ (view_at token.old ∷ [], (slot, Lot.OfModule z) ∷ []))
            × ((view_at token.old).hold ≡ Some h) × (h.noted ≡ false) × (h.slot ≡ slot) × K.extends h.taken z
            × (K.history z ≡ K.history h.taken ++ h.since) × (count ≡ length (K.history z)) }
        ensures board { (token.new.table_id ≡ token.old.table_id) × (token.new.id ≡ token.old.id) }
        ensures noted { (z : K) → token.old.me.1 ≡ (slot, Lot.OfModule z) ∷ []
            → (token.new.me ≡ (noted (view_at token.old) z ∷ [], token.old.me.1))
            × (slot_of (view_at token.old).hold ≡ slot → get_elem? (noted (view_at token.old) z).saw slot
            ≡ some z) }
    {
        let word = TURNS + 1 + 8 * slot as usize;
        self.table.shared.store::<Noting>(token, word, count)
    }

    // The count of entries noted on an entry word, by a look where it stands there.
    pub(crate) fn note_as(&self, token: &mut Token<K, T>, slot: u32, count: u64)
        requires board { token.old.table_id ≡ self.now.table.shared.table_id }
        requires slot { slot < self.now.modules }
        requires hold { (h : Hold K) × (z : K) × (token.old.me ≡ (view_at token.old ∷ [], (slot, Lot.OfModule z) ∷ []))
            × ((view_at token.old).hold ≡ Some h) × (h.noted ≡ false) × (h.slot ≡ slot) × K.extends h.taken z
            × (K.history z ≡ K.history h.taken ++ h.since) × (count ≡ length (K.history z)) }
        ensures board { (token.new.table_id ≡ token.old.table_id) × (token.new.id ≡ token.old.id) }
        ensures noted { (z : K) → token.old.me.1 ≡ (slot, Lot.OfModule z) ∷ []
            → (token.new.me ≡ (noted (view_at token.old) z ∷ [], token.old.me.1))
            × (slot_of (view_at token.old).hold ≡ slot → get_elem? (noted (view_at token.old) z).saw slot
            ≡ some z) }
    {
        if self.find_noted(token, slot, count) != count {
            self.write_noted(token, slot, count);
        }
    }

    // One look at a mark word, after the note. Where the count stands there already, that notes the marks.
    fn find_marked(&self, token: &mut Token<K, T>, slot: u32, count: u64) -> u64
        requires board { token.old.table_id ≡ self.now.table.shared.table_id }
        requires slot { slot < self.now.modules }
        requires hold { (h : Hold K) × (z : K) × (token.old.me ≡ (view_at token.old ∷ [], (slot, Lot.OfModule z) ∷ []))
            × ((view_at token.old).hold ≡ Some h) × (h.noted ≡ true) × (h.marked ≡ false) × (h.slot ≡ slot)
            × (get_elem? (view_at token.old).saw slot ≡ some z) × (length (K.marks h.taken) ≤ length (K.marks z))
            × (unended (K.marks h.taken) ≤ slice_index (view_at token.old).owed slot + unended (K.marks z))
            × (debts (marked_by K.marks (view_at token.old) z (Some h)) ≤ 1)
            × (count ≡ length (K.marks z)) }
        ensures board { (token.new.table_id ≡ token.old.table_id) × (token.new.id ≡ token.old.id) }
        ensures marked { result ≡ count → (z : K) → token.old.me.1 ≡ (slot, Lot.OfModule z) ∷ []
            → (token.new.me ≡ (marked K.marks (view_at token.old) z ∷ [], token.old.me.1))
            × (unended (K.marks z) < 32) }
        ensures other { result ≢ count → token.new.me ≡ token.old.me }
    {
        // For the proof alone.
        let _count = count;
        let word = TURNS + 2 + 8 * slot as usize;
        self.table.shared.load::<FindingMarked>(token, word)
    }

    // One step on a mark word, after the note.
    fn write_marked(&self, token: &mut Token<K, T>, slot: u32, count: u64)
        requires board { token.old.table_id ≡ self.now.table.shared.table_id }
        requires slot { slot < self.now.modules }
        requires hold { (h : Hold K) × (z : K) × (token.old.me ≡ (view_at token.old ∷ [], (slot, Lot.OfModule z) ∷ []))
            × ((view_at token.old).hold ≡ Some h) × (h.noted ≡ true) × (h.marked ≡ false) × (h.slot ≡ slot)
            × (get_elem? (view_at token.old).saw slot ≡ some z) × (length (K.marks h.taken) ≤ length (K.marks z))
            × (unended (K.marks h.taken) ≤ slice_index (view_at token.old).owed slot + unended (K.marks z))
            × (debts (marked_by K.marks (view_at token.old) z (Some h)) ≤ 1)
            × (count ≡ length (K.marks z)) }
        ensures board { (token.new.table_id ≡ token.old.table_id) × (token.new.id ≡ token.old.id) }
        ensures marked { (z : K) → token.old.me.1 ≡ (slot, Lot.OfModule z) ∷ []
            → (token.new.me ≡ (marked K.marks (view_at token.old) z ∷ [], token.old.me.1))
            × (unended (K.marks z) < 32) }
    {
        let word = TURNS + 2 + 8 * slot as usize;
        self.table.shared.store::<Marking>(token, word, count)
    }

    // The count of marks noted on a mark word, by a look where it stands there.
    pub(crate) fn mark_as(&self, token: &mut Token<K, T>, slot: u32, count: u64)
        requires board { token.old.table_id ≡ self.now.table.shared.table_id }
        requires slot { slot < self.now.modules }
        requires hold { (h : Hold K) × (z : K) × (token.old.me ≡ (view_at token.old ∷ [], (slot, Lot.OfModule z) ∷ []))
            × ((view_at token.old).hold ≡ Some h) × (h.noted ≡ true) × (h.marked ≡ false) × (h.slot ≡ slot)
            × (get_elem? (view_at token.old).saw slot ≡ some z) × (length (K.marks h.taken) ≤ length (K.marks z))
            × (unended (K.marks h.taken) ≤ slice_index (view_at token.old).owed slot + unended (K.marks z))
            × (debts (marked_by K.marks (view_at token.old) z (Some h)) ≤ 1)
            × (count ≡ length (K.marks z)) }
        ensures board { (token.new.table_id ≡ token.old.table_id) × (token.new.id ≡ token.old.id) }
        ensures marked { (z : K) → token.old.me.1 ≡ (slot, Lot.OfModule z) ∷ []
            → (token.new.me ≡ (marked K.marks (view_at token.old) z ∷ [], token.old.me.1))
            × (unended (K.marks z) < 32) }
    {
        if self.find_marked(token, slot, count) != count {
            self.write_marked(token, slot, count);
        }
    }

    // One step on a turn word, after the mark.
    pub(crate) fn give_as(&self, token: &mut Token<K, T>, slot: u32, open_keys: u64, bound: u64)
        requires board { token.old.table_id ≡ self.now.table.shared.table_id }
        requires slot { slot < self.now.modules }
        requires small { (bound < 288230376151711744) × (open_keys < 32) }
        requires hold { (h : Hold K) × (z : K) × (token.old.me ≡ (view_at token.old ∷ [], (slot, Lot.OfModule z) ∷ []))
            × ((view_at token.old).hold ≡ Some h) × (h.noted ≡ true) × (h.marked ≡ true) × (h.slot ≡ slot)
            × (get_elem? (view_at token.old).saw slot ≡ some z) × (open_keys ≡ unended (K.marks z))
            × (bound ≡ h.bound) }
        ensures board { (token.new.table_id ≡ token.old.table_id) × (token.new.id ≡ token.old.id) }
        ensures gave { token.new.me ≡ (gave (view_at token.old) ∷ [], []) }
    {
        let word = TURNS + 8 * slot as usize;
        self.table
            .shared
            .store::<Giving>(token, word, 2 * (open_keys + 32 * bound))
    }

    // One step on a cursor.
    pub(crate) fn claim_as(&self, token: &mut Token<K, T>, cursor: u32) -> u64
        requires board { token.old.table_id ≡ self.now.table.shared.table_id }
        requires one { IsOne token.old }
        requires cursor { cursor < length (view_at token.old).lengths }
        requires few { length (view_at token.old).lengths ≤ 16 }
        requires fresh { dried cursor (view_at token.old).dry ≡ 0 }
        ensures board { (token.new.table_id ≡ token.old.table_id) × (token.new.id ≡ token.old.id) }
        ensures row { result < slice_index (view_at token.old).lengths cursor → token.new.me
            ≡ (got_row (view_at token.old) cursor result ∷ [], token.old.me.1) }
        ensures none { slice_index (view_at token.old).lengths cursor ≤ result → token.new.me
            ≡ (got_none (view_at token.old) cursor ∷ [], token.old.me.1) }
    {
        let word = CURSORS + cursor as usize;
        self.table.shared.fetch_add::<Claiming>(token, word, 1)
    }
}

// The same for a row that is a value.
pub(crate) fn stamp_for<K: Kept, T: Stamped + Copy, D: DrawFor>(
    board: &Board<K, T>,
    token: &mut Token<K, T>,
    row: u32,
) -> u64
    requires picked { row ≡ D.of_row }
    requires board { token.old.table_id ≡ board.now.table.shared.table_id }
    requires one { IsOne token.old }
    requires hold { (h : Hold K) × ((view_at token.old).hold ≡ Some h) × (h.noted ≡ false)
        × (h.slot < board.now.modules) × (row_entered row (K.history h.taken ++ h.since) ≡ 0) }
    ensures board { (token.new.table_id ≡ token.old.table_id) × (token.new.id ≡ token.old.id) }
    ensures drew { token.new.me ≡ (drew (view_at token.old) row result ∷ [], token.old.me.1) }
    ensures above { ((view_at token.old).reach ≤ result) × (result ≤ 68719476736)
        × ((h : Hold K) → (view_at token.old).hold ≡ Some h → h.bound ≤ result) }
{
    // For the proof alone.
    let _row = row;
    board.stamp_as::<D>(token)
}
