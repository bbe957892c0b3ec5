//! What a board keeps in its slots.
ghost use Rattle.std.specs.Prelude.{◌≡◌, ℕ, List, length, Bool};
ghost use mathlib.Core.List.{IsPrefix};
ghost use Rattle.turn_board.specs.Views.{unended as count_unended, AreLaterEnds};

/// A state module: a value that seats take out by turns.
///
/// It stands for a plan, a history of entries that only grows, and a list of marks. One state
/// *extends* another where it is a later state of the same module: each mark is still at its place, and one that was
/// ended stays ended.
pub trait Kept {
    type Plan;

    // What it was made for.
    ghost plan: { Self → Self.Plan };

    // The entries, each a row and a stamp, in order.
    ghost history: { Self → List (ℕ × ℕ) };

    // Whether each mark is ended.
    ghost marks: { Self → List Bool };

    // The second is a later state of the first.
    ghost extends: { Self → Self → Type 0 };

    /// How many entries it has.
    fn entered(&self) -> u32
        ensures { result ≡ length (history self.now) };

    /// How many marks it has.
    fn marked(&self) -> u64
        ensures { result ≡ length (marks self.now) };

    /// How many of its marks aren't ended.
    fn unended(&self) -> u64
        ensures { result ≡ count_unended (marks self.now) };

    ghost same: { (x : Self) → extends x x };

    ghost further: { (x y z : Self) → extends x y → extends y z → extends x z };

    ghost plan_stays: { (x y : Self) → extends x y → plan x ≡ plan y };

    ghost history_grows: { (x y : Self) → extends x y → IsPrefix (history x) (history y) };

    ghost marks_grow: { (x y : Self) → extends x y → AreLaterEnds (marks x) (marks y) };
}
