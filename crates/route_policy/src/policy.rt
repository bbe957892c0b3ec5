//! What every policy promises.

ghost use Rattle.std.specs.Prelude.{◌≡◌, ◌<◌, ℕ, Bool, List, Option, length};
ghost use Rattle.tuple_span.specs.Parts.{Parts};
ghost use Rattle.tuple_span.specs.declared.route.Route.{Route as TheRoute};
ghost use Rattle.route_policy.specs.declared.call.PolicyCall.{PolicyCall};
ghost use Rattle.route_policy.specs.Routes.{AreChoices, IsRoute};
ghost use Rattle.route_policy.specs.Counts.{counted_up};
ghost use Rattle.route_policy.specs.Calls.{Tells, chose, returned};

use tuple_span::{Route, Tuple};

/// What chooses the next route of each tuple.
///
/// It counts its choices in a number that stays at 18,446,744,073,709,551,615, and tells the calls
/// that were made of it, where it keeps them. What it tells after a call it told before it.
pub trait Policy: Drop {
    // How many choices it has made.
    ghost asked: { Self → ℕ };

    // The calls that were made of it, in order, where it tells them.
    ghost calls: { Self → Option (List PolicyCall) };

    // Which place it may choose for a tuple among routes, and what it is then.
    ghost may_choose: { Self → Parts → List TheRoute → ℕ → Self → Type 0 };

    // What it may be once it is told how many tuples came of a route.
    ghost may_become: { Self → TheRoute → ℕ → Self → Type 0 };

    // What it may be once it is told that a row of an alias arrives.
    ghost may_see: { Self → ℕ → Self → Type 0 };

    // Whether rows are claimed in the order of a survey under it.
    ghost by_survey: { Self → Bool };

    /// Chooses one of the legal routes of a tuple, and answers its place.
    ///
    /// There are 1 to 128, with conjuncts below 48 and aliases below 12.
    fn choose(&mut self, tuple: &Tuple, legal: &[Route]) -> usize
        requires choices { AreChoices legal.now }
        ensures within { result < length legal.now }
        ensures asked { asked self.new ≡ counted_up (asked self.old) }
        ensures told { Tells (calls self.old) (calls self.new) (chose tuple.now legal.now result) }
        ensures chosen { may_choose self.old tuple.now legal.now result self.new };

    /// Is told how many tuples came of a route that it chose. Its conjunct is below 48, and its
    /// alias below 12.
    fn returned(&mut self, route: Route, count: u64)
        requires known { IsRoute route }
        ensures asked { asked self.new ≡ asked self.old }
        ensures told { Tells (calls self.old) (calls self.new) (returned route count) }
        ensures learnt { may_become self.old route count self.new };

    /// Is told that a row of an alias arrives, where none of this alias has arrived so far. The alias is below 12.
    fn touched(&mut self, alias: u8)
        requires known { alias < 12 }
        ensures asked { asked self.new ≡ asked self.old }
        ensures calls { calls self.new ≡ calls self.old }
        ensures seen { may_see self.old alias self.new };

    /// Whether rows are to be claimed in the order of a survey of all rows, where there are many.
    fn claims_by_survey(&self) -> bool
        ensures { result ≡ by_survey self.now };

    /// How many choices it has made.
    fn asked(&self) -> u64
        ensures { result ≡ asked self.now };
}
