//! The laws of the definitions, as contracts of functions that do nothing.
ghost use Rattle.std.specs.Prelude.{◌≡◌, ◌<◌, ℕ, List, [], length};
ghost use Rattle.std.specs.List.Sorted.{IsPermutation};
ghost use Rattle.sq_value.specs.Relation.{Relation};
ghost use Rattle.sq_value.specs.declared.value.Value.{Value};
ghost use Rattle.bag_meaning.specs.Bag.{bag, selected, search_condition};
ghost use Rattle.bag_meaning.specs.Answer.{answer, IsAnswer};
ghost use Rattle.bag_meaning.specs.Credit.{credits, IsWhole};

use crate::combo::Built;
use sq_expr::Block;
use sq_value::Truth;

/// The law of the bag: its conjuncts together select what their conjunction, as one condition,
/// selects. It does nothing.
pub fn bag_law()
    ensures { (gives : ℕ → Value → Value → Truth) (block : Block) (tables : List Relation)
        → bag gives block tables ≡ selected gives block tables (search_condition block) }
{}

/// The laws of the answer. It does nothing.
///
/// What `answer` gives is an answer, `is_answer`, and there is no other, `only`. Without ORDER BY it
/// is the bag, `unordered`.
pub fn answer_laws()
    ensures is_answer { (gives : ℕ → Value → Value → Truth) (block : Block) (tables : List Relation)
        → IsAnswer gives block tables (answer gives block tables) }
    ensures only { (gives : ℕ → Value → Value → Truth) (block : Block) (tables : List Relation) (rows : List (List ℕ))
        → IsAnswer gives block tables rows → rows ≡ answer gives block tables }
    ensures unordered { (gives : ℕ → Value → Value → Truth) (block : Block) (tables : List Relation)
        → block.order ≡ [] → answer gives block tables ≡ bag gives block tables }
{}

/// The law of the credits: those of a log that has all parts of each match are the bag in another
/// order, so each match is credited just once. The block has an alias. It does nothing.
pub fn credit_law()
    ensures { (gives : ℕ → Value → Value → Truth) (block : Block) (tables : List Relation) (log : List Built)
        → 0 < length block.aliases → IsWhole gives block tables log
        → IsPermutation (bag gives block tables) (credits gives block tables log) }
{}
