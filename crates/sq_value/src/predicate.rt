//! Registered predicates: what a query may call.
ghost use Rattle.std.specs.Prelude.{◌≡◌, ℕ, Option, Some, None, IsSome, IfSome};

use crate::value::{ColType, Truth, Value};

/// The types of a registered predicate's two arguments.
#[derive(Clone, Copy, Debug, PartialEq, Eq)]
pub struct Kinds {
    /// The type of the first argument.
    pub first: ColType,
    /// The type of the second argument.
    pub second: ColType,
}

/// The registered predicates of a query: each has a name, a number, the types of its two
/// arguments, and a meaning, which is the truth that it gives of two values. The meaning of a
/// number belongs to the type, so it is the same for all values of the type.
pub trait Predicates {
    ghost use Rattle.std.specs.Prelude.{List};
    ghost use Rattle.sq_value.specs.declared.value.Value.{Value};
    ghost use Rattle.sq_value.specs.declared.value.Truth.{Truth};
    ghost use Rattle.sq_value.specs.declared.predicate.Kinds.{Kinds};
    ghost use Rattle.sq_value.specs.Relation.{HasKind};
    ghost use Rattle.sq_value.specs.Name.{IsSameName};

    // the truth that the predicate of a number gives of two values
    ghost gives: { ℕ → Value → Value → Truth };

    // the argument types of the predicate of a number, where there is one
    ghost kinds_of: { Self → ℕ → Option Kinds };

    // the number of the predicate of a name, where there is one
    ghost number_of: { Self → List ℕ → Option ℕ };

    /// The number of the predicate with this name; names are told apart without regard to the
    /// case of ASCII letters. None exactly where there is no such predicate.
    fn find(&self, name: &str) -> Option<u8>
        ensures number { result ≡ number_of self.now name.now }
        ensures known { IfSome result (λ n. IsSome (kinds_of self.now n)) }
        ensures alike { (other : List ℕ) → IsSameName name.now other → number_of self.now other ≡ result };

    /// The argument types of the predicate with this number.
    fn kinds(&self, number: u8) -> Kinds
        requires { IsSome (kinds_of self.now number) }
        ensures { kinds_of self.now number ≡ Some result };

    /// The truth that the predicate with this number gives of two values of its argument types,
    /// either of which may be null.
    fn call(&self, number: u8, x: &Value, y: &Value) -> Truth
        requires known { IsSome (kinds_of self.now number) }
        requires fits { IfSome (kinds_of self.now number) (λ k. HasKind k.first x.now × HasKind k.second y.now) }
        ensures { result ≡ gives number x.now y.now };
}

/// No predicate at all.
#[derive(Clone, Copy, Debug)]
pub struct NoPredicates;

impl Predicates for NoPredicates {
    ghost use Rattle.sq_value.specs.declared.value.Truth.TheVariants as truth;
    ghost use Rattle.sq_value.specs.declared.value.ColType.TheVariants as kind;

    ghost gives = { λ number x y. truth.Unknown };

    ghost kinds_of = { λ s number. None };

    ghost number_of = { λ s name. None };

    fn find(&self, _name: &str) -> Option<u8> {
        None
    }

    fn kinds(&self, _number: u8) -> Kinds
        ensures { result ≡ record { first = kind.Integer; second = kind.Integer } }
    {
        Kinds {
            first: ColType::Integer,
            second: ColType::Integer,
        }
    }

    fn call(&self, _number: u8, _x: &Value, _y: &Value) -> Truth
        ensures { result ≡ truth.Unknown }
    {
        Truth::Unknown
    }
}
