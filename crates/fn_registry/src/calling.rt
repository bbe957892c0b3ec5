//! Finding predicates by name and by number, and calling them.
ghost use Rattle.std.specs.Prelude.{◌≡◌, List, ℕ, map, IsSome, IfSome, Some};
ghost use Rattle.sq_value.specs.Name.{IsSameName};
ghost use Rattle.sq_value.specs.Relation.{HasKind};
ghost use Rattle.fn_registry.specs.Meaning.{gives_of};
ghost use Rattle.fn_registry.specs.Registry.{kinds_numbered, number_named};
ghost use Rattle.fn_registry.specs.Registry as spec;
ghost use Rattle.fn_registry.specs.Signatures.{signatures};

use crate::functions::Functions;
use crate::registered::Registered;
use sq_value::{Kinds, Truth, Value, same_name};

// The number of the first predicate with this name.
fn number_named<const M: u32>(items: &[Registered<M>], name: &str) -> Option<u8>
    ensures { result ≡ spec.number_named (map (λ r. r.signature) items.now) name.now }
{
    match items {
        [item, rest @ ..] => {
            if same_name(item.signature.name.as_str(), name) {
                Some(item.signature.number)
            } else {
                number_named(rest, name)
            }
        }
        [] => None,
    }
}

// The types of the first predicate with this number.
fn kinds_numbered<const M: u32>(items: &[Registered<M>], number: u8) -> Option<Kinds>
    ensures { result ≡ spec.kinds_numbered (map (λ r. r.signature) items.now) number }
{
    match items {
        [item, rest @ ..] => {
            if item.signature.number == number {
                Some(item.signature.kinds)
            } else {
                kinds_numbered(rest, number)
            }
        }
        [] => None,
    }
}

// The truth that the first predicate with this number gives.
fn call_numbered<const M: u32>(items: &[Registered<M>], number: u8, x: &Value, y: &Value) -> Truth
    requires known { IsSome (spec.kinds_numbered (map (λ r. r.signature) items.now) number) }
    requires fits { IfSome (spec.kinds_numbered (map (λ r. r.signature) items.now) number)
        (λ k. HasKind k.first x.now × HasKind k.second y.now) }
    ensures { result ≡ gives_of M number x.now y.now }
{
    for item in items {
        if item.signature.number == number {
            return item.call(x, y);
        }
    }
    unreachable!()
}

impl<const M: u32> Functions<M> {
    /// The number of the predicate with this name; names are told apart without regard to the case
    /// of ASCII letters. None exactly where there is no such predicate.
    pub fn find(&self, name: &str) -> Option<u8>
        ensures number { result ≡ number_named (signatures self.now) name.now }
        ensures known { IfSome result (λ n. IsSome (kinds_numbered (signatures self.now) n)) }
        ensures alike { (other : List ℕ) → IsSameName name.now other
            → number_named (signatures self.now) other ≡ result }
    {
        number_named(&self.items, name)
    }

    /// The types of the arguments of the predicate with this number.
    pub fn kinds(&self, number: u8) -> Kinds
        requires { IsSome (kinds_numbered (signatures self.now) number) }
        ensures { kinds_numbered (signatures self.now) number ≡ Some result }
    {
        kinds_numbered(&self.items, number).unwrap()
    }

    /// The truth that the predicate with this number gives of two values, which are null or of its
    /// types.
    pub fn call(&self, number: u8, x: &Value, y: &Value) -> Truth
        requires known { IsSome (kinds_numbered (signatures self.now) number) }
        requires fits { IfSome (kinds_numbered (signatures self.now) number)
            (λ k. HasKind k.first x.now × HasKind k.second y.now) }
        ensures { result ≡ gives_of M number x.now y.now }
    {
        call_numbered(&self.items, number, x, y)
    }
}
