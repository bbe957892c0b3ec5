//! The registered predicates of the program that is shipped, as a query meets them.

use crate::functions::Functions;
use crate::shipped::SHIPPED;
use sq_value::{Kinds, Predicates, Truth, Value};

/// Registered predicates that queries can call, each with the meaning of its number among the
/// shipped ones.
#[derive(Drop)]
pub struct ShippedFunctions(pub Functions<SHIPPED>);

impl Predicates for ShippedFunctions {
    ghost use Rattle.fn_registry.specs.Meaning.{gives_of};
    ghost use Rattle.fn_registry.specs.Registry.{kinds_numbered, number_named};
    ghost use Rattle.fn_registry.specs.Signatures.{signatures};

    ghost gives = { λ number x y. gives_of 0 number x y };

    ghost kinds_of = { λ s number. kinds_numbered (signatures s.0) number };

    ghost number_of = { λ s name. number_named (signatures s.0) name };

    fn find(&self, name: &str) -> Option<u8> {
        self.0.find(name)
    }

    fn kinds(&self, number: u8) -> Kinds {
        self.0.kinds(number)
    }

    fn call(&self, number: u8, x: &Value, y: &Value) -> Truth {
        self.0.call(number, x, y)
    }
}
